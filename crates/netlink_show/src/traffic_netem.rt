//! What is shown of the data of netem: a structure, and the attributes behind it.

use crate::field::{Fields, Word, Wording};
use crate::list::{List, Seen, small};
use crate::part::{number_at, push_structure};
use crate::row::How::{Flat, Number, Own, Text};
use crate::row::Line::Never;
use crate::row::{Parts, Rows, Size};
use crate::traffic_rate::rate_with;
use crate::traffic_share::push_percent;
use crate::traffic_text::{Nanoseconds, Rate};
use netlink_packet_route::framing::AttributeSet;
use std::num::nearest_u64_to_f64;

/// Of `netem` (`TCA_NETEM_*` of `linux/pkt_sched.h`).
pub const NETEM: Rows = crate::rows![
    1 60 "corr" "" Own, Never;
    2 61 "delay_dist" "" Text, Never;
    3 4 "reorder" "reorder" Own;
    4 5 "corrupt" "corrupt" Own;
    5 0 "" "" Flat;
    6 6 "rate" "rate" Own;
    7 9 "ecn" "ecn" Own;
    8 62 "rate64" "" Number, Never;
    10 63 "latency64" "" Number, Never;
    11 64 "jitter64" "" Number, Never;
    12 7 "slot" "slot" Own;
    13 65 "slot_dist" "" Text, Never;
    14 8 "seed" "seed " Number;
];

/// Of the loss of packets by states (`NETEM_LOSS_*` of `linux/pkt_sched.h`).
pub const NETEM_LOSS: Rows = crate::rows![
    1 2 "loss-state" "loss state" Own;
    2 2 "loss-gemodel" "loss gemodel" Own;
];

/// How far one packet is as the last (`struct tc_netem_corr`).
const CORRELATIONS: Parts = crate::parts![
    U32 0 0 "delay_corr" "" Number;
    U32 4 1 "loss_corr" "" Number;
    U32 8 2 "dup_corr" "" Number;
];

/// Nanoseconds of a tick, and of a second.
const TICK: u64 = 64;

const SECOND: f64 = 1_000_000_000.0;

const LIMIT: Word = &Wording(0, "limit", "limit ");

const DELAYED: Word = &Wording(1, "delay", "delay");

const DELAY: Word = &Wording(0, "delay", "");

const JITTER: Word = &Wording(1, "jitter", "");

const CORRELATION: Word = &Wording(2, "correlation", "");

const LOST: Word = &Wording(2, "loss-random", "loss");

const LOSS: Word = &Wording(0, "loss", "");

const DOUBLED: Word = &Wording(3, "duplicate", "duplicate");

const DUPLICATE: Word = &Wording(0, "duplicate", "");

const REORDER: Word = &Wording(0, "reorder", "");

const CORRUPT: Word = &Wording(0, "corrupt", "");

const ECN: Word = &Wording(9, "ecn", "ecn");

const GAP: Word = &Wording(10, "gap", "gap ");

const RATE: Word = &Wording(0, "rate", "");

const PACKET: Word = &Wording(1, "packetoverhead", "packetoverhead ");

const CELL: Word = &Wording(2, "cellsize", "cellsize ");

const OF_CELL: Word = &Wording(3, "celloverhead", "celloverhead ");

const MIN_DELAY: Word = &Wording(0, "min-delay", "");

const MAX_DELAY: Word = &Wording(1, "max-delay", "");

const SPREAD: Word = &Wording(0, "distribution", "distribution ");

const PACKETS: Word = &Wording(2, "packets", "packets ");

const BYTES: Word = &Wording(3, "bytes", "bytes ");

const P13: Word = &Wording(0, "p13", "p13 ");

const P31: Word = &Wording(1, "p31", "p31 ");

const P32: Word = &Wording(2, "p32", "p32 ");

const P23: Word = &Wording(3, "p23", "p23 ");

const P14: Word = &Wording(4, "p14", "p14 ");

const TO_BAD: Word = &Wording(0, "p", "p ");

const TO_GOOD: Word = &Wording(1, "r", "r ");

const IN_BAD: Word = &Wording(2, "1-h", "1-h ");

const IN_GOOD: Word = &Wording(3, "1-k", "1-k ");

/// The structure in front of the attributes (`struct tc_netem_qopt` of `linux/pkt_sched.h`).
pub fn push_netem_front(fields: &mut Fields, list: List<'_>, seen: &Seen<'_>) {
    let Some(inner) = list.inside(seen) else {
        return;
    };
    let bytes = seen.bytes;
    fields.number(LIMIT, number_at(bytes, 4));
    let corr = match inner.first(1) {
        Some(seen) => seen.bytes,
        None => &[],
    };
    let delay = time_of(inner, 10, number_at(bytes, 0));
    if delay != 0 {
        let jitter = time_of(inner, 11, number_at(bytes, 20));
        push_delay(fields, delay, jitter, number_at(corr, 0));
    }
    push_chance(fields, LOST, LOSS, number_at(bytes, 8), number_at(corr, 4));
    push_chance(
        fields,
        DOUBLED,
        DUPLICATE,
        number_at(bytes, 16),
        number_at(corr, 8),
    );
    if !inner.has(7) {
        fields.word_if(ECN, false);
    }
    let gap = number_at(bytes, 12);
    fields.number(GAP, gap);
    fields.hide_if(gap == 0)
}

/// A time in nanoseconds, by the attribute of this number or by ticks.
fn time_of(list: List<'_>, number: u16, ticks: u32) -> u64 {
    match list.first(number) {
        Some(seen) => time_at(seen.bytes, 0),
        None => u64::from(ticks).saturating_mul(TICK),
    }
}

/// The nanoseconds that stand at a place.
fn time_at(bytes: &[u8], at: usize) -> u64 {
    Size::U64.number_at(bytes, at).unwrap_or(0)
}

/// A time, of which JSON has the seconds.
fn push_time(fields: &mut Fields, word: Word, time: u64) {
    fields.push(word, nearest_u64_to_f64(time) / SECOND, &Nanoseconds(time))
}

/// By how much packets are delayed.
fn push_delay(fields: &mut Fields, delay: u64, jitter: u64, correlation: u32) {
    let mut inside = Fields::new(fields.manner);
    push_time(&mut inside, DELAY, delay);
    push_time(&mut inside, JITTER, jitter);
    inside.hide_if(jitter == 0);
    push_percent(&mut inside, CORRELATION, correlation);
    inside.hide_if(jitter == 0 || correlation == 0);
    fields.object(DELAYED, inside)
}

/// How likely something is, and how far one packet is as the last.
fn push_chance(fields: &mut Fields, word: Word, of: Word, part: u32, correlation: u32) {
    if part == 0 {
        return;
    }
    let mut inside = Fields::new(fields.manner);
    push_percent(&mut inside, of, part);
    push_percent(&mut inside, CORRELATION, correlation);
    inside.hide_if(correlation == 0);
    fields.object(word, inside)
}

/// Structures.
pub fn push_own(fields: &mut Fields, list: List<'_>, word: Word, seen: &Seen<'_>) {
    let bytes = seen.bytes;
    let (first, second) = (number_at(bytes, 0), number_at(bytes, 4));
    match (list.nest.set, seen.number) {
        (AttributeSet::TcNetemLoss, 1) => push_states(fields, word, bytes),
        (AttributeSet::TcNetemLoss, _) => push_two_states(fields, word, bytes),
        (_, 1) => push_structure(fields, list, word, bytes, CORRELATIONS),
        (_, 3) => push_chance(fields, word, REORDER, first, second),
        (_, 4) => push_chance(fields, word, CORRUPT, first, second),
        (_, 6) => push_rate(fields, list, word, bytes),
        (_, 7) => fields.word_if(word, small(&seen.value) != 0),
        _ => push_slot(fields, word, bytes),
    }
}

/// At which rate packets go (`struct tc_netem_rate`).
fn push_rate(fields: &mut Fields, list: List<'_>, word: Word, bytes: &[u8]) {
    let rate = rate_with(list, 8, number_at(bytes, 0));
    let mut inside = Fields::new(fields.manner);
    inside.push(RATE, rate, &Rate(rate));
    push_some(&mut inside, PACKET, number_at(bytes, 4));
    push_some(&mut inside, CELL, number_at(bytes, 8));
    push_some(&mut inside, OF_CELL, number_at(bytes, 12));
    fields.object(word, inside);
    fields.hide_if(rate == 0)
}

/// A number with a sign, of which a line has nothing where it is 0.
fn push_some(inside: &mut Fields, word: Word, number: u32) {
    inside.number(word, number.cast_signed());
    inside.hide_if(number == 0)
}

/// In which slots of time they go (`struct tc_netem_slot`).
fn push_slot(fields: &mut Fields, word: Word, bytes: &[u8]) {
    let mut inside = Fields::new(fields.manner);
    match time_at(bytes, 32) {
        0 => {
            push_time(&mut inside, MIN_DELAY, time_at(bytes, 0));
            push_time(&mut inside, MAX_DELAY, time_at(bytes, 8));
        }
        jitter => {
            push_time(&mut inside, SPREAD, time_at(bytes, 24));
            push_time(&mut inside, JITTER, jitter);
        }
    }
    push_some(&mut inside, PACKETS, number_at(bytes, 16));
    push_some(&mut inside, BYTES, number_at(bytes, 20));
    fields.object(word, inside)
}

/// The loss by four states (`struct tc_netem_gimodel`).
fn push_states(fields: &mut Fields, word: Word, bytes: &[u8]) {
    let mut inside = Fields::new(fields.manner);
    push_percent(&mut inside, P13, number_at(bytes, 0));
    push_percent(&mut inside, P31, number_at(bytes, 4));
    push_percent(&mut inside, P32, number_at(bytes, 8));
    push_percent(&mut inside, P14, number_at(bytes, 12));
    push_percent(&mut inside, P23, number_at(bytes, 16));
    fields.object(word, inside)
}

/// The loss by two states (`struct tc_netem_gemodel`), of which two shares are those that are not lost.
fn push_two_states(fields: &mut Fields, word: Word, bytes: &[u8]) {
    let mut inside = Fields::new(fields.manner);
    push_percent(&mut inside, TO_BAD, number_at(bytes, 0));
    push_percent(&mut inside, TO_GOOD, number_at(bytes, 4));
    push_percent(&mut inside, IN_BAD, !number_at(bytes, 8));
    push_percent(&mut inside, IN_GOOD, number_at(bytes, 12));
    fields.object(word, inside)
}
