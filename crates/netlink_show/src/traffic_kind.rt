//! What is shown of the data of red, fq, prio and the fifos.

use crate::field::{Fields, Flags, ITEM, Word, Wording};
use crate::list::{List, Seen, small};
use crate::part::{number_at, push_structure};
use crate::row::How::{Number, Own, Text};
use crate::row::Line::Never;
use crate::row::{Rows, Size};
use crate::traffic::BITFIELD;
use crate::traffic_netem::push_netem_front;
use crate::traffic_sfq::push_sfq;
use crate::traffic_share::push_share;
use crate::traffic_text::{Bytes, Microseconds, Nanoseconds, Rate};
use netlink_packet_route::framing::AttributeSet;
use netlink_packet_route::tc::TcForm;

/// Of `red` (`TCA_RED_*` of `linux/pkt_sched.h`).
pub const RED: Rows = crate::rows![
    1 0 "" "" Own;
    2 60 "stab" "" Text, Never;
    3 8 "probability" "probability " Own;
    4 61 "flags" "" Own, Never;
    5 10 "qevents" "" Own;
    6 10 "qevents" "" Own;
];

/// Of `fq` (`TCA_FQ_*` of `linux/pkt_sched.h`).
pub const FQ: Rows = crate::rows![
    1 0 "limit" "limit " Own;
    2 1 "flow_limit" "flow_limit " Own;
    3 8 "quantum" "quantum " Own;
    4 9 "initial_quantum" "initial_quantum " Own;
    5 4 "pacing" "" Own;
    6 11 "defrate" "defrate " Own;
    7 10 "maxrate" "maxrate " Own;
    8 2 "buckets" "buckets " Own;
    9 13 "refill_delay" "refill_delay " Own;
    10 3 "orphan_mask" "orphan_mask " Number;
    11 12 "low_rate_threshold" "low_rate_threshold " Own;
    12 14 "ce_threshold" "ce_threshold " Own;
    13 15 "timer_slack" "timer_slack " Own;
    14 16 "horizon" "horizon " Own;
    15 17 "horizon_drop" "" Own;
    16 5 "" "" Own;
    17 7 "weights" "weights " Own;
    18 18 "offload_horizon" "offload_horizon " Own;
];

/// How packets are dropped (`TC_RED_*` of `linux/pkt_sched.h`).
const ECN: u32 = 0x1;

const HARD_DROP: u32 = 0x2;

const ADAPTIVE: u32 = 0x4;

const NO_DROP: u32 = 0x8;

const LIMIT: Word = &Wording(0, "limit", "limit ");

const BANDS: Word = &Wording(5, "bands", "bands ");

const BAND_OF: Word = &Wording(6, "priomap", "priomap ");

const FROM: Word = &Wording(1, "min", "min ");

const UP_TO: Word = &Wording(2, "max", "max ");

const WEIGHT: Word = &Wording(7, "ewma", "ewma ");

const CELL: Word = &Wording(9, "Scell_log", "Scell_log ");

const LIKELY: Word = &Wording(62, "Plog", "");

const EVENT: Word = &Wording(0, "", "qevent");

const KIND: Word = &Wording(0, "kind", "");

const BLOCK: Word = &Wording(1, "block", "block ");

/// The words of what is so of `red`.
const HOW: Flags = &[
    (ECN, &Wording(3, "ecn", "ecn")),
    (HARD_DROP, &Wording(4, "harddrop", "harddrop")),
    (ADAPTIVE, &Wording(5, "adaptive", "adaptive")),
    (NO_DROP, &Wording(6, "nodrop", "nodrop")),
];

const CAPPED: Word = &Wording(17, "horizon_cap", "horizon_cap");

const DROPPED: Word = &Wording(17, "horizon_drop", "horizon_drop");

/// What stands in front of a list in data of a kind, or is all of these.
pub fn push_front(fields: &mut Fields, list: List<'_>, seen: &Seen<'_>) {
    match list.nest.context.tc {
        TcForm::Prio => push_bands(fields, seen.bytes),
        TcForm::Fifo => push_fifo(fields, list, seen.bytes),
        TcForm::Netem => push_netem_front(fields, list, seen),
        TcForm::Sfq => push_sfq(fields, list, seen.bytes),
        _ => {}
    }
}

/// Structures, and numbers with units.
pub fn push_own(fields: &mut Fields, list: List<'_>, word: Word, seen: &Seen<'_>) {
    match (list.nest.set, seen.number) {
        (AttributeSet::TcQdiscRed, 1) => push_red(fields, list, seen.bytes),
        (AttributeSet::TcQdiscRed, 3) => push_share(fields, word, small(&seen.value)),
        (AttributeSet::TcQdiscRed, 4) => push_structure(fields, list, word, seen.bytes, BITFIELD),
        // The other attribute has both.
        (AttributeSet::TcQdiscRed, 6) if list.has(5) => {}
        (AttributeSet::TcQdiscRed, _) => push_events(fields, list, word),
        _ => push_fq(fields, word, seen),
    }
}

/// The bands of `prio`, and that of each priority (`struct tc_prio_qopt` of `linux/pkt_sched.h`).
fn push_bands(fields: &mut Fields, bytes: &[u8]) {
    fields.number(BANDS, number_at(bytes, 0).cast_signed());
    let mut inside = Fields::new(fields.manner);
    for band in bytes.get(4..20).unwrap_or(&[]) {
        inside.number(ITEM, u32::from(*band));
    }
    fields.list(BAND_OF, inside, " ")
}

/// How many packets or bytes may wait (`struct tc_fifo_qopt`).
fn push_fifo(fields: &mut Fields, list: List<'_>, bytes: &[u8]) {
    let limit = number_at(bytes, 0);
    match list.name(1) {
        Some("bfifo") => fields.push(LIMIT, limit, &Bytes(limit)),
        _ => push_packets(fields, LIMIT, limit),
    }
}

fn push_packets(fields: &mut Fields, word: Word, count: u32) {
    let text = format!(in fields.manner.alloc; "{count}p");
    fields.written(word, count, text)
}

/// When `red` drops packets (`struct tc_red_qopt`).
fn push_red(fields: &mut Fields, list: List<'_>, bytes: &[u8]) {
    let (limit, from, up_to) = (
        number_at(bytes, 0),
        number_at(bytes, 4),
        number_at(bytes, 8),
    );
    let [weight, likely, cell, flags] = number_at(bytes, 12).to_le_bytes();
    fields.push(LIMIT, limit, &Bytes(limit));
    fields.push(FROM, from, &Bytes(from));
    fields.push(UP_TO, up_to, &Bytes(up_to));
    let told = match list.first(4) {
        Some(seen) => number_at(seen.bytes, 0),
        None => 0,
    };
    let bits = told | u32::from(flags);
    for (bit, word) in HOW {
        fields.word_if(*word, bits & *bit != 0);
    }
    fields.number(WEIGHT, weight);
    fields.number(CELL, cell);
    fields.number(LIKELY, likely);
    fields.hide_if(list.has(3))
}

/// Which blocks of filters take packets that are dropped or marked.
fn push_events(fields: &mut Fields, list: List<'_>, word: Word) {
    let mut inside = Fields::new(fields.manner);
    push_event(&mut inside, "early_drop", list.number_if(5));
    push_event(&mut inside, "mark", list.number_if(6));
    fields.list(word, inside, " ")
}

/// Of which packets a block is, if there is one.
fn push_event(fields: &mut Fields, name: &str, block: Option<u32>) {
    if let Some(block) = block {
        let mut inside = Fields::new(fields.manner);
        inside.text(KIND, &name);
        inside.number(BLOCK, block);
        fields.object(EVENT, inside)
    }
}

/// What `fq` lets wait, and how it paces.
fn push_fq(fields: &mut Fields, word: Word, seen: &Seen<'_>) {
    let number = small(&seen.value);
    match seen.number {
        1 | 2 => push_packets(fields, word, number),
        3 | 4 => fields.push(word, number, &Bytes(number)),
        5 => fields.push(
            word,
            number != 0,
            &(if number == 0 { "nopacing" } else { "" }),
        ),
        6 => {
            fields.push(word, number, &Rate(number.into()));
            fields.hide_if(number == 0)
        }
        7 => {
            fields.push(word, number, &Rate(number.into()));
            fields.hide_if(number == u32::MAX)
        }
        8 => fields.number(word, 1u64.checked_shl(number).unwrap_or(0)),
        11 => fields.push(word, number, &Rate(number.into())),
        12 => {
            fields.push(word, number, &Microseconds(number));
            fields.hide_if(number == u32::MAX)
        }
        13 => fields.push(word, number, &Nanoseconds(number.into())),
        15 if number == 0 => fields.mark(CAPPED),
        15 => fields.mark(DROPPED),
        16 => push_bands(fields, seen.bytes),
        17 => push_weights(fields, word, seen.bytes),
        _ => fields.push(word, number, &Microseconds(number)),
    }
}

/// The weights of bands.
fn push_weights(fields: &mut Fields, word: Word, bytes: &[u8]) {
    let mut inside = Fields::new(fields.manner);
    for place in 0..bytes.len() {
        let Some(weight) = Size::U32.number_in(bytes, place) else {
            break;
        };
        let weight = u32::try_from(weight).unwrap_or(u32::MAX);
        inside.number(ITEM, weight.cast_signed());
    }
    fields.list(word, inside, " ")
}
