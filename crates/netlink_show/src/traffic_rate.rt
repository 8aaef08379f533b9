//! What is shown of the data of htb and tbf, and of rates and sizes that others have too.

use crate::field::{Fields, Word, Wording};
use crate::list::{List, Seen, wide};
use crate::names::Names;
use crate::part::number_at;
use crate::row::How::{Mark, Number, Own, Signed, Text};
use crate::row::Line::Never;
use crate::row::{Parts, Rows, Size};
use crate::traffic_text::{Bytes, Microseconds, Rate};
use netlink_packet_route::framing::AttributeSet;

/// Of `htb` and its classes (`TCA_HTB_*` of `linux/pkt_sched.h`).
pub const HTB: Rows = crate::rows![
    1 0 "" "" Own;
    2 0 "" "" Own;
    3 60 "ctab" "" Text, Never;
    4 61 "rtab" "" Text, Never;
    5 20 "direct_qlen" "direct_qlen " Number;
    6 62 "rate64" "" Number, Never;
    7 63 "ceil64" "" Number, Never;
    9 21 "offload" "offload" Mark;
];

/// Of `tbf` (`TCA_TBF_*` of `linux/pkt_sched.h`).
pub const TBF: Rows = crate::rows![
    1 0 "" "" Own;
    2 60 "rtab" "" Text, Never;
    3 61 "ptab" "" Text, Never;
    4 62 "rate64" "" Number, Never;
    5 63 "prate64" "" Number, Never;
    6 64 "burst_bytes" "" Number, Never;
    7 65 "pburst_bytes" "" Number, Never;
];

/// What htb counts of a class (`struct tc_htb_xstats` of `linux/pkt_sched.h`).
pub const HTB_COUNTS: Parts = crate::parts![
    U32 0 30 "lended" "" Number, Never;
    U32 4 31 "borrowed" "" Number, Never;
    U32 8 32 "giants" "" Number, Never;
    U32 12 33 "tokens" "" Signed, Never;
    U32 16 34 "ctokens" "" Signed, Never;
];

/// What counts the size of a packet (`TC_LINKLAYER_*` of `linux/pkt_sched.h`).
pub const LAYERS: Names = &[(0, "unspec"), (1, "ethernet"), (2, "atm")];

/// Ticks of 64 nanoseconds in a second.
const TICKS: u64 = 15_625_000;

/// The same in a microsecond, and in a second, eight times.
const EIGHTHS: u64 = 125;

const MILLION_EIGHTHS: u64 = 125_000_000;

const R2Q: Word = &Wording(0, "r2q", "r2q ");

const DEFAULT: Word = &Wording(1, "default", "default ");

const DIRECT: Word = &Wording(2, "direct_packets_stat", "direct_packets_stat ");

const VERSION: Word = &Wording(3, "ver", "ver ");

const DEBUG: Word = &Wording(64, "debug", "");

const PRIORITY: Word = &Wording(0, "prio", "prio ");

const QUANTUM: Word = &Wording(1, "quantum", "quantum ");

const RATE: Word = &Wording(2, "rate", "rate ");

const OVERHEAD: Word = &Wording(3, "overhead", "overhead ");

const CEIL: Word = &Wording(4, "ceil", "ceil ");

const LAYER: Word = &Wording(5, "linklayer", "linklayer ");

/// How much goes at once, in cells of which size, and the smallest size.
type Once = (Word, Word, Word);

const AT_RATE: Once = (
    &Wording(6, "burst", "burst "),
    &Wording(7, "burst_cell", "/"),
    &Wording(8, "mpu_rate", "mpu "),
);

const AT_CEIL: Once = (
    &Wording(9, "cburst", "cburst "),
    &Wording(10, "cburst_cell", "/"),
    &Wording(11, "mpu_ceil", "mpu "),
);

const LEVEL: Word = &Wording(12, "level", "level ");

const BURST: Word = &Wording(6, "burst", "burst ");

const SMALLEST: Word = &Wording(7, "mpu", "mpu ");

const PEAK: Word = &Wording(8, "peakrate", "peakrate ");

const MTU: Word = &Wording(9, "mtu", "mtu ");

const SMALLEST_AT_PEAK: Word = &Wording(10, "peak_mpu", "mpu ");

const LATENCY: Word = &Wording(11, "lat", "lat ");

const BELOW: Word = &Wording(12, "linklayer", "linklayer ");

const WAITING: Word = &Wording(66, "limit", "");

/// Structures.
pub fn push_own(fields: &mut Fields, list: List<'_>, seen: &Seen<'_>) {
    match (list.nest.set, seen.number) {
        (AttributeSet::TcQdiscHtb, 1) => push_class(fields, list, seen.bytes),
        (AttributeSet::TcQdiscHtb, _) => push_htb(fields, seen.bytes),
        _ => push_tbf(fields, list, seen.bytes),
    }
}

/// A rate of four bytes, in a `struct tc_ratespec` that begins at a place.
pub fn rate_of(bytes: &[u8], at: usize) -> u32 {
    number_at(bytes.get(at..).unwrap_or(&[]), 8)
}

/// A rate, of which an attribute of this number may have more bytes.
pub fn rate_with(list: List<'_>, number: u16, rate: u32) -> u64 {
    match list.first(number) {
        Some(seen) => wide(&seen.value),
        None => rate.into(),
    }
}

/// How many bytes go at a rate in so many ticks.
pub fn size_at(rate: u64, ticks: u64) -> u64 {
    rate.saturating_mul(ticks) / TICKS
}

/// What holds for all classes (`struct tc_htb_glob`).
fn push_htb(fields: &mut Fields, bytes: &[u8]) {
    let alloc = fields.manner.alloc;
    let version = number_at(bytes, 0);
    fields.number(R2Q, number_at(bytes, 4));
    fields.bits(DEFAULT, number_at(bytes, 8));
    fields.number(DIRECT, number_at(bytes, 16));
    fields.made(
        VERSION,
        format!(in alloc; "{}.{}", version >> 16, version & 0xffff),
    );
    fields.number(DEBUG, number_at(bytes, 12));
    fields.hide()
}

/// What a class may send (`struct tc_htb_opt`).
fn push_class(fields: &mut Fields, list: List<'_>, bytes: &[u8]) {
    let (rate, ceil) = (
        rate_with(list, 6, rate_of(bytes, 0)),
        rate_with(list, 7, rate_of(bytes, 12)),
    );
    let level = number_at(bytes, 36);
    if level == 0 {
        fields.number(PRIORITY, number_at(bytes, 40));
        fields.number(QUANTUM, number_at(bytes, 32));
    }
    fields.push(RATE, rate, &Rate(rate));
    let overhead = Size::U16.number_at(bytes, 2).unwrap_or(0);
    if overhead != 0 {
        fields.number(OVERHEAD, overhead);
    }
    fields.push(CEIL, ceil, &Rate(ceil));
    push_layer(fields, LAYER, bytes);
    push_once(
        fields,
        AT_RATE,
        size_at(rate, number_at(bytes, 24).into()),
        bytes,
    );
    let of_ceil = bytes.get(12..).unwrap_or(&[]);
    push_once(
        fields,
        AT_CEIL,
        size_at(ceil, number_at(bytes, 28).into()),
        of_ceil,
    );
    fields.number(LEVEL, level)
}

/// The layer of a `struct tc_ratespec`.
fn push_layer(fields: &mut Fields, word: Word, spec: &[u8]) {
    let layer = spec.get(1).copied().unwrap_or(0) & 0xf;
    fields.named(word, LAYERS, layer)
}

/// How much goes at once, the cells and the smallest size of a `struct tc_ratespec`.
fn push_once(fields: &mut Fields, words: Once, size: u64, spec: &[u8]) {
    let (burst, cell, smallest) = words;
    fields.push(burst, size, &Bytes(u32::try_from(size).unwrap_or(u32::MAX)));
    fields.number(cell, cell_of(spec));
    push_smallest(fields, smallest, spec)
}

/// The size of a cell.
fn cell_of(spec: &[u8]) -> u64 {
    let log = spec.first().copied().unwrap_or(0);
    1u64.checked_shl(log.into()).unwrap_or(0)
}

/// The smallest size of a packet.
fn push_smallest(fields: &mut Fields, word: Word, spec: &[u8]) {
    let size = Size::U16.number_at(spec, 6).unwrap_or(0);
    fields.push(word, size, &Bytes(u32::try_from(size).unwrap_or(u32::MAX)))
}

/// What `tbf` lets through (`struct tc_tbf_qopt`).
fn push_tbf(fields: &mut Fields, list: List<'_>, bytes: &[u8]) {
    let (rate, peak) = (
        rate_with(list, 4, rate_of(bytes, 0)),
        rate_with(list, 5, rate_of(bytes, 12)),
    );
    let (limit, buffer, mtu) = (
        number_at(bytes, 24),
        number_at(bytes, 28),
        number_at(bytes, 32),
    );
    fields.push(RATE, rate, &Rate(rate));
    push_cells(fields, BURST, size_at(rate, buffer.into()), bytes);
    push_smallest(fields, SMALLEST, bytes);
    let mut latency = latency_of(limit, rate, buffer);
    if peak != 0 {
        let of_peak = bytes.get(12..).unwrap_or(&[]);
        fields.push(PEAK, peak, &Rate(peak));
        push_cells(fields, MTU, size_at(peak, mtu.into()), of_peak);
        push_smallest(fields, SMALLEST_AT_PEAK, of_peak);
        latency = longer(latency, latency_of(limit, peak, mtu));
    }
    if let Some(latency) = latency {
        fields.push(LATENCY, latency, &Microseconds(latency));
    }
    push_layer(fields, BELOW, bytes);
    fields.number(WAITING, limit);
    fields.hide()
}

/// The longer of two times, or the one that there is.
fn longer(one: Option<u32>, other: Option<u32>) -> Option<u32> {
    match (one, other) {
        (Some(one), Some(other)) => Some(one.max(other)),
        (None, other) => other,
        (one, None) => one,
    }
}

/// A size, and that of the cells.
fn push_cells(fields: &mut Fields, word: Word, size: u64, spec: &[u8]) {
    let bytes = Bytes(u32::try_from(size).unwrap_or(u32::MAX));
    let cell = cell_of(spec);
    fields.made(word, format!(in fields.manner.alloc; "{bytes}/{cell}"))
}

/// How long a packet waits at most, in microseconds: the time of all that may wait, without that of what goes
/// at once.
fn latency_of(limit: u32, rate: u64, ticks: u32) -> Option<u32> {
    let all = u64::from(limit).saturating_mul(MILLION_EIGHTHS);
    let once = u64::from(ticks).saturating_mul(8).saturating_mul(rate);
    let left = all.checked_sub(once)?;
    let time = left.checked_div(rate.saturating_mul(EIGHTHS))?;
    Some(u32::try_from(time).unwrap_or(u32::MAX))
}
