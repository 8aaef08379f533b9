//! What is shown of police, which is an action, and stands in filters too.

use crate::field::{Fields, Word, Wording};
use crate::list::{List, Seen, small};
use crate::part::{number_at, push_parts};
use crate::row::How::{Number, Own, Text};
use crate::row::Line::Never;
use crate::row::{Parts, Rows, Size};
use crate::traffic_action::{TIMES, push_control, push_control_by};
use crate::traffic_option::bytes_in;
use crate::traffic_rate::{LAYERS, rate_of, rate_with, size_at};
use crate::traffic_text::{Bytes, Rate};

/// Of what lets so much through (`TCA_POLICE_*` of `linux/pkt_cls.h`).
pub const POLICE: Rows = crate::rows![
    1 0 "" "" Own;
    2 60 "rtab" "" Text, Never;
    3 61 "ptab" "" Text, Never;
    4 5 "avrate" "avrate " Own;
    5 11 "result" "" Own;
    6 0 "" "" Own;
    8 62 "rate64" "" Number, Never;
    9 63 "peakrate64" "" Number, Never;
    10 6 "pkts_rate" "pkts_rate " Number;
    11 7 "pkts_burst" "pkts_burst " Own;
];

/// How many hold it (`struct tc_police` of `linux/pkt_cls.h`).
const HOLDERS: Parts = crate::parts![
    U32 44 21 "ref" "\n\tref " Number;
    U32 48 22 "bind" "bind " Number;
    U32 52 64 "capab" "" Number, Never;
    U32 8 65 "limit" "" Number, Never;
];

const ACTION: Word = &Wording(10, "control_action", "action");

const RESULT: Word = &Wording(0, "type", "/");

const INDEX: Word = &Wording(0, "index", "");

const RATE: Word = &Wording(1, "rate", "rate ");

const BURST: Word = &Wording(2, "burst", "burst ");

const MTU: Word = &Wording(3, "mtu", "mtu ");

const PEAK: Word = &Wording(4, "peakrate", "peakrate ");

const OVERHEAD: Word = &Wording(12, "overhead", "overhead ");

const LAYER: Word = &Wording(13, "linklayer", "linklayer ");

/// What lets so much through.
pub fn push_police(fields: &mut Fields, list: List<'_>, word: Word, seen: &Seen<'_>) {
    match seen.number {
        1 => push_limits(fields, list, seen.bytes),
        4 => {
            let rate = u64::from(small(&seen.value));
            fields.push(word, rate, &Rate(rate))
        }
        5 => push_control_by(fields, word, RESULT, small(&seen.value)),
        6 => push_parts(fields, list, seen.bytes, TIMES),
        _ => {
            let ticks = Size::U64.number_at(seen.bytes, 0).unwrap_or(0);
            let rate = Size::U64.number_at(bytes_in(list, 10), 0).unwrap_or(0);
            fields.number(word, size_at(rate, ticks))
        }
    }
}

/// The rates, and what becomes of packets above them (`struct tc_police` of `linux/pkt_cls.h`).
fn push_limits(fields: &mut Fields, list: List<'_>, bytes: &[u8]) {
    let alloc = fields.manner.alloc;
    let index = number_at(bytes, 0);
    fields.written(INDEX, index, format!(in alloc; "{index:#x}"));
    let (rate, peak) = (
        rate_with(list, 8, rate_of(bytes, 20)),
        rate_with(list, 9, rate_of(bytes, 32)),
    );
    fields.push(RATE, rate, &Rate(rate));
    let burst = size_at(rate, number_at(bytes, 12).into());
    fields.push(
        BURST,
        burst,
        &Bytes(u32::try_from(burst).unwrap_or(u32::MAX)),
    );
    let mtu = number_at(bytes, 16);
    fields.push(MTU, mtu, &Bytes(mtu));
    if peak != 0 {
        fields.push(PEAK, peak, &Rate(peak));
    }
    push_control(fields, ACTION, number_at(bytes, 4));
    let overhead = Size::U16.number_at(bytes, 22).unwrap_or(0);
    fields.written(OVERHEAD, overhead, format!(in alloc; "{overhead}b"));
    let layer = bytes.get(21).copied().unwrap_or(0) & 0xf;
    fields.named(LAYER, LAYERS, layer);
    push_parts(fields, list, bytes, HOLDERS)
}
