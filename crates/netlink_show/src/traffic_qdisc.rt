//! What is shown of queueing disciplines and classes, and of what went by them, actions too.

use crate::field::{Fields, Word};
use crate::list::{List, Seen, bytes_of, small};
use crate::part::{push_parts, push_structure};
use crate::row::How::{Named, Number, Own, Signed, Text, Truth};
use crate::row::Line::{IfAny, IfBits, Never};
use crate::row::{ANY, Parts, Rows, Size};
use crate::traffic_counts::{FQ_COUNTS, NETEM_COUNTS, RED_COUNTS};
use crate::traffic_rate::{HTB_COUNTS, LAYERS};
use crate::traffic_sfq::SFQ_COUNTS;
use crate::traffic_text::{Bytes, Microseconds};
use netlink_packet_route::framing::AttributeSet;
use netlink_packet_route::tc::TcForm;

/// Of what went by (`TCA_STATS_*` of `linux/gen_stats.h`).
pub const STATS: Rows = crate::rows![
    1 0 "" "" Own;
    2 20 "rate" "" Own;
    3 3 "" "" Own;
    4 30 "xstats" "" Own;
    5 20 "rate" "" Own;
    7 22 "hw" "" Own;
    8 2 "packets64" "" Number;
];

/// Of the sizes that packets are counted with (`TCA_STAB_*` of `linux/pkt_sched.h`).
pub const STAB: Rows = crate::rows![
    1 0 "" "" Own;
    2 9 "data" "" Text, Never;
];

/// Of `fq_codel` (`TCA_FQ_CODEL_*` of `linux/pkt_sched.h`).
pub const FQ_CODEL: Rows = crate::rows![
    1 3 "target" "target " Own;
    2 0 "limit" "limit " Own;
    3 6 "interval" "interval " Own;
    4 8 "ecn" "ecn" Truth, IfAny;
    5 1 "flows" "flows " Number;
    6 2 "quantum" "quantum " Number;
    7 4 "ce_threshold" "ce_threshold " Own;
    8 9 "drop_batch" "drop_batch " Number;
    9 7 "memory_limit" "memory_limit " Own;
    10 5 "ce_threshold_selector" "ce_threshold_selector " Own, IfBits(11, ANY);
    11 5 "ce_threshold_mask" "/" Own, IfBits(11, ANY);
];

/// `struct gnet_stats_basic` of `linux/gen_stats.h`.
const BASIC: Parts = crate::parts![
    U64 0 0 "bytes" "" Number;
    U32 8 1 "packets" "" Number;
];

/// `struct gnet_stats_queue`.
const QUEUE: Parts = crate::parts![
    U32 8 3 "drops" "" Number;
    U32 16 4 "overlimits" "" Number;
    U32 12 5 "requeues" "" Number;
    U32 4 6 "backlog" "" Number;
    U32 0 7 "qlen" "" Number;
];

/// `struct gnet_stats_rate_est`.
const RATE: Parts = crate::parts![
    U32 0 20 "rate" "" Number;
    U32 4 21 "pps" "" Number;
];

/// `struct gnet_stats_rate_est64`.
const RATE64: Parts = crate::parts![
    U64 0 20 "rate" "" Number;
    U64 8 21 "pps" "" Number;
];

/// `struct tc_sizespec` of `linux/pkt_sched.h`.
const SIZES: Parts = crate::parts![
    U32 8 0 "linklayer" "linklayer " Named(LAYERS);
    U32 4 1 "overhead" "overhead " Signed, IfAny;
    U32 12 2 "mpu" "mpu " Number, IfAny;
    U32 16 3 "mtu" "mtu " Number, IfAny;
    U32 20 4 "tsize" "tsize " Number, IfAny;
    U8 0 5 "cell_log" "" Number, Never;
    U8 1 6 "size_log" "" Number, Never;
    U16 2 7 "cell_align" "" Number, Never;
];

/// What `fq_codel` counts (`struct tc_fq_codel_qd_stats` of `linux/pkt_sched.h`, behind its type).
const FQ_CODEL_COUNTS: Parts = crate::parts![
    U32 4 30 "maxpacket" "" Number, Never;
    U32 8 31 "drop_overlimit" "" Number, Never;
    U32 16 32 "new_flow_count" "" Number, Never;
    U32 12 33 "ecn_mark" "" Number, Never;
    U32 20 34 "new_flows_len" "" Number, Never;
    U32 24 35 "old_flows_len" "" Number, Never;
    U32 28 36 "ce_mark" "" Number, Never;
    U32 32 37 "memory_used" "" Number, Never;
    U32 36 38 "drop_overmemory" "" Number, Never;
];

/// The same of a class (`struct tc_fq_codel_cl_stats`).
const FQ_CODEL_CLASS: Parts = crate::parts![
    U32 4 30 "deficit" "" Signed, Never;
    U32 12 31 "count" "" Number, Never;
    U32 16 32 "lastcount" "" Number, Never;
    U32 8 33 "ldelay" "" Number, Never;
    U32 20 34 "dropping" "" Number, Never;
    U32 24 35 "drop_next" "" Signed, Never;
];

/// Values in units, and structures.
pub fn push_own(fields: &mut Fields, list: List<'_>, word: Word, seen: &Seen<'_>) {
    match list.nest.set {
        AttributeSet::TcStab => push_parts(fields, list, seen.bytes, SIZES),
        AttributeSet::TcQdiscFqCodel => push_fq_codel(fields, word, seen),
        _ => push_stats(fields, list, word, seen),
    }
}

/// What went by.
fn push_stats(fields: &mut Fields, list: List<'_>, word: Word, seen: &Seen<'_>) {
    match seen.number {
        1 => push_parts(fields, list, seen.bytes, BASIC),
        // The wider numbers are those of the other structure too.
        2 if list.has(5) => {}
        2 => push_parts(fields, list, seen.bytes, RATE),
        3 => push_parts(fields, list, seen.bytes, QUEUE),
        4 => push_counters(fields, list, word, seen),
        5 => push_parts(fields, list, seen.bytes, RATE64),
        _ => push_structure(fields, list, word, seen.bytes, BASIC),
    }
}

/// What a kind counts: of most kinds bytes.
pub fn push_counters(fields: &mut Fields, list: List<'_>, word: Word, seen: &Seen<'_>) {
    match (list.nest.context.tc, Size::U32.number_at(seen.bytes, 0)) {
        (TcForm::FqCodel, Some(0)) => push_parts(fields, list, seen.bytes, FQ_CODEL_COUNTS),
        (TcForm::FqCodel, Some(1)) => push_parts(fields, list, seen.bytes, FQ_CODEL_CLASS),
        (TcForm::Htb, Some(_)) => push_parts(fields, list, seen.bytes, HTB_COUNTS),
        (TcForm::Sfq, Some(_)) => push_parts(fields, list, seen.bytes, SFQ_COUNTS),
        (TcForm::Fq, Some(_)) => push_parts(fields, list, seen.bytes, FQ_COUNTS),
        (TcForm::Red, Some(_)) => push_parts(fields, list, seen.bytes, RED_COUNTS),
        (TcForm::Netem, Some(_)) => push_parts(fields, list, seen.bytes, NETEM_COUNTS),
        _ => fields.bytes(word, bytes_of(&seen.value)),
    }
}

/// Times in microseconds, packets, and bytes.
fn push_fq_codel(fields: &mut Fields, word: Word, seen: &Seen<'_>) {
    let number = small(&seen.value);
    match seen.number {
        2 => {
            let text = format!(in fields.manner.alloc; "{number}p");
            fields.written(word, number, text)
        }
        9 => fields.push(word, number, &Bytes(number)),
        10 | 11 => fields.bits(word, number),
        _ => fields.push(word, number, &Microseconds(number)),
    }
}
