//! What fq, red and netem count: structures, which no line has.

use crate::row::How::Number;
use crate::row::Line::Never;
use crate::row::Parts;

/// What `fq` counts (`struct tc_fq_qd_stats` of `linux/pkt_sched.h`).
pub const FQ_COUNTS: Parts = crate::parts![
    U32 64 30 "flows" "" Number, Never;
    U32 68 31 "inactive" "" Number, Never;
    U32 72 32 "throttled" "" Number, Never;
    U32 136 33 "band0_pkts" "" Number, Never;
    U32 140 34 "band1_pkts" "" Number, Never;
    U32 144 35 "band2_pkts" "" Number, Never;
    U64 0 36 "gc" "" Number, Never;
    U64 8 37 "highprio" "" Number, Never;
    U64 16 38 "retrans" "" Number, Never;
    U64 24 39 "throttled_pkts" "" Number, Never;
    U32 76 40 "latency" "" Number, Never;
    U64 80 41 "ce_mark" "" Number, Never;
    U64 88 42 "horizon_drops" "" Number, Never;
    U64 96 43 "horizon_caps" "" Number, Never;
    U64 104 44 "fastpath" "" Number, Never;
    U64 112 45 "band0_drops" "" Number, Never;
    U64 120 46 "band1_drops" "" Number, Never;
    U64 128 47 "band2_drops" "" Number, Never;
    U64 32 48 "flows_plimit" "" Number, Never;
    U64 40 49 "pkts_too_long" "" Number, Never;
    U64 48 50 "alloc_errors" "" Number, Never;
    I64 56 51 "next_packet_delay" "" Number, Never;
];

/// What `red` counts (`struct tc_red_xstats`).
pub const RED_COUNTS: Parts = crate::parts![
    U32 12 30 "marked" "" Number, Never;
    U32 0 31 "early" "" Number, Never;
    U32 4 32 "pdrop" "" Number, Never;
    U32 8 33 "other" "" Number, Never;
];

/// What `netem` counts (`struct tc_netem_xstats`).
pub const NETEM_COUNTS: Parts = crate::parts![
    U64 0 30 "delayed" "" Number, Never;
    U64 8 31 "dropped" "" Number, Never;
    U64 16 32 "corrupted" "" Number, Never;
    U64 24 33 "duplicated" "" Number, Never;
    U64 32 34 "reordered" "" Number, Never;
    U64 40 35 "ecn_marked" "" Number, Never;
    U64 48 36 "alloc_errors" "" Number, Never;
];
