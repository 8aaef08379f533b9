//! What is shown of cake: its data, and what it counts.

use crate::field::{Fields, Word, Wording};
use crate::list::{List, Seen, small, wide};
use crate::names::Names;
use crate::row::How::{Bits, Either, Flat, Named, Number, Objects, Own, Truth};
use crate::row::Line::{Always, IfAny, Never, Told};
use crate::row::{Row, Rows};
use crate::traffic_text::{Bytes, Microseconds, Rate};

/// Of `cake` (`TCA_CAKE_*` of `linux/pkt_sched.h`).
pub const CAKE: Rows = crate::rows![
    2 0 "bandwidth" "bandwidth " Own;
    3 2 "diffserv" "" Named(CLASSES);
    4 11 "atm" "" Own;
    5 3 "flowmode" "" Named(FLOWS);
    6 12 "overhead" "overhead " Number;
    7 9 "rtt" "rtt " Own, IfAny;
    8 60 "target" "" Number, Never;
    9 1 "autorate" "" Named(RATES), Told;
    10 14 "memlimit" "memlimit " Own;
    11 4 "nat" "" Either("nat", "nonat");
    12 10 "raw" "raw" Own;
    13 5 "wash" "" Either("wash", "nowash");
    14 13 "mpu" "mpu " Number, Told;
    15 6 "ingress" "ingress" Truth, IfAny;
    16 7 "ack-filter" "" Own;
    17 8 "split_gso" "" Either("split-gso", "no-split-gso");
    18 15 "fwmark" "fwmark " Bits, IfAny;
];

/// Of what it counts, and what it counts of a flow (`TCA_CAKE_STATS_*`).
pub const CAKE_STATS: Rows = crate::rows![
    2 32 "capacity_estimate" "" Number, Never;
    3 31 "memory_limit" "" Number, Never;
    4 30 "memory_used" "" Number, Never;
    5 37 "avg_hdr_offset" "" Number, Never;
    6 33 "min_network_size" "" Number, Never;
    7 34 "max_network_size" "" Number, Never;
    8 35 "min_adj_size" "" Number, Never;
    9 36 "max_adj_size" "" Number, Never;
    10 50 "tins" "" Objects("", "", ""), Never;
    11 40 "deficit" "" Number, Never;
    12 41 "count" "" Number, Never;
    13 42 "dropping" "" Truth, Never;
    14 43 "drop_next" "" Number, Never;
    15 44 "blue_prob" "" Number, Never;
    16 45 "blue_timer" "" Number, Never;
    17 46 "active_queues" "" Number, Never;
];

/// Of what it counts of the packets of a class of service (`TCA_CAKE_TIN_STATS_*`).
pub const CAKE_TIN: Rows = crate::rows![
    2 8 "sent_packets" "" Number, Never;
    3 1 "sent_bytes" "" Number, Never;
    4 12 "drops" "" Number, Never;
    5 20 "dropped_bytes" "" Number, Never;
    6 14 "ack_drops" "" Number, Never;
    7 21 "ack_dropped_bytes" "" Number, Never;
    8 13 "ecn_mark" "" Number, Never;
    9 22 "ecn_marked_bytes" "" Number, Never;
    10 23 "backlog_packets" "" Number, Never;
    11 2 "backlog_bytes" "" Number, Never;
    12 0 "threshold_rate" "" Number, Never;
    13 3 "target_us" "" Number, Never;
    14 4 "interval_us" "" Number, Never;
    15 9 "way_indirect_hits" "" Number, Never;
    16 10 "way_misses" "" Number, Never;
    17 11 "way_collisions" "" Number, Never;
    18 5 "peak_delay_us" "" Number, Never;
    19 6 "avg_delay_us" "" Number, Never;
    20 7 "base_delay_us" "" Number, Never;
    21 15 "sparse_flows" "" Number, Never;
    22 16 "bulk_flows" "" Number, Never;
    23 17 "unresponsive_flows" "" Number, Never;
    24 18 "max_pkt_len" "" Number, Never;
    25 19 "flow_quantum" "" Number, Never;
];

/// Of what it counts, which stands among what every kind counts.
pub const CAKE_COUNTS: &Row = &Row {
    number: 4,
    word: &Wording(0, "", ""),
    how: Flat,
    line: Always,
};

/// By what packets are told apart (`CAKE_DIFFSERV_*` of `linux/pkt_sched.h`).
const CLASSES: Names = &[
    (0, "diffserv3"),
    (1, "diffserv4"),
    (2, "diffserv8"),
    (3, "besteffort"),
    (4, "precedence"),
];

/// By what flows are told apart (`CAKE_FLOW_*`).
const FLOWS: Names = &[
    (0, "flowblind"),
    (1, "srchost"),
    (2, "dsthost"),
    (3, "hosts"),
    (4, "flows"),
    (5, "dual-srchost"),
    (6, "dual-dsthost"),
    (7, "triple-isolate"),
];

/// What the rate follows.
const RATES: Names = &[(1, "autorate-ingress")];

/// In which cells a link sends (`CAKE_ATM_*`).
const CELLS: Names = &[(0, "noatm"), (1, "atm"), (2, "ptm")];

/// The number of the attribute that a link adds nothing (`TCA_CAKE_RAW`).
const TCA_CAKE_RAW: u16 = 12;

const RAW: Word = &Wording(10, "raw", "raw");

/// That a link adds something, where no attribute says that it does not.
pub fn push_beside(fields: &mut Fields, list: List<'_>) {
    if !list.has(TCA_CAKE_RAW) {
        fields.word_if(RAW, false)
    }
}

/// Values in units, and those that rest on others.
pub fn push_own(fields: &mut Fields, list: List<'_>, word: Word, seen: &Seen<'_>) {
    let number = small(&seen.value);
    match seen.number {
        2 => push_rate(fields, word, wide(&seen.value)),
        4 if number == 0 && list.has(TCA_CAKE_RAW) => {}
        4 => fields.named(word, CELLS, number),
        7 => fields.push(word, number, &Microseconds(number)),
        10 if number == 0 => {}
        10 => fields.push(word, number, &Bytes(number)),
        12 => fields.truth(word, true),
        _ => push_filter(fields, word, number),
    }
}

/// The rate, of which 0 is none.
fn push_rate(fields: &mut Fields, word: Word, rate: u64) {
    match rate {
        0 => fields.text(word, &"unlimited"),
        _ => fields.push(word, rate, &Rate(rate)),
    }
}

/// Which acknowledgements are dropped (`CAKE_ACK_*`), in a word for JSON and one for a line.
fn push_filter(fields: &mut Fields, word: Word, number: u32) {
    let alloc = fields.manner.alloc;
    let (value, text) = match number {
        0 => ("disabled", "no-ack-filter"),
        1 => ("enabled", "ack-filter"),
        2 => ("aggressive", "ack-filter-aggressive"),
        _ => return fields.number(word, number),
    };
    fields.text_shown(word, &value, String::from_str(alloc, text))
}
