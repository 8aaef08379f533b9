//! What is shown of statistics.

use crate::field::{Fields, Word, Wording};
use crate::list::{List, Seen};
use crate::part::{push_parts, push_structure};
use crate::row::How::{Number, Object, Own, Switch};
use crate::row::Line::IfAny;
use crate::row::{Parts, Rows};
use crate::walk::push_message;
use netlink_packet_route::MessageKind;
use netlink_packet_route::framing::AttributeSet;
use netlink_packet_route::stats::StatsMessageBuffer;

/// Of statistics.
pub const STATISTICS: Rows = crate::rows![
    1 3 "stats64" "" Own;
    2 4 "xstats" "" Object;
    3 5 "xstats_slave" "" Object;
    4 6 "offload" "" Object;
    5 7 "afstats" "" Object;
];

/// Of further counters, by whose they are.
pub const LINK_XSTATS: Rows = crate::rows![
    1 0 "bridge" "\n    bridge" Object;
    2 1 "bond" "\n    bond" Object;
];

/// Of those of bridges.
pub const BRIDGE_XSTATS: Rows = crate::rows![
    1 0 "vlan" "vlan" Own;
    2 1 "mcast" "mcast" Own;
    4 2 "stp" "stp" Own;
];

/// Of those of bonds.
pub const BOND_XSTATS: Rows = crate::rows![1 0 "802.3ad" "802.3ad" Object;];

/// Of those of LACP.
pub const BOND_AD_STATS: Rows = crate::rows![
    0 0 "lacpdu_rx" "lacpdu_rx " Number;
    1 1 "lacpdu_tx" "lacpdu_tx " Number;
    2 2 "lacpdu_unknown_rx" "lacpdu_unknown_rx " Number;
    3 3 "lacpdu_illegal_rx" "lacpdu_illegal_rx " Number;
    4 4 "marker_rx" "marker_rx " Number;
    5 5 "marker_tx" "marker_tx " Number;
    6 6 "marker_response_rx" "marker_response_rx " Number;
    7 7 "marker_response_tx" "marker_response_tx " Number;
    8 8 "marker_unknown_rx" "marker_unknown_rx " Number;
];

/// Of what hardware counts.
pub const OFFLOAD_XSTATS: Rows = crate::rows![
    1 0 "cpu_hit" "\n    cpu_hit" Own;
    2 1 "hw_stats_info" "" Object;
    3 2 "l3_stats" "\n    l3_stats" Own;
];

/// Of whether hardware counts.
pub const OFFLOAD_INFO: Rows = crate::rows![3 0 "l3_stats" "\n    l3_stats" Object;];

/// The same of one kind of counters.
pub const OFFLOAD_STATE: Rows = crate::rows![
    1 0 "request" "request " Switch;
    2 1 "used" "used " Switch;
];

/// Of what address families count.
pub const AF_STATS: Rows = crate::rows![28 0 "mpls" "" Object;];

/// Of what MPLS counts.
pub const MPLS_STATS: Rows = crate::rows![1 0 "mpls_stats" "\n    mpls" Own;];

/// What a link received (`struct rtnl_link_stats64`).
const RECEIVED: Parts = crate::parts![
    U64 16 0 "bytes" "bytes " Number;
    U64 0 1 "packets" "packets " Number;
    U64 32 2 "errors" "errors " Number;
    U64 48 3 "dropped" "dropped " Number;
    U64 120 4 "missed_errors" "missed_errors " Number, IfAny;
    U64 64 5 "multicast" "multicast " Number, IfAny;
    U64 88 6 "over_errors" "over_errors " Number, IfAny;
    U64 168 7 "compressed" "compressed " Number, IfAny;
    U64 80 8 "length_errors" "length_errors " Number, IfAny;
    U64 96 9 "crc_errors" "crc_errors " Number, IfAny;
    U64 104 10 "frame_errors" "frame_errors " Number, IfAny;
    U64 112 11 "fifo_errors" "fifo_errors " Number, IfAny;
    U64 184 12 "nohandler" "nohandler " Number, IfAny;
    U64 192 13 "otherhost" "otherhost " Number, IfAny;
];

/// What it sent.
const SENT: Parts = crate::parts![
    U64 24 0 "bytes" "bytes " Number;
    U64 8 1 "packets" "packets " Number;
    U64 40 2 "errors" "errors " Number;
    U64 56 3 "dropped" "dropped " Number;
    U64 136 4 "carrier_errors" "carrier_errors " Number, IfAny;
    U64 72 5 "collisions" "collisions " Number, IfAny;
    U64 128 6 "aborted_errors" "aborted_errors " Number, IfAny;
    U64 144 7 "fifo_errors" "fifo_errors " Number, IfAny;
    U64 160 8 "window_errors" "window_errors " Number, IfAny;
    U64 152 9 "heartbeat_errors" "heartbeat_errors " Number, IfAny;
    U64 176 10 "compressed" "compressed " Number, IfAny;
];

/// What hardware received (`struct rtnl_hw_stats64`); in front stand those of `struct mpls_link_stats`.
const HARDWARE_RECEIVED: Parts = crate::parts![
    U64 16 0 "bytes" "bytes " Number;
    U64 0 1 "packets" "packets " Number;
    U64 32 2 "errors" "errors " Number;
    U64 48 3 "dropped" "dropped " Number;
    U64 64 4 "multicast" "multicast " Number;
];

/// What MPLS received (`struct mpls_link_stats`).
const MPLS_RECEIVED: Parts = crate::parts![
    U64 16 0 "bytes" "bytes " Number;
    U64 0 1 "packets" "packets " Number;
    U64 32 2 "errors" "errors " Number;
    U64 48 3 "dropped" "dropped " Number;
    U64 64 4 "noroute" "noroute " Number;
];

/// What hardware or MPLS sent.
const OTHERS_SENT: Parts = crate::parts![
    U64 24 0 "bytes" "bytes " Number;
    U64 8 1 "packets" "packets " Number;
    U64 40 2 "errors" "errors " Number;
    U64 56 3 "dropped" "dropped " Number;
];

/// Of a VLAN (`struct bridge_vlan_xstats`).
const VLAN: Parts = crate::parts![
    U16 32 0 "vid" "vid " Number;
    U16 34 1 "flags" "flags " Number, IfAny;
    U64 0 2 "rx_bytes" "rx_bytes " Number;
    U64 8 3 "rx_packets" "rx_packets " Number;
    U64 16 4 "tx_bytes" "tx_bytes " Number;
    U64 24 5 "tx_packets" "tx_packets " Number;
];

/// Of multicast groups (`struct br_mcast_stats`).
const MULTICAST: Parts = crate::parts![
    U64 0 0 "igmp_v1queries_rx" "igmp_v1queries_rx " Number, IfAny;
    U64 8 1 "igmp_v1queries_tx" "igmp_v1queries_tx " Number, IfAny;
    U64 16 2 "igmp_v2queries_rx" "igmp_v2queries_rx " Number, IfAny;
    U64 24 3 "igmp_v2queries_tx" "igmp_v2queries_tx " Number, IfAny;
    U64 32 4 "igmp_v3queries_rx" "igmp_v3queries_rx " Number, IfAny;
    U64 40 5 "igmp_v3queries_tx" "igmp_v3queries_tx " Number, IfAny;
    U64 48 6 "igmp_leaves_rx" "igmp_leaves_rx " Number, IfAny;
    U64 56 7 "igmp_leaves_tx" "igmp_leaves_tx " Number, IfAny;
    U64 64 8 "igmp_v1reports_rx" "igmp_v1reports_rx " Number, IfAny;
    U64 72 9 "igmp_v1reports_tx" "igmp_v1reports_tx " Number, IfAny;
    U64 80 10 "igmp_v2reports_rx" "igmp_v2reports_rx " Number, IfAny;
    U64 88 11 "igmp_v2reports_tx" "igmp_v2reports_tx " Number, IfAny;
    U64 96 12 "igmp_v3reports_rx" "igmp_v3reports_rx " Number, IfAny;
    U64 104 13 "igmp_v3reports_tx" "igmp_v3reports_tx " Number, IfAny;
    U64 112 14 "igmp_parse_errors" "igmp_parse_errors " Number, IfAny;
    U64 120 15 "mld_v1queries_rx" "mld_v1queries_rx " Number, IfAny;
    U64 128 16 "mld_v1queries_tx" "mld_v1queries_tx " Number, IfAny;
    U64 136 17 "mld_v2queries_rx" "mld_v2queries_rx " Number, IfAny;
    U64 144 18 "mld_v2queries_tx" "mld_v2queries_tx " Number, IfAny;
    U64 152 19 "mld_leaves_rx" "mld_leaves_rx " Number, IfAny;
    U64 160 20 "mld_leaves_tx" "mld_leaves_tx " Number, IfAny;
    U64 168 21 "mld_v1reports_rx" "mld_v1reports_rx " Number, IfAny;
    U64 176 22 "mld_v1reports_tx" "mld_v1reports_tx " Number, IfAny;
    U64 184 23 "mld_v2reports_rx" "mld_v2reports_rx " Number, IfAny;
    U64 192 24 "mld_v2reports_tx" "mld_v2reports_tx " Number, IfAny;
    U64 200 25 "mld_parse_errors" "mld_parse_errors " Number, IfAny;
    U64 208 26 "mcast_bytes_rx" "mcast_bytes_rx " Number, IfAny;
    U64 216 27 "mcast_bytes_tx" "mcast_bytes_tx " Number, IfAny;
    U64 224 28 "mcast_packets_rx" "mcast_packets_rx " Number, IfAny;
    U64 232 29 "mcast_packets_tx" "mcast_packets_tx " Number, IfAny;
];

/// Of the spanning tree (`struct bridge_stp_xstats`).
const SPANNING_TREE: Parts = crate::parts![
    U64 24 0 "tx_bpdu" "tx_bpdu " Number;
    U64 16 1 "rx_bpdu" "rx_bpdu " Number;
    U64 40 2 "tx_tcn" "tx_tcn " Number;
    U64 32 3 "rx_tcn" "rx_tcn " Number;
    U64 0 4 "transition_blk" "transition_blk " Number;
    U64 8 5 "transition_fwd" "transition_fwd " Number;
];

const INDEX: Word = &Wording(0, "ifindex", "");

const NAME: Word = &Wording(1, "ifname", "dev ");

const FAMILY: Word = &Wording(8, "family", "family ");

/// Which statistics there may be.
const FILTER: Word = &Wording(9, "filter_mask", "filter_mask ");

const RX: Word = &Wording(0, "rx", "rx");

const TX: Word = &Wording(1, "tx", "tx");

/// What is shown of statistics.
pub fn push_stats(fields: &mut Fields, bytes: &[u8]) {
    let Ok(header) = StatsMessageBuffer::parse(bytes) else {
        return;
    };
    fields.number(INDEX, header.index);
    fields.hide();
    fields.interface(NAME, header.index);
    fields.family(FAMILY, header.family);
    fields.hide_if(header.family == 0);
    fields.bits(FILTER, header.filter_mask);
    fields.hide();
    push_message(fields, MessageKind::Stats, bytes);
}

/// Structures of counters.
pub fn push_own(fields: &mut Fields, list: List<'_>, word: Word, seen: &Seen<'_>) {
    let bytes = seen.bytes;
    match (list.nest.told_set(), seen.number) {
        (AttributeSet::BridgeXstats, 1) => push_structure(fields, list, word, bytes, VLAN),
        (AttributeSet::BridgeXstats, 2) => push_structure(fields, list, word, bytes, MULTICAST),
        (AttributeSet::BridgeXstats, _) => {
            push_structure(fields, list, word, bytes, SPANNING_TREE)
        }
        (AttributeSet::MplsStats, _) => {
            push_both(fields, list, word, bytes, (MPLS_RECEIVED, OTHERS_SENT))
        }
        (AttributeSet::OffloadXstats, 3) => {
            push_both(fields, list, word, bytes, (HARDWARE_RECEIVED, OTHERS_SENT))
        }
        _ => push_both(fields, list, word, bytes, (RECEIVED, SENT)),
    }
}

/// What was received and what was sent, as an object of two.
fn push_both(
    fields: &mut Fields,
    list: List<'_>,
    word: Word,
    bytes: &[u8],
    (received, sent): (Parts, Parts),
) {
    let mut inside = Fields::new(fields.manner);
    push_structure(&mut inside, list, RX, bytes, received);
    push_structure(&mut inside, list, TX, bytes, sent);
    fields.object(word, inside);
}
