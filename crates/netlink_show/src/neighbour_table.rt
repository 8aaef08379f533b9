//! What is shown of a table of neighbours, in several lines.

use crate::field::{Fields, Word, Wording};
use crate::list::{List, Seen};
use crate::manner::Bits;
use crate::part::push_parts;
use crate::row::How::{Interface, Number, Own, Text};
use crate::row::{Parts, Rows, Size};
use crate::walk::{push_message, push_rows, push_unknown_rows};
use netlink_packet_route::MessageKind;
use netlink_packet_route::neighbour_table::NeighbourTableMessageBuffer;

/// Of a table of neighbours.
pub const NEIGHBOUR_TABLE: Rows = crate::rows![
    1 3 "name" "" Text;
    2 4 "thresh1" "\n    thresh1 " Number;
    3 5 "thresh2" "thresh2 " Number;
    4 6 "thresh3" "thresh3 " Number;
    5 10 "key_length" "\n    config key_len " Own;
    6 0 "" "" Own;
    7 50 "allocs" "\n    stats allocs " Own;
    8 7 "gc_interval" "gc_int " Number;
];

/// The parameters of such a table. Times are in milliseconds.
pub const PARAMETERS: Rows = crate::rows![
    1 20 "dev" "\n    dev " Interface;
    2 21 "refcnt" "\n    refcnt " Number;
    3 22 "reachable" "reachable " Number;
    4 23 "base_reachable" "base_reachable " Number;
    5 24 "retrans" "retrans " Number;
    6 25 "gc_stale" "\n    gc_stale " Number;
    7 26 "delay_probe" "delay_probe " Number;
    8 27 "queue" "queue " Number;
    9 28 "app_probes" "\n    app_probes " Number;
    10 29 "ucast_probes" "ucast_probes " Number;
    11 30 "mcast_probes" "mcast_probes " Number;
    12 32 "anycast_delay" "\n    anycast_delay " Number;
    13 33 "proxy_delay" "proxy_delay " Number;
    14 34 "proxy_queue" "proxy_queue " Number;
    15 35 "locktime" "locktime " Number;
    16 36 "queue_lenbytes" "queue_lenbytes " Number;
    17 31 "mcast_reprobes" "mcast_reprobes " Number;
    19 37 "interval_probe_time_ms" "interval_probe_time_ms " Number;
];

/// How a table is made, but for the mask of its hashes (`struct ndt_config`). Times are milliseconds
/// before now.
const CONFIG: Parts = crate::parts![
    U16 0 10 "key_length" "\n    config key_len " Number;
    U16 2 11 "entry_size" "entry_size " Number;
    U32 4 12 "entries" "entries " Number;
    U32 8 13 "last_flush" "\n        last_flush " Number;
    U32 12 14 "last_rand" "last_rand " Number;
    U32 16 15 "hash_rnd" "\n        hash_rnd " Number;
    U32 24 17 "hash_chain_gc" "hash_chain_gc " Number;
    U32 28 18 "proxy_qlen" "proxy_qlen " Number;
];

/// Where the mask stands.
const MASK: usize = 20;

/// What a table has counted (`struct ndt_stats`).
const STATS: Parts = crate::parts![
    U64 0 50 "allocs" "\n    stats allocs " Number;
    U64 8 51 "destroys" "destroys " Number;
    U64 16 52 "hash_grows" "hash_grows " Number;
    U64 24 53 "res_failed" "\n    res_failed " Number;
    U64 32 54 "lookups" "lookups " Number;
    U64 40 55 "hits" "hits " Number;
    U64 48 56 "rcv_probes_mcast" "\n    rcv_probes_mcast " Number;
    U64 56 57 "rcv_probes_ucast" "rcv_probes_ucast " Number;
    U64 64 58 "periodic_gc_runs" "\n    periodic_gc_runs " Number;
    U64 72 59 "forced_gc_runs" "forced_gc_runs " Number;
    U64 80 60 "table_fulls" "\n    table_fulls " Number;
];

const FAMILY: Word = &Wording(2, "family", "");

const HASH_MASK: Word = &Wording(16, "hash_mask", "hash_mask ");

/// What has no word among the parameters.
const OTHERS: Word = &Wording(70, "parms", "parms");

/// What is shown of a table.
pub fn push_neighbour_table(fields: &mut Fields, bytes: &[u8]) {
    let Ok(header) = NeighbourTableMessageBuffer::parse(bytes) else {
        return;
    };
    fields.family(FAMILY, header.family);
    push_message(fields, MessageKind::NeighbourTable, bytes);
}

/// Structures, and the parameters, whose pieces stand among those of the table.
pub fn push_own(fields: &mut Fields, list: List<'_>, seen: &Seen<'_>) {
    match seen.number {
        5 => {
            push_parts(fields, list, seen.bytes, CONFIG);
            if let Some(mask) = Size::U32.number_at(seen.bytes, MASK) {
                fields.text_shown(
                    HASH_MASK,
                    &Bits(mask),
                    format!(in fields.manner.alloc; "{mask:08x}"),
                );
            }
        }
        6 => push_parameters(fields, list, seen),
        7 => push_parts(fields, list, seen.bytes, STATS),
        _ => {}
    }
}

/// The parameters. Those that nobody knows stand in an object of their own, which a line does not have
/// where they are padding.
fn push_parameters(fields: &mut Fields, list: List<'_>, seen: &Seen<'_>) {
    let Some(inner) = list.inside(seen) else {
        return;
    };
    push_rows(fields, inner, PARAMETERS);
    let mut others = Fields::new(fields.manner);
    let is_told = push_unknown_rows(&mut others, inner, PARAMETERS);
    if inner.bytes.is_empty() || !others.is_empty() {
        fields.object(OTHERS, others);
        fields.hide_if(!inner.bytes.is_empty() && !is_told);
    }
}
