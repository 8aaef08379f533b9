//! What is shown of a route, and of next hops in it.

use crate::field::{Fields, Word, Wording};
use crate::list::{Head, List};
use crate::manner::Nowhere;
use crate::names::{Names, PROTOCOLS, SCOPES, TABLES, TYPES};
use crate::row::How::{Alone, Bits, Interface, NextHops, Number, Object, Own, Text};
use crate::row::Rows;
use crate::walk::push_list;
use netlink_packet_route::route::{RouteHeader, RouteMessageBuffer, RouteNextHopBuffer};
use netlink_packet_route::{AddressFamily, MessageKind};

/// Of a route or of a next hop in it.
pub const ROUTE: Rows = crate::rows![
    1 3 "dst" "" Own;
    2 4 "from" "from " Own;
    3 31 "iif" "iif " Interface;
    4 12 "dev" "dev " Interface;
    5 10 "gateway" "via " Text;
    6 17 "metric" "metric " Number;
    7 16 "prefsrc" "src " Text;
    8 30 "metrics" "" Alone("", "");
    9 255 "nexthops" "" NextHops;
    11 20 "flow" "" Own;
    12 22 "expires" "expires " Own;
    15 13 "table" "table " Own;
    16 19 "mark" "mark " Own;
    17 40 "forwarded" "forwarded" Own;
    18 11 "via" "via" Own;
    19 5 "to" "as to " Own;
    20 32 "pref" "pref " Own;
    21 6 "encap" "encap " Own;
    22 7 "encap_info" "" Object;
    23 38 "expires_in" "expires_in " Own;
    25 21 "uid" "uid " Number;
    26 33 "ttl-propogate" "ttl-propogate " Own;
    27 34 "ipproto" "ipproto " Own;
    28 35 "sport" "sport " Number;
    29 36 "dport" "dport " Number;
    30 9 "nhid" "nhid " Number;
    31 37 "flowlabel" "flowlabel " Bits;
];

/// The destination.
const DESTINATION: Word = &Wording(3, "dst", "");

/// The source.
const SOURCE: Word = &Wording(4, "from", "from ");

const TABLE: Word = &Wording(13, "table", "table ");

const TYPE: Word = &Wording(2, "type", "");

const SERVICE: Word = &Wording(8, "tos", "tos ");

const PROTOCOL: Word = &Wording(14, "protocol", "proto ");

const SCOPE: Word = &Wording(15, "scope", "scope ");

const FLAGS: Word = &Wording(18, "flags", "");

const FAMILY: Word = &Wording(41, "family", "family ");

/// The type of most routes (`RTN_UNICAST`).
const UNICAST: u8 = 1;

/// The flags of a route or a next hop that have a word.
const NAMED_FLAGS: Names = &[
    (0x1, "dead"),
    (0x4, "onlink"),
    (0x2, "pervasive"),
    (0x8, "offload"),
    (0x40, "trap"),
    (0x100, "notify"),
    (0x10, "linkdown"),
    (0x20, "unresolved"),
    (0x4000, "rt_offload"),
    (0x8000, "rt_trap"),
    (0x2000_0000, "rt_offload_failed"),
    (0x200, "cloned"),
    (0x400, "equalize"),
    (0x800, "prefix"),
    (0x1000, "lookup_table"),
    (0x2000, "fibmatch"),
];

/// The flags that are set, by their words, and the others as a number.
pub fn push_route_flags(fields: &mut Fields, word: Word, bits: u32) {
    fields.set(word, NAMED_FLAGS, bits, " ");
}

/// What is shown of a route.
pub fn push_route(fields: &mut Fields, bytes: &[u8]) {
    let Ok(header) = RouteMessageBuffer::parse(bytes) else {
        return;
    };
    let head = Head {
        to: Some(header.destination_prefix_length),
        from: Some(header.source_prefix_length),
        ..Head::default()
    };
    let Some(list) = List::of_message(MessageKind::Route, bytes, head) else {
        return;
    };
    push_header(fields, &header);
    push_absent(fields, &header, list);
    push_list(fields, list);
}

/// What is told where an attribute is not there.
fn push_absent(fields: &mut Fields, header: &RouteMessageBuffer, list: List<'_>) {
    if !list.has(1) {
        fields.text(DESTINATION, &Nowhere(header.destination_prefix_length));
    }
    let source = header.source_prefix_length;
    if source != 0 && !list.has(2) {
        fields.text(SOURCE, &Nowhere(source));
    }
    if !list.has(15) {
        push_table(fields, u32::from(header.table));
    }
}

fn push_header(fields: &mut Fields, header: &RouteMessageBuffer) {
    fields.named(TYPE, TYPES, header.kind);
    // A number in the place of its name is shown.
    fields.hide_if(header.kind == UNICAST && !fields.manner.numeric);
    fields.named(PROTOCOL, PROTOCOLS, header.protocol);
    fields.named(SCOPE, SCOPES, header.scope);
    fields.hide_if(header.scope == 0);
    push_route_flags(fields, FLAGS, header.flags);
    push_family(fields, AddressFamily::from(header.address_family));
    if header.tos != 0 {
        fields.text(SERVICE, &format_args!("0x{:02x}", header.tos));
    }
}

/// The family, which a line has where the addresses do not tell it.
fn push_family(fields: &mut Fields, family: AddressFamily) {
    fields.text(FAMILY, &family);
    fields.hide_if(matches!(family, AddressFamily::Inet | AddressFamily::Inet6));
}

/// The table, which a line does not have where it is the main one.
pub fn push_table(fields: &mut Fields, number: u32) {
    fields.named(TABLE, TABLES, number);
    fields.hide_if(number == u32::from(RouteHeader::RT_TABLE_MAIN));
}

/// The header of a next hop.
pub fn push_hop(fields: &mut Fields, hop: &RouteNextHopBuffer) {
    fields.interface(&Wording(26, "dev", "dev "), hop.interface_index);
    fields.number(&Wording(27, "weight", "weight "), u64::from(hop.hops) + 1);
    push_route_flags(fields, &Wording(28, "flags", ""), u32::from(hop.flags));
}
