//! What is shown of the attributes of a link, and of what its driver and address families say.

use crate::field::{Fields, ITEM, Word, Wording};
use crate::link_names::{
    ADDRESS_MODES, EVENTS, FILTERS, INET6_FLAGS, LINK_MODES, PROGRAMS, STATES,
};
use crate::link_number::{push_map, push_stats};
use crate::link_setting_names::{ICMP6, INET, INET6};
use crate::list::{Head, List, Seen, small};
use crate::manner::{Bits as InBits, LinkAddress};
use crate::part::{push_numbers, push_structure};
use crate::row::How::{
    Alone, Apart, Bits, Data, Flat, Group, Interface, Items, Keyed, KeyedWide, Known, Named,
    Number, Object, Objects, OfType, Own, Set, Switch, Text, Written,
};
use crate::row::Line::{IfAny, Never, Told};
use crate::row::{Parts, Rows, Size};
use crate::value::push_number;
use netlink_packet_route::framing::{AttributeSet, NlasIterator, Value};

/// Of a link.
pub const LINK: Rows = crate::rows![
    1 21 "address" "" OfType;
    2 22 "broadcast" "brd " Own;
    3 0 "" "" Apart;
    4 5 "mtu" "mtu " Number;
    5 0 "" "" Apart;
    6 7 "qdisc" "qdisc " Text;
    7 93 "stats" "" Own;
    10 8 "master" "master " Interface;
    11 0 "" "" Written;
    12 94 "protinfo" "" Alone("protinfo { ", " }");
    13 12 "txqlen" "qlen " Number, IfAny;
    14 82 "map" "" Own;
    15 87 "weight" "weight " Number, IfAny;
    16 9 "operstate" "state " Own;
    17 10 "linkmode" "mode " Known(LINK_MODES, &Wording(10, "linkmode_index", "mode "));
    18 40 "linkinfo" "" Object;
    19 83 "net_ns_pid" "netns-pid " Number;
    20 251 "ifalias" "\n    alias " Text;
    21 70 "num_vf" "num_vf " Number;
    22 253 "vfinfo_list" "" Objects("", "", "");
    23 93 "stats64" "" Own;
    24 253 "vf_ports" "" Objects("", "", "");
    25 253 "port_self" "\n    port" Object;
    26 92 "af_spec" "" Data(&Wording(92, "af_spec", "af_spec "));
    27 11 "group" "group " Group;
    28 84 "net_ns_fd" "netns-fd " Number;
    29 86 "ext_mask" "ext_mask " Set(FILTERS, ","), IfAny;
    30 29 "promiscuity" "promiscuity " Number;
    31 51 "num_tx_queues" "numtxqueues " Number;
    32 52 "num_rx_queues" "numrxqueues " Number;
    33 71 "carrier" "carrier " Number;
    34 64 "phys_port_id" "portid " Text;
    35 72 "carrier_changes" "carrier_changes " Number;
    36 65 "phys_switch_id" "switchid " Text;
    37 24 "link_netnsid" "link-netnsid " Own;
    38 63 "phys_port_name" "portname " Text;
    39 27 "proto_down" "protodown " Own, IfAny;
    40 54 "gso_max_segs" "gso_max_segs " Number;
    41 53 "gso_max_size" "gso_max_size " Number;
    43 6 "xdp" "" Object;
    44 13 "event" "event " Named(EVENTS), IfAny;
    45 25 "new_netnsid" "new-netnsid " Number;
    46 85 "if_netnsid" "if-netnsid " Number;
    47 73 "carrier_up_count" "carrier_up_count " Number;
    48 74 "carrier_down_count" "carrier_down_count " Number;
    49 26 "new_ifindex" "new-ifindex " Number;
    50 31 "min_mtu" "minmtu " Number;
    51 32 "max_mtu" "maxmtu " Number;
    52 252 "altnames" "" Items("", " ", "");
    53 81 "alt_ifname" "alt-ifname " Text;
    54 23 "permaddr" "permaddr " Own;
    55 0 "" "" Flat;
    56 67 "parentdev" "parentdev " Text;
    57 66 "parentbus" "parentbus " Text;
    58 57 "gro_max_size" "gro_max_size " Number;
    59 55 "tso_max_size" "tso_max_size " Number;
    60 56 "tso_max_segs" "tso_max_segs " Number;
    61 30 "allmulti" "allmulti " Number;
    62 0 "" "" Written, Told;
    63 58 "gso_ipv4_max_size" "gso_ipv4_max_size " Number;
    64 59 "gro_ipv4_max_size" "gro_ipv4_max_size " Number;
    65 0 "" "" Flat;
    66 78 "max_pacing_offload_horizon" "max_pacing_offload_horizon " Number;
    67 77 "netns-immutable" "netns-immutable " Switch;
    68 79 "headroom" "headroom " Number;
    69 80 "tailroom" "tailroom " Number;
];

/// Of what a driver says of a link. Data of a kind that has no words here stands as it is.
pub const LINK_INFO: Rows = crate::rows![
    1 0 "info_kind" "\n    " Text;
    2 1 "info_data" "" Data(&Wording(1, "info_data", "data "));
    3 2 "info_xstats" "xstats " Text;
    4 3 "info_slave_kind" "\n    " Own;
    5 4 "info_slave_data" "" Data(&Wording(4, "info_slave_data", "data "));
];

/// Of other properties of a link.
pub const PROPERTIES: Rows = crate::rows![53 0 "altnames" "\n    altname " Text;];

/// Of who holds a link down.
pub const REASONS: Rows = crate::rows![
    1 28 "proto_down_reason_mask" "protodown_reason_mask " Bits;
    2 28 "proto_down_reason" "protodown_reason " Own;
];

/// Of the program at a driver.
pub const XDP: Rows = crate::rows![
    1 3 "fd" "xdp fd " Number;
    2 0 "mode" "" Own, IfAny;
    3 5 "flags" "flags " Bits;
    4 1 "prog" "" Own;
    5 0 "" "" Apart;
    6 0 "" "" Apart;
    7 0 "" "" Apart;
    8 4 "expected_fd" "expected_fd " Number;
];

/// Of what address families say.
pub const AF_SPEC: Rows = crate::rows![
    2 0 "inet" "" Object;
    10 1 "inet6" "" Object;
    45 2 "mctp" "" Object;
];

/// Of what version 4 says.
pub const AF_SPEC_INET: Rows = crate::rows![1 0 "conf" "" Keyed(INET);];

/// Of what version 6 says. Its mode stands among the pieces of the link.
pub const AF_SPEC_INET6: Rows = crate::rows![
    1 1 "flags" "" Set(INET6_FLAGS, ","), Never;
    2 0 "conf" "" Keyed(INET6);
    3 3 "stats" "" Own;
    4 0 "" "" Written;
    5 2 "cacheinfo" "" Own;
    6 4 "icmp6stats" "" KeyedWide(ICMP6);
    7 5 "token" "token " Text, IfAny;
    8 0 "" "" Apart;
    9 6 "ra_mtu" "ra_mtu " Number, IfAny;
];

/// Of what MCTP says.
pub const AF_SPEC_MCTP: Rows = crate::rows![
    1 0 "net" "net " Number;
    2 1 "phys_binding" "binding " Number;
];

/// Of the pin that a link is clocked by.
pub const PIN: Rows = crate::rows![1 88 "dpll_pin" "dpll_pin " Number;];

/// How a link makes its address of version 6 (`IFLA_INET6_ADDR_GEN_MODE`), among the pieces of the link.
const ADDRESS_MODE: Word = &Wording(50, "inet6_addr_gen_mode", "addrgenmode ");

const IFLA_INET6_ADDR_GEN_MODE: u16 = 8;

/// What version 6 remembers of a link (`struct ifla_cacheinfo`), which no line has.
const CACHE_INFO: Parts = crate::parts![
    U32 0 0 "max_reasm_len" "" Number, Never;
    U32 4 0 "tstamp" "" Number, Never;
    U32 8 0 "reachable_time" "" Number, Never;
    U32 12 0 "retrans_time" "" Number, Never;
];

/// Attributes that tell of others (`IFLA_*` of `linux/if_link.h`).
const IFLA_ADDRESS: u16 = 1;

const IFLA_PROTINFO: u16 = 12;

const IFLA_CARRIER_CHANGES: u16 = 35;

const IFLA_AF_SPEC: u16 = 26;

/// The key of version 6 in what address families say (`AF_INET6`).
const AF_INET6: u16 = 10;

/// Values with another word for some, or that rest on the header or on other attributes; structures.
pub fn push_own(fields: &mut Fields, list: List<'_>, word: Word, seen: &Seen<'_>) {
    let number = small(&seen.value);
    match seen.number {
        2 => push_broadcast(fields, word, list.head, seen.bytes),
        7 => push_stats(fields, word, Size::U32, seen.bytes, None),
        14 => push_map(fields, list, word, seen.bytes),
        16 => push_state(fields, word, number),
        23 => {
            let changes = list.number_if(IFLA_CARRIER_CHANGES);
            push_stats(fields, word, Size::U64, seen.bytes, changes)
        }
        37 => push_namespace(fields, word, &seen.value),
        39 => push_protocol_down(fields, word, number),
        54 => push_made(fields, word, list, seen.bytes),
        _ => {}
    }
}

/// The same of what a driver says, of who holds a link down, of programs, and of version 6.
pub fn push_inner(fields: &mut Fields, list: List<'_>, word: Word, seen: &Seen<'_>) {
    let number = small(&seen.value);
    match (list.nest.told_set(), seen.number) {
        (AttributeSet::LinkInfo, _) => push_port_kind(fields, word, &seen.value),
        (AttributeSet::LinkProtocolDownReason, _) => push_bit_numbers(fields, word, number),
        (AttributeSet::LinkXdp, 2) => push_mode(fields, word, number),
        (AttributeSet::LinkXdp, _) => push_program(fields, word, number),
        (_, 3) => {
            let mut inside = Fields::new(fields.manner);
            push_numbers(&mut inside, Size::U64, &[], seen.bytes);
            fields.list(word, inside, "");
        }
        (_, 5) => push_structure(fields, list, word, seen.bytes, CACHE_INFO),
        _ => {}
    }
}

fn push_port_kind(fields: &mut Fields, word: Word, value: &Value<'_>) {
    if let Value::Name(kind) = value {
        let text = format!(in fields.manner.alloc; "{kind}_slave");
        fields.text_shown(word, kind, text)
    }
}

fn push_broadcast(fields: &mut Fields, word: Word, head: Head, bytes: &[u8]) {
    let address = LinkAddress(bytes, head.of_type);
    if head.is_to_peer {
        fields.truth(&Wording(22, "link_pointtopoint", ""), true);
        return fields.text(&Wording(22, "broadcast", "peer "), &address);
    }
    fields.text(word, &address)
}

/// The address that the device was made with, which a line has where the link has another.
fn push_made(fields: &mut Fields, word: Word, list: List<'_>, bytes: &[u8]) {
    fields.text(word, &LinkAddress(bytes, list.head.of_type));
    match list.first(IFLA_ADDRESS) {
        Some(seen) => fields.hide_if(seen.bytes == bytes),
        None => {}
    }
}

/// The id of a network namespace, which is negative where there is none.
fn push_namespace(fields: &mut Fields, word: Word, value: &Value<'_>) {
    match *value {
        Value::I32(id) if id < 0 => fields.push(word, id, &"unknown"),
        _ => push_number(fields, word, value),
    }
}

fn push_state(fields: &mut Fields, word: Word, number: u32) {
    match fields.manner.name(STATES, number) {
        Some(name) => fields.text(word, &name),
        None => {
            let other = &Wording(9, "operstate_index", "state ");
            fields.push(other, number, &InBits(u64::from(number)))
        }
    }
}

/// Whether a protocol holds the link down.
fn push_protocol_down(fields: &mut Fields, word: Word, number: u32) {
    match number {
        0 => fields.push(word, false, &"off"),
        1 => fields.push(word, true, &"on"),
        _ => fields.number(word, number),
    }
}

fn push_address_mode(fields: &mut Fields, word: Word, number: u32) {
    match fields.manner.name(ADDRESS_MODES, number) {
        Some(name) => fields.text(word, &name),
        None => { fields.text(word, &format_args!("0x{number:02x}")) }
    }
}

fn push_bit_numbers(fields: &mut Fields, word: Word, bits: u32) {
    let mut inside = Fields::new(fields.manner);
    for at in 0..32u32 {
        if bits.checked_shr(at).unwrap_or(0) & 1 != 0 {
            inside.text(ITEM, &at);
        }
    }
    fields.list(word, inside, ",");
}

/// Where a program stands, which a line tells where there is one.
fn push_mode(fields: &mut Fields, word: Word, mode: u32) {
    match fields.manner.name(PROGRAMS, mode) {
        Some(name) => fields.push(word, mode, &name),
        None => {
            let text = format!(in fields.manner.alloc; "xdp[{mode}]");
            fields.written(word, mode, text)
        }
    }
}

/// The number of a program.
fn push_program(fields: &mut Fields, word: Word, id: u32) {
    let mut inside = Fields::new(fields.manner);
    inside.number(&Wording(0, "id", "/id:"), id);
    inside.hide_if(id == 0);
    fields.object(word, inside);
}

/// Each program with its place: those at several places, or else the one.
pub fn push_attached(fields: &mut Fields, list: List<'_>) {
    let word = &Wording(2, "attached", "");
    let mut several = Fields::new(fields.manner);
    for (mode, number) in [(1, 5u16), (2, 6), (3, 7)] {
        if let Some(seen) = list.first(number) {
            push_place(&mut several, mode, small(&seen.value));
        }
    }
    if !several.is_empty() {
        return fields.list(word, several, " ");
    }
    if let Some(seen) = list.first(4) {
        let mut one = Fields::new(fields.manner);
        push_place(&mut one, list.number(2), small(&seen.value));
        fields.list(word, one, " ");
        fields.hide();
    }
}

fn push_place(fields: &mut Fields, mode: u32, id: u32) {
    let mut inside = Fields::new(fields.manner);
    let name = fields.manner.name(PROGRAMS, mode).unwrap_or("xdp");
    inside.push(&Wording(0, "mode", ""), mode, &name);
    push_program(&mut inside, &Wording(1, "prog", ""), id);
    fields.object(ITEM, inside);
}

/// How a link makes its address of version 6, as its settings or its protocol tell it.
pub fn push_address_modes(fields: &mut Fields, list: List<'_>) {
    let of_settings = match list.first_inside(IFLA_AF_SPEC) {
        Some(inner) => inner.first_inside(AF_INET6),
        None => None,
    };
    for inner in [list.first_inside(IFLA_PROTINFO), of_settings] {
        match inner {
            Some(inner) if matches!(inner.nest.set, AttributeSet::AfSpecInet6) => push_modes(
                fields, inner,
            ),
            _ => {}
        }
    }
}

fn push_modes(fields: &mut Fields, list: List<'_>) {
    for next in NlasIterator::new(list.bytes) {
        let Ok(item) = next else {
            return;
        };
        match list.seen(&item) {
            Some(seen) if seen.number == IFLA_INET6_ADDR_GEN_MODE => {
                push_address_mode(fields, ADDRESS_MODE, small(&seen.value))
            }
            _ => {}
        }
    }
}
