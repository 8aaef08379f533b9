//! What is shown of devices: VLANs, routing domains, pairs, MACVLANs, IPVLANs and TUN.

use crate::bridge::push_tag;
use crate::field::{Fields, Word, Wording};
use crate::link_kind_names::{
    ADDRESS_CHANGES, IP_VLAN_MODES, MAC_VLAN_MODES, NETKIT_MODES, NETKIT_POLICIES, NETKIT_SCRUBS,
    TUN_TYPES,
};
use crate::link_names::VLAN_FLAGS;
use crate::list::{List, Seen, small};
use crate::part::push_parts;
use crate::row::How::{
    Angled, Bits, Flags, Hardware, Items, Named, Number, Objects, OneOf, Own, Peer, Switch, Truth,
    Written,
};
use crate::row::Line::{IfAny, IfBits, IfIs, Not};
use crate::row::{ANY, Parts, Rows};
use netlink_packet_route::framing::AttributeSet;

/// Of a VLAN.
pub const VLAN: Rows = crate::rows![
    1 1 "id" "id " Number;
    2 2 "flags" "" Own;
    3 5 "egress_qos" "\n      egress-qos-map " Objects("{ ", " ", " }");
    4 4 "ingress_qos" "\n      ingress-qos-map " Objects("{ ", " ", " }");
    5 0 "protocol" "protocol " Own;
];

/// Of a mapping of priorities.
pub const VLAN_QOS: Rows = crate::rows![1 0 "from" "" Own;];

/// Of a routing domain, or of a port of one.
pub const VRF: Rows = crate::rows![1 0 "table" "table " Number;];

/// Of a pair.
pub const VETH: Rows = crate::rows![1 0 "peer" "peer" Peer;];

/// Of one of a pair of netkit.
pub const NETKIT: Rows = crate::rows![
    1 6 "peer" "peer" Peer;
    2 1 "type" "type " OneOf("primary", "peer");
    3 2 "policy" "policy " Named(NETKIT_POLICIES);
    4 3 "peer_policy" "peer policy " Named(NETKIT_POLICIES);
    5 0 "mode" "mode " Named(NETKIT_MODES);
    6 4 "scrub" "scrub " Named(NETKIT_SCRUBS);
    7 5 "peer_scrub" "peer scrub " Named(NETKIT_SCRUBS);
    8 0 "" "" Written;
    9 0 "" "" Written;
    10 0 "" "" Written;
];

/// Of a MACVLAN. A line has its sources where it takes their packets alone.
pub const MAC_VLAN: Rows = crate::rows![
    1 0 "mode" "mode " Named(MAC_VLAN_MODES);
    2 3 "flags" "" Flags(&[
        (0x1, &Wording(1, "nopromisc", "nopromisc")),
        (0x2, &Wording(2, "nodst", "nodst")),
    ]);
    3 9 "macaddr_mode" "macaddr " Named(ADDRESS_CHANGES);
    4 10 "macaddr" "sender " Hardware;
    5 8 "macaddr_data" "" Items("", " ", ""), IfIs(1, 16);
    6 7 "macaddr_count" "remotes " Own, IfIs(1, 16);
    7 4 "bcqueuelen" "bcqueuelen " Number;
    8 5 "usedbcqueuelen" "usedbcqueuelen " Number;
    9 6 "bclim" "bclim " Number;
];

/// Of the sources of a MACVLAN.
pub const MAC_VLAN_SOURCES: Rows = crate::rows![4 0 "" "" Hardware;];

/// Of an IPVLAN.
pub const IP_VLAN: Rows = crate::rows![
    1 0 "mode" "mode " Named(IP_VLAN_MODES);
    2 3 "flags" "" Own;
];

/// Of a TUN device.
pub const TUN: Rows = crate::rows![
    1 7 "user" "user " Number;
    2 8 "group" "group " Number;
    3 0 "type" "type " Own;
    4 1 "pi" "pi " Switch;
    5 2 "vnet_hdr" "vnet_hdr " Switch;
    6 6 "persist" "persist " Switch;
    7 3 "multi_queue" "multi_queue" Truth, IfAny;
    8 4 "numqueues" "numqueues " Number, IfBits(7, ANY);
    9 5 "numdisabled" "numdisabled " Number, IfBits(7, ANY);
];

/// The flags of a VLAN, and those that are meant, where these are not all (`struct ifla_vlan_flags`).
const FLAGS: Parts = crate::parts![
    U32 0 2 "flags" "" Angled(VLAN_FLAGS);
    U32 4 3 "flags_mask" "mask " Bits, Not(ANY);
];

/// A priority and what it becomes (`struct ifla_vlan_qos_mapping`).
const MAPPING: Parts = crate::parts![
    U32 0 0 "from" "" Number;
    U32 4 1 "to" ":" Number;
];

/// Structures, and numbers with a text of their own.
pub fn push_own(fields: &mut Fields, list: List<'_>, word: Word, seen: &Seen<'_>) {
    let number = small(&seen.value);
    match (list.nest.told_set(), seen.number) {
        (AttributeSet::InfoVlan, 2) => push_parts(fields, list, seen.bytes, FLAGS),
        (AttributeSet::InfoVlan, _) => push_tag(fields, word, number),
        (AttributeSet::VlanQosMapping, _) => push_parts(fields, list, seen.bytes, MAPPING),
        (AttributeSet::InfoTun, _) => push_tun_type(fields, word, number),
        (AttributeSet::InfoIpVlan, _) => push_ip_vlan_flags(fields, word, number),
        _ => push_count(fields, word, number),
    }
}

fn push_tun_type(fields: &mut Fields, word: Word, number: u32) {
    match fields.manner.name(TUN_TYPES, number) {
        Some(name) => fields.text(word, &name),
        None => {
            let text = format!(in fields.manner.alloc; "UNKNOWN:{number}");
            fields.made(word, text)
        }
    }
}

/// How many sources a MACVLAN has, in brackets.
fn push_count(fields: &mut Fields, word: Word, number: u32) {
    let text = format!(in fields.manner.alloc; "({number})");
    fields.written(word, number, text)
}

/// Who hears whom, which is one of three. No line has the rest.
fn push_ip_vlan_flags(fields: &mut Fields, word: Word, bits: u32) {
    let mode = match (bits & 1, bits & 2) {
        (0, 0) => &Wording(1, "bridge", "bridge"),
        (0, _) => &Wording(1, "vepa", "vepa"),
        _ => &Wording(1, "private", "private"),
    };
    fields.truth(mode, true);
    fields.bits(word, bits);
    fields.hide();
}
