//! What is shown of the VLANs and the spanning trees of a port of a bridge.

use crate::field::{Fields, ITEM, Word, Wording};
use crate::link_names::PORT_STATES;
use crate::list::{List, Seen};
use crate::names::Names;
use crate::row::How::{Apart, Flat, Known, Named, Number, Objects, Set};
use crate::row::Line::IfAny;
use crate::row::Rows;
use crate::walk::push_all_rows;
use netlink_packet_route::Flags;
use netlink_packet_route::framing::NlasIterator;
use netlink_packet_route::link::BridgeVlanInfo;

/// Of what a bridge says. VLANs and tunnels stand in lists of their own.
pub const AF_SPEC_BRIDGE: Rows = crate::rows![
    0 0 "flags" "for " Named(TARGETS);
    1 1 "hwmode" "hwmode " Named(MODES);
    2 0 "" "" Apart;
    3 0 "" "" Apart;
    6 4 "mst" "" Objects("mst { ", ", ", " }");
];

/// Whom a request is for.
const TARGETS: Names = &[(1, "master"), (2, "self")];

const MODES: Names = &[(0, "veb"), (1, "vepa")];

/// What is said of a VLAN; `bridge` shows the ends of a range as one.
const BRIDGE_VLAN_FLAGS: Names = &[
    (0x1, "MASTER"),
    (0x2, "PVID"),
    (0x4, "Egress Untagged"),
    (0x8, "RANGE_BEGIN"),
    (0x10, "RANGE_END"),
    (0x20, "BRENTRY"),
    (0x40, "ONLY_OPTS"),
];

/// Of a tunnel of a VLAN.
pub const VLAN_TUNNEL: Rows = crate::rows![
    1 2 "tunid" "tunid " Number;
    2 0 "vlan" "vlan " Number;
    3 1 "flags" "" Set(BRIDGE_VLAN_FLAGS, " "), IfAny;
];

/// Of a spanning tree, in a list of them.
pub const TREES: Rows = crate::rows![1 0 "" "" Flat;];

/// Of a spanning tree.
pub const TREE: Rows = crate::rows![
    1 0 "msti" "msti " Number;
    2 1 "state" "state " Known(PORT_STATES, &Wording(1, "state_index", "state "));
];

const VLANS: Word = &Wording(2, "vlans", "");

const TUNNELS: Word = &Wording(3, "tunnels", "");

/// VLANs and their tunnels.
pub fn push_bridge_lists(fields: &mut Fields, list: List<'_>) {
    let mut vlans = Fields::new(fields.manner);
    let mut tunnels = Fields::new(fields.manner);
    for next in NlasIterator::new(list.bytes) {
        let Ok(item) = next else {
            return;
        };
        match (item.kind(), list.seen(&item)) {
            (2, Some(seen)) => push_vlan(&mut vlans, &seen),
            (3, Some(seen)) => push_tunnel(&mut tunnels, list, &seen),
            _ => {}
        }
    }
    push_some(fields, VLANS, vlans, "vlans { ");
    push_some(fields, TUNNELS, tunnels, "tunnels { ");
}

/// A list in braces, where there is something in it.
fn push_some(fields: &mut Fields, word: Word, objects: Fields, front: &str) {
    if !objects.is_empty() {
        fields.list_in(word, objects, (front, ", ", " }"));
    }
}

fn push_vlan(objects: &mut Fields, seen: &Seen<'_>) {
    let Ok(vlan) = BridgeVlanInfo::parse(seen.bytes) else {
        return;
    };
    let mut inside = Fields::new(objects.manner);
    inside.number(&Wording(0, "vlan", "vlan "), vlan.vid);
    let bits = u32::from(vlan.flags.bits());
    inside.set(&Wording(1, "flags", ""), BRIDGE_VLAN_FLAGS, bits, " ");
    inside.hide_if(bits == 0);
    objects.object(ITEM, inside);
}

fn push_tunnel(objects: &mut Fields, list: List<'_>, seen: &Seen<'_>) {
    let mut inside = Fields::new(objects.manner);
    if let Some(inner) = list.inside(seen) {
        push_all_rows(&mut inside, inner, VLAN_TUNNEL);
    }
    objects.object(ITEM, inside);
}
