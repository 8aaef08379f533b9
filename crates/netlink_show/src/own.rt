//! What is shown of values in a way of their own, and what several attributes of a list tell together.

use crate::bridge_vlan::push_bridge_lists;
use crate::field::{Fields, Word};
use crate::link_attribute::{push_address_modes, push_attached};
use crate::list::{List, Seen};
use crate::metric::push_locks;
use crate::tunnel_encap::{push_erspan, push_geneve};
use crate::tunnel_value::push_encap;
use crate::value::push_labels;
use crate::{
    address, bond, bridge, device, device_kind, link_attribute, metric, neighbour, neighbour_table,
    netconf, next_hop, prefix, route_value, rule, segment_encap, stats, traffic_cake, traffic_own,
    tunnel_encap, tunnel_option, tunnel_value, virtual_function,
};
use netlink_packet_route::framing::AttributeSet;

/// What is shown of a value in a way of its own.
pub fn push_own(fields: &mut Fields, list: List<'_>, word: Word, seen: &Seen<'_>) {
    match list.nest.told_set() {
        AttributeSet::Link => link_attribute::push_own(fields, list, word, seen),
        AttributeSet::LinkInfo
        | AttributeSet::LinkXdp
        | AttributeSet::LinkProtocolDownReason
        | AttributeSet::AfSpecInet6 => link_attribute::push_inner(fields, list, word, seen),
        AttributeSet::InfoBridge | AttributeSet::InfoBridgePort => bridge::push_own(
            fields, list, word, seen,
        ),
        AttributeSet::InfoBond | AttributeSet::InfoBondPort => bond::push_own(
            fields, list, word, seen,
        ),
        AttributeSet::InfoVlan
        | AttributeSet::VlanQosMapping
        | AttributeSet::InfoMacVlan
        | AttributeSet::InfoIpVlan
        | AttributeSet::InfoTun => device::push_own(fields, list, word, seen),
        AttributeSet::InfoVxlan
        | AttributeSet::InfoGeneve
        | AttributeSet::InfoGre6
        | AttributeSet::InfoIpTunnel => tunnel_value::push_own(fields, list, word, seen),
        AttributeSet::InfoIpoib | AttributeSet::InfoMacSec => device_kind::push_own(
            fields, list, word, seen,
        ),
        AttributeSet::VfInfo => virtual_function::push_own(fields, list, word, seen),
        AttributeSet::VfVlan => virtual_function::push_vlan(fields, list, word, seen),
        AttributeSet::VfPort => virtual_function::push_uuid(fields, word, seen.bytes),
        _ => push_own_of_message(fields, list, word, seen),
    }
}

/// The same but for links.
fn push_own_of_message(fields: &mut Fields, list: List<'_>, word: Word, seen: &Seen<'_>) {
    match list.nest.told_set() {
        AttributeSet::Route => route_value::push_own(fields, list, word, seen),
        AttributeSet::Metric => metric::push_own(fields, list, word, seen),
        AttributeSet::Mpls => push_labels(fields, word, seen.bytes),
        AttributeSet::Ip | AttributeSet::Ip6 => { tunnel_encap::push_own(fields, word, seen) }
        AttributeSet::Seg6 | AttributeSet::Seg6Local | AttributeSet::Rpl | AttributeSet::Ioam6 => {
            segment_encap::push_own(fields, list, word, seen)
        }
        AttributeSet::Opt => push_geneve(fields, word, seen.bytes),
        AttributeSet::Rule => rule::push_own(fields, list, word, seen),
        AttributeSet::Address => address::push_own(fields, list, word, seen),
        AttributeSet::Neighbour => neighbour::push_own(fields, word, seen),
        AttributeSet::NeighbourTable => neighbour_table::push_own(fields, list, seen),
        AttributeSet::NextHop => next_hop::push_own(fields, list, word, seen),
        AttributeSet::Netconf => netconf::push_own(fields, word, seen),
        AttributeSet::Prefix => prefix::push_own(fields, list, seen),
        AttributeSet::Stats
        | AttributeSet::BridgeXstats
        | AttributeSet::OffloadXstats
        | AttributeSet::MplsStats => stats::push_own(fields, list, word, seen),
        _ => traffic_own::push_own(fields, list, word, seen),
    }
}

/// What several attributes of a list tell together.
pub fn push_beside(fields: &mut Fields, list: List<'_>) {
    match list.nest.told_set() {
        AttributeSet::InfoGre | AttributeSet::InfoGre6 => push_encap(
            fields,
            list,
            [14, 15, 16, 17],
        ),
        AttributeSet::InfoIpTunnel => push_encap(fields, list, [15, 16, 17, 18]),
        AttributeSet::LinkXdp => push_attached(fields, list),
        AttributeSet::AfSpecBridge => push_bridge_lists(fields, list),
        AttributeSet::Link => push_address_modes(fields, list),
        AttributeSet::NextHop => next_hop::push_beside(fields, list),
        AttributeSet::Metric => push_locks(fields, list),
        AttributeSet::TcQdiscCake => traffic_cake::push_beside(fields, list),
        AttributeSet::TcEnc => tunnel_option::push_beside(fields, list),
        AttributeSet::Erspan => push_erspan(fields, list),
        _ => {}
    }
}
