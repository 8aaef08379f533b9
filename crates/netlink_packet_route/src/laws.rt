//! The laws of messages, over their definitions alone. Each function does nothing, and
//! its contract is the law.

ghost use Rattle.std.specs.{Prelude.{◌≡◌, ℕ, List as Bytes}, List.{Contains}};
ghost use Rattle.{
  npr_base.specs.{Equality.{IsEquality, IsEqualityOf}, Opening.{Opens}, Walk.{CutsInTwo}, declared.address_family.AddressFamily.{AddressFamily}},
  npr_address.specs.Attribute.{attributes as address_attributes},
  npr_link.specs.Attribute.{attributes as link_attributes},
  npr_neighbour.specs.Attribute.{attributes as neighbour_attributes},
  npr_nexthop.specs.Attribute.{Context as NextHopContext, attributes as next_hop_attributes},
  npr_route.specs.{FlatAttribute.{Context}, AttributeFamily.{attributes as route_attributes}},
  npr_rule.specs.Attribute.{attributes as rule_attributes},
  npr_address.specs.{AddressLabelAttribute.{attributes as address_label_attributes}, PrefixAttribute.{attributes as prefix_attributes}},
  npr_namespace.specs.{NetconfAttribute.{attributes as netconf_attributes}, NsidAttribute.{attributes as nsid_attributes}},
  npr_neighbour.specs.{NeighbourTableAttribute.{attributes as neighbour_table_attributes}},
  npr_stats.specs.Attribute.{attributes as stats_attributes},
  npr_tc.specs.{ActionAttribute.{attributes as tc_action_attributes}, Attribute.{attributes as tc_attributes}},
  npr_tc_values.specs.declared.form.TcForm.{TcForm},
  netlink_packet_core.specs.Message.{message_of},
  netlink_packet_route.specs.{
    MessageKind.{kind_name},
    Nests.{IsInside, reading_of},
    RouteNetlinkMessage.{meaning_of, other_of},
    declared.nests.Nest.{Nest as Named},
  },
};

use crate::canonical_bytes::CanonicalError;
use crate::canonical_bytes::WriteCanonicalError;
use crate::kind::MessageKind;
use crate::message::OtherMessage;
use crate::message::RouteNetlinkMessage;
use netlink_packet_core::NetlinkMessage;
pub use netlink_packet_core::laws::law_conversation;
pub use netlink_packet_core::laws::law_datagram;
pub use netlink_packet_core::laws::law_default as law_envelope_default;
pub use netlink_packet_core::laws::law_equality as law_envelope_equality;
pub use netlink_packet_core::laws::law_flags as law_envelope_flags;
pub use netlink_packet_core::laws::law_message;
pub use netlink_packet_core::laws::law_message_equality;
pub use netlink_packet_core::laws::law_message_types;
pub use netlink_packet_core::laws::law_walk as law_envelope_walk;
pub use netlink_packet_core::laws::law_written;
use npr_address::AddressAttribute;
use npr_address::AddressLabelAttribute;
use npr_address::PrefixAttribute;
pub use npr_address::laws::law_address_flags;
pub use npr_address::laws::law_default as law_address_default;
pub use npr_address::laws::law_equality as law_address_equality;
pub use npr_address::laws::law_label_default;
pub use npr_address::laws::law_label_equality;
pub use npr_address::laws::law_label_equality_of_meanings;
pub use npr_address::laws::law_numbers as law_address_numbers;
pub use npr_base::laws::law_canonical;
pub use npr_base::laws::law_constants as law_framing_constants;
pub use npr_base::laws::law_cut as law_cut_in_two;
pub use npr_base::laws::law_default as law_family_default;
pub use npr_base::laws::law_equality as law_framing_equality;
pub use npr_base::laws::law_family_number;
pub use npr_base::laws::law_looks;
pub use npr_base::laws::law_one_reading;
pub use npr_base::laws::law_read_back;
pub use npr_base::laws::law_walk;
pub use npr_encapsulation::laws::law_default as law_tunnel_default;
pub use npr_encapsulation::laws::law_encap_type_number;
pub use npr_encapsulation::laws::law_equality as law_tunnel_equality;
pub use npr_encapsulation::laws::law_ip_flags;
pub use npr_encapsulation::laws::law_ip6_flags;
use npr_link::LinkAttribute;
pub use npr_link::laws::law_default as law_link_default;
pub use npr_link::laws::law_equality as law_link_value_equality;
pub use npr_link::laws::law_equality_of_meanings as law_link_equality;
pub use npr_link::laws::law_flags as law_link_value_flags;
pub use npr_link::laws::law_governing as law_link_governing;
pub use npr_link::laws::law_kinds as law_link_kinds;
pub use npr_link::laws::law_link_flags;
pub use npr_link::laws::law_netkit_policies;
pub use npr_link::laws::law_numbers as law_link_numbers;
pub use npr_link::laws::law_search as law_link_search;
pub use npr_link_bridge::laws::law_default as law_bridge_default;
pub use npr_link_bridge::laws::law_equality as law_bridge_value_equality;
pub use npr_link_bridge::laws::law_equality_of_meanings as law_bridge_equality;
pub use npr_link_bridge::laws::law_flags as law_bridge_flags;
pub use npr_link_bridge::laws::law_numbers as law_bridge_numbers;
pub use npr_link_bridge::laws::law_router_types;
pub use npr_link_devices::laws::law_default as law_device_default;
pub use npr_link_devices::laws::law_equality as law_device_value_equality;
pub use npr_link_devices::laws::law_equality_of_meanings as law_device_equality;
pub use npr_link_devices::laws::law_flags as law_device_flags;
pub use npr_link_devices::laws::law_numbers as law_device_numbers;
pub use npr_link_devices::laws::law_targets;
pub use npr_link_functions::laws::law_default as law_link_function_default;
pub use npr_link_functions::laws::law_equality as law_link_function_value_equality;
pub use npr_link_functions::laws::law_equality_of_meanings as law_link_function_equality;
pub use npr_link_functions::laws::law_numbers as law_link_function_numbers;
pub use npr_link_tunnels::laws::law_default as law_link_tunnel_default;
pub use npr_link_tunnels::laws::law_equality as law_link_tunnel_value_equality;
pub use npr_link_tunnels::laws::law_equality_of_meanings as law_link_tunnel_equality;
pub use npr_link_tunnels::laws::law_flags as law_link_tunnel_flags;
pub use npr_link_tunnels::laws::law_numbers as law_link_tunnel_numbers;
use npr_namespace::NetconfAttribute;
use npr_namespace::NsidAttribute;
pub use npr_namespace::laws::law_default as law_namespace_default;
pub use npr_namespace::laws::law_equality as law_namespace_equality;
pub use npr_namespace::laws::law_equality_of_meanings as law_namespace_equality_of_meanings;
use npr_neighbour::NeighbourAttribute;
use npr_neighbour::NeighbourTableAttribute;
pub use npr_neighbour::laws::law_default as law_neighbour_default;
pub use npr_neighbour::laws::law_equality as law_neighbour_equality;
pub use npr_neighbour::laws::law_neighbour_flags;
pub use npr_neighbour::laws::law_neighbour_states;
pub use npr_neighbour::laws::law_read_back as law_neighbour_read_back;
pub use npr_neighbour::laws::law_table_default;
pub use npr_neighbour::laws::law_table_equality;
pub use npr_neighbour::laws::law_table_equality_of_meanings;
use npr_nexthop::NextHopAttribute;
pub use npr_nexthop::laws::law_default as law_next_hop_default;
pub use npr_nexthop::laws::law_equality as law_next_hop_value_equality;
pub use npr_nexthop::laws::law_equality_of_meanings as law_next_hop_equality;
pub use npr_nexthop::laws::law_governing_type as law_next_hop_governing_type;
use npr_route::RouteAttribute;
pub use npr_route::laws::law_constants as law_route_constants;
pub use npr_route::laws::law_default as law_route_default;
pub use npr_route::laws::law_equality as law_route_equality;
pub use npr_route::laws::law_governing_type;
pub use npr_route::laws::law_looks as law_route_looks;
pub use npr_route::laws::law_newer;
pub use npr_route::laws::law_next_hops;
pub use npr_route_values::laws::law_default as law_value_default;
pub use npr_route_values::laws::law_equality as law_value_equality;
pub use npr_route_values::laws::law_label_number;
pub use npr_route_values::laws::law_labels_length;
pub use npr_route_values::laws::law_layouts as law_value_layouts;
pub use npr_route_values::laws::law_next_hop_flags;
pub use npr_route_values::laws::law_numbers as law_value_numbers;
pub use npr_route_values::laws::law_read_back as law_value_read_back;
pub use npr_route_values::laws::law_realm_number;
pub use npr_route_values::laws::law_route_flags;
use npr_rule::RuleAttribute;
pub use npr_rule::laws::law_default as law_rule_default;
pub use npr_rule::laws::law_equality as law_rule_equality;
pub use npr_rule::laws::law_numbers as law_rule_numbers;
pub use npr_rule::laws::law_rule_flags;
pub use npr_srh::laws::law_default as law_routing_header_default;
pub use npr_srh::laws::law_equality as law_routing_header_equality;
pub use npr_srh::laws::law_numbers as law_routing_header_numbers;
use npr_stats::StatsAttribute;
pub use npr_stats::laws::law_default as law_stats_default;
pub use npr_stats::laws::law_equality as law_stats_value_equality;
pub use npr_stats::laws::law_equality_of_meanings as law_stats_equality;
use npr_tc::TcActionMessageAttribute;
use npr_tc::TcAttribute;
pub use npr_tc::laws::law_default as law_tc_default;
pub use npr_tc::laws::law_equality as law_tc_value_equality;
pub use npr_tc::laws::law_equality_of_meanings as law_tc_equality;
pub use npr_tc::laws::law_flags as law_tc_flags;
pub use npr_tc::laws::law_governing_form as law_tc_governing_form;
pub use npr_tc_actions::laws::law_default as law_tc_action_default;
pub use npr_tc_actions::laws::law_equality as law_tc_action_value_equality;
pub use npr_tc_actions::laws::law_equality_of_meanings as law_tc_action_equality;
pub use npr_tc_actions::laws::law_flags as law_tc_action_flags;
pub use npr_tc_actions::laws::law_numbers as law_tc_action_numbers;
pub use npr_tc_filters::laws::law_default as law_tc_filter_default;
pub use npr_tc_filters::laws::law_equality as law_tc_filter_value_equality;
pub use npr_tc_filters::laws::law_equality_of_meanings as law_tc_filter_equality;
pub use npr_tc_filters::laws::law_flags as law_tc_filter_flags;
pub use npr_tc_qdiscs::laws::law_default as law_tc_qdisc_default;
pub use npr_tc_qdiscs::laws::law_equality as law_tc_qdisc_value_equality;
pub use npr_tc_qdiscs::laws::law_equality_of_meanings as law_tc_qdisc_equality;
pub use npr_tc_qdiscs::laws::law_forms as law_tc_forms;
pub use npr_tc_qdiscs::laws::law_numbers as law_tc_qdisc_numbers;
pub use npr_tc_values::laws::law_counters as law_tc_counters;
pub use npr_tc_values::laws::law_default as law_tc_base_default;
pub use npr_tc_values::laws::law_equality as law_tc_base_value_equality;
pub use npr_tc_values::laws::law_equality_of_meanings as law_tc_base_equality;
pub use npr_tc_values::laws::law_handles as law_tc_handles;
pub use npr_tc_values::laws::law_named_handles as law_tc_named_handles;

/// A list whose beginning is a multiple of four bytes, and is cut into attributes by itself, is the
/// list of that beginning and then the list of the rest, in the same context.
pub fn law_cut()
    ensures address { CutsInTwo address_attributes.Reads }
    ensures route { (context : Context) → CutsInTwo (route_attributes context).Reads }
    ensures rule { CutsInTwo rule_attributes.Reads }
    ensures neighbour { (family : AddressFamily) → CutsInTwo (neighbour_attributes family).Reads }
    ensures link { (family : AddressFamily) → CutsInTwo (link_attributes family).Reads }
    ensures next_hop { (context : NextHopContext) → CutsInTwo (next_hop_attributes context).Reads }
    ensures nsid { CutsInTwo nsid_attributes.Reads }
    ensures netconf { CutsInTwo netconf_attributes.Reads }
    ensures address_label { CutsInTwo address_label_attributes.Reads }
    ensures neighbour_table { CutsInTwo neighbour_table_attributes.Reads }
    ensures prefix { CutsInTwo prefix_attributes.Reads }
    ensures stats { CutsInTwo stats_attributes.Reads }
    ensures tc { (form : TcForm) → CutsInTwo (tc_attributes form).Reads }
    ensures tc_action { CutsInTwo tc_action_attributes.Reads }
{
    law_cut_in_two::<AddressAttribute>();
    law_cut_in_two::<RouteAttribute>();
    law_cut_in_two::<RuleAttribute>();
    law_cut_in_two::<NeighbourAttribute>();
    law_cut_in_two::<LinkAttribute>();
    law_cut_in_two::<NextHopAttribute>();
    law_cut_in_two::<NsidAttribute>();
    law_cut_in_two::<NetconfAttribute>();
    law_cut_in_two::<AddressLabelAttribute>();
    law_cut_in_two::<NeighbourTableAttribute>();
    law_cut_in_two::<PrefixAttribute>();
    law_cut_in_two::<TcAttribute>();
    law_cut_in_two::<TcActionMessageAttribute>();
    law_cut_in_two::<StatsAttribute>();
}

/// Each kind of message is one of `MessageKind::ALL`, no two have one name, and `==` answers whether
/// two are equal.
pub fn law_message_kinds()
    ensures all { (kind : MessageKind) → Contains MessageKind.ALL kind }
    ensures names { (kind other : MessageKind) → kind_name kind ≡ kind_name other → kind ≡ other }
    ensures equality { IsEquality ⟦<MessageKind as PartialEq>⟧.eq }
{}

/// `==` answers whether two reasons why there are no canonical bytes are equal.
pub fn law_canonical_equality()
    ensures error { IsEquality ⟦<CanonicalError as PartialEq>⟧.eq }
    ensures write_error { IsEquality ⟦<WriteCanonicalError as PartialEq>⟧.eq }
{
    law_framing_equality();
}

/// `==` answers whether two messages mean the same.
pub fn law_rtnetlink_equality()
    ensures other { IsEqualityOf other_of ⟦<OtherMessage as PartialEq>⟧.eq }
    ensures inner { IsEqualityOf meaning_of ⟦<RouteNetlinkMessage as PartialEq>⟧.eq }
    ensures message { IsEqualityOf (message_of meaning_of) ⟦<NetlinkMessage<RouteNetlinkMessage> as PartialEq>⟧.eq }
{
    law_address_equality();
    law_route_equality();
    law_rule_equality();
    law_neighbour_equality();
    law_table_equality_of_meanings();
    law_label_equality_of_meanings();
    law_link_equality();
    law_namespace_equality_of_meanings();
    law_next_hop_equality();
    law_tc_equality();
    law_stats_equality();
    law_message_equality::<RouteNetlinkMessage>();
}

/// A list that stands in a value is read exactly where the attribute is, and its first fault is that of the
/// attribute: whatever names it, and at every depth.
pub fn law_inside()
    ensures { (outer inner : Named) (number : ℕ) (value inside : Bytes ℕ) (is : IsInside outer number value inner inside) → Opens (reading_of outer).reading (reading_of inner).reading number is.front value }
{}
