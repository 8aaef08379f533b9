//! Which table has the rows of a list of attributes, and where what is odd in it is shown.

use crate::address::ADDRESS;
use crate::address_label::ADDRESS_LABEL;
use crate::bond::BOND;
use crate::bond::BOND_AD_INFO;
use crate::bond::BOND_PORT;
use crate::bridge::BRIDGE;
use crate::bridge::BRIDGE_PORT;
use crate::bridge_vlan::AF_SPEC_BRIDGE;
use crate::bridge_vlan::TREE;
use crate::bridge_vlan::TREES;
use crate::bridge_vlan::VLAN_TUNNEL;
use crate::device::IP_VLAN;
use crate::device::MAC_VLAN;
use crate::device::MAC_VLAN_SOURCES;
use crate::device::NETKIT;
use crate::device::TUN;
use crate::device::VETH;
use crate::device::VLAN;
use crate::device::VLAN_QOS;
use crate::device::VRF;
use crate::device_kind::GTP;
use crate::device_kind::HSR;
use crate::device_kind::IPOIB;
use crate::device_kind::MAC_SEC;
use crate::device_kind::OVPN;
use crate::link_attribute::AF_SPEC;
use crate::link_attribute::AF_SPEC_INET;
use crate::link_attribute::AF_SPEC_INET6;
use crate::link_attribute::AF_SPEC_MCTP;
use crate::link_attribute::LINK;
use crate::link_attribute::LINK_INFO;
use crate::link_attribute::PIN;
use crate::link_attribute::PROPERTIES;
use crate::link_attribute::REASONS;
use crate::link_attribute::XDP;
use crate::list::List;
use crate::metric::METRICS;
use crate::neighbour::FORWARDING;
use crate::neighbour::NEIGHBOUR;
use crate::neighbour_table::NEIGHBOUR_TABLE;
use crate::netconf::NETCONF;
use crate::next_hop::BUCKET;
use crate::next_hop::NEXT_HOP;
use crate::next_hop::RESILIENT;
use crate::nsid::NSID;
use crate::peer::PEER;
use crate::prefix::PREFIX;
use crate::route::ROUTE;
use crate::row::Row;
use crate::row::Rows;
use crate::rule::RULE;
use crate::segment_encap::IOAM6;
use crate::segment_encap::RPL;
use crate::segment_encap::SEG6;
use crate::segment_encap::SEG6_LOCAL;
use crate::stats::AF_STATS;
use crate::stats::BOND_AD_STATS;
use crate::stats::BOND_XSTATS;
use crate::stats::BRIDGE_XSTATS;
use crate::stats::LINK_XSTATS;
use crate::stats::MPLS_STATS;
use crate::stats::OFFLOAD_INFO;
use crate::stats::OFFLOAD_STATE;
use crate::stats::OFFLOAD_XSTATS;
use crate::stats::STATISTICS;
use crate::traffic::ACTIONS;
use crate::traffic::TRAFFIC;
use crate::traffic_action::ACTION;
use crate::traffic_action::MIRROR;
use crate::traffic_action::NAT;
use crate::traffic_action::TUNNEL_KEY;
use crate::traffic_basic::BASIC;
use crate::traffic_basic::MATCHES;
use crate::traffic_cake::CAKE;
use crate::traffic_cake::CAKE_STATS;
use crate::traffic_cake::CAKE_TIN;
use crate::traffic_filter::BPF;
use crate::traffic_filter::FW;
use crate::traffic_filter::MATCH_ALL;
use crate::traffic_filter::U32;
use crate::traffic_flower::FLOWER;
use crate::traffic_flower::FLOWER_MPLS;
use crate::traffic_flower::FLOWER_MPLS_LSE;
use crate::traffic_flower_key::FLOWER_CFM;
use crate::traffic_kind::FQ;
use crate::traffic_kind::RED;
use crate::traffic_mqprio::MQPRIO;
use crate::traffic_mqprio::MQPRIO_ENTRY;
use crate::traffic_netem::NETEM;
use crate::traffic_netem::NETEM_LOSS;
use crate::traffic_option::ACTION_BPF;
use crate::traffic_option::ACTION_VLAN;
use crate::traffic_option::CSUM;
use crate::traffic_option::CT;
use crate::traffic_option::GACT;
use crate::traffic_option::SAMPLE;
use crate::traffic_option::SKBEDIT;
use crate::traffic_own::row_of_traffic;
use crate::traffic_pedit::PEDIT;
use crate::traffic_pedit::PEDIT_KEY;
use crate::traffic_pedit::PEDIT_KEYS;
use crate::traffic_police::POLICE;
use crate::traffic_qdisc::FQ_CODEL;
use crate::traffic_qdisc::STAB;
use crate::traffic_qdisc::STATS;
use crate::traffic_rate::HTB;
use crate::traffic_rate::TBF;
use crate::tunnel::GENEVE;
use crate::tunnel::GRE;
use crate::tunnel::GRE6;
use crate::tunnel::IP_TUNNEL;
use crate::tunnel::IP6_TUNNEL;
use crate::tunnel::VTI;
use crate::tunnel::VXLAN;
use crate::tunnel::XFRM;
use crate::tunnel_encap::ERSPAN_OPTIONS;
use crate::tunnel_encap::IP;
use crate::tunnel_encap::IP6;
use crate::tunnel_encap::MPLS;
use crate::tunnel_encap::OPTIONS;
use crate::tunnel_encap::VXLAN_OPTIONS;
use crate::tunnel_encap::XFRM_ENCAP;
use crate::tunnel_option::ENC;
use crate::tunnel_option::ENC_ERSPAN;
use crate::tunnel_option::ENC_GENEVE;
use crate::tunnel_option::ENC_GTP;
use crate::tunnel_option::ENC_PFCP;
use crate::tunnel_option::ENC_VXLAN;
use crate::virtual_function::FUNCTION;
use crate::virtual_function::FUNCTION_PORT;
use crate::virtual_function::FUNCTION_PORTS;
use crate::virtual_function::FUNCTION_STATS;
use crate::virtual_function::FUNCTION_VLANS;
use crate::virtual_function::FUNCTIONS;
use netlink_packet_route::Nest;
use netlink_packet_route::framing::AttributeSet;
use netlink_packet_route::link::InfoForm;

/// The rows of a list.
pub fn rows_of(nest: Nest) -> Rows {
    match nest.told_set() {
        AttributeSet::Link => LINK,
        AttributeSet::LinkInfo => LINK_INFO,
        AttributeSet::LinkXdp => XDP,
        AttributeSet::Prop => PROPERTIES,
        AttributeSet::LinkProtocolDownReason => REASONS,
        AttributeSet::AfSpecUnspec => AF_SPEC,
        AttributeSet::AfSpecInet => AF_SPEC_INET,
        AttributeSet::AfSpecInet6 => AF_SPEC_INET6,
        AttributeSet::AfSpecBridge => AF_SPEC_BRIDGE,
        AttributeSet::BridgeVlanTunnelInfo => VLAN_TUNNEL,
        AttributeSet::BridgeMst => TREES,
        AttributeSet::BridgeMstEntry => TREE,
        AttributeSet::InfoBridge => BRIDGE,
        AttributeSet::InfoBridgePort => BRIDGE_PORT,
        AttributeSet::InfoVlan => VLAN,
        AttributeSet::VlanQosMapping => VLAN_QOS,
        AttributeSet::InfoVrf => VRF,
        AttributeSet::InfoVeth => VETH,
        AttributeSet::Peer => PEER,
        AttributeSet::InfoBond => BOND,
        AttributeSet::BondAdInfo => BOND_AD_INFO,
        AttributeSet::InfoBondPort => BOND_PORT,
        AttributeSet::InfoMacVlan => MAC_VLAN,
        AttributeSet::MacVlanAddress => MAC_VLAN_SOURCES,
        AttributeSet::InfoIpVlan => IP_VLAN,
        AttributeSet::InfoNetkit => NETKIT,
        AttributeSet::InfoTun => TUN,
        AttributeSet::InfoVxlan => VXLAN,
        AttributeSet::InfoGeneve => GENEVE,
        AttributeSet::InfoGre => GRE,
        AttributeSet::InfoGre6 => GRE6,
        AttributeSet::InfoIpTunnel if is_over_6(nest) => IP6_TUNNEL,
        AttributeSet::InfoIpTunnel => IP_TUNNEL,
        AttributeSet::InfoVti => VTI,
        AttributeSet::InfoXfrm => XFRM,
        AttributeSet::InfoHsr => HSR,
        AttributeSet::InfoIpoib => IPOIB,
        AttributeSet::InfoMacSec => MAC_SEC,
        AttributeSet::InfoGtp => GTP,
        AttributeSet::InfoOvpn => OVPN,
        AttributeSet::AfSpecMctp => AF_SPEC_MCTP,
        AttributeSet::LinkDpllPin => PIN,
        AttributeSet::LinkVfInfo => FUNCTIONS,
        AttributeSet::VfInfo => FUNCTION,
        AttributeSet::VfStats => FUNCTION_STATS,
        AttributeSet::VfVlan => FUNCTION_VLANS,
        AttributeSet::LinkVfPort => FUNCTION_PORTS,
        AttributeSet::VfPort => FUNCTION_PORT,
        AttributeSet::Stats => STATISTICS,
        AttributeSet::LinkXstats => LINK_XSTATS,
        AttributeSet::BridgeXstats => BRIDGE_XSTATS,
        AttributeSet::BondXstats => BOND_XSTATS,
        AttributeSet::BondAdStat => BOND_AD_STATS,
        AttributeSet::OffloadXstats => OFFLOAD_XSTATS,
        AttributeSet::OffloadHwInfo => OFFLOAD_INFO,
        AttributeSet::OffloadHwState => OFFLOAD_STATE,
        AttributeSet::StatsAfSpec => AF_STATS,
        AttributeSet::MplsStats => MPLS_STATS,
        AttributeSet::Route => ROUTE,
        AttributeSet::Rule => RULE,
        AttributeSet::Address => ADDRESS,
        AttributeSet::Neighbour => NEIGHBOUR,
        AttributeSet::NeighbourFdb => FORWARDING,
        AttributeSet::NeighbourTable => NEIGHBOUR_TABLE,
        AttributeSet::Nsid => NSID,
        AttributeSet::Netconf => NETCONF,
        AttributeSet::AddressLabel => ADDRESS_LABEL,
        AttributeSet::Prefix => PREFIX,
        AttributeSet::NextHop => NEXT_HOP,
        AttributeSet::Tc => TRAFFIC,
        AttributeSet::TcActionMessage => ACTIONS,
        AttributeSet::TcStats2 => STATS,
        AttributeSet::TcStab => STAB,
        AttributeSet::TcQdiscFqCodel => FQ_CODEL,
        AttributeSet::TcFilterU32 => U32,
        AttributeSet::TcFilterMatchAll => MATCH_ALL,
        AttributeSet::TcFilterFlower => FLOWER,
        AttributeSet::TcFilterFlowerMpls => FLOWER_MPLS,
        AttributeSet::TcFilterFlowerMplsLse => FLOWER_MPLS_LSE,
        AttributeSet::TcAction => ACTION,
        AttributeSet::TcActionMirror => MIRROR,
        AttributeSet::TcActionNat => NAT,
        AttributeSet::TcActionTunnelKey => TUNNEL_KEY,
        AttributeSet::TcQdiscHtb => HTB,
        AttributeSet::TcQdiscTbf => TBF,
        AttributeSet::TcQdiscRed => RED,
        AttributeSet::TcQdiscFq => FQ,
        AttributeSet::TcQdiscNetem => NETEM,
        AttributeSet::TcNetemLoss => NETEM_LOSS,
        AttributeSet::TcFilterFw => FW,
        AttributeSet::TcFilterBpf => BPF,
        AttributeSet::TcActionGact => GACT,
        AttributeSet::TcActionPolice => POLICE,
        AttributeSet::TcActionVlan => ACTION_VLAN,
        AttributeSet::TcActionSkbedit => SKBEDIT,
        AttributeSet::TcActionCsum => CSUM,
        AttributeSet::TcActionCt => CT,
        AttributeSet::TcActionSample => SAMPLE,
        AttributeSet::TcActionBpf => ACTION_BPF,
        AttributeSet::TcQdiscCake => CAKE,
        AttributeSet::TcCakeStat => CAKE_STATS,
        AttributeSet::TcCakeTinStat => CAKE_TIN,
        AttributeSet::TcQdiscMqprio => MQPRIO,
        AttributeSet::TcMqprioEntry => MQPRIO_ENTRY,
        AttributeSet::TcFilterBasic => BASIC,
        AttributeSet::TcEmatchTree => MATCHES,
        AttributeSet::TcFlowerCfm => FLOWER_CFM,
        AttributeSet::TcEnc => ENC,
        AttributeSet::TcEncGeneve => ENC_GENEVE,
        AttributeSet::TcEncVxlan => ENC_VXLAN,
        AttributeSet::TcEncErspan => ENC_ERSPAN,
        AttributeSet::TcEncGtp => ENC_GTP,
        AttributeSet::TcEncPfcp => ENC_PFCP,
        AttributeSet::TcActionPedit => PEDIT,
        AttributeSet::TcPeditKeysEx => PEDIT_KEYS,
        AttributeSet::TcPeditKeyEx => PEDIT_KEY,
        AttributeSet::NextHopResGroup => RESILIENT,
        AttributeSet::NextHopResBucket => BUCKET,
        AttributeSet::Metric => METRICS,
        AttributeSet::Mpls => MPLS,
        AttributeSet::Ip => IP,
        AttributeSet::Ip6 => IP6,
        AttributeSet::Xfrm => XFRM_ENCAP,
        AttributeSet::Seg6 => SEG6,
        AttributeSet::Seg6Local => SEG6_LOCAL,
        AttributeSet::Rpl => RPL,
        AttributeSet::Ioam6 => IOAM6,
        AttributeSet::Opt => OPTIONS,
        AttributeSet::Vxlan => VXLAN_OPTIONS,
        AttributeSet::Erspan => ERSPAN_OPTIONS,
        // Some stand in the objects of what holds them, by rows beside its own; the others have none.
        AttributeSet::BridgeQuerierState
        | AttributeSet::NeighbourTableParameter
        | AttributeSet::NextHopGroupStats
        | AttributeSet::NextHopGroupStatsEntry
        | AttributeSet::TcQdiscIngress
        | AttributeSet::TcActions
        | AttributeSet::TcCakeTins
        | AttributeSet::TcEmatches
        | AttributeSet::Geneve
        | AttributeSet::Encap
        | AttributeSet::Value => &[],
    }
}

/// Whether the data of a tunnel are those of one over version 6.
pub fn is_over_6(nest: Nest) -> bool {
    matches!(nest.context.link, InfoForm::Ip6Tnl)
}

/// The row of a number in a list.
pub fn row_in(list: List<'_>, number: u16) -> Option<&'static Row> {
    match row_of_traffic(list, number) {
        Some(row) => Some(row),
        None => rows_of(list.nest).iter().find(|row| row.number == number),
    }
}
