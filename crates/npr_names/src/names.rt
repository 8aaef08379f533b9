//! The names of attributes, as the kernel's headers have them.

ghost use Rattle.std.specs.Prelude.{◌≡◌, ◌≤◌, map, length, IfSome, IfNone};
ghost use Rattle.npr_names.specs.Names.{name_at, names_of};

use crate::{link, link_function, link_kind, route, small, statistics, tc, tc_action, tc_kind};
use npr_base::AttributeSet;

/// The names of a set, by their numbers.
#[tactic(auto, unfolding(crate::specs::Names::names_of))]
fn names_of(set: AttributeSet) -> &'static [&'static str]
    ensures { map (λ name. name.now) result.now ≡ names_of set }
{
    match set {
        AttributeSet::Value
        | AttributeSet::Encap
        | AttributeSet::TcQdiscIngress
        | AttributeSet::TcActions
        | AttributeSet::TcCakeTins
        | AttributeSet::TcEmatches => &[],
        AttributeSet::Address => route::ADDRESS,
        AttributeSet::Rule => route::RULE,
        AttributeSet::Route => route::ROUTE,
        AttributeSet::Neighbour => route::NEIGHBOUR,
        AttributeSet::Metric => route::METRIC,
        AttributeSet::Mpls => route::MPLS,
        AttributeSet::Ip => route::IP,
        AttributeSet::Ip6 => route::IP6,
        AttributeSet::Xfrm => route::XFRM,
        AttributeSet::Opt => route::OPT,
        AttributeSet::Geneve => route::GENEVE,
        AttributeSet::Vxlan => route::VXLAN,
        AttributeSet::Erspan => route::ERSPAN,
        AttributeSet::Seg6 => route::SEG6,
        AttributeSet::Seg6Local => route::SEG6_LOCAL,
        AttributeSet::Rpl => route::RPL,
        AttributeSet::Ioam6 => route::IOAM6,
        AttributeSet::Link | AttributeSet::Prop | AttributeSet::Peer => link::LINK,
        AttributeSet::LinkInfo => link::INFO,
        AttributeSet::LinkXdp => link::XDP,
        AttributeSet::LinkProtocolDownReason => link::PROTOCOL_DOWN,
        AttributeSet::AfSpecUnspec | AttributeSet::StatsAfSpec => link::AF_SPEC,
        AttributeSet::AfSpecInet => link::AF_SPEC_INET,
        AttributeSet::AfSpecInet6 => link::AF_SPEC_INET6,
        AttributeSet::InfoBridge => link::BRIDGE,
        AttributeSet::BridgeQuerierState => link::QUERIER,
        AttributeSet::InfoBridgePort => link::BRIDGE_PORT,
        AttributeSet::InfoVlan => link::VLAN,
        AttributeSet::VlanQosMapping => link::VLAN_QOS,
        AttributeSet::InfoVrf => link::VRF,
        AttributeSet::InfoVeth => link::VETH,
        AttributeSet::AfSpecBridge => link_kind::AF_SPEC_BRIDGE,
        AttributeSet::BridgeVlanTunnelInfo => link_kind::VLAN_TUNNEL,
        AttributeSet::BridgeMst => link_kind::MST,
        AttributeSet::BridgeMstEntry => link_kind::MST_ENTRY,
        AttributeSet::InfoBond => link_kind::BOND,
        AttributeSet::BondAdInfo => link_kind::BOND_AD_INFO,
        AttributeSet::InfoBondPort => link_kind::BOND_PORT,
        AttributeSet::InfoIpVlan => link_kind::IP_VLAN,
        AttributeSet::InfoNetkit => link_kind::NETKIT,
        AttributeSet::InfoTun => link_kind::TUN,
        AttributeSet::InfoVxlan => link_kind::VXLAN,
        AttributeSet::InfoGeneve => link_kind::GENEVE,
        AttributeSet::InfoIpTunnel => link_kind::IP_TUNNEL,
        AttributeSet::InfoVti => link_kind::VTI,
        AttributeSet::InfoXfrm => link_kind::XFRM,
        AttributeSet::InfoMacVlan | AttributeSet::MacVlanAddress => link_kind::MAC_VLAN,
        AttributeSet::InfoGre | AttributeSet::InfoGre6 => link_kind::GRE,
        AttributeSet::NextHop => small::NEXT_HOP,
        AttributeSet::NextHopResGroup => small::NEXT_HOP_RES_GROUP,
        AttributeSet::NextHopResBucket => small::NEXT_HOP_RES_BUCKET,
        AttributeSet::NextHopGroupStats => small::NEXT_HOP_GROUP_STATS,
        AttributeSet::NextHopGroupStatsEntry => small::NEXT_HOP_GROUP_STATS_ENTRY,
        AttributeSet::Nsid => small::NSID,
        AttributeSet::Prefix => small::PREFIX,
        AttributeSet::Netconf => small::NETCONF,
        AttributeSet::NeighbourTable => small::NEIGHBOUR_TABLE,
        AttributeSet::NeighbourTableParameter => small::NEIGHBOUR_TABLE_PARAMETER,
        AttributeSet::AddressLabel => small::ADDRESS_LABEL,
        AttributeSet::Tc => tc::TC,
        AttributeSet::TcStats2 => tc::STATS2,
        AttributeSet::TcStab => tc::STAB,
        AttributeSet::TcQdiscFqCodel => tc::FQ_CODEL,
        AttributeSet::TcFilterU32 => tc::U32,
        AttributeSet::TcFilterMatchAll => tc::MATCH_ALL,
        AttributeSet::TcFilterFlower => tc::FLOWER,
        AttributeSet::TcFilterFlowerMpls => tc::FLOWER_MPLS,
        AttributeSet::TcFilterFlowerMplsLse => tc::FLOWER_MPLS_LSE,
        AttributeSet::TcActionMessage => tc::ACTION_MESSAGE,
        AttributeSet::TcAction => tc::ACTION,
        AttributeSet::TcActionMirror => tc_action::MIRROR,
        AttributeSet::TcActionNat => tc_action::NAT,
        AttributeSet::TcActionTunnelKey => tc_action::TUNNEL_KEY,
        AttributeSet::TcQdiscHtb => tc_kind::HTB,
        AttributeSet::TcQdiscTbf => tc_kind::TBF,
        AttributeSet::TcQdiscRed => tc_kind::RED,
        AttributeSet::TcQdiscFq => tc_kind::FQ,
        AttributeSet::TcQdiscNetem => tc_kind::NETEM,
        AttributeSet::TcNetemLoss => tc_kind::NETEM_LOSS,
        AttributeSet::TcFilterFw => tc_kind::FW,
        AttributeSet::TcFilterBpf => tc_kind::BPF,
        AttributeSet::TcActionGact => tc_action::GACT,
        AttributeSet::TcActionPolice => tc_action::POLICE,
        AttributeSet::TcActionVlan => tc_action::VLAN,
        AttributeSet::TcActionSkbedit => tc_action::SKBEDIT,
        AttributeSet::TcActionCsum => tc_action::CSUM,
        AttributeSet::TcActionCt => tc_action::CT,
        AttributeSet::TcActionSample => tc_action::SAMPLE,
        AttributeSet::TcActionBpf => tc_action::BPF,
        AttributeSet::TcQdiscCake => tc_kind::CAKE,
        AttributeSet::TcCakeStat => tc_kind::CAKE_STATS,
        AttributeSet::TcCakeTinStat => tc_kind::CAKE_TIN_STATS,
        AttributeSet::TcQdiscMqprio => tc_kind::MQPRIO,
        AttributeSet::TcMqprioEntry => tc_kind::MQPRIO_ENTRY,
        AttributeSet::TcFilterBasic => tc_kind::BASIC,
        AttributeSet::TcEmatchTree => tc_kind::EMATCH_TREE,
        AttributeSet::TcFlowerCfm => tc::FLOWER_CFM,
        AttributeSet::TcEnc => tc_action::ENC,
        AttributeSet::TcEncGeneve => tc_action::ENC_GENEVE,
        AttributeSet::TcEncVxlan => tc_action::ENC_VXLAN,
        AttributeSet::TcEncErspan => tc_action::ENC_ERSPAN,
        AttributeSet::TcEncGtp => tc_action::ENC_GTP,
        AttributeSet::TcEncPfcp => tc_action::ENC_PFCP,
        AttributeSet::TcActionPedit | AttributeSet::TcPeditKeysEx => tc_action::PEDIT,
        AttributeSet::TcPeditKeyEx => tc_action::PEDIT_KEY_EX,
        AttributeSet::AfSpecMctp => link_function::MCTP,
        AttributeSet::LinkDpllPin => link_function::DPLL_PIN,
        AttributeSet::InfoHsr => link_function::HSR,
        AttributeSet::InfoOvpn => link_function::OVPN,
        AttributeSet::NeighbourFdb => small::NEIGHBOUR_FDB,
        AttributeSet::InfoGtp => link_function::GTP,
        AttributeSet::InfoIpoib => link_function::IPOIB,
        AttributeSet::InfoMacSec => link_function::MAC_SEC,
        AttributeSet::LinkVfInfo => link_function::VF_INFO_LIST,
        AttributeSet::VfInfo => link_function::VF_INFO,
        AttributeSet::VfStats => link_function::VF_STATS,
        AttributeSet::VfVlan => link_function::VF_VLAN,
        AttributeSet::LinkVfPort => link_function::VF_PORTS,
        AttributeSet::VfPort => link_function::VF_PORT,
        AttributeSet::Stats => statistics::STATS,
        AttributeSet::LinkXstats => statistics::LINK_XSTATS,
        AttributeSet::BridgeXstats => statistics::BRIDGE_XSTATS,
        AttributeSet::BondXstats => statistics::BOND_XSTATS,
        AttributeSet::BondAdStat => statistics::BOND_AD_STAT,
        AttributeSet::OffloadXstats | AttributeSet::OffloadHwInfo => statistics::OFFLOAD_XSTATS,
        AttributeSet::OffloadHwState => statistics::OFFLOAD_HW_STATE,
        AttributeSet::MplsStats => statistics::MPLS_STATS,
    }
}

/// What stands at a place of a set's list.
fn listed_name(set: AttributeSet, number: u16) -> Option<&'static str>
    ensures name { IfSome result (λ name. name_at set number ≡ Some name.now) }
    ensures none { IfNone result (name_at set number ≡ None) }
{
    names_of(set).get(usize::from(number)).copied()
}

/// The name of the attribute of this number in a set, as the kernel's headers have it: `IFLA_MTU`. None for a
/// number that they don't name.
pub fn attribute_name(set: AttributeSet, number: u16) -> Option<&'static str>
    ensures name { IfSome result (λ name. name_at set number ≡ Some name.now) }
    ensures none { IfNone result (name_at set number ≡ None) }
    // A name has 47 bytes at most.
    ensures longest { IfSome result (λ name. length name.now ≤ 47) }
{
    listed_name(set, number)
}
