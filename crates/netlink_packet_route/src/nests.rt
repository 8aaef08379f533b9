//! Lists of attributes of any set, gone through value by value, and into the lists that stand in
//! values. Nothing takes memory.

ghost use Rattle.std.specs.Prelude.{◌≡◌, false, IfOk, IfErr, IfSome, IsNone};
ghost use Rattle.{
  npr_base.specs.{Framing.{number_of}, Value.{shown}, Values.{Seen, Unseen}},
  netlink_packet_route.specs.{
    Nests.{FromBytes, IsInside, OfNextHop, holds_list, listed, nest_in, reading_of, told_set},
  },
};

use crate::context::Context;
use crate::context::encap_set;
use crate::context::listed;
use npr_address::AddressAttribute;
use npr_address::AddressLabelAttribute;
use npr_address::PrefixAttribute;
use npr_base::At;
use npr_base::Attribute;
use npr_base::AttributeSet;
use npr_base::DecodeError;
use npr_base::Form;
use npr_base::Looks;
use npr_base::NlaBuffer;
use npr_base::Value;
use npr_base::read_form;
use npr_encapsulation::RouteErspanOpt;
use npr_encapsulation::RouteLwEnCapType;
use npr_encapsulation::RouteLwTunnelEncap;
use npr_encapsulation::RouteLwTunnelOpt;
use npr_encapsulation::RouteVxlanOpt;
use npr_link::AfSpecBridge;
use npr_link::AfSpecInet;
use npr_link::AfSpecInet6;
use npr_link::AfSpecMctp;
use npr_link::AfSpecUnspec;
use npr_link::BondAdInfo;
use npr_link::BridgeMst;
use npr_link::BridgeMstEntry;
use npr_link::BridgeQuerierState;
use npr_link::BridgeVlanTunnelInfo;
use npr_link::InfoBond;
use npr_link::InfoBondPort;
use npr_link::InfoBridge;
use npr_link::InfoBridgePort;
use npr_link::InfoGeneve;
use npr_link::InfoGre;
use npr_link::InfoGre6;
use npr_link::InfoGtp;
use npr_link::InfoHsr;
use npr_link::InfoIpTunnel;
use npr_link::InfoIpVlan;
use npr_link::InfoIpoib;
use npr_link::InfoMacSec;
use npr_link::InfoMacVlan;
use npr_link::InfoNetkit;
use npr_link::InfoOvpn;
use npr_link::InfoTun;
use npr_link::InfoVeth;
use npr_link::InfoVlan;
use npr_link::InfoVrf;
use npr_link::InfoVti;
use npr_link::InfoVxlan;
use npr_link::InfoXfrm;
use npr_link::LinkAttribute;
use npr_link::LinkDpllPin;
use npr_link::LinkInfo;
use npr_link::LinkProtocolDownReason;
use npr_link::LinkVfInfo;
use npr_link::LinkVfPort;
use npr_link::LinkXdp;
use npr_link::MacVlanAddress;
use npr_link::PeerAttribute;
use npr_link::Prop;
use npr_link::VfInfo;
use npr_link::VfPort;
use npr_link::VfStats;
use npr_link::VfVlan;
use npr_link::VlanQosMapping;
use npr_namespace::NetconfAttribute;
use npr_namespace::NsidAttribute;
use npr_neighbour::NeighbourAttribute;
use npr_neighbour::NeighbourFdbAttribute;
use npr_neighbour::NeighbourTableAttribute;
use npr_neighbour::NeighbourTableParameter;
use npr_nexthop::NextHopAttribute;
use npr_nexthop::NextHopGroupStats;
use npr_nexthop::NextHopGroupStatsEntry;
use npr_nexthop::NextHopResBucket;
use npr_nexthop::NextHopResGroup;
use npr_route::RouteAttribute;
use npr_route::RouteMetric;
use npr_route::governing_type;
use npr_rule::RuleAttribute;
use npr_stats::BondAdStat;
use npr_stats::BondXstats;
use npr_stats::BridgeXstats;
use npr_stats::LinkXstats;
use npr_stats::MplsStats;
use npr_stats::OffloadHwInfo;
use npr_stats::OffloadHwState;
use npr_stats::OffloadXstats;
use npr_stats::StatsAfSpec;
use npr_stats::StatsAttribute;
use npr_tc::TcActionMessageAttribute;
use npr_tc::TcAttribute;
use npr_tc_actions::TcAction;
use npr_tc_actions::TcActionAttribute;
use npr_tc_actions::TcActionBpfOption;
use npr_tc_actions::TcActionCsumOption;
use npr_tc_actions::TcActionCtOption;
use npr_tc_actions::TcActionGactOption;
use npr_tc_actions::TcActionMirrorOption;
use npr_tc_actions::TcActionNatOption;
use npr_tc_actions::TcActionPeditOption;
use npr_tc_actions::TcActionPoliceOption;
use npr_tc_actions::TcActionSampleOption;
use npr_tc_actions::TcActionSkbeditOption;
use npr_tc_actions::TcActionTunnelKeyOption;
use npr_tc_actions::TcActionVlanOption;
use npr_tc_actions::TcEncErspan;
use npr_tc_actions::TcEncGeneve;
use npr_tc_actions::TcEncGtp;
use npr_tc_actions::TcEncOption;
use npr_tc_actions::TcEncPfcp;
use npr_tc_actions::TcEncVxlan;
use npr_tc_actions::TcPeditKeyEx;
use npr_tc_actions::TcPeditKeysEx;
use npr_tc_filters::TcEmatch;
use npr_tc_filters::TcEmatchTree;
use npr_tc_filters::TcFilterBasicOption;
use npr_tc_filters::TcFilterBpfOption;
use npr_tc_filters::TcFilterFlowerMplsLseOption;
use npr_tc_filters::TcFilterFlowerMplsOption;
use npr_tc_filters::TcFilterFlowerOption;
use npr_tc_filters::TcFilterFwOption;
use npr_tc_filters::TcFilterMatchAllOption;
use npr_tc_filters::TcFilterU32Option;
use npr_tc_filters::TcFlowerCfmOption;
use npr_tc_qdiscs::TcMqprioEntry;
use npr_tc_qdiscs::TcNetemLoss;
use npr_tc_qdiscs::TcQdiscCakeOption;
use npr_tc_qdiscs::TcQdiscFqCodelOption;
use npr_tc_qdiscs::TcQdiscFqOption;
use npr_tc_qdiscs::TcQdiscHtbOption;
use npr_tc_qdiscs::TcQdiscIngressOption;
use npr_tc_qdiscs::TcQdiscMqprioOption;
use npr_tc_qdiscs::TcQdiscNetemOption;
use npr_tc_qdiscs::TcQdiscRedOption;
use npr_tc_qdiscs::TcQdiscTbfOption;
use npr_tc_qdiscs::TcStab;
use npr_tc_values::TcCakeStat;
use npr_tc_values::TcCakeTin;
use npr_tc_values::TcCakeTinStat;
use npr_tc_values::TcStats2;

/// What names a list of attributes: their set, and what their numbers rest on there.
#[derive(Debug, Clone, Copy, PartialEq, Eq)]
pub struct Nest {
    /// The set.
    pub set: AttributeSet,
    /// The context.
    pub context: Context,
}

impl Nest {
    /// What names a list of this set under a context, of which it has what the set rests on. A set without
    /// a list of its own, as that of a type of encapsulation, stands for what the encapsulation holds.
    pub fn new(set: AttributeSet, context: Context) -> Nest
        ensures { result ≡ nest_in (listed set) context }
    {
        let set = listed(set);
        Nest {
            set,
            context: context.for_set(set),
        }
    }

    /// The set that refusals name: of an encapsulation that of its type, or `Value` where it has none.
    pub fn told_set(self) -> AttributeSet
        ensures { result ≡ told_set self.set self.context }
    {
        match self.set {
            AttributeSet::Encap => encap_set(self.context.encap_type),
            _ => self.set,
        }
    }

    /// By a number: the place that refusals tell, and how the value is read without memory. A set without
    /// a list of its own, as that of a type of encapsulation, has bytes alone.
    pub fn form(self, number: u16) -> (At, Form)
        ensures { result ≡ (reading_of self).reading.seeing.form_at number }
    {
        let context = self.context;
        match self.set {
            AttributeSet::Address => AddressAttribute::form((), number),
            AttributeSet::Rule => RuleAttribute::form((), number),
            AttributeSet::Route => RouteAttribute::form(
                (context.family, context.route_type, context.encap_type),
                number,
            ),
            AttributeSet::Neighbour => NeighbourAttribute::form(context.family, number),
            AttributeSet::Link => LinkAttribute::form(context.family, number),
            AttributeSet::Metric => RouteMetric::form((), number),
            AttributeSet::Encap => RouteLwTunnelEncap::form(context.encap_type, number),
            AttributeSet::Opt => RouteLwTunnelOpt::form((), number),
            AttributeSet::Vxlan => RouteVxlanOpt::form((), number),
            AttributeSet::Erspan => RouteErspanOpt::form((), number),
            AttributeSet::LinkInfo => LinkInfo::form((context.link, context.port), number),
            AttributeSet::LinkXdp => LinkXdp::form((), number),
            AttributeSet::Prop => Prop::form((), number),
            AttributeSet::LinkProtocolDownReason => LinkProtocolDownReason::form((), number),
            AttributeSet::AfSpecUnspec => AfSpecUnspec::form((), number),
            AttributeSet::AfSpecInet => AfSpecInet::form((), number),
            AttributeSet::AfSpecInet6 => AfSpecInet6::form((), number),
            AttributeSet::AfSpecBridge => AfSpecBridge::form((), number),
            AttributeSet::BridgeVlanTunnelInfo => BridgeVlanTunnelInfo::form((), number),
            AttributeSet::BridgeMst => BridgeMst::form((), number),
            AttributeSet::BridgeMstEntry => BridgeMstEntry::form((), number),
            AttributeSet::InfoBridge => InfoBridge::form((), number),
            AttributeSet::BridgeQuerierState => BridgeQuerierState::form((), number),
            AttributeSet::InfoBridgePort => InfoBridgePort::form((), number),
            AttributeSet::InfoVlan => InfoVlan::form((), number),
            AttributeSet::VlanQosMapping => VlanQosMapping::form((), number),
            AttributeSet::InfoVrf => InfoVrf::form((), number),
            AttributeSet::InfoVeth => InfoVeth::form((), number),
            AttributeSet::Peer => PeerAttribute::form((), number),
            AttributeSet::InfoBond => InfoBond::form((), number),
            AttributeSet::BondAdInfo => BondAdInfo::form((), number),
            AttributeSet::InfoBondPort => InfoBondPort::form((), number),
            AttributeSet::InfoMacVlan => InfoMacVlan::form((), number),
            AttributeSet::MacVlanAddress => MacVlanAddress::form((), number),
            AttributeSet::InfoIpVlan => InfoIpVlan::form((), number),
            AttributeSet::InfoNetkit => InfoNetkit::form((), number),
            AttributeSet::InfoTun => InfoTun::form((), number),
            AttributeSet::InfoVxlan => InfoVxlan::form((), number),
            AttributeSet::InfoGeneve => InfoGeneve::form((), number),
            AttributeSet::InfoGre => InfoGre::form((), number),
            AttributeSet::InfoGre6 => InfoGre6::form((), number),
            AttributeSet::InfoIpTunnel => InfoIpTunnel::form(context.link, number),
            AttributeSet::InfoVti => InfoVti::form((), number),
            AttributeSet::InfoXfrm => InfoXfrm::form((), number),
            AttributeSet::NextHop => NextHopAttribute::form(
                (context.family, context.encap_type),
                number,
            ),
            AttributeSet::NextHopResGroup => NextHopResGroup::form((), number),
            AttributeSet::NextHopResBucket => NextHopResBucket::form((), number),
            AttributeSet::NextHopGroupStats => NextHopGroupStats::form((), number),
            AttributeSet::NextHopGroupStatsEntry => NextHopGroupStatsEntry::form((), number),
            AttributeSet::Nsid => NsidAttribute::form((), number),
            AttributeSet::Netconf => NetconfAttribute::form((), number),
            AttributeSet::AddressLabel => AddressLabelAttribute::form((), number),
            AttributeSet::NeighbourTable => NeighbourTableAttribute::form((), number),
            AttributeSet::NeighbourTableParameter => NeighbourTableParameter::form((), number),
            AttributeSet::Prefix => PrefixAttribute::form((), number),
            AttributeSet::Tc => TcAttribute::form(context.tc, number),
            AttributeSet::TcStats2 => TcStats2::form(context.tc, number),
            AttributeSet::TcStab => TcStab::form((), number),
            AttributeSet::TcQdiscIngress => TcQdiscIngressOption::form((), number),
            AttributeSet::TcQdiscFqCodel => TcQdiscFqCodelOption::form((), number),
            AttributeSet::TcFilterU32 => TcFilterU32Option::form((), number),
            AttributeSet::TcFilterMatchAll => TcFilterMatchAllOption::form((), number),
            AttributeSet::TcFilterFlower => TcFilterFlowerOption::form((), number),
            AttributeSet::TcFilterFlowerMpls => TcFilterFlowerMplsOption::form((), number),
            AttributeSet::TcFilterFlowerMplsLse => TcFilterFlowerMplsLseOption::form((), number),
            AttributeSet::TcActionMessage => TcActionMessageAttribute::form((), number),
            AttributeSet::TcActions => TcAction::form((), number),
            AttributeSet::TcAction => TcActionAttribute::form(context.tc_action, number),
            AttributeSet::TcActionMirror => TcActionMirrorOption::form((), number),
            AttributeSet::TcActionNat => TcActionNatOption::form((), number),
            AttributeSet::TcActionTunnelKey => TcActionTunnelKeyOption::form((), number),
            AttributeSet::TcQdiscHtb => TcQdiscHtbOption::form((), number),
            AttributeSet::TcQdiscTbf => TcQdiscTbfOption::form((), number),
            AttributeSet::TcQdiscRed => TcQdiscRedOption::form((), number),
            AttributeSet::TcQdiscFq => TcQdiscFqOption::form((), number),
            AttributeSet::TcQdiscNetem => TcQdiscNetemOption::form((), number),
            AttributeSet::TcNetemLoss => TcNetemLoss::form((), number),
            AttributeSet::TcFilterFw => TcFilterFwOption::form((), number),
            AttributeSet::TcFilterBpf => TcFilterBpfOption::form((), number),
            AttributeSet::TcActionGact => TcActionGactOption::form((), number),
            AttributeSet::TcActionPolice => TcActionPoliceOption::form((), number),
            AttributeSet::TcActionVlan => TcActionVlanOption::form((), number),
            AttributeSet::TcActionSkbedit => TcActionSkbeditOption::form((), number),
            AttributeSet::TcActionCsum => TcActionCsumOption::form((), number),
            AttributeSet::TcActionCt => TcActionCtOption::form((), number),
            AttributeSet::TcActionSample => TcActionSampleOption::form((), number),
            AttributeSet::TcActionBpf => TcActionBpfOption::form((), number),
            AttributeSet::NeighbourFdb => NeighbourFdbAttribute::form((), number),
            AttributeSet::AfSpecMctp => AfSpecMctp::form((), number),
            AttributeSet::LinkDpllPin => LinkDpllPin::form((), number),
            AttributeSet::InfoHsr => InfoHsr::form((), number),
            AttributeSet::InfoIpoib => InfoIpoib::form((), number),
            AttributeSet::InfoMacSec => InfoMacSec::form((), number),
            AttributeSet::InfoGtp => InfoGtp::form((), number),
            AttributeSet::InfoOvpn => InfoOvpn::form((), number),
            AttributeSet::LinkVfInfo => LinkVfInfo::form((), number),
            AttributeSet::VfInfo => VfInfo::form((), number),
            AttributeSet::VfStats => VfStats::form((), number),
            AttributeSet::VfVlan => VfVlan::form((), number),
            AttributeSet::LinkVfPort => LinkVfPort::form((), number),
            AttributeSet::VfPort => VfPort::form((), number),
            AttributeSet::Stats => StatsAttribute::form((), number),
            AttributeSet::LinkXstats => LinkXstats::form((), number),
            AttributeSet::BridgeXstats => BridgeXstats::form((), number),
            AttributeSet::BondXstats => BondXstats::form((), number),
            AttributeSet::BondAdStat => BondAdStat::form((), number),
            AttributeSet::OffloadXstats => OffloadXstats::form((), number),
            AttributeSet::OffloadHwInfo => OffloadHwInfo::form((), number),
            AttributeSet::OffloadHwState => OffloadHwState::form((), number),
            AttributeSet::StatsAfSpec => StatsAfSpec::form((), number),
            AttributeSet::MplsStats => MplsStats::form((), number),
            AttributeSet::TcQdiscCake => TcQdiscCakeOption::form((), number),
            AttributeSet::TcCakeStat => TcCakeStat::form((), number),
            AttributeSet::TcCakeTinStat => TcCakeTinStat::form((), number),
            AttributeSet::TcQdiscMqprio => TcQdiscMqprioOption::form((), number),
            AttributeSet::TcMqprioEntry => TcMqprioEntry::form((), number),
            AttributeSet::TcFilterBasic => TcFilterBasicOption::form((), number),
            AttributeSet::TcEmatchTree => TcEmatchTree::form((), number),
            AttributeSet::TcFlowerCfm => TcFlowerCfmOption::form((), number),
            AttributeSet::TcEnc => TcEncOption::form((), number),
            AttributeSet::TcEncGeneve => TcEncGeneve::form((), number),
            AttributeSet::TcEncVxlan => TcEncVxlan::form((), number),
            AttributeSet::TcEncErspan => TcEncErspan::form((), number),
            AttributeSet::TcEncGtp => TcEncGtp::form((), number),
            AttributeSet::TcEncPfcp => TcEncPfcp::form((), number),
            AttributeSet::TcActionPedit => TcActionPeditOption::form((), number),
            AttributeSet::TcPeditKeysEx => TcPeditKeysEx::form((), number),
            AttributeSet::TcPeditKeyEx => TcPeditKeyEx::form((), number),
            AttributeSet::TcCakeTins => TcCakeTin::form((), number),
            AttributeSet::TcEmatches => TcEmatch::form((), number),
            _ => RouteLwTunnelEncap::form(RouteLwEnCapType::None, number),
        }
    }

    /// The place of an attribute of the list, and its value where it stands. It takes no memory.
    ///
    /// # Errors
    /// What is wrong with the value.
    pub fn value<'a>(self, item: &NlaBuffer<'a>) -> Result<(At, Value<'a>), DecodeError>
        ensures place { IfOk result (λ v. v.0 ≡ ((reading_of self).reading.seeing.form_at (number_of (item.now).kind)).0) }
        ensures ok { IfOk result (λ v. Seen (reading_of self).reading item.now (shown v.1)) }
        ensures refused { IfErr result (λ e. Unseen (reading_of self).reading item.now e) }
    {
        let (at, form) = self.form(item.kind());
        match read_form(form, item.value(), at) {
            Ok(value) => Ok((at, value)),
            Err(refusal) => Err(refusal),
        }
    }

    /// The list in a value of this number: what names it, and its bytes; none where the value holds no
    /// list of attributes. Next hops, Geneve options and structures have readers of their own.
    pub fn inside(self, number: u16, value: &[u8]) -> Option<(Nest, &[u8])>
        ensures inside { IfSome result (λ s. IsInside self number value.now s.0 s.1.now) }
        ensures none { IsNone result → holds_list self number value.now ≡ false }
        ensures numbers { IfSome result (λ s. FromBytes self → FromBytes s.0) }
    {
        let (_, form) = self.form(number);
        match form {
            Form::List(set, front) => {
                if value.len() < front {
                    return None;
                }
                let outer = self.context.within(self.set);
                Some((outer.inner(set, value), &value[front..]))
            }
            _ => None,
        }
    }

    /// What names the attributes of a next hop in this list: its encapsulation is governed by the first
    /// `RTA_ENCAP_TYPE` among them, or else from outside.
    pub fn of_next_hop(self, attributes: &[u8]) -> Nest
        ensures nest { OfNextHop self attributes.now result }
        ensures numbers { FromBytes self → FromBytes result }
    {
        match self.set {
            AttributeSet::Route => {
                let outer = self.context.encap_type;
                let encap_type = governing_type(attributes, outer, &mut Looks::new());
                let context = Context {
                    encap_type,
                    ..self.context
                };
                Nest {
                    set: AttributeSet::Route,
                    context,
                }
            }
            _ => self,
        }
    }
}
