//! What names a list, as two numbers, which C gives back as it got them.

ghost use Rattle.std.specs.Prelude.{◌≡◌, ◌%◌};
ghost use Rattle.npr_c.specs.Nests.{
  context_number,
  context_of,
  encap_part,
  form_number,
  form_of,
  nest_context,
  nest_of,
  nest_set,
  port_form_number,
  port_form_of,
  set_number,
  set_of,
  tc_action_form_number,
  tc_action_form_of,
  tc_form_number,
  tc_form_of,
};

use netlink_packet_route::framing::AttributeSet;
use netlink_packet_route::link::{InfoForm, InfoPortForm};
use netlink_packet_route::route::{RouteLwEnCapType, RouteType};
use netlink_packet_route::tc::{TcActionForm, TcForm};
use netlink_packet_route::{AddressFamily, Context, Nest, numbers};

/// The number of a set of attributes, as refusals tell it.
pub fn set_number(set: AttributeSet) -> u32
    ensures { result ≡ set_number set }
{
    set as u32
}

/// The set of a number, or `Value` where none has it.
pub fn set_of(number: u32) -> AttributeSet
    ensures { result ≡ set_of number }
{
    match number {
        0 => AttributeSet::Value,
        1 => AttributeSet::Address,
        2 => AttributeSet::Rule,
        3 => AttributeSet::Route,
        4 => AttributeSet::Metric,
        5 => AttributeSet::Mpls,
        6 => AttributeSet::Ip,
        7 => AttributeSet::Ip6,
        8 => AttributeSet::Xfrm,
        9 => AttributeSet::Opt,
        10 => AttributeSet::Geneve,
        11 => AttributeSet::Vxlan,
        12 => AttributeSet::Erspan,
        13 => AttributeSet::Seg6,
        14 => AttributeSet::Seg6Local,
        15 => AttributeSet::Rpl,
        16 => AttributeSet::Ioam6,
        17 => AttributeSet::Neighbour,
        18 => AttributeSet::Link,
        19 => AttributeSet::LinkInfo,
        20 => AttributeSet::LinkXdp,
        21 => AttributeSet::Prop,
        22 => AttributeSet::LinkProtocolDownReason,
        23 => AttributeSet::AfSpecUnspec,
        24 => AttributeSet::AfSpecInet,
        25 => AttributeSet::AfSpecInet6,
        26 => AttributeSet::InfoBridge,
        27 => AttributeSet::BridgeQuerierState,
        28 => AttributeSet::InfoBridgePort,
        29 => AttributeSet::InfoVlan,
        30 => AttributeSet::VlanQosMapping,
        31 => AttributeSet::InfoVrf,
        32 => AttributeSet::InfoVeth,
        33 => AttributeSet::Peer,
        34 => AttributeSet::AfSpecBridge,
        35 => AttributeSet::BridgeVlanTunnelInfo,
        36 => AttributeSet::BridgeMst,
        37 => AttributeSet::BridgeMstEntry,
        38 => AttributeSet::InfoBond,
        39 => AttributeSet::BondAdInfo,
        40 => AttributeSet::InfoBondPort,
        41 => AttributeSet::InfoMacVlan,
        42 => AttributeSet::MacVlanAddress,
        43 => AttributeSet::InfoIpVlan,
        44 => AttributeSet::InfoNetkit,
        45 => AttributeSet::InfoTun,
        46 => AttributeSet::InfoVxlan,
        47 => AttributeSet::InfoGeneve,
        48 => AttributeSet::InfoGre,
        49 => AttributeSet::InfoGre6,
        50 => AttributeSet::InfoIpTunnel,
        51 => AttributeSet::InfoVti,
        52 => AttributeSet::InfoXfrm,
        53 => AttributeSet::NextHop,
        54 => AttributeSet::NextHopResGroup,
        55 => AttributeSet::NextHopResBucket,
        56 => AttributeSet::NextHopGroupStats,
        57 => AttributeSet::NextHopGroupStatsEntry,
        58 => AttributeSet::Nsid,
        59 => AttributeSet::Prefix,
        60 => AttributeSet::Netconf,
        61 => AttributeSet::NeighbourTable,
        62 => AttributeSet::NeighbourTableParameter,
        63 => AttributeSet::AddressLabel,
        64 => AttributeSet::Encap,
        65 => AttributeSet::Tc,
        66 => AttributeSet::TcStats2,
        67 => AttributeSet::TcStab,
        68 => AttributeSet::TcQdiscIngress,
        69 => AttributeSet::TcQdiscFqCodel,
        70 => AttributeSet::TcFilterU32,
        71 => AttributeSet::TcFilterMatchAll,
        72 => AttributeSet::TcFilterFlower,
        73 => AttributeSet::TcFilterFlowerMpls,
        74 => AttributeSet::TcFilterFlowerMplsLse,
        75 => AttributeSet::TcActionMessage,
        76 => AttributeSet::TcAction,
        77 => AttributeSet::TcActionMirror,
        78 => AttributeSet::TcActionNat,
        79 => AttributeSet::TcActionTunnelKey,
        80 => AttributeSet::TcActions,
        81 => AttributeSet::TcQdiscHtb,
        82 => AttributeSet::TcQdiscTbf,
        83 => AttributeSet::TcQdiscRed,
        84 => AttributeSet::TcQdiscFq,
        85 => AttributeSet::TcQdiscNetem,
        86 => AttributeSet::TcNetemLoss,
        87 => AttributeSet::TcFilterFw,
        88 => AttributeSet::TcFilterBpf,
        89 => AttributeSet::TcActionGact,
        90 => AttributeSet::TcActionPolice,
        91 => AttributeSet::TcActionVlan,
        92 => AttributeSet::TcActionSkbedit,
        93 => AttributeSet::TcActionCsum,
        94 => AttributeSet::TcActionCt,
        95 => AttributeSet::TcActionSample,
        96 => AttributeSet::TcActionBpf,
        97 => AttributeSet::TcQdiscCake,
        98 => AttributeSet::TcCakeStat,
        99 => AttributeSet::TcCakeTins,
        100 => AttributeSet::TcCakeTinStat,
        101 => AttributeSet::TcQdiscMqprio,
        102 => AttributeSet::TcMqprioEntry,
        103 => AttributeSet::TcFilterBasic,
        104 => AttributeSet::TcEmatchTree,
        105 => AttributeSet::TcEmatches,
        106 => AttributeSet::TcFlowerCfm,
        107 => AttributeSet::TcEnc,
        108 => AttributeSet::TcEncGeneve,
        109 => AttributeSet::TcEncVxlan,
        110 => AttributeSet::TcEncErspan,
        111 => AttributeSet::TcEncGtp,
        112 => AttributeSet::TcEncPfcp,
        113 => AttributeSet::TcActionPedit,
        114 => AttributeSet::TcPeditKeysEx,
        115 => AttributeSet::TcPeditKeyEx,
        116 => AttributeSet::AfSpecMctp,
        117 => AttributeSet::LinkDpllPin,
        118 => AttributeSet::InfoHsr,
        119 => AttributeSet::InfoOvpn,
        120 => AttributeSet::NeighbourFdb,
        121 => AttributeSet::InfoGtp,
        122 => AttributeSet::InfoIpoib,
        123 => AttributeSet::InfoMacSec,
        124 => AttributeSet::LinkVfInfo,
        125 => AttributeSet::VfInfo,
        126 => AttributeSet::VfStats,
        127 => AttributeSet::VfVlan,
        128 => AttributeSet::LinkVfPort,
        129 => AttributeSet::VfPort,
        130 => AttributeSet::Stats,
        131 => AttributeSet::LinkXstats,
        132 => AttributeSet::BridgeXstats,
        133 => AttributeSet::BondXstats,
        134 => AttributeSet::BondAdStat,
        135 => AttributeSet::OffloadXstats,
        136 => AttributeSet::OffloadHwInfo,
        137 => AttributeSet::OffloadHwState,
        138 => AttributeSet::StatsAfSpec,
        139 => AttributeSet::MplsStats,
        _ => AttributeSet::Value,
    }
}

fn form_of(number: u32) -> InfoForm
    ensures { result ≡ form_of number }
{
    match number {
        0 => InfoForm::Kept,
        1 => InfoForm::Bridge,
        2 => InfoForm::Vlan,
        3 => InfoForm::Veth,
        4 => InfoForm::Vrf,
        5 => InfoForm::Tun,
        6 => InfoForm::Vxlan,
        7 => InfoForm::Bond,
        8 => InfoForm::IpVlan,
        9 => InfoForm::IpVtap,
        10 => InfoForm::MacVlan,
        11 => InfoForm::MacVtap,
        12 => InfoForm::GreTap,
        13 => InfoForm::GreTap6,
        14 => InfoForm::IpIp,
        15 => InfoForm::Ip6Tnl,
        16 => InfoForm::SitTun,
        17 => InfoForm::GreTun,
        18 => InfoForm::GreTun6,
        19 => InfoForm::Vti,
        20 => InfoForm::Vti6,
        21 => InfoForm::Xfrm,
        22 => InfoForm::Geneve,
        23 => InfoForm::Netkit,
        24 => InfoForm::Hsr,
        25 => InfoForm::Ipoib,
        26 => InfoForm::MacSec,
        27 => InfoForm::Gtp,
        28 => InfoForm::Ovpn,
        29 => InfoForm::Erspan,
        30 => InfoForm::Erspan6,
        31 => InfoForm::Vxcan,
        _ => InfoForm::Kept,
    }
}

fn port_form_of(number: u32) -> InfoPortForm
    ensures { result ≡ port_form_of number }
{
    match number {
        0 => InfoPortForm::Kept,
        1 => InfoPortForm::Bridge,
        2 => InfoPortForm::Vrf,
        3 => InfoPortForm::Bond,
        _ => InfoPortForm::Kept,
    }
}

fn tc_form_of(number: u32) -> TcForm
    ensures { result ≡ tc_form_of number }
{
    match number {
        0 => TcForm::Kept,
        1 => TcForm::FqCodel,
        2 => TcForm::Ingress,
        3 => TcForm::Clsact,
        4 => TcForm::U32,
        5 => TcForm::Flower,
        6 => TcForm::MatchAll,
        7 => TcForm::Htb,
        8 => TcForm::Tbf,
        9 => TcForm::Red,
        10 => TcForm::Fq,
        11 => TcForm::Netem,
        12 => TcForm::Prio,
        13 => TcForm::Fifo,
        14 => TcForm::Fw,
        15 => TcForm::Bpf,
        16 => TcForm::Cake,
        17 => TcForm::Sfq,
        18 => TcForm::Basic,
        _ => TcForm::Kept,
    }
}

fn tc_action_form_of(number: u32) -> TcActionForm
    ensures { result ≡ tc_action_form_of number }
{
    match number {
        0 => TcActionForm::Kept,
        1 => TcActionForm::Mirror,
        2 => TcActionForm::Nat,
        3 => TcActionForm::TunnelKey,
        4 => TcActionForm::Gact,
        5 => TcActionForm::Police,
        6 => TcActionForm::Vlan,
        7 => TcActionForm::Skbedit,
        8 => TcActionForm::Csum,
        9 => TcActionForm::Ct,
        10 => TcActionForm::Sample,
        11 => TcActionForm::Bpf,
        12 => TcActionForm::Pedit,
        _ => TcActionForm::Kept,
    }
}

/// What the attributes of a set rest on.
fn context_number(set: AttributeSet, context: Context) -> u32
    ensures { result ≡ context_number set context }
{
    match set {
        AttributeSet::Encap => u32::from(numbers::encap_type(context.encap_type)),
        AttributeSet::LinkInfo => context.link as u32 + 256 * (context.port as u32),
        AttributeSet::InfoIpTunnel => context.link as u32,
        AttributeSet::Tc | AttributeSet::TcStats2 => context.tc as u32,
        AttributeSet::TcAction => context.tc_action as u32,
        _ => {
            let family_number = u32::from(numbers::address_family(context.family));
            let type_number = u32::from(numbers::route_type(context.route_type));
            let encap_number = u32::from(numbers::encap_type(context.encap_type));
            family_number + 256 * type_number + 65536 * encap_number
        }
    }
}

/// The number of a list's set.
pub fn nest_set(nest: Nest) -> u32
    ensures { result ≡ nest_set nest }
{
    set_number(nest.told_set())
}

/// What is told of a list besides.
pub fn nest_context(nest: Nest) -> u32
    ensures { result ≡ nest_context nest }
{
    context_number(nest.set, nest.context)
}

/// The type of an encapsulation in it: of a route above its family and type, and else in the lowest bytes.
fn encap_part(set: AttributeSet, context: u32) -> u32
    ensures { result ≡ encap_part set context }
{
    match set {
        AttributeSet::Route | AttributeSet::NextHop => context / 65536,
        _ => context % 65536,
    }
}

fn context_of(set: AttributeSet, context: u32) -> Context
    ensures { result ≡ context_of set context }
{
    Context {
        family: AddressFamily::from((context % 256) as u8),
        route_type: RouteType::from((context / 256 % 256) as u8),
        encap_type: RouteLwEnCapType::from(encap_part(set, context) as u16),
        link: form_of(context % 256),
        port: port_form_of(context / 256 % 256),
        tc: tc_form_of(context % 256),
        tc_action: tc_action_form_of(context % 256),
    }
}

/// What two numbers name.
pub fn nest_of(number: u32, context: u32) -> Nest
    ensures { result ≡ nest_of number context }
{
    let set = set_of(number);
    Nest::new(set, context_of(set, context))
}
