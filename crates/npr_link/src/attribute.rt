//! An attribute of a link message: `IFLA_*` of `linux/if_link.h`.

ghost use Rattle.std.specs.Prelude.{◌≢◌, IfOk, IfErr};
ghost use Rattle.{
  npr_base.specs.{declared.refusal.DecodeError.TheVariants.{OutOfMemory}, Framing.{number_of}},
  npr_link.specs.Attribute.{family, shape, shape-by, IsFlat, FlatFault},
};

use crate::af_spec::AfSpecUnspec;
use crate::af_spec_inet6::AfSpecInet6;
use crate::dpll_pin::LinkDpllPin;
use crate::extent_mask::LinkExtentMask;
use crate::header_family::{af_spec_form, proto_info_form, put_af_spec, put_proto_info};
use crate::info::LinkInfo;
use crate::link_event::LinkEvent;
use crate::link_mode::LinkMode;
use crate::lists::{put_flat, put_info};
use crate::map::Map;
use crate::prop::Prop;
use crate::protocol_down::LinkProtocolDownReason;
use crate::state::State;
use crate::xdp::LinkXdp;
use bitflags::Flags;
use npr_base::{
    AddressFamily, At, Attribute, AttributeSet, DecodeError, DefaultNla, EmitError, Form, Looks,
    NLA_F_NESTED, Nla, NlaBuffer, Place, Rowed, check_list, clone_list, write_bytes, write_list,
};
use npr_link_bridge::{AfSpecBridge, InfoBridgePort};
use npr_link_functions::{LinkVfInfo, LinkVfPort, VfPort};
use npr_link_statistics::{Grown, Stats, Stats64};
use std::alloc::{AllocError, Global};

/// An attribute of a link message. What its protocol and address families say of it is a list, or stands
/// as it is, by the family of the message's header.
#[derive(Debug, Drop, PartialEq, Eq)]
pub enum LinkAttribute {
    /// `IFLA_PROTINFO`, where the header's family is IP version 6: what that says of the link.
    ProtoInfoInet6(Vec<AfSpecInet6>),
    /// `IFLA_PROTINFO`, where it is that of bridges: what a bridge says of the link as its port. Written with NESTED.
    ProtoInfoBridge(Vec<InfoBridgePort>),
    /// `IFLA_PROTINFO` under any other family, as it stands.
    ProtoInfoUnknown(DefaultNla),
    /// `IFLA_AF_SPEC`: what address families say of the link, where the header has no family, or that of IP.
    AfSpecUnspec(Vec<AfSpecUnspec>),
    /// `IFLA_AF_SPEC`, where the header's family is that of bridges: what a bridge says.
    AfSpecBridge(Vec<AfSpecBridge>),
    /// `IFLA_AF_SPEC` under any other family, as it stands.
    AfSpecUnknown(Vec<u8>),
    /// `IFLA_LINKINFO`: what the driver says of the link.
    LinkInfo(Vec<LinkInfo>),
    /// `IFLA_ADDRESS`: the address on the link, as it stands.
    Address(Vec<u8>),
    /// `IFLA_BROADCAST`: the broadcast address on the link, as it stands.
    Broadcast(Vec<u8>),
    /// `IFLA_IFNAME`: the name.
    IfName(String),
    /// `IFLA_MTU`: the longest packet, in bytes.
    Mtu(u32),
    /// `IFLA_LINK`: the index of the link under it.
    Link(u32),
    /// `IFLA_QDISC`: the queueing discipline.
    Qdisc(String),
    /// `IFLA_STATS`: counters of 32 bits.
    Stats(Stats),
    /// `IFLA_MASTER`: the index of the link that controls it.
    Controller(u32),
    /// `IFLA_TXQLEN`: the length of the transmit queue, in packets.
    TxQueueLen(u32),
    /// `IFLA_MAP`: the resources of the device.
    Map(Map),
    /// `IFLA_OPERSTATE`: the operational state.
    OperState(State),
    /// `IFLA_LINKMODE`: what the link is up for.
    Mode(LinkMode),
    /// `IFLA_NET_NS_PID`: a process whose network namespace is meant.
    NetNsPid(u32),
    /// `IFLA_IFALIAS`: a text of the administrator's.
    IfAlias(String),
    /// `IFLA_NUM_VF`: how many virtual functions there are.
    NumVf(u32),
    /// `IFLA_STATS64`: counters of 64 bits.
    Stats64(Stats64),
    /// `IFLA_GROUP`: the group.
    Group(u32),
    /// `IFLA_NET_NS_FD`: a file descriptor of the network namespace that is meant.
    NetNsFd(i32),
    /// `IFLA_EXT_MASK`: what an answer is to say besides.
    ExtMask(LinkExtentMask),
    /// `IFLA_PROMISCUITY`: how many ask for all packets.
    Promiscuity(u32),
    /// `IFLA_NUM_TX_QUEUES`: how many transmit queues there are.
    NumTxQueues(u32),
    /// `IFLA_NUM_RX_QUEUES`: how many receive queues there are.
    NumRxQueues(u32),
    /// `IFLA_CARRIER`: whether there is a carrier.
    Carrier(u8),
    /// `IFLA_PHYS_PORT_ID`: the id of the physical port, as it stands.
    PhysPortId(Vec<u8>),
    /// `IFLA_CARRIER_CHANGES`: how often the carrier came or went.
    CarrierChanges(u32),
    /// `IFLA_PHYS_SWITCH_ID`: the id of the switch, as it stands.
    PhysSwitchId(Vec<u8>),
    /// `IFLA_LINK_NETNSID`: the id of the network namespace of the link under it.
    LinkNetNsId(i32),
    /// `IFLA_PHYS_PORT_NAME`: the name of the physical port.
    PhysPortName(String),
    /// `IFLA_PROTO_DOWN`: whether a protocol holds the link down.
    ProtoDown(u8),
    /// `IFLA_GSO_MAX_SEGS`: into how many segments a packet may be cut at most.
    GsoMaxSegs(u32),
    /// `IFLA_GSO_MAX_SIZE`: how long a packet that will be cut may be, in bytes.
    GsoMaxSize(u32),
    /// `IFLA_XDP`: the program at the driver.
    Xdp(Vec<LinkXdp>),
    /// `IFLA_EVENT`: what happened.
    Event(LinkEvent),
    /// `IFLA_NEW_NETNSID`: the id of the network namespace that it goes to.
    NewNetnsId(i32),
    /// `IFLA_IF_NETNSID`: the id of the network namespace that is asked.
    IfNetnsId(i32),
    /// `IFLA_CARRIER_UP_COUNT`: how often the carrier came.
    CarrierUpCount(u32),
    /// `IFLA_CARRIER_DOWN_COUNT`: how often the carrier went.
    CarrierDownCount(u32),
    /// `IFLA_NEW_IFINDEX`: the index in the network namespace that it goes to.
    NewIfIndex(i32),
    /// `IFLA_MIN_MTU`: the least `Mtu`, in bytes.
    MinMtu(u32),
    /// `IFLA_MAX_MTU`: the greatest `Mtu`, in bytes.
    MaxMtu(u32),
    /// `IFLA_PROP_LIST`: other properties.
    PropList(Vec<Prop>),
    /// `IFLA_ALT_IFNAME`: another name.
    AltIfName(String),
    /// `IFLA_PERM_ADDRESS`: the address that the device was made with, as it stands.
    PermAddress(Vec<u8>),
    /// `IFLA_PROTO_DOWN_REASON`: who holds the link down.
    ProtoDownReason(Vec<LinkProtocolDownReason>),
    /// `IFLA_PARENT_DEV_NAME`: the name of the device that it belongs to.
    ParentDevName(String),
    /// `IFLA_PARENT_DEV_BUS_NAME`: the bus of that device.
    ParentDevBusName(String),
    /// `IFLA_GRO_MAX_SIZE`: how long a packet that is put together may be, in bytes.
    GroMaxSize(u32),
    /// `IFLA_TSO_MAX_SIZE`: how long a packet that the device cuts may be, in bytes.
    TsoMaxSize(u32),
    /// `IFLA_TSO_MAX_SEGS`: into how many segments the device cuts a packet at most.
    TsoMaxSegs(u32),
    /// `IFLA_ALLMULTI`: how many ask for all multicast packets.
    AllMulti(u32),
    /// `IFLA_GSO_IPV4_MAX_SIZE`: `GsoMaxSize` for IP version 4.
    GsoIpv4MaxSize(u32),
    /// `IFLA_GRO_IPV4_MAX_SIZE`: `GroMaxSize` for IP version 4.
    GroIpv4MaxSize(u32),
    /// `IFLA_MAX_PACING_OFFLOAD_HORIZON`: how far ahead the device can hold packets back, in nanoseconds.
    MaxPacingOffloadHorizon(u64),
    /// `IFLA_NETNS_IMMUTABLE`: whether it stays in its network namespace. True for a byte above 0.
    NetnsImmutable(bool),
    /// `IFLA_HEADROOM`: the room in front of a packet, in bytes.
    Headroom(u16),
    /// `IFLA_TAILROOM`: the room behind a packet, in bytes.
    Tailroom(u16),
    /// `IFLA_WIRELESS`: an event of a wireless link, `struct iw_event` of `linux/wireless.h`, as it stands.
    Wireless(Vec<u8>),
    /// `IFLA_WEIGHT`: its share of what is received in one round.
    Weight(u32),
    /// `IFLA_VFINFO_LIST`: its virtual functions.
    VfInfoList(Vec<LinkVfInfo>),
    /// `IFLA_VF_PORTS`: the ports of its virtual functions.
    VfPorts(Vec<LinkVfPort>),
    /// `IFLA_PORT_SELF`: its own port.
    PortSelf(Vec<VfPort>),
    /// `IFLA_DEVLINK_PORT`: the port of devlink that it belongs to, attributes of `linux/devlink.h` as they
    /// stand. Written with NESTED.
    DevlinkPort(Vec<u8>),
    /// `IFLA_DPLL_PIN`: the pin that it is clocked by. Written with NESTED.
    DpllPin(Vec<LinkDpllPin>),
    /// An attribute of another number, as it stands.
    Other(DefaultNla),
}

/// What IP version 6 says of a link as its protocol: `IFLA_INET6_*` of `linux/if_link.h`.
pub type LinkProtoInfoInet6 = AfSpecInet6;

/// What a bridge says of a link as its port: `IFLA_BRPORT_*` of `linux/if_link.h`.
pub type LinkProtoInfoBridge = InfoBridgePort;

/// The number of what the protocol says, `IFLA_PROTINFO`.
const IFLA_PROTINFO: u16 = 12;

/// The number of what address families say, `IFLA_AF_SPEC`.
const IFLA_AF_SPEC: u16 = 26;

/// The number of what a driver says, `IFLA_LINKINFO`.
const IFLA_LINKINFO: u16 = 18;

/// The rows of the table that stand for themselves. Numbers 12, 18 and 26 stand beside them.
macro_rules! rows {
    ($body:ident ($($given:tt)*)) => {
        npr_base::$body!(($($given)*) LinkAttribute of Link {
            1 Address(raw);
            2 Broadcast(raw);
            3 IfName(name);
            4 Mtu(le32);
            5 Link(le32);
            6 Qdisc(name);
            7 Stats(Stats value raw);
            10 Controller(le32);
            11 Wireless(raw);
            13 TxQueueLen(le32);
            14 Map(Map leading 32);
            15 Weight(le32);
            16 OperState(State as byte);
            17 Mode(LinkMode as byte);
            19 NetNsPid(le32);
            20 IfAlias(name);
            21 NumVf(le32);
            22 VfInfoList(list LinkVfInfo);
            23 Stats64(Stats64 value raw);
            24 VfPorts(list LinkVfPort);
            25 PortSelf(list VfPort);
            27 Group(le32);
            28 NetNsFd(signed32);
            29 ExtMask(LinkExtentMask flags le32);
            30 Promiscuity(le32);
            31 NumTxQueues(le32);
            32 NumRxQueues(le32);
            33 Carrier(byte);
            34 PhysPortId(raw);
            35 CarrierChanges(le32);
            36 PhysSwitchId(raw);
            37 LinkNetNsId(signed32);
            38 PhysPortName(name);
            39 ProtoDown(byte);
            40 GsoMaxSegs(le32);
            41 GsoMaxSize(le32);
            43 Xdp(list LinkXdp);
            44 Event(LinkEvent as le32);
            45 NewNetnsId(signed32);
            46 IfNetnsId(signed32);
            47 CarrierUpCount(le32);
            48 CarrierDownCount(le32);
            49 NewIfIndex(signed32);
            50 MinMtu(le32);
            51 MaxMtu(le32);
            52 PropList(list Prop) as NLA_F_NESTED + 52;
            53 AltIfName(name);
            54 PermAddress(raw);
            55 ProtoDownReason(list LinkProtocolDownReason) as NLA_F_NESTED + 55;
            56 ParentDevName(name);
            57 ParentDevBusName(name);
            58 GroMaxSize(le32);
            59 TsoMaxSize(le32);
            60 TsoMaxSegs(le32);
            61 AllMulti(le32);
            62 DevlinkPort(raw) as NLA_F_NESTED + 62;
            63 GsoIpv4MaxSize(le32);
            64 GroIpv4MaxSize(le32);
            65 DpllPin(list LinkDpllPin) as NLA_F_NESTED + 65;
            66 MaxPacingOffloadHorizon(uint);
            67 NetnsImmutable(boolean);
            68 Headroom(le16);
            69 Tailroom(le16);
        })
    };
}

impl Nla for LinkAttribute {
    ghost shape = { shape };

    fn kind(&self) -> u16 {
        rows!(kind_rows(self;
            LinkAttribute::ProtoInfoInet6(_) => IFLA_PROTINFO,
            LinkAttribute::ProtoInfoBridge(_) => NLA_F_NESTED + IFLA_PROTINFO,
            LinkAttribute::ProtoInfoUnknown(nla) => nla.kind(),
            LinkAttribute::AfSpecUnspec(_) => IFLA_AF_SPEC,
            LinkAttribute::AfSpecBridge(_) => IFLA_AF_SPEC,
            LinkAttribute::AfSpecUnknown(_) => IFLA_AF_SPEC,
            LinkAttribute::LinkInfo(_) => IFLA_LINKINFO,
        ))
    }

    fn is_nested(&self) -> bool {
        false
    }

    fn check_value(&self) -> Result<usize, EmitError> {
        Ok(rows!(len_rows(self;
            LinkAttribute::ProtoInfoInet6(xs) => check_list(xs.as_slice())?,
            LinkAttribute::ProtoInfoBridge(xs) => check_list(xs.as_slice())?,
            LinkAttribute::ProtoInfoUnknown(nla) => nla.value().len(),
            LinkAttribute::AfSpecUnspec(xs) => check_list(xs.as_slice())?,
            LinkAttribute::AfSpecBridge(xs) => check_list(xs.as_slice())?,
            LinkAttribute::AfSpecUnknown(x) => x.len(),
            LinkAttribute::LinkInfo(xs) => check_list(xs.as_slice())?,
        )))
    }

    fn write_value(&self, out: &mut [u8]) -> usize {
        rows!(write_rows(self, out;
            LinkAttribute::ProtoInfoInet6(xs) => write_list(xs.as_slice(), out),
            LinkAttribute::ProtoInfoBridge(xs) => write_list(xs.as_slice(), out),
            LinkAttribute::ProtoInfoUnknown(nla) => write_bytes(nla.value(), out),
            LinkAttribute::AfSpecUnspec(xs) => write_list(xs.as_slice(), out),
            LinkAttribute::AfSpecBridge(xs) => write_list(xs.as_slice(), out),
            LinkAttribute::AfSpecUnknown(x) => write_bytes(x.as_slice(), out),
            LinkAttribute::LinkInfo(xs) => write_list(xs.as_slice(), out),
        ))
    }
}

impl Rowed for LinkAttribute {
    ghost reads = { IsFlat };

    ghost wrong = { FlatFault };
}

/// Puts an attribute that stands for itself and has no others inside. Asks that its number is not that of
/// a list.
///
/// # Errors
/// `OutOfMemory` where memory is refused, and else what is wrong with the value.
#[tactic(auto, unfolding(crate::specs::Attribute::IsFlat, crate::specs::Attribute::FlatFault))]
pub(crate) fn put_plain<P: Place<LinkAttribute>>(
    place: &mut P,
    alloc: Global,
    item: &NlaBuffer<'_>,
) -> Result<(), DecodeError>
    requires ready { P.ready place.old }
    requires plain { (number_of (item.now).kind ≢ 22) × (number_of (item.now).kind ≢ 24) × (number_of (item.now).kind ≢ 25)
        × (number_of (item.now).kind ≢ 43) × (number_of (item.now).kind ≢ 52) × (number_of (item.now).kind ≢ 55)
        × (number_of (item.now).kind ≢ 65) }
    ensures ok { IfOk result (λ _. (a : LinkAttribute) × P.puts place.old a place.new × IsFlat (number_of (item.now).kind) item.now a) }
    ensures refused { IfErr result (λ e. e ≢ OutOfMemory → FlatFault (number_of (item.now).kind) item.now e) }
{
    rows!(flat_rows(place, alloc, item))
}

impl Attribute for LinkAttribute {
    type Context = AddressFamily;

    ghost family = { family };

    ghost shape_is = { shape-by };

    #[tactic(auto, using(crate::specs::AttributeSteps::proto_reads, crate::specs::AttributeSteps::proto_wrong, crate::specs::AttributeSteps::proto_looks, crate::specs::AttributeSteps::af_reads, crate::specs::AttributeSteps::af_wrong, crate::specs::AttributeSteps::af_looks, crate::specs::AttributeSteps::info_reads, crate::specs::AttributeSteps::info_wrong, crate::specs::AttributeSteps::info_looks, crate::specs::AttributeSteps::flat_reads, crate::specs::AttributeSteps::flat_wrong, crate::specs::AttributeSteps::flat_looks))]
    fn read_into<P: Place<Self>>(
        place: &mut P,
        alloc: Global,
        family: AddressFamily,
        item: &NlaBuffer<'_>,
        looks: &mut Looks,
    ) -> Result<(), DecodeError> {
        match item.kind() {
            IFLA_PROTINFO => put_proto_info(place, alloc, family, item, looks),
            IFLA_AF_SPEC => put_af_spec(place, alloc, family, item.value(), looks),
            IFLA_LINKINFO => put_info(place, alloc, item.value(), looks),
            _ => put_flat(place, alloc, item, looks),
        }
    }

    fn form(family: AddressFamily, number: u16) -> (At, Form) {
        rows!(form_rows(number;
            IFLA_PROTINFO => proto_info_form(family),
            IFLA_AF_SPEC => af_spec_form(family),
            IFLA_LINKINFO => Form::List(AttributeSet::LinkInfo, 0),
        ))
    }

    fn try_clone(&self, alloc: Global) -> Result<Self, AllocError> {
        rows!(clone_rows(self, alloc;
            LinkAttribute::ProtoInfoInet6(xs) => clone_list(alloc, xs.as_slice()).map(LinkAttribute::ProtoInfoInet6),
            LinkAttribute::ProtoInfoBridge(xs) => clone_list(alloc, xs.as_slice()).map(LinkAttribute::ProtoInfoBridge),
            LinkAttribute::ProtoInfoUnknown(nla) => nla.try_clone(alloc).map(LinkAttribute::ProtoInfoUnknown),
            LinkAttribute::AfSpecUnspec(xs) => clone_list(alloc, xs.as_slice()).map(LinkAttribute::AfSpecUnspec),
            LinkAttribute::AfSpecBridge(xs) => clone_list(alloc, xs.as_slice()).map(LinkAttribute::AfSpecBridge),
            LinkAttribute::LinkInfo(xs) => clone_list(alloc, xs.as_slice()).map(LinkAttribute::LinkInfo),
            LinkAttribute::AfSpecUnknown(x) => Vec::from_slice(alloc, x.as_slice()).map(LinkAttribute::AfSpecUnknown),
        ))
    }
}
