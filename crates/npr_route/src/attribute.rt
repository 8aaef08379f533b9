//! The attributes of a route message: `RTA_*` of `linux/rtnetlink.h`.

ghost use Rattle.std.specs.Prelude.{refl};
ghost use Rattle.{npr_base.specs.Family.{shaped}, npr_route.specs.AttributeView.{family}};

use crate::descent::{check_inside, clone_attribute, is_marked, write_value};
use crate::metrics::RouteMetric;
use crate::next_hops::RouteNextHop;
use crate::reader::read_next_hops;
use crate::rows::{form_at, push_flat, read_flat};
use npr_base::{
    AddressFamily, At, Attribute, DecodeError, DefaultNla, EmitError, Form, Looks, Nla, NlaBuffer,
    Place, kind_rows,
};
use npr_encapsulation::{RouteLwEnCapType, RouteLwTunnelEncap};
use npr_route_values::{
    MplsLabel, RouteAddress, RouteCacheInfo, RouteMfcStats, RouteMplsTtlPropagation,
    RoutePreference, RouteRealm, RouteType, RouteVia,
};
use std::alloc::{AllocError, Global};

/// The number of next hops, `RTA_MULTIPATH`.
pub(crate) const RTA_MULTIPATH: u16 = 9;

/// The kind of metrics (`linux/rtnetlink.h`).
pub(crate) const RTA_METRICS: u16 = 8;

/// The kind of a gateway of a family of its own (`linux/rtnetlink.h`).
pub(crate) const RTA_VIA: u16 = 18;

/// The kind of labels, or of an address, that a packet gets (`linux/rtnetlink.h`).
pub(crate) const RTA_NEWDST: u16 = 19;

/// The kind of a time to live (`linux/rtnetlink.h`).
pub(crate) const RTA_EXPIRES: u16 = 23;

/// The number of the type of an encapsulation, `RTA_ENCAP_TYPE`.
pub(crate) const RTA_ENCAP_TYPE: u16 = 21;

/// The number of an encapsulation, `RTA_ENCAP`.
pub(crate) const RTA_ENCAP: u16 = 22;

/// What the meaning of an attribute rests on besides its bytes: the family and the type of the
/// message's header, and the type that governs its encapsulation.
pub(crate) type Context = (AddressFamily, RouteType, RouteLwEnCapType);

/// An attribute of a route message. What it means rests on a context: the family and the type of
/// the message's header, and the type of its encapsulation.
#[cycle(route)]
#[derive(Debug, Drop, PartialEq, Eq)]
pub enum RouteAttribute {
    /// `RTA_DST`: the destination, a prefix.
    Destination(RouteAddress),
    /// `RTA_SRC`: the source, a prefix.
    Source(RouteAddress),
    /// `RTA_IIF`: the interface that a packet comes in by.
    Iif(u32),
    /// `RTA_OIF`: the interface that it goes out by.
    Oif(u32),
    /// `RTA_GATEWAY`: the gateway.
    Gateway(RouteAddress),
    /// `RTA_PRIORITY`: the metric of the route.
    Priority(u32),
    /// `RTA_PREFSRC`: the source to prefer.
    PrefSource(RouteAddress),
    /// `RTA_METRICS`: the metrics.
    Metrics(Vec<RouteMetric>),
    /// `RTA_MULTIPATH`: the next hops of a route by several paths.
    MultiPath(Vec<RouteNextHop>),
    /// `RTA_FLOW`: the realms.
    Realm(RouteRealm),
    /// `RTA_CACHEINFO`: what the kernel remembers.
    CacheInfo(RouteCacheInfo),
    /// `RTA_TABLE`: the table.
    Table(u32),
    /// `RTA_MARK`: the mark.
    Mark(u32),
    /// `RTA_MFC_STATS`: how much a multicast route forwarded.
    MfcStats(RouteMfcStats),
    /// `RTA_VIA`: a gateway of a family of its own.
    Via(RouteVia),
    /// `RTA_NEWDST` of family mpls: the labels to swap in.
    NewDestination(Vec<MplsLabel>),
    /// `RTA_NEWDST` of another family: the address to swap in.
    NewDestinationAddress(RouteAddress),
    /// `RTA_PREF`: the preference of a router.
    Preference(RoutePreference),
    /// `RTA_ENCAP_TYPE`: the type of the encapsulation.
    EncapType(RouteLwEnCapType),
    /// `RTA_ENCAP`: the encapsulation, by the type that governs it.
    Encap(Vec<RouteLwTunnelEncap>),
    /// `RTA_EXPIRES` of a route that is not multicast: in so many seconds.
    Expires(u32),
    /// `RTA_EXPIRES` of a multicast route, in ticks.
    MulticastExpires(u64),
    /// `RTA_UID`: the user.
    Uid(u32),
    /// `RTA_TTL_PROPAGATE`: whether MPLS takes the TTL over.
    TtlPropagate(RouteMplsTtlPropagation),
    /// `RTA_IP_PROTO`: the protocol over IP, as a plain number.
    IpProto(u8),
    /// `RTA_SPORT`: the port of the source.
    Sport(u16),
    /// `RTA_DPORT`: the port of the destination.
    Dport(u16),
    /// `RTA_NH_ID`: the id of a next hop object.
    NhId(u32),
    /// `RTA_FLOWLABEL`: the flow label.
    Flowlabel(u32),
    /// An attribute of another number, as it stands.
    Other(DefaultNla),
}

/// The rows of the table that stand for themselves. The others stand beside them in each match:
/// those of lists and of labels, and numbers 19 and 23, which have two variants each.
#[macro_export]
macro_rules! route_rows {
    ($body:ident ($($given:tt)*)) => {
        $body!(($($given)*) RouteAttribute of Route {
            1 Destination(RouteAddress value);
            2 Source(RouteAddress value);
            3 Iif(le32);
            4 Oif(le32);
            5 Gateway(RouteAddress value);
            6 Priority(le32);
            7 PrefSource(RouteAddress value);
            11 Realm(RouteRealm as le32);
            12 CacheInfo(RouteCacheInfo leading 32);
            15 Table(le32);
            16 Mark(le32);
            17 MfcStats(RouteMfcStats leading 24);
            20 Preference(RoutePreference as byte);
            21 EncapType(RouteLwEnCapType as le16);
            25 Uid(le32);
            26 TtlPropagate(RouteMplsTtlPropagation as byte);
            27 IpProto(byte);
            28 Sport(be16);
            29 Dport(be16);
            30 NhId(le32);
            31 Flowlabel(be32);
        })
    };
}

impl Nla for RouteAttribute {
    ghost shape = { shaped family };

    fn kind(&self) -> u16 {
        route_rows!(kind_rows(self;
            RouteAttribute::Metrics(_) => RTA_METRICS,
            RouteAttribute::MultiPath(_) => RTA_MULTIPATH,
            RouteAttribute::Via(_) => RTA_VIA,
            RouteAttribute::NewDestination(_) => RTA_NEWDST,
            RouteAttribute::NewDestinationAddress(_) => RTA_NEWDST,
            RouteAttribute::Encap(_) => RTA_ENCAP,
            RouteAttribute::Expires(_) => RTA_EXPIRES,
            RouteAttribute::MulticastExpires(_) => RTA_EXPIRES,
        ))
    }

    /// An encapsulation is, where one of its members wants it.
    fn is_nested(&self) -> bool {
        match self {
            Self::Encap(list) => is_marked(list.as_slice()),
            _ => false,
        }
    }

    fn check_value(&self) -> Result<usize, EmitError> {
        check_inside(self)
    }

    fn write_value(&self, out: &mut [u8]) -> usize {
        write_value(self, out)
    }
}

impl Attribute for RouteAttribute {
    type Context = Context;

    ghost family = { family };

    ghost shape_is = { λ a. refl };

    fn read_into<P: Place<Self>>(
        place: &mut P,
        alloc: Global,
        context: Context,
        item: &NlaBuffer<'_>,
        looks: &mut Looks,
    ) -> Result<(), DecodeError> {
        if item.kind() == RTA_MULTIPATH {
            let next_hops = read_next_hops(alloc, item.value(), context, looks)?;
            place.put(Self::MultiPath(next_hops));
            return Ok(());
        }
        let mut attribute = Self::Uid(0);
        read_flat(&mut attribute, alloc, context, context.2, item, looks)?;
        place.put(attribute);
        Ok(())
    }

    fn read_onto(
        list: &mut Vec<Self>,
        alloc: Global,
        context: Context,
        item: &NlaBuffer<'_>,
        looks: &mut Looks,
    ) -> Result<(), DecodeError> {
        if item.kind() == RTA_MULTIPATH {
            let next_hops = read_next_hops(alloc, item.value(), context, looks)?;
            list.push(Self::MultiPath(next_hops))?;
            Ok(())
        } else {
            push_flat(list, alloc, context, context.2, item, looks)
        }
    }

    fn form(context: Context, number: u16) -> (At, Form) {
        form_at(context, number)
    }

    fn try_clone(&self, alloc: Global) -> Result<Self, AllocError> {
        clone_attribute(alloc, self)
    }
}
