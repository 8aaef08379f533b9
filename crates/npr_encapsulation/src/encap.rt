//! The members of an encapsulation, by its type.

ghost use Rattle.std.specs.Prelude.{◌≡◌, IfSome, IfNone, IfOk, IfErr, refl};
ghost use Rattle.{
  npr_base.specs.{Family.{shaped}, Framing.{number_of}},
  npr_encapsulation.specs.{Encapsulation.{meaning_of, normalized, encapsulation, family}, Apart.{IsApart}},
};

use crate::encap_type::RouteLwEnCapType;
use crate::ip::RouteIpTunnel;
use crate::ip6::RouteIp6Tunnel;
use crate::mpls::RouteMplsIpTunnel;
use crate::xfrm::RouteXfrmTunnel;
use npr_base::{
    At, Attribute, AttributeSet, DecodeError, DefaultNla, EmitError, Form, Looks, Nla, NlaBuffer,
    Place, put_read,
};
use npr_srh::{RouteIoam6Tunnel, RouteRplIpTunnel, RouteSeg6IpTunnel, RouteSeg6LocalTunnel};
use std::alloc::{AllocError, Global};

/// A member of an encapsulation.
#[derive(Debug, Drop, PartialEq, Eq)]
pub enum RouteLwTunnelEncap {
    /// Labels of MPLS.
    Mpls(RouteMplsIpTunnel),
    /// A segment routing header.
    Seg6(RouteSeg6IpTunnel),
    /// A tunnel over IP version 4.
    Ip(RouteIpTunnel),
    /// A tunnel over IP version 6.
    Ip6(RouteIp6Tunnel),
    /// A trace of the path.
    Ioam6(RouteIoam6Tunnel),
    /// A source routing header.
    Rpl(RouteRplIpTunnel),
    /// An action on a segment.
    Seg6Local(RouteSeg6LocalTunnel),
    /// An IPsec interface.
    Xfrm(RouteXfrmTunnel),
    /// A member under a type without a family, as it stands.
    Other(DefaultNla),
}

/// The families of members, each with its variant, which has the name of its type.
macro_rules! members {
    ($body:ident ($($given:tt)*)) => {
        $body!(($($given)*) {
            Mpls(RouteMplsIpTunnel);
            Seg6(RouteSeg6IpTunnel);
            Ip(RouteIpTunnel);
            Ip6(RouteIp6Tunnel);
            Ioam6(RouteIoam6Tunnel);
            Rpl(RouteRplIpTunnel);
            Seg6Local(RouteSeg6LocalTunnel);
            Xfrm(RouteXfrmTunnel);
        })
    };
}

/// What a method answers of the member that stands there.
macro_rules! asked {
    (($of:expr, $method:ident $given:tt) { $($variant:ident($family:ident);)* }) => {
        match $of {
            $(RouteLwTunnelEncap::$variant(member) => member.$method $given,)*
            RouteLwTunnelEncap::Other(nla) => nla.$method $given,
        }
    };
}

/// An equal member.
macro_rules! cloned {
    (($of:expr, $alloc:expr) { $($variant:ident($family:ident);)* }) => {
        match $of {
            $(RouteLwTunnelEncap::$variant(member) => member.try_clone($alloc).map(RouteLwTunnelEncap::$variant),)*
            RouteLwTunnelEncap::Other(nla) => nla.try_clone($alloc).map(RouteLwTunnelEncap::Other),
        }
    };
}

/// Puts the member of the family of a type.
macro_rules! put_member {
    (($place:expr, $encap_type:expr, $alloc:expr, $item:expr, $looks:expr) { $($variant:ident($family:ident);)* }) => {
        match $encap_type {
            $(RouteLwEnCapType::$variant =>
                put_read($place, $family::read($alloc, (), $item, $looks), RouteLwTunnelEncap::$variant),)*
            _ => put_read($place, DefaultNla::read($alloc, $item), RouteLwTunnelEncap::Other),
        }
    };
}

impl RouteLwTunnelEncap {
    /// Gives the mode of a SEG6 header the name that its number has today: `Seg6Header::normalize`.
    pub fn normalize(&mut self)
        ensures { meaning_of self.new ≡ normalized (meaning_of self.old) }
    {
        if let RouteLwTunnelEncap::Seg6(RouteSeg6IpTunnel::Seg6(header)) = self {
            header.normalize();
        }
    }
}

macro_rules! form_of_member {
    (($encap_type:expr, $number:expr) { $($variant:ident($family:ident);)* }) => {
        match $encap_type {
            $(RouteLwEnCapType::$variant => $family::form((), $number),)*
            _ => (AttributeSet::Value.at($number), Form::Raw),
        }
    };
}

impl Nla for RouteLwTunnelEncap {
    ghost shape = { shaped family };

    fn kind(&self) -> u16 {
        members!(asked(self, kind()))
    }

    fn is_nested(&self) -> bool {
        false
    }

    fn check_value(&self) -> Result<usize, EmitError> {
        members!(asked(self, check_value()))
    }

    fn write_value(&self, out: &mut [u8]) -> usize {
        members!(asked(self, write_value(out)))
    }
}

impl Attribute for RouteLwTunnelEncap {
    type Context = RouteLwEnCapType;

    ghost family = { family };

    ghost shape_is = { λ a. refl };

    #[tactic(auto, unfolding(crate::specs::Encapsulation::encapsulation_by))]
    fn read_into<P: Place<Self>>(
        place: &mut P,
        alloc: Global,
        encap_type: RouteLwEnCapType,
        item: &NlaBuffer<'_>,
        looks: &mut Looks,
    ) -> Result<(), DecodeError> {
        members!(put_member(place, encap_type, alloc, item, looks))
    }

    #[tactic(auto, unfolding(crate::specs::Encapsulation::encapsulation_by))]
    fn form(encap_type: RouteLwEnCapType, number: u16) -> (At, Form) {
        members!(form_of_member(encap_type, number))
    }

    fn try_clone(&self, alloc: Global) -> Result<Self, AllocError> {
        members!(cloned(self, alloc))
    }
}

impl RouteLwTunnelEncap {
    /// Whether a routing header or a trace is read, which has a reader of its own, or `None` for
    /// another type or number. It takes no memory.
    ///
    /// # Errors
    /// `Seg6Header` with the first fault, under the type SEG6 alone.
    pub fn check_apart(
        encap_type: RouteLwEnCapType,
        item: &NlaBuffer<'_>,
    ) -> Option<Result<(), DecodeError>>
        ensures apart { IfSome result (λ _. IsApart encap_type (number_of (item.now).kind)) }
        ensures other { IfNone result (IsApart encap_type (number_of (item.now).kind) → ⊥) }
        ensures ok { IfSome result (λ r. IfOk r (λ _. (m : family.Meaning) × (encapsulation encap_type).Reads item.now m)) }
        ensures refused { IfSome result (λ r. IfErr r (λ e. (encapsulation encap_type).Faulty item.now e)) }
    {
        match encap_type {
            RouteLwEnCapType::Seg6 => RouteSeg6IpTunnel::check_apart(item),
            RouteLwEnCapType::Ioam6 => RouteIoam6Tunnel::check_apart(item),
            RouteLwEnCapType::Rpl => RouteRplIpTunnel::check_apart(item),
            RouteLwEnCapType::Seg6Local => RouteSeg6LocalTunnel::check_apart(item),
            _ => None,
        }
    }
}
