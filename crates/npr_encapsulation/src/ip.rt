//! Tunnels over IP version 4: `LWTUNNEL_IP_*` of `linux/lwtunnel.h`.

ghost use Rattle.std.specs.Prelude.{refl};
ghost use Rattle.{npr_base.specs.Family.{shaped}, npr_encapsulation.specs.IpTunnel.{family, ip_tunnel_text}};

use crate::flags::{RouteIpTunnelFlags, write_flags};
use crate::ip_rows;
use crate::tunnel_opts::RouteLwTunnelOpt;
use bitflags::Flags;
use npr_base::{
    At, Attribute, DecodeError, DefaultNla, EmitError, Form, Ipv4Addr, Looks, Nla, NlaBuffer,
    Place, write_joined,
};
use std::alloc::{AllocError, Global};
use std::fmt;

/// A member of a tunnel over IP version 4.
#[derive(Debug, Default, Drop, PartialEq, Eq)]
pub enum RouteIpTunnel {
    /// `LWTUNNEL_IP_UNSPEC`: its value is dropped.
    #[default]
    Unspecified,
    /// `LWTUNNEL_IP_ID`: the id of the tunnel, big endian.
    Id(u64),
    /// `LWTUNNEL_IP_DST`: the address that it goes to.
    Destination(Ipv4Addr),
    /// `LWTUNNEL_IP_SRC`: the address that it comes from.
    Source(Ipv4Addr),
    /// `LWTUNNEL_IP_TTL`: how many hops are left.
    Ttl(u8),
    /// `LWTUNNEL_IP_TOS`: the type of service.
    Tos(u8),
    /// `LWTUNNEL_IP_FLAGS`: the flags, big endian.
    Flags(RouteIpTunnelFlags),
    /// `LWTUNNEL_IP_OPTS`: the options, written with NESTED.
    Opts(Vec<RouteLwTunnelOpt>),
    /// A member of another number, as it stands.
    Other(DefaultNla),
}

/// The rows of the table.
macro_rules! rows {
    ($body:ident ($($given:tt)*)) => {
        ip_rows!($body($($given)*) RouteIpTunnel of Ip, octets4, Ttl, Tos, RouteIpTunnelFlags)
    };
}

impl Nla for RouteIpTunnel {
    ghost shape = { shaped family };

    fn kind(&self) -> u16 {
        rows!(kind_rows(self))
    }

    fn is_nested(&self) -> bool {
        false
    }

    fn check_value(&self) -> Result<usize, EmitError> {
        Ok(rows!(len_rows(self)))
    }

    fn write_value(&self, out: &mut [u8]) -> usize {
        rows!(write_rows(self, out))
    }
}

impl Attribute for RouteIpTunnel {
    type Context = ();

    ghost family = { family };

    ghost shape_is = { λ a. refl };

    #[tactic(auto, unfolding(crate::specs::IpTunnel::attributes))]
    fn read_into<P: Place<Self>>(
        place: &mut P,
        alloc: Global,
        _context: (),
        item: &NlaBuffer<'_>,
        looks: &mut Looks,
    ) -> Result<(), DecodeError> {
        rows!(put_rows(place, alloc, item, looks))
    }

    #[tactic(auto, unfolding(crate::specs::IpTunnel::attributes))]
    fn form(_context: (), number: u16) -> (At, Form) {
        rows!(form_rows(number))
    }

    fn try_clone(&self, alloc: Global) -> Result<Self, AllocError> {
        rows!(clone_rows(self, alloc))
    }
}

/// The name of what stands there, and its value; of flags and options their names alone.
impl fmt::Display for RouteIpTunnel {
    ghost output = { λ a. ip_tunnel_text (family.meaning a) };

    fn fmt<W: fmt::Write>(&self, f: &mut fmt::Formatter<W>) -> fmt::Result {
        match self {
            RouteIpTunnel::Unspecified => f.write_str("unspecified"),
            RouteIpTunnel::Id(id) => write!(f, "id {id}"),
            RouteIpTunnel::Destination(address) => write!(f, "dst {address}"),
            RouteIpTunnel::Source(address) => write!(f, "src {address}"),
            RouteIpTunnel::Ttl(hops) => write!(f, "ttl {hops}"),
            RouteIpTunnel::Tos(service) => write!(f, "tos {service}"),
            RouteIpTunnel::Flags(flags) => write_flags(f, flags.bits()),
            RouteIpTunnel::Opts(options) => write_joined(f, options.as_slice(), ", "),
            RouteIpTunnel::Other(nla) => fmt::Debug::fmt(nla, f),
        }
    }
}
