//! Tunnels over IP version 6: `LWTUNNEL_IP6_*` of `linux/lwtunnel.h`.

ghost use Rattle.std.specs.Prelude.{refl};
ghost use Rattle.{npr_base.specs.Family.{shaped}, npr_encapsulation.specs.IpTunnel.{family6, ip6_tunnel_text}};

use crate::flags::{RouteIp6TunnelFlags, write_flags};
use crate::ip_rows;
use crate::tunnel_opts::RouteLwTunnelOpt;
use bitflags::Flags;
use npr_base::{
    At, Attribute, DecodeError, DefaultNla, EmitError, Form, Ipv6Addr, Looks, Nla, NlaBuffer,
    Place, write_joined,
};
use std::alloc::{AllocError, Global};
use std::fmt;

/// A member of a tunnel over IP version 6.
#[derive(Debug, Default, Drop, PartialEq, Eq)]
pub enum RouteIp6Tunnel {
    /// `LWTUNNEL_IP6_UNSPEC`: its value is dropped.
    #[default]
    Unspecified,
    /// `LWTUNNEL_IP6_ID`: the id of the tunnel, big endian.
    Id(u64),
    /// `LWTUNNEL_IP6_DST`: the address that it goes to.
    Destination(Ipv6Addr),
    /// `LWTUNNEL_IP6_SRC`: the address that it comes from.
    Source(Ipv6Addr),
    /// `LWTUNNEL_IP6_HOPLIMIT`: how many hops are left.
    Hoplimit(u8),
    /// `LWTUNNEL_IP6_TC`: the traffic class.
    Tc(u8),
    /// `LWTUNNEL_IP6_FLAGS`: the flags, big endian.
    Flags(RouteIp6TunnelFlags),
    /// `LWTUNNEL_IP6_OPTS`: the options, written with NESTED.
    Opts(Vec<RouteLwTunnelOpt>),
    /// A member of another number, as it stands.
    Other(DefaultNla),
}

/// The rows of the table.
macro_rules! rows {
    ($body:ident ($($given:tt)*)) => {
        ip_rows!($body($($given)*) RouteIp6Tunnel of Ip6, octets16, Hoplimit, Tc, RouteIp6TunnelFlags)
    };
}

impl Nla for RouteIp6Tunnel {
    ghost shape = { shaped family6 };

    fn kind(&self) -> u16 {
        rows!(kind_rows(self))
    }

    fn is_nested(&self) -> bool {
        false
    }

    fn check_value(&self) -> Result<usize, EmitError> {
        Ok(rows!(len_rows(self)))
    }

    fn write_value(&self, out: &mut [u8]) -> usize {
        rows!(write_rows(self, out))
    }
}

impl Attribute for RouteIp6Tunnel {
    type Context = ();

    ghost family = { family6 };

    ghost shape_is = { λ a. refl };

    #[tactic(auto, unfolding(crate::specs::IpTunnel::attributes6))]
    fn read_into<P: Place<Self>>(
        place: &mut P,
        alloc: Global,
        _context: (),
        item: &NlaBuffer<'_>,
        looks: &mut Looks,
    ) -> Result<(), DecodeError> {
        rows!(put_rows(place, alloc, item, looks))
    }

    #[tactic(auto, unfolding(crate::specs::IpTunnel::attributes6))]
    fn form(_context: (), number: u16) -> (At, Form) {
        rows!(form_rows(number))
    }

    fn try_clone(&self, alloc: Global) -> Result<Self, AllocError> {
        rows!(clone_rows(self, alloc))
    }
}

/// The name of what stands there, and its value; of flags and options their names alone.
impl fmt::Display for RouteIp6Tunnel {
    ghost output = { λ a. ip6_tunnel_text (family6.meaning a) };

    fn fmt<W: fmt::Write>(&self, f: &mut fmt::Formatter<W>) -> fmt::Result {
        match self {
            RouteIp6Tunnel::Unspecified => f.write_str("unspecified"),
            RouteIp6Tunnel::Id(id) => write!(f, "id {id}"),
            RouteIp6Tunnel::Destination(address) => write!(f, "dst {address}"),
            RouteIp6Tunnel::Source(address) => write!(f, "src, {address}"),
            RouteIp6Tunnel::Hoplimit(hops) => write!(f, "hoplimit {hops}"),
            RouteIp6Tunnel::Tc(class) => write!(f, "tc {class}"),
            RouteIp6Tunnel::Flags(flags) => write_flags(f, flags.bits()),
            RouteIp6Tunnel::Opts(options) => write_joined(f, options.as_slice(), ", "),
            RouteIp6Tunnel::Other(nla) => fmt::Debug::fmt(nla, f),
        }
    }
}
