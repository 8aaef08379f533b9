//! Who made a route, and the numbers of that (`linux/rtnetlink.h`).

ghost use Rattle.std.specs.Prelude.{◌≡◌, Some, IfOk, IfErr};
ghost use Rattle.{
  npr_base.specs.{Codec.{exactly}, Refusal.{no_place}},
  npr_route_values.specs.RouteProtocol.{route_protocol, route_protocols, route_protocol_text},
};

use npr_base::{At, DecodeError, EmitError, Emitable, read_u8, write_array};
use std::fmt;

/// Who made a route: `RTPROT_*` of `linux/rtnetlink.h`.
#[derive(Clone, Copy, Debug, Default, PartialEq, Eq)]
pub enum RouteProtocol {
    /// Unknown.
    #[default]
    Unspec,
    /// Made by an ICMP redirect.
    IcmpRedirect,
    /// Made by the kernel.
    Kernel,
    /// Made at the start of the system.
    Boot,
    /// Made by an administrator.
    Static,
    /// Gated.
    Gated,
    /// Router advertisements, RDISC and ND.
    Ra,
    /// Merit's MRT.
    Mrt,
    /// Zebra.
    Zebra,
    /// BIRD.
    Bird,
    /// DECnet's routing daemon.
    DnRouted,
    /// XORP.
    Xorp,
    /// Netsukuku.
    Ntk,
    /// A client of DHCP.
    Dhcp,
    /// A daemon of multicast.
    Mrouted,
    /// Keepalived.
    KeepAlived,
    /// Babel.
    Babel,
    /// BGP.
    Bgp,
    /// IS-IS.
    Isis,
    /// OSPF.
    Ospf,
    /// RIP.
    Rip,
    /// EIGRP.
    Eigrp,
    /// Any other number.
    Other(u8),
}

/// Their numbers and names.
macro_rules! numbers {
    ($body:ident ($($given:tt)*)) => {
        npr_base::$body!(($($given)*) RouteProtocol {
            0 Unspec "unspec";
            1 IcmpRedirect "icmp_redirect";
            2 Kernel "kernel";
            3 Boot "boot";
            4 Static "static";
            8 Gated "gated";
            9 Ra "ra";
            10 Mrt "merit_mrt";
            11 Zebra "zebra";
            12 Bird "bird";
            13 DnRouted "decnet_routing_daemon";
            14 Xorp "xorp";
            15 Ntk "netsukuku";
            16 Dhcp "Dhcp";
            17 Mrouted "multicast_daemon";
            18 KeepAlived "keepalived_daemon";
            42 Babel "babel";
            186 Bgp "bgp";
            187 Isis "isis";
            188 Ospf "ospf";
            189 Rip "rip";
            192 Eigrp "eigrp";
        })
    };
}

impl From<u8> for RouteProtocol {
    ghost from_gives = { λ number protocol. protocol ≡ route_protocols.of number };

    fn from(number: u8) -> RouteProtocol {
        numbers!(variant_of_number(number))
    }
}

impl From<RouteProtocol> for u8 {
    ghost from_gives = { λ protocol number. number ≡ route_protocols.number protocol };

    fn from(protocol: RouteProtocol) -> u8 {
        numbers!(number_of_variant(protocol))
    }
}

impl RouteProtocol {
    /// The protocol of one byte.
    ///
    /// # Errors
    /// `ValueLength` at another length.
    pub fn parse(bytes: &[u8]) -> Result<Self, DecodeError>
        ensures ok { IfOk result (λ protocol. (exactly route_protocol).Reads bytes.now protocol) }
        ensures refused { IfErr result (λ e. (exactly route_protocol).Wrong no_place bytes.now e) }
    {
        Ok(RouteProtocol::from(read_u8(bytes, At::NO_PLACE)?))
    }
}

impl Emitable for RouteProtocol {
    ghost bytes = { route_protocol.encode };

    fn check(&self) -> Result<usize, EmitError> {
        Ok(1)
    }

    fn emit(&self, out: &mut [u8]) {
        write_array([u8::from(*self)], out);
    }
}

/// The name, and of any other protocol its number.
impl fmt::Display for RouteProtocol {
    ghost output = { λ protocol. Some (route_protocol_text protocol) };

    fn fmt<W: fmt::Write>(&self, f: &mut fmt::Formatter<W>) -> fmt::Result {
        numbers!(write_variant(self, f, "other({})"))
    }
}
