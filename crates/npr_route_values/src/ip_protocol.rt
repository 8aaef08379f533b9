//! Protocols over IP: `IPPROTO_*` of `linux/in.h`.

ghost use Rattle.std.specs.Prelude.{◌≡◌, None, pos};
ghost use Rattle.{npr_base.specs.Lists.{checked}, npr_route_values.specs.{IpProtocol.{above_zero, ip_protocols, byte_of}, IpProtocolByte.{protocol_unfit}}};

use npr_base::EmitError;

/// A protocol over IP: `IPPROTO_*` of `linux/in.h`, a signed number of 32 bits.
#[derive(Clone, Copy, Debug, Default, PartialEq, Eq)]
pub enum IpProtocol {
    /// Options for each hop (`linux/in6.h`); `linux/in.h` has `IPPROTO_IP` at its number, 0.
    Hopopts,
    /// Control messages of version 4.
    Icmp,
    /// Groups of multicast.
    Igmp,
    /// Version 4 in IP.
    Ipip,
    /// TCP.
    Tcp,
    /// Exterior gateways.
    Egp,
    /// PUP.
    Pup,
    /// UDP.
    Udp,
    /// XNS IDP.
    Idp,
    /// ISO's transport, class 4.
    Tp,
    /// DCCP.
    Dccp,
    /// Version 6 in IP.
    Ipv6,
    /// RSVP.
    Rsvp,
    /// GRE.
    Gre,
    /// Encrypted payload of IPsec.
    Esp,
    /// Authentication header of IPsec.
    Ah,
    /// Multicast transport.
    Mtp,
    /// The pseudo header of IPsec's BEET mode.
    Beetph,
    /// An encapsulation header.
    Encap,
    /// Multicast that rests on no protocol.
    Pim,
    /// Compressed payload.
    Comp,
    /// L2TP, version 3.
    L2tp,
    /// SCTP.
    Sctp,
    /// UDP-Lite.
    Udplite,
    /// MPLS in IP.
    Mpls,
    /// Ethernet in version 6.
    Ethernet,
    /// Packets with their IP header.
    #[default]
    Raw,
    /// TCP over several paths.
    Mptcp,
    /// Any other number.
    Other(i32),
}

/// Their numbers.
macro_rules! numbers {
    ($body:ident ($($given:tt)*)) => {
        npr_base::$body!(($($given)*) IpProtocol {
            0 Hopopts;
            1 Icmp;
            2 Igmp;
            4 Ipip;
            6 Tcp;
            8 Egp;
            12 Pup;
            17 Udp;
            22 Idp;
            29 Tp;
            33 Dccp;
            41 Ipv6;
            46 Rsvp;
            47 Gre;
            50 Esp;
            51 Ah;
            92 Mtp;
            94 Beetph;
            98 Encap;
            103 Pim;
            108 Comp;
            115 L2tp;
            132 Sctp;
            136 Udplite;
            137 Mpls;
            143 Ethernet;
            255 Raw;
            262 Mptcp;
        })
    };
}

impl From<i32> for IpProtocol {
    ghost from_gives = { λ number protocol. protocol ≡ ip_protocols.of number };

    fn from(number: i32) -> IpProtocol {
        numbers!(variant_of_number(number))
    }
}

impl From<IpProtocol> for i32 {
    ghost from_gives = { λ protocol number. number ≡ ip_protocols.number protocol };

    fn from(protocol: IpProtocol) -> i32 {
        numbers!(number_of_variant(protocol))
    }
}

impl From<u8> for IpProtocol {
    ghost from_gives = { λ number protocol. protocol ≡ ip_protocols.of (pos number) };

    fn from(number: u8) -> IpProtocol {
        IpProtocol::from(i32::from(number))
    }
}

impl IpProtocol {
    /// The number as one byte: none where it is below 0 or above 255.
    pub fn as_u8(&self) -> Option<u8>
        ensures { result ≡ byte_of (ip_protocols.number self.now) }
    {
        u8::try_from(i32::from(*self)).ok()
    }
}

/// The length of the value of a protocol: 1 byte.
///
/// # Errors
/// `IpProtocol` where no byte holds its number.
pub fn check_protocol(protocol: IpProtocol) -> Result<usize, EmitError>
    ensures { result ≡ checked (protocol_unfit protocol) 1 }
{
    match protocol.as_u8() {
        Some(_) => Ok(1),
        None => Err(EmitError::IpProtocol {
            number: i32::from(protocol),
        }),
    }
}

/// The byte of a protocol. Asks that it has one.
///
/// # Panics
/// May panic where it is not as asked.
pub fn protocol_byte(protocol: IpProtocol) -> u8
    requires { protocol_unfit protocol ≡ None }
    ensures { result ≡ above_zero (ip_protocols.number protocol) }
{
    match protocol.as_u8() {
        Some(byte) => byte,
        None => unreachable!(),
    }
}
