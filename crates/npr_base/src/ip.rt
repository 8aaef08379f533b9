//! Addresses of IP, by their bytes in the order of the network.

ghost use Rattle.std.specs.{Prelude.{◌≡◌, ◌∷◌, [], IsTrue, ◌↔◌, Some}, Net.{Addr.{segments_of}, Text.{ipv4_text, ipv6_text}}};
ghost use Rattle.npr_base.specs.{declared.ip.IpAddr.TheVariants.{V4, V6}, Ip.{IsIpv4, IsIpv6, ip_text}};

use std::marker::Model;
use std::{fmt, net};

/// An address of IP version 4 (RFC 791). A contract sees the list of its four bytes.
#[derive(Clone, Copy, PartialEq, Eq)]
pub struct Ipv4Addr {
    octets: [u8; 4],
}

/// An address of IP version 6 (RFC 4291). A contract sees the list of its sixteen bytes.
#[derive(Clone, Copy, PartialEq, Eq)]
pub struct Ipv6Addr {
    octets: [u8; 16],
}

/// An address of IP.
#[derive(Clone, Copy, PartialEq, Eq)]
pub enum IpAddr {
    /// Of version 4.
    V4(Ipv4Addr),
    /// Of version 6.
    V6(Ipv6Addr),
}

impl Model for Ipv4Addr {
    ghost use Rattle.std.specs.Prelude.{ℕ, List};

    ghost Value = { List ℕ };

    ghost view = { λ address. address.octets };

    ghost inverse = { λ octets. record { octets = octets } };
}

impl Model for Ipv6Addr {
    ghost use Rattle.std.specs.Prelude.{ℕ, List};

    ghost Value = { List ℕ };

    ghost view = { λ address. address.octets };

    ghost inverse = { λ octets. record { octets = octets } };
}

impl Ipv4Addr {
    /// The address `a.b.c.d`.
    pub fn new(a: u8, b: u8, c: u8, d: u8) -> Ipv4Addr
        ensures { result ≡ a ∷ b ∷ c ∷ d ∷ [] }
    {
        Ipv4Addr {
            octets: [a, b, c, d],
        }
    }

    /// The four bytes.
    pub fn octets(&self) -> [u8; 4]
        ensures { result ≡ self.now }
    {
        self.octets
    }
}

impl Ipv6Addr {
    /// The sixteen bytes.
    pub fn octets(&self) -> [u8; 16]
        ensures { result ≡ self.now }
    {
        self.octets
    }
}

impl From<[u8; 4]> for Ipv4Addr {
    ghost from_gives = { λ octets address. address ≡ octets };

    fn from(octets: [u8; 4]) -> Ipv4Addr {
        Ipv4Addr { octets }
    }
}

impl From<[u8; 16]> for Ipv6Addr {
    ghost from_gives = { λ octets address. address ≡ octets };

    fn from(octets: [u8; 16]) -> Ipv6Addr {
        Ipv6Addr { octets }
    }
}

impl From<Ipv4Addr> for IpAddr {
    ghost from_gives = { λ address ip. ip ≡ V4 address };

    fn from(address: Ipv4Addr) -> IpAddr {
        IpAddr::V4(address)
    }
}

impl From<Ipv6Addr> for IpAddr {
    ghost from_gives = { λ address ip. ip ≡ V6 address };

    fn from(address: Ipv6Addr) -> IpAddr {
        IpAddr::V6(address)
    }
}

impl From<[u8; 4]> for IpAddr {
    ghost from_gives = { λ octets ip. ip ≡ V4 octets };

    fn from(octets: [u8; 4]) -> IpAddr {
        IpAddr::V4(Ipv4Addr { octets })
    }
}

impl From<[u8; 16]> for IpAddr {
    ghost from_gives = { λ octets ip. ip ≡ V6 octets };

    fn from(octets: [u8; 16]) -> IpAddr {
        IpAddr::V6(Ipv6Addr { octets })
    }
}

impl IpAddr {
    /// Whether the address is of version 4.
    pub fn is_ipv4(&self) -> bool
        ensures { IsTrue result ↔ IsIpv4 self.now }
    {
        matches!(self, IpAddr::V4(_))
    }

    /// Whether the address is of version 6.
    pub fn is_ipv6(&self) -> bool
        ensures { IsTrue result ↔ IsIpv6 self.now }
    {
        matches!(self, IpAddr::V6(_))
    }
}

/// The text of `Display`, as for the addresses of the standard library.
impl fmt::Debug for Ipv4Addr {
    ghost debug_output = { λ address. Some (ipv4_text address) };

    fn fmt<W: fmt::Write>(&self, f: &mut fmt::Formatter<W>) -> fmt::Result {
        fmt::Display::fmt(self, f)
    }
}

/// Four decimal numbers with dots between them.
impl fmt::Display for Ipv4Addr {
    ghost output = { λ address. Some (ipv4_text address) };

    fn fmt<W: fmt::Write>(&self, f: &mut fmt::Formatter<W>) -> fmt::Result {
        fmt::Display::fmt(&net::Ipv4Addr::from(self.octets), f)
    }
}

/// The text of `Display`, as for the addresses of the standard library.
impl fmt::Debug for Ipv6Addr {
    ghost debug_output = { λ address. Some (ipv6_text (segments_of address)) };

    fn fmt<W: fmt::Write>(&self, f: &mut fmt::Formatter<W>) -> fmt::Result {
        fmt::Display::fmt(self, f)
    }
}

/// The text of RFC 5952, sections 4 and 5: a mapped address ends in its IPv4 address.
impl fmt::Display for Ipv6Addr {
    ghost output = { λ address. Some (ipv6_text (segments_of address)) };

    fn fmt<W: fmt::Write>(&self, f: &mut fmt::Formatter<W>) -> fmt::Result {
        fmt::Display::fmt(&net::Ipv6Addr::from(self.octets), f)
    }
}

/// The text of `Display`, as for the addresses of the standard library.
impl fmt::Debug for IpAddr {
    ghost debug_output = { λ address. Some (ip_text address) };

    fn fmt<W: fmt::Write>(&self, f: &mut fmt::Formatter<W>) -> fmt::Result {
        fmt::Display::fmt(self, f)
    }
}

/// The text of the address of its version.
impl fmt::Display for IpAddr {
    ghost output = { λ address. Some (ip_text address) };

    fn fmt<W: fmt::Write>(&self, f: &mut fmt::Formatter<W>) -> fmt::Result {
        match self {
            IpAddr::V4(address) => fmt::Display::fmt(address, f),
            IpAddr::V6(address) => fmt::Display::fmt(address, f),
        }
    }
}
