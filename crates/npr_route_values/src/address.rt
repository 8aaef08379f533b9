//! The addresses of routes.

ghost use Rattle.std.specs.Prelude.{◌≡◌, ◌≢◌, ◌≤◌, length, IfOk, IfErr};
ghost use Rattle.{
  npr_base.specs.{declared.refusal.DecodeError.TheVariants.{OutOfMemory}, Framing.{Writes}, Refusal.{no_place}},
  npr_route_values.specs.{
    RouteAddress.{address_of, route_address_bytes, address_of_ip, route_address},
    declared.address.RouteAddress.TheVariants.{Inet, Inet6, Mpls},
  },
};

use crate::mpls::MplsLabel;
use npr_base::{
    AddressFamily, At, DecodeError, EmitError, Emitable, Form, IpAddr, Ipv4Addr, Ipv6Addr,
    read_bytes, read_ipv4, read_ipv6, read_u32_be, write_array, write_bytes,
};
use std::alloc::{AllocError, Global};

/// The address of a route: its form follows from the family of the message.
#[derive(Debug, Drop, PartialEq, Eq)]
pub enum RouteAddress {
    /// An address of IP version 4, in 4 bytes.
    Inet(Ipv4Addr),
    /// An address of IP version 6, in 16 bytes.
    Inet6(Ipv6Addr),
    /// One label of MPLS, in 4 bytes.
    Mpls(MplsLabel),
    /// The bytes of an address of another family.
    Other(Vec<u8>),
}

impl RouteAddress {
    /// The address of this family.
    ///
    /// # Errors
    /// `ValueLength` where inet has not 4 bytes, inet6 not 16 or mpls not 4, and `OutOfMemory`
    /// where memory is refused.
    pub fn parse(alloc: Global, family: AddressFamily, bytes: &[u8]) -> Result<Self, DecodeError>
        ensures ok { IfOk result (λ a. (route_address family).Reads bytes.now (address_of a)) }
        ensures refused { IfErr result (λ e. e ≢ OutOfMemory → (route_address family).Wrong no_place bytes.now e) }
    {
        Self::read(alloc, family, bytes, At::NO_PLACE)
    }

    /// The address of this family at a place.
    ///
    /// # Errors
    /// As `parse`.
    #[inline(always)]
    pub fn read(
        alloc: Global,
        family: AddressFamily,
        bytes: &[u8],
        at: At,
    ) -> Result<Self, DecodeError>
        ensures ok { IfOk result (λ a. (route_address family).Reads bytes.now (address_of a)) }
        ensures refused { IfErr result (λ e. e ≢ OutOfMemory → (route_address family).Wrong at bytes.now e) }
    {
        match family {
            AddressFamily::Inet => Ok(RouteAddress::Inet(read_ipv4(bytes, at)?)),
            AddressFamily::Inet6 => Ok(RouteAddress::Inet6(read_ipv6(bytes, at)?)),
            AddressFamily::Mpls => {
                let entry = read_u32_be(bytes, at)?;
                Ok(RouteAddress::Mpls(MplsLabel::from(entry)))
            }
            _ => Ok(RouteAddress::Other(read_bytes(alloc, bytes)?)),
        }
    }

    /// How the address of this family is read without memory.
    pub fn form(family: AddressFamily) -> Form
        ensures { result ≡ (route_address family).showing.form }
    {
        match family {
            AddressFamily::Inet => Form::Octets4,
            AddressFamily::Inet6 => Form::Octets16,
            AddressFamily::Mpls => Form::Exactly(4),
            _ => Form::Raw,
        }
    }

    /// The length of its bytes.
    pub fn len(&self) -> usize
        ensures { result ≡ length (route_address_bytes (address_of self.now)) }
    {
        match self {
            RouteAddress::Inet(ip) => ip.octets().len(),
            RouteAddress::Inet6(ip) => ip.octets().len(),
            RouteAddress::Mpls(_) => 4,
            RouteAddress::Other(bytes) => bytes.len(),
        }
    }

    /// Writes its bytes at the front of the slice, leaves the rest, and answers their length. Asks for
    /// room of `len`.
    ///
    /// # Panics
    /// May panic where it is not as asked.
    pub fn write(&self, out: &mut [u8]) -> usize
        requires { length (route_address_bytes (address_of self.now)) ≤ length out.old }
        ensures len { result ≡ length (route_address_bytes (address_of self.now)) }
        ensures after { Writes out.old out.new (route_address_bytes (address_of self.now)) }
    {
        match self {
            RouteAddress::Inet(ip) => write_array(ip.octets(), out),
            RouteAddress::Inet6(ip) => write_array(ip.octets(), out),
            RouteAddress::Mpls(label) => write_array(u32::from(*label).to_be_bytes(), out),
            RouteAddress::Other(bytes) => write_bytes(bytes.as_slice(), out),
        }
    }

    /// An equal address.
    ///
    /// # Errors
    /// `AllocError` where memory is refused.
    pub fn try_clone(&self, alloc: Global) -> Result<Self, AllocError>
        ensures { IfOk result (λ a. address_of a ≡ address_of self.now) }
    {
        match self {
            RouteAddress::Inet(ip) => Ok(RouteAddress::Inet(*ip)),
            RouteAddress::Inet6(ip) => Ok(RouteAddress::Inet6(*ip)),
            RouteAddress::Mpls(label) => Ok(RouteAddress::Mpls(*label)),
            RouteAddress::Other(bytes) => {
                Vec::from_slice(alloc, bytes.as_slice()).map(RouteAddress::Other)
            }
        }
    }
}

impl From<Ipv4Addr> for RouteAddress {
    ghost from_gives = { λ ip a. a ≡ Inet ip };

    fn from(ip: Ipv4Addr) -> RouteAddress {
        RouteAddress::Inet(ip)
    }
}

impl From<Ipv6Addr> for RouteAddress {
    ghost from_gives = { λ ip a. a ≡ Inet6 ip };

    fn from(ip: Ipv6Addr) -> RouteAddress {
        RouteAddress::Inet6(ip)
    }
}

impl From<IpAddr> for RouteAddress {
    ghost from_gives = { λ ip a. a ≡ address_of_ip ip };

    fn from(ip: IpAddr) -> RouteAddress {
        match ip {
            IpAddr::V4(ip) => RouteAddress::Inet(ip),
            IpAddr::V6(ip) => RouteAddress::Inet6(ip),
        }
    }
}

impl From<MplsLabel> for RouteAddress {
    ghost from_gives = { λ label a. a ≡ Mpls label };

    fn from(label: MplsLabel) -> RouteAddress {
        RouteAddress::Mpls(label)
    }
}

impl Emitable for RouteAddress {
    ghost bytes = { λ a. route_address_bytes (address_of a) };

    fn check(&self) -> Result<usize, EmitError> {
        Ok(self.len())
    }

    fn emit(&self, out: &mut [u8]) {
        self.write(out);
    }
}
