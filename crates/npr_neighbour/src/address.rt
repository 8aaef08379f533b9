//! The addresses of neighbours.

ghost use Rattle.std.specs.Prelude.{◌≡◌, ◌≢◌, ◌≤◌, length, IfOk, IfErr};
ghost use Rattle.{
  npr_base.specs.{declared.refusal.DecodeError.TheVariants.{OutOfMemory}, Framing.{Writes}, Refusal.{no_place}},
  npr_neighbour.specs.{
    NeighbourAddress.{address_of, address_bytes, address_of_ip, neighbour_address},
    declared.address.NeighbourAddress.TheVariants.{Inet, Inet6},
  },
};

use npr_base::{
    AddressFamily, At, DecodeError, EmitError, Emitable, Form, IpAddr, Ipv4Addr, Ipv6Addr,
    read_bytes, read_ipv4, read_ipv6, write_array, write_bytes,
};
use std::alloc::{AllocError, Global};

/// The address of a neighbour: its form follows from the family of the message.
#[derive(Debug, Drop, PartialEq, Eq)]
pub enum NeighbourAddress {
    /// An address of IP version 4, in 4 bytes.
    Inet(Ipv4Addr),
    /// An address of IP version 6, in 16 bytes.
    Inet6(Ipv6Addr),
    /// The bytes of an address of another family, as those of a bridge are.
    Other(Vec<u8>),
}

impl NeighbourAddress {
    /// The address of this family.
    ///
    /// # Errors
    /// `ValueLength` where inet has not 4 bytes or inet6 not 16, and `OutOfMemory` where memory is
    /// refused.
    pub fn parse(alloc: Global, family: AddressFamily, bytes: &[u8]) -> Result<Self, DecodeError>
        ensures ok { IfOk result (λ a. (neighbour_address family).Reads bytes.now (address_of a)) }
        ensures refused { IfErr result (λ e. e ≢ OutOfMemory → (neighbour_address family).Wrong no_place bytes.now e) }
    {
        Self::read(alloc, family, bytes, At::NO_PLACE)
    }

    /// The address of this family at a place.
    pub(crate) fn read(
        alloc: Global,
        family: AddressFamily,
        bytes: &[u8],
        at: At,
    ) -> Result<Self, DecodeError>
        ensures ok { IfOk result (λ a. (neighbour_address family).Reads bytes.now (address_of a)) }
        ensures refused { IfErr result (λ e. e ≢ OutOfMemory → (neighbour_address family).Wrong at bytes.now e) }
    {
        match family {
            AddressFamily::Inet => Ok(NeighbourAddress::Inet(read_ipv4(bytes, at)?)),
            AddressFamily::Inet6 => Ok(NeighbourAddress::Inet6(read_ipv6(bytes, at)?)),
            _ => Ok(NeighbourAddress::Other(read_bytes(alloc, bytes)?)),
        }
    }

    /// How the address of this family is read without memory.
    pub fn form(family: AddressFamily) -> Form
        ensures { result ≡ (neighbour_address family).showing.form }
    {
        match family {
            AddressFamily::Inet => Form::Octets4,
            AddressFamily::Inet6 => Form::Octets16,
            _ => Form::Raw,
        }
    }

    /// The length of its bytes.
    pub fn len(&self) -> usize
        ensures { result ≡ length (address_bytes (address_of self.now)) }
    {
        match self {
            NeighbourAddress::Inet(ip) => ip.octets().len(),
            NeighbourAddress::Inet6(ip) => ip.octets().len(),
            NeighbourAddress::Other(bytes) => bytes.len(),
        }
    }

    /// Writes its bytes at the front of the slice, leaves the rest, and answers their length. Asks for
    /// room of `len`.
    ///
    /// # Panics
    /// May panic where it is not as asked.
    pub fn write(&self, out: &mut [u8]) -> usize
        requires { length (address_bytes (address_of self.now)) ≤ length out.old }
        ensures len { result ≡ length (address_bytes (address_of self.now)) }
        ensures after { Writes out.old out.new (address_bytes (address_of self.now)) }
    {
        match self {
            NeighbourAddress::Inet(ip) => write_array(ip.octets(), out),
            NeighbourAddress::Inet6(ip) => write_array(ip.octets(), out),
            NeighbourAddress::Other(bytes) => write_bytes(bytes.as_slice(), out),
        }
    }

    /// An equal address.
    ///
    /// # Errors
    /// `AllocError` where memory is refused.
    pub fn try_clone(&self, alloc: Global) -> Result<Self, AllocError>
        ensures { IfOk result (λ a. address_of a ≡ address_of self.now) }
    {
        match self {
            NeighbourAddress::Inet(ip) => Ok(NeighbourAddress::Inet(*ip)),
            NeighbourAddress::Inet6(ip) => Ok(NeighbourAddress::Inet6(*ip)),
            NeighbourAddress::Other(bytes) => {
                Vec::from_slice(alloc, bytes.as_slice()).map(NeighbourAddress::Other)
            }
        }
    }
}

impl From<Ipv4Addr> for NeighbourAddress {
    ghost from_gives = { λ ip a. a ≡ Inet ip };

    fn from(ip: Ipv4Addr) -> NeighbourAddress {
        NeighbourAddress::Inet(ip)
    }
}

impl From<Ipv6Addr> for NeighbourAddress {
    ghost from_gives = { λ ip a. a ≡ Inet6 ip };

    fn from(ip: Ipv6Addr) -> NeighbourAddress {
        NeighbourAddress::Inet6(ip)
    }
}

impl From<IpAddr> for NeighbourAddress {
    ghost from_gives = { λ ip a. a ≡ address_of_ip ip };

    fn from(ip: IpAddr) -> NeighbourAddress {
        match ip {
            IpAddr::V4(ip) => NeighbourAddress::Inet(ip),
            IpAddr::V6(ip) => NeighbourAddress::Inet6(ip),
        }
    }
}

impl Emitable for NeighbourAddress {
    ghost bytes = { λ a. address_bytes (address_of a) };

    fn check(&self) -> Result<usize, EmitError> {
        Ok(self.len())
    }

    fn emit(&self, out: &mut [u8]) {
        self.write(out);
    }
}
