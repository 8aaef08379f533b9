//! Gateways of a family of their own: `struct rtvia` of `linux/rtnetlink.h`.

ghost use Rattle.std.specs.{Prelude.{◌≡◌, ◌≢◌, ◌≤◌, ◌+◌, length, ◌++◌, IfOk, IfErr}, Int.{w16, to_le_bytes}};
ghost use Rattle.{
  npr_base.specs.{
    AddressFamily.{families},
    declared.refusal.DecodeError.TheVariants.{OutOfMemory},
    Codec.{leading},
    Framing.{Writes},
    Refusal.{no_place},
  },
  npr_route_values.specs.{
    RouteVia.{Via, via_of, via_bytes, via_value, via_of_ip, via_form_of, IsAddress, NotAddress},
    ViaBuffer.{via_buffer},
    declared.via.RouteVia.TheVariants.{Inet, Inet6},
  },
};

use npr_base::{
    AddressFamily, At, DecodeError, EmitError, Emitable, IpAddr, Ipv4Addr, Ipv6Addr,
    leading_octets, octets_at, read_bytes, read_ipv4, read_ipv6, write_bytes,
};
use std::alloc::{AllocError, Global};

/// A gateway of a family of its own.
///
/// Layout (`struct rtvia` of `linux/rtnetlink.h`): the family in 2 bytes, little endian, and the
/// address.
#[derive(Debug, Drop, PartialEq, Eq)]
pub enum RouteVia {
    /// An address of IP version 4.
    Inet(Ipv4Addr),
    /// An address of IP version 6.
    Inet6(Ipv6Addr),
    /// A hardware address.
    Packet(Vec<u8>),
    /// The bytes of an address of another family.
    Other((AddressFamily, Vec<u8>)),
}

/// The layout of the family of a [`RouteVia`]: 2 bytes, little endian.
#[derive(Clone, Copy, Debug, PartialEq, Eq)]
pub struct RouteViaBuffer {
    /// `AF_*` of `linux/socket.h`.
    pub address_family: u16,
}

impl RouteViaBuffer {
    /// The layout in the first 2 bytes; more are not looked at.
    ///
    /// # Errors
    /// `HeaderTooShort` below 2 bytes.
    pub fn parse(bytes: &[u8]) -> Result<Self, DecodeError>
        ensures ok { IfOk result (λ b. (leading via_buffer).Reads bytes.now b) }
        ensures refused { IfErr result (λ e. (leading via_buffer).Wrong no_place bytes.now e) }
    {
        let b = leading_octets(bytes, 2)?;
        Ok(RouteViaBuffer {
            address_family: u16::from_le_bytes(octets_at(b, 0)),
        })
    }

    /// The 2 bytes of the layout.
    pub fn to_bytes(&self) -> [u8; 2]
        ensures { result ≡ via_buffer.encode self.now }
    {
        self.address_family.to_le_bytes()
    }
}

/// The address of a family.
fn read_address(
    alloc: Global,
    family: AddressFamily,
    bytes: &[u8],
    at: At,
) -> Result<RouteVia, DecodeError>
    ensures ok { IfOk result (λ via. IsAddress family (via_form_of family) bytes.now (via_of via)) }
    ensures refused { IfErr result (λ e. e ≢ OutOfMemory → NotAddress (via_form_of family) at bytes.now e) }
{
    match family {
        AddressFamily::Inet => read_ipv4(bytes, at).map(RouteVia::Inet),
        AddressFamily::Inet6 => read_ipv6(bytes, at).map(RouteVia::Inet6),
        AddressFamily::Packet => Ok(RouteVia::Packet(read_bytes(alloc, bytes)?)),
        _ => Ok(RouteVia::Other((family, read_bytes(alloc, bytes)?))),
    }
}

/// Whether the bytes are an address of a family. It takes no memory.
fn check_address(family: AddressFamily, bytes: &[u8], at: At) -> Result<(), DecodeError>
    ensures ok { IfOk result (λ _. (via : Via) × IsAddress family (via_form_of family) bytes.now via) }
    ensures refused { IfErr result (λ e. NotAddress (via_form_of family) at bytes.now e) }
{
    match family {
        AddressFamily::Inet => {
            read_ipv4(bytes, at)?;
        }
        AddressFamily::Inet6 => {
            read_ipv6(bytes, at)?;
        }
        _ => {}
    }
    Ok(())
}

impl RouteVia {
    /// The gateway that the bytes are.
    ///
    /// # Errors
    /// `HeaderTooShort` below 2 bytes, `ViaFamily` for a family above 255, `ValueLength` with the
    /// length of the address where inet has not 4 bytes or inet6 not 16, and `OutOfMemory` where
    /// memory is refused.
    pub fn parse(alloc: Global, bytes: &[u8]) -> Result<Self, DecodeError>
        ensures ok { IfOk result (λ via. via_value.Reads bytes.now (via_of via)) }
        ensures refused { IfErr result (λ e. e ≢ OutOfMemory → via_value.Wrong no_place bytes.now e) }
    {
        Self::read(alloc, bytes, At::NO_PLACE)
    }

    /// The gateway that the bytes at a place are.
    ///
    /// # Errors
    /// As `parse`.
    #[inline(always)]
    pub fn read(alloc: Global, bytes: &[u8], at: At) -> Result<Self, DecodeError>
        ensures ok { IfOk result (λ via. via_value.Reads bytes.now (via_of via)) }
        ensures refused { IfErr result (λ e. e ≢ OutOfMemory → via_value.Wrong at bytes.now e) }
    {
        let number = RouteViaBuffer::parse(bytes)?.address_family;
        if number > 255 {
            return Err(DecodeError::ViaFamily(number));
        }
        read_address(alloc, AddressFamily::from(number as u8), &bytes[2..], at)
    }

    /// Whether the bytes at a place are a gateway. It takes no memory.
    ///
    /// # Errors
    /// As `parse`, without `OutOfMemory`.
    pub fn check_value(bytes: &[u8], at: At) -> Result<(), DecodeError>
        ensures ok { IfOk result (λ _. (via : Via) × via_value.Reads bytes.now via) }
        ensures refused { IfErr result (λ e. via_value.Wrong at bytes.now e) }
    {
        let RouteViaBuffer { address_family } = RouteViaBuffer::parse(bytes)?;
        if address_family > 255 {
            return Err(DecodeError::ViaFamily(address_family));
        }
        check_address(AddressFamily::from(address_family as u8), &bytes[2..], at)
    }

    /// The length of its bytes.
    pub fn len(&self) -> usize
        ensures { result ≡ length (via_bytes (via_of self.now)) }
    {
        match self {
            RouteVia::Inet(ip) => 2 + ip.octets().len(),
            RouteVia::Inet6(ip) => 2 + ip.octets().len(),
            RouteVia::Packet(address) => 2 + address.len(),
            RouteVia::Other((_, address)) => 2 + address.len(),
        }
    }

    /// Writes its bytes at the front of the slice, leaves the rest, and answers their length. Asks for
    /// room of `len`.
    ///
    /// # Panics
    /// May panic where it is not as asked.
    pub fn write(&self, out: &mut [u8]) -> usize
        requires { length (via_bytes (via_of self.now)) ≤ length out.old }
        ensures len { result ≡ length (via_bytes (via_of self.now)) }
        ensures after { Writes out.old out.new (via_bytes (via_of self.now)) }
    {
        match self {
            RouteVia::Inet(ip) => write_address(AddressFamily::Inet, &ip.octets(), out),
            RouteVia::Inet6(ip) => write_address(AddressFamily::Inet6, &ip.octets(), out),
            RouteVia::Packet(address) => {
                write_address(AddressFamily::Packet, address.as_slice(), out)
            }
            RouteVia::Other((family, address)) => write_address(*family, address.as_slice(), out),
        }
    }

    /// An equal gateway.
    ///
    /// # Errors
    /// `AllocError` where memory is refused.
    pub fn try_clone(&self, alloc: Global) -> Result<Self, AllocError>
        ensures { IfOk result (λ via. via_of via ≡ via_of self.now) }
    {
        match self {
            RouteVia::Inet(ip) => Ok(RouteVia::Inet(*ip)),
            RouteVia::Inet6(ip) => Ok(RouteVia::Inet6(*ip)),
            RouteVia::Packet(address) => {
                Vec::from_slice(alloc, address.as_slice()).map(RouteVia::Packet)
            }
            RouteVia::Other((family, address)) => Ok(RouteVia::Other((
                *family,
                Vec::from_slice(alloc, address.as_slice())?,
            ))),
        }
    }
}

/// Writes a family and an address, and answers their length.
fn write_address(family: AddressFamily, address: &[u8], out: &mut [u8]) -> usize
    requires { 2 + length address.now ≤ length out.old }
    ensures len { result ≡ 2 + length address.now }
    ensures after { Writes out.old out.new (to_le_bytes w16 (families.number family) ++ address.now) }
{
    write_bytes(address, &mut out[2..]);
    let [low, high] = u16::from(u8::from(family)).to_le_bytes();
    out[0] = low;
    out[1] = high;
    2 + address.len()
}

impl From<Ipv4Addr> for RouteVia {
    ghost from_gives = { λ ip via. via ≡ Inet ip };

    fn from(ip: Ipv4Addr) -> RouteVia {
        RouteVia::Inet(ip)
    }
}

impl From<Ipv6Addr> for RouteVia {
    ghost from_gives = { λ ip via. via ≡ Inet6 ip };

    fn from(ip: Ipv6Addr) -> RouteVia {
        RouteVia::Inet6(ip)
    }
}

impl From<IpAddr> for RouteVia {
    ghost from_gives = { λ ip via. via ≡ via_of_ip ip };

    fn from(ip: IpAddr) -> RouteVia {
        match ip {
            IpAddr::V4(ip) => RouteVia::Inet(ip),
            IpAddr::V6(ip) => RouteVia::Inet6(ip),
        }
    }
}

impl Emitable for RouteVia {
    ghost bytes = { λ via. via_bytes (via_of via) };

    fn check(&self) -> Result<usize, EmitError> {
        Ok(self.len())
    }

    fn emit(&self, out: &mut [u8]) {
        self.write(out);
    }
}
