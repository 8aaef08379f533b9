//! Addresses as a list of attributes, whose kinds are not looked at.

ghost use Rattle.std.specs.Prelude.{◌≡◌, ◌≢◌, ◌≤◌, ℕ, List, length, map, IfOk, IfErr};
ghost use Rattle.{
  npr_base.specs.{
    Codec.{exactly},
    Counts.{AddsAtMost},
    Framing.{Writes, encoding, framed},
    Layout.{octets as so_many},
    Lists.{checked, overlong},
    Looks.{Answered},
    Table.{shape_at, slot_plain},
    declared.refusal.DecodeError.TheVariants.{OutOfMemory},
  },
  npr_link_devices.specs.{Addresses.{AreAddresses, AddressesFault, AddressesLooks, octets_of}, Targets.{address_bytes}},
};

use npr_base::{
    At, DecodeError, EmitError, Ipv4Addr, Ipv6Addr, Looks, NLA_ALIGNTO, NLA_HEADER_SIZE, Nla,
    NlaBuffer, NlasIterator, make_room, read_ipv4, read_ipv6, total_len, write_array,
    write_attribute,
};
use std::alloc::Global;

/// An address of a version, which has a fixed number of octets.
pub(crate) trait Address: Drop {
    /// How many they are.
    ghost size: { ℕ };

    /// The octets of an address.
    ghost octets: { Self → List ℕ };

    /// The address that the value of an attribute is.
    ///
    /// # Errors
    /// `ValueLength` at another length.
    fn read(value: &[u8], at: At) -> Result<Self, DecodeError>
        ensures ok { IfOk result (λ a. (exactly (so_many size)).Reads value.now (octets a)) }
        ensures refused { IfErr result (λ e. (exactly (so_many size)).Wrong at value.now e) };

    /// How many octets the address has: 16 at most.
    fn octet_count(&self) -> usize
        ensures count { result ≡ length (octets self.now) }
        ensures few { result ≤ 16 };

    /// Writes the octets at the front of the slice, leaves the rest, and answers how many they are.
    fn write(&self, out: &mut [u8]) -> usize
        requires { length (octets self.now) ≤ length out.old }
        ensures len { result ≡ length (octets self.now) }
        ensures after { Writes out.old out.new (octets self.now) };
}

impl Address for Ipv4Addr {
    ghost size = { 4 };

    ghost octets = { octets_of };

    fn read(value: &[u8], at: At) -> Result<Self, DecodeError> {
        read_ipv4(value, at)
    }

    fn octet_count(&self) -> usize {
        self.octets().len()
    }

    fn write(&self, out: &mut [u8]) -> usize {
        write_array(self.octets(), out)
    }
}

impl Address for Ipv6Addr {
    ghost size = { 16 };

    ghost octets = { octets_of };

    fn read(value: &[u8], at: At) -> Result<Self, DecodeError> {
        read_ipv6(value, at)
    }

    fn octet_count(&self) -> usize {
        self.octets().len()
    }

    fn write(&self, out: &mut [u8]) -> usize {
        write_array(self.octets(), out)
    }
}

/// The addresses that the bytes are: the value of each attribute is one.
///
/// # Errors
/// `OutOfMemory` where memory is refused, and else the first fault in reading order: of the walk, or
/// `ValueLength` at an address of another length, with the place of the whole list.
pub(crate) fn read_addresses<A: Address>(
    alloc: Global,
    bytes: &[u8],
    at: At,
    looks: &mut Looks,
) -> Result<Vec<A>, DecodeError>
    ensures ok { IfOk result (λ v. AreAddresses A.size bytes.now (map A.octets v.items)) }
    ensures refused { IfErr result (λ e. e ≢ OutOfMemory → AddressesFault A.size at bytes.now e) }
    ensures exact { Answered result → AddressesLooks A.size bytes.now looks.old looks.new }
    ensures bounded { AddsAtMost looks.old looks.new (length bytes.now) }
{
    let mut addresses = Vec::new(alloc);
    let mut walk = NlasIterator::new(bytes);
    while let Some(next) = walk.next_counted(looks) {
        let item = next?;
        let address = A::read(item.value(), at)?;
        make_room(&mut addresses, bytes.len())?;
        addresses.push(address)?;
    }
    Ok(addresses)
}

/// Whether the bytes are addresses of this version. It takes no memory.
///
/// # Errors
/// The first fault in reading order, as `read_addresses` tells it.
pub(crate) fn check_addresses_value<A: Address>(bytes: &[u8], at: At) -> Result<(), DecodeError>
    ensures ok { IfOk result (λ _. (addresses : List (List ℕ)) × AreAddresses A.size bytes.now addresses) }
    ensures refused { IfErr result (λ e. AddressesFault A.size at bytes.now e) }
{
    let mut walk = NlasIterator::new(bytes);
    while let Some(next) = walk.next() {
        let item = next?;
        A::read(item.value(), at)?;
    }
    Ok(())
}

/// An address, to be written as an attribute.
#[derive(Drop)]
struct Target<'a, A> {
    /// Its place in the list.
    number: u16,
    address: &'a A,
}

impl<'a, A: Address> Nla for Target<'a, A> {
    ghost shape = { λ t. shape_at (slot_plain t.number (exactly (so_many A.size)) (A.octets t.address.now)) };

    fn kind(&self) -> u16 {
        self.number
    }

    fn is_nested(&self) -> bool {
        false
    }

    fn check_value(&self) -> Result<usize, EmitError> {
        Ok(self.address.octet_count())
    }

    fn write_value(&self, out: &mut [u8]) -> usize {
        self.address.write(out)
    }
}

/// The length of an address as an attribute.
fn address_len<A: Address>(address: &A) -> usize
    ensures { result ≡ framed (length (A.octets address.now)) }
{
    (NLA_HEADER_SIZE + address.octet_count()).next_multiple_of(NLA_ALIGNTO)
}

/// Writes an address as the attribute of this number at the front of the slice, leaves the rest, and
/// answers its length.
fn write_address<A: Address>(address: &A, number: u16, out: &mut [u8]) -> usize
    requires { framed (length (A.octets address.now)) ≤ length out.old }
    ensures len { result ≡ framed (length (A.octets address.now)) }
    ensures after { Writes out.old out.new (encoding (record { kind = number; value = A.octets address.now })) }
{
    // It is short.
    address.octet_count();
    write_attribute(&Target { number, address }, out)
}

/// The length of the addresses as attributes, in bytes.
///
/// # Errors
/// `Total` where no `usize` holds it.
pub(crate) fn check_addresses<A: Address>(addresses: &[A]) -> Result<usize, EmitError>
    ensures { result ≡ checked (overlong (length (address_bytes (map A.octets addresses.now)))) (length (address_bytes (map A.octets addresses.now))) }
{
    let mut total = 0u128;
    for address in addresses {
        total += address_len(address) as u128;
    }
    total_len(total)
}

/// Writes the addresses as attributes of the numbers 0, 1, 2 and so on at the front of the slice,
/// leaves the rest, and answers their length. A number has 16 bits; past the last it begins anew, in a
/// list that is longer than what an attribute can hold.
pub(crate) fn write_addresses<A: Address>(addresses: &[A], out: &mut [u8]) -> usize
    requires { length (address_bytes (map A.octets addresses.now)) ≤ length out.old }
    ensures len { result ≡ length (address_bytes (map A.octets addresses.now)) }
    ensures after { Writes out.old out.new (address_bytes (map A.octets addresses.now)) }
{
    let mut at = 0usize;
    let mut number = 0u16;
    for address in addresses {
        at += write_address(address, number, &mut out[at..]);
        number = number.wrapping_add(1);
    }
    at
}
