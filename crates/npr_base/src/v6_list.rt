//! Lists of addresses of IP version 6, as routing headers have them (RFC 8754, RFC 6554): 16 bytes
//! each, one after the other.

ghost use Rattle.std.specs.{Prelude.{◌≡◌, ◌*◌, ◌%◌, ◌^◌, ◌<◌, ◌≤◌, length, IfOk, IfErr}, List.{concat}};
ghost use Rattle.npr_base.specs.{declared.refusal.DecodeError.TheVariants.{OutOfMemory}, Lists.{AllOf}, Framing.{Writes}, V6List.{IsV6List}};

use crate::ip::Ipv6Addr;
use crate::refusal::DecodeError;
use crate::values::write_array;
use std::alloc::Global;

/// The addresses that the bytes are, in the order of the wire. Asks that the length is a multiple
/// of 16.
///
/// # Errors
/// `OutOfMemory` alone, where memory is refused.
///
/// # Panics
/// May panic where it is not as asked.
pub fn read_v6_list(alloc: Global, bytes: &[u8]) -> Result<Vec<Ipv6Addr>, DecodeError>
    requires { length bytes.now % 16 ≡ 0 }
    ensures ok { IfOk result (λ v. IsV6List bytes.now v.items) }
    ensures refused { IfErr result (λ e. e ≡ OutOfMemory) }
{
    let mut addresses = Vec::new(alloc);
    let mut at = 0usize;
    while at < bytes.len() {
        let mut octets = [0u8; 16];
        octets.copy_from_slice(&bytes[at..at + 16]);
        addresses.push(Ipv6Addr::from(octets))?;
        at += 16;
    }
    Ok(addresses)
}

/// The length of the addresses, in bytes: 16 each.
pub fn v6_list_len(addresses: &[Ipv6Addr]) -> usize
    ensures len { result ≡ length (concat addresses.now) }
    ensures each { AllOf (λ a. length a ≡ 16) addresses.now }
    ensures bound { result < 2 ^ 63 }
{
    let mut total = 0usize;
    for address in addresses {
        total += address.octets().len();
    }
    total
}

/// Writes the addresses one after the other at the front of the slice, in the order of the list,
/// leaves the rest, and answers their length. Asks for room of `v6_list_len`.
///
/// # Panics
/// May panic where it is not as asked.
pub fn write_v6_list(addresses: &[Ipv6Addr], out: &mut [u8]) -> usize
    requires { length (concat addresses.now) ≤ length out.old }
    ensures len { result ≡ length (concat addresses.now) }
    ensures after { Writes out.old out.new (concat addresses.now) }
{
    let mut at = 0usize;
    for address in addresses {
        at += write_array(address.octets(), &mut out[at..]);
    }
    at
}

/// Writes the addresses one after the other, in the order of the list. Asks for a slice of exactly 16
/// bytes for each. It is for callers: the library writes by `write_v6_list`.
///
/// # Panics
/// May panic where it is not as asked.
pub fn emit_v6_list(addresses: &[Ipv6Addr], out: &mut [u8])
    requires { length out.old ≡ 16 * length addresses.now }
    ensures { out.new ≡ concat addresses.now }
{
    // Each takes 16 bytes, so there is room.
    v6_list_len(addresses);
    write_v6_list(addresses, out);
}
