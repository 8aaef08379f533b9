//! Pairs of numbers.

ghost use Rattle.std.specs.Prelude.{◌≡◌, ◌≤◌, length, IfOk, IfErr};
ghost use Rattle.{
  npr_base.specs.{Codec.{exactly}, Framing.{Writes}},
  npr_link.specs.Pairs.{two_numbers, two_flags},
};

use crate::vlan_flags::VlanFlags;
use bitflags::Flags;
use npr_base::{At, DecodeError, read_octets, write_array};

/// Two numbers of 4 bytes each, little endian.
///
/// # Errors
/// `ValueLength` at another length than 8.
pub(crate) fn read_two_numbers(value: &[u8], at: At) -> Result<(u32, u32), DecodeError>
    ensures ok { IfOk result (λ pair. (exactly two_numbers).Reads value.now pair) }
    ensures refused { IfErr result (λ e. (exactly two_numbers).Wrong at value.now e) }
{
    let [a, b, c, d, e, f, g, h] = read_octets::<8>(value, at)?;
    Ok((
        u32::from_le_bytes([a, b, c, d]),
        u32::from_le_bytes([e, f, g, h]),
    ))
}

/// Writes two numbers at the front of the slice, leaves the rest, and answers their length.
pub(crate) fn write_two_numbers(first: u32, second: u32, out: &mut [u8]) -> usize
    requires { 8 ≤ length out.old }
    ensures len { result ≡ 8 }
    ensures after { Writes out.old out.new (two_numbers.encode (first, second)) }
{
    let [a, b, c, d] = first.to_le_bytes();
    let [e, f, g, h] = second.to_le_bytes();
    write_array([a, b, c, d, e, f, g, h], out)
}

/// Two sets of flags of 4 bytes each, little endian.
///
/// # Errors
/// `ValueLength` at another length than 8.
pub(crate) fn read_two_flags(value: &[u8], at: At) -> Result<(VlanFlags, VlanFlags), DecodeError>
    ensures ok { IfOk result (λ pair. (exactly two_flags).Reads value.now pair) }
    ensures refused { IfErr result (λ e. (exactly two_flags).Wrong at value.now e) }
{
    let (first, second) = read_two_numbers(value, at)?;
    Ok((
        VlanFlags::from_bits_retain(first),
        VlanFlags::from_bits_retain(second),
    ))
}
