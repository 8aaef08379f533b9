//! Values of one of two widths: numbers of 4 bytes or of 8, and flags that are there or not.

ghost use Rattle.std.specs.Prelude.{◌≡◌, ◌≤◌, length, IfOk, IfErr};
ghost use Rattle.npr_base.specs.{Framing.{Writes}, FlagCodec.{flag}, UintCodec.{uint}};

use crate::attribute_set::At;
use crate::refusal::DecodeError;
use crate::values::{read_bool, read_u32, read_u64, write_array};

/// A number of 4 bytes or of 8, little endian (`NLA_UINT` of the kernel's `net/netlink.h`).
///
/// # Errors
/// `ValueLength` at another length.
pub fn read_uint(value: &[u8], at: At) -> Result<u64, DecodeError>
    ensures ok { IfOk result (λ n. uint.Reads value.now n) }
    ensures refused { IfErr result (λ e. uint.Wrong at value.now e) }
{
    if value.len() == 4 {
        Ok(u64::from(read_u32(value, at)?))
    } else {
        read_u64(value, at)
    }
}

/// The length of such a number: 4 bytes where they hold it, and else 8.
pub fn uint_len(number: u64) -> usize
    ensures { result ≡ length (uint.encode number) }
{
    if number < 0x1_0000_0000 { 4 } else { 8 }
}

/// Writes such a number at the front of the slice, leaves the rest, and answers its length. Asks for
/// room of `uint_len`.
///
/// # Panics
/// May panic where it is not as asked.
pub fn write_uint(number: u64, out: &mut [u8]) -> usize
    requires { length (uint.encode number) ≤ length out.old }
    ensures len { result ≡ length (uint.encode number) }
    ensures after { Writes out.old out.new (uint.encode number) }
{
    if number < 0x1_0000_0000 {
        write_array((number as u32).to_le_bytes(), out)
    } else {
        write_array(number.to_le_bytes(), out)
    }
}

/// A flag: true without a value (`NLA_FLAG` of the kernel's `net/netlink.h`), or as a byte above 0.
///
/// # Errors
/// `ValueLength` at another length than 0 and 1.
pub fn read_flag(value: &[u8], at: At) -> Result<bool, DecodeError>
    ensures ok { IfOk result (λ b. flag.Reads value.now b) }
    ensures refused { IfErr result (λ e. flag.Wrong at value.now e) }
{
    if value.is_empty() {
        Ok(true)
    } else {
        read_bool(value, at)
    }
}

/// The length of a flag: none where it is true, and else 1.
pub fn flag_len(told: bool) -> usize
    ensures { result ≡ length (flag.encode told) }
{
    if told { 0 } else { 1 }
}

/// Writes a flag at the front of the slice, leaves the rest, and answers its length: true has no
/// bytes, and false is one of 0. Asks for room of `flag_len`.
///
/// # Panics
/// May panic where it is not as asked.
pub fn write_flag(told: bool, out: &mut [u8]) -> usize
    requires { length (flag.encode told) ≤ length out.old }
    ensures len { result ≡ length (flag.encode told) }
    ensures after { Writes out.old out.new (flag.encode told) }
{
    if told { 0 } else { write_array([0], out) }
}
