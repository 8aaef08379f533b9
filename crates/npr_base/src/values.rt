//! Values of attributes: numbers, bytes and names.

ghost use Rattle.std.specs.{Prelude.{◌≡◌, ◌≢◌, ◌≤◌, ◌<◌, ◌+◌, length, IfOk, IfErr, OnErr}, String.{string_bytes}};
ghost use Rattle.npr_base.specs.{
  declared.refusal.DecodeError.TheVariants.{OutOfMemory},
  Framing.{Writes},
  Layout.{byte, le16, le32, le64, be16, be32, be64, signed32, signed64, boolean, octets},
  Codec.{exactly, leading, raw},
  Ip.{octets_of},
  IpCodec.{ip},
  MoreFields.{bytes_at},
  Name.{name},
  NameText.{IsUnterminated},
  Refusal.{no_place},
};

use crate::attribute_set::At;
use crate::ip::{IpAddr, Ipv4Addr, Ipv6Addr};
use crate::refusal::DecodeError;
use std::alloc::{AllocError, Global};
use std::str::from_utf8;

/// So many bytes, where they stand. They go from there to where they are wanted at once: beside a
/// refusal in a `Result`, an array is moved by pieces that wait for each other.
///
/// # Errors
/// `ValueLength` at another length.
#[inline(always)]
pub fn borrow_octets<const N: usize>(value: &[u8], at: At) -> Result<&[u8; N], DecodeError>
    ensures ok { IfOk result (λ x. (exactly (octets N)).Reads value.now x.now) }
    ensures refused { IfErr result (λ e. (exactly (octets N)).Wrong at value.now e) }
{
    if value.len() != N {
        return Err(DecodeError::ValueLength {
            at,
            got: value.len(),
        });
    }
    match value.first_chunk::<N>() {
        Some(bytes) => Ok(bytes),
        None => unreachable!(),
    }
}

/// So many bytes, as they stand.
///
/// # Errors
/// `ValueLength` at another length.
pub fn read_octets<const N: usize>(value: &[u8], at: At) -> Result<[u8; N], DecodeError>
    ensures ok { IfOk result (λ x. (exactly (octets N)).Reads value.now x) }
    ensures refused { IfErr result (λ e. (exactly (octets N)).Wrong at value.now e) }
{
    Ok(*borrow_octets(value, at)?)
}

/// So many bytes in front; those behind them are not looked at.
///
/// # Errors
/// `HeaderTooShort` below that length.
pub fn leading_octets(bytes: &[u8], want: usize) -> Result<&[u8], DecodeError>
    ensures len { IfOk result (λ front. length front.now ≡ want) }
    ensures ok { IfOk result (λ front. (leading (octets want)).Reads bytes.now front.now) }
    ensures refused { IfErr result (λ e. (leading (octets want)).Wrong no_place bytes.now e) }
{
    if bytes.len() < want {
        return Err(DecodeError::HeaderTooShort {
            got: bytes.len(),
            want,
        });
    }
    Ok(&bytes[..want])
}

/// So many bytes at this place of a structure. Asks that they are there.
///
/// # Panics
/// May panic where it is not as asked.
#[inline(always)]
pub fn octets_at<const N: usize>(bytes: &[u8], at: usize) -> [u8; N]
    requires { at + N ≤ length bytes.now }
    ensures { result ≡ bytes_at N bytes.now at }
{
    match bytes[at..].first_chunk::<N>() {
        Some(octets) => *octets,
        None => unreachable!(),
    }
}

/// A number of one byte.
///
/// # Errors
/// `ValueLength` at another length.
pub fn read_u8(value: &[u8], at: At) -> Result<u8, DecodeError>
    ensures ok { IfOk result (λ n. (exactly byte).Reads value.now n) }
    ensures refused { IfErr result (λ e. (exactly byte).Wrong at value.now e) }
{
    let [n] = read_octets::<1>(value, at)?;
    Ok(n)
}

/// A truth value of one byte: true above 0.
///
/// # Errors
/// `ValueLength` at another length.
pub fn read_bool(value: &[u8], at: At) -> Result<bool, DecodeError>
    ensures ok { IfOk result (λ b. (exactly boolean).Reads value.now b) }
    ensures refused { IfErr result (λ e. (exactly boolean).Wrong at value.now e) }
{
    Ok(0 < read_u8(value, at)?)
}

/// A number of two bytes, little endian.
///
/// # Errors
/// `ValueLength` at another length.
pub fn read_u16(value: &[u8], at: At) -> Result<u16, DecodeError>
    ensures ok { IfOk result (λ n. (exactly le16).Reads value.now n) }
    ensures refused { IfErr result (λ e. (exactly le16).Wrong at value.now e) }
{
    Ok(u16::from_le_bytes(read_octets(value, at)?))
}

/// A number of two bytes, big endian.
///
/// # Errors
/// `ValueLength` at another length.
pub fn read_u16_be(value: &[u8], at: At) -> Result<u16, DecodeError>
    ensures ok { IfOk result (λ n. (exactly be16).Reads value.now n) }
    ensures refused { IfErr result (λ e. (exactly be16).Wrong at value.now e) }
{
    Ok(u16::from_be_bytes(read_octets(value, at)?))
}

/// A number of four bytes, little endian.
///
/// # Errors
/// `ValueLength` at another length.
pub fn read_u32(value: &[u8], at: At) -> Result<u32, DecodeError>
    ensures ok { IfOk result (λ n. (exactly le32).Reads value.now n) }
    ensures refused { IfErr result (λ e. (exactly le32).Wrong at value.now e) }
{
    Ok(u32::from_le_bytes(read_octets(value, at)?))
}

/// A number of four bytes, big endian.
///
/// # Errors
/// `ValueLength` at another length.
pub fn read_u32_be(value: &[u8], at: At) -> Result<u32, DecodeError>
    ensures ok { IfOk result (λ n. (exactly be32).Reads value.now n) }
    ensures refused { IfErr result (λ e. (exactly be32).Wrong at value.now e) }
{
    Ok(u32::from_be_bytes(read_octets(value, at)?))
}

/// A signed number of four bytes, little endian.
///
/// # Errors
/// `ValueLength` at another length.
pub fn read_i32(value: &[u8], at: At) -> Result<i32, DecodeError>
    ensures ok { IfOk result (λ n. (exactly signed32).Reads value.now n) }
    ensures refused { IfErr result (λ e. (exactly signed32).Wrong at value.now e) }
{
    Ok(i32::from_le_bytes(read_octets(value, at)?))
}

/// A signed number of eight bytes, little endian.
///
/// # Errors
/// `ValueLength` at another length.
pub fn read_i64(value: &[u8], at: At) -> Result<i64, DecodeError>
    ensures ok { IfOk result (λ n. (exactly signed64).Reads value.now n) }
    ensures refused { IfErr result (λ e. (exactly signed64).Wrong at value.now e) }
{
    Ok(i64::from_le_bytes(read_octets(value, at)?))
}

/// A number of eight bytes, little endian.
///
/// # Errors
/// `ValueLength` at another length.
pub fn read_u64(value: &[u8], at: At) -> Result<u64, DecodeError>
    ensures ok { IfOk result (λ n. (exactly le64).Reads value.now n) }
    ensures refused { IfErr result (λ e. (exactly le64).Wrong at value.now e) }
{
    Ok(u64::from_le_bytes(read_octets(value, at)?))
}

/// A number of eight bytes, big endian.
///
/// # Errors
/// `ValueLength` at another length.
pub fn read_u64_be(value: &[u8], at: At) -> Result<u64, DecodeError>
    ensures ok { IfOk result (λ n. (exactly be64).Reads value.now n) }
    ensures refused { IfErr result (λ e. (exactly be64).Wrong at value.now e) }
{
    Ok(u64::from_be_bytes(read_octets(value, at)?))
}

/// An address of version 4.
///
/// # Errors
/// `ValueLength` at another length than 4.
pub fn read_ipv4(value: &[u8], at: At) -> Result<Ipv4Addr, DecodeError>
    ensures ok { IfOk result (λ address. (exactly (octets 4)).Reads value.now address) }
    ensures refused { IfErr result (λ e. (exactly (octets 4)).Wrong at value.now e) }
{
    Ok(Ipv4Addr::from(read_octets(value, at)?))
}

/// An address of version 6.
///
/// # Errors
/// `ValueLength` at another length than 16.
pub fn read_ipv6(value: &[u8], at: At) -> Result<Ipv6Addr, DecodeError>
    ensures ok { IfOk result (λ address. (exactly (octets 16)).Reads value.now address) }
    ensures refused { IfErr result (λ e. (exactly (octets 16)).Wrong at value.now e) }
{
    Ok(Ipv6Addr::from(read_octets(value, at)?))
}

/// An address: of version 4 in 4 bytes, of version 6 in 16.
///
/// # Errors
/// `ValueLength` at another length.
pub fn read_ip(value: &[u8], at: At) -> Result<IpAddr, DecodeError>
    ensures ok { IfOk result (λ address. ip.Reads value.now address) }
    ensures refused { IfErr result (λ e. ip.Wrong at value.now e) }
{
    if value.len() == 4 {
        Ok(IpAddr::V4(read_ipv4(value, at)?))
    } else {
        Ok(IpAddr::V6(read_ipv6(value, at)?))
    }
}

/// The length of an address: 4 or 16 bytes.
pub fn ip_len(address: &IpAddr) -> usize
    ensures { result ≡ length (octets_of address.now) }
{
    match address {
        IpAddr::V4(v4) => v4.octets().len(),
        IpAddr::V6(v6) => v6.octets().len(),
    }
}

/// Writes an address at the front of the slice, leaves the rest, and answers its length. Asks for
/// room of `ip_len`.
///
/// # Panics
/// May panic where it is not as asked.
pub fn write_ip(address: &IpAddr, out: &mut [u8]) -> usize
    requires { length (octets_of address.now) ≤ length out.old }
    ensures len { result ≡ length (octets_of address.now) }
    ensures after { Writes out.old out.new (octets_of address.now) }
{
    match address {
        IpAddr::V4(v4) => write_array(v4.octets(), out),
        IpAddr::V6(v6) => write_array(v6.octets(), out),
    }
}

/// The bytes, copied.
///
/// # Errors
/// `AllocError` where memory is refused; without bytes none is taken.
pub fn read_bytes(alloc: Global, value: &[u8]) -> Result<Vec<u8>, AllocError>
    ensures ok { IfOk result (λ v. raw.Reads value.now v.items) }
    ensures memory { OnErr result (0 < length value.now) }
{
    if value.is_empty() {
        return Ok(Vec::new(alloc));
    }
    Vec::from_slice(alloc, value)
}

/// The bytes without one final zero, where there is one.
#[tactic(auto, using(crate::proofs::Names::unterminated))]
pub fn without_zero(bytes: &[u8]) -> &[u8]
    ensures { IsUnterminated bytes.now result.now }
{
    if bytes.is_empty() {
        return bytes;
    }
    let last = bytes.len() - 1;
    if bytes[last] == 0 {
        &bytes[..last]
    } else {
        bytes
    }
}

/// A name: UTF-8, with one final zero taken off where there is one.
///
/// # Errors
/// `NotUtf8`, and `OutOfMemory` where memory is refused.
#[inline(always)]
pub fn read_name(alloc: Global, value: &[u8], at: At) -> Result<String, DecodeError>
    ensures ok { IfOk result (λ s. name.Reads value.now (string_bytes s)) }
    ensures refused { IfErr result (λ e. e ≢ OutOfMemory → name.Wrong at value.now e) }
{
    match from_utf8(without_zero(value)) {
        Ok(text) => Ok(String::from_str(alloc, text)?),
        Err(_) => Err(DecodeError::NotUtf8 { at }),
    }
}

/// Writes a name and one zero at the front of the slice, leaves the rest, and answers their length.
/// Asks for room of that length.
///
/// # Panics
/// May panic where it is not as asked.
pub fn write_name(text: &str, out: &mut [u8]) -> usize
    requires { length text.now + 1 ≤ length out.old }
    ensures len { result ≡ length text.now + 1 }
    ensures after { Writes out.old out.new (name.encode text.now) }
{
    let len = text.len();
    out[len] = 0;
    write_bytes(text.as_bytes(), out);
    len + 1
}

/// Copies the bytes to the front of the slice, leaves the rest, and answers their length. Asks for
/// room of that length.
///
/// # Panics
/// May panic where it is not as asked.
pub fn write_bytes(bytes: &[u8], out: &mut [u8]) -> usize
    requires { length bytes.now ≤ length out.old }
    ensures len { result ≡ length bytes.now }
    ensures after { Writes out.old out.new bytes.now }
{
    out[..bytes.len()].copy_from_slice(bytes);
    bytes.len()
}

/// Stores an array in a place of its length, which the compiler then has not to ask for.
#[inline(always)]
fn store<const N: usize>(bytes: [u8; N], place: &mut [u8])
    requires { length place.old ≡ N }
    ensures { place.new ≡ bytes.entry }
{
    match place.first_chunk_mut::<N>() {
        Some(array) => *array = bytes,
        None => unreachable!(),
    }
}

/// Writes an array to the front of the slice, leaves the rest, and answers its length. Asks for room
/// of that length. An array of known length goes from registers, without a place on the stack that `write_bytes` takes it from.
///
/// # Panics
/// May panic where it is not as asked.
#[inline(always)]
pub fn write_array<const N: usize>(bytes: [u8; N], out: &mut [u8]) -> usize
    requires { N ≤ length out.old }
    ensures len { result ≡ N }
    ensures after { Writes out.old out.new bytes.entry }
{
    store(bytes, &mut out[..N]);
    N
}
