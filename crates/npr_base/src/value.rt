//! Values of attributes that borrow from the bytes: read without memory.

ghost use Rattle.std.specs.Prelude.{◌≡◌, length, IfOk, IfErr};
ghost use Rattle.npr_base.specs.{Name.{name}, Value.{Shows, Misshown, Missized, shown}};

use crate::attribute_set::{At, AttributeSet};
use crate::ip::IpAddr;
use crate::refusal::DecodeError;
use crate::values::{
    leading_octets, read_bool, read_i32, read_i64, read_ip, read_ipv4, read_ipv6, read_u8,
    read_u16, read_u16_be, read_u32, read_u32_be, read_u64, read_u64_be, without_zero,
};
use crate::widths::{read_flag, read_uint};
use std::str::from_utf8;

/// How the value of an attribute is read: what a row of a family says of its bytes.
#[derive(Debug, Clone, Copy, PartialEq, Eq)]
pub enum Form {
    /// A number of one byte.
    Byte,
    /// A truth value of one byte: true above 0.
    Boolean,
    /// A signed number of four bytes, little endian.
    Signed32,
    /// A signed number of eight bytes, little endian.
    Signed64,
    /// A number of two bytes, little endian.
    Little16,
    /// A number of four bytes, little endian.
    Little32,
    /// A number of eight bytes, little endian.
    Little64,
    /// A number of two bytes, big endian.
    Big16,
    /// A number of four bytes, big endian.
    Big32,
    /// A number of eight bytes, big endian.
    Big64,
    /// A number of four bytes or of eight, little endian.
    Uint,
    /// A truth value: true without bytes, or as one above 0.
    Flag,
    /// An address of version 4.
    Octets4,
    /// An address of version 6.
    Octets16,
    /// An address of version 4 in four bytes, of version 6 in sixteen.
    Ip,
    /// A name: UTF-8, with one final zero, which may be missing.
    Name,
    /// Bytes as they stand.
    Raw,
    /// A structure of exactly so many bytes.
    Exactly(usize),
    /// A structure of so many bytes, behind which more may stand.
    Leading(usize),
    /// A list of attributes of this set, behind so many bytes. It is not read here.
    List(AttributeSet, usize),
    /// What else has a reader of its own. It is not read here.
    Inside,
    /// Nothing: the bytes are dropped.
    Dropped,
}

/// The value of an attribute, in the bytes where it stands. An enumeration or a set of flags is its
/// number.
#[derive(Debug, Clone, Copy, PartialEq, Eq)]
pub enum Value<'a> {
    /// A number of one byte.
    U8(u8),
    /// A number of two bytes.
    U16(u16),
    /// A number of four bytes.
    U32(u32),
    /// A number of eight bytes.
    U64(u64),
    /// A signed number of four bytes.
    I32(i32),
    /// A signed number of eight bytes.
    I64(i64),
    /// A truth value.
    Bool(bool),
    /// An address.
    Address(IpAddr),
    /// A name, without its final zero.
    Name(&'a str),
    /// Bytes as they stand.
    Bytes(&'a [u8]),
    /// The bytes of a structure, whose own `read` or `parse` gives its fields.
    Structure(&'a [u8]),
    /// The bytes of a list of attributes, or of what else has a reader of its own. They are not read
    /// yet, and can be faulty.
    Inside(&'a [u8]),
    /// Nothing.
    Nothing,
}

/// A name, where it stands: UTF-8, with one final zero taken off where there is one.
///
/// # Errors
/// `NotUtf8`.
#[inline(always)]
fn borrow_name(value: &[u8], at: At) -> Result<&str, DecodeError>
    ensures ok { IfOk result (λ text. name.Reads value.now text.now) }
    ensures refused { IfErr result (λ e. name.Wrong at value.now e) }
{
    match from_utf8(without_zero(value)) {
        Ok(text) => Ok(text),
        Err(_) => Err(DecodeError::NotUtf8 { at }),
    }
}

/// So many bytes, where they stand.
///
/// # Errors
/// `ValueLength` at another length.
#[inline(always)]
fn whole_octets(value: &[u8], size: usize, at: At) -> Result<&[u8], DecodeError>
    ensures ok { IfOk result (λ b. (length value.now ≡ size) × (b.now ≡ value.now)) }
    ensures refused { IfErr result (λ e. Missized size at value.now e) }
{
    if value.len() != size {
        return Err(DecodeError::ValueLength {
            at,
            got: value.len(),
        });
    }
    Ok(value)
}

/// The value in the bytes, read so. It takes no memory.
///
/// # Errors
/// What is wrong with the bytes; `at` is the attribute that holds them.
#[inline(always)]
pub fn read_form<'a>(form: Form, bytes: &'a [u8], at: At) -> Result<Value<'a>, DecodeError>
    ensures ok { IfOk result (λ v. Shows form bytes.now (shown v)) }
    ensures refused { IfErr result (λ e. Misshown form at bytes.now e) }
{
    Ok(match form {
        Form::Byte => Value::U8(read_u8(bytes, at)?),
        Form::Boolean => Value::Bool(read_bool(bytes, at)?),
        Form::Signed32 => Value::I32(read_i32(bytes, at)?),
        Form::Signed64 => Value::I64(read_i64(bytes, at)?),
        Form::Little16 => Value::U16(read_u16(bytes, at)?),
        Form::Little32 => Value::U32(read_u32(bytes, at)?),
        Form::Little64 => Value::U64(read_u64(bytes, at)?),
        Form::Big16 => Value::U16(read_u16_be(bytes, at)?),
        Form::Big32 => Value::U32(read_u32_be(bytes, at)?),
        Form::Big64 => Value::U64(read_u64_be(bytes, at)?),
        Form::Uint => Value::U64(read_uint(bytes, at)?),
        Form::Flag => Value::Bool(read_flag(bytes, at)?),
        Form::Octets4 => Value::Address(IpAddr::V4(read_ipv4(bytes, at)?)),
        Form::Octets16 => Value::Address(IpAddr::V6(read_ipv6(bytes, at)?)),
        Form::Ip => Value::Address(read_ip(bytes, at)?),
        Form::Name => Value::Name(borrow_name(bytes, at)?),
        Form::Raw => Value::Bytes(bytes),
        Form::Exactly(size) => Value::Structure(whole_octets(bytes, size, at)?),
        Form::Leading(size) => Value::Structure(leading_octets(bytes, size)?),
        Form::List(_, _) => Value::Inside(bytes),
        Form::Inside => Value::Inside(bytes),
        Form::Dropped => Value::Nothing,
    })
}
