//! The framing of attributes: four bytes of header, a value, and padding to a multiple of four.

ghost use Rattle.std.specs.{
  Prelude.{◌≡◌, ◌+◌, ◌%◌, ◌/◌, ◌^◌, ◌≤◌, ◌↔◌, ◌++◌, ◌<◌, [], IsTrue, length, take, drop, replicate, List, ℕ, Ok, Err, Some, None},
  Int.{w16, to_le_bytes},
  Iterator.{at_most},
  Cmp.{decided, partial_equiv_from_equiv},
};
ghost use Rattle.npr_base.specs.{
  ViewEquality.{same_item, item_equality, same_bytes, bytes_equality},
  Counts.{looked},
  Lists.{checked, short_framed, too_long},
  Framing.{Item, Begins, Step, Writes, encoding, framed, marked, number_of},
};

use crate::looks::Looks;
use crate::refusal::{DecodeError, EmitError};
use crate::values::write_array;
use std::marker::Model;

/// The flag of a kind that says that the value is a list of attributes (`linux/netlink.h`).
pub const NLA_F_NESTED: u16 = 0x8000;

/// The flag of a kind that says that the value is in network byte order (`linux/netlink.h`).
pub const NLA_F_NET_BYTEORDER: u16 = 0x4000;

/// The bits of a kind that are its number (`linux/netlink.h`).
pub const NLA_TYPE_MASK: u16 = 0x3fff;

/// The next attribute begins at a multiple of so many bytes (`linux/netlink.h`).
pub const NLA_ALIGNTO: usize = 4;

/// The bytes of an attribute's header (`linux/netlink.h`).
pub const NLA_HEADER_SIZE: usize = 4;

/// The most bytes that a value has: 16 bits hold its length and the header's.
const LONGEST_VALUE: usize = 65531;

/// One attribute, borrowed from the bytes that it stands in. Contracts see its kind with both
/// flags, and its value.
///
/// Layout (`linux/netlink.h`, `struct nlattr`), little endian: the length of header and value in
/// 2 bytes, the kind in 2 bytes, the value, and padding to a multiple of 4.
#[derive(Debug, Drop)]
pub struct NlaBuffer<'a> {
    kind: u16,
    value: &'a [u8],
}

impl<'a> Model for NlaBuffer<'a> {
    ghost Value = { Item };

    ghost view = { λ b. record { kind = b.kind; value = b.value.now } };

    ghost invariant = { λ b. length b.value.now ≤ 65531 };
}

impl<'a> NlaBuffer<'a> {
    /// The attribute in front of the bytes; padding is not looked at.
    ///
    /// # Errors
    /// `AttributeTooShort` below 4 bytes; `AttributeLength` where the length that the header
    /// states is below 4 or above the bytes that are there.
    pub fn new_checked(bytes: &'a [u8]) -> Result<Self, DecodeError>
        ensures { Begins bytes.now result }
    {
        if bytes.len() < NLA_HEADER_SIZE {
            return Err(DecodeError::AttributeTooShort { got: bytes.len() });
        }
        let length = u16::from_le_bytes([bytes[0], bytes[1]]);
        if length < 4 || length as usize > bytes.len() {
            return Err(DecodeError::AttributeLength {
                length,
                left: bytes.len(),
            });
        }
        let kind = u16::from_le_bytes([bytes[2], bytes[3]]);
        Ok(NlaBuffer {
            kind,
            value: &bytes[4..length as usize],
        })
    }

    /// The length of header and value, in bytes.
    pub fn length(&self) -> u16
        ensures { result ≡ 4 + length self.now.value }
    {
        self.value.len() as u16 + 4
    }

    /// The number: the low 14 bits of the kind.
    pub fn kind(&self) -> u16
        ensures { result ≡ number_of self.now.kind }
    {
        self.kind % NLA_F_NET_BYTEORDER
    }

    /// The kind with both flags.
    pub fn raw_kind(&self) -> u16
        ensures { result ≡ self.now.kind }
    {
        self.kind
    }

    /// Whether the kind has `NLA_F_NESTED`, bit 15.
    pub fn nested_flag(&self) -> bool
        ensures { IsTrue result ↔ (self.now.kind / 2 ^ 15 % 2 ≡ 1) }
    {
        self.kind / NLA_F_NESTED % 2 == 1
    }

    /// Whether the kind has `NLA_F_NET_BYTEORDER`, bit 14.
    pub fn network_byte_order_flag(&self) -> bool
        ensures { IsTrue result ↔ (self.now.kind / 2 ^ 14 % 2 ≡ 1) }
    {
        self.kind / NLA_F_NET_BYTEORDER % 2 == 1
    }

    /// The value, without header and padding.
    pub fn value(&self) -> &'a [u8]
        ensures { result.now ≡ self.now.value }
    {
        self.value
    }
}

impl<'a> PartialEq for NlaBuffer<'a> {
    ghost eq = { same_item };

    ghost laws = { partial_equiv_from_equiv (decided same_item item_equality) };

    fn eq(&self, other: &NlaBuffer<'a>) -> bool {
        self.kind == other.kind && self.value == other.value
    }
}

impl<'a> Eq for NlaBuffer<'a> {
    ghost laws = { decided same_item item_equality };
}

/// A walk over the attributes that stand one after the other. A fault is its last item. Contracts
/// see the bytes that are left.
#[derive(Debug, Drop)]
pub struct NlasIterator<'a> {
    rest: &'a [u8],
}

impl<'a> Model for NlasIterator<'a> {
    ghost Value = { List ℕ };

    ghost view = { λ i. i.rest.now };
}

impl<'a> NlasIterator<'a> {
    /// A walk over these bytes.
    pub fn new(bytes: &'a [u8]) -> Self
        ensures { result ≡ bytes.now }
    {
        NlasIterator { rest: bytes }
    }

    /// The bytes that haven't been walked: none after the end or a fault.
    pub fn rest(&self) -> &'a [u8]
        ensures { result.now ≡ self.now }
    {
        self.rest
    }

    fn step(&mut self) -> Option<Result<NlaBuffer<'a>, DecodeError>>
        ensures { Step self.old result self.new }
    {
        match NlaBuffer::new_checked(self.rest) {
            Ok(found) => {
                let whole = (found.length() as usize).next_multiple_of(NLA_ALIGNTO);
                let end = whole.min(self.rest.len());
                self.rest = &self.rest[end..];
                Some(Ok(found))
            }
            Err(_) if self.rest.is_empty() => None,
            Err(e) => {
                self.rest = &[];
                Some(Err(e))
            }
        }
    }

    /// `next`, with its look at a header counted.
    pub fn next_counted(&mut self, looks: &mut Looks) -> Option<Result<NlaBuffer<'a>, DecodeError>>
        ensures step { Step self.old result self.new }
        ensures counted { looks.new ≡ looked result looks.old }
    {
        let found = self.step();
        looks.count(&found);
        found
    }
}

impl<'a> Iterator for NlasIterator<'a> {
    type Item = Result<NlaBuffer<'a>, DecodeError>;

    ghost can_next = { λ _. Unit {0} };

    ghost next_gives = { λ s r t. Step s r t };

    // an attribute takes four bytes, and the bytes after the last leave room for one fault
    ghost remaining = { λ s. at_most ((length s + 3) / 4) };

    fn next(&mut self) -> Option<Result<NlaBuffer<'a>, DecodeError>> {
        self.step()
    }
}

impl<'a> PartialEq for NlasIterator<'a> {
    ghost eq = { same_bytes };

    ghost laws = { partial_equiv_from_equiv (decided same_bytes bytes_equality) };

    fn eq(&self, other: &NlasIterator<'a>) -> bool {
        self.rest == other.rest
    }
}

impl<'a> Eq for NlasIterator<'a> {
    ghost laws = { decided same_bytes bytes_equality };
}

/// The kind, with NESTED where it is wanted.
pub fn marked_kind(kind: u16, nested: bool) -> u16
    ensures { result ≡ marked nested kind }
{
    if nested {
        NLA_F_NESTED + kind % NLA_F_NESTED
    } else {
        kind
    }
}

/// The length of an encoding whose value has this length, where 16 bits hold that of header and
/// value.
#[inline(always)]
pub fn framed_len(len: usize) -> Option<usize>
    ensures { result ≡ short_framed len }
{
    if len > LONGEST_VALUE {
        return None;
    }
    Some((NLA_HEADER_SIZE + len).next_multiple_of(NLA_ALIGNTO))
}

/// The length of an encoding whose value has this length.
///
/// # Errors
/// `TooLong` above 65,531 bytes.
#[inline(always)]
pub fn check_len(kind: u16, len: usize) -> Result<usize, EmitError>
    ensures { result ≡ checked (too_long kind len) (framed len) }
{
    framed_len(len).ok_or(EmitError::TooLong { kind, len })
}

/// Writes so many zeros at the front of the slice, and leaves the rest. Asks that they are three at
/// most, which cost less one by one than a call to fill them, and for room.
///
/// # Panics
/// May panic where it is not as asked.
pub fn write_zeros(count: usize, out: &mut [u8])
    requires few { count < NLA_ALIGNTO }
    requires room { count ≤ length out.old }
    ensures { Writes out.old out.new (replicate count 0) }
{
    match count {
        0 => {}
        1 => {
            write_array([0], out);
        }
        2 => {
            write_array([0, 0], out);
        }
        _ => {
            write_array([0, 0, 0], out);
        }
    }
}

fn write_header(size: u16, kind: u16, out: &mut [u8])
    requires { 4 ≤ length out.old }
    ensures { Writes out.old out.new (to_le_bytes w16 size ++ to_le_bytes w16 kind) }
{
    write_array(size.to_le_bytes(), out);
    write_array(kind.to_le_bytes(), &mut out[2..]);
}

/// Writes the header in front of a value that stands already, and zeros after it to the next
/// multiple of four. Answers the length of all. Asks that `check_len` accepts the length of the value,
/// and for room of what it answers.
///
/// # Panics
/// May panic where it is not as asked.
pub fn frame(out: &mut [u8], kind: u16, len: usize) -> usize
    requires short { len ≤ 65531 }
    requires room { framed len ≤ length out.old }
    ensures len { result ≡ framed len }
    ensures after { Writes out.old out.new (encoding (record { kind = kind; value = take len (drop 4 out.old) })) }
{
    let size = NLA_HEADER_SIZE + len;
    let end = size.next_multiple_of(NLA_ALIGNTO);
    write_header(size as u16, kind, out);
    write_zeros(end - size, &mut out[size..]);
    end
}
