//! Structures, shown by the rows of their parts, and arrays of numbers.

use crate::field::{Fields, Word};
use crate::list::{List, Seen};
use crate::row::How::Number;
use crate::row::{Parts, Size};
use crate::value::push_plain;
use netlink_packet_route::framing::Value;

/// A range of ports, the lowest and the highest.
pub const PORTS: Parts = crate::parts![
    Be16 0 0 "low" "" Number;
    Be16 2 1 "high" "" Number;
];

/// The key of numbers behind those that have one.
pub const MORE: &str = "more";

impl Size {
    /// How many bytes a number of this size has.
    fn bytes(self) -> usize {
        match self {
            Size::U8 => 1,
            Size::U16 | Size::Be16 => 2,
            Size::U32 => 4,
            Size::U64 | Size::I64 => 8,
        }
    }

    /// The number of this size that stands at a place, if there are so many bytes.
    pub fn number_at(self, bytes: &[u8], at: usize) -> Option<u64> {
        let rest = bytes.get(at..)?;
        Some(match self {
            Size::U8 => u64::from(*rest.first()?),
            Size::U16 => u64::from(u16::from_le_bytes(*rest.first_chunk()?)),
            Size::U32 => u64::from(u32::from_le_bytes(*rest.first_chunk()?)),
            Size::U64 | Size::I64 => u64::from_le_bytes(*rest.first_chunk()?),
            Size::Be16 => u64::from(u16::from_be_bytes(*rest.first_chunk()?)),
        })
    }

    /// What a number of this size is.
    fn value(self, number: u64) -> Value<'static> {
        match self {
            Size::I64 => Value::I64(number.cast_signed()),
            _ => Value::U64(number),
        }
    }

    /// The number at this place of an array.
    pub fn number_in(self, bytes: &[u8], place: usize) -> Option<u64> {
        self.number_at(bytes, place.checked_mul(self.bytes())?)
    }
}

/// The number of four bytes that stands at a place: 0 where there are not so many.
pub fn number_at(bytes: &[u8], at: usize) -> u32 {
    match bytes.get(at..).unwrap_or(&[]).first_chunk() {
        Some(number) => u32::from_le_bytes(*number),
        None => 0,
    }
}

/// The parts of a structure, each a piece.
pub fn push_parts(fields: &mut Fields, list: List<'_>, bytes: &[u8], parts: Parts) {
    for part in parts {
        let at = part.row.number;
        if let Some(number) = part.size.number_at(bytes, usize::from(at)) {
            let seen = Seen {
                number: at,
                kind: at,
                bytes: &[],
                value: part.size.value(number),
            };
            push_plain(fields, list, &part.row, &seen);
        }
    }
}

/// The same as an object.
pub fn push_structure(fields: &mut Fields, list: List<'_>, word: Word, bytes: &[u8], parts: Parts) {
    let mut inside = Fields::new(fields.manner);
    push_parts(&mut inside, list, bytes, parts);
    fields.object(word, inside);
}

/// The numbers of an array, which have a sign, each by its key, and those behind them. What is too
/// short for one is left out.
pub fn push_numbers(inside: &mut Fields, size: Size, keys: &[&'static str], bytes: &[u8]) {
    let mut left = keys.iter();
    for place in 0..bytes.len() {
        let Some(number) = size.number_in(bytes, place) else {
            return;
        };
        let key = left.next().copied().unwrap_or(MORE);
        match (size, u32::try_from(number)) {
            (Size::U32, Ok(number)) => inside.counted(key, number.cast_signed()),
            _ => inside.counted(key, number.cast_signed()),
        }
    }
}

/// The same as an object.
pub fn push_keyed(
    fields: &mut Fields,
    word: Word,
    size: Size,
    keys: &[&'static str],
    bytes: &[u8],
) {
    let mut inside = Fields::new(fields.manner);
    push_numbers(&mut inside, size, keys, bytes);
    fields.object(word, inside);
}
