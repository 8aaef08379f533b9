//! Lists of attributes where they stand, and what their values are.

ghost use Rattle.std.specs.Prelude.{◌≡◌, ◌+◌, IfSome};

use netlink_packet_route::framing::{NlaBuffer, NlasIterator, Value};
use netlink_packet_route::net::IpAddr;
use netlink_packet_route::{MessageKind, Nest};

/// What the header of a message says, on which values rest.
#[derive(Clone, Copy, Default)]
pub struct Head {
    /// The type of a link.
    pub of_type: u16,
    /// Whether a link has another end.
    pub is_to_peer: bool,
    /// The lengths of the prefixes of a route or a rule.
    pub to: Option<u8>,
    pub from: Option<u8>,
    /// Whether a message of traffic control is on a filter or a chain.
    pub is_filter: bool,
}

/// A list of attributes where it stands.
#[derive(Clone, Copy)]
pub struct List<'a> {
    /// Where.
    pub nest: Nest,
    /// The bytes.
    pub bytes: &'a [u8],
    /// The header.
    pub head: Head,
    /// How many lists may stand inside one another.
    pub depth: usize,
}

/// An attribute whose value was read.
#[derive(Clone, Copy)]
pub struct Seen<'a> {
    /// The number.
    pub number: u16,
    /// The same with its flags.
    pub kind: u16,
    /// The bytes of the value.
    pub bytes: &'a [u8],
    /// The value.
    pub value: Value<'a>,
}

impl<'a> List<'a> {
    /// The list behind the header of a message.
    pub fn of_message(kind: MessageKind, message: &'a [u8], head: Head) -> Option<List<'a>> {
        let (nest, bytes) = Nest::begin(kind, message).ok()?;
        Some(List {
            nest,
            bytes,
            head,
            depth: message.len(),
        })
    }

    /// The first attribute of this number, if there is one.
    pub fn first(self, number: u16) -> Option<Seen<'a>> {
        for next in NlasIterator::new(self.bytes) {
            match next {
                Ok(item) if item.kind() == number => return self.seen(&item),
                Ok(_) => {}
                Err(_) => return None,
            }
        }
        None
    }

    /// An attribute, where its value can be read.
    pub fn seen(self, item: &NlaBuffer<'a>) -> Option<Seen<'a>> {
        match self.nest.value(item) {
            Ok((_, value)) => Some(Seen {
                number: item.kind(),
                kind: item.raw_kind(),
                bytes: item.value(),
                value,
            }),
            Err(_) => None,
        }
    }

    /// The number that the first attribute of this number is: 0 where there is none.
    pub fn number(self, number: u16) -> u32 {
        match self.first(number) {
            Some(seen) => small(&seen.value),
            None => 0,
        }
    }

    /// The same, if there is one.
    pub fn number_if(self, number: u16) -> Option<u32> {
        match self.first(number) {
            Some(seen) => Some(small(&seen.value)),
            None => None,
        }
    }

    /// The name that the first attribute of this number is.
    pub fn name(self, number: u16) -> Option<&'a str> {
        match self.first(number) {
            Some(seen) => match seen.value {
                Value::Name(name) => Some(name),
                _ => None,
            },
            None => None,
        }
    }

    /// Whether the first attribute of this number is something.
    pub fn is_some(self, number: u16) -> bool {
        match self.first(number) {
            Some(seen) => !is_nothing(&seen.value),
            None => false,
        }
    }

    /// Whether there is an attribute of this number.
    pub fn has(self, number: u16) -> bool {
        self.first(number).is_some()
    }

    /// The list in an attribute.
    pub fn inside<'b>(self, seen: &Seen<'b>) -> Option<List<'b>>
        ensures { IfSome result (λ inner. inner.depth + 1 ≡ self.entry.depth) }
    {
        let depth = self.depth.checked_sub(1)?;
        let (nest, bytes) = self.nest.inside(seen.number, seen.bytes)?;
        Some(List {
            nest,
            bytes,
            head: self.head,
            depth,
        })
    }

    /// The list in this attribute, where its value can be read.
    pub fn inside_of<'b>(self, item: &NlaBuffer<'b>) -> Option<List<'b>> {
        match self.nest.value(item) {
            Ok(_) => {
                let (nest, bytes) = self.nest.inside(item.kind(), item.value())?;
                Some(List {
                    nest,
                    bytes,
                    head: self.head,
                    depth: self.depth,
                })
            }
            Err(_) => None,
        }
    }

    /// The list in the first attribute of this number.
    pub fn first_inside(self, number: u16) -> Option<List<'a>> {
        match self.first(number) {
            Some(seen) => self.inside(&seen),
            None => None,
        }
    }
}

/// The number that a value is: all but one without a number are below 2 ^ 32 where this is asked. A
/// mark without a value counts as 1.
pub fn small(value: &Value<'_>) -> u32 {
    match *value {
        Value::U8(number) => number.into(),
        Value::U16(number) => number.into(),
        Value::U32(number) => number,
        Value::I32(number) => number.cast_unsigned(),
        Value::U64(number) => u32::try_from(number).unwrap_or(u32::MAX),
        Value::Bool(is_so) => is_so.into(),
        Value::Nothing => 1,
        _ => 0,
    }
}

/// The number that a value is.
pub fn wide(value: &Value<'_>) -> u64 {
    match *value {
        Value::U64(number) => number,
        _ => small(value).into(),
    }
}

/// Whether a value is 0, or has nothing in it.
pub fn is_nothing(value: &Value<'_>) -> bool {
    match value {
        Value::Address(ip) => is_any(ip),
        Value::Name(text) => text.is_empty(),
        Value::Bytes(bytes) | Value::Structure(bytes) | Value::Inside(bytes) => bytes.is_empty(),
        _ => wide(value) == 0,
    }
}

/// Whether the address is 0.
fn is_any(ip: &IpAddr) -> bool {
    match ip {
        IpAddr::V4(ip) => ip.octets() == [0u8; 4],
        IpAddr::V6(ip) => ip.octets() == [0u8; 16],
    }
}

/// The bytes of a value that is no number.
pub fn bytes_of<'a>(value: &Value<'a>) -> &'a [u8] {
    match *value {
        Value::Bytes(bytes) | Value::Structure(bytes) | Value::Inside(bytes) => bytes,
        _ => &[],
    }
}

/// Whether a value is a list.
pub fn is_inside(value: &Value<'_>) -> bool {
    matches!(value, Value::Inside(_))
}
