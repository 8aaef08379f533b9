//! Writing one message again, and of a route parsing it, cloning it, and reading its attributes one after
//! the other.

use hex::decode_to_slice;
use netlink_packet_route::framing::{
    DecodeError, Emitable, Header, Message, Parseable, ParseableParametrized,
};
use netlink_packet_route::route::{RouteLwEnCapType, RouteMessage, RouteNextHop, RouteType};
use netlink_packet_route::{
    AddressFamily, CanonicalError, MessageKind, WriteCanonicalError, canonical, write_canonical,
};
use std::alloc::{AllocError, Global};

/// How a call ended.
#[derive(Clone, Copy)]
pub enum Ending {
    /// As it should, where there is memory.
    Done,
    /// With want of memory.
    OutOfMemory,
    /// Otherwise, which is wrong.
    Wrong,
    /// There was nothing to call it on.
    NotCalled,
}

impl Ending {
    /// How a reading with this fault ended.
    fn of(fault: DecodeError) -> Ending {
        match fault {
            DecodeError::OutOfMemory => Ending::OutOfMemory,
            _ => Ending::Wrong,
        }
    }

    /// A name to be printed.
    pub fn name(self) -> &'static str {
        match self {
            Ending::Done => "done",
            Ending::OutOfMemory => "out of memory",
            Ending::Wrong => "WRONG",
            Ending::NotCalled => "not called",
        }
    }
}

/// How each call ended that was tried.
#[derive(Clone, Copy)]
pub struct Endings {
    /// Writing the message again.
    pub canonical: Option<Ending>,
    /// Writing it again to a buffer.
    pub written: Option<Ending>,
    /// Parsing.
    pub parsed: Option<Ending>,
    /// Cloning what was parsed.
    pub cloned: Option<Ending>,
    /// Reading the attributes one after the other, without a list.
    pub walked: Option<Ending>,
}

impl Endings {
    /// None was tried.
    const NONE: Endings = Endings {
        canonical: None,
        written: None,
        parsed: None,
        cloned: None,
        walked: None,
    };

    /// The row is no message as text.
    fn no_text() -> Endings {
        Endings {
            canonical: Some(Ending::Wrong),
            ..Endings::NONE
        }
    }

    /// Each by the name of the call.
    pub fn by_name(self) -> [(&'static str, Option<Ending>); 5] {
        [
            ("canonical", self.canonical),
            ("write", self.written),
            ("parse", self.parsed),
            ("clone", self.cloned),
            ("walk", self.walked),
        ]
    }
}

/// A value that is parsed from bytes, and cloned.
trait Sample: Emitable + PartialEq + Drop + Sized {
    /// The value of the bytes.
    ///
    /// # Errors
    /// `OutOfMemory` where memory is refused, and else the first fault.
    fn of(alloc: Global, bytes: &[u8]) -> Result<Self, DecodeError>;

    /// An equal value.
    ///
    /// # Errors
    /// `AllocError` where memory is refused.
    fn copy(&self, alloc: Global) -> Result<Self, AllocError>;
}

impl<H: Header + PartialEq> Sample for Message<H, H::Attribute>
where
    H::Attribute: PartialEq,
{
    fn of(alloc: Global, bytes: &[u8]) -> Result<Self, DecodeError> {
        Message::<H, H::Attribute>::parse(alloc, bytes)
    }

    fn copy(&self, alloc: Global) -> Result<Self, AllocError> {
        self.try_clone(alloc)
    }
}

impl Sample for RouteNextHop {
    fn of(alloc: Global, bytes: &[u8]) -> Result<Self, DecodeError> {
        let context = (
            AddressFamily::Inet,
            RouteType::Unicast,
            RouteLwEnCapType::None,
        );
        RouteNextHop::parse_with_param(alloc, bytes, context)
    }

    fn copy(&self, alloc: Global) -> Result<Self, AllocError> {
        self.try_clone(alloc)
    }
}

/// The most bytes of a message that stands as text.
const ROOM: usize = 128;

/// How each call ended on a message of this kind: of a route those on its type too.
pub fn try_message(alloc: Global, kind: MessageKind, text: &str, canonical: &str) -> Endings {
    let mut bytes = [0u8; ROOM];
    let mut wanted = [0u8; ROOM];
    let (Some(bytes), Some(wanted)) = (decoded(text, &mut bytes), decoded(canonical, &mut wanted))
    else {
        return Endings::no_text();
    };
    let room = &mut [0u8; ROOM];
    let of_type = match kind {
        MessageKind::Route => on_route(alloc, bytes, wanted, room),
        _ => Endings::NONE,
    };
    Endings {
        canonical: Some(again(alloc, kind, bytes, wanted)),
        written: Some(again_to_buffer(alloc, kind, bytes, wanted, room)),
        ..of_type
    }
}

/// How each call ended on a next hop by itself.
pub fn try_next_hop(alloc: Global, text: &str, canonical: &str) -> Endings {
    let mut bytes = [0u8; ROOM];
    let mut wanted = [0u8; ROOM];
    let (Some(bytes), Some(wanted)) = (decoded(text, &mut bytes), decoded(canonical, &mut wanted))
    else {
        return Endings::no_text();
    };
    let (parsed, cloned) = parse_and_clone::<RouteNextHop>(alloc, bytes, wanted, &mut [0u8; ROOM]);
    Endings {
        parsed: Some(parsed),
        cloned: Some(cloned),
        ..Endings::NONE
    }
}

/// The bytes of hexadecimal text, at the beginning of the room.
fn decoded<'a>(text: &str, room: &'a mut [u8]) -> Option<&'a [u8]> {
    let count = text.len() / 2;
    let bytes = room.get_mut(..count)?;
    decode_to_slice(text, bytes).ok()?;
    Some(bytes)
}

/// Next hops in one another, as many as a length of two bytes lets stand.
const LEVELS: u16 = 5_461;

/// The bytes of a message that holds them: a header, and twelve bytes for each.
const LEVELS_ROOM: usize = 65_544;

/// How each call on its type ended on a route of next hops inside next hops.
pub fn try_levels(alloc: Global) -> Endings {
    let mut bytes = [0u8; LEVELS_ROOM];
    write_levels(&mut bytes);
    on_route(alloc, &bytes, &bytes, &mut [0u8; LEVELS_ROOM])
}

fn write_levels(bytes: &mut [u8]) {
    let header = [2, 0, 0, 0, 254, 3, 0, 1, 0, 0, 0, 0];
    let mut left = LEVELS.saturating_mul(12);
    for (index, level) in bytes.chunks_exact_mut(12).enumerate() {
        if index == 0 {
            level.copy_from_slice(&header);
            continue;
        }
        let [a, b] = left.to_le_bytes();
        let [c, d] = left.saturating_sub(4).to_le_bytes();
        level.copy_from_slice(&[a, b, 9, 0, c, d, 0, 0, 1, 0, 0, 0]);
        left = left.saturating_sub(12);
    }
}

/// How each call on the type of a route ended.
fn on_route(alloc: Global, bytes: &[u8], wanted: &[u8], room: &mut [u8]) -> Endings {
    let (parsed, cloned) = parse_and_clone::<RouteMessage>(alloc, bytes, wanted, room);
    Endings {
        parsed: Some(parsed),
        cloned: Some(cloned),
        walked: Some(walk(alloc, bytes)),
        ..Endings::NONE
    }
}

/// How writing a message again ended.
fn again(alloc: Global, kind: MessageKind, bytes: &[u8], wanted: &[u8]) -> Ending {
    match canonical(alloc, kind, bytes) {
        Ok(out) if out.as_slice() == wanted => Ending::Done,
        Err(CanonicalError::Refused(fault)) => Ending::of(fault),
        _ => Ending::Wrong,
    }
}

/// How writing it again to a buffer ended, which takes no memory for what is written.
fn again_to_buffer(
    alloc: Global,
    kind: MessageKind,
    bytes: &[u8],
    wanted: &[u8],
    room: &mut [u8],
) -> Ending {
    match write_canonical(alloc, kind, bytes, room) {
        Ok(count) if room.get(..count) == Some(wanted) => Ending::Done,
        Err(WriteCanonicalError::Canonical(CanonicalError::Refused(fault))) => Ending::of(fault),
        _ => Ending::Wrong,
    }
}

/// How reading the attributes of a route one after the other ended.
fn walk(alloc: Global, bytes: &[u8]) -> Ending {
    let Ok(attributes) = RouteMessage::attributes(alloc, bytes) else {
        return Ending::Wrong;
    };
    for attribute in attributes {
        if let Err(fault) = attribute {
            return Ending::of(fault);
        }
    }
    Ending::Done
}

/// How parsing the bytes and then cloning what was read ended.
fn parse_and_clone<S: Sample>(
    alloc: Global,
    bytes: &[u8],
    canonical: &[u8],
    room: &mut [u8],
) -> (Ending, Ending) {
    match S::of(alloc, bytes) {
        Ok(sample) if is_written(&sample, canonical, room) => {
            (Ending::Done, clone(alloc, &sample, canonical, room))
        }
        Ok(_) => (Ending::Wrong, Ending::NotCalled),
        Err(fault) => (Ending::of(fault), Ending::NotCalled),
    }
}

/// How cloning a value that is written as these bytes ended.
fn clone<S: Sample>(alloc: Global, sample: &S, canonical: &[u8], room: &mut [u8]) -> Ending {
    let ending = match sample.copy(alloc) {
        Ok(copy) if copy == *sample => Ending::Done,
        Ok(_) => Ending::Wrong,
        Err(AllocError) => Ending::OutOfMemory,
    };
    // The value that was cloned is what it was.
    if is_written(sample, canonical, room) {
        ending
    } else {
        Ending::Wrong
    }
}

/// The value is written as these bytes, into the room, without memory.
fn is_written<S: Sample>(sample: &S, canonical: &[u8], room: &mut [u8]) -> bool {
    let Ok(count) = sample.check() else {
        return false;
    };
    let Some(out) = room.get_mut(..count) else {
        return false;
    };
    sample.emit(out);
    *out == *canonical
}
