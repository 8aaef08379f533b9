//! Whether bytes are a message, and what is wrong with them.

ghost use Rattle.std.specs.Prelude.{◌≡◌, MatchOption, IfSome};
ghost use Rattle.{
  netlink_packet_route.specs.MessageKind.{form_of},
  npr_c.specs.{
    Faults.{IsJudged, fault_of, seg6_number, unknown_fault},
    Kinds.{kind_at},
    Nests.{set_number},
    Stops.{IsPlaced},
  },
};

use crate::answer::refusal_number;
use crate::kinds::{UNKNOWN_KIND, kind_at};
use crate::nests::set_number;
use netlink_packet_route::framing::{At, AttributeSet, DecodeError, Seg6Fault};
use netlink_packet_route::{MessageKind, locate};

/// A refusal with all that it tells, or that there is none.
///
/// Layout: two numbers of 4 bytes, two of 2 bytes, and three of the machine's word, in this order.
#[repr(C)]
#[derive(Clone, Copy)]
pub struct Fault {
    /// The number of the refusal, or 0 where the bytes are a message.
    pub number: u32,
    /// The number of the attribute's set where the refusal tells an attribute, and else 0.
    pub family: u32,
    /// The attribute's number there, without the two flags, and else 0.
    pub kind: u16,
    /// The address family of a gateway at `ViaFamily`, what is wrong with the header at
    /// `Seg6Header`, and else 0.
    pub detail: u16,
    /// The length that is stated, or how many bytes were there, and 0 where no length is told.
    pub length: usize,
    /// How many bytes are left, or are wanted, at a refusal with two lengths, and else 0.
    pub limit: usize,
    /// Where the first fault stands: where the attribute of the message begins that is wrong or holds
    /// what is, or where none can stand, in bytes from the first; 0 where the bytes are fewer than a
    /// header, and where they are a message.
    pub offset: usize,
}

const NO_FAULT: Fault = Fault {
    number: 0,
    family: 0,
    kind: 0,
    detail: 0,
    length: 0,
    limit: 0,
    offset: 0,
};

/// The number of what is wrong with a SEG6 routing header.
fn seg6_number(fault: Seg6Fault) -> u16
    ensures { result ≡ seg6_number fault }
{
    match fault {
        Seg6Fault::Short => 1,
        Seg6Fault::Length => 2,
        Seg6Fault::Hmac => 3,
        Seg6Fault::Segments => 4,
    }
}

impl Fault {
    /// All that a refusal tells by itself.
    fn of(refusal: DecodeError) -> Fault
        ensures { result ≡ fault_of refusal }
    {
        let fault = Fault {
            number: refusal_number(refusal),
            ..NO_FAULT
        };
        match refusal {
            DecodeError::OutOfMemory => fault,
            DecodeError::HeaderTooShort { got, want } => fault.with_lengths(got, want),
            DecodeError::AttributeTooShort { got } | DecodeError::NextHopTooShort { got } => {
                fault.with_lengths(got, 0)
            }
            DecodeError::AttributeLength { length, left }
            | DecodeError::NextHopLength { length, left } => {
                fault.with_lengths(length as usize, left)
            }
            DecodeError::ValueLength { at, got } => fault.at(at).with_lengths(got, 0),
            DecodeError::NotUtf8 { at } | DecodeError::Unsupported { at } => fault.at(at),
            DecodeError::GeneveOrder { kind } | DecodeError::GeneveChild { kind } => {
                fault.at(AttributeSet::Geneve.at(kind))
            }
            DecodeError::ViaFamily(family) => fault.with_detail(family),
            DecodeError::Seg6Header { fault: seg6 } => fault.with_detail(seg6_number(seg6)),
        }
    }

    fn with_lengths(self, length: usize, limit: usize) -> Fault
        ensures { result ≡ record self { length = length; limit = limit } }
    {
        Fault {
            length,
            limit,
            ..self
        }
    }

    fn with_detail(self, detail: u16) -> Fault
        ensures { result ≡ record self { detail = detail } }
    {
        Fault { detail, ..self }
    }

    /// With the place in the bytes.
    fn standing(self, offset: usize) -> Fault
        ensures { result ≡ record self { offset = offset } }
    {
        Fault { offset, ..self }
    }

    /// With the set and the number of an attribute.
    fn at(self, at: At) -> Fault
        ensures { result ≡ record self { family = set_number at.set; kind = at.number } }
    {
        Fault {
            family: set_number(at.set),
            kind: at.number,
            ..self
        }
    }
}

/// What is wrong with the bytes as a message of this kind.
fn judged(kind: MessageKind, bytes: &[u8]) -> Fault
    ensures fault { IsJudged (form_of kind).grammar bytes.now result }
    ensures place { IsPlaced kind bytes.now result }
{
    match locate(kind, bytes) {
        Ok(()) => NO_FAULT,
        Err(place) => Fault::of(place.refusal).standing(place.offset),
    }
}

/// What is wrong with the bytes as a message of the kind of this number and where it stands, or that they
/// are one. It takes no memory.
///
/// # Errors
/// `UnknownKind` at a number of no kind.
#[unsafe(no_mangle)]
pub extern "C" fn npr_fault_of(kind: u32, bytes: &[u8]) -> Fault
    ensures fault { MatchOption (kind_at kind) (result ≡ unknown_fault) (λ known. IsJudged (form_of known).grammar bytes.now result) }
    // Up to the place attributes read, and what stands there is wrong.
    ensures place { IfSome (kind_at kind) (λ known. IsPlaced known bytes.now result) }
{
    match kind_at(kind) {
        Some(known) => judged(known, bytes),
        None => Fault {
            number: UNKNOWN_KIND,
            ..NO_FAULT
        },
    }
}
