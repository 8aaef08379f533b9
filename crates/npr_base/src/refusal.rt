//! Why bytes are refused, and why a value can't be written.

ghost use Rattle.std.specs.Prelude.{◌≡◌, Some};
ghost use Rattle.npr_base.specs.{declared.refusal.DecodeError.TheVariants.{OutOfMemory}, Refusal.{decode_name, emit_name, seg6_text}};

use crate::attribute_set::At;
use std::alloc::{AllocError, AllocFailed};
use std::fmt;
use thiserror::Error;

/// What is wrong with a SEG6 routing header (RFC 8754, section 2).
#[derive(Clone, Copy, Debug, PartialEq, Eq)]
pub enum Seg6Fault {
    /// Fewer bytes than the fixed part takes.
    Short,
    /// The length that it states is not the length that it has.
    Length,
    /// The HMAC flag is set, and no HMAC has room.
    Hmac,
    /// The segments are not whole.
    Segments,
}

impl fmt::Display for Seg6Fault {
    ghost output = { λ fault. Some (seg6_text fault) };

    fn fmt<W: fmt::Write>(&self, f: &mut fmt::Formatter<W>) -> fmt::Result {
        f.write_str(match self {
            Seg6Fault::Short => "without its fixed part",
            Seg6Fault::Length => "of another length than it states",
            Seg6Fault::Hmac => "without room for its HMAC",
            Seg6Fault::Segments => "of segments that are not whole",
        })
    }
}

/// Why bytes are not a value. Lengths are in bytes.
#[derive(Clone, Copy, Debug, Drop, PartialEq, Eq, Error)]
pub enum DecodeError {
    /// Memory was refused.
    #[error("out of memory")]
    OutOfMemory,
    /// A fixed header has `want` bytes, and `got` were there.
    #[error("{got} bytes, where a header of {want} is wanted")]
    HeaderTooShort {
        /// The bytes that were there.
        got: usize,
        /// The bytes of the header.
        want: usize,
    },
    /// The header of an attribute has 4 bytes, and `got` were there.
    #[error("{got} bytes, where an attribute begins with 4")]
    AttributeTooShort {
        /// The bytes that were there.
        got: usize,
    },
    /// An attribute's length is below 4, or above the bytes that are left.
    #[error("an attribute of length {length} with {left} bytes left")]
    AttributeLength {
        /// What its length says.
        length: u16,
        /// The bytes that are left.
        left: usize,
    },
    /// The header of a next hop has 8 bytes, and `got` were there.
    #[error("{got} bytes, where a next hop begins with 8")]
    NextHopTooShort {
        /// The bytes that were there.
        got: usize,
    },
    /// A next hop's length is below 8, or above the bytes that are left.
    #[error("a next hop of length {length} with {left} bytes left")]
    NextHopLength {
        /// What its length says.
        length: u16,
        /// The bytes that are left.
        left: usize,
    },
    /// A value of a length that its place doesn't take.
    #[error("a value of {got} bytes at {at}")]
    ValueLength {
        /// Where it stands.
        at: At,
        /// The bytes of the value.
        got: usize,
    },
    /// A name that is no UTF-8.
    #[error("no UTF-8 at {at}")]
    NotUtf8 {
        /// Where it stands.
        at: At,
    },
    /// A SEG6 routing header.
    #[error("a SEG6 routing header {fault}")]
    Seg6Header {
        /// What is wrong with it.
        fault: Seg6Fault,
    },
    /// A Geneve type or data before any class.
    #[error("Geneve option attribute {kind} before a class")]
    GeneveOrder {
        /// The attribute's number.
        kind: u16,
    },
    /// A child of a Geneve option of an unknown number.
    #[error("Geneve option attribute {kind} is unknown")]
    GeneveChild {
        /// The attribute's number.
        kind: u16,
    },
    /// An address family of a gateway that no byte holds.
    #[error("a gateway of address family {0}")]
    ViaFamily(u16),
    /// A routing header in a form that is not read.
    #[error("an unsupported header at {at}")]
    Unsupported {
        /// Where it stands.
        at: At,
    },
}

/// Why a value can't be written. Lengths are in bytes.
#[derive(Clone, Copy, Debug, Drop, PartialEq, Eq, Error)]
pub enum EmitError {
    /// The value of the attribute `kind` has more than 65,531 bytes.
    #[error("attribute {kind} with a value of {len} bytes")]
    TooLong {
        /// The attribute's number.
        kind: u16,
        /// The bytes of its value.
        len: usize,
    },
    /// A next hop has more than 65,535 bytes.
    #[error("a next hop of {len} bytes")]
    NextHopTooLong {
        /// Its bytes.
        len: usize,
    },
    /// A routing header with more segments than its length byte can say.
    #[error("{count} segments")]
    TooManySegments {
        /// How many.
        count: usize,
    },
    /// A protocol number that no byte holds.
    #[error("IP protocol {number}")]
    IpProtocol {
        /// The number.
        number: i32,
    },
    /// A length past the greatest `usize`.
    #[error("too many bytes in all")]
    Total,
}

impl DecodeError {
    /// The variant's name.
    pub fn name(&self) -> &'static str
        ensures { result.now ≡ decode_name self.now }
    {
        match self {
            DecodeError::OutOfMemory => "OutOfMemory",
            DecodeError::HeaderTooShort { .. } => "HeaderTooShort",
            DecodeError::AttributeTooShort { .. } => "AttributeTooShort",
            DecodeError::AttributeLength { .. } => "AttributeLength",
            DecodeError::NextHopTooShort { .. } => "NextHopTooShort",
            DecodeError::NextHopLength { .. } => "NextHopLength",
            DecodeError::ValueLength { .. } => "ValueLength",
            DecodeError::NotUtf8 { .. } => "NotUtf8",
            DecodeError::Seg6Header { .. } => "Seg6Header",
            DecodeError::GeneveOrder { .. } => "GeneveOrder",
            DecodeError::GeneveChild { .. } => "GeneveChild",
            DecodeError::ViaFamily(_) => "ViaFamily",
            DecodeError::Unsupported { .. } => "Unsupported",
        }
    }
}

impl EmitError {
    /// The variant's name.
    pub fn name(&self) -> &'static str
        ensures { result.now ≡ emit_name self.now }
    {
        match self {
            EmitError::TooLong { .. } => "TooLong",
            EmitError::NextHopTooLong { .. } => "NextHopTooLong",
            EmitError::TooManySegments { .. } => "TooManySegments",
            EmitError::IpProtocol { .. } => "IpProtocol",
            EmitError::Total => "Total",
        }
    }
}

impl From<AllocError> for DecodeError {
    ghost from_gives = { λ _ e. e ≡ OutOfMemory };

    fn from(_e: AllocError) -> DecodeError {
        DecodeError::OutOfMemory
    }
}

impl<T: Drop> From<AllocFailed<T>> for DecodeError {
    ghost from_gives = { λ _ e. e ≡ OutOfMemory };

    fn from(_e: AllocFailed<T>) -> DecodeError {
        DecodeError::OutOfMemory
    }
}
