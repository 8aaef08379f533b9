//! What a call that writes answers, and the numbers of refusals and causes.

ghost use Rattle.std.specs.Prelude.{◌≡◌};
ghost use Rattle.npr_c.specs.{Answers.{refused_answer, refused_by, short_answer, unfit_answer, written_answer}, Numbers.{cause_number, refusal_number}};

use netlink_packet_route::framing::{DecodeError, EmitError};

/// What a call that writes answers.
///
/// Layout: two numbers of 4 bytes and one of the machine's word, in this order.
#[repr(C)]
#[derive(Clone, Copy)]
pub struct Answer {
    /// 0 where the bytes are written, 1 where the call is refused, 2 where the bytes can't be
    /// written, 3 where the buffer is too short.
    pub status: u32,
    /// The number of the refusal at status 1, of the cause at status 2, and else 0.
    pub number: u32,
    /// At status 0 and 3 how many canonical bytes there are, or the place behind what is written into a
    /// request, and else 0.
    pub length: usize,
}

impl Answer {
    /// Up to so many bytes are written.
    pub fn written(length: usize) -> Answer
        ensures { result ≡ written_answer length }
    {
        Answer {
            status: 0,
            number: 0,
            length,
        }
    }

    /// The call is refused by this number.
    pub fn refused_by(number: u32) -> Answer
        ensures { result ≡ refused_by number }
    {
        Answer {
            status: 1,
            number,
            length: 0,
        }
    }

    /// The bytes are refused.
    pub fn refused(fault: DecodeError) -> Answer
        ensures { result ≡ refused_answer fault }
    {
        Answer::refused_by(refusal_number(fault))
    }

    /// The bytes can't be written.
    pub fn unfit(cause: EmitError) -> Answer
        ensures { result ≡ unfit_answer cause }
    {
        Answer {
            status: 2,
            number: cause_number(cause),
            length: 0,
        }
    }

    /// So many bytes have no room.
    pub fn short(length: usize) -> Answer
        ensures { result ≡ short_answer length }
    {
        Answer {
            status: 3,
            number: 0,
            length,
        }
    }
}

/// The number of a refusal.
pub fn refusal_number(fault: DecodeError) -> u32
    ensures { result ≡ refusal_number fault }
{
    match fault {
        DecodeError::OutOfMemory => 1,
        DecodeError::HeaderTooShort { .. } => 2,
        DecodeError::AttributeTooShort { .. } => 3,
        DecodeError::AttributeLength { .. } => 4,
        DecodeError::NextHopTooShort { .. } => 5,
        DecodeError::NextHopLength { .. } => 6,
        DecodeError::ValueLength { .. } => 7,
        DecodeError::NotUtf8 { .. } => 8,
        DecodeError::Seg6Header { .. } => 9,
        DecodeError::GeneveOrder { .. } => 10,
        DecodeError::GeneveChild { .. } => 11,
        DecodeError::ViaFamily(_) => 12,
        DecodeError::Unsupported { .. } => 13,
    }
}

/// The number of a cause.
pub fn cause_number(cause: EmitError) -> u32
    ensures { result ≡ cause_number cause }
{
    match cause {
        EmitError::TooLong { .. } => 1,
        EmitError::NextHopTooLong { .. } => 2,
        EmitError::TooManySegments { .. } => 3,
        EmitError::IpProtocol { .. } => 4,
        EmitError::Total => 5,
    }
}
