//! What is asked of an answer: that what is written of a message is written of these bytes again, that
//! they are no longer than promised, and that `validate` says the same of the message.

use crate::datagrams::answer_to_datagram;
use crate::subject::Subject;
use netlink_packet_route::framing::DecodeError;
use netlink_packet_route::{CanonicalError, MessageKind, canonical, validate};
use std::alloc::{AllocError, Global};

/// What was answered to bytes.
#[derive(Clone, Copy, Debug, PartialEq, Eq, PartialOrd, Ord)]
pub enum Answer {
    /// A message that fits.
    Canonical,
    /// A refusal of this name.
    Refused(&'static str),
    /// A message that doesn't fit, for the cause of this name.
    Unfit(&'static str),
    /// Something that the library promises not to answer.
    Broken(&'static str),
}

/// The answer to a message of this kind, or to a datagram.
///
/// # Errors
/// `AllocError` where memory is refused.
pub fn answer_to(alloc: Global, subject: Subject, bytes: &[u8]) -> Result<Answer, AllocError> {
    match subject {
        Subject::Message(kind) => answer_to_message(alloc, kind, bytes),
        Subject::Datagram => answer_to_datagram(alloc, bytes),
    }
}

/// The answer to a message of this kind.
pub(crate) fn answer_to_message(
    alloc: Global,
    kind: MessageKind,
    bytes: &[u8],
) -> Result<Answer, AllocError> {
    let told = validate(kind, bytes);
    let out = match canonical(alloc, kind, bytes) {
        Ok(out) if told.is_ok() => out,
        Err(CanonicalError::Refused(DecodeError::OutOfMemory)) => return Err(AllocError),
        Err(CanonicalError::Unfit(cause)) if told.is_ok() => {
            return Ok(Answer::Unfit(cause.name()));
        }
        Err(CanonicalError::Refused(fault)) if told == Err(fault) => {
            return Ok(Answer::Refused(fault.name()));
        }
        _ => return Ok(Answer::Broken("validated otherwise")),
    };
    if out.len().saturating_mul(2) > bytes.len().saturating_mul(5) {
        return Ok(Answer::Broken("growth"));
    }
    answer_again(alloc, kind, out.as_slice())
}

/// The answer to canonical bytes, which are written as they stand.
fn answer_again(alloc: Global, kind: MessageKind, bytes: &[u8]) -> Result<Answer, AllocError> {
    match canonical(alloc, kind, bytes) {
        Ok(out) if out.as_slice() == bytes => Ok(Answer::Canonical),
        Ok(_) => Ok(Answer::Broken("written otherwise")),
        Err(CanonicalError::Refused(DecodeError::OutOfMemory)) => Err(AllocError),
        Err(_) => Ok(Answer::Broken("not read again")),
    }
}
