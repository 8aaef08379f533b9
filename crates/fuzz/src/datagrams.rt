//! What is asked of the messages of a datagram: that what is written of each that is read is written of
//! these bytes again, that each by itself is a datagram, that a walk ends, and that a conversation
//! answers what the walk finds.

use crate::asking::{Answer, answer_to_message};
use crate::making::pad;
use netlink_packet_route::MessageType;
use netlink_packet_route::envelope::{
    Answer as Heard, Conversation, DoneMessage, End, EnvelopeError, ErrorMessage, NLMSG_DONE,
    NLMSG_ERROR, NetlinkBuffer, NetlinkIterator,
};
use netlink_packet_route::framing::{DecodeError, Emitable, WriteError, to_vec};
use std::alloc::{AllocError, Global};

/// The last of the answers to the messages of a datagram, in the order of `Answer`.
///
/// # Errors
/// `AllocError` where memory is refused.
pub fn answer_to_datagram(alloc: Global, bytes: &[u8]) -> Result<Answer, AllocError> {
    let mut last = Answer::Canonical;
    let mut steps = 0usize;
    for found in NetlinkIterator::new(bytes) {
        steps = steps.saturating_add(1);
        let answer = match found {
            Ok(envelope) => answer_to_envelope(alloc, &envelope)?,
            Err(EnvelopeError::MessageTooShort { .. }) => Answer::Refused("MessageTooShort"),
            Err(EnvelopeError::MessageLength { .. }) => Answer::Refused("MessageLength"),
        };
        last = last.max(answer);
    }
    if steps > bytes.len().div_ceil(16) {
        return Ok(Answer::Broken("steps"));
    }
    if !is_heard(bytes) {
        return Ok(Answer::Broken("conversation"));
    }
    Ok(last)
}

/// The answer to one message.
fn answer_to_envelope(alloc: Global, envelope: &NetlinkBuffer<'_>) -> Result<Answer, AllocError> {
    if !is_datagram(alloc, envelope)? {
        return Ok(Answer::Broken("no message of a datagram"));
    }
    let payload = envelope.payload();
    match envelope.message_type() {
        NLMSG_ERROR => answer_to_reply(alloc, ErrorMessage::parse(alloc, payload), payload),
        // without bytes it is the code 0
        NLMSG_DONE if payload.is_empty() => {
            answer_to_reply(alloc, DoneMessage::parse(alloc, payload), &[0; 4])
        }
        NLMSG_DONE => answer_to_reply(alloc, DoneMessage::parse(alloc, payload), payload),
        number => match MessageType::of(number).kind() {
            Some(kind) => answer_to_message(alloc, kind, payload),
            None => Ok(Answer::Canonical),
        },
    }
}

/// The answer to an error or an end, which is written as these bytes.
fn answer_to_reply<M: Emitable + Drop>(
    alloc: Global,
    read: Result<M, DecodeError>,
    bytes: &[u8],
) -> Result<Answer, AllocError> {
    let message = match read {
        Ok(message) => message,
        Err(DecodeError::OutOfMemory) => return Err(AllocError),
        Err(fault) => return Ok(Answer::Refused(fault.name())),
    };
    match to_vec(alloc, &message) {
        Ok(out) if out.as_slice() == bytes => Ok(Answer::Canonical),
        Ok(_) => Ok(Answer::Broken("written otherwise")),
        Err(WriteError::OutOfMemory) => Err(AllocError),
        Err(WriteError::Unfit(cause)) => Ok(Answer::Unfit(cause.name())),
    }
}

/// Whether a message, written by itself, is all of a datagram.
fn is_datagram(alloc: Global, envelope: &NetlinkBuffer<'_>) -> Result<bool, AllocError> {
    let mut bytes = Vec::new(alloc);
    bytes.extend_from_slice(&envelope.header().to_bytes())?;
    bytes.extend_from_slice(envelope.payload())?;
    pad(&mut bytes)?;
    let mut walk = NetlinkIterator::new(bytes.as_slice());
    let is_found = matches!(walk.next(), Some(Ok(found)) if found == *envelope);
    Ok(is_found && walk.next().is_none())
}

/// Whether a conversation of number 7 answers each message that the walk finds, up to its end, and
/// nothing then.
fn is_heard(bytes: &[u8]) -> bool {
    let mut conversation = Conversation::new(7, 0);
    let mut heard = NetlinkIterator::new(bytes);
    for found in NetlinkIterator::new(bytes) {
        let is_right = match (conversation.next(&mut heard), found) {
            (Some(Heard::Message(a)), Ok(b)) => a == b && b.sequence_number() == 7,
            (Some(Heard::Foreign(a)), Ok(b)) => a == b && b.sequence_number() != 7,
            (Some(Heard::Ended(End::Broken(e))), Err(fault)) => e == fault,
            (Some(Heard::Ended(_)), Ok(b)) => (2..5).contains(&b.message_type()),
            _ => false,
        };
        if !is_right {
            return false;
        }
        if conversation.is_over() {
            break;
        }
    }
    conversation.next(&mut heard).is_none()
}
