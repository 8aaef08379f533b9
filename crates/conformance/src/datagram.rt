//! The answer to datagrams, as a line of text.

use crate::stop::Stop;
use netlink_packet_route::envelope::{
    DoneMessage, ErrorMessage, NETLINK_HEADER_LEN, NLMSG_ALIGNTO, NLMSG_DONE, NLMSG_ERROR,
    NLMSG_NOOP, NLMSG_OVERRUN, NetlinkBuffer, NetlinkHeader, NetlinkIterator,
};
use netlink_packet_route::framing::{EmitError, to_vec};
use netlink_packet_route::{MessageType, canonical};
use std::alloc::Global;

/// What is told of datagrams.
#[derive(Drop)]
struct Whole {
    messages: u64,
    others: u64,
    written: Vec<u8>,
}

/// Of datagrams, one behind the other: `messages`, how many there are, `others`, how many of them the
/// library has no message for, and what is written of all in hexadecimal.
pub fn datagrams_answer(alloc: Global, bytes: &[u8]) -> Result<String, Stop> {
    let mut whole = Whole {
        messages: 0,
        others: 0,
        written: Vec::new(alloc),
    };
    for found in NetlinkIterator::new(bytes) {
        rewrite(alloc, &found?, &mut whole)?;
    }
    let (messages, others) = (whole.messages, whole.others);
    let digits = hex::encode(alloc, whole.written)?;
    Ok(format!(in alloc; "messages {messages} others {others} {digits}")?)
}

/// A message is read by its type, and written again with the length of what is written.
fn rewrite(alloc: Global, envelope: &NetlinkBuffer<'_>, whole: &mut Whole) -> Result<(), Stop> {
    let payload = payload_again(alloc, envelope)?;
    let size = NETLINK_HEADER_LEN.saturating_add(payload.len());
    let Ok(length) = u32::try_from(size) else {
        return Err(Stop::Unfit(EmitError::Total.name()));
    };
    let header = NetlinkHeader {
        length,
        ..envelope.header()
    };
    whole.messages = whole.messages.saturating_add(1);
    whole.others = whole
        .others
        .saturating_add(u64::from(is_other(envelope.message_type())));
    whole.written.extend_from_slice(&header.to_bytes())?;
    whole.written.extend_from_slice(payload.as_slice())?;
    let padding = size.wrapping_neg() % NLMSG_ALIGNTO;
    let end = whole.written.len().saturating_add(padding);
    whole.written.resize(end, 0)?;
    Ok(())
}

/// What is written behind the header of a message.
fn payload_again(alloc: Global, envelope: &NetlinkBuffer<'_>) -> Result<Vec<u8>, Stop> {
    let payload = envelope.payload();
    match envelope.message_type() {
        NLMSG_NOOP => Ok(Vec::new(alloc)),
        NLMSG_ERROR => Ok(to_vec(alloc, &ErrorMessage::parse(alloc, payload)?)?),
        NLMSG_DONE => Ok(to_vec(alloc, &DoneMessage::parse(alloc, payload)?)?),
        number => match MessageType::of(number).kind() {
            Some(kind) => Ok(canonical(alloc, kind, payload)?),
            None => Ok(payload.to_vec(alloc)?),
        },
    }
}

/// Whether the library has no message of this type.
fn is_other(message_type: u16) -> bool {
    match message_type {
        NLMSG_NOOP | NLMSG_ERROR | NLMSG_DONE | NLMSG_OVERRUN => false,
        number => MessageType::of(number).kind().is_none(),
    }
}
