//! The answer of a parser to bytes, as a line of text.

use crate::datagram::datagrams_answer;
use crate::stop::Stop;
use netlink_packet_route::framing::NlasIterator;
use netlink_packet_route::{MessageKind, Nest, canonical, validate};
use std::alloc::{AllocError, Global};

/// What the lines of a file are.
#[derive(Clone, Copy)]
pub enum Asked {
    /// Messages of a kind.
    Message(MessageKind),
    /// Datagrams, one behind the other.
    Datagrams,
}

impl Asked {
    /// What a word of the command line asks for, if it does.
    pub fn of(word: &str) -> Option<Asked> {
        if word == "datagrams" {
            return Some(Asked::Datagrams);
        }
        MessageKind::named(word).map(Asked::Message)
    }

    /// What is answered to the bytes of a line: what is written of them, `refused` with the name of
    /// the first fault, or `unfit` with the name of the cause.
    pub fn answer(self, alloc: Global, bytes: &[u8]) -> Result<String, AllocError> {
        let answered = match self {
            Asked::Message(kind) => message_answer(kind, alloc, bytes),
            Asked::Datagrams => datagrams_answer(alloc, bytes),
        };
        match answered {
            Ok(text) => Ok(text),
            Err(Stop::Memory) => Err(AllocError),
            Err(Stop::Refused(name)) => format!(in alloc; "refused {name}"),
            Err(Stop::Unfit(name)) => format!(in alloc; "unfit {name}"),
        }
    }
}

/// What is answered to a message of a kind, where `validate` says the same of it.
fn message_answer(kind: MessageKind, alloc: Global, bytes: &[u8]) -> Result<String, Stop> {
    let answered = canonical_answer(kind, alloc, bytes);
    let is_alike = match (&answered, validate(kind, bytes)) {
        (Err(Stop::Memory), _) => true,
        (Err(Stop::Refused(name)), Err(fault)) => *name == fault.name(),
        (Err(Stop::Refused(_)), Ok(())) => false,
        (_, told) => told.is_ok(),
    };
    if is_alike {
        return answered;
    }
    Ok(format!(in alloc; "validated otherwise")?)
}

/// `canonical` with the canonical bytes of a message of this kind in hexadecimal.
fn canonical_answer(kind: MessageKind, alloc: Global, bytes: &[u8]) -> Result<String, Stop> {
    let written = canonical(alloc, kind, bytes)?;
    if !is_seen(kind, bytes, written.as_slice()) {
        return Ok(format!(in alloc; "seen otherwise")?);
    }
    let digits = hex::encode(alloc, written)?;
    Ok(format!(in alloc; "canonical {digits}")?)
}

/// Whether the values that are seen of the bytes stand at the numbers of the attributes of the
/// canonical bytes.
fn is_seen(kind: MessageKind, bytes: &[u8], canonical: &[u8]) -> bool {
    let (Ok((nest, attributes)), Ok((_, wanted))) = (
        Nest::begin(kind, bytes),
        Nest::begin(kind, canonical),
    ) else {
        return false;
    };
    let mut wanted = NlasIterator::new(wanted);
    for attribute in NlasIterator::new(attributes) {
        let Ok(attribute) = attribute else {
            return false;
        };
        let Ok((at, _)) = nest.value(&attribute) else {
            return false;
        };
        match wanted.next() {
            Some(Ok(written)) if at.number == written.kind() => {}
            _ => return false,
        }
    }
    wanted.next().is_none()
}
