//! What is shown of a message by its envelope.

use crate::address::push_address;
use crate::address_label::push_address_label;
use crate::field::{Fields, Word, Wording};
use crate::link::push_link;
use crate::manner::Manner;
use crate::neighbour::push_neighbour;
use crate::neighbour_table::push_neighbour_table;
use crate::netconf::push_netconf;
use crate::next_hop::push_next_hop;
use crate::nsid::push_nsid;
use crate::prefix::push_prefix;
use crate::route::push_route;
use crate::rule::push_rule;
use crate::stats::push_stats;
use crate::traffic::{push_traffic, push_traffic_actions};
use netlink_packet_core::{
    NLM_F_REQUEST, NLMSG_DONE, NLMSG_ERROR, NLMSG_NOOP, NLMSG_OVERRUN, NetlinkBuffer,
    done_attributes, error_attributes, error_text, refused_message,
};
use netlink_packet_route::framing::DecodeError;
use netlink_packet_route::{Action, Located, MessageKind, MessageType, Subject, locate};
use std::alloc::AllocError;

/// What a message is.
const KIND: Word = &Wording(0, "message", "");

const DELETED: Word = &Wording(1, "deleted", "Deleted");

const REQUEST: Word = &Wording(1, "request", "Request");

/// A message that changes what is there, and one on other properties.
const SET: Word = &Wording(1, "set", "Set");

const PROPERTIES: Word = &Wording(1, "properties", "Properties");

/// A message on a bucket of a group of next hops.
const BUCKET: Word = &Wording(1, "is_bucket", "Bucket");

/// What a message of traffic control is on.
const SUBJECT: Word = &Wording(2, "subject", "");

const CODE: Word = &Wording(1, "code", "");

const TEXT: Word = &Wording(2, "text", "");

const REFUSED: Word = &Wording(3, "refused", "refused ");

const BYTES: Word = &Wording(4, "bytes", "bytes ");

const TYPE: Word = &Wording(1, "message_type", "type ");

const LENGTH: Word = &Wording(2, "length", "length ");

/// A message where it stands.
#[derive(Clone, Copy)]
pub struct Shown<'a> {
    /// Its kind, if it is one that the library reads.
    pub kind: Option<MessageKind>,
    /// What its type says.
    pub says: MessageType,
    /// Its type.
    pub message_type: u16,
    /// `NLM_F_*` of `linux/netlink.h`.
    pub flags: u16,
    /// What stands behind its envelope.
    pub payload: &'a [u8],
}

impl<'a> Shown<'a> {
    /// The message in this envelope.
    pub fn of(envelope: &NetlinkBuffer<'a>) -> Shown<'a> {
        let header = envelope.header();
        let says = MessageType::of(header.message_type);
        Shown {
            kind: says.kind(),
            says,
            message_type: header.message_type,
            flags: header.flags,
            payload: envelope.payload(),
        }
    }

    /// A message of this kind without an envelope, as one that says that it is there.
    pub fn lone(kind: MessageKind, payload: &'a [u8]) -> Shown<'a> {
        Shown {
            kind: Some(kind),
            says: new_of(kind),
            message_type: 0,
            flags: 0,
            payload,
        }
    }

    /// Whether it can be shown. It takes no memory.
    ///
    /// # Errors
    /// The first fault of a message that the library reads, with its place in the payload;
    /// `HeaderTooShort` of an error or an end without a whole code.
    pub fn check(&self) -> Result<(), Located> {
        match self.kind {
            Some(kind) => locate(kind, self.payload),
            None => match (self.message_type, self.payload.len()) {
                (NLMSG_ERROR, got @ 0..4) | (NLMSG_DONE, got @ 1..4) => Err(Located {
                    refusal: DecodeError::HeaderTooShort { got, want: 4 },
                    offset: 0,
                    holder: None,
                    wanted: None,
                }),
                _ => Ok(()),
            },
        }
    }
}

/// What the type of a message of this kind says that says that something is there.
fn new_of(kind: MessageKind) -> MessageType {
    let subject = match kind {
        MessageKind::Address => Subject::Address,
        MessageKind::Route => Subject::Route,
        MessageKind::Rule => Subject::Rule,
        MessageKind::Neighbour => Subject::Neighbour,
        MessageKind::Link => Subject::Link,
        MessageKind::NextHop => Subject::NextHop,
        MessageKind::Nsid => Subject::Nsid,
        MessageKind::Netconf => Subject::Netconf,
        MessageKind::AddressLabel => Subject::AddressLabel,
        MessageKind::NeighbourTable => return MessageType::NewNeighbourTable,
        MessageKind::Prefix => return MessageType::NewPrefix,
        MessageKind::Stats => return MessageType::NewStats,
        // Only its type says what it is on.
        MessageKind::Tc => return MessageType::Unknown,
        MessageKind::TcAction => Subject::TrafficAction,
    };
    MessageType::Of(subject, Action::New)
}

/// What is shown of a message.
pub fn message_fields<'a>(manner: Manner<'a>, message: Shown<'_>) -> Fields<'a> {
    let mut fields = Fields::new(manner);
    match message.kind {
        Some(kind) => {
            push_payload(&mut fields, kind, message);
            push_type(&mut fields, kind, message);
        }
        None => push_control(&mut fields, message),
    }
    fields
}

/// Ends, errors and the like, and messages of other types.
fn push_control(fields: &mut Fields, message: Shown<'_>) {
    let bytes = message.payload;
    match message.message_type {
        NLMSG_NOOP => fields.text(KIND, &"noop"),
        NLMSG_ERROR => push_error(fields, message.flags, bytes),
        NLMSG_DONE => push_done(fields, message.flags, bytes),
        NLMSG_OVERRUN => {
            fields.text(KIND, &"overrun");
            fields.bytes(BYTES, bytes);
        }
        message_type => {
            fields.text(KIND, &"other");
            fields.number(TYPE, message_type);
            fields.number(LENGTH, bytes.len() as u64);
        }
    }
}

/// The code in front, and what stands behind it; without bytes the code is 0.
fn code_of(bytes: &[u8]) -> (i32, &[u8]) {
    match bytes.split_first_chunk::<4>() {
        Some((code, more)) => (i32::from_le_bytes(*code), more),
        None => (0, &[]),
    }
}

fn push_done(fields: &mut Fields, flags: u16, bytes: &[u8]) {
    let (code, more) = code_of(bytes);
    fields.text(KIND, &"done");
    fields.number(CODE, code);
    fields.hide_if(code == 0);
    push_text(fields, done_attributes(flags, more));
}

fn push_error(fields: &mut Fields, flags: u16, bytes: &[u8]) {
    let (code, more) = code_of(bytes);
    fields.text(KIND, &"error");
    fields.number(CODE, code);
    push_text(fields, error_attributes(flags, more));
    fields.bytes(REFUSED, refused_message(flags, more));
}

/// What the kernel says in words, if anything.
fn push_text(fields: &mut Fields, attributes: &[u8]) {
    let Some(words) = error_text(attributes) else {
        return;
    };
    match String::from_utf8_lossy(fields.manner.alloc, words) {
        Ok(text) => fields.text(TEXT, &text),
        Err(AllocError) => fields.refuse(),
    }
}

fn push_payload(fields: &mut Fields, kind: MessageKind, message: Shown<'_>) {
    let bytes = message.payload;
    match kind {
        MessageKind::Address => push_address(fields, bytes),
        MessageKind::Route => push_route(fields, bytes),
        MessageKind::Rule => push_rule(fields, bytes),
        MessageKind::Neighbour => push_neighbour(fields, bytes),
        MessageKind::Link => push_link(fields, bytes),
        MessageKind::NextHop => push_next_hop(fields, bytes, is_bucket(message.says)),
        MessageKind::Nsid => push_nsid(fields, bytes),
        MessageKind::Netconf => push_netconf(fields, bytes),
        MessageKind::AddressLabel => push_address_label(fields, bytes),
        MessageKind::NeighbourTable => push_neighbour_table(fields, bytes),
        MessageKind::Prefix => push_prefix(fields, bytes),
        MessageKind::Tc => push_traffic(fields, bytes, subject_of(message.says)),
        MessageKind::TcAction => push_traffic_actions(fields, bytes),
        MessageKind::Stats => push_stats(fields, bytes),
    }
}

/// What its type says that a message is on.
fn subject_of(says: MessageType) -> Option<Subject> {
    match says {
        MessageType::Of(subject, _) => Some(subject),
        _ => None,
    }
}

fn is_bucket(says: MessageType) -> bool {
    matches!(says, MessageType::Of(Subject::NextHopBucket, _))
}

/// What its type says of a message: its kind, and what it does.
fn push_type(fields: &mut Fields, kind: MessageKind, message: Shown<'_>) {
    fields.text(KIND, &kind.name());
    fields.hide();
    match message.says {
        // A kernel answers a dump of actions under the type that asks for it.
        MessageType::Of(Subject::TrafficAction, Action::Get)
            if message.flags & NLM_F_REQUEST == 0 => {}
        MessageType::Of(subject, action) => {
            push_action(fields, action);
            push_subject(fields, subject, action);
        }
        MessageType::SetLink | MessageType::SetNeighbourTable => fields.truth(SET, true),
        MessageType::GetNeighbourTable => fields.truth(REQUEST, true),
        MessageType::NewPrefix
        | MessageType::NewStats
        | MessageType::NewNeighbourTable
        | MessageType::Unknown => {}
    }
}

/// What a message is on, where its kind does not tell it. What stands in a message on a bucket tells
/// it in a line, but for a request.
fn push_subject(fields: &mut Fields, subject: Subject, action: Action) {
    match subject {
        Subject::LinkProp => fields.truth(PROPERTIES, true),
        Subject::NextHopBucket => {
            fields.truth(BUCKET, true);
            fields.hide_if(action != Action::Get);
        }
        Subject::QueueDiscipline => fields.text(SUBJECT, &"qdisc"),
        Subject::TrafficClass => fields.text(SUBJECT, &"class"),
        Subject::TrafficFilter => fields.text(SUBJECT, &"filter"),
        Subject::TrafficChain => fields.text(SUBJECT, &"chain"),
        _ => {}
    }
}

/// What a message does.
fn push_action(fields: &mut Fields, action: Action) {
    match action {
        Action::New => {}
        Action::Del => fields.truth(DELETED, true),
        Action::Get => fields.truth(REQUEST, true),
    }
}
