//! The answer to a request: which messages of the datagrams that come are of it, and how it ends.

ghost use Rattle.std.specs.Prelude.{◌≡◌, false, Ok};
ghost use Rattle.netlink_packet_core.specs.Conversation.{Talk, asked, event_of, outcome_of, said, after, belongs, error_outcome, done_outcome, Hears};

use crate::buffer::NetlinkBuffer;
use crate::constants::{NLM_F_DUMP_INTR, NLMSG_DONE, NLMSG_ERROR, NLMSG_OVERRUN};
use crate::extended::{done_attributes, error_attributes, has_flag};
use crate::payload::{split_code, split_end};
use crate::refusal::EnvelopeError;
use crate::walk::NetlinkIterator;
use std::marker::Model;

/// How an answer ends.
#[derive(Debug, Drop)]
pub enum End<'a> {
    /// The dump is whole.
    Done,
    /// The request was done: an error of the code 0.
    Acknowledged,
    /// The request was refused, with the code of the error, below 0, and the attributes of an
    /// extended answer.
    Refused {
        /// A negative error of `linux/errno.h`.
        code: i32,
        /// `NLMSGERR_ATTR_*` of `linux/netlink.h`, in an extended answer.
        attributes: &'a [u8],
    },
    /// The dump is over, and a part of it said that the tables changed: ask again.
    Interrupted,
    /// Data were lost.
    Overrun,
    /// A datagram has bytes that are no message.
    Broken(EnvelopeError),
    /// An error has fewer than the 4 bytes of its code, or an end has 1 to 3.
    Cut,
}

/// What is said of a message that came.
#[derive(Debug, Drop)]
pub enum Answer<'a> {
    /// It is of the answer.
    Message(NetlinkBuffer<'a>),
    /// It has another number or another port.
    Foreign(NetlinkBuffer<'a>),
    /// The answer ends.
    Ended(End<'a>),
}

/// A conversation with the kernel: the request, and a few words on what came. It takes no memory.
/// Contracts see what is kept.
#[derive(Debug, Drop)]
pub struct Conversation {
    sequence_number: u32,
    port_number: u32,
    interrupted: bool,
    over: bool,
}

impl Model for Conversation {
    ghost Value = { Talk };

    ghost view = { λ c. record { sequence_number = c.sequence_number; port_number = c.port_number; interrupted = c.interrupted; over = c.over } };
}

impl Conversation {
    /// The conversation that a request of this number begins, from a socket of this port, or of any
    /// where it is 0.
    pub fn new(sequence_number: u32, port_number: u32) -> Self
        ensures { result ≡ asked sequence_number port_number }
    {
        Conversation {
            sequence_number,
            port_number,
            interrupted: false,
            over: false,
        }
    }

    /// The conversation of a caller that keeps its words itself: what `new` begins, and whether a part of
    /// the answer said that the tables changed.
    pub fn resumed(sequence_number: u32, port_number: u32, interrupted: bool) -> Self
        ensures { result ≡ record (asked sequence_number port_number) { interrupted = interrupted } }
    {
        Conversation {
            sequence_number,
            port_number,
            interrupted,
            over: false,
        }
    }

    /// Whether a part of the answer said that the tables changed.
    pub fn is_interrupted(&self) -> bool
        ensures { result ≡ self.now.interrupted }
    {
        self.interrupted
    }

    /// Whether the end has come.
    pub fn is_over(&self) -> bool
        ensures { result ≡ self.now.over }
    {
        self.over
    }

    /// Whether a message has the number of the request, and its port.
    fn owns(&self, message: &NetlinkBuffer<'_>) -> bool
        ensures { result ≡ belongs self.now message.now }
    {
        message.sequence_number() == self.sequence_number
            && (self.port_number == 0 || message.port_number() == self.port_number)
    }

    /// What is said of the next message of a datagram; nothing where none is left, or the end has
    /// come.
    pub fn next<'a>(&mut self, walk: &mut NetlinkIterator<'a>) -> Option<Answer<'a>>
        ensures { Hears self.old walk.old result self.new walk.new }
    {
        if self.over {
            return None;
        }
        match walk.next() {
            None => None,
            Some(Ok(message)) => Some(self.answer(message)),
            Some(Err(e)) => {
                self.over = true;
                Some(Answer::Ended(End::Broken(e)))
            }
        }
    }

    fn answer<'a>(&mut self, message: NetlinkBuffer<'a>) -> Answer<'a>
        requires { self.old.over ≡ false }
        ensures said { event_of result ≡ said self.old (Ok message.entry) }
        ensures after { self.new ≡ after self.old (Ok message.entry) }
    {
        if !self.owns(&message) {
            return Answer::Foreign(message);
        }
        if has_flag(message.flags(), NLM_F_DUMP_INTR) {
            self.interrupted = true;
        }
        let end = match message.message_type() {
            NLMSG_ERROR => error_end(&message),
            NLMSG_DONE => done_end(self.interrupted, &message),
            NLMSG_OVERRUN => End::Overrun,
            _ => return Answer::Message(message),
        };
        self.over = true;
        Answer::Ended(end)
    }
}

/// What an error says.
fn error_end<'a>(message: &NetlinkBuffer<'a>) -> End<'a>
    ensures { outcome_of result ≡ error_outcome message.now }
{
    match split_code(message.payload()) {
        Err(_) => End::Cut,
        Ok((0, _)) => End::Acknowledged,
        Ok((code, more)) => End::Refused {
            code,
            attributes: error_attributes(message.flags(), more),
        },
    }
}

/// What the end of a dump says.
fn done_end<'a>(interrupted: bool, message: &NetlinkBuffer<'a>) -> End<'a>
    ensures { outcome_of result ≡ done_outcome interrupted message.now }
{
    match split_end(message.payload()) {
        Err(_) => End::Cut,
        Ok((code, more)) if code < 0 => End::Refused {
            code,
            attributes: done_attributes(message.flags(), more),
        },
        Ok(_) if interrupted => End::Interrupted,
        Ok(_) => End::Done,
    }
}
