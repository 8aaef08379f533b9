//! The answer to a request, message by message of the datagrams that come.

ghost use Rattle.std.specs.Prelude.{◌≡◌, false, nat_lt};
ghost use Rattle.{
  netlink_packet_core.specs.Conversation.{ended, event_of, outcome_of},
  npr_c.specs.Hearing.{HearsAt, ending_number, event_code, event_ending, event_status, heard_nothing, heard_of},
};

use crate::envelopes::{Envelope, npr_message_at};
use netlink_packet_core::{Answer, Conversation, End, NetlinkIterator};

/// What is said of the next message of a datagram.
///
/// Layout: two numbers of 4 bytes, a signed one, another of 4 bytes, two of 2 bytes, and three of the
/// machine's word, in this order.
#[repr(C)]
#[derive(Clone, Copy)]
pub struct Heard {
    /// 0 for a message of the answer, 1 for one of another, 2 where the datagram is at its end, 3 where
    /// the answer ends.
    pub status: u32,
    /// How the answer ends at status 3, and else 0.
    pub ending: u32,
    /// The code of the error where the request was refused, below 0, and else 0.
    pub code: i32,
    /// 1 where a part of the answer said that the tables changed, and else 0.
    pub interrupted: u32,
    /// The type of the message; 0 where none stands.
    pub message_type: u16,
    /// `NLM_F_*`; 0 where no message stands.
    pub flags: u16,
    /// Where what stands behind its header begins, in bytes from the first; 0 where no message stands.
    pub payload: usize,
    /// How many bytes stand behind its header, without padding; 0 where no message stands.
    pub length: usize,
    /// Where the next message begins, in bytes from the first, or how many bytes there are; 0 where no
    /// message stands.
    pub next: usize,
}

const NOTHING: Heard = Heard {
    status: 2,
    ending: 0,
    code: 0,
    interrupted: 0,
    message_type: 0,
    flags: 0,
    payload: 0,
    length: 0,
    next: 0,
};

/// The number of an ending, and the code of the error that it tells.
fn told_end(end: &End<'_>) -> (u32, i32)
    ensures { result ≡ (ending_number (outcome_of end.now), event_code (ended (outcome_of end.now))) }
{
    match end {
        End::Done => (1, 0),
        End::Acknowledged => (2, 0),
        End::Refused { code, .. } => (3, *code),
        End::Interrupted => (4, 0),
        End::Overrun => (5, 0),
        End::Broken(_) => (6, 0),
        End::Cut => (7, 0),
    }
}

/// The status, the number of the ending, and the code of the error.
fn told(answer: &Answer<'_>) -> (u32, u32, i32)
    ensures { result ≡ (event_status (event_of answer.now), event_ending (event_of answer.now), event_code (event_of answer.now)) }
{
    match answer {
        Answer::Message(_) => (0, 0, 0),
        Answer::Foreign(_) => (1, 0, 0),
        Answer::Ended(end) => {
            let (ending, code) = told_end(end);
            (3, ending, code)
        }
    }
}

/// That no message is left.
fn nothing(interrupted: bool) -> Heard
    ensures { result ≡ heard_nothing 2 0 interrupted }
{
    Heard {
        interrupted: u32::from(interrupted),
        ..NOTHING
    }
}

/// What is said of the message of a step.
fn answered(answer: &Answer<'_>, interrupted: bool, step: Envelope) -> Heard
    ensures { result ≡ heard_of (event_of answer.now) interrupted step }
{
    let (status, ending, code) = told(answer);
    Heard {
        status,
        ending,
        code,
        interrupted: u32::from(interrupted),
        message_type: step.message_type,
        flags: step.flags,
        payload: step.payload,
        length: step.length,
        next: step.next,
    }
}

/// What is said of the message that begins `at` bytes from the first of a datagram, in the conversation
/// that a request of this number began, from a socket of this port, or of any where it is 0;
/// `interrupted` is 0 unless an earlier call answered another number there. It takes no memory.
#[unsafe(no_mangle)]
pub extern "C" fn npr_hear_at(
    datagram: &[u8],
    at: usize,
    sequence_number: u32,
    port_number: u32,
    interrupted: u32,
) -> Heard
    ensures { HearsAt datagram.now at
        (record { sequence_number = sequence_number; port_number = port_number; interrupted = nat_lt 0 interrupted; over = false }) result }
{
    let mut talk = Conversation::resumed(sequence_number, port_number, interrupted > 0);
    if at >= datagram.len() {
        return nothing(talk.is_interrupted());
    }
    let step = npr_message_at(datagram, at);
    let mut walk = NetlinkIterator::new(&datagram[at..]);
    match talk.next(&mut walk) {
        None => nothing(talk.is_interrupted()),
        Some(answer) => answered(&answer, talk.is_interrupted(), step),
    }
}
