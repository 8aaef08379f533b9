//! Where what encloses others ends in a request: its length, in front of its header. Nothing takes memory,
//! and nothing is kept between calls.

ghost use Rattle.std.specs.Prelude.{◌≡◌, ◌≤◌, ◌+◌, ◌↔◌, IsTrue};
ghost use Rattle.npr_c.specs.{
  Envelopes.{EnvelopeAt, message_of},
  NextHops.{HopAt},
  Requests.{AttributeEnds, EndsAttributeAt, EndsMessageAt, MessageEnds, ended_envelope, ended_hop, ended_step},
  Steps.{FoundAt, item_of},
};

use crate::answer::Answer;
use netlink_packet_core::NETLINK_HEADER_LEN;
use netlink_packet_route::framing::{EmitError, NLA_ALIGNTO, NLA_HEADER_SIZE};
use npr_base::write_array;

/// The longest attribute: its header has 16 bits for a length.
const LONGEST_ATTRIBUTE: usize = 65535;

/// The longest message: its header has 32 bits for a length.
const LONGEST_MESSAGE: usize = 4_294_967_295;

/// The refusal of a length that no attribute has (`AttributeLength`).
const ATTRIBUTE_LENGTH: u32 = 4;

/// The refusal of a length that no message has (`MessageLength`).
const MESSAGE_LENGTH: u32 = 15;

/// Whether an attribute can begin and end at these places.
fn attribute_ends(room: usize, start: usize, end: usize) -> bool
    ensures { IsTrue result ↔ AttributeEnds room start end }
{
    end <= room
        && start <= end
        && NLA_HEADER_SIZE <= end - start
        && (end - start) % NLA_ALIGNTO == 0
}

/// Whether a message can begin and end at these places.
fn message_ends(room: usize, start: usize, end: usize) -> bool
    ensures { IsTrue result ↔ MessageEnds room start end }
{
    end <= room && start <= end && NETLINK_HEADER_LEN <= end - start
}

/// Writes the length of the attribute, or of the next hop, that begins `start` bytes from the first of the
/// buffer and ends `end` bytes from it: into the first two bytes of its header. What stands inside is as
/// it was. Answers where it ends. At another answer the buffer is as it was.
///
/// Layout (`linux/netlink.h`, `struct nlattr`; `linux/rtnetlink.h`, `struct rtnexthop`): the length of all,
/// header included, in the first 2 bytes, little endian.
///
/// # Errors
/// `TooLong` where it has more than 65,535 bytes. `AttributeLength` where no attribute stands between such
/// places: below 4 bytes or no multiple of 4 bytes from one another, or past the end of the buffer.
#[unsafe(no_mangle)]
pub extern "C" fn npr_end_at(out: &mut [u8], start: usize, end: usize) -> Answer
    ensures answer { EndsAttributeAt out.old out.new start end result }
    // It is read with the kind that stood there,
    ensures found { result.status ≡ 0 → FoundAt out.new start (ended_step out.old start end) }
    // and with the bytes that stood between.
    ensures inside { result.status ≡ 0 → item_of out.new (ended_step out.old start end) ≡ item_of out.old (ended_step out.old start end) }
    // A next hop is read with what else its header said.
    ensures hop { result.status ≡ 0 → start + 8 ≤ end → HopAt out.new start (ended_hop out.old start end) }
{
    if !attribute_ends(out.len(), start, end) {
        return Answer::refused_by(ATTRIBUTE_LENGTH);
    }
    let size = end - start;
    if size > LONGEST_ATTRIBUTE {
        return Answer::unfit(EmitError::TooLong { kind: 0, len: size });
    }
    write_array((size as u16).to_le_bytes(), &mut out[start..]);
    Answer::written(end)
}

/// Writes the length of the message that begins `start` bytes from the first of the buffer and ends `end`
/// bytes from it: into the first four bytes of its header. What stands behind them is as it was. Answers
/// where it ends. At another answer the buffer is as it was.
///
/// Layout (`linux/netlink.h`, `struct nlmsghdr`): the length of all, header included, in the first 4 bytes,
/// little endian.
///
/// # Errors
/// `Total` where it has 2^32 bytes or more. `MessageLength` where no message stands between such places:
/// below 16 bytes from one another, or past the end of the buffer.
#[unsafe(no_mangle)]
pub extern "C" fn npr_end_message_at(out: &mut [u8], start: usize, end: usize) -> Answer
    ensures answer { EndsMessageAt out.old out.new start end result }
    // It is read with what else its header said,
    ensures found { result.status ≡ 0 → EnvelopeAt out.new start (ended_envelope out.old start end) }
    // and with the bytes that stood behind.
    ensures inside { result.status ≡ 0 → message_of out.new (ended_envelope out.old start end) ≡ message_of out.old (ended_envelope out.old start end) }
{
    if !message_ends(out.len(), start, end) {
        return Answer::refused_by(MESSAGE_LENGTH);
    }
    let size = end - start;
    if size > LONGEST_MESSAGE {
        return Answer::unfit(EmitError::Total);
    }
    write_array((size as u32).to_le_bytes(), &mut out[start..]);
    Answer::written(end)
}
