//! One step over the messages of a datagram.

ghost use Rattle.std.specs.Prelude.{◌≡◌};
ghost use Rattle.npr_c.specs.Envelopes.{EnvelopesAt, envelope_number};

use netlink_packet_core::{EnvelopeError, NETLINK_HEADER_LEN, NetlinkIterator};

/// What a step over the messages of a datagram answers.
///
/// Layout: two numbers of 4 bytes, two of 2 bytes, two of 4 bytes, and three of the machine's word,
/// in this order.
#[repr(C)]
#[derive(Clone, Copy)]
pub struct Envelope {
    /// 0 where a message is found, 1 where none stands, 2 at the end of the bytes.
    pub status: u32,
    /// The number of the refusal at status 1, and else 0.
    pub number: u32,
    /// The type; 0 unless the status is 0.
    pub message_type: u16,
    /// `NLM_F_*`; 0 unless the status is 0.
    pub flags: u16,
    /// The number of the request to which the message belongs; 0 unless the status is 0.
    pub sequence_number: u32,
    /// The port of the socket that asked; 0 unless the status is 0.
    pub port_number: u32,
    /// Where what stands behind the header begins, in bytes from the first; 0 unless the status is 0.
    pub payload: usize,
    /// How many bytes stand behind the header, without padding; 0 unless the status is 0.
    pub length: usize,
    /// Where the next message begins, in bytes from the first, or how many bytes there are; 0 unless
    /// the status is 0.
    pub next: usize,
}

const NOTHING: Envelope = Envelope {
    status: 0,
    number: 0,
    message_type: 0,
    flags: 0,
    sequence_number: 0,
    port_number: 0,
    payload: 0,
    length: 0,
    next: 0,
};

const END: Envelope = Envelope {
    status: 2,
    ..NOTHING
};

/// The number of a refusal of a datagram; those of other bytes end at 13.
fn envelope_number(fault: EnvelopeError) -> u32
    ensures { result ≡ envelope_number fault }
{
    match fault {
        EnvelopeError::MessageTooShort { .. } => 14,
        EnvelopeError::MessageLength { .. } => 15,
    }
}

/// The message that begins `at` bytes from the first, behind its header of 16 bytes, or why there is
/// none. At the length of the bytes, and past it, is their end. It takes no memory.
#[unsafe(no_mangle)]
pub extern "C" fn npr_message_at(datagram: &[u8], at: usize) -> Envelope
    ensures { EnvelopesAt datagram.now at result }
{
    if at >= datagram.len() {
        return END;
    }
    let mut walk = NetlinkIterator::new(&datagram[at..]);
    match walk.next() {
        None => END,
        Some(Ok(message)) => {
            let header = message.header();
            Envelope {
                message_type: header.message_type,
                flags: header.flags,
                sequence_number: header.sequence_number,
                port_number: header.port_number,
                payload: at + NETLINK_HEADER_LEN,
                length: message.payload_length(),
                next: datagram.len() - walk.rest().len(),
                ..NOTHING
            }
        }
        Some(Err(fault)) => Envelope {
            status: 1,
            number: envelope_number(fault),
            ..NOTHING
        },
    }
}
