//! What an input that is refused looks like.

use crate::command_line::Options;
use crate::reading::WINDOW;
use netlink_packet_core::{NETLINK_HEADER_LEN, NetlinkHeader};

/// How many bytes are looked at for text.
const SOME: usize = 64;

/// The types of rtnetlink's messages are below this, and so are those of ends and errors.
const MOST_TYPES: u16 = 256;

/// What bytes look like.
#[derive(Clone, Copy)]
enum Guess {
    /// A message in its envelope.
    Message,
    /// The first bytes of one.
    Part,
    /// Hexadecimal text.
    Text,
    /// Anything else.
    Other,
}

/// What the first bytes of an input look like, where the run reads something else.
pub fn hint_of(bytes: &[u8], options: &Options) -> Option<&'static str> {
    match (guess_of(bytes), options.is_hex, options.kind) {
        (Guess::Text, false, _) => Some("looks like hexadecimal text, which `--hex` reads"),
        (Guess::Message, _, Some(_)) => {
            Some("looks like a datagram, which is read without `--as`")
        }
        (Guess::Part, true, None) => {
            Some("looks like a message over several lines, of which `tr -d '\\n'` makes one")
        }
        (Guess::Other, _, None) => {
            Some("looks like no datagram; `--as` reads a message without an envelope")
        }
        _ => None,
    }
}

fn guess_of(bytes: &[u8]) -> Guess {
    if bytes.len() >= 8 && bytes.iter().take(SOME).all(|byte| is_of_text(*byte)) {
        return Guess::Text;
    }
    match NetlinkHeader::parse(bytes) {
        Ok(header) if !is_likely(&header) => Guess::Other,
        Ok(header) if header.length as usize <= bytes.len() => Guess::Message,
        _ => Guess::Part,
    }
}

/// Whether a byte stands in hexadecimal text.
fn is_of_text(byte: u8) -> bool {
    byte.is_ascii_hexdigit() || matches!(byte, b' ' | b'\t' | b'\r' | b'\n' | b':' | b'x')
}

/// Whether a message of rtnetlink may begin so.
fn is_likely(header: &NetlinkHeader) -> bool {
    let length = header.length as usize;
    (NETLINK_HEADER_LEN..=WINDOW).contains(&length)
        && (1..MOST_TYPES).contains(&header.message_type)
}
