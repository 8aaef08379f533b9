//! Why a message is not shown, in words.

use netlink_packet_route::Located;
use std::fmt;

/// Why a message is not shown.
#[derive(Clone, Copy)]
pub enum Refusal {
    /// What stands in its envelope is no message. The place is counted from the first byte of all.
    Payload(Located),
    /// So many bytes are left, and an envelope begins with 16.
    MessageTooShort { left: u64 },
    /// Its length is below 16, or above the bytes that are left.
    MessageLength { length: u64, left: u64 },
    /// It does not fit the window.
    TooLong { length: u64, most: u64 },
    /// A line that is no hexadecimal text.
    BadHex,
    /// What is no block of a capture.
    BadBlock,
}

impl Refusal {
    /// Its name.
    pub fn name(&self) -> &'static str {
        match self {
            Refusal::Payload(place) => place.refusal.name(),
            Refusal::MessageTooShort { .. } => "MessageTooShort",
            Refusal::MessageLength { .. } => "MessageLength",
            Refusal::TooLong { .. } => "TooLong",
            Refusal::BadHex => "BadHex",
            Refusal::BadBlock => "BadBlock",
        }
    }
}

/// The name, and what is wrong and where.
impl fmt::Display for Refusal {
    fn fmt<W: fmt::Write>(&self, f: &mut fmt::Formatter<W>) -> fmt::Result {
        let name = self.name();
        write!(f, "{name}: ")?;
        match *self {
            Refusal::Payload(place) => write!(f, "{place}"),
            Refusal::MessageTooShort { left } => {
                write!(f, "{left} bytes, where a message begins with 16")
            }
            Refusal::MessageLength { length, left } => {
                write!(f, "a message of length {length} with {left} bytes left")
            }
            Refusal::TooLong { length, most } => {
                write!(f, "{length} bytes, where {most} have room")
            }
            Refusal::BadHex => f.write_str("no pairs of hexadecimal digits"),
            Refusal::BadBlock => f.write_str("no block of a capture of nlmon"),
        }
    }
}
