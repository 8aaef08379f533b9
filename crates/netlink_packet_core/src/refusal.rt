//! Why bytes are no datagram.

use thiserror::Error;

/// Why no message stands at a place of a datagram: the first fault. Offsets and lengths are in bytes.
#[derive(Clone, Copy, Debug, Drop, PartialEq, Eq, Error)]
pub enum EnvelopeError {
    /// The header of a message has 16 bytes, and `left` were there, from `offset` on.
    #[error("{left} bytes at offset {offset}, where a message begins with 16")]
    MessageTooShort {
        /// Where it stands in the datagram.
        offset: usize,
        /// The bytes from there on.
        left: usize,
    },
    /// The length of the message at `offset` is below 16, or above the bytes that are left.
    #[error("a message of length {length} at offset {offset} with {left} bytes left")]
    MessageLength {
        /// Where it stands in the datagram.
        offset: usize,
        /// What its length says.
        length: u32,
        /// The bytes from there on.
        left: usize,
    },
}
