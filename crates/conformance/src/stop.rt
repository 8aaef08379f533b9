//! Why bytes are not written again.

use netlink_packet_route::CanonicalError;
use netlink_packet_route::envelope::EnvelopeError;
use netlink_packet_route::framing::{DecodeError, WriteError};
use std::alloc::AllocError;

/// Why bytes are not written again.
#[derive(Drop)]
pub enum Stop {
    /// Memory is refused.
    Memory,
    /// They are not read, by a fault of this name.
    Refused(&'static str),
    /// What was read can't be written, for a cause of this name.
    Unfit(&'static str),
}

impl From<AllocError> for Stop {
    fn from(_fault: AllocError) -> Stop {
        Stop::Memory
    }
}

impl From<DecodeError> for Stop {
    fn from(fault: DecodeError) -> Stop {
        match fault {
            DecodeError::OutOfMemory => Stop::Memory,
            _ => Stop::Refused(fault.name()),
        }
    }
}

impl From<CanonicalError> for Stop {
    fn from(fault: CanonicalError) -> Stop {
        match fault {
            CanonicalError::Refused(fault) => Stop::from(fault),
            CanonicalError::Unfit(cause) => Stop::Unfit(cause.name()),
        }
    }
}

impl From<EnvelopeError> for Stop {
    fn from(fault: EnvelopeError) -> Stop {
        match fault {
            EnvelopeError::MessageTooShort { .. } => Stop::Refused("MessageTooShort"),
            EnvelopeError::MessageLength { .. } => Stop::Refused("MessageLength"),
        }
    }
}

impl From<WriteError> for Stop {
    fn from(fault: WriteError) -> Stop {
        match fault {
            WriteError::OutOfMemory => Stop::Memory,
            WriteError::Unfit(cause) => Stop::Unfit(cause.name()),
        }
    }
}
