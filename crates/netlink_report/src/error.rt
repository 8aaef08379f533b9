//! How a run ends that does not print a report.

ghost use Rattle.std.specs.Prelude.{◌≡◌, ◌++◌};
ghost use Rattle.{
  netlink_packet_route.specs.Equality.{IsEquality},
  netlink_report.specs.{declared.error.RunError.TheVariants.{Memory}, Error.{ended_by, line_of, refusal_of, status_of}},
};

use netlink_packet_route::CanonicalError;
use netlink_packet_route::framing::{DecodeError, EmitError};
use netlink_packet_route::laws::law_framing_equality;
use std::alloc::{AllocError, AllocFailed};

/// Why a run prints no report.
#[derive(Clone, Copy, Debug, PartialEq, Eq)]
pub enum RunError {
    /// Standard input is no hexadecimal text.
    BadHex,
    /// The bytes are no message.
    Refused(DecodeError),
    /// The message can't be written back.
    Unfit(EmitError),
    /// Memory was refused.
    Memory,
    /// Standard input could not be read.
    Read,
    /// Standard output could not be written.
    Write,
}

impl RunError {
    /// The status that the process ends with.
    pub fn status(&self) -> u8
        ensures { result ≡ status_of self.now }
    {
        match self {
            RunError::Refused(_) => 1,
            RunError::BadHex => 2,
            RunError::Unfit(_) => 3,
            RunError::Memory => 4,
            RunError::Read | RunError::Write => 5,
        }
    }

    /// The line for standard error, without its end, as two texts to be printed one after the other.
    pub fn line(&self) -> (&'static str, &'static str)
        ensures { result.0.now ++ result.1.now ≡ line_of self.now }
    {
        match self {
            RunError::BadHex => ("bad hex", ""),
            RunError::Refused(fault) => ("refused: ", fault.name()),
            RunError::Unfit(fault) => ("unfit: ", fault.name()),
            RunError::Memory => ("out of memory", ""),
            RunError::Read => ("read failed", ""),
            RunError::Write => ("write failed", ""),
        }
    }
}

impl From<DecodeError> for RunError {
    ghost from_gives = { λ fault e. e ≡ refusal_of fault };

    fn from(fault: DecodeError) -> RunError {
        match fault {
            DecodeError::OutOfMemory => RunError::Memory,
            _ => RunError::Refused(fault),
        }
    }
}

impl From<CanonicalError> for RunError {
    ghost from_gives = { λ fault e. e ≡ ended_by fault };

    fn from(fault: CanonicalError) -> RunError {
        match fault {
            CanonicalError::Refused(fault) => RunError::from(fault),
            CanonicalError::Unfit(cause) => RunError::Unfit(cause),
        }
    }
}

impl From<AllocError> for RunError {
    ghost from_gives = { λ _ e. e ≡ Memory };

    fn from(_e: AllocError) -> RunError {
        RunError::Memory
    }
}

impl<T: Drop> From<AllocFailed<T>> for RunError {
    ghost from_gives = { λ _ e. e ≡ Memory };

    fn from(_e: AllocFailed<T>) -> RunError {
        RunError::Memory
    }
}

/// `==` answers whether two are equal.
pub fn law_equality()
    ensures { IsEquality ⟦<RunError as PartialEq>⟧.eq }
{
    law_framing_equality();
}
