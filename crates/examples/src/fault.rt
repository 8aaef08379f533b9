//! Why no bytes come out.

ghost use Rattle.std.specs.Prelude.{◌≡◌};
ghost use Rattle.{
  examples.specs.{Fault.{unwritten}, declared.fault.Fault.TheVariants.{Refused, Unfit}},
  netlink_packet_route.specs.declared.framing.DecodeError.TheVariants.{OutOfMemory},
};

use netlink_packet_route::framing::{DecodeError, EmitError, WriteError};
use std::alloc::{AllocError, AllocFailed};

/// Why no bytes come out.
#[derive(Clone, Copy, Debug, PartialEq, Eq)]
pub enum Fault {
    /// The bytes are no message, or memory was refused.
    Refused(DecodeError),
    /// The message can't be written.
    Unfit(EmitError),
}

impl From<DecodeError> for Fault {
    ghost from_gives = { λ fault e. e ≡ Refused fault };

    fn from(fault: DecodeError) -> Fault {
        Fault::Refused(fault)
    }
}

impl From<EmitError> for Fault {
    ghost from_gives = { λ cause e. e ≡ Unfit cause };

    fn from(cause: EmitError) -> Fault {
        Fault::Unfit(cause)
    }
}

impl From<WriteError> for Fault {
    ghost from_gives = { λ fault e. e ≡ unwritten fault };

    fn from(fault: WriteError) -> Fault {
        match fault {
            WriteError::OutOfMemory => Fault::Refused(DecodeError::OutOfMemory),
            WriteError::Unfit(cause) => Fault::Unfit(cause),
        }
    }
}

impl From<AllocError> for Fault {
    ghost from_gives = { λ _ e. e ≡ Refused OutOfMemory };

    fn from(_e: AllocError) -> Fault {
        Fault::Refused(DecodeError::OutOfMemory)
    }
}

impl<T: Drop> From<AllocFailed<T>> for Fault {
    ghost from_gives = { λ _ e. e ≡ Refused OutOfMemory };

    fn from(_e: AllocFailed<T>) -> Fault {
        Fault::Refused(DecodeError::OutOfMemory)
    }
}
