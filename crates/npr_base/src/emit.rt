//! A value as bytes of its own, by one call.

ghost use Rattle.std.specs.Prelude.{◌≡◌, None, Some, IfOk, OnOk};
ghost use Rattle.npr_base.specs.declared.{refusal.EmitError.{EmitError}, emit.WriteError.TheVariants.{OutOfMemory, Unfit}};

use crate::refusal::EmitError;
use crate::traits::Emitable;
use std::alloc::{AllocError, Global};
use thiserror::Error;

/// Why a value did not become bytes.
#[derive(Clone, Copy, Debug, Drop, PartialEq, Eq, Error)]
pub enum WriteError {
    /// Memory was refused.
    #[error("out of memory")]
    OutOfMemory,
    /// It can't be written, for this cause.
    #[error("{0}")]
    Unfit(EmitError),
}

impl From<EmitError> for WriteError {
    ghost from_gives = { λ cause e. e ≡ Unfit cause };

    fn from(cause: EmitError) -> WriteError {
        WriteError::Unfit(cause)
    }
}

impl From<AllocError> for WriteError {
    ghost from_gives = { λ _ e. e ≡ OutOfMemory };

    fn from(_e: AllocError) -> WriteError {
        WriteError::OutOfMemory
    }
}

/// The bytes of a value: `check`, a vector of that length, and `emit` into it.
///
/// # Errors
/// `Unfit` with the first cause why it can't be written, exactly where there is one, and
/// `OutOfMemory` where memory is refused.
pub fn to_vec<E: Emitable>(alloc: Global, value: &E) -> Result<Vec<u8>, WriteError>
    ensures ok { IfOk result (λ bytes. bytes.items ≡ E.bytes value.now) }
    ensures fits { OnOk result (E.unfit value.now ≡ None) }
    ensures unfit { (cause : EmitError) → result ≡ Err (Unfit cause) → E.unfit value.now ≡ Some cause }
    ensures memory { result ≡ Err OutOfMemory → E.unfit value.now ≡ None }
{
    let mut bytes = vec![in alloc; 0u8; value.check()?]?;
    value.emit(bytes.as_mut_slice());
    Ok(bytes)
}
