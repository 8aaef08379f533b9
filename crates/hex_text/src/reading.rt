//! Reading a text from its front.

ghost use Rattle.std.specs.Prelude.{◌≡◌, ◌⊎◌, ◌<◌, ℕ, length, IfOk, IfErr};
ghost use Rattle.hex_text.specs.{HexText.{HasOneReading, IsBadAt, IsHexText}, declared.reading.HexError.TheVariants.{Bad, OutOfMemory}};

use crate::state::{State, step};
use std::alloc::{AllocFailed, Global};

/// Why a text has no bytes.
#[derive(Clone, Copy, Debug)]
pub enum HexError {
    /// No text that stands for bytes goes on as this one behind so many bytes, or it ends there inside a
    /// pair.
    Bad(usize),
    /// Memory was refused.
    OutOfMemory,
}

impl<T: Drop> From<AllocFailed<T>> for HexError {
    ghost from_gives = { λ _ e. e ≡ OutOfMemory };

    fn from(_e: AllocFailed<T>) -> HexError {
        HexError::OutOfMemory
    }
}

/// The bytes that `text` stands for: pairs of hexadecimal digits in either case. Before, between and
/// behind pairs may stand blanks, ends of lines, colons and `0x`, and comments from `#` to the end of
/// their line.
///
/// # Errors
/// `Bad` with the place of the first byte that is wrong; `OutOfMemory` where memory is refused, which no
/// bytes take.
pub fn bytes_of(alloc: Global, text: &[u8]) -> Result<Vec<u8>, HexError>
    ensures ok { IfOk result (λ bytes. IsHexText text.now bytes.items) }
    ensures one_reading { HasOneReading text.now }
    ensures bad { IfErr result (λ e. (place : ℕ) → e ≡ Bad place → IsBadAt text.now place) }
    ensures memory { result ≡ Err OutOfMemory → 0 < length text.now }
    ensures some { IfOk result (λ bytes. 0 < length bytes.items → 0 < length text.now) }
{
    let mut bytes = Vec::new(alloc);
    let mut state = State::Between;
    for (place, &byte) in text.iter().enumerate() {
        let Some((next, ended)) = step(state, byte) else {
            return Err(HexError::Bad(place));
        };
        if let Some(byte) = ended {
            bytes.push(byte)?;
        }
        state = next;
    }
    match state {
        State::Half(_) => Err(HexError::Bad(text.len())),
        State::Between | State::Comment => Ok(bytes),
    }
}
