//! The weights of the bands of `fq`: `TCA_FQ_WEIGHTS` of `linux/pkt_sched.h`.

ghost use Rattle.std.specs.Prelude.{◌≡◌, ◌≤◌, ◌<◌, length, IfOk, OnErr};
ghost use Rattle.{npr_base.specs.Framing.{Writes}, npr_tc_qdiscs.specs.FqWeights.{fq_weights, fq_weights_of}};

use npr_base::{blocks_len, read_blocks, write_blocks};
use std::alloc::{AllocError, Global};

/// The weights of the bands of `fq`, one behind the other, signed numbers of 4 bytes each, little endian.
#[derive(Debug, Drop, PartialEq, Eq)]
pub struct TcFqWeights {
    /// The weights.
    pub numbers: Vec<i32>,
}

impl TcFqWeights {
    /// Of these numbers.
    pub fn new(numbers: Vec<i32>) -> Self
        ensures { result.numbers ≡ numbers }
    {
        TcFqWeights { numbers }
    }

    /// The weights of the bytes; what is left at the end and too short for one is dropped. No bytes are
    /// refused.
    ///
    /// # Errors
    /// `AllocError` where memory is refused; bytes without a number take none.
    pub fn read(alloc: Global, bytes: &[u8]) -> Result<Self, AllocError>
        ensures ok { IfOk result (λ x. fq_weights.Reads bytes.now (fq_weights_of x)) }
        ensures memory { OnErr result (4 ≤ length bytes.now) }
    {
        Ok(TcFqWeights {
            numbers: read_blocks(alloc, bytes)?,
        })
    }

    /// An equal value.
    ///
    /// # Errors
    /// `AllocError` where memory is refused; without numbers none is taken.
    pub fn try_clone(&self, alloc: Global) -> Result<Self, AllocError>
        ensures ok { IfOk result (λ x. fq_weights_of x ≡ fq_weights_of self.now) }
        ensures memory { OnErr result (0 < length (fq_weights_of self.now)) }
    {
        if self.numbers.is_empty() {
            return Ok(TcFqWeights::new(Vec::new(alloc)));
        }
        Ok(TcFqWeights {
            numbers: Vec::from_slice(alloc, self.numbers.as_slice())?,
        })
    }

    /// The length of the bytes.
    pub(crate) fn len(&self) -> usize
        ensures { result ≡ length (fq_weights.encode (fq_weights_of self.now)) }
    {
        blocks_len(self.numbers.as_slice())
    }

    /// Writes the bytes at the front of the slice, leaves the rest, and answers their length.
    pub(crate) fn write(&self, out: &mut [u8]) -> usize
        requires { length (fq_weights.encode (fq_weights_of self.now)) ≤ length out.old }
        ensures len { result ≡ length (fq_weights.encode (fq_weights_of self.now)) }
        ensures after { Writes out.old out.new (fq_weights.encode (fq_weights_of self.now)) }
    {
        write_blocks(self.numbers.as_slice(), out)
    }
}
