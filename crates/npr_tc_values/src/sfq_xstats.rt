//! Counters of a flow of `sfq`: `struct tc_sfq_xstats` of `linux/pkt_sched.h`.

ghost use Rattle.std.specs.Prelude.{◌≡◌, ◌≤◌, ◌<◌, length, IfOk, OnErr};
ghost use Rattle.{
  npr_base.specs.{Framing.{Writes}, Words.{signed_words32}},
  npr_tc_values.specs.FieldAt.{field_at},
};

use crate::field_at::number_at;
use npr_base::{read_bytes, write_bytes};
use std::alloc::{AllocError, Global};

/// Counters of a flow of `sfq`: `struct tc_sfq_xstats` of `linux/pkt_sched.h`, a number of 4 bytes, little
/// endian. Each kernel writes as many as it has, so the bytes are kept as they stand.
#[derive(Debug, Drop, PartialEq, Eq)]
pub struct TcSfqXstats {
    /// The bytes, as they stand.
    pub bytes: Vec<u8>,
}

impl TcSfqXstats {
    /// Of these bytes.
    pub fn new(bytes: Vec<u8>) -> Self
        ensures { result.bytes ≡ bytes }
    {
        TcSfqXstats { bytes }
    }

    /// The counters that the bytes are. No bytes are refused.
    ///
    /// # Errors
    /// `AllocError` where memory is refused; without bytes none is taken.
    pub fn read(alloc: Global, bytes: &[u8]) -> Result<Self, AllocError>
        ensures ok { IfOk result (λ x. x.bytes.items ≡ bytes.now) }
        ensures memory { OnErr result (0 < length bytes.now) }
    {
        Ok(TcSfqXstats {
            bytes: read_bytes(alloc, bytes)?,
        })
    }

    /// An equal value.
    ///
    /// # Errors
    /// `AllocError` where memory is refused; without bytes none is taken.
    pub fn try_clone(&self, alloc: Global) -> Result<Self, AllocError>
        ensures ok { IfOk result (λ x. x.bytes.items ≡ (self.now).bytes.items) }
        ensures memory { OnErr result (0 < length (self.now).bytes.items) }
    {
        Self::read(alloc, self.bytes.as_slice())
    }

    /// How many bytes it may still send in this turn.
    pub fn allot(&self) -> i32
        ensures { result ≡ field_at signed_words32 (self.now).bytes.items 0 }
    {
        number_at(self.bytes.as_slice(), 0)
    }

    /// The length of the bytes.
    pub(crate) fn len(&self) -> usize
        ensures { result ≡ length (self.now).bytes.items }
    {
        self.bytes.len()
    }

    /// Writes the bytes at the front of the slice, leaves the rest, and answers their length.
    pub(crate) fn write(&self, out: &mut [u8]) -> usize
        requires { length (self.now).bytes.items ≤ length out.old }
        ensures len { result ≡ length (self.now).bytes.items }
        ensures after { Writes out.old out.new (self.now).bytes.items }
    {
        write_bytes(self.bytes.as_slice(), out)
    }
}
