//! Counters of `netem`: `struct tc_netem_xstats` of `linux/pkt_sched.h`.

ghost use Rattle.std.specs.Prelude.{◌≡◌, ◌≤◌, ◌<◌, length, IfOk, OnErr};
ghost use Rattle.{
  npr_base.specs.{Framing.{Writes}, Words.{words64}},
  npr_tc_values.specs.FieldAt.{field_at},
};

use crate::field_at::number_at;
use npr_base::{read_bytes, write_bytes};
use std::alloc::{AllocError, Global};

/// Counters of `netem`: `struct tc_netem_xstats` of `linux/pkt_sched.h`, numbers of 8 bytes, little endian.
/// Each kernel writes as many as it has, so the bytes are kept as they stand.
#[derive(Debug, Drop, PartialEq, Eq)]
pub struct TcNetemXstats {
    /// The bytes, as they stand.
    pub bytes: Vec<u8>,
}

impl TcNetemXstats {
    /// Of these bytes.
    pub fn new(bytes: Vec<u8>) -> Self
        ensures { result.bytes ≡ bytes }
    {
        TcNetemXstats { bytes }
    }

    /// The counters that the bytes are. No bytes are refused.
    ///
    /// # Errors
    /// `AllocError` where memory is refused; without bytes none is taken.
    pub fn read(alloc: Global, bytes: &[u8]) -> Result<Self, AllocError>
        ensures ok { IfOk result (λ x. x.bytes.items ≡ bytes.now) }
        ensures memory { OnErr result (0 < length bytes.now) }
    {
        Ok(TcNetemXstats {
            bytes: read_bytes(alloc, bytes)?,
        })
    }

    /// An equal value.
    ///
    /// # Errors
    /// `AllocError` where memory is refused; without bytes none is taken.
    pub fn try_clone(&self, alloc: Global) -> Result<Self, AllocError>
        ensures ok { IfOk result (λ x. x.bytes.items ≡ (self.now).bytes.items) }
        ensures memory { OnErr result (0 < length (self.now).bytes.items) }
    {
        Self::read(alloc, self.bytes.as_slice())
    }

    /// How many packets were delayed.
    pub fn delayed(&self) -> u64
        ensures { result ≡ field_at words64 (self.now).bytes.items 0 }
    {
        number_at(self.bytes.as_slice(), 0)
    }

    /// How many were lost.
    pub fn dropped(&self) -> u64
        ensures { result ≡ field_at words64 (self.now).bytes.items 8 }
    {
        number_at(self.bytes.as_slice(), 8)
    }

    /// How many were damaged.
    pub fn corrupted(&self) -> u64
        ensures { result ≡ field_at words64 (self.now).bytes.items 16 }
    {
        number_at(self.bytes.as_slice(), 16)
    }

    /// How many were doubled.
    pub fn duplicated(&self) -> u64
        ensures { result ≡ field_at words64 (self.now).bytes.items 24 }
    {
        number_at(self.bytes.as_slice(), 24)
    }

    /// How many went before others.
    pub fn reordered(&self) -> u64
        ensures { result ≡ field_at words64 (self.now).bytes.items 32 }
    {
        number_at(self.bytes.as_slice(), 32)
    }

    /// How many were marked, and not lost.
    pub fn ecn_marked(&self) -> u64
        ensures { result ≡ field_at words64 (self.now).bytes.items 40 }
    {
        number_at(self.bytes.as_slice(), 40)
    }

    /// How often there was no memory.
    pub fn allocation_errors(&self) -> u64
        ensures { result ≡ field_at words64 (self.now).bytes.items 48 }
    {
        number_at(self.bytes.as_slice(), 48)
    }

    /// The length of the bytes.
    pub(crate) fn len(&self) -> usize
        ensures { result ≡ length (self.now).bytes.items }
    {
        self.bytes.len()
    }

    /// Writes the bytes at the front of the slice, leaves the rest, and answers their length.
    pub(crate) fn write(&self, out: &mut [u8]) -> usize
        requires { length (self.now).bytes.items ≤ length out.old }
        ensures len { result ≡ length (self.now).bytes.items }
        ensures after { Writes out.old out.new (self.now).bytes.items }
    {
        write_bytes(self.bytes.as_slice(), out)
    }
}
