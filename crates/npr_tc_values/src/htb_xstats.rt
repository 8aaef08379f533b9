//! Counters of a class of `htb`: `struct tc_htb_xstats` of `linux/pkt_sched.h`.

ghost use Rattle.std.specs.Prelude.{◌≡◌, ◌≤◌, ◌<◌, length, IfOk, OnErr};
ghost use Rattle.{
  npr_base.specs.{Framing.{Writes}, Words.{words32, signed_words32}},
  npr_tc_values.specs.FieldAt.{field_at},
};

use crate::field_at::number_at;
use npr_base::{read_bytes, write_bytes};
use std::alloc::{AllocError, Global};

/// Counters of a class of `htb`: `struct tc_htb_xstats` of `linux/pkt_sched.h`, numbers of 4 bytes, little
/// endian. Each kernel writes as many as it has, so the bytes are kept as they stand.
#[derive(Debug, Drop, PartialEq, Eq)]
pub struct TcHtbXstats {
    /// The bytes, as they stand.
    pub bytes: Vec<u8>,
}

impl TcHtbXstats {
    /// Of these bytes.
    pub fn new(bytes: Vec<u8>) -> Self
        ensures { result.bytes ≡ bytes }
    {
        TcHtbXstats { bytes }
    }

    /// The counters that the bytes are. No bytes are refused.
    ///
    /// # Errors
    /// `AllocError` where memory is refused; without bytes none is taken.
    pub fn read(alloc: Global, bytes: &[u8]) -> Result<Self, AllocError>
        ensures ok { IfOk result (λ x. x.bytes.items ≡ bytes.now) }
        ensures memory { OnErr result (0 < length bytes.now) }
    {
        Ok(TcHtbXstats {
            bytes: read_bytes(alloc, bytes)?,
        })
    }

    /// An equal value.
    ///
    /// # Errors
    /// `AllocError` where memory is refused; without bytes none is taken.
    pub fn try_clone(&self, alloc: Global) -> Result<Self, AllocError>
        ensures ok { IfOk result (λ x. x.bytes.items ≡ (self.now).bytes.items) }
        ensures memory { OnErr result (0 < length (self.now).bytes.items) }
    {
        Self::read(alloc, self.bytes.as_slice())
    }

    /// How many packets it lent to classes under it.
    pub fn lends(&self) -> u32
        ensures { result ≡ field_at words32 (self.now).bytes.items 0 }
    {
        number_at(self.bytes.as_slice(), 0)
    }

    /// How many it borrowed from the class over it.
    pub fn borrows(&self) -> u32
        ensures { result ≡ field_at words32 (self.now).bytes.items 4 }
    {
        number_at(self.bytes.as_slice(), 4)
    }

    /// How many packets were larger than its tables.
    pub fn giants(&self) -> u32
        ensures { result ≡ field_at words32 (self.now).bytes.items 8 }
    {
        number_at(self.bytes.as_slice(), 8)
    }

    /// For how long it may send at its rate, in ticks of 64 nanoseconds.
    pub fn tokens(&self) -> i32
        ensures { result ≡ field_at signed_words32 (self.now).bytes.items 12 }
    {
        number_at(self.bytes.as_slice(), 12)
    }

    /// For how long it may at the rate up to which it borrows, likewise.
    pub fn ctokens(&self) -> i32
        ensures { result ≡ field_at signed_words32 (self.now).bytes.items 16 }
    {
        number_at(self.bytes.as_slice(), 16)
    }

    /// The length of the bytes.
    pub(crate) fn len(&self) -> usize
        ensures { result ≡ length (self.now).bytes.items }
    {
        self.bytes.len()
    }

    /// Writes the bytes at the front of the slice, leaves the rest, and answers their length.
    pub(crate) fn write(&self, out: &mut [u8]) -> usize
        requires { length (self.now).bytes.items ≤ length out.old }
        ensures len { result ≡ length (self.now).bytes.items }
        ensures after { Writes out.old out.new (self.now).bytes.items }
    {
        write_bytes(self.bytes.as_slice(), out)
    }
}
