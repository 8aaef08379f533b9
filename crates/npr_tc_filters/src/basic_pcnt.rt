//! How often the filter `basic` matched: `struct tc_basic_pcnt` of `linux/pkt_cls.h`.

ghost use Rattle.std.specs.Prelude.{◌≡◌, ◌≤◌, length, slice_get, IfOk, OnErr};
ghost use Rattle.{npr_base.specs.Framing.{Writes}, npr_tc_filters.specs.Hits.{hits, hits_at, basic_hits}};

use npr_base::{blocks_len, read_blocks, write_blocks};
use std::alloc::{AllocError, Global};

/// How often the filter `basic` was asked, and how often it matched.
///
/// Layout (`struct tc_basic_pcnt` of `linux/pkt_cls.h`): numbers of 8 bytes, little endian, one behind
/// the other, of which kernels write two.
#[derive(Debug, Drop, PartialEq, Eq)]
pub struct TcBasicPcnt {
    /// The counters, in the order in which kernels write them.
    pub numbers: Vec<u64>,
}

impl TcBasicPcnt {
    /// Of these counters.
    pub fn new(numbers: Vec<u64>) -> Self
        ensures { result.numbers ≡ numbers }
    {
        TcBasicPcnt { numbers }
    }

    /// The counters that the bytes are; what is left at the end and too short for one is dropped.
    ///
    /// # Errors
    /// `AllocError` where memory is refused; bytes that are too short for a counter take none.
    pub fn read(alloc: Global, bytes: &[u8]) -> Result<Self, AllocError>
        ensures ok { IfOk result (λ x. hits.Reads bytes.now (basic_hits x)) }
        ensures memory { OnErr result (8 ≤ length bytes.now) }
    {
        Ok(TcBasicPcnt {
            numbers: read_blocks(alloc, bytes)?,
        })
    }

    /// Equal counters.
    ///
    /// # Errors
    /// `AllocError` where memory is refused.
    pub fn try_clone(&self, alloc: Global) -> Result<Self, AllocError>
        ensures { IfOk result (λ x. basic_hits x ≡ basic_hits self.now) }
    {
        Ok(TcBasicPcnt {
            numbers: Vec::from_slice(alloc, self.numbers.as_slice())?,
        })
    }

    /// The counter at a place, or `None` where there is none.
    pub fn number(&self, at: usize) -> Option<u64>
        ensures { result ≡ slice_get (basic_hits self.now) at }
    {
        self.numbers.as_slice().get(at).copied()
    }

    /// How often the filter was asked, or 0 where that is not said.
    pub fn rcnt(&self) -> u64
        ensures { result ≡ hits_at (basic_hits self.now) 0 }
    {
        match self.number(0) {
            Some(n) => n,
            None => 0,
        }
    }

    /// How often it matched, or 0 where that is not said.
    pub fn rhit(&self) -> u64
        ensures { result ≡ hits_at (basic_hits self.now) 1 }
    {
        match self.number(1) {
            Some(n) => n,
            None => 0,
        }
    }

    /// The length of the bytes.
    pub fn len(&self) -> usize
        ensures { result ≡ length (hits.encode (basic_hits self.now)) }
    {
        blocks_len(self.numbers.as_slice())
    }

    /// Writes the bytes at the front of the slice, leaves the rest, and answers their length. Asks for
    /// room of that length.
    ///
    /// # Panics
    /// May panic where it is not as asked.
    pub fn write(&self, out: &mut [u8]) -> usize
        requires { length (hits.encode (basic_hits self.now)) ≤ length out.old }
        ensures len { result ≡ length (hits.encode (basic_hits self.now)) }
        ensures after { Writes out.old out.new (hits.encode (basic_hits self.now)) }
    {
        write_blocks(self.numbers.as_slice(), out)
    }
}
