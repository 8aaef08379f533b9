//! The numbers of a table of sizes: `TCA_STAB_DATA` of `linux/pkt_sched.h`.

ghost use Rattle.std.specs.Prelude.{◌≡◌, ◌≤◌, ◌<◌, length, slice_get, IfOk, OnErr};
ghost use Rattle.{npr_base.specs.Framing.{Writes}, npr_tc_qdiscs.specs.StabData.{stab_data, stab_data_of}};

use npr_base::{blocks_len, read_blocks, write_blocks};
use std::alloc::{AllocError, Global};

/// The numbers of a table of sizes, one behind the other, 2 bytes each, little endian.
#[derive(Debug, Drop, PartialEq, Eq)]
pub struct TcStabData {
    /// The numbers.
    pub numbers: Vec<u16>,
}

impl TcStabData {
    /// Of these numbers.
    pub fn new(numbers: Vec<u16>) -> Self
        ensures { result.numbers ≡ numbers }
    {
        TcStabData { numbers }
    }

    /// The numbers of the bytes; one byte at the end that is too short for one is dropped. No bytes are
    /// refused.
    ///
    /// # Errors
    /// `AllocError` where memory is refused; bytes without a number take none.
    pub fn read(alloc: Global, bytes: &[u8]) -> Result<Self, AllocError>
        ensures ok { IfOk result (λ x. stab_data.Reads bytes.now (stab_data_of x)) }
        ensures memory { OnErr result (2 ≤ length bytes.now) }
    {
        Ok(TcStabData {
            numbers: read_blocks(alloc, bytes)?,
        })
    }

    /// The number at this place, where there is one.
    pub fn number(&self, at: usize) -> Option<u16>
        ensures { result ≡ slice_get (stab_data_of self.now) at }
    {
        self.numbers.as_slice().get(at).copied()
    }

    /// An equal value.
    ///
    /// # Errors
    /// `AllocError` where memory is refused; without numbers none is taken.
    pub fn try_clone(&self, alloc: Global) -> Result<Self, AllocError>
        ensures ok { IfOk result (λ x. stab_data_of x ≡ stab_data_of self.now) }
        ensures memory { OnErr result (0 < length (stab_data_of self.now)) }
    {
        if self.numbers.is_empty() {
            return Ok(TcStabData::new(Vec::new(alloc)));
        }
        Ok(TcStabData {
            numbers: Vec::from_slice(alloc, self.numbers.as_slice())?,
        })
    }

    /// The length of the bytes.
    pub(crate) fn len(&self) -> usize
        ensures { result ≡ length (stab_data.encode (stab_data_of self.now)) }
    {
        blocks_len(self.numbers.as_slice())
    }

    /// Writes the bytes at the front of the slice, leaves the rest, and answers their length.
    pub(crate) fn write(&self, out: &mut [u8]) -> usize
        requires { length (stab_data.encode (stab_data_of self.now)) ≤ length out.old }
        ensures len { result ≡ length (stab_data.encode (stab_data_of self.now)) }
        ensures after { Writes out.old out.new (stab_data.encode (stab_data_of self.now)) }
    {
        write_blocks(self.numbers.as_slice(), out)
    }
}
