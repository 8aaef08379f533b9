//! The data of `sfq`: `struct tc_sfq_qopt_v1`, or the older `struct tc_sfq_qopt` in front of it, of `linux/pkt_sched.h`.

ghost use Rattle.std.specs.Prelude.{◌≡◌, ◌≤◌, ◌<◌, length, IfOk, OnErr};
ghost use Rattle.{
  npr_base.specs.{Framing.{Writes}, Words.{words32, signed_words32}},
  npr_tc_values.specs.FieldAt.{field_at, word8},
};

use npr_base::{read_bytes, write_bytes};
use npr_tc_values::{byte_at, number_at};
use std::alloc::{AllocError, Global};

/// The data of `sfq`: `struct tc_sfq_qopt_v1`, or the older `struct tc_sfq_qopt` in front of it, of
/// `linux/pkt_sched.h`, numbers of 4 bytes, and four of 1 behind the tenth, little endian. Each kernel
/// writes as many as it has, so the bytes are kept as they stand.
#[derive(Debug, Drop, PartialEq, Eq)]
pub struct TcSfqQopt {
    /// The bytes, as they stand.
    pub bytes: Vec<u8>,
}

impl TcSfqQopt {
    /// Of these bytes.
    pub fn new(bytes: Vec<u8>) -> Self
        ensures { result.bytes ≡ bytes }
    {
        TcSfqQopt { bytes }
    }

    /// The data that the bytes are. No bytes are refused.
    ///
    /// # Errors
    /// `AllocError` where memory is refused; without bytes none is taken.
    pub fn read(alloc: Global, bytes: &[u8]) -> Result<Self, AllocError>
        ensures ok { IfOk result (λ x. x.bytes.items ≡ bytes.now) }
        ensures memory { OnErr result (0 < length bytes.now) }
    {
        Ok(TcSfqQopt {
            bytes: read_bytes(alloc, bytes)?,
        })
    }

    /// An equal value.
    ///
    /// # Errors
    /// `AllocError` where memory is refused; without bytes none is taken.
    pub fn try_clone(&self, alloc: Global) -> Result<Self, AllocError>
        ensures ok { IfOk result (λ x. x.bytes.items ≡ (self.now).bytes.items) }
        ensures memory { OnErr result (0 < length (self.now).bytes.items) }
    {
        Self::read(alloc, self.bytes.as_slice())
    }

    /// How many bytes a flow may send in a turn.
    pub fn quantum(&self) -> u32
        ensures { result ≡ field_at words32 (self.now).bytes.items 0 }
    {
        number_at(self.bytes.as_slice(), 0)
    }

    /// After how many seconds flows are told apart anew; 0 for never.
    pub fn perturb_period(&self) -> i32
        ensures { result ≡ field_at signed_words32 (self.now).bytes.items 4 }
    {
        number_at(self.bytes.as_slice(), 4)
    }

    /// How many packets may wait.
    pub fn limit(&self) -> u32
        ensures { result ≡ field_at words32 (self.now).bytes.items 8 }
    {
        number_at(self.bytes.as_slice(), 8)
    }

    /// How many lists of flows there are.
    pub fn divisor(&self) -> u32
        ensures { result ≡ field_at words32 (self.now).bytes.items 12 }
    {
        number_at(self.bytes.as_slice(), 12)
    }

    /// How many flows there may be.
    pub fn flows(&self) -> u32
        ensures { result ≡ field_at words32 (self.now).bytes.items 16 }
    {
        number_at(self.bytes.as_slice(), 16)
    }

    /// How many packets of one flow may wait.
    pub fn depth(&self) -> u32
        ensures { result ≡ field_at words32 (self.now).bytes.items 20 }
    {
        number_at(self.bytes.as_slice(), 20)
    }

    /// Which packet of a full flow is dropped: the oldest: 1, or the newest: 0.
    pub fn headdrop(&self) -> u32
        ensures { result ≡ field_at words32 (self.now).bytes.items 24 }
    {
        number_at(self.bytes.as_slice(), 24)
    }

    /// How many bytes of one flow may wait: `limit` of `struct tc_sfq_qopt_v1`.
    pub fn red_limit(&self) -> u32
        ensures { result ≡ field_at words32 (self.now).bytes.items 28 }
    {
        number_at(self.bytes.as_slice(), 28)
    }

    /// The mean length of a flow from which packets are dropped, in bytes.
    pub fn qth_min(&self) -> u32
        ensures { result ≡ field_at words32 (self.now).bytes.items 32 }
    {
        number_at(self.bytes.as_slice(), 32)
    }

    /// That from which each is.
    pub fn qth_max(&self) -> u32
        ensures { result ≡ field_at words32 (self.now).bytes.items 36 }
    {
        number_at(self.bytes.as_slice(), 36)
    }

    /// The weight of the newest length: 1 in 2 to this power.
    pub fn wlog(&self) -> u8
        ensures { result ≡ field_at word8 (self.now).bytes.items 40 }
    {
        byte_at(self.bytes.as_slice(), 40)
    }

    /// How likely a packet is dropped between both: the logarithm.
    pub fn plog(&self) -> u8
        ensures { result ≡ field_at word8 (self.now).bytes.items 41 }
    {
        byte_at(self.bytes.as_slice(), 41)
    }

    /// The cell of the table for times without packets: the logarithm.
    pub fn scell_log(&self) -> u8
        ensures { result ≡ field_at word8 (self.now).bytes.items 42 }
    {
        byte_at(self.bytes.as_slice(), 42)
    }

    /// `TC_RED_*` of the same header; all 8 bits.
    pub fn flags(&self) -> u8
        ensures { result ≡ field_at word8 (self.now).bytes.items 43 }
    {
        byte_at(self.bytes.as_slice(), 43)
    }

    /// How likely a packet is dropped at most: the share of the greatest number.
    pub fn max_p(&self) -> u32
        ensures { result ≡ field_at words32 (self.now).bytes.items 44 }
    {
        number_at(self.bytes.as_slice(), 44)
    }

    /// How many packets were dropped by chance.
    pub fn prob_drop(&self) -> u32
        ensures { result ≡ field_at words32 (self.now).bytes.items 48 }
    {
        number_at(self.bytes.as_slice(), 48)
    }

    /// How many were dropped since the mean length was too great.
    pub fn forced_drop(&self) -> u32
        ensures { result ≡ field_at words32 (self.now).bytes.items 52 }
    {
        number_at(self.bytes.as_slice(), 52)
    }

    /// How many were marked, and not dropped, by chance.
    pub fn prob_mark(&self) -> u32
        ensures { result ≡ field_at words32 (self.now).bytes.items 56 }
    {
        number_at(self.bytes.as_slice(), 56)
    }

    /// How many since the mean length was too great.
    pub fn forced_mark(&self) -> u32
        ensures { result ≡ field_at words32 (self.now).bytes.items 60 }
    {
        number_at(self.bytes.as_slice(), 60)
    }

    /// How many were marked by chance at the head of a flow.
    pub fn prob_mark_head(&self) -> u32
        ensures { result ≡ field_at words32 (self.now).bytes.items 64 }
    {
        number_at(self.bytes.as_slice(), 64)
    }

    /// How many there since the mean length was too great.
    pub fn forced_mark_head(&self) -> u32
        ensures { result ≡ field_at words32 (self.now).bytes.items 68 }
    {
        number_at(self.bytes.as_slice(), 68)
    }

    /// The length of the bytes.
    pub fn len(&self) -> usize
        ensures { result ≡ length (self.now).bytes.items }
    {
        self.bytes.len()
    }

    /// Writes the bytes at the front of the slice, leaves the rest, and answers their length. Asks for room of it.
    ///
    /// # Panics
    /// May panic where it is not as asked.
    pub fn write(&self, out: &mut [u8]) -> usize
        requires { length (self.now).bytes.items ≤ length out.old }
        ensures len { result ≡ length (self.now).bytes.items }
        ensures after { Writes out.old out.new (self.now).bytes.items }
    {
        write_bytes(self.bytes.as_slice(), out)
    }
}
