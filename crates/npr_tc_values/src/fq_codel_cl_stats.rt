//! Counters of a flow of `fq_codel`: `struct tc_fq_codel_cl_stats` of `linux/pkt_sched.h`.

ghost use Rattle.std.specs.Prelude.{◌≡◌, ◌<◌, length, IfOk, OnErr};
ghost use Rattle.{npr_base.specs.Words.{words32, signed_words32}, npr_tc_values.specs.FieldAt.{field_at}};

use crate::field_at::number_at;
use npr_base::read_bytes;
use std::alloc::{AllocError, Global};

/// Counters of a flow of `fq_codel`: `struct tc_fq_codel_cl_stats` of `linux/pkt_sched.h`, numbers of 4 bytes,
/// little endian. Each kernel writes as many as it has, so the bytes are kept as they stand.
#[derive(Debug, Drop, PartialEq, Eq)]
pub struct TcFqCodelClStats {
    /// The bytes, as they stand.
    pub bytes: Vec<u8>,
}

impl TcFqCodelClStats {
    /// Of these bytes.
    pub fn new(bytes: Vec<u8>) -> Self
        ensures { result.bytes ≡ bytes }
    {
        TcFqCodelClStats { bytes }
    }

    /// An equal value.
    ///
    /// # Errors
    /// `AllocError` where memory is refused; without bytes none is taken.
    pub fn try_clone(&self, alloc: Global) -> Result<Self, AllocError>
        ensures ok { IfOk result (λ x. x.bytes.items ≡ (self.now).bytes.items) }
        ensures memory { OnErr result (0 < length (self.now).bytes.items) }
    {
        Ok(TcFqCodelClStats {
            bytes: read_bytes(alloc, self.bytes.as_slice())?,
        })
    }

    /// How many bytes it may still send in this turn.
    pub fn deficit(&self) -> i32
        ensures { result ≡ field_at signed_words32 (self.now).bytes.items 0 }
    {
        number_at(self.bytes.as_slice(), 0)
    }

    /// How long the packet waited that went last, in microseconds.
    pub fn ldelay(&self) -> u32
        ensures { result ≡ field_at words32 (self.now).bytes.items 4 }
    {
        number_at(self.bytes.as_slice(), 4)
    }

    /// How many packets were dropped since it began to drop.
    pub fn count(&self) -> u32
        ensures { result ≡ field_at words32 (self.now).bytes.items 8 }
    {
        number_at(self.bytes.as_slice(), 8)
    }

    /// How many were when it began to drop the last time.
    pub fn lastcount(&self) -> u32
        ensures { result ≡ field_at words32 (self.now).bytes.items 12 }
    {
        number_at(self.bytes.as_slice(), 12)
    }

    /// 1 while it drops.
    pub fn dropping(&self) -> u32
        ensures { result ≡ field_at words32 (self.now).bytes.items 16 }
    {
        number_at(self.bytes.as_slice(), 16)
    }

    /// When it drops next, in microseconds from now.
    pub fn drop_next(&self) -> i32
        ensures { result ≡ field_at signed_words32 (self.now).bytes.items 20 }
    {
        number_at(self.bytes.as_slice(), 20)
    }
}
