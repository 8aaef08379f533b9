//! Counters of a queueing discipline `fq_codel`: `struct tc_fq_codel_qd_stats` of `linux/pkt_sched.h`.

ghost use Rattle.std.specs.Prelude.{◌≡◌, ◌<◌, length, IfOk, OnErr};
ghost use Rattle.{npr_base.specs.Words.{words32}, npr_tc_values.specs.FieldAt.{field_at}};

use crate::field_at::number_at;
use npr_base::read_bytes;
use std::alloc::{AllocError, Global};

/// Counters of a queueing discipline `fq_codel`: `struct tc_fq_codel_qd_stats` of `linux/pkt_sched.h`, numbers
/// of 4 bytes, little endian. Each kernel writes as many as it has, so the bytes are kept as they stand.
#[derive(Debug, Drop, PartialEq, Eq)]
pub struct TcFqCodelQdStats {
    /// The bytes, as they stand.
    pub bytes: Vec<u8>,
}

impl TcFqCodelQdStats {
    /// Of these bytes.
    pub fn new(bytes: Vec<u8>) -> Self
        ensures { result.bytes ≡ bytes }
    {
        TcFqCodelQdStats { bytes }
    }

    /// An equal value.
    ///
    /// # Errors
    /// `AllocError` where memory is refused; without bytes none is taken.
    pub fn try_clone(&self, alloc: Global) -> Result<Self, AllocError>
        ensures ok { IfOk result (λ x. x.bytes.items ≡ (self.now).bytes.items) }
        ensures memory { OnErr result (0 < length (self.now).bytes.items) }
    {
        Ok(TcFqCodelQdStats {
            bytes: read_bytes(alloc, self.bytes.as_slice())?,
        })
    }

    /// The size of the largest packet so far, in bytes.
    pub fn maxpacket(&self) -> u32
        ensures { result ≡ field_at words32 (self.now).bytes.items 0 }
    {
        number_at(self.bytes.as_slice(), 0)
    }

    /// How many packets were dropped since too many waited.
    pub fn drop_overlimit(&self) -> u32
        ensures { result ≡ field_at words32 (self.now).bytes.items 4 }
    {
        number_at(self.bytes.as_slice(), 4)
    }

    /// How many were marked as having met congestion, and not dropped.
    pub fn ecn_mark(&self) -> u32
        ensures { result ≡ field_at words32 (self.now).bytes.items 8 }
    {
        number_at(self.bytes.as_slice(), 8)
    }

    /// How often a packet began a new flow.
    pub fn new_flow_count(&self) -> u32
        ensures { result ≡ field_at words32 (self.now).bytes.items 12 }
    {
        number_at(self.bytes.as_slice(), 12)
    }

    /// How many flows are new.
    pub fn new_flows_len(&self) -> u32
        ensures { result ≡ field_at words32 (self.now).bytes.items 16 }
    {
        number_at(self.bytes.as_slice(), 16)
    }

    /// How many are old.
    pub fn old_flows_len(&self) -> u32
        ensures { result ≡ field_at words32 (self.now).bytes.items 20 }
    {
        number_at(self.bytes.as_slice(), 20)
    }

    /// How many packets were marked since they waited longer than the threshold.
    pub fn ce_mark(&self) -> u32
        ensures { result ≡ field_at words32 (self.now).bytes.items 24 }
    {
        number_at(self.bytes.as_slice(), 24)
    }

    /// How much memory is in use, in bytes.
    pub fn memory_usage(&self) -> u32
        ensures { result ≡ field_at words32 (self.now).bytes.items 28 }
    {
        number_at(self.bytes.as_slice(), 28)
    }

    /// How many packets were dropped since they took too much memory.
    pub fn drop_overmemory(&self) -> u32
        ensures { result ≡ field_at words32 (self.now).bytes.items 32 }
    {
        number_at(self.bytes.as_slice(), 32)
    }
}
