//! Counters of `fq`: `struct tc_fq_qd_stats` of `linux/pkt_sched.h`.

ghost use Rattle.std.specs.Prelude.{◌≡◌, ◌≤◌, ◌<◌, length, IfOk, OnErr};
ghost use Rattle.{
  npr_base.specs.{Framing.{Writes}, Words.{words32, words64, signed_words64}},
  npr_tc_values.specs.FieldAt.{field_at},
};

use crate::field_at::number_at;
use npr_base::{read_bytes, write_bytes};
use std::alloc::{AllocError, Global};

/// Counters of `fq`: `struct tc_fq_qd_stats` of `linux/pkt_sched.h`, numbers of 8 and of 4 bytes, little
/// endian. Each kernel writes as many as it has, so the bytes are kept as they stand.
#[derive(Debug, Drop, PartialEq, Eq)]
pub struct TcFqQdStats {
    /// The bytes, as they stand.
    pub bytes: Vec<u8>,
}

impl TcFqQdStats {
    /// Of these bytes.
    pub fn new(bytes: Vec<u8>) -> Self
        ensures { result.bytes ≡ bytes }
    {
        TcFqQdStats { bytes }
    }

    /// The counters that the bytes are. No bytes are refused.
    ///
    /// # Errors
    /// `AllocError` where memory is refused; without bytes none is taken.
    pub fn read(alloc: Global, bytes: &[u8]) -> Result<Self, AllocError>
        ensures ok { IfOk result (λ x. x.bytes.items ≡ bytes.now) }
        ensures memory { OnErr result (0 < length bytes.now) }
    {
        Ok(TcFqQdStats {
            bytes: read_bytes(alloc, bytes)?,
        })
    }

    /// An equal value.
    ///
    /// # Errors
    /// `AllocError` where memory is refused; without bytes none is taken.
    pub fn try_clone(&self, alloc: Global) -> Result<Self, AllocError>
        ensures ok { IfOk result (λ x. x.bytes.items ≡ (self.now).bytes.items) }
        ensures memory { OnErr result (0 < length (self.now).bytes.items) }
    {
        Self::read(alloc, self.bytes.as_slice())
    }

    /// How many flows were removed since nothing waited in them.
    pub fn gc_flows(&self) -> u64
        ensures { result ≡ field_at words64 (self.now).bytes.items 0 }
    {
        number_at(self.bytes.as_slice(), 0)
    }

    /// How many packets went before all flows.
    pub fn highprio_packets(&self) -> u64
        ensures { result ≡ field_at words64 (self.now).bytes.items 8 }
    {
        number_at(self.bytes.as_slice(), 8)
    }

    /// How many were sent again by TCP; kernels count none.
    pub fn tcp_retrans(&self) -> u64
        ensures { result ≡ field_at words64 (self.now).bytes.items 16 }
    {
        number_at(self.bytes.as_slice(), 16)
    }

    /// How often a flow was held back to its rate.
    pub fn throttled(&self) -> u64
        ensures { result ≡ field_at words64 (self.now).bytes.items 24 }
    {
        number_at(self.bytes.as_slice(), 24)
    }

    /// How many packets were dropped since too many of their flow waited.
    pub fn flows_plimit(&self) -> u64
        ensures { result ≡ field_at words64 (self.now).bytes.items 32 }
    {
        number_at(self.bytes.as_slice(), 32)
    }

    /// How many were so long that their time at the rate was cut.
    pub fn pkts_too_long(&self) -> u64
        ensures { result ≡ field_at words64 (self.now).bytes.items 40 }
    {
        number_at(self.bytes.as_slice(), 40)
    }

    /// How often there was no memory for a flow.
    pub fn allocation_errors(&self) -> u64
        ensures { result ≡ field_at words64 (self.now).bytes.items 48 }
    {
        number_at(self.bytes.as_slice(), 48)
    }

    /// After how long a flow may send again, in nanoseconds.
    pub fn time_next_delayed_flow(&self) -> i64
        ensures { result ≡ field_at signed_words64 (self.now).bytes.items 56 }
    {
        number_at(self.bytes.as_slice(), 56)
    }

    /// How many flows there are.
    pub fn flows(&self) -> u32
        ensures { result ≡ field_at words32 (self.now).bytes.items 64 }
    {
        number_at(self.bytes.as_slice(), 64)
    }

    /// In how many nothing waits.
    pub fn inactive_flows(&self) -> u32
        ensures { result ≡ field_at words32 (self.now).bytes.items 68 }
    {
        number_at(self.bytes.as_slice(), 68)
    }

    /// How many are held back.
    pub fn throttled_flows(&self) -> u32
        ensures { result ≡ field_at words32 (self.now).bytes.items 72 }
    {
        number_at(self.bytes.as_slice(), 72)
    }

    /// How late the timer is on the average, in nanoseconds.
    pub fn unthrottle_latency_ns(&self) -> u32
        ensures { result ≡ field_at words32 (self.now).bytes.items 76 }
    {
        number_at(self.bytes.as_slice(), 76)
    }

    /// How many packets were marked since they waited longer than the threshold.
    pub fn ce_mark(&self) -> u64
        ensures { result ≡ field_at words64 (self.now).bytes.items 80 }
    {
        number_at(self.bytes.as_slice(), 80)
    }

    /// How many were dropped since their time lay too far ahead.
    pub fn horizon_drops(&self) -> u64
        ensures { result ≡ field_at words64 (self.now).bytes.items 88 }
    {
        number_at(self.bytes.as_slice(), 88)
    }

    /// How many got the farthest time in place of theirs.
    pub fn horizon_caps(&self) -> u64
        ensures { result ≡ field_at words64 (self.now).bytes.items 96 }
    {
        number_at(self.bytes.as_slice(), 96)
    }

    /// How many were sent without a flow.
    pub fn fastpath_packets(&self) -> u64
        ensures { result ≡ field_at words64 (self.now).bytes.items 104 }
    {
        number_at(self.bytes.as_slice(), 104)
    }

    /// How many of the first band were dropped.
    pub fn band_0_drops(&self) -> u64
        ensures { result ≡ field_at words64 (self.now).bytes.items 112 }
    {
        number_at(self.bytes.as_slice(), 112)
    }

    /// How many of the second.
    pub fn band_1_drops(&self) -> u64
        ensures { result ≡ field_at words64 (self.now).bytes.items 120 }
    {
        number_at(self.bytes.as_slice(), 120)
    }

    /// How many of the third.
    pub fn band_2_drops(&self) -> u64
        ensures { result ≡ field_at words64 (self.now).bytes.items 128 }
    {
        number_at(self.bytes.as_slice(), 128)
    }

    /// How many packets wait in the first band.
    pub fn band_0_pkt_count(&self) -> u32
        ensures { result ≡ field_at words32 (self.now).bytes.items 136 }
    {
        number_at(self.bytes.as_slice(), 136)
    }

    /// How many in the second.
    pub fn band_1_pkt_count(&self) -> u32
        ensures { result ≡ field_at words32 (self.now).bytes.items 140 }
    {
        number_at(self.bytes.as_slice(), 140)
    }

    /// How many in the third.
    pub fn band_2_pkt_count(&self) -> u32
        ensures { result ≡ field_at words32 (self.now).bytes.items 144 }
    {
        number_at(self.bytes.as_slice(), 144)
    }

    /// The length of the bytes.
    pub(crate) fn len(&self) -> usize
        ensures { result ≡ length (self.now).bytes.items }
    {
        self.bytes.len()
    }

    /// Writes the bytes at the front of the slice, leaves the rest, and answers their length.
    pub(crate) fn write(&self, out: &mut [u8]) -> usize
        requires { length (self.now).bytes.items ≤ length out.old }
        ensures len { result ≡ length (self.now).bytes.items }
        ensures after { Writes out.old out.new (self.now).bytes.items }
    {
        write_bytes(self.bytes.as_slice(), out)
    }
}
