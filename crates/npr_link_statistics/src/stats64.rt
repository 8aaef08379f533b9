//! Counters of a link: `struct rtnl_link_stats64` of `linux/if_link.h`, of 64 bits.

ghost use Rattle.std.specs.Prelude.{◌≡◌};
ghost use Rattle.npr_link_statistics.specs.{Grown.{parts}, Names.{stats64}};

use crate::grown::Grown;
use crate::numbers::{copy_numbers, grown_len, read_grown, write_grown};
use std::alloc::{AllocError, Global};

/// Counters of a link, of 64 bits each: `struct rtnl_link_stats64` of `linux/if_link.h`.
#[derive(Debug, Drop, PartialEq, Eq)]
pub struct Stats64 {
    /// Packets received.
    pub rx_packets: u64,
    /// Packets sent.
    pub tx_packets: u64,
    /// Bytes received.
    pub rx_bytes: u64,
    /// Bytes sent.
    pub tx_bytes: u64,
    /// Bad packets received.
    pub rx_errors: u64,
    /// Packets that could not be sent.
    pub tx_errors: u64,
    /// Packets received and not looked at, as for want of memory.
    pub rx_dropped: u64,
    /// Packets dropped on the way out, as for want of memory.
    pub tx_dropped: u64,
    /// Multicast packets received.
    pub multicast: u64,
    /// Collisions while packets were sent.
    pub collisions: u64,
    /// Received with a wrong length.
    pub rx_length_errors: u64,
    /// Received when the receiver overflowed.
    pub rx_over_errors: u64,
    /// Received with a wrong checksum.
    pub rx_crc_errors: u64,
    /// Received with a wrong alignment.
    pub rx_frame_errors: u64,
    /// Errors of the receiver's queue.
    pub rx_fifo_errors: u64,
    /// Missed for want of room.
    pub rx_missed_errors: u64,
    /// Sending given up.
    pub tx_aborted_errors: u64,
    /// Not sent, since the carrier was lost.
    pub tx_carrier_errors: u64,
    /// Errors of the sender's queue.
    pub tx_fifo_errors: u64,
    /// Errors of the heartbeat.
    pub tx_heartbeat_errors: u64,
    /// Late collisions.
    pub tx_window_errors: u64,
    /// Compressed packets received.
    pub rx_compressed: u64,
    /// Compressed packets sent.
    pub tx_compressed: u64,
    /// Packets received on a port that is not active.
    pub rx_nohandler: u64,
    /// Packets received for another host.
    pub rx_otherhost_dropped: u64,
    /// How many of the last counters the kernel does not have: these are 0, and are not written.
    pub missing: usize,
    /// The counters behind these, which a newer kernel has.
    pub more: Vec<u64>,
}

/// The fields in the order in which kernels write them.
macro_rules! fields {
    ($body:ident ($($given:tt)*)) => {
        crate::$body!(($($given)*) Stats64 {
            rx_packets, tx_packets, rx_bytes, tx_bytes, rx_errors, tx_errors, rx_dropped,
            tx_dropped, multicast, collisions, rx_length_errors, rx_over_errors, rx_crc_errors,
            rx_frame_errors, rx_fifo_errors, rx_missed_errors, tx_aborted_errors, tx_carrier_errors,
            tx_fifo_errors, tx_heartbeat_errors, tx_window_errors, rx_compressed, tx_compressed,
            rx_nohandler, rx_otherhost_dropped,
        })
    };
}

impl Stats64 {
    /// The fields.
    #[tactic(auto, unfolding(crate::specs::Names::stats64))]
    fn fields(&self) -> [u64; 25]
        ensures { result ≡ (parts stats64 self.now).fields }
    {
        fields!(listed(self))
    }

    /// The structure of these fields.
    fn of(fields: [u64; 25], missing: usize, more: Vec<u64>) -> Self
        ensures { parts stats64 result ≡ record { fields = fields; missing = missing; more = more.items } }
    {
        fields!(filled(fields, missing, more))
    }
}

#[tactic(auto, unfolding(crate::specs::Names::stats64))]
impl Grown for Stats64 {
    type Number = u64;

    ghost names = { stats64 };

    fn new(alloc: Global) -> Self {
        Self::of([0; 25], 0, Vec::new(alloc))
    }

    fn of_numbers(alloc: Global, bytes: &[u8]) -> Result<Self, AllocError> {
        let mut fields = [0; 25];
        let (missing, more) = read_grown(alloc, bytes, &mut fields)?;
        Ok(Self::of(fields, missing, more))
    }

    fn try_clone(&self, alloc: Global) -> Result<Self, AllocError> {
        let more = copy_numbers(alloc, self.more.as_slice())?;
        Ok(Self::of(self.fields(), self.missing, more))
    }

    fn len(&self) -> usize {
        grown_len(25, self.missing, self.more.as_slice())
    }

    fn write(&self, out: &mut [u8]) -> usize {
        write_grown(&self.fields(), self.missing, self.more.as_slice(), out)
    }
}
