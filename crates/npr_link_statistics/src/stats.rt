//! Counters of a link: `struct rtnl_link_stats` of `linux/if_link.h`, of 32 bits.

ghost use Rattle.std.specs.Prelude.{◌≡◌};
ghost use Rattle.npr_link_statistics.specs.{Grown.{parts}, Names.{stats}};

use crate::grown::Grown;
use crate::numbers::{copy_numbers, grown_len, read_grown, write_grown};
use std::alloc::{AllocError, Global};

/// Counters of a link, of 32 bits each: `struct rtnl_link_stats` of `linux/if_link.h`.
#[derive(Debug, Drop, PartialEq, Eq)]
pub struct Stats {
    /// Packets received.
    pub rx_packets: u32,
    /// Packets sent.
    pub tx_packets: u32,
    /// Bytes received.
    pub rx_bytes: u32,
    /// Bytes sent.
    pub tx_bytes: u32,
    /// Bad packets received.
    pub rx_errors: u32,
    /// Packets that could not be sent.
    pub tx_errors: u32,
    /// Packets received and not looked at, as for want of memory.
    pub rx_dropped: u32,
    /// Packets dropped on the way out, as for want of memory.
    pub tx_dropped: u32,
    /// Multicast packets received.
    pub multicast: u32,
    /// Collisions while packets were sent.
    pub collisions: u32,
    /// Received with a wrong length.
    pub rx_length_errors: u32,
    /// Received when the receiver overflowed.
    pub rx_over_errors: u32,
    /// Received with a wrong checksum.
    pub rx_crc_errors: u32,
    /// Received with a wrong alignment.
    pub rx_frame_errors: u32,
    /// Errors of the receiver's queue.
    pub rx_fifo_errors: u32,
    /// Missed for want of room.
    pub rx_missed_errors: u32,
    /// Sending given up.
    pub tx_aborted_errors: u32,
    /// Not sent, since the carrier was lost.
    pub tx_carrier_errors: u32,
    /// Errors of the sender's queue.
    pub tx_fifo_errors: u32,
    /// Errors of the heartbeat.
    pub tx_heartbeat_errors: u32,
    /// Late collisions.
    pub tx_window_errors: u32,
    /// Compressed packets received.
    pub rx_compressed: u32,
    /// Compressed packets sent.
    pub tx_compressed: u32,
    /// Packets received on a port that is not active.
    pub rx_nohandler: u32,
    /// How many of the last counters the kernel does not have: these are 0, and are not written.
    pub missing: usize,
    /// The counters behind these, which a newer kernel has.
    pub more: Vec<u32>,
}

/// The fields in the order in which kernels write them.
macro_rules! fields {
    ($body:ident ($($given:tt)*)) => {
        crate::$body!(($($given)*) Stats {
            rx_packets, tx_packets, rx_bytes, tx_bytes, rx_errors, tx_errors, rx_dropped,
            tx_dropped, multicast, collisions, rx_length_errors, rx_over_errors, rx_crc_errors,
            rx_frame_errors, rx_fifo_errors, rx_missed_errors, tx_aborted_errors, tx_carrier_errors,
            tx_fifo_errors, tx_heartbeat_errors, tx_window_errors, rx_compressed, tx_compressed,
            rx_nohandler,
        })
    };
}

impl Stats {
    /// The fields.
    #[tactic(auto, unfolding(crate::specs::Names::stats))]
    fn fields(&self) -> [u32; 24]
        ensures { result ≡ (parts stats self.now).fields }
    {
        fields!(listed(self))
    }

    /// The structure of these fields.
    fn of(fields: [u32; 24], missing: usize, more: Vec<u32>) -> Self
        ensures { parts stats result ≡ record { fields = fields; missing = missing; more = more.items } }
    {
        fields!(filled(fields, missing, more))
    }
}

#[tactic(auto, unfolding(crate::specs::Names::stats))]
impl Grown for Stats {
    type Number = u32;

    ghost names = { stats };

    fn new(alloc: Global) -> Self {
        Self::of([0; 24], 0, Vec::new(alloc))
    }

    fn of_numbers(alloc: Global, bytes: &[u8]) -> Result<Self, AllocError> {
        let mut fields = [0; 24];
        let (missing, more) = read_grown(alloc, bytes, &mut fields)?;
        Ok(Self::of(fields, missing, more))
    }

    fn try_clone(&self, alloc: Global) -> Result<Self, AllocError> {
        let more = copy_numbers(alloc, self.more.as_slice())?;
        Ok(Self::of(self.fields(), self.missing, more))
    }

    fn len(&self) -> usize {
        grown_len(24, self.missing, self.more.as_slice())
    }

    fn write(&self, out: &mut [u8]) -> usize {
        write_grown(&self.fields(), self.missing, self.more.as_slice(), out)
    }
}
