//! What a bridge counted of multicast: `struct br_mcast_stats` of `linux/if_bridge.h`.

ghost use Rattle.std.specs.Prelude.{◌≡◌};
ghost use Rattle.{npr_link_statistics.specs.Grown.{parts}, npr_stats.specs.BridgeMulticastStats.{bridge_multicast_stats}};

use npr_link_statistics::{Grown, copy_numbers, grown_len, read_grown, write_grown};
use std::alloc::{AllocError, Global};

/// What a bridge counted of multicast: `struct br_mcast_stats` of `linux/if_bridge.h`, thirty
/// numbers of 8 bytes, little endian. Of two for one thing the first is of what was received, the
/// second of what was sent.
#[derive(Debug, Drop, PartialEq, Eq)]
pub struct BridgeMulticastStats {
    /// Queries of IGMP version 1 received.
    pub igmp_v1queries_rx: u64,
    /// Queries of IGMP version 1 sent.
    pub igmp_v1queries_tx: u64,
    /// Queries of IGMP version 2 received.
    pub igmp_v2queries_rx: u64,
    /// Queries of IGMP version 2 sent.
    pub igmp_v2queries_tx: u64,
    /// Queries of IGMP version 3 received.
    pub igmp_v3queries_rx: u64,
    /// Queries of IGMP version 3 sent.
    pub igmp_v3queries_tx: u64,
    /// Messages of IGMP that a group is left, received.
    pub igmp_leaves_rx: u64,
    /// Messages of IGMP that a group is left, sent.
    pub igmp_leaves_tx: u64,
    /// Reports of IGMP version 1 received.
    pub igmp_v1reports_rx: u64,
    /// Reports of IGMP version 1 sent.
    pub igmp_v1reports_tx: u64,
    /// Reports of IGMP version 2 received.
    pub igmp_v2reports_rx: u64,
    /// Reports of IGMP version 2 sent.
    pub igmp_v2reports_tx: u64,
    /// Reports of IGMP version 3 received.
    pub igmp_v3reports_rx: u64,
    /// Reports of IGMP version 3 sent.
    pub igmp_v3reports_tx: u64,
    /// Messages of IGMP that could not be read.
    pub igmp_parse_errors: u64,
    /// Queries of MLD version 1 received.
    pub mld_v1queries_rx: u64,
    /// Queries of MLD version 1 sent.
    pub mld_v1queries_tx: u64,
    /// Queries of MLD version 2 received.
    pub mld_v2queries_rx: u64,
    /// Queries of MLD version 2 sent.
    pub mld_v2queries_tx: u64,
    /// Messages of MLD that a group is left, received.
    pub mld_leaves_rx: u64,
    /// Messages of MLD that a group is left, sent.
    pub mld_leaves_tx: u64,
    /// Reports of MLD version 1 received.
    pub mld_v1reports_rx: u64,
    /// Reports of MLD version 1 sent.
    pub mld_v1reports_tx: u64,
    /// Reports of MLD version 2 received.
    pub mld_v2reports_rx: u64,
    /// Reports of MLD version 2 sent.
    pub mld_v2reports_tx: u64,
    /// Messages of MLD that could not be read.
    pub mld_parse_errors: u64,
    /// Bytes of multicast packets received.
    pub mcast_bytes_rx: u64,
    /// Bytes of multicast packets sent.
    pub mcast_bytes_tx: u64,
    /// Multicast packets received.
    pub mcast_packets_rx: u64,
    /// Multicast packets sent.
    pub mcast_packets_tx: u64,
    /// How many of the last counters the kernel does not have: these are 0, and are not written.
    pub missing: usize,
    /// The counters behind these, which a newer kernel has.
    pub more: Vec<u64>,
}

/// The fields in the order in which kernels write them.
macro_rules! fields {
    ($body:ident ($($given:tt)*)) => {
        npr_link_statistics::$body!(($($given)*) BridgeMulticastStats {
            igmp_v1queries_rx, igmp_v1queries_tx, igmp_v2queries_rx, igmp_v2queries_tx,
            igmp_v3queries_rx, igmp_v3queries_tx, igmp_leaves_rx, igmp_leaves_tx, igmp_v1reports_rx,
            igmp_v1reports_tx, igmp_v2reports_rx, igmp_v2reports_tx, igmp_v3reports_rx,
            igmp_v3reports_tx, igmp_parse_errors, mld_v1queries_rx, mld_v1queries_tx,
            mld_v2queries_rx, mld_v2queries_tx, mld_leaves_rx, mld_leaves_tx, mld_v1reports_rx,
            mld_v1reports_tx, mld_v2reports_rx, mld_v2reports_tx, mld_parse_errors, mcast_bytes_rx,
            mcast_bytes_tx, mcast_packets_rx, mcast_packets_tx,
        })
    };
}

impl BridgeMulticastStats {
    /// The fields.
    #[tactic(auto, unfolding(crate::specs::BridgeMulticastStats::bridge_multicast_stats))]
    fn fields(&self) -> [u64; 30]
        ensures { result ≡ (parts bridge_multicast_stats self.now).fields }
    {
        fields!(listed(self))
    }

    /// The structure of these fields.
    fn of(fields: [u64; 30], missing: usize, more: Vec<u64>) -> Self
        ensures { parts bridge_multicast_stats result ≡ record { fields = fields; missing = missing; more = more.items } }
    {
        fields!(filled(fields, missing, more))
    }
}

#[tactic(auto, unfolding(crate::specs::BridgeMulticastStats::bridge_multicast_stats))]
impl Grown for BridgeMulticastStats {
    type Number = u64;

    ghost names = { bridge_multicast_stats };

    fn new(alloc: Global) -> Self {
        Self::of([0; 30], 0, Vec::new(alloc))
    }

    fn of_numbers(alloc: Global, bytes: &[u8]) -> Result<Self, AllocError> {
        let mut fields = [0; 30];
        let (missing, more) = read_grown(alloc, bytes, &mut fields)?;
        Ok(Self::of(fields, missing, more))
    }

    fn try_clone(&self, alloc: Global) -> Result<Self, AllocError> {
        let more = copy_numbers(alloc, self.more.as_slice())?;
        Ok(Self::of(self.fields(), self.missing, more))
    }

    fn len(&self) -> usize {
        grown_len(30, self.missing, self.more.as_slice())
    }

    fn write(&self, out: &mut [u8]) -> usize {
        write_grown(&self.fields(), self.missing, self.more.as_slice(), out)
    }
}
