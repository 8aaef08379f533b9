//! Messages of statistics: `struct if_stats_msg` and `IFLA_STATS_*` of `linux/if_link.h`.
//!
//! ```
//! use netlink_packet_route::stats::{MplsStats, StatsAfSpec, StatsAttribute, StatsMessage};
//!
//! let mut bytes = vec![
//!     0, 0, 0, 0, 7, 0, 0, 0, 16, 0, 0, 0, // of the link 7, with what address families count
//!     84, 0, 5, 0, // IFLA_STATS_AF_SPEC
//!     80, 0, 28, 0, // AF_MPLS
//!     76, 0, 1, 0, // MPLS_STATS_LINK
//! ];
//! for counter in 1..=9_u64 {
//!     bytes.extend(counter.to_le_bytes());
//! }
//! let message = StatsMessage::try_from(&bytes[..])?;
//! assert_eq!((message.header.index, message.header.filter_mask), (7, 16));
//! if let StatsAttribute::AfSpec(families) = &message.attributes[0] {
//!     if let StatsAfSpec::Mpls(counters) = &families[0] {
//!         assert!(matches!(&counters[0], MplsStats::Link(link) if link.rx_bytes == 3));
//!     }
//! }
//! assert_eq!(message.to_bytes()?, bytes);
//! # Ok::<(), Box<dyn std::error::Error>>(())
//! ```

pub use npr_stats::{
    BondAdStat, BondXstats, BridgeMulticastStats, BridgeStpXstats, BridgeVlanXstats, BridgeXstats,
    HwStats64, LinkXstats, MplsLinkStats, MplsStats, OffloadHwInfo, OffloadHwState, OffloadXstats,
    StatsAfSpec, StatsAttribute, StatsHeader, StatsMessage, StatsMessageBuffer,
};
