//! Next hop messages: `struct nhmsg` of `linux/nexthop.h`.
//!
//! ```
//! use netlink_packet_route::nexthop::{NextHopAttribute, NextHopMessage};
//! use netlink_packet_route::route::RouteScope;
//!
//! let bytes = [
//!     2, 253, 0, 0, 0, 0, 0, 0, // the header
//!     8, 0, 1, 0, 1, 0, 0, 0, // NHA_ID
//!     8, 0, 5, 0, 15, 0, 0, 0, // NHA_OIF
//!     8, 0, 6, 0, 10, 0, 0, 9, // NHA_GATEWAY
//! ];
//! let next_hop = NextHopMessage::try_from(&bytes[..])?;
//! assert_eq!(next_hop.header.scope, RouteScope::Link);
//! assert_eq!(next_hop.attributes[0], NextHopAttribute::Id(1));
//! assert_eq!(next_hop.attributes[1], NextHopAttribute::Oif(15));
//! assert_eq!(next_hop.to_bytes()?, bytes);
//! # Ok::<(), Box<dyn std::error::Error>>(())
//! ```

pub use npr_nexthop::{
    NextHopAttribute, NextHopGroupEntry, NextHopGroupStats, NextHopGroupStatsEntry,
    NextHopGroupType, NextHopHeader, NextHopMessage, NextHopMessageBuffer, NextHopOpFlags,
    NextHopResBucket, NextHopResGroup,
};
