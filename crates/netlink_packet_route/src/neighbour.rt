//! Neighbour messages: `struct ndmsg` of `linux/neighbour.h`.
//!
//! ```
//! use netlink_packet_route::neighbour::{NeighbourAttribute, NeighbourMessage, NeighbourState};
//!
//! let bytes = [
//!     2, 0, 0, 0, 3, 0, 0, 0, 2, 0, 0, 1, // one of the interface 3, confirmed lately
//!     8, 0, 1, 0, 192, 0, 2, 3, // NDA_DST
//!     10, 0, 2, 0, 2, 0, 0, 0, 0, 3, 0, 0, // NDA_LLADDR
//!     8, 0, 4, 0, 0, 0, 0, 0, // NDA_PROBES
//!     20, 0, 3, 0, 0, 0, 0, 0, 0, 0, 0, 0, 0, 0, 0, 0, 2, 0, 0, 0, // NDA_CACHEINFO
//!     5, 0, 12, 0, 4, 0, 0, 0, // NDA_PROTOCOL
//! ];
//! let neighbour = NeighbourMessage::try_from(&bytes[..])?;
//! assert_eq!(neighbour.header.state, NeighbourState::Reachable);
//! let place = NeighbourAttribute::LinkLocalAddress(vec![2, 0, 0, 0, 0, 3]);
//! assert_eq!(neighbour.attributes[1], place);
//! assert_eq!(neighbour.to_bytes()?, bytes);
//! # Ok::<(), Box<dyn std::error::Error>>(())
//! ```

pub use npr_neighbour::{
    NeighbourAddress, NeighbourAttribute, NeighbourCacheInfo, NeighbourCacheInfoBuffer,
    NeighbourExtFlags, NeighbourFdbAttribute, NeighbourFdbNotify, NeighbourFlags, NeighbourHeader,
    NeighbourMessage, NeighbourMessageBuffer, NeighbourState,
};
