//! Messages of tables of neighbours: `struct ndtmsg` of `linux/neighbour.h`.
//!
//! ```
//! use netlink_packet_route::AddressFamily;
//! use netlink_packet_route::neighbour_table::{NeighbourTableAttribute, NeighbourTableMessage};
//!
//! let bytes = [
//!     0, 0, 0, 0, // the header
//!     14, 0, 1, 0, 97, 114, 112, 95, 99, 97, 99, 104, 101, 0, 0, 0, // NDTA_NAME
//!     8, 0, 3, 0, 99, 0, 0, 0, // NDTA_THRESH2
//! ];
//! let table = NeighbourTableMessage::try_from(&bytes[..])?;
//! assert_eq!(table.header.family, AddressFamily::Unspec);
//! assert_eq!(table.attributes[0], NeighbourTableAttribute::Name("arp_cache".into()));
//! assert_eq!(table.attributes[1], NeighbourTableAttribute::Threshold2(99));
//! assert_eq!(table.to_bytes()?, bytes);
//! # Ok::<(), Box<dyn std::error::Error>>(())
//! ```

pub use npr_neighbour::{
    NeighbourTableAttribute, NeighbourTableConfig, NeighbourTableConfigBuffer,
    NeighbourTableHeader, NeighbourTableMessage, NeighbourTableMessageBuffer,
    NeighbourTableParameter, NeighbourTableStats, NeighbourTableStatsBuffer,
};
