//! Messages of network name spaces: `struct rtgenmsg` of `linux/rtnetlink.h`, and `NETNSA_*` of
//! `linux/net_namespace.h`.
//!
//! ```
//! use netlink_packet_route::AddressFamily;
//! use netlink_packet_route::nsid::{NsidAttribute, NsidMessage};
//!
//! let bytes = [
//!     0, 0, 0, 0, // the header
//!     8, 0, 3, 0, 5, 0, 0, 0, // NETNSA_FD
//!     8, 0, 1, 0, 255, 255, 255, 255, // NETNSA_NSID
//! ];
//! let name_space = NsidMessage::try_from(&bytes[..])?;
//! assert_eq!(name_space.header.family, AddressFamily::Unspec);
//! assert_eq!(name_space.attributes, [NsidAttribute::Fd(5), NsidAttribute::Id(-1)]);
//! assert_eq!(name_space.to_bytes()?, bytes);
//! # Ok::<(), Box<dyn std::error::Error>>(())
//! ```

pub use npr_namespace::{NsidAttribute, NsidHeader, NsidMessage, NsidMessageBuffer};
