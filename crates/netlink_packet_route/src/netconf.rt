//! Messages of settings: `struct netconfmsg` of `linux/netconf.h`.
//!
//! ```
//! use netlink_packet_route::AddressFamily;
//! use netlink_packet_route::netconf::{NetconfAttribute, NetconfMessage};
//!
//! let bytes = [
//!     2, 0, 0, 0, // the header
//!     8, 0, 1, 0, 76, 0, 0, 0, // NETCONFA_IFINDEX
//!     8, 0, 2, 0, 1, 0, 0, 0, // NETCONFA_FORWARDING
//! ];
//! let settings = NetconfMessage::try_from(&bytes[..])?;
//! assert_eq!(settings.header.family, AddressFamily::Inet);
//! let expected = [NetconfAttribute::IfIndex(76), NetconfAttribute::Forwarding(1)];
//! assert_eq!(settings.attributes, expected);
//! assert_eq!(settings.to_bytes()?, bytes);
//! # Ok::<(), Box<dyn std::error::Error>>(())
//! ```

pub use npr_namespace::{NetconfAttribute, NetconfHeader, NetconfMessage, NetconfMessageBuffer};
