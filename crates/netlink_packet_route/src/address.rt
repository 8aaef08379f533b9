//! Address messages: `struct ifaddrmsg` of `linux/if_addr.h`.
//!
//! ```
//! use netlink_packet_route::address::{AddressAttribute, AddressMessage, AddressScope};
//!
//! let bytes = [
//!     2, 24, 0, 0, 13, 0, 0, 0, // 24 bits of an address of the interface 13
//!     8, 0, 2, 0, 10, 120, 0, 1, // IFA_LOCAL
//!     10, 0, 3, 0, 118, 52, 58, 98, 98, 0, 0, 0, // IFA_LABEL
//!     8, 0, 1, 0, 10, 120, 0, 1, // IFA_ADDRESS
//! ];
//! let address = AddressMessage::try_from(&bytes[..])?;
//! assert_eq!((address.header.prefix_len, address.header.index), (24, 13));
//! assert_eq!(address.header.scope, AddressScope::Universe);
//! assert_eq!(address.attributes[1], AddressAttribute::Label("v4:bb".into()));
//! assert_eq!(address.to_bytes()?, bytes);
//! # Ok::<(), Box<dyn std::error::Error>>(())
//! ```

pub use npr_address::{
    AddressAttribute, AddressFlags, AddressHeader, AddressHeaderFlags, AddressMessage,
    AddressMessageBuffer, AddressProtocol, AddressScope, CacheInfo, CacheInfoBuffer,
};
