//! Messages of address labels: `struct ifaddrlblmsg` of `linux/if_addrlabel.h`.
//!
//! ```
//! use netlink_packet_route::address_label::{AddressLabelAttribute, AddressLabelMessage};
//!
//! let bytes = [
//!     10, 0, 32, 0, 0, 0, 0, 0, 12, 0, 0, 0, // 32 bits of an address
//!     20, 0, 1, 0, 32, 1, 0, 0, 0, 0, 0, 0, 0, 0, 0, 0, 0, 0, 0, 0, // IFAL_ADDRESS
//!     8, 0, 2, 0, 6, 0, 0, 0, // IFAL_LABEL
//! ];
//! let label = AddressLabelMessage::try_from(&bytes[..])?;
//! assert_eq!((label.header.prefix_len, label.header.sequence), (32, 12));
//! let address = AddressLabelAttribute::Address("2001::".parse()?);
//! assert_eq!(label.attributes, [address, AddressLabelAttribute::Label(6)]);
//! assert_eq!(label.to_bytes()?, bytes);
//! # Ok::<(), Box<dyn std::error::Error>>(())
//! ```

pub use npr_address::{
    AddressLabelAttribute, AddressLabelHeader, AddressLabelMessage, AddressLabelMessageBuffer,
};
