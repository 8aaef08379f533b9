//! Prefix messages: `struct prefixmsg` of `linux/rtnetlink.h`.
//!
//! ```
//! use netlink_packet_route::prefix::{PrefixAttribute, PrefixMessage};
//!
//! let bytes = [
//!     10, 0, 0, 0, 91, 0, 0, 0, 3, 64, 192, 0, // 64 bits, told on the interface 91
//!     20, 0, 1, 0, 32, 1, 13, 184, 0, 119, 0, 0, 0, 0, 0, 0, 0, 0, 0, 0, // PREFIX_ADDRESS
//!     12, 0, 2, 0, 8, 7, 0, 0, 16, 14, 0, 0, // PREFIX_CACHEINFO
//! ];
//! let prefix = PrefixMessage::try_from(&bytes[..])?;
//! assert_eq!((prefix.header.ifindex, prefix.header.prefix_len), (91, 64));
//! assert_eq!(prefix.attributes[0], PrefixAttribute::Address("2001:db8:77::".parse()?));
//! if let PrefixAttribute::CacheInfo(seconds) = &prefix.attributes[1] {
//!     assert_eq!((seconds.preferred_time, seconds.valid_time), (1800, 3600));
//! }
//! assert_eq!(prefix.to_bytes()?, bytes);
//! # Ok::<(), Box<dyn std::error::Error>>(())
//! ```

pub use npr_address::{
    PrefixAttribute, PrefixCacheInfo as CacheInfo, PrefixHeader, PrefixMessage, PrefixMessageBuffer,
};
