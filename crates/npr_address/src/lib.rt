//! Messages of addresses, of address labels, and of prefixes.
#![tactic(auto)]

mod addr_flags;
mod addr_protocol;
mod addr_scope;
mod address_label;
mod address_label_attribute;
mod attribute;
mod cache_info;
mod header;
pub mod laws;
mod message;
mod prefix;
mod prefix_attribute;
mod prefix_cache_info;

pub use addr_flags::{AddressFlags, AddressHeaderFlags};
pub use addr_protocol::AddressProtocol;
pub use addr_scope::AddressScope;
pub use address_label::{AddressLabelHeader, AddressLabelMessage, AddressLabelMessageBuffer};
pub use address_label_attribute::AddressLabelAttribute;
pub use attribute::AddressAttribute;
pub use cache_info::{CacheInfo, CacheInfoBuffer};
pub use header::{AddressHeader, AddressMessageBuffer};
pub use message::AddressMessage;
pub use prefix::{PrefixHeader, PrefixMessage, PrefixMessageBuffer};
pub use prefix_attribute::PrefixAttribute;
pub use prefix_cache_info::CacheInfo as PrefixCacheInfo;
