//! Messages of name spaces, and of settings of a name space and its links.
#![tactic(auto)]

pub mod laws;
mod netconf;
mod netconf_attribute;
mod nsid;
mod nsid_attribute;

pub use netconf::{NetconfHeader, NetconfMessage, NetconfMessageBuffer};
pub use netconf_attribute::NetconfAttribute;
pub use nsid::{NsidHeader, NsidMessage, NsidMessageBuffer};
pub use nsid_attribute::NsidAttribute;
