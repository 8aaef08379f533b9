//! Rule messages of rtnetlink.
#![tactic(auto)]

mod action;
mod attribute;
mod flags;
mod header;
pub mod laws;
mod message;
mod port_range;
mod uid_range;

pub use action::RuleAction;
pub use attribute::RuleAttribute;
pub use flags::RuleFlags;
pub use header::{RuleHeader, RuleMessageBuffer};
pub use message::RuleMessage;
pub use port_range::RulePortRange;
pub use uid_range::RuleUidRange;
