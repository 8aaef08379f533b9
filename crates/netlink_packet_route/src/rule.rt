//! Rule messages: `struct fib_rule_hdr` of `linux/fib_rules.h`.
//!
//! ```
//! use netlink_packet_route::rule::{RuleAction, RuleAttribute, RuleMessage};
//!
//! let bytes = [
//!     2, 0, 0, 0, 102, 0, 0, 1, 0, 0, 0, 0, // look up in the table 102
//!     8, 0, 3, 0, 105, 102, 52, 0, // FRA_IIFNAME
//!     8, 0, 6, 0, 16, 0, 0, 0, // FRA_PRIORITY
//! ];
//! let rule = RuleMessage::try_from(&bytes[..])?;
//! assert_eq!((rule.header.action, rule.header.table), (RuleAction::ToTable, 102));
//! let expected = [RuleAttribute::Iifname("if4".into()), RuleAttribute::Priority(16)];
//! assert_eq!(rule.attributes, expected);
//! assert_eq!(rule.to_bytes()?, bytes);
//! # Ok::<(), Box<dyn std::error::Error>>(())
//! ```

pub use npr_rule::{
    RuleAction, RuleAttribute, RuleFlags, RuleHeader, RuleMessage, RuleMessageBuffer,
    RulePortRange, RuleUidRange,
};
