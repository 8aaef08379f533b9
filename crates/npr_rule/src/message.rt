//! Rule messages: `RTM_NEWRULE`, `RTM_DELRULE` and `RTM_GETRULE`, without the envelope.

use crate::attribute::RuleAttribute;
use crate::header::RuleHeader;
use npr_base::Message;

/// A rule message: a header of 12 bytes, and attributes to the end.
pub type RuleMessage = Message<RuleHeader, RuleAttribute>;
