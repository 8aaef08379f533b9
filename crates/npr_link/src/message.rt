//! Link messages: `RTM_NEWLINK`, `RTM_DELLINK`, `RTM_GETLINK`, `RTM_SETLINK`, `RTM_NEWLINKPROP`,
//! `RTM_DELLINKPROP` and `RTM_GETLINKPROP`, without the envelope.

use crate::attribute::LinkAttribute;
use crate::header::LinkHeader;
use npr_base::Message;

/// A link message: a header of 16 bytes, and attributes to the end.
pub type LinkMessage = Message<LinkHeader, LinkAttribute>;
