//! Next hop messages: `RTM_NEWNEXTHOP`, `RTM_DELNEXTHOP` and `RTM_GETNEXTHOP`, and those of buckets,
//! `RTM_NEWNEXTHOPBUCKET`, `RTM_DELNEXTHOPBUCKET` and `RTM_GETNEXTHOPBUCKET`, without the envelope.

use crate::attribute::NextHopAttribute;
use crate::header::NextHopHeader;
use npr_base::Message;

/// A next hop message: a header of 8 bytes, and attributes to the end.
pub type NextHopMessage = Message<NextHopHeader, NextHopAttribute>;
