//! Route messages: `RTM_NEWROUTE`, `RTM_DELROUTE` and `RTM_GETROUTE`, without the envelope.

use crate::attribute::RouteAttribute;
use crate::header::RouteHeader;
use npr_base::Message;

/// A route message: a header of 12 bytes, and attributes to the end.
pub type RouteMessage = Message<RouteHeader, RouteAttribute>;
