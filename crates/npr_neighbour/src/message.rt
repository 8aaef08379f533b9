//! Neighbour messages: `RTM_NEWNEIGH`, `RTM_DELNEIGH` and `RTM_GETNEIGH`, without the envelope.

use crate::attribute::NeighbourAttribute;
use crate::header::NeighbourHeader;
use npr_base::Message;

/// A neighbour message: a header of 12 bytes, and attributes to the end.
pub type NeighbourMessage = Message<NeighbourHeader, NeighbourAttribute>;
