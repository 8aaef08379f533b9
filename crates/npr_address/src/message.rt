//! Address messages: `RTM_NEWADDR`, `RTM_DELADDR` and `RTM_GETADDR`, without the envelope.

use crate::attribute::AddressAttribute;
use crate::header::AddressHeader;
use npr_base::Message;

/// An address message: a header of 8 bytes, and attributes to the end.
pub type AddressMessage = Message<AddressHeader, AddressAttribute>;
