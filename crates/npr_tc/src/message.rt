//! Messages of traffic control: `RTM_NEWQDISC` to `RTM_GETTFILTER` and `RTM_NEWCHAIN` to `RTM_GETCHAIN`,
//! without the envelope.

use crate::attribute::TcAttribute;
use crate::header::TcHeader;
use npr_base::Message;

/// A message of a queueing discipline, a class, a filter or a chain, which its type tells: a header of 20
/// bytes, and attributes to the end.
pub type TcMessage = Message<TcHeader, TcAttribute>;
