//! Messages of traffic control.
#![tactic(auto)]

mod action_attribute;
mod action_flags;
mod action_header;
mod attribute;
mod header;
pub mod laws;
mod message;
mod option;

pub use action_attribute::TcActionMessageAttribute;
pub use action_flags::{TcActionMessageFlags, TcActionMessageFlagsWithSelector};
pub use action_header::{TcActionMessage, TcActionMessageBuffer, TcActionMessageHeader};
pub use attribute::TcAttribute;
pub use header::{TcHeader, TcMessageBuffer};
pub use message::TcMessage;
pub use option::TcOption;
