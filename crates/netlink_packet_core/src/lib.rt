//! The envelope of netlink messages: what stands between a socket's bytes and a message.
#![tactic(auto)]

mod buffer;
mod constants;
mod conversation;
mod extended;
mod header;
pub mod laws;
mod message;
mod payload;
mod refusal;
mod request;
mod traits;
mod walk;

pub use buffer::NetlinkBuffer;
pub use constants::{
    NETLINK_HEADER_LEN, NLM_F_ACK, NLM_F_ACK_TLVS, NLM_F_APPEND, NLM_F_ATOMIC, NLM_F_BULK,
    NLM_F_CAPPED, NLM_F_CREATE, NLM_F_DUMP, NLM_F_DUMP_FILTERED, NLM_F_DUMP_INTR, NLM_F_ECHO,
    NLM_F_EXCL, NLM_F_MATCH, NLM_F_MULTIPART, NLM_F_NONREC, NLM_F_REPLACE, NLM_F_REQUEST,
    NLM_F_ROOT, NLMSG_ALIGNTO, NLMSG_DONE, NLMSG_ERROR, NLMSG_NOOP, NLMSG_OVERRUN,
};
pub use conversation::{Answer, Conversation, End};
pub use extended::{
    ErrorAttribute, done_attributes, error_attributes, error_text, refused_message,
};
pub use header::NetlinkHeader;
pub use message::NetlinkMessage;
pub use payload::{DoneMessage, ErrorMessage, NetlinkPayload};
pub use refusal::EnvelopeError;
pub use traits::NetlinkInner;
pub use walk::NetlinkIterator;
