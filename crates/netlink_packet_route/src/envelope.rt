//! The envelope of messages: `struct nlmsghdr` of `linux/netlink.h`, and what stands in it.
//!
//! ```
//! use netlink_packet_route::RouteNetlinkMessage;
//! use netlink_packet_route::envelope::{NetlinkMessage, NetlinkPayload};
//!
//! let datagram = [
//!     36, 0, 0, 0, 2, 0, 0, 1, 7, 0, 0, 0, 0, 0, 0, 0, // the envelope, of NLMSG_ERROR
//!     237, 255, 255, 255, // ENODEV, below 0
//!     32, 0, 0, 0, 17, 0, 5, 0, 7, 0, 0, 0, 0, 0, 0, 0, // that of the refused RTM_DELLINK
//! ];
//! for message in NetlinkMessage::<RouteNetlinkMessage>::all(&datagram) {
//!     let message = message?;
//!     assert_eq!(message.header.sequence_number, 7);
//!     if let NetlinkPayload::Error(error) = message.payload {
//!         assert_eq!(error.code.map(i32::from), Some(-19));
//!     }
//! }
//! # Ok::<(), Box<dyn std::error::Error>>(())
//! ```

pub use netlink_packet_core::{
    Answer, Conversation, DoneMessage, End, EnvelopeError, ErrorAttribute, ErrorMessage,
    NETLINK_HEADER_LEN, NLM_F_ACK, NLM_F_ACK_TLVS, NLM_F_APPEND, NLM_F_ATOMIC, NLM_F_BULK,
    NLM_F_CAPPED, NLM_F_CREATE, NLM_F_DUMP, NLM_F_DUMP_FILTERED, NLM_F_DUMP_INTR, NLM_F_ECHO,
    NLM_F_EXCL, NLM_F_MATCH, NLM_F_MULTIPART, NLM_F_NONREC, NLM_F_REPLACE, NLM_F_REQUEST,
    NLM_F_ROOT, NLMSG_ALIGNTO, NLMSG_DONE, NLMSG_ERROR, NLMSG_NOOP, NLMSG_OVERRUN, NetlinkBuffer,
    NetlinkHeader, NetlinkInner, NetlinkIterator, NetlinkMessage, NetlinkPayload, done_attributes,
    error_attributes, error_text, refused_message,
};
