//! Requests to the kernel, with the flags that `ip` sets.

ghost use Rattle.netlink_packet_core.specs.{
  Message.{message_of},
  Request.{IsRequest, dump_flags, get_flags, new_flags, replace_flags, delete_flags},
};

use crate::constants::{
    NLM_F_ACK, NLM_F_CREATE, NLM_F_DUMP, NLM_F_EXCL, NLM_F_REPLACE, NLM_F_REQUEST,
};
use crate::header::NetlinkHeader;
use crate::message::NetlinkMessage;
use crate::payload::NetlinkPayload;
use crate::traits::NetlinkInner;

impl<I: NetlinkInner> NetlinkMessage<I> {
    fn request(flags: u16, sequence_number: u32, inner: I) -> Self
        ensures { IsRequest I.protocol flags sequence_number (I.meaning inner) (message_of I.meaning result) }
    {
        let header = NetlinkHeader {
            message_type: inner.message_type(),
            flags,
            sequence_number,
            ..NetlinkHeader::default()
        };
        NetlinkMessage {
            header,
            payload: NetlinkPayload::InnerMessage(inner),
        }
    }

    /// Asks for all entries that the message names, as `RTM_GETROUTE` of a family.
    pub fn dump_request(sequence_number: u32, inner: I) -> Self
        ensures { IsRequest I.protocol dump_flags sequence_number (I.meaning inner) (message_of I.meaning result) }
    {
        NetlinkMessage::request(NLM_F_REQUEST + NLM_F_DUMP, sequence_number, inner)
    }

    /// Asks for one entry.
    pub fn get_request(sequence_number: u32, inner: I) -> Self
        ensures { IsRequest I.protocol get_flags sequence_number (I.meaning inner) (message_of I.meaning result) }
    {
        NetlinkMessage::request(NLM_F_REQUEST, sequence_number, inner)
    }

    /// Makes an entry that is not there, and asks for an acknowledgement.
    pub fn new_request(sequence_number: u32, inner: I) -> Self
        ensures { IsRequest I.protocol new_flags sequence_number (I.meaning inner) (message_of I.meaning result) }
    {
        let flags = NLM_F_REQUEST + NLM_F_ACK + NLM_F_EXCL + NLM_F_CREATE;
        NetlinkMessage::request(flags, sequence_number, inner)
    }

    /// Makes an entry, in place of one that is there, and asks for an acknowledgement.
    pub fn replace_request(sequence_number: u32, inner: I) -> Self
        ensures { IsRequest I.protocol replace_flags sequence_number (I.meaning inner) (message_of I.meaning result) }
    {
        let flags = NLM_F_REQUEST + NLM_F_ACK + NLM_F_REPLACE + NLM_F_CREATE;
        NetlinkMessage::request(flags, sequence_number, inner)
    }

    /// Takes an entry away, and asks for an acknowledgement.
    pub fn delete_request(sequence_number: u32, inner: I) -> Self
        ensures { IsRequest I.protocol delete_flags sequence_number (I.meaning inner) (message_of I.meaning result) }
    {
        NetlinkMessage::request(NLM_F_REQUEST + NLM_F_ACK, sequence_number, inner)
    }
}
