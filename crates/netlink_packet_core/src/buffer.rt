//! One message, borrowed.

ghost use Rattle.std.specs.{Prelude.{◌≡◌, ◌+◌, length}, Cmp.{decided, partial_equiv_from_equiv}};
ghost use Rattle.netlink_packet_core.specs.{Envelope.{Envelope, EnvelopeBegins}, Walk.{same_envelope}, lemmas.Walk.{envelope_equality}};

use crate::constants::NETLINK_HEADER_LEN;
use crate::header::NetlinkHeader;
use crate::refusal::EnvelopeError;
use std::marker::Model;

/// One message, borrowed from the bytes that it stands in. Contracts see its header and its payload.
///
/// Layout: a [`NetlinkHeader`], the payload, and padding to a multiple of 4.
#[derive(Debug, Drop)]
pub struct NetlinkBuffer<'a> {
    header: NetlinkHeader,
    payload: &'a [u8],
}

impl<'a> Model for NetlinkBuffer<'a> {
    ghost Value = { Envelope };

    ghost view = { λ b. record { header = b.header; payload = b.payload.now } };

    ghost invariant = { λ b. b.header.length ≡ 16 + length b.payload.now };
}

impl<'a> NetlinkBuffer<'a> {
    /// The message in front of the bytes; padding is not looked at.
    ///
    /// # Errors
    /// `MessageTooShort` below 16 bytes; `MessageLength` where the length that the header states is
    /// below 16 or above the bytes that are there. The offset is 0.
    pub fn new_checked(bytes: &'a [u8]) -> Result<Self, EnvelopeError>
        ensures { EnvelopeBegins 0 bytes.now result }
    {
        NetlinkBuffer::at_offset(0, bytes)
    }

    /// The message in front of the bytes, which stand at this offset.
    pub(crate) fn at_offset(offset: usize, bytes: &'a [u8]) -> Result<Self, EnvelopeError>
        ensures { EnvelopeBegins offset bytes.now result }
    {
        if bytes.len() < NETLINK_HEADER_LEN {
            return Err(EnvelopeError::MessageTooShort {
                offset,
                left: bytes.len(),
            });
        }
        let header = NetlinkHeader::in_front(bytes);
        if header.length < 16 || header.length as usize > bytes.len() {
            return Err(EnvelopeError::MessageLength {
                offset,
                length: header.length,
                left: bytes.len(),
            });
        }
        let payload = &bytes[16..header.length as usize];
        Ok(NetlinkBuffer { header, payload })
    }

    /// The header.
    pub fn header(&self) -> NetlinkHeader
        ensures { result ≡ self.now.header }
    {
        self.header
    }

    /// The length of header and payload, in bytes.
    pub fn length(&self) -> u32
        ensures { result ≡ 16 + length self.now.payload }
    {
        self.header.length
    }

    /// The type.
    pub fn message_type(&self) -> u16
        ensures { result ≡ self.now.header.message_type }
    {
        self.header.message_type
    }

    /// The flags.
    pub fn flags(&self) -> u16
        ensures { result ≡ self.now.header.flags }
    {
        self.header.flags
    }

    /// The number of the request to which the message belongs.
    pub fn sequence_number(&self) -> u32
        ensures { result ≡ self.now.header.sequence_number }
    {
        self.header.sequence_number
    }

    /// The port of the socket that asked, or 0.
    pub fn port_number(&self) -> u32
        ensures { result ≡ self.now.header.port_number }
    {
        self.header.port_number
    }

    /// The length of the payload, in bytes.
    pub fn payload_length(&self) -> usize
        ensures { result ≡ length self.now.payload }
    {
        self.payload.len()
    }

    /// The payload, without header and padding.
    pub fn payload(&self) -> &'a [u8]
        ensures { result.now ≡ self.now.payload }
    {
        self.payload
    }
}

impl<'a> PartialEq for NetlinkBuffer<'a> {
    ghost eq = { same_envelope };

    ghost laws = { partial_equiv_from_equiv (decided same_envelope envelope_equality) };

    fn eq(&self, other: &NetlinkBuffer<'a>) -> bool {
        self.header == other.header && self.payload == other.payload
    }
}

impl<'a> Eq for NetlinkBuffer<'a> {
    ghost laws = { decided same_envelope envelope_equality };
}
