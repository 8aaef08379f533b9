//! Messages: an envelope and what stands in it.

ghost use Rattle.std.specs.Prelude.{◌≡◌, ◌≢◌, ◌+◌, ◌<◌, ◌^◌, None, length, IfOk, IfErr, IsErrOf, OnErr};
ghost use Rattle.{
  npr_base.specs.{declared.refusal.DecodeError.TheVariants.{OutOfMemory}, Lists.{checked}, Framing.{pad}},
  netlink_packet_core.specs.{
    Message.{View, message_of, IsNetlinkMessage, NetlinkFault, IsCoherentMessage, final_header, finalized, envelope_of, message_bytes, oversized, netlink_unfit},
    Payload.{payload_of, payload_bytes, PayloadGrows, CopyGrows},
  },
};

use crate::buffer::NetlinkBuffer;
use crate::constants::{NETLINK_HEADER_LEN, NLMSG_ALIGNTO};
use crate::header::NetlinkHeader;
use crate::payload::NetlinkPayload;
use crate::traits::NetlinkInner;
use npr_base::{DecodeError, EmitError, Emitable, Parseable, write_zeros};
use std::alloc::{AllocError, Global};

/// A message: the header of its envelope, and what stands behind it.
#[derive(Debug, Drop, PartialEq, Eq)]
pub struct NetlinkMessage<I> {
    /// The header. What is written has the length and the type of the payload, whatever stands here.
    pub header: NetlinkHeader,
    /// What stands behind it.
    pub payload: NetlinkPayload<I>,
}

impl<I: NetlinkInner> NetlinkMessage<I> {
    /// The header that is written, for a payload of this length.
    fn final_header(&self, len: usize) -> NetlinkHeader
        requires length { len ≡ length (payload_bytes I.protocol (payload_of I.meaning self.now.payload)) }
        requires fits { 16 + len < 2 ^ 32 }
        ensures { result ≡ final_header I.protocol (message_of I.meaning self.now) }
    {
        NetlinkHeader {
            length: (NETLINK_HEADER_LEN + len) as u32,
            message_type: self.payload.message_type(),
            ..self.header
        }
    }

    /// An equal message.
    ///
    /// # Errors
    /// `AllocError` where memory is refused.
    pub fn try_clone(&self, alloc: Global) -> Result<Self, AllocError>
        ensures ok { IfOk result (λ m. message_of I.meaning m ≡ message_of I.meaning self.now) }
        ensures memory { OnErr result (CopyGrows I.copy_grows (payload_of I.meaning self.now.payload)) }
    {
        Ok(NetlinkMessage {
            header: self.header,
            payload: self.payload.try_clone(alloc)?,
        })
    }

    /// Sets the length and the type of the header to those of the payload, which are written in any
    /// case. Asks that `check` accepts.
    ///
    /// # Panics
    /// May panic where it is not as asked.
    pub fn finalize(&mut self)
        requires { netlink_unfit I.protocol (message_of I.meaning self.old) ≡ None }
        ensures { message_of I.meaning self.new ≡ finalized I.protocol (message_of I.meaning self.old) }
    {
        self.header = self.final_header(self.payload.buffer_len());
    }
}

impl<'a, I: NetlinkInner> Parseable<&'a NetlinkBuffer<'a>> for NetlinkMessage<I> {
    ghost parses = { λ input m. IsNetlinkMessage I.protocol input.now (message_of I.meaning m) };

    ghost misparses = { λ input e. NetlinkFault I.protocol input.now e };

    /// The message that the envelope is.
    ///
    /// # Errors
    /// `OutOfMemory` where memory is refused, and else what is wrong with the payload.
    fn parse(alloc: Global, input: &'a NetlinkBuffer<'a>) -> Result<Self, DecodeError>
        // What is read is what the envelope means.
        ensures ok { IfOk result (λ m. IsNetlinkMessage I.protocol input.now (message_of I.meaning m)) }
        // It means nothing else.
        ensures one { IfOk result (λ m. (n : View I.Meaning) → IsNetlinkMessage I.protocol input.now n → message_of I.meaning m ≡ n) }
        ensures coherent { IfOk result (λ m. IsCoherentMessage I.protocol (message_of I.meaning m)) }
        // A refusal is the first fault.
        ensures refused { IfErr result (λ e. e ≢ OutOfMemory → NetlinkFault I.protocol input.now e) }
        // Then the envelope means nothing.
        ensures none { IfErr result (λ e. e ≢ OutOfMemory → (n : View I.Meaning) → IsNetlinkMessage I.protocol input.now n → ⊥) }
        // The envelope that is written of a message gives it back.
        ensures again { IfOk result (λ m. (n : View I.Meaning) → IsCoherentMessage I.protocol n → netlink_unfit I.protocol n ≡ None
            → input.now ≡ envelope_of I.protocol n → message_of I.meaning m ≡ finalized I.protocol n) }
        // Memory is taken only for bytes that are kept, and where the protocol says it.
        ensures memory { IsErrOf result OutOfMemory → PayloadGrows I.grows input.now.header.message_type input.now.payload }
    {
        let header = input.header();
        let payload = NetlinkPayload::parse(alloc, header, input.payload())?;
        Ok(NetlinkMessage { header, payload })
    }
}

/// The length of a message with a payload of this length, padding included.
fn framed_len(len: usize) -> Result<usize, EmitError>
    ensures { result ≡ checked (oversized len) (16 + (len + pad len)) }
{
    if len > u32::MAX as usize - NETLINK_HEADER_LEN {
        return Err(EmitError::Total);
    }
    Ok((NETLINK_HEADER_LEN + len).next_multiple_of(NLMSG_ALIGNTO))
}

impl<I: NetlinkInner> Emitable for NetlinkMessage<I> {
    ghost bytes = { λ m. message_bytes I.protocol (message_of I.meaning m) };

    ghost unfit = { λ m. netlink_unfit I.protocol (message_of I.meaning m) };

    fn check(&self) -> Result<usize, EmitError> {
        framed_len(self.payload.check()?)
    }

    fn emit(&self, out: &mut [u8]) {
        let len = self.payload.buffer_len();
        let size = NETLINK_HEADER_LEN + len;
        let padding = size.next_multiple_of(NLMSG_ALIGNTO) - size;
        self.final_header(len).emit(out);
        self.payload.emit(&mut out[NETLINK_HEADER_LEN..]);
        write_zeros(padding, &mut out[size..]);
    }
}
