//! What stands behind the header of an envelope.

ghost use Rattle.std.specs.Prelude.{◌≡◌, ◌≢◌, ◌+◌, ◌<◌, ◌≤◌, None, length, IfOk, IfErr, IsErrOf, OnErr};
ghost use Rattle.{
  npr_base.specs.{declared.refusal.DecodeError.TheVariants.{OutOfMemory}, Framing.{Writes}},
  netlink_packet_core.specs.Payload.{Payload, payload_of, error_of, done_of, IsCoherentPayload, payload_type, payload_bytes, payload_unfit, PayloadReads, PayloadFault, PayloadGrows, CopyGrows, IsCoded, IsUncoded, end_of, code_of, coded},
};

use crate::constants::{NLMSG_DONE, NLMSG_ERROR, NLMSG_NOOP, NLMSG_OVERRUN};
use crate::header::NetlinkHeader;
use crate::traits::NetlinkInner;
use npr_base::{DecodeError, EmitError, Emitable, read_bytes, write_array, write_bytes};
use std::alloc::{AllocError, Global};
use std::num::NonZeroI32;

/// An error, or an acknowledgement: `struct nlmsgerr` of `linux/netlink.h`.
///
/// Layout: the code in 4 bytes, signed, little endian, and the bytes behind it.
#[derive(Debug, Drop, PartialEq, Eq)]
pub struct ErrorMessage {
    /// The number of the error, below 0; `None` is 0, an acknowledgement.
    pub code: Option<NonZeroI32>,
    /// The header of the message that was refused, and what stands behind it.
    pub header: Vec<u8>,
}

/// The end of a dump.
///
/// Layout: the code in 4 bytes, signed, little endian, and the bytes behind it. Without bytes it is
/// the code 0, as some kernels write it.
#[derive(Debug, Drop, PartialEq, Eq)]
pub struct DoneMessage {
    /// The number of the error, below 0, or what the kernel's function answered.
    pub code: i32,
    /// The attributes of an extended answer, as they stand.
    pub extended_ack: Vec<u8>,
}

/// What stands behind the header of an envelope.
#[derive(Debug, Drop, PartialEq, Eq)]
pub enum NetlinkPayload<I> {
    /// `NLMSG_DONE`: the end of a dump.
    Done(DoneMessage),
    /// `NLMSG_ERROR`: an error, or an acknowledgement.
    Error(ErrorMessage),
    /// `NLMSG_NOOP`: nothing; its bytes are not looked at.
    Noop,
    /// `NLMSG_OVERRUN`: data were lost.
    Overrun(Vec<u8>),
    /// Any other type: a message of the protocol.
    InnerMessage(I),
}

/// The code in front of the bytes, and what stands behind it.
///
/// # Errors
/// `HeaderTooShort` below 4 bytes.
pub(crate) fn split_code(bytes: &[u8]) -> Result<(i32, &[u8]), DecodeError>
    ensures ok { IfOk result (λ r. IsCoded bytes.now r.0 r.1.now) }
    ensures refused { IfErr result (λ e. IsUncoded bytes.now e) }
{
    let Some((code, rest)) = bytes.split_first_chunk::<4>() else {
        return Err(DecodeError::HeaderTooShort {
            got: bytes.len(),
            want: 4,
        });
    };
    Ok((i32::from_le_bytes(*code), rest))
}

/// The code of an end, and what stands behind it; without bytes the code is 0.
///
/// # Errors
/// `HeaderTooShort` at 1 to 3 bytes.
pub(crate) fn split_end(bytes: &[u8]) -> Result<(i32, &[u8]), DecodeError>
    ensures ok { IfOk result (λ r. IsCoded (end_of bytes.now) r.0 r.1.now) }
    ensures refused { IfErr result (λ e. IsUncoded (end_of bytes.now) e) }
{
    if bytes.is_empty() {
        return Ok((0, bytes));
    }
    split_code(bytes)
}

impl ErrorMessage {
    /// The message that the bytes behind a header are.
    ///
    /// # Errors
    /// `OutOfMemory` where memory is refused, and `HeaderTooShort` below 4 bytes.
    pub fn parse(alloc: Global, bytes: &[u8]) -> Result<Self, DecodeError>
        ensures ok { IfOk result (λ m. IsCoded bytes.now (code_of m.code) m.header.items) }
        ensures refused { IfErr result (λ e. e ≢ OutOfMemory → IsUncoded bytes.now e) }
        ensures memory { IsErrOf result OutOfMemory → 4 < length bytes.now }
    {
        let (code, rest) = split_code(bytes)?;
        Ok(ErrorMessage {
            code: NonZeroI32::new(code),
            header: read_bytes(alloc, rest)?,
        })
    }

    /// An equal message.
    ///
    /// # Errors
    /// `AllocError` where memory is refused; without bytes behind the code none is taken.
    pub fn try_clone(&self, alloc: Global) -> Result<Self, AllocError>
        ensures ok { IfOk result (λ m. error_of m ≡ error_of self.now) }
        ensures memory { OnErr result (0 < length self.now.header.items) }
    {
        Ok(ErrorMessage {
            code: self.code,
            header: read_bytes(alloc, self.header.as_slice())?,
        })
    }

    /// The number of the error, below 0; 0 is an acknowledgement.
    pub fn raw_code(&self) -> i32
        ensures { result ≡ code_of self.now.code }
    {
        match self.code {
            Some(code) => code.get(),
            None => 0,
        }
    }
}

impl Emitable for ErrorMessage {
    ghost bytes = { λ m. coded (code_of m.code) m.header.items };

    fn check(&self) -> Result<usize, EmitError> {
        Ok(4 + self.header.len())
    }

    fn emit(&self, out: &mut [u8]) {
        write_coded(self.raw_code(), self.header.as_slice(), out);
    }
}

impl DoneMessage {
    /// The message that the bytes behind a header are.
    ///
    /// # Errors
    /// `OutOfMemory` where memory is refused, and `HeaderTooShort` at 1 to 3 bytes.
    pub fn parse(alloc: Global, bytes: &[u8]) -> Result<Self, DecodeError>
        ensures ok { IfOk result (λ m. IsCoded (end_of bytes.now) m.code m.extended_ack.items) }
        ensures refused { IfErr result (λ e. e ≢ OutOfMemory → IsUncoded (end_of bytes.now) e) }
        ensures memory { IsErrOf result OutOfMemory → 4 < length bytes.now }
    {
        let (code, rest) = split_end(bytes)?;
        Ok(DoneMessage {
            code,
            extended_ack: read_bytes(alloc, rest)?,
        })
    }

    /// An equal message.
    ///
    /// # Errors
    /// `AllocError` where memory is refused; without bytes behind the code none is taken.
    pub fn try_clone(&self, alloc: Global) -> Result<Self, AllocError>
        ensures ok { IfOk result (λ m. done_of m ≡ done_of self.now) }
        ensures memory { OnErr result (0 < length self.now.extended_ack.items) }
    {
        Ok(DoneMessage {
            code: self.code,
            extended_ack: read_bytes(alloc, self.extended_ack.as_slice())?,
        })
    }
}

impl Emitable for DoneMessage {
    ghost bytes = { λ m. coded m.code m.extended_ack.items };

    fn check(&self) -> Result<usize, EmitError> {
        Ok(4 + self.extended_ack.len())
    }

    fn emit(&self, out: &mut [u8]) {
        write_coded(self.code, self.extended_ack.as_slice(), out);
    }
}

/// Writes a code and the bytes behind it at the front of the slice, and leaves the rest.
fn write_coded(code: i32, more: &[u8], out: &mut [u8])
    requires { 4 + length more.now ≤ length out.old }
    ensures { Writes out.old out.new (coded code more.now) }
{
    write_bytes(more, &mut out[4..]);
    write_array(code.to_le_bytes(), out);
}

fn read_payload<I: NetlinkInner>(
    alloc: Global,
    header: NetlinkHeader,
    bytes: &[u8],
) -> Result<NetlinkPayload<I>, DecodeError>
    ensures ok { IfOk result (λ p. PayloadReads I.protocol header.message_type bytes.now (payload_of I.meaning p)) }
    ensures refused { IfErr result (λ e. e ≢ OutOfMemory → PayloadFault I.protocol header.message_type bytes.now e) }
    ensures memory { IsErrOf result OutOfMemory → PayloadGrows I.grows header.message_type bytes.now }
{
    match header.message_type {
        NLMSG_NOOP => Ok(NetlinkPayload::Noop),
        NLMSG_ERROR => Ok(NetlinkPayload::Error(ErrorMessage::parse(alloc, bytes)?)),
        NLMSG_DONE => Ok(NetlinkPayload::Done(DoneMessage::parse(alloc, bytes)?)),
        NLMSG_OVERRUN => Ok(NetlinkPayload::Overrun(read_bytes(alloc, bytes)?)),
        _ => Ok(NetlinkPayload::InnerMessage(I::deserialize(alloc, &header, bytes)?)),
    }
}

impl<I: NetlinkInner> NetlinkPayload<I> {
    /// What the bytes behind this header are.
    ///
    /// # Errors
    /// `OutOfMemory` where memory is refused, and else what is wrong with the bytes.
    pub fn parse(alloc: Global, header: NetlinkHeader, bytes: &[u8]) -> Result<Self, DecodeError>
        // What is read is what the bytes mean under the type.
        ensures ok { IfOk result (λ p. PayloadReads I.protocol header.message_type bytes.now (payload_of I.meaning p)) }
        // They mean nothing else.
        ensures one { IfOk result (λ p. (q : Payload I.Meaning) → PayloadReads I.protocol header.message_type bytes.now q → payload_of I.meaning p ≡ q) }
        ensures coherent { IfOk result (λ p. IsCoherentPayload I.protocol (payload_of I.meaning p)) }
        ensures kind { IfOk result (λ p. payload_type I.protocol (payload_of I.meaning p) ≡ header.message_type) }
        // A refusal is what is wrong with them.
        ensures refused { IfErr result (λ e. e ≢ OutOfMemory → PayloadFault I.protocol header.message_type bytes.now e) }
        // Then they mean nothing.
        ensures none { IfErr result (λ e. e ≢ OutOfMemory → (q : Payload I.Meaning) → PayloadReads I.protocol header.message_type bytes.now q → ⊥) }
        // Memory is taken only for bytes that are kept, and where the protocol says it.
        ensures memory { IsErrOf result OutOfMemory → PayloadGrows I.grows header.message_type bytes.now }
    {
        read_payload(alloc, header, bytes)
    }

    /// An equal payload.
    ///
    /// # Errors
    /// `AllocError` where memory is refused.
    pub fn try_clone(&self, alloc: Global) -> Result<Self, AllocError>
        ensures ok { IfOk result (λ p. payload_of I.meaning p ≡ payload_of I.meaning self.now) }
        ensures memory { OnErr result (CopyGrows I.copy_grows (payload_of I.meaning self.now)) }
    {
        Ok(match self {
            NetlinkPayload::Done(m) => NetlinkPayload::Done(m.try_clone(alloc)?),
            NetlinkPayload::Error(m) => NetlinkPayload::Error(m.try_clone(alloc)?),
            NetlinkPayload::Noop => NetlinkPayload::Noop,
            NetlinkPayload::Overrun(bytes) => {
                NetlinkPayload::Overrun(read_bytes(alloc, bytes.as_slice())?)
            }
            NetlinkPayload::InnerMessage(m) => NetlinkPayload::InnerMessage(m.try_clone(alloc)?),
        })
    }

    /// The type that stands in the header.
    pub fn message_type(&self) -> u16
        ensures { result ≡ payload_type I.protocol (payload_of I.meaning self.now) }
    {
        match self {
            NetlinkPayload::Done(_) => NLMSG_DONE,
            NetlinkPayload::Error(_) => NLMSG_ERROR,
            NetlinkPayload::Noop => NLMSG_NOOP,
            NetlinkPayload::Overrun(_) => NLMSG_OVERRUN,
            NetlinkPayload::InnerMessage(m) => m.message_type(),
        }
    }
}

impl<I: NetlinkInner> Emitable for NetlinkPayload<I> {
    ghost bytes = { λ p. payload_bytes I.protocol (payload_of I.meaning p) };

    ghost unfit = { λ p. payload_unfit I.protocol (payload_of I.meaning p) };

    fn check(&self) -> Result<usize, EmitError> {
        match self {
            NetlinkPayload::Done(m) => m.check(),
            NetlinkPayload::Error(m) => m.check(),
            NetlinkPayload::Noop => Ok(0),
            NetlinkPayload::Overrun(bytes) => Ok(bytes.len()),
            NetlinkPayload::InnerMessage(m) => m.check(),
        }
    }

    fn emit(&self, out: &mut [u8]) {
        match self {
            NetlinkPayload::Done(m) => m.emit(out),
            NetlinkPayload::Error(m) => m.emit(out),
            NetlinkPayload::Noop => {}
            NetlinkPayload::Overrun(bytes) => {
                write_bytes(bytes.as_slice(), out);
            }
            NetlinkPayload::InnerMessage(m) => m.emit(out),
        }
    }
}
