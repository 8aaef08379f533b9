//! What stands behind the header of an envelope, by its protocol.

ghost use Rattle.std.specs.Prelude.{◌≡◌, ◌≢◌, ℕ, List, IfOk, IfErr, IsErrOf, OnErr};
ghost use Rattle.{npr_base.specs.declared.refusal.DecodeError.TheVariants.{OutOfMemory}, netlink_packet_core.specs.Protocol.{Protocol}};

use crate::header::NetlinkHeader;
use npr_base::{DecodeError, Emitable};
use std::alloc::{AllocError, Global};

/// A message of a protocol: it says its type and its bytes, and is read by its type.
pub trait NetlinkInner: Emitable + Drop {
    /// What it is, without where it lies in memory.
    ghost Meaning: { Type 0 };

    ghost meaning: { Self → Meaning };

    /// How messages are written, and what bytes under a type mean, with the laws of both.
    ghost protocol: { Protocol Meaning };

    /// Reading these bytes under this type may want memory.
    ghost grows: { ℕ → List ℕ → Type 0 };

    /// A copy of the message may want memory.
    ghost copy_grows: { Meaning → Type 0 };

    /// The type that stands in the header.
    fn message_type(&self) -> u16
        ensures { result ≡ protocol.number (meaning self.now) };

    /// The message that the bytes behind this header are.
    ///
    /// # Errors
    /// `OutOfMemory` where memory is refused, and else what is wrong with the bytes.
    fn deserialize(
        alloc: Global,
        header: &NetlinkHeader,
        payload: &[u8],
    ) -> Result<Self, DecodeError>
        ensures ok { IfOk result (λ m. protocol.Reads header.now.message_type payload.now (meaning m)) }
        ensures refused { IfErr result (λ e. e ≢ OutOfMemory → protocol.Faulty header.now.message_type payload.now e) }
        ensures memory { IsErrOf result OutOfMemory → grows header.now.message_type payload.now };

    /// An equal message.
    ///
    /// # Errors
    /// `AllocError` where memory is refused.
    fn try_clone(&self, alloc: Global) -> Result<Self, AllocError>
        ensures ok { IfOk result (λ m. meaning m ≡ meaning self.now) }
        ensures memory { OnErr result (copy_grows (meaning self.now)) };

    /// It is written as its protocol says.
    ghost by_protocol: { (m : Self) → (Self.bytes m ≡ protocol.encode (meaning m)) × (Self.unfit m ≡ protocol.unfit (meaning m)) };
}
