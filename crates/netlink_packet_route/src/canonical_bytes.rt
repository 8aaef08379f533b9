//! The canonical bytes of a message of any kind, by one call.

ghost use Rattle.std.specs.Prelude.{◌≡◌, ◌≢◌, ◌≤◌, ◌*◌, ℕ, List, length, drop, IfOk, IfErr};
ghost use Rattle.{
  npr_base.specs.{Framing.{Item, Front, Writes}, declared.refusal.DecodeError.TheVariants.{OutOfMemory}},
  netlink_packet_route.specs.{
    Canonical.{CanonicalFault, Emits, Fills, IsCanonical, TakesMemory, unwritten},
    MessageKind.{form_of},
    RouteNetlinkMessage.{HasFirst},
    declared.canonical_bytes.{CanonicalError.{CanonicalError, TheVariants.{Refused}}, WriteCanonicalError.TheVariants.{Canonical, BufferTooShort}},
  },
};

use crate::kind::MessageKind;
use npr_address::{AddressHeader, AddressLabelHeader, PrefixHeader};
use npr_base::{DecodeError, EmitError, Emitable, Header, Message, Parseable, WriteError, to_vec};
use npr_link::LinkHeader;
use npr_namespace::{NetconfHeader, NsidHeader};
use npr_neighbour::{NeighbourHeader, NeighbourTableHeader};
use npr_nexthop::NextHopHeader;
use npr_route::RouteHeader;
use npr_rule::RuleHeader;
use npr_stats::StatsHeader;
use npr_tc::{TcActionMessageHeader, TcHeader};
use std::alloc::Global;
use thiserror::Error;

/// Why there are no canonical bytes.
#[derive(Clone, Copy, Debug, Drop, PartialEq, Eq, Error)]
pub enum CanonicalError {
    /// The bytes are no message, or memory was refused (`OutOfMemory`).
    #[error("{0}")]
    Refused(DecodeError),
    /// They are a message that can't be written.
    #[error("{0}")]
    Unfit(EmitError),
}

/// Why no canonical bytes are written to a buffer.
#[derive(Clone, Copy, Debug, Drop, PartialEq, Eq, Error)]
pub enum WriteCanonicalError {
    /// There are none.
    #[error("{0}")]
    Canonical(CanonicalError),
    /// There are `want`, and the buffer has room for `got`.
    #[error("a buffer of {got} bytes, where {want} are wanted")]
    BufferTooShort {
        /// The bytes of the buffer.
        got: usize,
        /// Those that are wanted.
        want: usize,
    },
}

impl From<DecodeError> for CanonicalError {
    ghost from_gives = { λ fault e. e ≡ Refused fault };

    fn from(fault: DecodeError) -> CanonicalError {
        CanonicalError::Refused(fault)
    }
}

impl From<WriteError> for CanonicalError {
    ghost from_gives = { λ fault e. e ≡ unwritten fault };

    fn from(fault: WriteError) -> CanonicalError {
        match fault {
            WriteError::OutOfMemory => CanonicalError::Refused(DecodeError::OutOfMemory),
            WriteError::Unfit(cause) => CanonicalError::Unfit(cause),
        }
    }
}

impl From<CanonicalError> for WriteCanonicalError {
    ghost from_gives = { λ fault e. e ≡ Canonical fault };

    fn from(fault: CanonicalError) -> WriteCanonicalError {
        WriteCanonicalError::Canonical(fault)
    }
}

/// A call of the function of this name for the header of a message of this kind.
macro_rules! by_kind {
    ($kind:expr, $function:ident $arguments:tt) => {
        match $kind {
            MessageKind::Address => $function::<AddressHeader> $arguments,
            MessageKind::Route => $function::<RouteHeader> $arguments,
            MessageKind::Rule => $function::<RuleHeader> $arguments,
            MessageKind::Neighbour => $function::<NeighbourHeader> $arguments,
            MessageKind::Link => $function::<LinkHeader> $arguments,
            MessageKind::NextHop => $function::<NextHopHeader> $arguments,
            MessageKind::Nsid => $function::<NsidHeader> $arguments,
            MessageKind::Netconf => $function::<NetconfHeader> $arguments,
            MessageKind::AddressLabel => $function::<AddressLabelHeader> $arguments,
            MessageKind::NeighbourTable => $function::<NeighbourTableHeader> $arguments,
            MessageKind::Prefix => $function::<PrefixHeader> $arguments,
            MessageKind::Tc => $function::<TcHeader> $arguments,
            MessageKind::TcAction => $function::<TcActionMessageHeader> $arguments,
            MessageKind::Stats => $function::<StatsHeader> $arguments,
        }
    };
}

/// Writes the canonical bytes of the message of this kind that the bytes are to the front of `out`, and
/// answers how many they are. The rest of `out` is left, and all of it where they aren't written. A buffer
/// of five halves of the input is never too short.
///
/// # Errors
/// `Canonical` where there are none: with the first fault of the bytes or want of memory, or with the first
/// cause why the message can't be written. `BufferTooShort` where they have no room.
pub fn write_canonical(
    alloc: Global,
    kind: MessageKind,
    bytes: &[u8],
    out: &mut [u8],
) -> Result<usize, WriteCanonicalError>
    // What is written, or why nothing is.
    ensures answer { Fills (form_of kind).grammar bytes.now out.old out.new result }
    // There are no other canonical bytes,
    ensures one { IfOk result (λ _. (other : List ℕ) → IsCanonical (form_of kind).grammar bytes.now other → Writes out.old out.new other) }
    // and none after such an error.
    ensures none { (e : CanonicalError) → result ≡ Err (Canonical e) → e ≢ Refused OutOfMemory → (other : List ℕ)
        → IsCanonical (form_of kind).grammar bytes.now other → ⊥ }
    // Memory is taken behind a first whole attribute alone.
    ensures memory { result ≡ Err (Canonical (Refused OutOfMemory)) → HasFirst kind bytes.now }
    ensures room { 5 * length bytes.now ≤ 2 * length out.old → (got want : ℕ) → result ≢ Err (BufferTooShort got want) }
{
    by_kind!(kind, write_by(alloc, bytes, out))
}

/// The canonical bytes of the message of this kind that the bytes are.
///
/// # Errors
/// `Refused` with the first fault of the bytes, or with `OutOfMemory` where memory is refused; `Unfit` with
/// the first cause why the message can't be written.
pub fn canonical(alloc: Global, kind: MessageKind, bytes: &[u8]) -> Result<Vec<u8>, CanonicalError>
    ensures ok { IfOk result (λ out. IsCanonical (form_of kind).grammar bytes.now out.items) }
    // There are no others.
    ensures one { IfOk result (λ out. (other : List ℕ) → IsCanonical (form_of kind).grammar bytes.now other → out.items ≡ other) }
    // They are at most five halves as long as what was read.
    ensures growth { IfOk result (λ out. 2 * length out.items ≤ 5 * length bytes.now) }
    // An error says why there are none, or that memory was refused.
    ensures fault { IfErr result (λ e. e ≢ Refused OutOfMemory → CanonicalFault (form_of kind).grammar bytes.now e) }
    // Then there are none.
    ensures none { IfErr result (λ e. e ≢ Refused OutOfMemory → (other : List ℕ) → IsCanonical (form_of kind).grammar bytes.now other → ⊥) }
    // Memory is taken behind a first whole attribute, and for canonical bytes that there are.
    ensures memory { result ≡ Err (Refused OutOfMemory) → TakesMemory (form_of kind).grammar bytes.now }
{
    by_kind!(kind, canonical_by(alloc, bytes))
}

/// `write_canonical` of a message with such a header.
fn write_by<H: Header>(
    alloc: Global,
    bytes: &[u8],
    out: &mut [u8],
) -> Result<usize, WriteCanonicalError>
    ensures answer { Fills H.grammar bytes.now out.old out.new result }
    ensures one { IfOk result (λ _. (other : List ℕ) → IsCanonical H.grammar bytes.now other → Writes out.old out.new other) }
    ensures none { (e : CanonicalError) → result ≡ Err (Canonical e) → e ≢ Refused OutOfMemory → (other : List ℕ) → IsCanonical H.grammar bytes.now other → ⊥ }
    ensures memory { result ≡ Err (Canonical (Refused OutOfMemory)) → (x : Item) × (rest : List ℕ) × Front (drop H.grammar.layout.size bytes.now) x rest }
    ensures room { 5 * length bytes.now ≤ 2 * length out.old → (got want : ℕ) → result ≢ Err (BufferTooShort got want) }
{
    match Message::<H, H::Attribute>::parse(alloc, bytes) {
        Ok(message) => emit_into(&message, out),
        Err(fault) => Err(WriteCanonicalError::Canonical(CanonicalError::Refused(fault))),
    }
}

/// Writes the message to the front of the buffer, where it can be written and has room there.
fn emit_into<M: Emitable>(message: &M, out: &mut [u8]) -> Result<usize, WriteCanonicalError>
    ensures { Emits (M.unfit message.now) (M.bytes message.now) out.old out.new result }
{
    match message.check() {
        Ok(length) if length <= out.len() => {
            message.emit(out);
            Ok(length)
        }
        Ok(want) => Err(WriteCanonicalError::BufferTooShort {
            got: out.len(),
            want,
        }),
        Err(cause) => Err(WriteCanonicalError::Canonical(CanonicalError::Unfit(cause))),
    }
}

/// `canonical` of a message with such a header.
fn canonical_by<H: Header>(alloc: Global, bytes: &[u8]) -> Result<Vec<u8>, CanonicalError>
    ensures ok { IfOk result (λ out. IsCanonical H.grammar bytes.now out.items) }
    ensures one { IfOk result (λ out. (other : List ℕ) → IsCanonical H.grammar bytes.now other → out.items ≡ other) }
    ensures growth { IfOk result (λ out. 2 * length out.items ≤ 5 * length bytes.now) }
    ensures fault { IfErr result (λ e. e ≢ Refused OutOfMemory → CanonicalFault H.grammar bytes.now e) }
    ensures none { IfErr result (λ e. e ≢ Refused OutOfMemory → (other : List ℕ) → IsCanonical H.grammar bytes.now other → ⊥) }
    ensures memory { result ≡ Err (Refused OutOfMemory) → TakesMemory H.grammar bytes.now }
{
    let message = Message::<H, H::Attribute>::parse(alloc, bytes)?;
    Ok(to_vec(alloc, &message)?)
}
