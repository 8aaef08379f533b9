//! Canonical bytes of given bytes, into a given buffer.

ghost use Rattle.std.specs.Prelude.{◌≡◌, ◌≢◌, ◌≤◌, ◌*◌, length, MatchOption, IsSomeAnd};
ghost use Rattle.{
  netlink_packet_route.specs.{
    MessageKind.{form_of},
    RouteNetlinkMessage.{HasFirst},
    declared.framing.DecodeError.TheVariants.{OutOfMemory},
  },
  npr_c.specs.{Answers.{Tells, refused_answer, refused_by}, Kinds.{kind_at, unknown_kind}},
};

use crate::answer::Answer;
use crate::kinds::{UNKNOWN_KIND, kind_at};
use netlink_packet_route::{CanonicalError, MessageKind, WriteCanonicalError, write_canonical};
use std::alloc::Global;

/// Writes the canonical bytes of the message of this kind that the bytes are to the front of the buffer.
fn canonical(alloc: Global, kind: MessageKind, bytes: &[u8], out: &mut [u8]) -> Answer
    ensures answer { Tells (form_of kind).grammar bytes.now out.old out.new result }
    ensures memory { result ≡ refused_answer OutOfMemory → HasFirst kind bytes.now }
    ensures room { 5 * length bytes.now ≤ 2 * length out.old → result.status ≢ 3 }
{
    match write_canonical(alloc, kind, bytes, out) {
        Ok(length) => Answer::written(length),
        Err(WriteCanonicalError::Canonical(CanonicalError::Refused(fault))) => {
            Answer::refused(fault)
        }
        Err(WriteCanonicalError::Canonical(CanonicalError::Unfit(cause))) => Answer::unfit(cause),
        Err(WriteCanonicalError::BufferTooShort { got: _, want }) => Answer::short(want),
    }
}

/// Writes the canonical bytes of the message of the kind of this number that the bytes are to the front of
/// the buffer, and leaves the rest of it. The buffer is as it was where they aren't written.
///
/// # Errors
/// `UnknownKind` at a number of no kind.
#[unsafe(no_mangle)]
pub extern "C" fn npr_canonical(alloc: Global, kind: u32, bytes: &[u8], out: &mut [u8]) -> Answer
    ensures answer { MatchOption (kind_at kind) ((result ≡ refused_by unknown_kind) × (out.new ≡ out.old))
        (λ known. Tells (form_of known).grammar bytes.now out.old out.new result) }
    // Memory is refused behind a first whole attribute alone.
    ensures memory { result ≡ refused_answer OutOfMemory → IsSomeAnd (kind_at kind) (λ known. HasFirst known bytes.now) }
    // A buffer two and a half times as long as the bytes is never too short.
    ensures room { 5 * length bytes.now ≤ 2 * length out.old → result.status ≢ 3 }
{
    match kind_at(kind) {
        Some(known) => canonical(alloc, known, bytes, out),
        None => Answer::refused_by(UNKNOWN_KIND),
    }
}
