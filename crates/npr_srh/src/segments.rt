//! What the families of routing headers share: their lengths, and the text of their segments.

ghost use Rattle.std.specs.{Prelude.{◌≡◌, ◌≤◌, ◌+◌, length, IfSome, IfNone, IfOk, IfErr}, List.{concat}, Fmt.{DisplaysOnOk}};
ghost use Rattle.{
  npr_base.specs.{Lists.{AllOf, checked, option_or, too_long}, declared.refusal.DecodeError.TheVariants.{OutOfMemory}},
  npr_srh.specs.{Headed.{IsParted}, Keeping.{IsUnread}, Segments.{too_many, header_text, segments_text}},
};

use npr_base::{DecodeError, EmitError, Ipv6Addr, check_len, read_v6_list, v6_list_len};
use std::alloc::Global;
use std::fmt;

/// The length of the value of a header: its segments, of which `most` fit, and `beside` bytes.
///
/// # Errors
/// `TooLong` above 65,531 bytes, and then `TooManySegments`.
pub(crate) fn check_header(
    kind: u16,
    beside: usize,
    segments: &[Ipv6Addr],
    most: usize,
) -> Result<usize, EmitError>
    requires { beside ≤ 52 }
    ensures each { AllOf (λ a. length a ≡ 16) segments.now }
    ensures is { let len = beside + length (concat segments.now) in result ≡ checked (option_or (too_long kind len) (too_many most (length segments.now))) len }
{
    let (len, count) = (beside + v6_list_len(segments), segments.len());
    check_len(kind, len)?;
    if most < count {
        return Err(EmitError::TooManySegments { count });
    }
    Ok(len)
}

/// The eight bytes in front of a routing header and its segments, or `None` where the value has not
/// the lengths of both. The refusal is `OutOfMemory` alone, where memory is refused.
#[tactic(auto, using(crate::specs::Headed::parted_sizes))]
pub(crate) fn read_parts(
    alloc: Global,
    value: &[u8],
) -> Option<Result<([u8; 8], Vec<Ipv6Addr>), DecodeError>>
    ensures ok { IfSome result (λ r. IfOk r (λ p. IsParted value.now (record { front = p.0; segments = p.1.items }))) }
    ensures none { IfNone result (IsUnread IsParted value.now) }
    ensures refused { IfSome result (λ r. IfErr r (λ e. e ≡ OutOfMemory)) }
{
    let head = *value.first_chunk::<8>()?;
    if value.len() != 8 * (value[1] as usize + 1) {
        return None;
    }
    if (value.len() - 8) % 16 != 0 {
        return None;
    }
    Some(read_v6_list(alloc, &value[8..]).map(|segments| (head, segments)))
}

/// Writes a header in the words of `ip`: a count, and the segments.
pub(crate) fn write_header<W: fmt::Write>(
    f: &mut fmt::Formatter<W>,
    count: u16,
    segments: &[Ipv6Addr],
) -> fmt::Result
    ensures { DisplaysOnOk W.write_str_gives f.old result (header_text count segments.now) f.new }
{
    write!(f, "srh segs {count} [ ")?;
    write_segments(f, segments)?;
    f.write_str(" ]")
}

/// Writes the addresses, the last one first, with a space between them.
fn write_segments<W: fmt::Write>(f: &mut fmt::Formatter<W>, segments: &[Ipv6Addr]) -> fmt::Result
    ensures { DisplaysOnOk W.write_str_gives f.old result (segments_text segments.now) f.new }
{
    if let [rest @ .., last] = segments {
        fmt::Display::fmt(last, f)?;
        for segment in rest.iter().rev() {
            write!(f, " {segment}")?;
        }
    }
    Ok(())
}
