//! The report on a message that was read.

ghost use Rattle.std.specs.Prelude.{◌≡◌, ◌++◌, ℕ, List, length, string_bytes, IfErr, IfOk, OnOk};
ghost use Rattle.{
  netlink_packet_route.specs.Framing.{Item, Cut},
  netlink_report.specs.{Report.{closing_text, heading_text, line_text, lines_text, report}, declared.error.RunError.TheVariants.{Memory}},
};

use crate::error::RunError;
use netlink_packet_route::framing::NlasIterator;
use std::alloc::Global;

/// The report on a message of `bytes` bytes, given its canonical bytes, and those of them that are the
/// attributes.
pub fn whole(
    alloc: Global,
    name: &str,
    bytes: usize,
    attributes: &[u8],
    canonical: &[u8],
) -> Result<String, RunError>
    ensures ok { IfOk result (λ text. (items : List Item) → Cut attributes.now items → string_bytes text ≡ report name.now bytes items canonical.now) }
    ensures errors { IfErr result (λ e. e ≡ Memory) }
{
    let mut out = String::new(alloc);
    heading(&mut out, name, bytes, count(attributes))?;
    lines(&mut out, attributes)?;
    closing(alloc, &mut out, canonical)?;
    Ok(out)
}

/// How many attributes the bytes are.
fn count(attributes: &[u8]) -> usize
    ensures { (items : List Item) → Cut attributes.now items → result ≡ length items }
{
    let mut found = 0;
    let mut walk = NlasIterator::new(attributes);
    while let Some(next) = walk.next() {
        match next {
            Ok(_) => found += 1,
            Err(_) => return found,
        }
    }
    found
}

/// Appends the lines of the attributes that the bytes are.
fn lines(out: &mut String, attributes: &[u8]) -> Result<(), RunError>
    ensures ok { OnOk result ((items : List Item) → Cut attributes.now items → string_bytes out.new ≡ string_bytes out.old ++ lines_text items) }
    ensures errors { IfErr result (λ e. e ≡ Memory) }
{
    let mut walk = NlasIterator::new(attributes);
    while let Some(next) = walk.next() {
        match next {
            Ok(item) => line(out, item.raw_kind(), item.value().len())?,
            Err(_) => return Ok(()),
        }
    }
    Ok(())
}

/// Appends the first line: the message's name, how many bytes it has and how many attributes.
pub fn heading(
    out: &mut String,
    name: &str,
    bytes: usize,
    attributes: usize,
) -> Result<(), RunError>
    ensures ok { OnOk result (string_bytes out.new ≡ string_bytes out.old ++ heading_text name.now bytes attributes) }
    ensures errors { IfErr result (λ e. e ≡ Memory) }
{
    writeln!(out, "{name}: {bytes} bytes, {attributes} attributes")?;
    Ok(())
}

/// Appends an attribute's line: its kind as it is written, and how many bytes its value has.
pub fn line(out: &mut String, kind: u16, length: usize) -> Result<(), RunError>
    ensures ok { OnOk result (string_bytes out.new ≡ string_bytes out.old ++ line_text kind length) }
    ensures errors { IfErr result (λ e. e ≡ Memory) }
{
    writeln!(out, "kind {kind} length {length}")?;
    Ok(())
}

/// Appends the last two lines: how many bytes the canonical form has, and its bytes.
pub fn closing(alloc: Global, out: &mut String, canonical: &[u8]) -> Result<(), RunError>
    ensures ok { OnOk result (string_bytes out.new ≡ string_bytes out.old ++ closing_text canonical.now) }
    ensures errors { IfErr result (λ e. e ≡ Memory) }
{
    let count = canonical.len();
    let digits = hex::encode(alloc, canonical)?;
    writeln!(out, "canonical {count} bytes\n{digits}")?;
    Ok(())
}
