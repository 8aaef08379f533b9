//! Writing a whole text.

ghost use Rattle.std.specs.{Prelude.{◌≡◌, ◌<◌, ℕ, length, take, IfErr, OnOk, OnErr}, Io.KnownBytes.{Appends, Keeps}};
ghost use Rattle.netlink_report.specs.{Counted.{raised}, declared.error.RunError.TheVariants.{Write as WriteFailed}};

use crate::counted::Counted;
use crate::error::RunError;
use std::io::Write;

/// Writes `text`, by as many calls as that takes. No failed call is tried again.
pub fn write_text<W: Write>(writer: &mut Counted<W>, text: &[u8]) -> Result<(), RunError>
    ensures ok { OnOk result (Appends (W.contents writer.old.inner) (W.contents writer.new.inner) text.now) }
    ensures kept { OnOk result (writer.new.failures ≡ writer.old.failures) }
    ensures part { OnErr result ((n : ℕ) × (n < length text.now)
        × Appends (W.contents writer.old.inner) (W.contents writer.new.inner) (take n text.now)) }
    ensures failed { OnErr result (writer.new.failures ≡ raised writer.old.failures) }
    ensures errors { IfErr result (λ e. e ≡ WriteFailed) }
{
    let mut done = 0;
    while done < text.len() {
        match writer.write(&text[done..]) {
            Ok(count) => done += count,
            Err(_) => return Err(RunError::Write),
        }
    }
    Ok(())
}

/// Hands on what the writer may still hold back.
pub fn finish<W: Write>(writer: &mut Counted<W>) -> Result<(), RunError>
    ensures bytes { Keeps (W.contents writer.old.inner) (W.contents writer.new.inner) }
    ensures kept { OnOk result (writer.new.failures ≡ writer.old.failures) }
    ensures failed { OnErr result (writer.new.failures ≡ raised writer.old.failures) }
    ensures errors { IfErr result (λ e. e ≡ WriteFailed) }
{
    match writer.flush() {
        Ok(()) => Ok(()),
        Err(_) => Err(RunError::Write),
    }
}
