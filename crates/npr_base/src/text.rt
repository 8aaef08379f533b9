//! Parts of printed texts.

ghost use Rattle.std.specs.Fmt.{WritesOnOk, DisplaysOnOk};
ghost use Rattle.npr_base.specs.Text.{each_after, joined_by, hex_text, padded_hex_text};

use std::fmt;

/// Writes each part, with the separator between them.
pub fn write_joined<W: fmt::Write, T: fmt::Display>(
    f: &mut fmt::Formatter<W>,
    parts: &[T],
    separator: &str,
) -> fmt::Result
    ensures { DisplaysOnOk W.write_str_gives f.old result (joined_by separator.now T.output parts.now) f.new }
{
    if let [first, rest @ ..] = parts {
        first.fmt(f)?;
        write_after(f, rest, separator)?;
    }
    Ok(())
}

/// Writes each part behind the separator.
fn write_after<W: fmt::Write, T: fmt::Display>(
    f: &mut fmt::Formatter<W>,
    parts: &[T],
    separator: &str,
) -> fmt::Result
    ensures { DisplaysOnOk W.write_str_gives f.old result (each_after separator.now T.output parts.now) f.new }
{
    for part in parts {
        f.write_str(separator)?;
        part.fmt(f)?;
    }
    Ok(())
}

/// Writes each byte as two lower-case hexadecimal digits.
pub fn write_hex<W: fmt::Write>(f: &mut fmt::Formatter<W>, bytes: &[u8]) -> fmt::Result
    ensures { WritesOnOk W.write_str_gives f.old result (hex_text bytes.now) f.new }
{
    for byte in bytes {
        write!(f, "{byte:02x}")?;
    }
    Ok(())
}

/// Writes a number in lower-case hexadecimal digits, six at least.
pub fn write_six_hex_digits<W: fmt::Write>(f: &mut fmt::Formatter<W>, number: u32) -> fmt::Result
    ensures { WritesOnOk W.write_str_gives f.old result (padded_hex_text 6 number) f.new }
{
    write!(f, "{number:06x}")
}
