//! A run, from the text that is read to the report that is written.

ghost use Rattle.std.specs.{
  Prelude.{◌≡◌, ◌≢◌, ◌⊎◌, ◌<◌, ℕ, List, length, string_bytes, IfOk, IfErr, IfSome, OnOk, OnErr},
  Io.KnownBytes.{IsAtEnd, Keeps},
};
ghost use Rattle.{
  hex_text.specs.HexText.{IsHexText, IsNoHexText},
  netlink_packet_route.specs.declared.framing.{DecodeError.{DecodeError, TheVariants.{OutOfMemory}}, EmitError.{EmitError}},
  netlink_report.specs.{
    Counted.{raised},
    Error.{IsOfMessage, IsOfText},
    Run.{Ends, IsReport, IsRefused, IsUnfit, OfText, Reports, ReportsPart, SomethingLeft},
    Where.{IsMessagePlace, IsPlaceIn},
    declared.ended.Where.TheVariants.{Nowhere},
    declared.error.RunError.TheVariants.{BadHex, Memory, Refused, Unfit, Read as ReadFailed, Write as WriteFailed},
  },
};

use crate::command_line::Which;
use crate::counted::Counted;
use crate::ended::{Ended, Where};
use crate::envelope::is_envelope;
use crate::error::RunError;
use crate::input::read_all;
use crate::output::write_text;
use crate::report::whole;
use hex_text::{HexError, Place, bytes_of};
use netlink_packet_route::{MessageKind, Nest, canonical, locate};
use std::alloc::Global;
use std::io::{Read, Write};

/// Reads a text from `reader`, and writes the report on its message to `writer`.
///
/// # Errors
/// Why nothing is reported, or not all, and where the text or the message is wrong.
pub fn run<R: Read, W: Write>(
    alloc: Global,
    kind: Which,
    reader: &mut Counted<R>,
    writer: &mut Counted<W>,
) -> Result<(), Ended>
    ensures ok { OnOk result (Reports kind (R.remaining reader.old.inner)
        (W.contents writer.old.inner) (W.contents writer.new.inner)) }
    ensures never { ¬ Ends result (Refused OutOfMemory) }
    ensures bad { Ends result BadHex → IfSome (R.remaining reader.old.inner) IsNoHexText }
    ensures end { ¬ Ends result ReadFailed → ¬ Ends result Memory → IsAtEnd (R.remaining reader.new.inner) }
    ensures memory { Ends result Memory → SomethingLeft (R.remaining reader.old.inner) }
    ensures silent { OnErr result (¬ Ends result WriteFailed
        → Keeps (W.contents writer.old.inner) (W.contents writer.new.inner)) }
    ensures part { Ends result WriteFailed → ReportsPart kind (R.remaining reader.old.inner)
        (W.contents writer.old.inner) (W.contents writer.new.inner) }
    ensures read { Ends result ReadFailed → reader.new.failures ≡ raised reader.old.failures }
    ensures read_kept { ¬ Ends result ReadFailed → reader.new.failures ≡ reader.old.failures }
    ensures write { Ends result WriteFailed → writer.new.failures ≡ raised writer.old.failures }
    ensures write_kept { ¬ Ends result WriteFailed → writer.new.failures ≡ writer.old.failures }
    ensures refused { (e : DecodeError) → Ends result (Refused e) → OfText (R.remaining reader.old.inner) (λ bytes. IsRefused kind bytes e) }
    ensures unfit { (e : EmitError) → Ends result (Unfit e) → OfText (R.remaining reader.old.inner) (λ bytes. IsUnfit kind bytes e) }
    ensures place { IfErr result (λ ended. IfSome (R.remaining reader.old.inner) (λ text. IsPlaceIn kind text ended.error ended.place)) }
{
    let text = read_all(alloc, reader)?;
    let report = report_on(alloc, kind, text.as_slice())?;
    Ok(write_text(writer, report.as_str().as_bytes())?)
}

/// The report on a message of this kind that the text stands for.
fn report_on(alloc: Global, kind: MessageKind, text: &[u8]) -> Result<String, Ended>
    ensures ok { IfOk result (λ report. (bytes : List ℕ) × IsHexText text.now bytes × IsReport kind bytes (string_bytes report)) }
    ensures bad { Ends result BadHex → IsNoHexText text.now }
    ensures refused { (e : DecodeError) → Ends result (Refused e) → (bytes : List ℕ) × IsHexText text.now bytes × IsRefused kind bytes e }
    ensures unfit { (e : EmitError) → Ends result (Unfit e) → (bytes : List ℕ) × IsHexText text.now bytes × IsUnfit kind bytes e }
    ensures memory { Ends result Memory → 0 < length text.now }
    ensures errors { IfErr result (λ ended. IsOfText ended.error) }
    ensures place { IfErr result (λ ended. IsPlaceIn kind text.now ended.error ended.place) }
{
    let bytes = bytes_in(alloc, kind, text)?;
    match answer(alloc, kind, bytes.as_slice()) {
        Ok(report) => Ok(report),
        Err(error) => {
            let place = place_of(kind, bytes.as_slice(), error);
            Err(Ended { error, place })
        }
    }
}

/// The bytes that the text stands for.
fn bytes_in(alloc: Global, kind: MessageKind, text: &[u8]) -> Result<Vec<u8>, Ended>
    ensures ok { IfOk result (λ bytes. IsHexText text.now bytes.items) }
    ensures some { IfOk result (λ bytes. 0 < length bytes.items → 0 < length text.now) }
    ensures bad { Ends result BadHex → IsNoHexText text.now }
    ensures memory { Ends result Memory → 0 < length text.now }
    ensures errors { IfErr result (λ ended. (ended.error ≡ BadHex) ⊎ (ended.error ≡ Memory)) }
    ensures place { IfErr result (λ ended. IsPlaceIn kind text.now ended.error ended.place) }
{
    match bytes_of(alloc, text) {
        Ok(bytes) => Ok(bytes),
        Err(HexError::OutOfMemory) => Err(Ended::from(RunError::Memory)),
        Err(HexError::Bad(place)) => Err(Ended {
            error: RunError::BadHex,
            place: Where::Text(Place::behind(&text[..place])),
        }),
    }
}

/// Where bytes are wrong on which this is said.
fn place_of(kind: MessageKind, bytes: &[u8], error: RunError) -> Where
    requires { (e : DecodeError) → error ≡ Refused e → IsRefused kind bytes.now e }
    ensures refused { (e : DecodeError) → error ≡ Refused e → IsMessagePlace kind bytes.now result }
    ensures other { ((e : DecodeError) → error ≢ Refused e) → result ≡ Nowhere }
{
    match error {
        RunError::Refused(_) => fault_in(kind, bytes),
        _ => Where::Nowhere,
    }
}

/// Where bytes are wrong that are no message of this kind.
fn fault_in(kind: MessageKind, bytes: &[u8]) -> Where
    ensures { (e : DecodeError) → IsRefused kind bytes.now e → IsMessagePlace kind bytes.now result }
{
    match locate(kind, bytes) {
        Ok(()) => Where::Nowhere,
        Err(located) => Where::Message(located, is_envelope(bytes)),
    }
}

/// The report on a message of this kind that the bytes are.
fn answer(alloc: Global, kind: MessageKind, bytes: &[u8]) -> Result<String, RunError>
    ensures ok { IfOk result (λ text. IsReport kind bytes.now (string_bytes text)) }
    ensures refused { (e : DecodeError) → result ≡ Err (Refused e) → IsRefused kind bytes.now e }
    ensures unfit { (e : EmitError) → result ≡ Err (Unfit e) → IsUnfit kind bytes.now e }
    ensures memory { result ≡ Err Memory → 0 < length bytes.now }
    ensures errors { IfErr result IsOfMessage }
{
    let canonical = canonical(alloc, kind, bytes)?;
    let (_, attributes) = Nest::begin(kind, canonical.as_slice())?;
    whole(
        alloc,
        kind.name(),
        bytes.len(),
        attributes,
        canonical.as_slice(),
    )
}
