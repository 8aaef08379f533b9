//! Refusals in words: what is wrong, at which attribute, and where.

ghost use Rattle.std.specs.Prelude.{◌≡◌, ℕ, Some, IfSome, IfNone};
ghost use Rattle.npr_names.specs.Refusals.{Fronts, HasEither, lengths_told, named_text, told_of};

use crate::names::attribute_name;
use npr_base::{At, AttributeSet, DecodeError, Form, NlasIterator};
use std::fmt;

/// An attribute by its name and number: `IFLA_MTU (4)`, or `attribute 99` where it has no name.
#[derive(Clone, Copy, Debug, PartialEq, Eq)]
pub struct Named(pub At);

impl fmt::Display for Named {
    ghost output = { λ named. Some (named_text named.0) };

    fn fmt<W: fmt::Write>(&self, f: &mut fmt::Formatter<W>) -> fmt::Result {
        let number = self.0.number;
        match attribute_name(self.0.set, number) {
            Some(name) => write!(f, "{name} ({number})"),
            None => write!(f, "attribute {number}"),
        }
    }
}

/// The lengths in bytes of a value that is read so: one, or two that are told apart. None where it may have more.
pub fn lengths_of(form: Form) -> Option<(usize, usize)>
    ensures told { result ≡ lengths_told form }
    ensures has { IfSome result (λ lengths. HasEither form lengths.0 lengths.1) }
{
    match form {
        Form::Byte | Form::Boolean => Some((1, 1)),
        Form::Little16 | Form::Big16 => Some((2, 2)),
        Form::Signed32 | Form::Little32 | Form::Big32 | Form::Octets4 => Some((4, 4)),
        Form::Signed64 | Form::Little64 | Form::Big64 => Some((8, 8)),
        Form::Octets16 => Some((16, 16)),
        Form::Uint => Some((4, 8)),
        Form::Flag => Some((0, 1)),
        Form::Ip => Some((4, 16)),
        Form::Exactly(size) => Some((size, size)),
        _ => None,
    }
}

/// The number of the attribute in front of the bytes, if one stands there.
pub fn front_number(bytes: &[u8]) -> Option<u16>
    ensures some { IfSome result (λ number. Fronts bytes.now number) }
    ensures none { IfNone result ((number : ℕ) → Fronts bytes.now number → ⊥) }
{
    match NlasIterator::new(bytes).next() {
        Some(Ok(item)) => Some(item.kind()),
        _ => None,
    }
}

/// The attribute that a refusal tells by itself.
pub fn told_of(refusal: DecodeError) -> Option<At>
    ensures { result ≡ told_of refusal }
{
    match refusal {
        DecodeError::ValueLength { at, .. }
        | DecodeError::NotUtf8 { at }
        | DecodeError::Unsupported { at } => Some(at),
        DecodeError::GeneveOrder { kind } | DecodeError::GeneveChild { kind } => {
            Some(AttributeSet::Geneve.at(kind))
        }
        _ => None,
    }
}

/// Why bytes are no message of a kind, and where: the first fault in reading order.
///
/// Its text says the attribute by name and number, the lengths that are there and that are wanted, and the
/// place: `a value of 3 bytes at IFLA_MTU (4), where 4 are wanted, at byte 16`.
#[derive(Clone, Copy, Debug, PartialEq, Eq)]
pub struct Located {
    /// What is wrong.
    pub refusal: DecodeError,
    /// Where the attribute of the message begins that is wrong or holds what is, or where none can stand, in
    /// bytes from the first; 0 where the bytes are fewer than a header.
    pub offset: usize,
    /// That attribute; none where none stands.
    pub holder: Option<At>,
    /// The lengths that the value may have of which `ValueLength` tells the length: one, or two. None where
    /// that is not known.
    pub wanted: Option<(usize, usize)>,
}

impl fmt::Display for Located {
    fn fmt<W: fmt::Write>(&self, f: &mut fmt::Formatter<W>) -> fmt::Result {
        write_refusal(f, self.refusal, self.wanted)?;
        let offset = self.offset;
        match self.holder {
            Some(at) if told_of(self.refusal) != Some(at) => {
                let named = Named(at);
                write!(f, ", in {named} at byte {offset}")
            }
            _ => write!(f, ", at byte {offset}"),
        }
    }
}

/// What is wrong, without its place in the bytes.
fn write_refusal<W: fmt::Write>(
    f: &mut fmt::Formatter<W>,
    refusal: DecodeError,
    wanted: Option<(usize, usize)>,
) -> fmt::Result {
    match refusal {
        DecodeError::ValueLength { at, got } => {
            let named = Named(at);
            write!(f, "a value of {got} bytes at {named}")?;
            write_wanted(f, wanted)
        }
        DecodeError::NotUtf8 { at } => {
            let named = Named(at);
            write!(f, "no UTF-8 at {named}")
        }
        DecodeError::Unsupported { at } => {
            let named = Named(at);
            write!(f, "an unsupported header at {named}")
        }
        DecodeError::GeneveOrder { kind } => {
            let named = Named(AttributeSet::Geneve.at(kind));
            write!(f, "{named} before a class")
        }
        _ => write!(f, "{refusal}"),
    }
}

fn write_wanted<W: fmt::Write>(
    f: &mut fmt::Formatter<W>,
    wanted: Option<(usize, usize)>,
) -> fmt::Result {
    match wanted {
        Some((least, most)) if least == most => write!(f, ", where {least} are wanted"),
        Some((least, most)) => write!(f, ", where {least} or {most} are wanted"),
        None => Ok(()),
    }
}
