//! Sets of attributes in which the first that tells something governs how all are read.

ghost use Rattle.std.specs.Prelude.{◌≡◌, ◌≢◌, ℕ, List, Option, true, false, length, map, IfOk, IfErr, IsErrOf};
ghost use Rattle.npr_base.specs.{
  declared.refusal.DecodeError.TheVariants.{OutOfMemory},
  Counts.{AddsAtMost},
  FirstTold.{Governs, Searches},
  Framing.{Item, Front},
  GovernedList.{AreGoverned, GovernedFault, GovernedLooks, Sought},
  Looks.{Answered},
  lemmas.Fails.{FailsOnce},
  lemmas.ShortList.{Plain},
};

use crate::attribute::Attribute;
use crate::framing::{NlaBuffer, NlasIterator};
use crate::list::parse_list;
use crate::looks::Looks;
use crate::refusal::DecodeError;
use std::alloc::Global;

/// A set of attributes that are read in the context that the first of them tells, wherever it stands.
pub trait Governed: Attribute {
    /// What an attribute tells by its bytes.
    ghost tells: { Item → Option Self.Context };

    /// What governs where none tells anything.
    ghost untold: { Self.Context };

    /// What the attribute tells.
    fn told(item: &NlaBuffer<'_>) -> Option<Self::Context>
        ensures { result ≡ tells item.now };

    /// What governs where none tells anything.
    fn default_context() -> Self::Context
        ensures { result ≡ untold };
}

/// Such a set whose lists stand in values.
pub trait GovernedList: Governed {
    /// What tells something is read alike in all contexts.
    ghost plain: { Plain Self.Governed.tells Self.Attribute.family.reading };

    /// A reading ends at its first failed look.
    ghost once: { (c : Self.Context) → FailsOnce (Self.Attribute.family.reading c).looks };
}

/// What governs the attributes in the bytes: what the first tells that tells something, wherever it
/// stands before a fault. A fault ends the search and no more: it is refused when the list is read.
/// Each look at a header is counted.
pub fn governing<A: Governed>(bytes: &[u8], looks: &mut Looks) -> A::Context
    ensures governs { Governs A.tells A.untold bytes.now result }
    ensures searches { Searches A.tells A.untold bytes.now result looks.old looks.new }
{
    let mut walk = NlasIterator::new(bytes);
    while let Some(Ok(item)) = walk.next_counted(looks) {
        if let Some(context) = A::told(&item) {
            return context;
        }
    }
    A::default_context()
}

/// What governs a list in a value. One of fewer than 8 bytes has no room for an attribute that tells
/// something and for one beside it, and is not searched.
fn sought<A: GovernedList>(bytes: &[u8], looks: &mut Looks) -> A::Context
    ensures { Sought A.tells A.untold bytes.now result looks.old looks.new }
{
    if bytes.len() < 8 {
        return A::default_context();
    }
    governing::<A>(bytes, looks)
}

/// Whether memory was refused.
pub fn wants_memory<T>(read: &Result<T, DecodeError>) -> bool
    ensures answered { result ≡ false → Answered read.now }
    ensures refused { result ≡ true → Answered read.now → ⊥ }
{
    match read {
        Ok(_) => false,
        Err(e) => match e {
            DecodeError::OutOfMemory => true,
            _ => false,
        },
    }
}

/// The attributes of a list in a value, under what governs them. Each look at a header is counted;
/// where memory is refused, those of the search alone.
///
/// # Errors
/// `OutOfMemory` where memory is refused, and else the first fault in reading order.
pub fn parse_governed<A: GovernedList>(
    alloc: Global,
    bytes: &[u8],
    looks: &mut Looks,
) -> Result<Vec<A>, DecodeError>
    ensures ok { IfOk result (λ v. AreGoverned A.tells A.untold A.family.reading bytes.now (map A.family.meaning v.items)) }
    ensures refused { IfErr result (λ e. e ≢ OutOfMemory → GovernedFault A.tells A.untold A.family.reading bytes.now e) }
    // Memory is taken behind a first whole attribute alone.
    ensures memory { IsErrOf result OutOfMemory → (x : Item) × (rest : List ℕ) × Front bytes.now x rest }
    ensures exact { Answered result → GovernedLooks A.tells A.untold A.family.reading bytes.now looks.old looks.new }
    ensures bounded { AddsAtMost looks.old looks.new (length bytes.now) }
{
    let context = sought::<A>(bytes, looks);
    let mut inside = Looks::new();
    let read = parse_list(alloc, context, bytes, &mut inside);
    if wants_memory(&read) {
        return read;
    }
    looks.add(&inside);
    read
}
