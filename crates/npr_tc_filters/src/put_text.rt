//! Rows of a table with a name, each read by one call.

ghost use Rattle.std.specs.Prelude.{◌≡◌, ◌≢◌, IfOk, IfErr};
ghost use Rattle.std.specs.String.{string_bytes};
ghost use Rattle.{
  npr_base.specs.{
    declared.refusal.DecodeError.{DecodeError, TheVariants.{OutOfMemory}},
    Framing.{number_of},
    Name.{name},
    Refusal.{at_number},
  },
};

use npr_base::{AttributeSet, DecodeError, NlaBuffer, Place, Rowed, read_name};
use std::alloc::Global;

/// Puts the variant of the row of a number that has a name. Asks that the place is ready, that the attribute
/// has the number, and that the row reads such a value as the variant.
///
/// # Errors
/// `NotUtf8`, and `OutOfMemory` where memory is refused.
pub(crate) fn put_text<A: Rowed, P: Place<A>, V: FnOnce(String) -> A>(
    place: &mut P,
    alloc: Global,
    item: &NlaBuffer<'_>,
    family: AttributeSet,
    number: u16,
    variant: V,
) -> Result<(), DecodeError>
    requires ready { P.ready place.old }
    requires variant { V.IsAlwaysCallable variant }
    requires number { number_of (item.now).kind ≡ number }
    requires row { (x : _) (a : _) → name.Reads (item.now).value (string_bytes x) → V.post variant x a → A.reads number item.now a }
    requires wrong { (e : DecodeError) → name.Wrong (at_number family number) (item.now).value e → A.wrong number item.now e }
    ensures ok { IfOk result (λ _. (a : A) × P.puts place.old a place.new × A.reads (number_of (item.now).kind) item.now a) }
    ensures refused { IfErr result (λ e. e ≢ OutOfMemory → A.wrong (number_of (item.now).kind) item.now e) }
{
    place.put(variant(read_name(alloc, item.value(), family.at(number))?));
    Ok(())
}
