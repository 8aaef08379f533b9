//! A family of attributes, with its laws.

ghost use Rattle.std.specs.Prelude.{◌≡◌, ◌≢◌, [], ◌∷◌, ◌++◌, length, IfOk, IfErr};
ghost use Rattle.npr_base.specs.{
  declared.refusal.DecodeError.TheVariants.{OutOfMemory},
  Counts.{AddsAtMost, SawEach},
  Looks.{Answered},
  Family.{Family, shaped},
  Framing.{number_of},
  Value.{shown},
  Values.{Seen, Unseen},
};

use crate::attribute_set::At;
use crate::framing::NlaBuffer;
use crate::looks::Looks;
use crate::place::Place;
use crate::refusal::DecodeError;
use crate::traits::{Nla, Parseable, ParseableParametrized};
use crate::value::{Form, Value, read_form};
use std::alloc::{AllocError, Global};

/// A family of attributes. Each is read in a context, as the family of the message's addresses.
///
/// Definitions speak of meanings: what a value is, without where it lies in memory.
pub trait Attribute: Nla + Drop {
    /// What the reading of an attribute rests on besides its bytes.
    type Context: Copy;

    /// What a value is, without where it lies in memory, how that is written, and what attributes mean
    /// in a context.
    ghost family: { Family Self Self.Context };

    /// Puts the value that the attribute means in the context into a place. Asks that the place is ready.
    /// Each look at a header inside it is counted.
    ///
    /// # Errors
    /// `OutOfMemory` where memory is refused, and else the first fault in reading order.
    ///
    /// # Panics
    /// May panic where it is not as asked.
    fn read_into<P: Place<Self>>(
        place: &mut P,
        alloc: Global,
        context: Self::Context,
        item: &NlaBuffer<'_>,
        looks: &mut Looks,
    ) -> Result<(), DecodeError>
        requires { P.ready place.old }
        ensures ok { IfOk result (λ _. (a : Self) × P.puts place.old a place.new × (family.reading context).Reads item.now (family.meaning a)) }
        ensures refused { IfErr result (λ e. e ≢ OutOfMemory → (family.reading context).Faulty item.now e) }
        ensures exact { Answered result → (family.reading context).looks.Takes item.now looks.old looks.new }
        ensures bounded { AddsAtMost looks.old looks.new (length (item.now).value) };

    /// What `read_into` puts, by itself.
    ///
    /// # Errors
    /// `OutOfMemory` where memory is refused, and else the first fault in reading order.
    final fn read(
        alloc: Global,
        context: Self::Context,
        item: &NlaBuffer<'_>,
        looks: &mut Looks,
    ) -> Result<Self, DecodeError>
        ensures ok { IfOk result (λ a. (family.reading context).Reads item.now (family.meaning a)) }
        ensures refused { IfErr result (λ e. e ≢ OutOfMemory → (family.reading context).Faulty item.now e) }
        ensures exact { Answered result → (family.reading context).looks.Takes item.now looks.old looks.new }
        ensures bounded { AddsAtMost looks.old looks.new (length (item.now).value) }
        ensures counted { IfOk result (λ a. SawEach looks.old looks.new (family.writing.members (family.meaning a))) }
    {
        let mut place = None;
        Self::read_into(&mut place, alloc, context, item, looks)?;
        match place {
            Some(attribute) => Ok(attribute),
            None => unreachable!(),
        }
    }

    /// What `read_into` puts, behind the attributes of a list. A family with large values makes each
    /// in its place, which moves it less often.
    ///
    /// # Errors
    /// `OutOfMemory` where memory is refused, and else the first fault in reading order.
    fn read_onto(
        list: &mut Vec<Self>,
        alloc: Global,
        context: Self::Context,
        item: &NlaBuffer<'_>,
        looks: &mut Looks,
    ) -> Result<(), DecodeError>
        ensures ok { IfOk result (λ _. (a : Self) × (list.new.items ≡ list.old.items ++ a ∷ []) × (family.reading context).Reads item.now (family.meaning a)) }
        ensures refused { IfErr result (λ e. e ≢ OutOfMemory → (family.reading context).Faulty item.now e) }
        ensures exact { Answered result → (family.reading context).looks.Takes item.now looks.old looks.new }
        ensures bounded { AddsAtMost looks.old looks.new (length (item.now).value) }
    {
        list.reserve(1)?;
        Self::read_into(list, alloc, context, item, looks)
    }

    /// By a number: the place that refusals tell, and how the value is read without memory.
    fn form(context: Self::Context, number: u16) -> (At, Form)
        ensures { result ≡ (family.reading context).seeing.form_at number };

    /// The place of the attribute, and its value where it stands. It takes no memory.
    ///
    /// # Errors
    /// What is wrong with the value.
    #[inline(always)]
    final fn value<'a>(
        context: Self::Context,
        item: &NlaBuffer<'a>,
    ) -> Result<(At, Value<'a>), DecodeError>
        ensures place { IfOk result (λ v. v.0 ≡ ((family.reading context).seeing.form_at (number_of (item.now).kind)).0) }
        ensures ok { IfOk result (λ v. Seen (family.reading context) item.now (shown v.1)) }
        ensures refused { IfErr result (λ e. Unseen (family.reading context) item.now e) }
    {
        let (at, form) = Self::form(context, item.kind());
        match read_form(form, item.value(), at) {
            Ok(value) => Ok((at, value)),
            Err(refusal) => Err(refusal),
        }
    }

    /// An equal value.
    ///
    /// # Errors
    /// `AllocError` where memory is refused.
    fn try_clone(&self, alloc: Global) -> Result<Self, AllocError>
        ensures { IfOk result (λ a. family.meaning a ≡ family.meaning self.now) };

    /// It is written as its meaning is.
    ghost shape_is: { (a : Self) → Self.shape a ≡ shaped family a };
}

/// A lone attribute of a family that is read in no context.
impl<'a, A: Attribute<Context = ()>> Parseable<&'a NlaBuffer<'a>> for A {
    ghost parses = { λ input a. (A.family.reading tt).Reads input.now (A.family.meaning a) };

    ghost misparses = { λ input e. (A.family.reading tt).Faulty input.now e };

    /// What the attribute is in its family: `read`, with looks that nobody counts.
    ///
    /// # Errors
    /// `OutOfMemory` where memory is refused, and else what is wrong with the value.
    fn parse(alloc: Global, input: &'a NlaBuffer<'a>) -> Result<Self, DecodeError> {
        A::read(alloc, (), input, &mut Looks::new())
    }
}

/// A lone attribute of a family, read in a context.
impl<'a, A: Attribute> ParseableParametrized<&'a NlaBuffer<'a>, A::Context> for A {
    ghost parses = { λ context input a. (A.family.reading context).Reads input.now (A.family.meaning a) };

    ghost misparses = { λ context input e. (A.family.reading context).Faulty input.now e };

    /// What the attribute is in its family under the context: `read`, with looks that nobody counts.
    ///
    /// # Errors
    /// `OutOfMemory` where memory is refused, and else what is wrong with the value.
    fn parse_with_param(
        alloc: Global,
        input: &'a NlaBuffer<'a>,
        context: A::Context,
    ) -> Result<Self, DecodeError> {
        A::read(alloc, context, input, &mut Looks::new())
    }
}
