//! Walks over attributes whose values are seen in the bytes, one after the other.

ghost use Rattle.std.specs.{
  Prelude.{◌≡◌, ◌<◌, ◌+◌, ◌/◌, ℕ, List, [], Some, Ok, Err, length, map, drop, IfOk, IfErr},
  Iterator.{at_most},
};
ghost use Rattle.npr_base.specs.{
  declared.{attribute_set.At.{At}, refusal.DecodeError.{DecodeError, TheVariants.{HeaderTooShort}}},
  declared.value.Value.{Value as ValueInMemory},
  Codec.{leading},
  Lists.{AllOf, ReadsList},
  Message.{Stored, view, IsMessage, MessageFault},
  Value.{shown},
  Values.{ValueStep, ValueSteps, SeenAs, IsRead},
};

use crate::attribute::Attribute;
use crate::attribute_set::At;
use crate::framing::{NlaBuffer, NlasIterator};
use crate::looks::Looks;
use crate::message::{Header, Message, check_header};
use crate::refusal::DecodeError;
use crate::value::Value;

/// A walk over attributes of a family, whose values are seen where they stand. A refusal is its last
/// item. It takes no memory.
#[derive(Drop)]
pub struct Values<'a, A: Attribute> {
    context: A::Context,
    walk: NlasIterator<'a>,
}

impl<'a, A: Attribute> Values<'a, A> {
    /// A walk over the attributes in these bytes, which are read in this context.
    pub fn new(context: A::Context, bytes: &'a [u8]) -> Self
        ensures context { result.context ≡ context }
        ensures walk { result.walk ≡ bytes.now }
    {
        Values {
            context,
            walk: NlasIterator::new(bytes),
        }
    }

    /// What the attributes are read in.
    pub fn context(&self) -> A::Context
        ensures { result ≡ self.now.context }
    {
        self.context
    }

    /// The bytes that haven't been walked: none after the end or a refusal.
    pub fn rest(&self) -> &'a [u8]
        ensures { result.now ≡ self.now.walk }
    {
        self.walk.rest()
    }
}

impl<H: Header> Message<H, H::Attribute> {
    /// The header of the message that the bytes are, and a walk over the values of its attributes,
    /// where they stand. It takes no memory.
    ///
    /// # Errors
    /// `HeaderTooShort` where there is no whole header.
    pub fn values<'a>(bytes: &'a [u8]) -> Result<(H, Values<'a, H::Attribute>), DecodeError>
        ensures begins { IfOk result (λ s. (leading H.grammar.layout).Reads bytes.now s.0 × (s.1.walk ≡ drop H.grammar.layout.size bytes.now)
            × H.governs s.0 s.1.walk s.1.context) }
        // The steps to the end have seen the attributes of the message that the bytes are.
        ensures seen { IfOk result (λ s. (vs : List (At × ValueInMemory)) → ValueSteps (H.Attribute.family.reading s.1.context) s.1.walk vs []
            → (m : Stored H.grammar) → IsMessage H.grammar bytes.now (view H.grammar m)
            → (m.header ≡ s.0) × SeenAs (H.Attribute.family.reading s.1.context) s.1.walk vs (map H.Attribute.family.meaning m.attributes.items)) }
        // Where each value is read, there are such attributes.
        ensures whole { IfOk result (λ s. (vs : List (At × ValueInMemory)) → ValueSteps (H.Attribute.family.reading s.1.context) s.1.walk vs []
            → AllOf (λ v. IsRead (shown v.1)) vs
            → (ms : List H.Attribute.family.Meaning) × ReadsList (H.Attribute.family.reading s.1.context).Reads s.1.walk ms) }
        // What a step refuses is the first fault, where each value before it is read.
        ensures fault { IfOk result (λ s. (vs : List (At × ValueInMemory)) (rest left : List ℕ) (e : DecodeError)
            → ValueSteps (H.Attribute.family.reading s.1.context) s.1.walk vs rest → AllOf (λ v. IsRead (shown v.1)) vs
            → ValueStep (H.Attribute.family.reading s.1.context) rest (Some (Err e)) left → MessageFault H.grammar bytes.now e) }
        // Behind any value the bytes are no message then.
        ensures none { IfOk result (λ s. (vs : List (At × ValueInMemory)) (rest left : List ℕ) (e : DecodeError)
            → ValueSteps (H.Attribute.family.reading s.1.context) s.1.walk vs rest
            → ValueStep (H.Attribute.family.reading s.1.context) rest (Some (Err e)) left
            → (m : Stored H.grammar) → IsMessage H.grammar bytes.now (view H.grammar m) → ⊥) }
        // Only a header can be refused before the first step.
        ensures refused { IfErr result (λ e. MessageFault H.grammar bytes.now e) }
        ensures short { IfErr result (λ e. (length bytes.now < H.grammar.layout.size) × (e ≡ HeaderTooShort (length bytes.now) H.grammar.layout.size)) }
    {
        check_header::<H>(bytes)?;
        let header = H::in_front(bytes);
        let behind = &bytes[H::size()..];
        let context = header.context(behind, &mut Looks::new());
        Ok((header, Values::new(context, behind)))
    }
}

impl<'a, A: Attribute> Iterator for Values<'a, A> {
    type Item = Result<(At, Value<'a>), DecodeError>;

    ghost can_next = { λ _. Unit {0} };

    // the place and the value of the attribute that stands there; or what is wrong
    ghost next_gives = { λ s r t. ValueStep (A.family.reading s.context) s.walk r t.walk × (t.context ≡ s.context) };

    // an attribute takes four bytes, and the bytes after the last leave room for one fault
    ghost remaining = { λ s. at_most ((length s.walk + 3) / 4) };

    fn next(&mut self) -> Option<Result<(At, Value<'a>), DecodeError>> {
        let seen = match self.walk.next()? {
            Ok(item) => A::value(self.context, &item),
            Err(refusal) => Err(refusal),
        };
        if seen.is_err() {
            self.walk = NlasIterator::new(&[]);
        }
        Some(seen)
    }
}
