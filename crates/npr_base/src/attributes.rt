//! The attributes of a message, read one after the other.

ghost use Rattle.std.specs.{Prelude.{◌≡◌, ◌≢◌, ◌+◌, ◌/◌, ◌<◌, ℕ, List, [], Some, Err, length, map, drop, IfOk, IfErr}, Iterator.{at_most}};
ghost use Rattle.npr_base.specs.{
  declared.refusal.DecodeError.{DecodeError, TheVariants.{OutOfMemory, HeaderTooShort}},
  Attributes.{AttributeStep, AttributeSteps},
  Codec.{leading},
  Message.{IsMessage, MessageFault},
};

use crate::attribute::Attribute;
use crate::framing::NlasIterator;
use crate::looks::Looks;
use crate::message::{Header, Message, check_header};
use crate::refusal::DecodeError;
use std::alloc::Global;

/// A walk over the attributes of a message, each read as it comes. A refusal is its last item.
#[derive(Drop)]
pub struct Attributes<'a, H: Header> {
    alloc: Global,
    header: H,
    context: <H::Attribute as Attribute>::Context,
    walk: NlasIterator<'a>,
}

impl<H: Header> Message<H, H::Attribute> {
    /// The attributes of the message that the bytes are, to be read one after the other without a
    /// list: what they are read in is known at once. It takes no memory.
    ///
    /// # Errors
    /// `HeaderTooShort` where there is no whole header.
    pub fn attributes<'a>(alloc: Global, bytes: &'a [u8]) -> Result<Attributes<'a, H>, DecodeError>
        ensures begins { IfOk result (λ s. (leading H.grammar.layout).Reads bytes.now s.header × (s.walk ≡ drop H.grammar.layout.size bytes.now)
            × H.governs s.header s.walk s.context) }
        // The steps to the end answer the message that the bytes are.
        ensures all { IfOk result (λ s. (xs : List H.Attribute) → AttributeSteps H.Attribute.family.meaning (H.Attribute.family.reading s.context) s.walk xs []
            → IsMessage H.grammar bytes.now (record { header = s.header; attributes = map H.grammar.meaning xs })) }
        // What a step refuses is the first fault.
        ensures fault { IfOk result (λ s. (xs : List H.Attribute) (rest left : List ℕ) (e : DecodeError)
            → AttributeSteps H.Attribute.family.meaning (H.Attribute.family.reading s.context) s.walk xs rest
            → AttributeStep H.Attribute.family.meaning (H.Attribute.family.reading s.context) rest (Some (Err e)) left
            → e ≢ OutOfMemory → MessageFault H.grammar bytes.now e) }
        // Only a header can be refused before the first step.
        ensures refused { IfErr result (λ e. MessageFault H.grammar bytes.now e) }
        ensures short { IfErr result (λ e. (length bytes.now < H.grammar.layout.size) × (e ≡ HeaderTooShort (length bytes.now) H.grammar.layout.size)) }
    {
        check_header::<H>(bytes)?;
        let header = H::in_front(bytes);
        let behind = &bytes[H::size()..];
        Ok(Attributes {
            alloc,
            header,
            context: header.context(behind, &mut Looks::new()),
            walk: NlasIterator::new(behind),
        })
    }
}

impl<'a, H: Header> Attributes<'a, H> {
    /// The header in front of the attributes.
    pub fn header(&self) -> H
        ensures { result ≡ self.now.header }
    {
        self.header
    }

    /// What the attributes are read in.
    pub fn context(&self) -> <H::Attribute as Attribute>::Context
        ensures { result ≡ self.now.context }
    {
        self.context
    }

    /// The bytes that haven't been walked: none after the end or a refusal.
    pub fn rest(&self) -> &'a [u8]
        ensures { result.now ≡ self.now.walk }
    {
        self.walk.rest()
    }
}

impl<'a, H: Header> Iterator for Attributes<'a, H> {
    type Item = Result<H::Attribute, DecodeError>;

    ghost can_next = { λ _. Unit {0} };

    // the attribute that stands there, as the grammar reads it in the context; or what is wrong
    ghost next_gives = { λ s r t. AttributeStep H.Attribute.family.meaning (H.Attribute.family.reading s.context) s.walk r t.walk
        × (t.header ≡ s.header) × (t.context ≡ s.context) };

    // an attribute takes four bytes, and the bytes after the last leave room for one fault
    ghost remaining = { λ s. at_most ((length s.walk + 3) / 4) };

    fn next(&mut self) -> Option<Result<H::Attribute, DecodeError>> {
        let mut looks = Looks::new();
        let read = match self.walk.next_counted(&mut looks)? {
            Ok(item) => H::Attribute::read(self.alloc, self.context, &item, &mut looks),
            Err(refusal) => Err(refusal),
        };
        if read.is_err() {
            self.walk = NlasIterator::new(&[]);
        }
        Some(read)
    }
}
