//! Messages: a header of a fixed length, and attributes to the end.

ghost use Rattle.std.specs.Prelude.{◌≡◌, ◌≢◌, ◌≤◌, ◌<◌, ◌*◌, ◌-◌, ℕ, List, None, [], length, drop, map, IfOk, IfErr, IsErrOf, OnErr};
ghost use Rattle.npr_base.specs.{
  declared.refusal.DecodeError.{DecodeError, TheVariants.{OutOfMemory, HeaderTooShort}},
  Codec.{leading},
  Counts.{Counts, AddsAtMostTwice, SawEach},
  Lists.{list_members},
  Framing.{Item, Front},
  Looks.{Answered},
  Message.{Grammar, View, IsOfFamily, IsUnder, view, IsMessage, MessageFault, MessageLooks, IsCoherent, canonical_bytes, message_unfit},
};

use crate::attribute::Attribute;
use crate::list::{check_list, clone_list, fill_list, write_list};
use crate::looks::Looks;
use crate::refusal::{DecodeError, EmitError};
use crate::traits::{Emitable, Parseable};
use std::alloc::{AllocError, Global};
use std::fmt;

/// The header of a kind of message, with what the bytes after it mean.
pub trait Header: Emitable + Copy + Default {
    /// What stands behind the header.
    type Attribute: Attribute;

    /// How the header is read and written, and what the bytes after it mean.
    ghost grammar: { Grammar Self Self.Attribute };

    /// Behind a header, the bytes are attributes that are read in this context.
    ghost governs: { Self → List ℕ → Self.Attribute.Context → Type 0 };

    /// The search for it takes the counts of looks from these to those.
    ghost searches: { Self → List ℕ → Self.Attribute.Context → Counts → Counts → Type 0 };

    /// The name of its messages.
    ghost message_text: { List ℕ };

    /// The name of its messages, as `AddressMessage`: what `{:?}` of one begins with.
    fn message_name() -> &'static str
        ensures { result.now ≡ message_text };

    /// The length of the header, in bytes.
    fn size() -> usize
        ensures { result ≡ grammar.layout.size };

    /// The header in the first bytes. Asks that they are there.
    ///
    /// # Panics
    /// May panic where it is not as asked.
    fn in_front(bytes: &[u8]) -> Self
        requires { grammar.layout.size ≤ length bytes.now }
        ensures { (leading grammar.layout).Reads bytes.now result };

    /// The header in the first bytes; more are not looked at.
    ///
    /// # Errors
    /// `HeaderTooShort` where they are fewer.
    final fn parse(bytes: &[u8]) -> Result<Self, DecodeError>
        ensures ok { IfOk result (λ h. (leading grammar.layout).Reads bytes.now h) }
        ensures refused { IfErr result (λ e. (length bytes.now < grammar.layout.size) × (e ≡ HeaderTooShort (length bytes.now) grammar.layout.size)) }
    {
        check_header::<Self>(bytes)?;
        Ok(Self::in_front(bytes))
    }

    /// The context that the attributes in the bytes are read in. Each look at a header on the way to it
    /// is counted.
    fn context(&self, bytes: &[u8], looks: &mut Looks) -> <Self::Attribute as Attribute>::Context
        ensures governs { governs self.now bytes.now result }
        ensures searches { searches self.now bytes.now result looks.old looks.new };

    /// It is written as its layout says, and so is its default.
    ghost by_layout: { (h : Self) → (Self.bytes h ≡ grammar.layout.encode h) × (Self.unfit h ≡ None) × (length (grammar.layout.encode h) ≡ grammar.layout.size)
        × (Self.is_default h → h ≡ grammar.standard) };

    /// Attributes are written, and counted, as their family says, and mean what it says.
    ghost by_family: { IsOfFamily grammar Self.Attribute.family };

    /// In the context that governs them they are what the bytes mean.
    ghost under: { (h : Self) (bytes : List ℕ) (context : Self.Attribute.Context) → governs h bytes context
        → IsUnder grammar Self.Attribute.family h bytes context (governs h bytes) (searches h bytes context) };
}

/// A message: a header, and attributes to the end.
#[derive(Drop, PartialEq, Eq)]
pub struct Message<H, A> {
    /// The header.
    pub header: H,
    /// The attributes, in their order.
    pub attributes: Vec<A>,
}

impl<H: Header + fmt::Debug, A: fmt::Debug> fmt::Debug for Message<H, A> {
    fn fmt<W: fmt::Write>(&self, f: &mut fmt::Formatter<W>) -> fmt::Result {
        f.debug_struct(H::message_name())
            .field("header", &self.header)
            .field("attributes", &self.attributes)
            .finish()
    }
}

impl<H: Header> Message<H, H::Attribute> {
    /// A message with each field of the header at its default, and no attributes. It takes no
    /// memory.
    pub fn new(alloc: Global) -> Self
        ensures { view H.grammar result ≡ record { header = H.grammar.standard; attributes = [] } }
    {
        Message {
            header: H::default(),
            attributes: Vec::new(alloc),
        }
    }

    /// An equal message.
    ///
    /// # Errors
    /// `AllocError` where memory is refused; without attributes none is taken.
    pub fn try_clone(&self, alloc: Global) -> Result<Self, AllocError>
        ensures ok { IfOk result (λ m. view H.grammar m ≡ view H.grammar self.now) }
        ensures memory { OnErr result (0 < length self.now.attributes.items) }
    {
        Ok(Message {
            header: self.header,
            attributes: clone_list(alloc, self.attributes.as_slice())?,
        })
    }

    /// `parse`, with each look at a header counted.
    ///
    /// # Errors
    /// `OutOfMemory` where memory is refused, and else the first fault in reading order.
    pub fn parse_counted(
        alloc: Global,
        bytes: &[u8],
        looks: &mut Looks,
    ) -> Result<Self, DecodeError>
        // What is read is what the bytes mean.
        ensures ok { IfOk result (λ m. IsMessage H.grammar bytes.now (view H.grammar m)) }
        // They mean nothing else.
        ensures one { IfOk result (λ m. (n : View H.grammar) → IsMessage H.grammar bytes.now n → view H.grammar m ≡ n) }
        ensures coherent { IfOk result (λ m. IsCoherent H.grammar (view H.grammar m)) }
        // A refusal is the first fault.
        ensures refused { IfErr result (λ e. e ≢ OutOfMemory → MessageFault H.grammar bytes.now e) }
        // Then the bytes mean nothing.
        ensures none { IfErr result (λ e. e ≢ OutOfMemory → (n : View H.grammar) → IsMessage H.grammar bytes.now n → ⊥) }
        // Canonical bytes give back their message.
        ensures again { IfOk result (λ m. (n : View H.grammar) → IsCoherent H.grammar n → message_unfit H.grammar n ≡ None
            → bytes.now ≡ canonical_bytes H.grammar n → view H.grammar m ≡ n) }
        // Memory is taken behind a first whole attribute alone.
        ensures memory { IsErrOf result OutOfMemory → (x : Item) × (rest : List ℕ) × Front (drop H.grammar.layout.size bytes.now) x rest }
        // Canonical bytes are at most five halves as long as what was read.
        ensures growth { IfOk result (λ m. 2 * length (canonical_bytes H.grammar (view H.grammar m)) ≤ 5 * length bytes.now) }
        // Each level of lists takes 12 bytes behind the header.
        ensures depth { IfOk result (λ m. 12 * H.grammar.body.depth (view H.grammar m).attributes ≤ length bytes.now - H.grammar.layout.size) }
        // The looks are those that the bytes take:
        ensures exact { Answered result → MessageLooks H.grammar bytes.now looks.old looks.new }
        // at most two for four bytes behind the header, and one for twelve and two that fail,
        ensures bounded { AddsAtMostTwice looks.old looks.new (length bytes.now - H.grammar.layout.size) }
        // and none where there is no whole header.
        ensures short { length bytes.now < H.grammar.layout.size → looks.new ≡ looks.old }
        // Each attribute of a message, and each member inside one, had a look.
        ensures counted { IfOk result (λ m. SawEach looks.old looks.new (list_members H.grammar.writing.members (view H.grammar m).attributes)) }
    {
        parse_counted_body::<H>(alloc, bytes, looks)
    }

    /// `parse` into a message that stands. After a refusal the message is as `new` makes it.
    ///
    /// # Errors
    /// `OutOfMemory` where memory is refused, and else the first fault in reading order.
    pub fn parse_into(&mut self, alloc: Global, bytes: &[u8]) -> Result<(), DecodeError>
        // What is read is what the bytes mean.
        ensures ok { IfOk result (λ _. IsMessage H.grammar bytes.now (view H.grammar self.new)) }
        // They mean nothing else.
        ensures one { IfOk result (λ _. (n : View H.grammar) → IsMessage H.grammar bytes.now n → view H.grammar self.new ≡ n) }
        ensures coherent { IfOk result (λ _. IsCoherent H.grammar (view H.grammar self.new)) }
        // A refusal is the first fault.
        ensures refused { IfErr result (λ e. e ≢ OutOfMemory → MessageFault H.grammar bytes.now e) }
        // Then the bytes mean nothing,
        ensures none { IfErr result (λ e. e ≢ OutOfMemory → (n : View H.grammar) → IsMessage H.grammar bytes.now n → ⊥) }
        // and nothing is left of what was there.
        ensures new { IfErr result (λ _. view H.grammar self.new ≡ record { header = H.grammar.standard; attributes = [] }) }
        // Memory is taken behind a first whole attribute alone.
        ensures memory { IsErrOf result OutOfMemory → (x : Item) × (rest : List ℕ) × Front (drop H.grammar.layout.size bytes.now) x rest }
    {
        self.attributes.clear();
        match read_onto::<H>(self, alloc, bytes, &mut Looks::new()) {
            Ok(()) => Ok(()),
            Err(refusal) => {
                self.header = H::default();
                self.attributes.clear();
                Err(refusal)
            }
        }
    }
}

fn parse_counted_body<H: Header>(
    alloc: Global,
    bytes: &[u8],
    looks: &mut Looks,
) -> Result<Message<H, H::Attribute>, DecodeError>
    ensures ok { IfOk result (λ m. IsMessage H.grammar bytes.now (view H.grammar m)) }
    ensures refused { IfErr result (λ e. e ≢ OutOfMemory → MessageFault H.grammar bytes.now e) }
    ensures memory { IsErrOf result OutOfMemory → (x : Item) × (rest : List ℕ) × Front (drop H.grammar.layout.size bytes.now) x rest }
    ensures exact { Answered result → MessageLooks H.grammar bytes.now looks.old looks.new }
    ensures bounded { AddsAtMostTwice looks.old looks.new (length bytes.now - H.grammar.layout.size) }
    ensures short { length bytes.now < H.grammar.layout.size → looks.new ≡ looks.old }
    ensures counted { IfOk result (λ m. SawEach looks.old looks.new (list_members H.grammar.writing.members (view H.grammar m).attributes)) }
{
    let mut message = Message {
        header: H::default(),
        attributes: Vec::new(alloc),
    };
    read_onto::<H>(&mut message, alloc, bytes, looks)?;
    Ok(message)
}

/// The header in the first bytes, and its attributes, into a message without attributes. A header that
/// went out in a result would be moved by pieces.
#[inline(always)]
fn read_onto<H: Header>(
    message: &mut Message<H, H::Attribute>,
    alloc: Global,
    bytes: &[u8],
    looks: &mut Looks,
) -> Result<(), DecodeError>
    requires { message.old.attributes.items ≡ [] }
    ensures ok { IfOk result (λ _. IsMessage H.grammar bytes.now (view H.grammar message.new)) }
    ensures refused { IfErr result (λ e. e ≢ OutOfMemory → MessageFault H.grammar bytes.now e) }
    ensures memory { IsErrOf result OutOfMemory → (x : Item) × (rest : List ℕ) × Front (drop H.grammar.layout.size bytes.now) x rest }
    ensures exact { Answered result → MessageLooks H.grammar bytes.now looks.old looks.new }
    ensures bounded { AddsAtMostTwice looks.old looks.new (length bytes.now - H.grammar.layout.size) }
    ensures short { length bytes.now < H.grammar.layout.size → looks.new ≡ looks.old }
    ensures counted { IfOk result (λ _. SawEach looks.old looks.new (list_members H.grammar.writing.members (view H.grammar message.new).attributes)) }
{
    check_header::<H>(bytes)?;
    let header = H::in_front(bytes);
    message.header = header;
    let behind = &bytes[H::size()..];
    let context = header.context(behind, looks);
    fill_list(&mut message.attributes, alloc, context, behind, looks)?;
    Ok(())
}

/// Whether a header is in the first bytes.
///
/// # Errors
/// `HeaderTooShort` where they are fewer.
#[inline(always)]
pub(crate) fn check_header<H: Header>(bytes: &[u8]) -> Result<(), DecodeError>
    ensures ok { IfOk result (λ _. H.grammar.layout.size ≤ length bytes.now) }
    ensures refused { IfErr result (λ e. (length bytes.now < H.grammar.layout.size) × (e ≡ HeaderTooShort (length bytes.now) H.grammar.layout.size)) }
{
    let size = H::size();
    if bytes.len() < size {
        return Err(DecodeError::HeaderTooShort {
            got: bytes.len(),
            want: size,
        });
    }
    Ok(())
}

impl<'a, H: Header> Parseable<&'a [u8]> for Message<H, H::Attribute> {
    ghost parses = { λ bytes m. IsMessage H.grammar bytes.now (view H.grammar m) };

    ghost misparses = { λ bytes e. MessageFault H.grammar bytes.now e };

    /// The message that the bytes are.
    ///
    /// # Errors
    /// `OutOfMemory` where memory is refused, and else the first fault in reading order.
    fn parse(alloc: Global, bytes: &'a [u8]) -> Result<Self, DecodeError>
        // What is read is what the bytes mean.
        ensures ok { IfOk result (λ m. IsMessage H.grammar bytes.now (view H.grammar m)) }
        // They mean nothing else.
        ensures one { IfOk result (λ m. (n : View H.grammar) → IsMessage H.grammar bytes.now n → view H.grammar m ≡ n) }
        ensures coherent { IfOk result (λ m. IsCoherent H.grammar (view H.grammar m)) }
        // A refusal is the first fault.
        ensures refused { IfErr result (λ e. e ≢ OutOfMemory → MessageFault H.grammar bytes.now e) }
        // Then the bytes mean nothing.
        ensures none { IfErr result (λ e. e ≢ OutOfMemory → (n : View H.grammar) → IsMessage H.grammar bytes.now n → ⊥) }
        // Canonical bytes give back their message.
        ensures again { IfOk result (λ m. (n : View H.grammar) → IsCoherent H.grammar n → message_unfit H.grammar n ≡ None
            → bytes.now ≡ canonical_bytes H.grammar n → view H.grammar m ≡ n) }
        // Memory is taken behind a first whole attribute alone.
        ensures memory { IsErrOf result OutOfMemory → (x : Item) × (rest : List ℕ) × Front (drop H.grammar.layout.size bytes.now) x rest }
        // Canonical bytes are at most five halves as long as what was read.
        ensures growth { IfOk result (λ m. 2 * length (canonical_bytes H.grammar (view H.grammar m)) ≤ 5 * length bytes.now) }
        // Each level of lists takes 12 bytes behind the header.
        ensures depth { IfOk result (λ m. 12 * H.grammar.body.depth (view H.grammar m).attributes ≤ length bytes.now - H.grammar.layout.size) }
    {
        Message::<H, H::Attribute>::parse_counted(alloc, bytes, &mut Looks::new())
    }
}

#[tactic(auto, unfolding(crate::specs::Message::canonical_bytes, crate::specs::Message::message_unfit))]
impl<H: Header> Emitable for Message<H, H::Attribute> {
    ghost bytes = { λ m. canonical_bytes H.grammar (view H.grammar m) };

    ghost unfit = { λ m. message_unfit H.grammar (view H.grammar m) };

    fn check(&self) -> Result<usize, EmitError> {
        let len = check_list(self.attributes.as_slice())?;
        len.checked_add(H::size()).ok_or(EmitError::Total)
    }

    fn emit(&self, out: &mut [u8]) {
        write_list(self.attributes.as_slice(), &mut out[H::size()..]);
        self.header.emit(out);
    }
}
