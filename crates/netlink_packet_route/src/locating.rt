//! Where in a message the first fault stands: its attributes are checked one after the other.

ghost use Rattle.std.specs.Prelude.{◌≡◌, ◌≤◌, ◌<◌, ◌⊎◌, ℕ, List, None, true, false, length, drop, IfOk, IfErr};
ghost use Rattle.{
  npr_base.specs.Message.{IsMessage, MessageFault},
  netlink_packet_route.specs.{
    MessageKind.{MessageOf, form_of, header_size},
    NestLists.{IsListAt},
    Stops.{AreLengths, AreWanted, AreWantedIn, IsApart, IsHolder, IsHolderIn, StandsIn, StopsAt},
  },
};

use crate::kind::MessageKind;
use crate::nests::Nest;
use npr_base::{At, AttributeSet, DecodeError, NlasIterator};
use npr_names::{Located, front_number, lengths_of};

/// Checks attributes one after the other, up to the first that is wrong, and puts how many bytes are
/// left where it begins.
///
/// # Errors
/// What is wrong there.
fn check_each(nest: Nest, attributes: &[u8], left: &mut usize) -> Result<(), DecodeError>
    ensures ok { IfOk result (λ _. IsListAt nest attributes.now) }
    ensures stopped { IfErr result (λ e. (rest : List ℕ) × StopsAt nest attributes.now rest e × (left.new ≡ length rest)) }
    ensures within { IfErr result (λ _. left.new ≤ length attributes.now) }
{
    *left = attributes.len();
    let mut walk = NlasIterator::new(attributes);
    while let Some(next) = walk.next() {
        let item = next?;
        nest.check_attribute(&item)?;
        *left = walk.rest().len();
    }
    Ok(())
}

/// Why bytes are no message, and where in them the first fault stands: 0 where they are fewer than a
/// header.
#[derive(Clone, Copy)]
struct Stop {
    refusal: DecodeError,
    offset: usize,
}

/// Checks a message attribute by attribute. It takes no memory.
///
/// # Errors
/// The first fault with its place.
fn check_through(kind: MessageKind, bytes: &[u8]) -> Result<(), Stop>
    ensures ok { IfOk result (λ _. (m : MessageOf kind) × IsMessage (form_of kind).grammar bytes.now m) }
    ensures refused { IfErr result (λ place. MessageFault (form_of kind).grammar bytes.now place.refusal) }
    ensures place { IfErr result (λ place. ((length bytes.now < header_size kind) × (place.offset ≡ 0)) ⊎ StandsIn kind bytes.now place.offset place.refusal) }
{
    let (nest, attributes) = match Nest::begin(kind, bytes) {
        Ok(list) => list,
        Err(refusal) => return Err(Stop { refusal, offset: 0 }),
    };
    let mut left = 0;
    match check_each(nest, attributes, &mut left) {
        Ok(()) => Ok(()),
        Err(refusal) => Err(Stop {
            refusal,
            offset: bytes.len() - left,
        }),
    }
}

/// Whether what an encapsulation holds is of another set, as in a next hop.
fn is_apart(nest: Nest, set: AttributeSet) -> bool
    ensures apart { result ≡ true → IsApart nest set }
    ensures not { result ≡ false → IsApart nest set → ⊥ }
{
    matches!(nest.set, AttributeSet::Encap) && nest.told_set() != set
}

/// The lengths of the value of an attribute, in a message with this list. None where they are not known: of a
/// reader of its own, or in another encapsulation.
fn lengths_at(nest: Nest, at: At) -> Option<(usize, usize)>
    ensures { AreLengths nest at result }
{
    let inner = Nest::new(at.set, nest.context);
    if is_apart(inner, at.set) {
        return None;
    }
    let (_, form) = inner.form(at.number);
    lengths_of(form)
}

/// Those of the value of which a refusal tells another length.
fn wanted_by(nest: Nest, refusal: DecodeError) -> Option<(usize, usize)>
    ensures { AreWanted nest refusal result }
{
    match refusal {
        DecodeError::ValueLength { at, .. } => lengths_at(nest, at),
        _ => None,
    }
}

/// The attribute of a message that begins so many bytes from its first, by the set of its list, if one stands
/// there.
fn attribute_at(nest: Nest, bytes: &[u8], offset: usize) -> Option<At>
    ensures { IsHolder nest (drop offset bytes.now) result }
{
    if bytes.len() < offset {
        return None;
    }
    match front_number(&bytes[offset..]) {
        Some(number) => Some(nest.told_set().at(number)),
        None => None,
    }
}

/// All that is told of where a check stops.
fn located(kind: MessageKind, bytes: &[u8], stop: Stop) -> Located
    ensures refusal { result.refusal ≡ stop.refusal }
    ensures offset { result.offset ≡ stop.offset }
    ensures holder { (IsHolderIn kind bytes.now stop.offset result.holder) ⊎ ((length bytes.now < header_size kind) × (result.holder ≡ None)) }
    ensures wanted { (AreWantedIn kind bytes.now stop.refusal result.wanted) ⊎ ((length bytes.now < header_size kind) × (result.wanted ≡ None)) }
{
    let refusal = stop.refusal;
    let offset = stop.offset;
    match Nest::begin(kind, bytes) {
        Ok((nest, _)) => Located {
            refusal,
            offset,
            holder: attribute_at(nest, bytes, offset),
            wanted: wanted_by(nest, refusal),
        },
        Err(_) => Located {
            refusal,
            offset,
            holder: None,
            wanted: None,
        },
    }
}

/// Whether the bytes are a message of this kind, as `validate`, and else what is wrong and where. It takes no
/// memory but on the stack, for next hops inside next hops.
///
/// # Errors
/// The first fault in reading order, with its place: each attribute of the message before it is read.
pub fn locate(kind: MessageKind, bytes: &[u8]) -> Result<(), Located>
    ensures ok { IfOk result (λ _. (m : MessageOf kind) × IsMessage (form_of kind).grammar bytes.now m) }
    ensures refused { IfErr result (λ place. MessageFault (form_of kind).grammar bytes.now place.refusal) }
    ensures place { IfErr result (λ place. ((length bytes.now < header_size kind) × (place.offset ≡ 0)) ⊎ StandsIn kind bytes.now place.offset place.refusal) }
    // The attribute that stands there, and the lengths that a value may have of which another is refused.
    ensures holder { IfErr result (λ place. (IsHolderIn kind bytes.now place.offset place.holder)
        ⊎ ((length bytes.now < header_size kind) × (place.holder ≡ None))) }
    ensures wanted { IfErr result (λ place. (AreWantedIn kind bytes.now place.refusal place.wanted)
        ⊎ ((length bytes.now < header_size kind) × (place.wanted ≡ None))) }
{
    match check_through(kind, bytes) {
        Ok(()) => Ok(()),
        Err(stop) => Err(located(kind, bytes, stop)),
    }
}
