//! The laws of this crate, over its definitions alone. Each function does nothing, and its contract
//! is the law.

ghost use Rattle.std.specs.Prelude.{◌≡◌, ◌≤◌, ◌+◌, ◌-◌, ◌*◌, ◌++◌, ◌∷◌, ◌↔◌, ℕ, List, [], Result, Err, None, length, true};
ghost use Rattle.npr_base.specs.{
  declared.refusal.DecodeError.{DecodeError},
  AddressFamily.{all_family_rows, families},
  Equality.{IsEquality},
  Lists.{list_members},
  Framing.{Item, Cut, Stops},
  Counts.{Counts, AddsAtMostTwice, SawEach},
  Looks.{Adds},
  Message.{View, IsMessage, MessageLooks, IsCoherent, canonical_bytes, message_unfit},
  Rows.{agrees, numbered},
  Walk.{Steps, found, Finds, CutsInTwo},
};

use crate::attribute::Attribute;
use crate::framing::{
    NLA_ALIGNTO, NLA_F_NESTED, NLA_F_NET_BYTEORDER, NLA_HEADER_SIZE, NLA_TYPE_MASK,
};
use crate::message::Header;
use crate::{
    AddressFamily, At, AttributeSet, DecodeError, DefaultNla, EmitError, IpAddr, Ipv4Addr,
    Ipv6Addr, Looks, NlaBuffer, NlasIterator, Seg6Fault, WriteError,
};

/// The steps of a walk: those that find attributes from the first byte to the last are the cut of
/// the bytes, and those that find a fault are their stop. Any steps find attributes, each of which
/// takes four bytes at least, and one fault after them at most.
pub fn law_walk()
    ensures cut { (bytes : List ℕ) (items : List Item) → Steps bytes (found items) [] ↔ Cut bytes items }
    ensures stop { (bytes : List ℕ) (items : List Item) (e : DecodeError) → Steps bytes (found items ++ Err e ∷ []) [] ↔ Stops bytes items e }
    ensures any { (bytes : List ℕ) (steps : List (Result Item DecodeError)) (rest : List ℕ) → Steps bytes steps rest
        → (items : List Item) × Finds bytes steps rest items × (4 * length items ≤ length bytes) }
{}

/// A list whose beginning is a multiple of four bytes and is cut into attributes by itself is the
/// list of that beginning and then that of the rest, in the same context.
pub fn law_cut<A: Attribute>()
    ensures { (context : A.Context) → CutsInTwo (A.family.reading context).Reads }
{}

/// What a number reads as is written as that number, and each row's family is written as the row's number.
pub fn law_family_number()
    ensures back { (d : ℕ) → families.number (families.of d) ≡ d }
    ensures rows { agrees families.number (numbered all_family_rows) ≡ true }
{}

/// The constants of `linux/netlink.h`.
pub fn law_constants()
    ensures nested { NLA_F_NESTED ≡ 0x8000 }
    ensures byte_order { NLA_F_NET_BYTEORDER ≡ 0x4000 }
    ensures type_mask { NLA_TYPE_MASK ≡ 0x3fff }
    ensures align_to { NLA_ALIGNTO ≡ 4 }
    ensures header_size { NLA_HEADER_SIZE ≡ 4 }
{}

/// Which value is the default.
pub fn law_default()
    ensures { (x : AddressFamily) → ⟦<AddressFamily as Default>⟧.is_default x → x ≡ AddressFamily.Unspec }
{}

/// `==` answers whether two values are equal.
pub fn law_equality()
    ensures address_family { IsEquality ⟦<AddressFamily as PartialEq>⟧.eq }
    ensures ipv4 { IsEquality ⟦<Ipv4Addr as PartialEq>⟧.eq }
    ensures ipv6 { IsEquality ⟦<Ipv6Addr as PartialEq>⟧.eq }
    ensures ip { IsEquality ⟦<IpAddr as PartialEq>⟧.eq }
    ensures attr_family { IsEquality ⟦<AttributeSet as PartialEq>⟧.eq }
    ensures at { IsEquality ⟦<At as PartialEq>⟧.eq }
    ensures seg6_fault { IsEquality ⟦<Seg6Fault as PartialEq>⟧.eq }
    ensures decode_error { IsEquality ⟦<DecodeError as PartialEq>⟧.eq }
    ensures emit_error { IsEquality ⟦<EmitError as PartialEq>⟧.eq }
    ensures write_error { IsEquality ⟦<WriteError as PartialEq>⟧.eq }
    ensures default_nla { IsEquality ⟦<DefaultNla as PartialEq>⟧.eq }
    ensures nla_buffer { IsEquality ⟦<NlaBuffer<'static> as PartialEq>⟧.eq }
    ensures walk { IsEquality ⟦<NlasIterator<'static> as PartialEq>⟧.eq }
    ensures looks { IsEquality ⟦<Looks as PartialEq>⟧.eq }
{}

/// Bytes are one message at most.
pub fn law_one_reading<H: Header>()
    ensures { (bytes : List ℕ) (m n : View H.grammar) → IsMessage H.grammar bytes m → IsMessage H.grammar bytes n → m ≡ n }
{}

/// The canonical bytes of a coherent message that fits are that message.
pub fn law_read_back<H: Header>()
    ensures { (m : View H.grammar) → IsCoherent H.grammar m → message_unfit H.grammar m ≡ None → IsMessage H.grammar (canonical_bytes H.grammar m) m }
{}

/// Coherent messages of one kind that fit are equal where their canonical bytes are.
pub fn law_canonical<H: Header>()
    ensures { (m n : View H.grammar) → IsCoherent H.grammar m → message_unfit H.grammar m ≡ None → IsCoherent H.grammar n → message_unfit H.grammar n ≡ None
        → canonical_bytes H.grammar m ≡ canonical_bytes H.grammar n → m ≡ n }
{}

/// The looks that reading a message takes are one number, by its bytes alone.
pub fn law_looks<H: Header>()
    // From the same counts it goes to the same counts,
    ensures one { (bytes : List ℕ) (old new other : Counts) → MessageLooks H.grammar bytes old new → MessageLooks H.grammar bytes old other → new ≡ other }
    // and what it adds to these counts, it adds to all.
    ensures number { (bytes : List ℕ) (old new : Counts) → MessageLooks H.grammar bytes old new → Adds (MessageLooks H.grammar bytes) old new }
    // At most two for four bytes behind the header, and one for twelve and two that fail.
    ensures bounded { (bytes : List ℕ) (old new : Counts) → MessageLooks H.grammar bytes old new → AddsAtMostTwice old new (length bytes - H.grammar.layout.size) }
    // Each attribute of a message has one, and so has each inside one.
    ensures counted { (bytes : List ℕ) (m : View H.grammar) (old new : Counts) → IsMessage H.grammar bytes m → MessageLooks H.grammar bytes old new
        → SawEach old new (list_members H.grammar.writing.members m.attributes) }
{}
