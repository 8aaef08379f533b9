//! The laws of route messages, over their definitions alone. Each function does nothing, and its
//! contract is the law.

ghost use Rattle.std.specs.Prelude.{true, false, ◌≡◌, ◌≤◌, ◌+◌, ◌*◌, ℕ, List, None, length, max};
ghost use Rattle.{
  npr_base.specs.{
    Equality.{IsEquality, IsEqualityOf},
    declared.refusal.DecodeError.{DecodeError},
    Framing.{IsBytes},
    Counts.{Counts, AddsAtMost},
    Message.{IsCoherent, IsMessage, View, message_unfit, canonical_bytes, view},
  },
  npr_srh.specs.Seg6Mode.{first_modes},
  npr_encapsulation.specs.declared.encap_type.RouteLwEnCapType.{RouteLwEnCapType},
  npr_route.specs.{
    AttributeLooks.{HopsLooks, HopsTake},
    AttributeView.{meaning_of, hop_of},
    FlatAttribute.{Context, Meaning as Flat},
    Governing.{Governs},
    Header.{default_header, header},
    Metric.{family as metric_family},
    Message.{routes, normalized_route, IsRouteMessageBy, IsCoherentRouteBy},
    Attribute.{Meaning, Attributes, attributes_of, first_type, AreGoverned, Hops, AreHops, HopsWrong, HopsCoherent, hops_bytes, hops_unfit, HopHead, no_hops, hop, no_more, attribute, multi_path, flat, hops_depth, attributes_depth},
    RouteList.{Under, IsRouteList},
  },
};

use crate::attribute::RouteAttribute;
use crate::header::{RouteHeader, RouteMessageBuffer};
use crate::message::RouteMessage;
use crate::metrics::RouteMetric;
use crate::next_hop_buffer::RouteNextHopBuffer;
use crate::next_hops::RouteNextHop;

/// One type governs a list, whatever its bytes are and whatever the outer type is; and where the
/// bytes are a list, that is the first type that its attributes hold, or else the outer one: `None`
/// for the list of a message, and for that of a next hop the type of the list that holds it.
pub fn law_governing_type()
    ensures one { (outer a b : RouteLwEnCapType) (bytes : List ℕ) → Governs outer bytes a → Governs outer bytes b → a ≡ b }
    ensures first { (under : Under) (bytes : List ℕ) (xs : List Meaning) → IsRouteList under bytes xs → Governs RouteLwEnCapType.None bytes (first_type RouteLwEnCapType.None (attributes_of xs)) }
    ensures inside { (c : Context) (bytes : List ℕ) (ms : Attributes) → AreGoverned c bytes ms → Governs c.2 bytes (first_type c.2 ms) }
{}

/// Next hops, over their definitions: bytes are one list of them at most, and none where there is
/// a fault; what is read is coherent, what is coherent and fits is read back from its encoding,
/// an encoding is at most five halves as long as what was read, and each level takes 12 bytes. None
/// have depth 0, and a list is one deeper than the deepest list inside its next hops.
pub fn law_next_hops()
    ensures one { (c : Context) (bytes : List ℕ) (gs hs : Hops) → AreHops c bytes gs → AreHops c bytes hs → gs ≡ hs }
    ensures none { (c : Context) (bytes : List ℕ) (hs : Hops) (e : DecodeError) → AreHops c bytes hs → HopsWrong c bytes e → ⊥ }
    ensures coherent { (c : Context) (bytes : List ℕ) (hs : Hops) → IsBytes bytes → AreHops c bytes hs → HopsCoherent c hs }
    ensures back { (c : Context) (hs : Hops) → HopsCoherent c hs → hops_unfit hs ≡ None → AreHops c (hops_bytes hs) hs }
    ensures growth { (c : Context) (bytes : List ℕ) (hs : Hops) → IsBytes bytes → AreHops c bytes hs → 2 * length (hops_bytes hs) ≤ 5 * length bytes }
    ensures depth { (c : Context) (bytes : List ℕ) (hs : Hops) → AreHops c bytes hs → 12 * hops_depth hs ≤ 4 + length bytes }
    ensures no_depth { hops_depth no_hops ≡ 0 }
    ensures one_deeper { (h : HopHead) (ms : Attributes) (hs : Hops) → hops_depth (hop h ms hs) ≡ max (attributes_depth ms + 1) (hops_depth hs) }
    ensures plain { (m : Flat) (ms : Attributes) → attributes_depth (attribute (flat m) ms) ≡ attributes_depth ms }
    ensures inside { (gs : Hops) (ms : Attributes) → attributes_depth (attribute (multi_path gs) ms) ≡ max (hops_depth gs) (attributes_depth ms) }
    ensures no_attributes { attributes_depth no_more ≡ 0 }
{}

/// The looks that reading next hops takes, over their definition.
pub fn law_looks()
    // At most two for four bytes, and one for twelve and one that fails.
    ensures next_hops { (c : Context) (bytes : List ℕ) (old new : Counts) → HopsTake c bytes old new → AddsAtMost old new (length bytes) }
    // Next hops are read where their looks say so, and else there is a fault.
    ensures read { (c : Context) (bytes : List ℕ) (old new : Counts) → HopsLooks c bytes true old new → (hs : Hops) × AreHops c bytes hs }
    ensures wrong { (c : Context) (bytes : List ℕ) (old new : Counts) → HopsLooks c bytes false old new → (e : DecodeError) × HopsWrong c bytes e }
{}

/// A message of the first table of SEG6 modes, brought up to the table of today as `normalize` does.
pub fn law_newer()
    // It is written by the same bytes,
    ensures bytes { (m : View routes) → canonical_bytes routes (normalized_route m) ≡ canonical_bytes routes m }
    // and where it can't be written, for the same cause.
    ensures fits { (m : View routes) → message_unfit routes (normalized_route m) ≡ message_unfit routes m }
    // Once is enough.
    ensures again { (m : View routes) → normalized_route (normalized_route m) ≡ normalized_route m }
    // What could be read then can be read now,
    ensures coherent { (m : View routes) → IsCoherentRouteBy first_modes m → IsCoherent routes (normalized_route m) }
    // and what bytes meant then, they mean now brought up.
    ensures read { (bytes : List ℕ) (m : View routes) → IsRouteMessageBy first_modes bytes m → IsMessage routes bytes (normalized_route m) }
{}

/// The tables that have a name (`linux/rtnetlink.h`).
pub fn law_constants()
    ensures main { RouteHeader.RT_TABLE_MAIN ≡ 254 }
    ensures unspec { RouteHeader.RT_TABLE_UNSPEC ≡ 0 }
{}

/// Which value is the default.
pub fn law_default()
    ensures { (x : RouteHeader) → ⟦<RouteHeader as Default>⟧.is_default x → x ≡ default_header }
{}

/// `==` answers whether two values are equal, or mean the same where they hold a vector or a text.
pub fn law_equality()
    ensures header { IsEquality ⟦<RouteHeader as PartialEq>⟧.eq }
    ensures header_buffer { IsEquality ⟦<RouteMessageBuffer as PartialEq>⟧.eq }
    ensures next_hop_buffer { IsEquality ⟦<RouteNextHopBuffer as PartialEq>⟧.eq }
    ensures metric { IsEqualityOf metric_family.meaning ⟦<RouteMetric as PartialEq>⟧.eq }
    ensures attribute { IsEqualityOf meaning_of ⟦<RouteAttribute as PartialEq>⟧.eq }
    ensures next_hop { IsEqualityOf hop_of ⟦<RouteNextHop as PartialEq>⟧.eq }
    ensures message { IsEqualityOf (view routes) ⟦<RouteMessage as PartialEq>⟧.eq }
{}
