//! Lists of route attributes: the type that governs them is found first, and then they are read.

ghost use Rattle.std.specs.Prelude.{◌≡◌, ◌≢◌, ℕ, List, length, map, IfOk, IfErr, IsErrOf};
ghost use Rattle.{
  npr_base.specs.{
    declared.refusal.DecodeError.TheVariants.{OutOfMemory},
    Counts.{AddsAtMostTwice, SawEach},
    Lists.{list_members},
    Framing.{Item, Front},
    Looks.{Answered},
  },
  npr_route.specs.{
    Attribute.{Meaning},
    AttributeView.{meaning_of},
    AttributeFamily.{writing},
    Governing.{item_type, Governs, Searches},
    RouteList.{IsRouteList, RouteListFault, RouteListTakes},
  },
};

use crate::attribute::{RTA_ENCAP_TYPE, RouteAttribute};
use npr_base::{AddressFamily, DecodeError, Looks, NlaBuffer, NlasIterator, parse_list};
use npr_encapsulation::RouteLwEnCapType;
use npr_route_values::RouteType;
use std::alloc::Global;

/// The type that an `RTA_ENCAP_TYPE` of two bytes tells.
fn stated_type(item: &NlaBuffer<'_>) -> Option<RouteLwEnCapType>
    ensures { result ≡ item_type item.now }
{
    match item.value() {
        [low, high] if item.kind() == RTA_ENCAP_TYPE => {
            Some(RouteLwEnCapType::from(u16::from_le_bytes([*low, *high])))
        }
        _ => None,
    }
}

/// The type that governs the list in the bytes: that of its first `RTA_ENCAP_TYPE` of two bytes,
/// wherever it stands, and the outer type where there is none. A fault ends the search and no more:
/// it is refused when the list is read. Each look at a header is counted.
pub fn governing_type(bytes: &[u8], outer: RouteLwEnCapType, looks: &mut Looks) -> RouteLwEnCapType
    ensures governs { Governs outer bytes.now result }
    ensures looks { Searches outer bytes.now result looks.old looks.new }
{
    let mut walk = NlasIterator::new(bytes);
    while let Some(Ok(item)) = walk.next_counted(looks) {
        if let Some(encap_type) = stated_type(&item) {
            return encap_type;
        }
    }
    outer
}

/// The attributes that the bytes are cut into, in their order, under the family and the type of a
/// header. Encapsulations are read by the first `RTA_ENCAP_TYPE` among them, which is looked for
/// before anything is read; each look at a header is counted. It is for callers: the library reads a
/// message.
///
/// # Errors
/// `OutOfMemory` where memory is refused, and else the first fault in reading order.
pub fn read_route_list(
    alloc: Global,
    bytes: &[u8],
    under: (AddressFamily, RouteType),
    looks: &mut Looks,
) -> Result<Vec<RouteAttribute>, DecodeError>
    // What is read is what the bytes mean.
    ensures ok { IfOk result (λ v. IsRouteList under bytes.now (map meaning_of v.items)) }
    // A refusal is the first fault.
    ensures refused { IfErr result (λ e. e ≢ OutOfMemory → RouteListFault under bytes.now e) }
    // Then the bytes mean nothing.
    ensures none { IfErr result (λ e. e ≢ OutOfMemory → (xs : List Meaning) → IsRouteList under bytes.now xs → ⊥) }
    // Memory is taken behind a first whole attribute alone.
    ensures memory { IsErrOf result OutOfMemory → (x : Item) × (rest : List ℕ) × Front bytes.now x rest }
    // The looks are those that the bytes take.
    ensures exact { Answered result → RouteListTakes under bytes.now looks.old looks.new }
    // The search and the reading together look no more often than a reading may.
    ensures bounded { AddsAtMostTwice looks.old looks.new (length bytes.now) }
    ensures counted { IfOk result (λ v. SawEach looks.old looks.new (list_members writing.members (map meaning_of v.items))) }
{
    let encap_type = governing_type(bytes, RouteLwEnCapType::None, looks);
    parse_list(alloc, (under.0, under.1, encap_type), bytes, looks)
}
