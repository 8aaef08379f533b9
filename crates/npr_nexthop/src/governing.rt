//! The type of encapsulation that governs a list of next hop attributes.

ghost use Rattle.std.specs.Prelude.{◌≡◌};
ghost use Rattle.npr_nexthop.specs.Governing.{item_type, Governs, Searches};

use crate::attribute::NHA_ENCAP_TYPE;
use npr_base::{Looks, NlaBuffer, NlasIterator};
use npr_encapsulation::RouteLwEnCapType;

/// The type that an `NHA_ENCAP_TYPE` of two bytes tells.
fn stated_type(item: &NlaBuffer<'_>) -> Option<RouteLwEnCapType>
    ensures { result ≡ item_type item.now }
{
    match item.value() {
        [low, high] if item.kind() == NHA_ENCAP_TYPE => {
            Some(RouteLwEnCapType::from(u16::from_le_bytes([*low, *high])))
        }
        _ => None,
    }
}

/// The type that governs the list in the bytes: that of its first `NHA_ENCAP_TYPE` of two bytes,
/// wherever it stands, and `None` where there is none. A fault ends the search and no more: it is
/// refused when the list is read. Each look at a header is counted.
pub(crate) fn governing_type(bytes: &[u8], looks: &mut Looks) -> RouteLwEnCapType
    ensures governs { Governs bytes.now result }
    ensures looks { Searches bytes.now result looks.old looks.new }
{
    let mut walk = NlasIterator::new(bytes);
    while let Some(Ok(item)) = walk.next_counted(looks) {
        if let Some(encap_type) = stated_type(&item) {
            return encap_type;
        }
    }
    RouteLwEnCapType::None
}
