//! A walk by hand over attributes of any family.

ghost use Rattle.std.specs.Prelude.{◌≡◌, ℕ, List, None, Ok, IfOk, IfErr, IfSome};
ghost use Rattle.{examples.specs.Walk.{HasNone}, netlink_packet_route.specs.Framing.{Item, Front, Passes, Cut, Stops, number_of}};

use netlink_packet_route::framing::{DecodeError, NlasIterator};

/// The value of the first attribute of this number. Nothing behind it is looked at.
///
/// # Errors
/// The fault that stands before any attribute of the number.
pub fn find_value<'a>(bytes: &'a [u8], number: u16) -> Result<Option<&'a [u8]>, DecodeError>
    ensures found { IfOk result (λ found. IfSome found (λ value. (passed : List Item) × (rest : List ℕ) × (x : Item) × (more : List ℕ)
        × Passes bytes.now passed rest × HasNone number passed × Front rest x more × (number_of x.kind ≡ number) × (value.now ≡ x.value))) }
    ensures absent { result ≡ Ok None → (passed : List Item) × Cut bytes.now passed × HasNone number passed }
    ensures refused { IfErr result (λ e. (passed : List Item) × Stops bytes.now passed e × HasNone number passed) }
{
    let mut walk = NlasIterator::new(bytes);
    while let Some(next) = walk.next() {
        let item = next?;
        if item.kind() == number {
            return Ok(Some(item.value()));
        }
    }
    Ok(None)
}
