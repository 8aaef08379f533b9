//! The value of `IFLA_LINKINFO` of `linux/if_link.h`: what governs the data is found first, and then the
//! list is read.

ghost use Rattle.std.specs.Prelude.{◌≡◌, ◌≢◌, ℕ, List, true, false, length, map, IfOk, IfErr, IsErrOf};
ghost use Rattle.{
  npr_base.specs.{
    declared.refusal.DecodeError.TheVariants.{OutOfMemory},
    Counts.{AddsAtMost},
    Framing.{Item, Front},
    Looks.{Answered},
    Refusal.{no_place},
  },
  npr_link.specs.{
    Governing.{told, port_told, forms_of, is_complete, noted, start, Searching, Searches},
    Info.{family},
    InfoList.{info_list, InfoLooks},
  },
};

use crate::info::{IFLA_INFO_KIND, IFLA_INFO_SLAVE_KIND, LinkInfo};
use crate::info_kind::form_of_name;
use crate::port_kind::{InfoPortForm, form_of_name as port_form_of_name};
use npr_base::{
    DecodeError, Looks, NlaBuffer, NlasIterator, parse_list, wants_memory, without_zero,
};
use npr_link_tunnels::InfoForm;
use std::alloc::Global;

/// What was found so far of what governs the data of a link, and of a port.
type Found = (Option<InfoForm>, Option<InfoPortForm>);

/// What an attribute tells of the data of a link: a form, where it is their kind.
fn told(item: &NlaBuffer<'_>) -> Option<InfoForm>
    ensures { result ≡ told item.now }
{
    match item.kind() {
        IFLA_INFO_KIND => Some(form_of_name(without_zero(item.value()))),
        _ => None,
    }
}

/// What it tells of those of a port.
fn port_told(item: &NlaBuffer<'_>) -> Option<InfoPortForm>
    ensures { result ≡ port_told item.now }
{
    match item.kind() {
        IFLA_INFO_SLAVE_KIND => Some(port_form_of_name(without_zero(item.value()))),
        _ => None,
    }
}

/// What was found with one attribute more: the first kind of each counts.
fn noted_with(found: Found, item: &NlaBuffer<'_>) -> Found
    ensures { result ≡ noted found item.now }
{
    (found.0.or(told(item)), found.1.or(port_told(item)))
}

/// Whether both were found.
fn is_complete(found: Found) -> bool
    ensures { result ≡ is_complete found }
{
    match found {
        (Some(_), Some(_)) => true,
        (Some(_), None) => false,
        (None, _) => false,
    }
}

/// What was found, and in the place of what was not that data are kept.
fn forms_of(found: Found) -> (InfoForm, InfoPortForm)
    ensures { result ≡ forms_of found }
{
    (
        found.0.unwrap_or(InfoForm::Kept),
        found.1.unwrap_or(InfoPortForm::Kept),
    )
}

/// What governs the data in the bytes: the first kind of a link and the first of a port, wherever
/// they stand. The search ends where both are found; a fault ends it too, and is refused when the
/// list is read. Each look at a header is counted.
fn search(bytes: &[u8], looks: &mut Looks) -> (InfoForm, InfoPortForm)
    ensures { Searching start bytes.now result looks.old looks.new }
{
    let mut found = (None, None);
    let mut walk = NlasIterator::new(bytes);
    while let Some(step) = walk.next_counted(looks) {
        let Ok(item) = step else {
            return forms_of(found);
        };
        found = noted_with(found, &item);
        if is_complete(found) {
            return forms_of(found);
        }
    }
    forms_of(found)
}

/// What governs the data in the bytes of an `IFLA_LINKINFO`: the first kind of a link and the first of a
/// port, wherever they stand before a fault. A list of fewer than 8 bytes has no room for a kind and
/// for data beside it, and is not searched. Each look at a header is counted.
pub fn governing_forms(bytes: &[u8], looks: &mut Looks) -> (InfoForm, InfoPortForm)
    ensures { Searches bytes.now result looks.old looks.new }
{
    if bytes.len() < 8 {
        return (InfoForm::Kept, InfoPortForm::Kept);
    }
    search(bytes, looks)
}

/// What a driver says of a link, under the kinds that stand in the bytes. Each look at a header is
/// counted; where memory is refused, those of the search alone.
///
/// # Errors
/// `OutOfMemory` where memory is refused, and else the first fault in reading order.
pub(crate) fn read_info(
    alloc: Global,
    bytes: &[u8],
    looks: &mut Looks,
) -> Result<Vec<LinkInfo>, DecodeError>
    ensures ok { IfOk result (λ v. info_list.Reads bytes.now (map family.meaning v.items)) }
    ensures refused { IfErr result (λ e. e ≢ OutOfMemory → info_list.Wrong no_place bytes.now e) }
    // Memory is taken behind a first whole attribute alone.
    ensures memory { IsErrOf result OutOfMemory → (x : Item) × (rest : List ℕ) × Front bytes.now x rest }
    ensures exact { Answered result → InfoLooks bytes.now looks.old looks.new }
    ensures bounded { AddsAtMost looks.old looks.new (length bytes.now) }
{
    let forms = governing_forms(bytes, looks);
    let mut inside = Looks::new();
    let read = parse_list(alloc, forms, bytes, &mut inside);
    if wants_memory(&read) {
        return read;
    }
    looks.add(&inside);
    read
}
