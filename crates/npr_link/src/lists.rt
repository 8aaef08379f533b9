//! Attributes of a link with others inside, whatever the header's family.

ghost use Rattle.std.specs.Prelude.{◌≢◌, List, length, IfOk, IfErr};
ghost use Rattle.{
  npr_base.specs.{
    declared.refusal.DecodeError.TheVariants.{OutOfMemory},
    Counts.{AddsAtMost},
    Framing.{number_of},
    Looks.{Answered},
    Refusal.{no_place},
  },
  npr_link.specs.{
    Attribute.{IsFlat, FlatFault, FlatLooks, MeansInfo},
    Info.{Meaning as InfoMeaning},
    InfoList.{info_list, InfoLooks},
  },
};

use crate::attribute::{LinkAttribute, put_plain};
use crate::info_list::read_info;
use npr_base::{DecodeError, Looks, NlaBuffer, Place, parse_list, put_read};
use std::alloc::Global;

/// The number of its virtual functions, `IFLA_VFINFO_LIST`.
const IFLA_VFINFO_LIST: u16 = 22;

/// The number of the ports of virtual functions, `IFLA_VF_PORTS`.
const IFLA_VF_PORTS: u16 = 24;

/// The number of a link's own port, `IFLA_PORT_SELF`.
const IFLA_PORT_SELF: u16 = 25;

/// The number of what runs in front of the network stack, `IFLA_XDP`.
const IFLA_XDP: u16 = 43;

/// The number of further names, `IFLA_PROP_LIST`.
const IFLA_PROP_LIST: u16 = 52;

/// The number of why the protocol is down, `IFLA_PROTO_DOWN_REASON`.
const IFLA_PROTO_DOWN_REASON: u16 = 55;

/// The number of the pin that it is clocked by, `IFLA_DPLL_PIN`.
const IFLA_DPLL_PIN: u16 = 65;

/// Puts what a driver says, under the kinds that stand in it.
///
/// # Errors
/// `OutOfMemory` where memory is refused, and else the first fault in reading order.
#[tactic(auto, using(crate::specs::AttributeSteps::info_means))]
pub(crate) fn put_info<P: Place<LinkAttribute>>(
    place: &mut P,
    alloc: Global,
    value: &[u8],
    looks: &mut Looks,
) -> Result<(), DecodeError>
    requires { P.ready place.old }
    ensures ok { IfOk result (λ _. (a : LinkAttribute) × (x : List InfoMeaning) × P.puts place.old a place.new × MeansInfo a x
        × info_list.Reads value.now x) }
    ensures refused { IfErr result (λ e. e ≢ OutOfMemory → info_list.Wrong no_place value.now e) }
    ensures exact { Answered result → InfoLooks value.now looks.old looks.new }
    ensures bounded { AddsAtMost looks.old looks.new (length value.now) }
{
    put_read(
        place,
        read_info(alloc, value, looks),
        LinkAttribute::LinkInfo,
    )
}

/// Puts an attribute that stands for itself.
///
/// # Errors
/// `OutOfMemory` where memory is refused, and else the first fault in reading order.
#[tactic(auto, using(crate::specs::AttributeSteps::no_looks), unfolding(crate::specs::Attribute::IsFlat, crate::specs::Attribute::FlatFault, crate::specs::Attribute::FlatLooks))]
pub(crate) fn put_flat<P: Place<LinkAttribute>>(
    place: &mut P,
    alloc: Global,
    item: &NlaBuffer<'_>,
    looks: &mut Looks,
) -> Result<(), DecodeError>
    requires { P.ready place.old }
    ensures ok { IfOk result (λ _. (a : LinkAttribute) × P.puts place.old a place.new × IsFlat (number_of (item.now).kind) item.now a) }
    ensures refused { IfErr result (λ e. e ≢ OutOfMemory → FlatFault (number_of (item.now).kind) item.now e) }
    ensures exact { Answered result → FlatLooks item.now looks.old looks.new }
    ensures bounded { AddsAtMost looks.old looks.new (length (item.now).value) }
{
    let value = item.value();
    match item.kind() {
        IFLA_VFINFO_LIST => put_read(
            place,
            parse_list(alloc, (), value, looks),
            LinkAttribute::VfInfoList,
        ),
        IFLA_VF_PORTS => put_read(
            place,
            parse_list(alloc, (), value, looks),
            LinkAttribute::VfPorts,
        ),
        IFLA_PORT_SELF => put_read(
            place,
            parse_list(alloc, (), value, looks),
            LinkAttribute::PortSelf,
        ),
        IFLA_XDP => put_read(
            place,
            parse_list(alloc, (), value, looks),
            LinkAttribute::Xdp,
        ),
        IFLA_PROP_LIST => put_read(
            place,
            parse_list(alloc, (), value, looks),
            LinkAttribute::PropList,
        ),
        IFLA_PROTO_DOWN_REASON => put_read(
            place,
            parse_list(alloc, (), value, looks),
            LinkAttribute::ProtoDownReason,
        ),
        IFLA_DPLL_PIN => put_read(
            place,
            parse_list(alloc, (), value, looks),
            LinkAttribute::DpllPin,
        ),
        _ => put_plain(place, alloc, item),
    }
}
