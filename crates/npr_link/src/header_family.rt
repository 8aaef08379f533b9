//! What the protocol and address families say of a link, which the header's family governs: `IFLA_PROTINFO` and
//! `IFLA_AF_SPEC` of `linux/if_link.h`.

ghost use Rattle.std.specs.Prelude.{◌≡◌, ◌≢◌, length, IfOk, IfErr};
ghost use Rattle.{
  npr_base.specs.{
    declared.refusal.DecodeError.TheVariants.{OutOfMemory},
    Counts.{AddsAtMost},
    Looks.{Answered, TakesInside},
    Refusal.{no_place},
  },
  npr_link.specs.{
    AfSpecs.{AfSpecs, af_specs, form_of},
    Attribute.{MeansProtoInfos, MeansAfSpecs},
    ProtoInfos.{ProtoInfos, proto_infos, shown_as, form_of as proto_form_of},
  },
};

use crate::attribute::LinkAttribute;
use npr_base::{
    AddressFamily, AttributeSet, DecodeError, DefaultNla, Form, Looks, NlaBuffer, Place,
    parse_list, read_bytes,
};
use std::alloc::Global;

/// How what the protocol says is read without memory.
pub(crate) fn proto_info_form(family: AddressFamily) -> Form
    ensures { result ≡ shown_as (proto_form_of family) }
{
    match family {
        AddressFamily::Inet6 => Form::List(AttributeSet::AfSpecInet6, 0),
        AddressFamily::Bridge => Form::List(AttributeSet::InfoBridgePort, 0),
        _ => Form::Raw,
    }
}

/// How what address families say is read without memory.
pub(crate) fn af_spec_form(family: AddressFamily) -> Form
    ensures { result ≡ (af_specs (form_of family)).showing.form }
{
    match family {
        AddressFamily::Unspec | AddressFamily::Inet | AddressFamily::Inet6 => {
            Form::List(AttributeSet::AfSpecUnspec, 0)
        }
        AddressFamily::Bridge => Form::List(AttributeSet::AfSpecBridge, 0),
        _ => Form::Raw,
    }
}

/// Puts what the protocol says: a list where the header's family is IP version 6 or that of bridges.
///
/// # Errors
/// `OutOfMemory` where memory is refused, and else the first fault in reading order.
#[tactic(auto, using(crate::specs::AttributeSteps::inet6_means, crate::specs::AttributeSteps::port_means, crate::specs::AttributeSteps::whole_means))]
pub(crate) fn put_proto_info<P: Place<LinkAttribute>>(
    place: &mut P,
    alloc: Global,
    family: AddressFamily,
    item: &NlaBuffer<'_>,
    looks: &mut Looks,
) -> Result<(), DecodeError>
    requires { P.ready place.old }
    ensures ok { IfOk result (λ _. (a : LinkAttribute) × (x : ProtoInfos) × P.puts place.old a place.new × MeansProtoInfos a x
        × (proto_infos (proto_form_of family)).Reads item.now x) }
    ensures refused { IfErr result (λ e. e ≢ OutOfMemory → (proto_infos (proto_form_of family)).Faulty item.now e) }
    ensures exact { Answered result → (proto_infos (proto_form_of family)).looks.Takes item.now looks.old looks.new }
    ensures bounded { AddsAtMost looks.old looks.new (length (item.now).value) }
{
    match family {
        AddressFamily::Inet6 => {
            place.put(LinkAttribute::ProtoInfoInet6(parse_list(alloc, (), item.value(), looks)?));
            Ok(())
        }
        AddressFamily::Bridge => {
            place.put(LinkAttribute::ProtoInfoBridge(parse_list(alloc, (), item.value(), looks)?));
            Ok(())
        }
        _ => {
            place.put(LinkAttribute::ProtoInfoUnknown(DefaultNla::read(alloc, item)?));
            Ok(())
        }
    }
}

/// Puts what address families say: a list where the header has no family, or that of IP or of bridges.
///
/// # Errors
/// `OutOfMemory` where memory is refused, and else the first fault in reading order.
#[tactic(auto, using(crate::specs::AttributeSteps::unspec_means, crate::specs::AttributeSteps::bridge_means, crate::specs::AttributeSteps::unknown_means))]
pub(crate) fn put_af_spec<P: Place<LinkAttribute>>(
    place: &mut P,
    alloc: Global,
    family: AddressFamily,
    value: &[u8],
    looks: &mut Looks,
) -> Result<(), DecodeError>
    requires { P.ready place.old }
    ensures ok { IfOk result (λ _. (a : LinkAttribute) × (x : AfSpecs) × P.puts place.old a place.new × MeansAfSpecs a x
        × (af_specs (form_of family)).Reads value.now x) }
    ensures refused { IfErr result (λ e. e ≢ OutOfMemory → (af_specs (form_of family)).Wrong no_place value.now e) }
    ensures exact { Answered result → TakesInside (af_specs (form_of family)).members.looks value.now looks.old looks.new }
    ensures bounded { AddsAtMost looks.old looks.new (length value.now) }
{
    match family {
        AddressFamily::Unspec | AddressFamily::Inet | AddressFamily::Inet6 => {
            place.put(LinkAttribute::AfSpecUnspec(parse_list(alloc, (), value, looks)?));
            Ok(())
        }
        AddressFamily::Bridge => {
            place.put(LinkAttribute::AfSpecBridge(parse_list(alloc, (), value, looks)?));
            Ok(())
        }
        _ => {
            place.put(LinkAttribute::AfSpecUnknown(read_bytes(alloc, value)?));
            Ok(())
        }
    }
}
