//! Values of an older table of SEG6 modes, brought up to the table of today. It goes down as
//! checking and writing do, and takes no memory.

ghost use Rattle.std.specs.Prelude.{◌≡◌, map, Vec};
ghost use Rattle.{
  npr_base.specs.Message.{view},
  npr_encapsulation.specs.Encapsulation.{meaning_of as member_of, normalized as normalized_member},
  npr_route.specs.{Attribute.{normalized, normalized_hop}, AttributeView.{meaning_of, hop_of}, Message.{routes, normalized_route}},
};

use crate::attribute::RouteAttribute;
use crate::message::RouteMessage;
use crate::next_hops::RouteNextHop;
use npr_encapsulation::RouteLwTunnelEncap;
use std::alloc::Global;
use std::mem;

/// Gives the mode of each SEG6 header in the message, at any depth, the name that its number has
/// today, where the message is of a time in which it had none (`docs/CHANGES.md`). What is written
/// stays the same.
pub fn normalize(message: &mut RouteMessage)
    // Each header is brought up, and all else is as it was.
    ensures { view routes message.new ≡ normalized_route (view routes message.old) }
{
    normalize_attributes(message.attributes.as_mut_slice());
}

fn normalize_members(members: &mut [RouteLwTunnelEncap])
    ensures { map member_of members.new ≡ map normalized_member (map member_of members.old) }
{
    for member in members.iter_mut() {
        member.normalize();
    }
}

#[cycle(normalize)]
fn normalize_attribute(attribute: &mut RouteAttribute)
    ensures { meaning_of attribute.new ≡ normalized (meaning_of attribute.old) }
{
    match attribute {
        RouteAttribute::Encap(members) => normalize_members(members.as_mut_slice()),
        RouteAttribute::MultiPath(_) => normalize_multi_path(attribute),
        _ => {}
    }
}

/// The list is taken out, and put in again.
#[cycle(normalize)]
fn normalize_multi_path(attribute: &mut RouteAttribute)
    requires { (v : Vec RouteNextHop Global) × (attribute.now ≡ RouteAttribute.MultiPath v) }
    ensures { meaning_of attribute.new ≡ normalized (meaning_of attribute.old) }
{
    let taken = mem::replace(attribute, RouteAttribute::Uid(0));
    if let RouteAttribute::MultiPath(mut hops) = taken {
        normalize_hops(hops.as_mut_slice());
        *attribute = RouteAttribute::MultiPath(hops);
    }
}

#[cycle(normalize)]
fn normalize_attributes(attributes: &mut [RouteAttribute])
    ensures { map meaning_of attributes.new ≡ map normalized (map meaning_of attributes.old) }
{
    for attribute in attributes.iter_mut() {
        normalize_attribute(attribute);
    }
}

#[cycle(normalize)]
fn normalize_hop(hop: &mut RouteNextHop)
    ensures { hop_of hop.new ≡ normalized_hop (hop_of hop.old) }
{
    normalize_attributes(hop.attributes.as_mut_slice());
}

#[cycle(normalize)]
fn normalize_hops(hops: &mut [RouteNextHop])
    ensures { map hop_of hops.new ≡ map normalized_hop (map hop_of hops.old) }
{
    for hop in hops.iter_mut() {
        normalize_hop(hop);
    }
}
