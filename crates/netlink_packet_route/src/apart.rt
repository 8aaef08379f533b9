//! Values that have a check of their own and hold no list of attributes.

ghost use Rattle.std.specs.Prelude.{◌≡◌, ◌≢◌, false, IfSome, IfNone, IfOk, IfErr};
ghost use Rattle.npr_base.specs.Framing.{number_of};
ghost use Rattle.npr_route.specs.{Attribute.{Meaning as RouteMeaning}, AttributeFamily.{attributes as route_attributes}, FlatAttribute.{Context}};
ghost use Rattle.netlink_packet_route.specs.{NestLists.{IsAttributeAt}, Nests.{reading_of, stands_apart}};

use crate::nests::Nest;
use npr_base::{AttributeSet, DecodeError, NlaBuffer};
use npr_encapsulation::{RouteLwTunnelEncap, RouteLwTunnelOpt};
use npr_link::InfoBond;
use npr_route_values::RouteVia;

/// `RTA_VIA` of `linux/rtnetlink.h`.
const RTA_VIA: u16 = 18;

/// Whether a value with a check of its own is well formed, or `None` for any other. It takes no memory.
///
/// # Errors
/// The value's first fault.
pub fn check_apart(nest: Nest, item: &NlaBuffer<'_>) -> Option<Result<(), DecodeError>>
    ensures other { IfNone result (stands_apart nest.set nest.context (number_of (item.now).kind) ≡ false) }
    ensures ok { IfSome result (λ r. IfOk r (λ _. IsAttributeAt nest item.now)) }
    ensures refused { IfSome result (λ r. IfErr r (λ e. (reading_of nest).reading.Faulty item.now e)) }
{
    match nest.set {
        AttributeSet::Route => check_gateway(item),
        AttributeSet::Encap => RouteLwTunnelEncap::check_apart(nest.context.encap_type, item),
        AttributeSet::Opt => RouteLwTunnelOpt::check_apart(item),
        AttributeSet::InfoBond => InfoBond::check_apart(item),
        _ => None,
    }
}

/// Whether a gateway of a family of its own is one.
fn check_gateway(item: &NlaBuffer<'_>) -> Option<Result<(), DecodeError>>
    ensures other { IfNone result (number_of (item.now).kind ≢ 18) }
    ensures ok { IfSome result (λ r. IfOk r (λ _. (c : Context) → (m : RouteMeaning) × (route_attributes c).Reads item.now m)) }
    ensures refused { IfSome result (λ r. IfErr r (λ e. (c : Context) → (route_attributes c).Faulty item.now e)) }
{
    if item.kind() != RTA_VIA {
        return None;
    }
    Some(RouteVia::check_value(item.value(), AttributeSet::Route.at(RTA_VIA)))
}
