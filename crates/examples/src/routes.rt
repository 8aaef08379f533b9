//! Routes that are read, and built.

ghost use Rattle.std.specs.Prelude.{◌≡◌, ◌≢◌, IfOk, IfErr};
ghost use Rattle.{
  netlink_packet_route.specs.{
    Found.{IsFirst},
    Messages.{Stored, IsMessage, MessageFault, canonical_bytes, view},
    RouteAttributeView.{meaning_of},
    RouteMessage.{routes},
    RoutePath.{gateway_ip},
    declared.framing.DecodeError.TheVariants.{OutOfMemory},
  },
  examples.specs.{Routes.{two_ways}, declared.fault.Fault.TheVariants.{Refused}},
};

use crate::fault::Fault;
use netlink_packet_route::AddressFamily;
use netlink_packet_route::framing::{DecodeError, Parseable, to_vec};
use netlink_packet_route::net::{IpAddr, Ipv4Addr};
use netlink_packet_route::route::{
    RouteAttribute, RouteHeader, RouteMessage, RouteNextHop, RoutePath,
};
use std::alloc::{AllocError, Global};

/// The first gateway of IP in the route message that the bytes are.
///
/// # Errors
/// Why the bytes are no route message.
pub fn read_gateway(alloc: Global, bytes: &[u8]) -> Result<Option<IpAddr>, DecodeError>
    ensures ok { IfOk result (λ found. (m : Stored routes) × IsMessage routes bytes.now (view routes m)
        × IsFirst (λ a. gateway_ip (meaning_of a)) m.attributes.items found) }
    ensures refused { IfErr result (λ e. e ≢ OutOfMemory → MessageFault routes bytes.now e) }
{
    Ok(RouteMessage::parse(alloc, bytes)?.gateway())
}

/// The route to 203.0.113.0/24 by two gateways, each behind an interface of its own.
///
/// # Errors
/// `AllocError` where memory is refused.
pub fn two_ways(alloc: Global) -> Result<RouteMessage, AllocError>
    ensures { IfOk result (λ m. view routes m ≡ two_ways) }
{
    let network = IpAddr::V4(Ipv4Addr::new(203, 0, 113, 0));
    let first = IpAddr::V4(Ipv4Addr::new(192, 0, 2, 1));
    let second = IpAddr::V4(Ipv4Addr::new(192, 0, 2, 2));
    let mut hops = Vec::new(alloc);
    hops.push(RouteNextHop::through(alloc, 2, first)?)?;
    hops.push(RouteNextHop::through(alloc, 3, second)?)?;
    let mut route = RouteMessage::new(alloc);
    route.header = RouteHeader {
        address_family: AddressFamily::Inet,
        destination_prefix_length: 24,
        ..RouteHeader::default()
    };
    let destination = RouteAttribute::to_destination(network);
    route.attributes.push(destination)?;
    let ways = RouteAttribute::by_next_hops(hops);
    route.attributes.push(ways)?;
    Ok(route)
}

/// The bytes of that message.
///
/// # Errors
/// `Refused(OutOfMemory)` where memory is refused.
#[tactic(auto, unfolding(netlink_packet_route::specs::Messages::canonical_bytes, netlink_packet_route::specs::Messages::message_unfit))]
pub fn two_ways_bytes(alloc: Global) -> Result<Vec<u8>, Fault>
    ensures ok { IfOk result (λ out. out.items ≡ canonical_bytes routes two_ways) }
    ensures memory { IfErr result (λ e. e ≡ Refused OutOfMemory) }
{
    let route = two_ways(alloc)?;
    Ok(to_vec(alloc, &route)?)
}
