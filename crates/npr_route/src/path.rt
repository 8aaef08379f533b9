//! What is asked most of a route and of a next hop, and built most, without the name of a variant.

ghost use Rattle.std.specs.Prelude.{◌≡◌, List, map, option_map, IfOk};
ghost use Rattle.{
  npr_route.specs.{
    Attribute.{flat, multi_path},
    AttributeView.{meaning_of, hop_of, hops_of},
    FlatAttribute.{table, oif},
    Path.{ip_of, gateway_ip, destination_ip, table_number, interface_index, hops_inside, to_gateway, to_destination, hop_through},
    declared.attribute.RouteAttribute.{RouteAttribute as Attribute},
  },
  npr_base.specs.Found.{IsFirst},
  npr_route_values.specs.RouteAddress.{address_of},
};

use crate::attribute::RouteAttribute;
use crate::header::RouteHeader;
use crate::next_hops::RouteNextHop;
use npr_base::{IpAddr, Message};
use npr_route_values::RouteAddress;
use std::alloc::{AllocError, Global};

/// A route, or a next hop of one by several paths: what both have is attributes.
pub trait RoutePath {
    /// The attributes.
    ghost items: { Self → List Attribute };

    /// The attributes, in their order.
    fn attributes(&self) -> &[RouteAttribute]
        ensures { result.now ≡ items self.now };

    /// The address of the first gateway of IP (`RTA_GATEWAY`). Where a route goes by several paths,
    /// each next hop has its own.
    fn gateway(&self) -> Option<IpAddr>
        ensures { IsFirst (λ a. gateway_ip (meaning_of a)) (items self.now) result }
    {
        self.attributes().iter().find_map(gateway_ip)
    }

    /// The address of the first destination of IP (`RTA_DST`); the length of its prefix stands in
    /// the header.
    fn destination(&self) -> Option<IpAddr>
        ensures { IsFirst (λ a. destination_ip (meaning_of a)) (items self.now) result }
    {
        self.attributes().iter().find_map(destination_ip)
    }

    /// The number of the first table that is told in 32 bits (`RTA_TABLE`); the header has one of 8.
    fn table(&self) -> Option<u32>
        ensures { IsFirst (λ a. table_number (meaning_of a)) (items self.now) result }
    {
        self.attributes().iter().find_map(table_number)
    }

    /// The index of the first output interface (`RTA_OIF`); a next hop has its own in a field.
    fn output_interface(&self) -> Option<u32>
        ensures { IsFirst (λ a. interface_index (meaning_of a)) (items self.now) result }
    {
        self.attributes().iter().find_map(interface_index)
    }

    /// The first next hops (`RTA_MULTIPATH`).
    fn next_hops(&self) -> Option<&[RouteNextHop]>
        ensures { IsFirst (λ a. hops_inside (meaning_of a)) (items self.now) (option_map (λ hops. hops_of (map hop_of hops.now)) result) }
    {
        self.attributes().iter().find_map(hops_inside)
    }
}

impl RoutePath for RouteNextHop {
    ghost items = { λ h. h.attributes.items };

    fn attributes(&self) -> &[RouteAttribute] {
        self.attributes.as_slice()
    }
}

impl RoutePath for Message<RouteHeader, RouteAttribute> {
    ghost items = { λ m. m.attributes.items };

    fn attributes(&self) -> &[RouteAttribute] {
        self.attributes.as_slice()
    }
}

/// The address, where it is one of IP.
fn ip_of(address: &RouteAddress) -> Option<IpAddr>
    ensures { result ≡ ip_of (address_of address.now) }
{
    match address {
        RouteAddress::Inet(ip) => Some(IpAddr::V4(*ip)),
        RouteAddress::Inet6(ip) => Some(IpAddr::V6(*ip)),
        _ => None,
    }
}

fn gateway_ip(attribute: &RouteAttribute) -> Option<IpAddr>
    ensures { result ≡ gateway_ip (meaning_of attribute.now) }
{
    match attribute {
        RouteAttribute::Gateway(address) => ip_of(address),
        _ => None,
    }
}

fn destination_ip(attribute: &RouteAttribute) -> Option<IpAddr>
    ensures { result ≡ destination_ip (meaning_of attribute.now) }
{
    match attribute {
        RouteAttribute::Destination(address) => ip_of(address),
        _ => None,
    }
}

fn table_number(attribute: &RouteAttribute) -> Option<u32>
    ensures { result ≡ table_number (meaning_of attribute.now) }
{
    match attribute {
        RouteAttribute::Table(number) => Some(*number),
        _ => None,
    }
}

fn interface_index(attribute: &RouteAttribute) -> Option<u32>
    ensures { result ≡ interface_index (meaning_of attribute.now) }
{
    match attribute {
        RouteAttribute::Oif(index) => Some(*index),
        _ => None,
    }
}

fn hops_inside(attribute: &RouteAttribute) -> Option<&[RouteNextHop]>
    ensures { option_map (λ hops. hops_of (map hop_of hops.now)) result ≡ hops_inside (meaning_of attribute.now) }
{
    match attribute {
        RouteAttribute::MultiPath(hops) => Some(hops.as_slice()),
        _ => None,
    }
}

impl RouteAttribute {
    /// The way to this gateway (`RTA_GATEWAY`).
    pub fn to_gateway(ip: IpAddr) -> Self
        ensures { meaning_of result ≡ to_gateway ip }
    {
        RouteAttribute::Gateway(RouteAddress::from(ip))
    }

    /// The way to this destination (`RTA_DST`); the length of its prefix stands in the header.
    pub fn to_destination(ip: IpAddr) -> Self
        ensures { meaning_of result ≡ to_destination ip }
    {
        RouteAttribute::Destination(RouteAddress::from(ip))
    }

    /// In the table of this number (`RTA_TABLE`).
    pub fn in_table(number: u32) -> Self
        ensures { meaning_of result ≡ flat (table number) }
    {
        RouteAttribute::Table(number)
    }

    /// Out by the interface of this index (`RTA_OIF`).
    pub fn out_by(index: u32) -> Self
        ensures { meaning_of result ≡ flat (oif index) }
    {
        RouteAttribute::Oif(index)
    }

    /// By these next hops (`RTA_MULTIPATH`).
    pub fn by_next_hops(hops: Vec<RouteNextHop>) -> Self
        ensures { meaning_of result ≡ multi_path (hops_of (map hop_of hops.items)) }
    {
        RouteAttribute::MultiPath(hops)
    }
}

impl RouteNextHop {
    /// A next hop by this interface and this gateway, and nothing else.
    ///
    /// # Errors
    /// `AllocError` where memory is refused.
    pub fn through(alloc: Global, interface_index: u32, gateway: IpAddr) -> Result<Self, AllocError>
        ensures { IfOk result (λ h. hop_of h ≡ hop_through interface_index gateway) }
    {
        let mut hop = RouteNextHop::new(alloc);
        hop.interface_index = interface_index;
        hop.attributes.push(RouteAttribute::to_gateway(gateway))?;
        Ok(hop)
    }
}
