//! What goes down attributes and next hops, which hold each other: measuring, writing and copying, in
//! plain functions.

ghost use Rattle.std.specs.Prelude.{◌≡◌, ◌≤◌, ◌<◌, ◌+◌, None, length, IfOk, OnErr, map};
ghost use Rattle.{
  npr_base.specs.{Lists.{checked, option_or, overlong, first_unfit, list_unfit, encodings, joined}, Framing.{Writes, encoding, framed}},
  npr_route.specs.{
    Attribute.{shape_of, meaning_unfit, hop_unfit, hop_bytes, hop_overlong},
    AttributeView.{meaning_of, hop_of, attribute_item, attribute_unfit, next_hop_bytes, next_hop_unfit},
    FlatAttribute.{marks, any_marks},
  },
  npr_encapsulation.specs.Encapsulation.{meaning_of as member_of},
};

use crate::attribute::RouteAttribute;
use crate::next_hop_buffer::{NEXT_HOP_HEADER_SIZE, RouteNextHopBuffer};
use crate::next_hops::RouteNextHop;
use crate::route_rows;
use bitflags::Flags;
use npr_base::{
    EmitError, Nla, check_len, check_list, clone_list, clone_rows, frame, len_rows, marked_kind,
    total_len, write_array, write_list, write_rows,
};
use npr_encapsulation::{RouteIp6Tunnel, RouteIpTunnel, RouteLwTunnelEncap};
use npr_route_values::{labels_len, write_labels};
use std::alloc::{AllocError, Global};

/// The most bytes that a next hop has: its length stands in 16 bits.
const LONGEST_NEXT_HOP: usize = 65535;

/// The length of the value in bytes, or the first cause why the list inside has none.
#[inline(always)]
#[cycle(check)]
pub(crate) fn check_inside(attribute: &RouteAttribute) -> Result<usize, EmitError>
    ensures { result ≡ checked (shape_of (meaning_of attribute.now)).unfit (length (shape_of (meaning_of attribute.now)).item.value) }
{
    Ok(route_rows!(len_rows(attribute;
        RouteAttribute::Via(x) => x.len(),
        RouteAttribute::Metrics(list) => return check_list(list.as_slice()),
        RouteAttribute::Encap(list) => return check_list(list.as_slice()),
        RouteAttribute::MultiPath(hops) => return check_hops(hops.as_slice()),
        RouteAttribute::NewDestination(labels) => labels_len(labels.as_slice()),
        RouteAttribute::NewDestinationAddress(x) => x.len(),
        RouteAttribute::Expires(_) => 4,
        RouteAttribute::MulticastExpires(_) => 8,
    )))
}

/// The length of the encoding in bytes, or the first cause why there is none.
#[inline(always)]
#[cycle(check)]
fn check_attribute(attribute: &RouteAttribute) -> Result<usize, EmitError>
    ensures { result ≡ checked (meaning_unfit (meaning_of attribute.now)) (framed (length (shape_of (meaning_of attribute.now)).item.value)) }
{
    let len = check_inside(attribute)?;
    check_len(attribute.kind(), len)
}

/// The length of all encodings in bytes, or the first cause why there are none.
#[cycle(check)]
fn check_attributes(list: &[RouteAttribute]) -> Result<usize, EmitError>
    ensures { result ≡ checked (list_unfit attribute_unfit attribute_item list.now) (length (encodings attribute_item list.now)) }
{
    let mut total = 0u128;
    for attribute in list {
        total += check_attribute(attribute)? as u128;
    }
    total_len(total)
}

/// The length of a next hop with so many bytes of attributes.
///
/// # Errors
/// `NextHopTooLong` above 65,535 bytes, and `Total` where no `usize` holds the length.
fn hop_len(inside: usize) -> Result<usize, EmitError>
    ensures { result ≡ checked (hop_overlong (8 + inside)) (8 + inside) }
{
    let len = inside
        .checked_add(NEXT_HOP_HEADER_SIZE)
        .ok_or(EmitError::Total)?;
    if len > LONGEST_NEXT_HOP {
        return Err(EmitError::NextHopTooLong { len });
    }
    Ok(len)
}

/// The length of a next hop in bytes, its header included, or the first cause why it has none.
#[cycle(check)]
pub(crate) fn check_hop(hop: &RouteNextHop) -> Result<usize, EmitError>
    ensures { result ≡ checked (hop_unfit (hop_of hop.now)) (length (hop_bytes (hop_of hop.now))) }
{
    let inside = check_attributes(hop.attributes.as_slice())?;
    hop_len(inside)
}

/// The length of all next hops in bytes, or the first cause why they have none.
#[inline(never)]
#[cycle(check)]
fn check_hops(hops: &[RouteNextHop]) -> Result<usize, EmitError>
    ensures { result ≡ checked (option_or (first_unfit next_hop_unfit hops.now) (overlong (length (joined next_hop_bytes hops.now)))) (length (joined next_hop_bytes hops.now)) }
{
    let mut total = 0u128;
    for hop in hops {
        total += check_hop(hop)? as u128;
    }
    total_len(total)
}

/// Writes the value at the front of the slice, leaves the rest, and answers the value's length.
#[inline(always)]
#[cycle(write)]
pub(crate) fn write_value(attribute: &RouteAttribute, out: &mut [u8]) -> usize
    requires fits { (shape_of (meaning_of attribute.now)).unfit ≡ None }
    requires room { length (shape_of (meaning_of attribute.now)).item.value ≤ length out.old }
    ensures len { result ≡ length (shape_of (meaning_of attribute.now)).item.value }
    ensures after { Writes out.old out.new (shape_of (meaning_of attribute.now)).item.value }
{
    route_rows!(write_rows(attribute, out;
        RouteAttribute::Via(x) => x.write(out),
        RouteAttribute::Metrics(list) => write_list(list.as_slice(), out),
        RouteAttribute::Encap(list) => write_list(list.as_slice(), out),
        RouteAttribute::MultiPath(hops) => write_hops(hops.as_slice(), out),
        RouteAttribute::NewDestination(labels) => write_labels(labels.as_slice(), out),
        RouteAttribute::NewDestinationAddress(x) => x.write(out),
        RouteAttribute::Expires(x) => write_array(x.to_le_bytes(), out),
        RouteAttribute::MulticastExpires(x) => write_array(x.to_le_bytes(), out),
    ))
}

/// `write_value` as a call of its own: its place on the machine's stack is given up before the next
/// level, so that a level takes less.
#[inline(never)]
#[cycle(write)]
fn write_inside(attribute: &RouteAttribute, out: &mut [u8]) -> usize
    requires fits { (shape_of (meaning_of attribute.now)).unfit ≡ None }
    requires room { length (shape_of (meaning_of attribute.now)).item.value ≤ length out.old }
    ensures len { result ≡ length (shape_of (meaning_of attribute.now)).item.value }
    ensures after { Writes out.old out.new (shape_of (meaning_of attribute.now)).item.value }
{
    write_value(attribute, out)
}

/// Writes the attribute: its value behind four bytes, and then header and padding.
#[cycle(write)]
fn write_attribute(attribute: &RouteAttribute, out: &mut [u8]) -> usize
    requires fits { meaning_unfit (meaning_of attribute.now) ≡ None }
    requires room { framed (length (shape_of (meaning_of attribute.now)).item.value) ≤ length out.old }
    ensures len { result ≡ framed (length (shape_of (meaning_of attribute.now)).item.value) }
    ensures after { Writes out.old out.new (encoding (attribute_item attribute.now)) }
{
    let kind = marked_kind(attribute.kind(), attribute.is_nested());
    let len = write_inside(attribute, &mut out[4..]);
    frame(out, kind, len)
}

/// Writes the attributes one after the other.
#[cycle(write)]
fn write_attributes(list: &[RouteAttribute], out: &mut [u8]) -> usize
    requires fits { first_unfit attribute_unfit list.now ≡ None }
    requires room { length (encodings attribute_item list.now) ≤ length out.old }
    ensures len { result ≡ length (encodings attribute_item list.now) }
    ensures after { Writes out.old out.new (encodings attribute_item list.now) }
{
    let mut at = 0usize;
    for attribute in list {
        at += write_attribute(attribute, &mut out[at..]);
    }
    at
}

/// Writes a next hop: its attributes behind eight bytes, and then its header.
#[cycle(write)]
pub(crate) fn write_hop(hop: &RouteNextHop, out: &mut [u8]) -> usize
    requires fits { next_hop_unfit hop.now ≡ None }
    requires room { length (next_hop_bytes hop.now) ≤ length out.old }
    ensures len { result ≡ length (next_hop_bytes hop.now) }
    ensures after { Writes out.old out.new (next_hop_bytes hop.now) }
{
    let len = NEXT_HOP_HEADER_SIZE
        + write_attributes(hop.attributes.as_slice(), &mut out[NEXT_HOP_HEADER_SIZE..]);
    let header = RouteNextHopBuffer {
        length: len as u16,
        flags: hop.flags.bits(),
        hops: hop.hops,
        interface_index: hop.interface_index,
    };
    write_array(header.to_bytes(), out);
    len
}

/// Writes the next hops one after the other.
#[inline(never)]
#[cycle(write)]
fn write_hops(hops: &[RouteNextHop], out: &mut [u8]) -> usize
    requires fits { first_unfit next_hop_unfit hops.now ≡ None }
    requires room { length (joined next_hop_bytes hops.now) ≤ length out.old }
    ensures len { result ≡ length (joined next_hop_bytes hops.now) }
    ensures after { Writes out.old out.new (joined next_hop_bytes hops.now) }
{
    let mut at = 0usize;
    for hop in hops {
        at += write_hop(hop, &mut out[at..]);
    }
    at
}

/// An equal attribute.
///
/// # Errors
/// `AllocError` where memory is refused.
#[cycle(copy)]
pub(crate) fn clone_attribute(
    alloc: Global,
    attribute: &RouteAttribute,
) -> Result<RouteAttribute, AllocError>
    ensures { IfOk result (λ a. meaning_of a ≡ meaning_of attribute.now) }
{
    route_rows!(clone_rows(attribute, alloc;
        RouteAttribute::Metrics(x) => clone_list(alloc, x.as_slice()).map(RouteAttribute::Metrics),
        RouteAttribute::MultiPath(x) => clone_hops(alloc, x.as_slice()).map(RouteAttribute::MultiPath),
        RouteAttribute::Via(x) => x.try_clone(alloc).map(RouteAttribute::Via),
        RouteAttribute::NewDestination(x) => Vec::from_slice(alloc, x.as_slice()).map(RouteAttribute::NewDestination),
        RouteAttribute::NewDestinationAddress(x) => x.try_clone(alloc).map(RouteAttribute::NewDestinationAddress),
        RouteAttribute::Encap(x) => clone_list(alloc, x.as_slice()).map(RouteAttribute::Encap),
        RouteAttribute::Expires(x) => Ok(RouteAttribute::Expires(*x)),
        RouteAttribute::MulticastExpires(x) => Ok(RouteAttribute::MulticastExpires(*x)),
    ))
}

/// Equal attributes, in their order.
#[cycle(copy)]
fn clone_attributes(
    alloc: Global,
    list: &[RouteAttribute],
) -> Result<Vec<RouteAttribute>, AllocError>
    ensures ok { IfOk result (λ v. map meaning_of v.items ≡ map meaning_of list.now) }
    ensures memory { OnErr result (0 < length list.now) }
{
    let mut copies = Vec::new(alloc);
    for attribute in list {
        copies.push(clone_attribute(alloc, attribute)?)?;
    }
    Ok(copies)
}

/// An equal next hop.
#[cycle(copy)]
pub(crate) fn clone_hop(alloc: Global, hop: &RouteNextHop) -> Result<RouteNextHop, AllocError>
    ensures ok { IfOk result (λ h. hop_of h ≡ hop_of hop.now) }
    ensures memory { OnErr result (0 < length hop.now.attributes.items) }
{
    Ok(RouteNextHop {
        flags: hop.flags,
        hops: hop.hops,
        interface_index: hop.interface_index,
        attributes: clone_attributes(alloc, hop.attributes.as_slice())?,
    })
}

/// Equal next hops, in their order.
#[cycle(copy)]
fn clone_hops(alloc: Global, hops: &[RouteNextHop]) -> Result<Vec<RouteNextHop>, AllocError>
    ensures { IfOk result (λ v. map hop_of v.items ≡ map hop_of hops.now) }
{
    let mut copies = Vec::new(alloc);
    for hop in hops {
        copies.push(clone_hop(alloc, hop)?)?;
    }
    Ok(copies)
}

/// Whether the member makes `RTA_ENCAP` carry `NLA_F_NESTED`: as the kernel and `ip` write it.
const fn wants_nested(member: &RouteLwTunnelEncap) -> bool
    ensures { result ≡ marks (member_of member.now) }
{
    matches!(
        member,
        RouteLwTunnelEncap::Seg6(_)
            | RouteLwTunnelEncap::Xfrm(_)
            | RouteLwTunnelEncap::Rpl(_)
            | RouteLwTunnelEncap::Ioam6(_)
            | RouteLwTunnelEncap::Ip(RouteIpTunnel::Opts(_))
            | RouteLwTunnelEncap::Ip6(RouteIp6Tunnel::Opts(_))
    )
}

pub(crate) fn is_marked(members: &[RouteLwTunnelEncap]) -> bool
    ensures { result ≡ any_marks (map member_of members.now) }
{
    for member in members {
        if wants_nested(member) {
            return true;
        }
    }
    false
}
