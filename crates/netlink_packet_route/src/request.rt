//! Requests to the kernel, with the flags that `ip` sets. A sequence number is one of the caller's
//! choice, which the answer has again.
//!
//! ```
//! use netlink_packet_route::AddressFamily;
//! use netlink_packet_route::memory::Global;
//! use netlink_packet_route::request::dump_addresses;
//!
//! // as `ip -4 address` asks, with the sequence number 7
//! let request = dump_addresses(Global, 7, AddressFamily::Inet);
//! let bytes = [
//!     24, 0, 0, 0, 22, 0, 1, 3, 7, 0, 0, 0, 0, 0, 0, 0, // the envelope, of RTM_GETADDR
//!     2, 0, 0, 0, 0, 0, 0, 0, // the header
//! ];
//! assert_eq!(request.to_bytes()?, bytes);
//! # Ok::<(), Box<dyn std::error::Error>>(())
//! ```

ghost use Rattle.std.specs.Prelude.{◌≡◌, IfOk};
ghost use Rattle.{
  npr_base.specs.Message.{view},
  npr_link.specs.Message.{links},
  npr_stats.specs.Header.{buffer_of, header_buffer},
  netlink_packet_core.specs.{Message.{message_of}, Request.{IsRequest, dump_flags, get_flags, new_flags, replace_flags, delete_flags}},
  netlink_packet_route.specs.{
    declared.message_type.{Action.TheVariants.{New, Del, Get}, MessageType.TheVariants.{GetNeighbourTable}},
    RouteNetlinkMessage.{meaning_of, rtnetlink, message, other, other_of, address, route, neighbour, rule, link, next_hop, nsid, netconf, address_label},
    Request.{addresses_of, routes_of, neighbours_of, rules_of, links_of, next_hops_of, nsids_of_all, netconfs_of, address_labels_of, neighbour_tables_of, get_stats, stats_of},
  },
};

use crate::entry::Entry;
use crate::message::{OtherMessage, RouteNetlinkMessage};
use crate::message_type::Action;
use netlink_packet_core::NetlinkMessage;
use npr_address::{AddressLabelMessage, AddressMessage};
use npr_base::AddressFamily;
use npr_link::{LinkAttribute, LinkExtentMask, LinkMessage};
use npr_namespace::{NetconfMessage, NsidMessage};
use npr_neighbour::{NeighbourMessage, NeighbourTableMessage};
use npr_nexthop::NextHopMessage;
use npr_route::RouteMessage;
use npr_rule::RuleMessage;
use npr_stats::{StatsHeader, StatsMessageBuffer};
use std::alloc::{AllocError, Global};

/// Asks for all that the message names, as `ip route show table 100`.
pub fn dump<M: Entry>(sequence_number: u32, message: M) -> NetlinkMessage<RouteNetlinkMessage>
    ensures { IsRequest rtnetlink dump_flags sequence_number (M.as_meaning Get message) (message_of meaning_of result) }
{
    NetlinkMessage::dump_request(sequence_number, message.under(Action::Get))
}

/// Asks for the addresses of a family, or of each where it is `Unspec`, as `ip -4 address`. It takes
/// no memory.
pub fn dump_addresses(
    alloc: Global,
    sequence_number: u32,
    family: AddressFamily,
) -> NetlinkMessage<RouteNetlinkMessage>
    ensures { IsRequest rtnetlink dump_flags sequence_number (address Get (addresses_of family)) (message_of meaning_of result) }
{
    let mut message = AddressMessage::new(alloc);
    message.header.family = family;
    dump(sequence_number, message)
}

/// Asks for the routes of a family, of all tables, as `ip -4 route show table all`. It takes no
/// memory.
pub fn dump_routes(
    alloc: Global,
    sequence_number: u32,
    family: AddressFamily,
) -> NetlinkMessage<RouteNetlinkMessage>
    ensures { IsRequest rtnetlink dump_flags sequence_number (route Get (routes_of family)) (message_of meaning_of result) }
{
    let mut message = RouteMessage::new(alloc);
    message.header.address_family = family;
    dump(sequence_number, message)
}

/// Asks for the rules of a family, as `ip -4 rule`. It takes no memory.
pub fn dump_rules(
    alloc: Global,
    sequence_number: u32,
    family: AddressFamily,
) -> NetlinkMessage<RouteNetlinkMessage>
    ensures { IsRequest rtnetlink dump_flags sequence_number (rule Get (rules_of family)) (message_of meaning_of result) }
{
    let mut message = RuleMessage::new(alloc);
    message.header.family = family;
    dump(sequence_number, message)
}

/// Asks for the neighbours of a family, or of each but bridges where it is `Unspec`, as
/// `ip -4 neighbour`. It takes no memory.
pub fn dump_neighbours(
    alloc: Global,
    sequence_number: u32,
    family: AddressFamily,
) -> NetlinkMessage<RouteNetlinkMessage>
    ensures { IsRequest rtnetlink dump_flags sequence_number (neighbour Get (neighbours_of family)) (message_of meaning_of result) }
{
    let mut message = NeighbourMessage::new(alloc);
    message.header.family = family;
    dump(sequence_number, message)
}

/// Asks for the next hops of a family, or of each where it is `Unspec`, as `ip nexthop`. It takes no
/// memory.
pub fn dump_next_hops(
    alloc: Global,
    sequence_number: u32,
    family: AddressFamily,
) -> NetlinkMessage<RouteNetlinkMessage>
    ensures { IsRequest rtnetlink dump_flags sequence_number (next_hop Get (next_hops_of family)) (message_of meaning_of result) }
{
    let mut message = NextHopMessage::new(alloc);
    message.header.family = family;
    dump(sequence_number, message)
}

/// Asks for the settings of all interfaces in a family, as `ip -4 netconf`. It takes no memory.
pub fn dump_netconfs(
    alloc: Global,
    sequence_number: u32,
    family: AddressFamily,
) -> NetlinkMessage<RouteNetlinkMessage>
    ensures { IsRequest rtnetlink dump_flags sequence_number (netconf Get (netconfs_of family)) (message_of meaning_of result) }
{
    let mut message = NetconfMessage::new(alloc);
    message.header.family = family;
    dump(sequence_number, message)
}

/// Asks for the address labels of a family, which only IP version 6 has, as `ip addrlabel`. It takes
/// no memory.
pub fn dump_address_labels(
    alloc: Global,
    sequence_number: u32,
    family: AddressFamily,
) -> NetlinkMessage<RouteNetlinkMessage>
    ensures { IsRequest rtnetlink dump_flags sequence_number (address_label Get (address_labels_of family)) (message_of meaning_of result) }
{
    let mut message = AddressLabelMessage::new(alloc);
    message.header.family = family;
    dump(sequence_number, message)
}

/// Asks for the numbers of all network name spaces, as `ip netns list-id`. It takes no memory.
pub fn dump_nsids(alloc: Global, sequence_number: u32) -> NetlinkMessage<RouteNetlinkMessage>
    ensures { IsRequest rtnetlink dump_flags sequence_number (nsid Get nsids_of_all) (message_of meaning_of result) }
{
    dump(sequence_number, NsidMessage::new(alloc))
}

/// Asks for the tables of neighbours of a family, or of each where it is `Unspec`, as `ip ntable`. It
/// takes no memory.
pub fn dump_neighbour_tables(
    alloc: Global,
    sequence_number: u32,
    family: AddressFamily,
) -> NetlinkMessage<RouteNetlinkMessage>
    ensures { IsRequest rtnetlink dump_flags sequence_number (message GetNeighbourTable (neighbour_tables_of family)) (message_of meaning_of result) }
{
    let mut message = NeighbourTableMessage::new(alloc);
    message.header.family = family;
    NetlinkMessage::dump_request(
        sequence_number,
        RouteNetlinkMessage::GetNeighbourTable(message),
    )
}

/// Asks for all links, and what the mask names besides, as `ip link`, which sets `Vf` and, without
/// `-s`, `SkipStats`.
///
/// # Errors
/// `AllocError` where memory for the mask is refused.
pub fn dump_links(
    alloc: Global,
    sequence_number: u32,
    mask: LinkExtentMask,
) -> Result<NetlinkMessage<RouteNetlinkMessage>, AllocError>
    ensures { IfOk result (λ r. IsRequest rtnetlink dump_flags sequence_number (link Get (links_of mask)) (message_of meaning_of r)) }
{
    Ok(dump(sequence_number, masked(alloc, mask)?))
}

/// A message with this mask alone.
fn masked(alloc: Global, mask: LinkExtentMask) -> Result<LinkMessage, AllocError>
    ensures { IfOk result (λ m. view links m ≡ links_of mask) }
{
    let mut message = LinkMessage::new(alloc);
    message.attributes.push(LinkAttribute::ExtMask(mask))?;
    Ok(message)
}

/// The type that asks for statistics. The library does not read such messages, whose attributes are not those of
/// the answers.
const RTM_GETSTATS: u16 = 94;

/// Asks for the statistics of all links that the mask names, as `ip stats`: for the attribute of a number the bit
/// below it, `IFLA_STATS_FILTER_BIT` of `linux/if_link.h`.
///
/// # Errors
/// `AllocError` where memory for the header is refused.
pub fn dump_stats(
    alloc: Global,
    sequence_number: u32,
    filter_mask: u32,
) -> Result<NetlinkMessage<RouteNetlinkMessage>, AllocError>
    ensures { IfOk result (λ r. IsRequest rtnetlink dump_flags sequence_number (other get_stats (header_buffer.encode (buffer_of (stats_of filter_mask)))) (message_of meaning_of r)) }
{
    let asked = RouteNetlinkMessage::Other(stats_request(alloc, filter_mask)?);
    Ok(NetlinkMessage::dump_request(sequence_number, asked))
}

/// A header with this mask, under the type that asks for statistics.
fn stats_request(alloc: Global, filter_mask: u32) -> Result<OtherMessage, AllocError>
    ensures { IfOk result (λ m. other_of m ≡ (get_stats, header_buffer.encode (buffer_of (stats_of filter_mask)))) }
{
    let header = StatsHeader {
        filter_mask,
        ..StatsHeader::default()
    };
    let bytes = StatsMessageBuffer::from(&header).to_bytes();
    Ok(OtherMessage {
        message_type: RTM_GETSTATS,
        payload: Vec::from_slice(alloc, &bytes)?,
    })
}

/// Asks for the one that the message names, as `ip route get`.
pub fn get<M: Entry>(sequence_number: u32, message: M) -> NetlinkMessage<RouteNetlinkMessage>
    ensures { IsRequest rtnetlink get_flags sequence_number (M.as_meaning Get message) (message_of meaning_of result) }
{
    NetlinkMessage::get_request(sequence_number, message.under(Action::Get))
}

/// Makes one that is not there, and asks for an acknowledgement, as `ip route add`.
pub fn add<M: Entry>(sequence_number: u32, message: M) -> NetlinkMessage<RouteNetlinkMessage>
    ensures { IsRequest rtnetlink new_flags sequence_number (M.as_meaning New message) (message_of meaning_of result) }
{
    NetlinkMessage::new_request(sequence_number, message.under(Action::New))
}

/// Makes one, in place of one that is there, and asks for an acknowledgement, as `ip route replace`;
/// the kernel replaces no rule, and makes a second one.
pub fn replace<M: Entry>(sequence_number: u32, message: M) -> NetlinkMessage<RouteNetlinkMessage>
    ensures { IsRequest rtnetlink replace_flags sequence_number (M.as_meaning New message) (message_of meaning_of result) }
{
    NetlinkMessage::replace_request(sequence_number, message.under(Action::New))
}

/// Takes one away, and asks for an acknowledgement, as `ip route del`.
pub fn delete<M: Entry>(sequence_number: u32, message: M) -> NetlinkMessage<RouteNetlinkMessage>
    ensures { IsRequest rtnetlink delete_flags sequence_number (M.as_meaning Del message) (message_of meaning_of result) }
{
    NetlinkMessage::delete_request(sequence_number, message.under(Action::Del))
}
