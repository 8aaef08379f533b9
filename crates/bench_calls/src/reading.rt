//! The ways of reading.

use netlink_packet_core::NetlinkIterator;
use netlink_packet_route::address::{AddressHeader, AddressMessage};
use netlink_packet_route::framing::{Header, Message, Parseable, Value};
use netlink_packet_route::link::{LinkHeader, LinkMessage};
use netlink_packet_route::neighbour::{NeighbourHeader, NeighbourMessage};
use netlink_packet_route::route::{RouteHeader, RouteMessage};
use netlink_packet_route::rule::{RuleHeader, RuleMessage};
use netlink_packet_route::{MessageKind, MessageType};
use std::alloc::Global;

/// A way of reading, which may keep something from one message to the next.
trait Way {
    /// Reads a message of this kind. Answers how many attributes it has; of a kind that is not measured,
    /// none.
    fn read(&mut self, kind: MessageKind, bytes: &[u8]) -> u64;
}

/// Reads each message of the datagram.
fn read_all<W: Way>(way: &mut W, datagram: &[u8]) -> u64 {
    let mut count = 0u64;
    for found in NetlinkIterator::new(datagram) {
        let Ok(envelope) = found else {
            return count;
        };
        if let Some(kind) = MessageType::of(envelope.message_type()).kind() {
            count = count.saturating_add(way.read(kind, envelope.payload()));
        }
    }
    count
}

/// Each message anew.
#[derive(Drop)]
struct Anew {
    alloc: Global,
}

fn parse<H: Header>(alloc: Global, bytes: &[u8]) -> u64 {
    match Message::<H, H::Attribute>::parse(alloc, bytes) {
        Ok(message) => message.attributes.len() as u64,
        Err(_) => 0,
    }
}

impl Way for Anew {
    fn read(&mut self, kind: MessageKind, bytes: &[u8]) -> u64 {
        match kind {
            MessageKind::Address => parse::<AddressHeader>(self.alloc, bytes),
            MessageKind::Route => parse::<RouteHeader>(self.alloc, bytes),
            MessageKind::Rule => parse::<RuleHeader>(self.alloc, bytes),
            MessageKind::Neighbour => parse::<NeighbourHeader>(self.alloc, bytes),
            MessageKind::Link => parse::<LinkHeader>(self.alloc, bytes),
            _ => 0,
        }
    }
}

/// Each message into the one of its kind that stands.
#[derive(Drop)]
struct Into {
    alloc: Global,
    address: AddressMessage,
    route: RouteMessage,
    rule: RuleMessage,
    neighbour: NeighbourMessage,
    link: LinkMessage,
}

fn parse_into<H: Header>(
    alloc: Global,
    message: &mut Message<H, H::Attribute>,
    bytes: &[u8],
) -> u64 {
    match message.parse_into(alloc, bytes) {
        Ok(()) => message.attributes.len() as u64,
        Err(_) => 0,
    }
}

impl Way for Into {
    fn read(&mut self, kind: MessageKind, bytes: &[u8]) -> u64 {
        match kind {
            MessageKind::Address => parse_into(self.alloc, &mut self.address, bytes),
            MessageKind::Route => parse_into(self.alloc, &mut self.route, bytes),
            MessageKind::Rule => parse_into(self.alloc, &mut self.rule, bytes),
            MessageKind::Neighbour => parse_into(self.alloc, &mut self.neighbour, bytes),
            MessageKind::Link => parse_into(self.alloc, &mut self.link, bytes),
            _ => 0,
        }
    }
}

/// Each attribute by itself.
#[derive(Drop)]
struct OneByOne {
    alloc: Global,
}

fn step_through<H: Header>(alloc: Global, bytes: &[u8]) -> u64 {
    let Ok(attributes) = Message::<H, H::Attribute>::attributes(alloc, bytes) else {
        return 0;
    };
    let mut count = 0u64;
    for attribute in attributes {
        if attribute.is_err() {
            return 0;
        }
        count = count.saturating_add(1);
    }
    count
}

impl Way for OneByOne {
    fn read(&mut self, kind: MessageKind, bytes: &[u8]) -> u64 {
        match kind {
            MessageKind::Address => step_through::<AddressHeader>(self.alloc, bytes),
            MessageKind::Route => step_through::<RouteHeader>(self.alloc, bytes),
            MessageKind::Rule => step_through::<RuleHeader>(self.alloc, bytes),
            MessageKind::Neighbour => step_through::<NeighbourHeader>(self.alloc, bytes),
            MessageKind::Link => step_through::<LinkHeader>(self.alloc, bytes),
            _ => 0,
        }
    }
}

/// Each value where it stands, without memory.
#[derive(Drop)]
struct Seen;

fn see<H: Header>(bytes: &[u8]) -> u64 {
    let mut values = match Message::<H, H::Attribute>::values(bytes) {
        Ok((_, values)) => values,
        Err(_) => return 0,
    };
    let mut count = 0u64;
    while let Some(next) = values.next() {
        match next {
            Ok((_, value)) => count = count.saturating_add(taken(&value)),
            Err(_) => return 0,
        }
    }
    count
}

/// One for a value; nothing for one that is none, so that each is looked at.
fn taken(value: &Value<'_>) -> u64 {
    match value {
        Value::U64(u64::MAX) => 0,
        Value::Bytes([]) => 0,
        _ => 1,
    }
}

impl Way for Seen {
    fn read(&mut self, kind: MessageKind, bytes: &[u8]) -> u64 {
        match kind {
            MessageKind::Address => see::<AddressHeader>(bytes),
            MessageKind::Route => see::<RouteHeader>(bytes),
            MessageKind::Rule => see::<RuleHeader>(bytes),
            MessageKind::Neighbour => see::<NeighbourHeader>(bytes),
            MessageKind::Link => see::<LinkHeader>(bytes),
            _ => 0,
        }
    }
}

/// Sees each value of each message where it stands.
#[unsafe(no_mangle)]
pub extern "C" fn bench_values(datagram: &[u8]) -> u64 {
    read_all(&mut Seen, datagram)
}

/// Reads each message anew.
#[unsafe(no_mangle)]
pub extern "C" fn bench_parse(alloc: Global, datagram: &[u8]) -> u64 {
    read_all(&mut Anew { alloc }, datagram)
}

/// Reads each message into the one of its kind that stands.
#[unsafe(no_mangle)]
pub extern "C" fn bench_parse_into(alloc: Global, datagram: &[u8]) -> u64 {
    let mut way = Into {
        alloc,
        address: AddressMessage::new(alloc),
        route: RouteMessage::new(alloc),
        rule: RuleMessage::new(alloc),
        neighbour: NeighbourMessage::new(alloc),
        link: LinkMessage::new(alloc),
    };
    read_all(&mut way, datagram)
}

/// Reads each attribute of each message by itself, and keeps none.
#[unsafe(no_mangle)]
pub extern "C" fn bench_attributes(alloc: Global, datagram: &[u8]) -> u64 {
    read_all(&mut OneByOne { alloc }, datagram)
}
