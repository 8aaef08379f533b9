//! Messages and datagrams that are made at random: attributes of known numbers, mostly with a length
//! that fits, lists inside lists, and bytes that are changed behind.

use crate::lengths::{
    ADDRESS, ANSWERS, ANY, LABEL, MEMBERS, NAME_SPACE, NEIGHBOUR, NUMBERS, OF_FAMILY, OPTIONS,
    PREFIX, ROUTE, RULE, SETTINGS,
};
use crate::random::Random;
use crate::subject::Subject;
use netlink_packet_route::{MessageKind, MessageType};
use std::alloc::{AllocError, Global};
use std::mem;

/// The flag of a kind whose value is a list.
pub const NESTED: u16 = 0x8000;

/// Types of messages: of each kind, and others.
const TYPES: [u16; 23] = [
    20, 22, 24, 26, 28, 29, 32, 16, 19, 109, 52, 67, 73, 80, 90, 106, 36, 45, 50, 1, 2, 3, 56,
];

/// A maker of messages.
#[derive(Drop)]
pub struct Maker {
    pub(crate) random: Random,
    /// The list that is made.
    pub(crate) list: Vec<u8>,
    /// The list that stands inside it.
    inside: Vec<u8>,
    family: u8,
}

impl Maker {
    /// The maker of this seed.
    pub fn new(alloc: Global, seed: u64) -> Maker {
        Maker {
            random: Random::new(seed),
            list: Vec::new(alloc),
            inside: Vec::new(alloc),
            family: 0,
        }
    }

    /// The next message or datagram.
    ///
    /// # Errors
    /// `AllocError` where memory is refused.
    pub fn make(&mut self, subject: Subject, out: &mut Vec<u8>) -> Result<(), AllocError> {
        match subject {
            Subject::Message(kind) => self.message(kind, out),
            Subject::Datagram => self.datagram(out),
        }
    }

    /// The next message of this kind.
    ///
    /// # Errors
    /// `AllocError` where memory is refused.
    fn message(&mut self, kind: MessageKind, out: &mut Vec<u8>) -> Result<(), AllocError> {
        out.clear();
        self.attributes(kind)?;
        self.header(kind, out)?;
        out.extend_from_slice(self.list.as_slice())?;
        if self.random.once_in(2) {
            self.change(out)?;
        }
        Ok(())
    }

    /// The next datagram: up to four messages with their envelopes.
    ///
    /// # Errors
    /// `AllocError` where memory is refused.
    fn datagram(&mut self, out: &mut Vec<u8>) -> Result<(), AllocError> {
        out.clear();
        for _ in 0..=self.random.below(4) {
            self.envelope(out)?;
        }
        if self.random.once_in(2) {
            self.change(out)?;
        }
        Ok(())
    }

    /// A message with its envelope: mostly a part of an answer to the request of number 7.
    fn envelope(&mut self, out: &mut Vec<u8>) -> Result<(), AllocError> {
        let message_type = self.random.one_of(&TYPES, 4u16);
        let kind = MessageType::of(message_type).kind();
        let size = 16usize.saturating_add(kind.map_or(0, header_size));
        match kind {
            Some(kind) => self.attributes(kind)?,
            None => self.reply()?,
        }
        let length = u32::try_from(self.list.len().saturating_add(size)).unwrap_or(0);
        let flags = self.random.one_of(&[2, 2, 0x12, 0x100, 0x200], 0x300u16);
        let sequence_number = self.random.one_of(&[7, 7, 7, 7], 8u32);
        out.extend_from_slice(&length.to_le_bytes())?;
        out.extend_from_slice(&message_type.to_le_bytes())?;
        out.extend_from_slice(&flags.to_le_bytes())?;
        out.extend_from_slice(&sequence_number.to_le_bytes())?;
        out.extend_from_slice(&[1, 0, 0, 0])?;
        if let Some(kind) = kind {
            self.header(kind, out)?;
        }
        out.extend_from_slice(self.list.as_slice())?;
        pad(out)
    }

    /// What stands behind an envelope of no kind: a code, perhaps the header of a refused message,
    /// and attributes.
    fn reply(&mut self) -> Result<(), AllocError> {
        self.list.clear();
        let code = self.random.one_of(&[-1, -1, -22], 0i32);
        self.list.extend_from_slice(&code.to_le_bytes())?;
        if self.random.once_in(2) {
            self.list
                .extend_from_slice(&[16, 0, 0, 0, 24, 0, 5, 6, 7, 0, 0, 0, 0, 0, 0, 0])?;
        }
        self.leaves(&ANSWERS)
    }

    /// The attributes of a message of this kind.
    fn attributes(&mut self, kind: MessageKind) -> Result<(), AllocError> {
        self.list.clear();
        self.family = self.random.one_of(&[2, 2, 10, 10, 28, 7, 17], 0);
        match kind {
            MessageKind::Address => self.leaves(&ADDRESS),
            MessageKind::Rule => self.leaves(&RULE),
            MessageKind::Neighbour => self.leaves(&NEIGHBOUR),
            MessageKind::Route => self.route(),
            MessageKind::Link => self.link(),
            MessageKind::NextHop => self.next_hop_object(),
            MessageKind::Nsid => self.leaves(&NAME_SPACE),
            MessageKind::Netconf => self.leaves(&SETTINGS),
            MessageKind::AddressLabel => self.leaves(&LABEL),
            MessageKind::NeighbourTable => self.neighbour_table(),
            MessageKind::Prefix => self.leaves(&PREFIX),
            MessageKind::Tc => self.traffic(),
            MessageKind::TcAction => self.traffic_actions(),
            MessageKind::Stats => self.statistics(),
        }
    }

    /// The header: with a family, for routes mostly a type, and else what comes.
    fn header(&mut self, kind: MessageKind, out: &mut Vec<u8>) -> Result<(), AllocError> {
        let [a, b, c, d, e, f, g, _] = self.random.number().to_le_bytes();
        let route_type = self.random.one_of(&[1, 1, 1, 5], g);
        let [h, i, j, k, l, m, n, o] = self.random.number().to_le_bytes();
        let bytes = [
            self.family,
            a,
            b,
            c,
            d,
            e,
            f,
            route_type,
            h,
            i,
            j,
            k,
            l,
            m,
            n,
            o,
        ];
        for byte in bytes.iter().take(header_size(kind)) {
            out.push(*byte)?;
        }
        for _ in bytes.len()..header_size(kind) {
            out.push(self.random.byte())?;
        }
        Ok(())
    }

    /// Up to four attributes that hold no list, of numbers that the table has.
    pub(crate) fn leaves(&mut self, lengths: &[u8]) -> Result<(), AllocError> {
        for _ in 0..self.random.below(5) {
            self.leaf(lengths)?;
        }
        Ok(())
    }

    fn leaf(&mut self, lengths: &[u8]) -> Result<(), AllocError> {
        let number = self.random.below(lengths.len());
        let count = self.count(lengths.get(number).copied().unwrap_or(ANY));
        let kind = u16::try_from(number).unwrap_or(0);
        self.front(kind, count)?;
        let is_small = self.random.once_in(2);
        for index in 0..count {
            let byte = self.random.byte();
            let byte = if is_small && index > 0 { 0 } else { byte };
            let byte = if is_small { byte % 16 } else { byte };
            self.list.push(byte)?;
        }
        pad(&mut self.list)
    }

    /// A length of a value: mostly that of the table.
    fn count(&mut self, length: u8) -> usize {
        if self.random.once_in(32) {
            return self.random.below(40);
        }
        match length {
            ANY => self.random.below(24),
            OF_FAMILY => match self.family {
                10 => 16,
                _ => 4,
            },
            _ => usize::from(length),
        }
    }

    /// The header of an attribute whose value has so many bytes.
    pub(crate) fn front(&mut self, kind: u16, count: usize) -> Result<(), AllocError> {
        let length = u16::try_from(count.saturating_add(4)).unwrap_or(u16::MAX);
        self.list.extend_from_slice(&length.to_le_bytes())?;
        self.list.extend_from_slice(&kind.to_le_bytes())
    }

    /// What was made becomes the value of an attribute of a new list, behind these bytes.
    pub(crate) fn wrap(&mut self, kind: u16, before: &[u8]) -> Result<(), AllocError> {
        mem::swap(&mut self.list, &mut self.inside);
        self.list.clear();
        let count = self.inside.len().saturating_add(before.len());
        self.front(kind, count)?;
        self.list.extend_from_slice(before)?;
        self.list.extend_from_slice(self.inside.as_slice())?;
        pad(&mut self.list)
    }

    /// The list of a route: with an encapsulation, metrics or next hops, or with none of them.
    fn route(&mut self) -> Result<(), AllocError> {
        match self.random.below(6) {
            0 => self.encapsulation()?,
            1 => self.options()?,
            2 => self.routing_header()?,
            3 => {
                self.leaves(&NUMBERS)?;
                self.wrap(8, &[])?;
            }
            _ => {}
        }
        self.leaves(&ROUTE)?;
        for _ in 0..self.random.below(4) {
            self.next_hop()?;
        }
        Ok(())
    }

    /// Members of a type, or of one that they don't belong to.
    fn encapsulation(&mut self) -> Result<(), AllocError> {
        self.leaves(&MEMBERS)?;
        self.wrap(22, &[])?;
        let number = self.random.below(12);
        self.told(u8::try_from(number).unwrap_or(0))
    }

    /// An encapsulation over IP of either version with options.
    fn options(&mut self) -> Result<(), AllocError> {
        self.leaves(&OPTIONS)?;
        let kind = self.random.one_of(&[1, 2, 3], 0);
        self.wrap(kind | NESTED, &[])?;
        self.wrap(8 | NESTED, &[])?;
        self.leaves(&MEMBERS)?;
        self.wrap(22 | NESTED, &[])?;
        let number = self.random.one_of(&[2, 4], 0);
        self.told(number)
    }

    /// An encapsulation with a routing header of a few segments.
    fn routing_header(&mut self) -> Result<(), AllocError> {
        let segments = self.random.below(4);
        let count = u8::try_from(segments).unwrap_or(0);
        let (number, kind, routing) = self
            .random
            .one_of(&[(5, 1, 4), (7, 2, 4), (8, 1, 3)], (9, 3, 0));
        if number == 5 {
            self.list.extend_from_slice(&[1, 0, 0, 0])?;
        }
        let last = count.saturating_sub(1);
        self.list.extend_from_slice(&[0, count.saturating_mul(2), routing, last, last, 0, 0, 0])?;
        for _ in 0..segments.saturating_mul(16) {
            self.list.push(self.random.byte())?;
        }
        self.wrap(kind, &[])?;
        self.leaves(&MEMBERS)?;
        self.wrap(22, &[])?;
        self.told(number)
    }

    /// The type of encapsulation with this number.
    fn told(&mut self, number: u8) -> Result<(), AllocError> {
        self.front(21, 2)?;
        self.list.extend_from_slice(&[number, 0, 0, 0])
    }

    /// What was made becomes the attributes of a next hop in a new list, perhaps with another one
    /// behind it.
    fn next_hop(&mut self) -> Result<(), AllocError> {
        let count = self.list.len().saturating_add(8);
        let [a, b] = u16::try_from(count).unwrap_or(u16::MAX).to_le_bytes();
        if self.random.once_in(2) {
            let flags = self.random.byte();
            let hops = self.random.byte();
            self.list
                .extend_from_slice(&[8, 0, flags, hops, 3, 0, 0, 0])?;
        }
        self.wrap(9, &[a, b, 0, 0, 2, 0, 0, 0])?;
        self.leaves(&ROUTE)
    }

    /// Changes a byte or two, cuts the end off, or adds bytes.
    fn change(&mut self, out: &mut Vec<u8>) -> Result<(), AllocError> {
        for _ in 0..self.random.below(3) {
            let index = self.random.below(out.len());
            let byte = self.random.byte();
            if let Some(place) = out.get_mut(index) {
                *place = match self.random.below(3) {
                    0 => byte,
                    1 => place.wrapping_add(byte % 4),
                    _ => *place ^ (1 << (byte % 8)),
                };
            }
        }
        if self.random.once_in(8) {
            let count = self.random.below(out.len());
            out.truncate(count);
        }
        if self.random.once_in(8) {
            for _ in 0..self.random.below(9) {
                out.push(self.random.byte())?;
            }
        }
        Ok(())
    }
}

/// The length of the header of messages of this kind, in bytes.
fn header_size(kind: MessageKind) -> usize {
    match kind {
        MessageKind::Nsid
        | MessageKind::Netconf
        | MessageKind::NeighbourTable
        | MessageKind::TcAction => 4,
        MessageKind::Address | MessageKind::NextHop => 8,
        MessageKind::Link => 16,
        MessageKind::Tc => 20,
        _ => 12,
    }
}

/// Zeros up to a multiple of four bytes.
pub fn pad(bytes: &mut Vec<u8>) -> Result<(), AllocError> {
    for _ in 0..3 {
        if bytes.len() % 4 != 0 {
            bytes.push(0)?;
        }
    }
    Ok(())
}
