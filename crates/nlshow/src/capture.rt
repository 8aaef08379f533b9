//! Captures of nlmon: files of pcap and pcapng whose packets are datagrams of netlink.

use crate::reading::{WINDOW, fill, take_bytes};
use crate::refusal::Refusal;
use crate::session::{Position, Session};
use byte_window::{Stop, Window};
use std::io::Read;

/// The bytes in front of a datagram in a packet, whose last two are the family of netlink, big endian
/// (`struct sockaddr_ll` as `LINKTYPE_NETLINK` has it).
const COOKED: usize = 16;

/// The bytes in front of the first packet of pcap.
const PCAP_FRONT: usize = 24;

/// Blocks of pcapng: a section, a packet, and a packet without a time.
const SECTION: u32 = 0x0a0d_0d0a;

const PACKET: u32 = 6;

const SIMPLE_PACKET: u32 = 3;

/// What stands in front of the bytes of a capture.
#[derive(Clone, Copy)]
enum Block {
    /// A packet between these two places, and the length of all.
    Packet(usize, usize, usize),
    /// Anything else of this length.
    Other(usize),
    /// A block that is not there whole, or nothing.
    Part,
    /// No block that has room.
    Wrong,
}

/// How numbers stand in a capture, and how its packets do.
#[derive(Clone, Copy)]
struct Form {
    /// Whether the highest byte stands first.
    is_big: bool,
    /// Whether it is one of pcapng.
    has_blocks: bool,
}

/// Whether an input that begins so is a capture.
pub fn is_capture(front: &[u8; 4]) -> bool {
    form_of(front).is_some()
}

/// The form of a capture that begins so. The times of packets count millionths or thousand-millionths
/// of a second.
fn form_of(front: &[u8; 4]) -> Option<Form> {
    let (is_big, has_blocks) = match front {
        [0xd4, 0xc3, 0xb2, 0xa1] | [0x4d, 0x3c, 0xb2, 0xa1] => (false, false),
        [0xa1, 0xb2, 0xc3, 0xd4] | [0xa1, 0xb2, 0x3c, 0x4d] => (true, false),
        [0x0a, 0x0d, 0x0d, 0x0a] => (false, true),
        _ => return None,
    };
    Some(Form { is_big, has_blocks })
}

impl Form {
    /// The number of four bytes at a place.
    fn number(self, bytes: &[u8], at: usize) -> Option<u32> {
        let octets = *bytes.get(at..)?.first_chunk::<4>()?;
        Some(if self.is_big {
            u32::from_be_bytes(octets)
        } else {
            u32::from_le_bytes(octets)
        })
    }

    /// What stands in front of these bytes.
    fn block(self, bytes: &[u8]) -> Block {
        let found = if self.has_blocks {
            self.block_of_pcapng(bytes)
        } else {
            self.packet_of_pcap(bytes)
        };
        match found {
            Some(Block::Packet(start, end, size)) if start > end || end > size => Block::Wrong,
            Some(Block::Packet(_, _, size) | Block::Other(size)) if size > WINDOW => Block::Wrong,
            Some(Block::Packet(_, _, size) | Block::Other(size)) if size > bytes.len() =>
                Block::Part,
            Some(block) => block,
            None => Block::Part,
        }
    }

    /// A packet of pcap: a time, and the length of what was kept, in a header of 16 bytes.
    fn packet_of_pcap(self, bytes: &[u8]) -> Option<Block> {
        let end = 16usize.checked_add(self.number(bytes, 8)? as usize)?;
        Some(Block::Packet(16, end, end))
    }

    /// A block of pcapng: its type, its length, and what it has.
    fn block_of_pcapng(self, bytes: &[u8]) -> Option<Block> {
        let size = self.number(bytes, 4)? as usize;
        if size < 12 || size % 4 != 0 {
            return Some(Block::Wrong);
        }
        Some(match self.number(bytes, 0)? {
            PACKET => {
                let end = 28usize.checked_add(self.number(bytes, 20)? as usize)?;
                Block::Packet(28, end, size)
            }
            SIMPLE_PACKET => {
                let whole = 12usize.checked_add(self.number(bytes, 8)? as usize)?;
                Block::Packet(12, whole.min(size.saturating_sub(4)), size)
            }
            _ => Block::Other(size),
        })
    }
}

/// The form of a section of pcapng, whose header tells the order of its numbers.
fn form_of_section(bytes: &[u8], form: Form) -> Form {
    let is_section = form.number(bytes, 0) == Some(SECTION);
    match bytes.get(8..).and_then(|rest| rest.first_chunk::<4>()) {
        Some(order) if is_section && form.has_blocks => Form {
            is_big: *order == [0x1a, 0x2b, 0x3c, 0x4d],
            ..form
        },
        _ => form,
    }
}

/// Reads a capture, of which the window holds the first bytes.
pub fn read_capture<R: Read + Drop>(
    session: &mut Session,
    window: &mut Window<R>,
    is_begun: bool,
) -> Result<(), Stop> {
    let Some(mut form) = window.held().first_chunk::<4>().and_then(form_of) else {
        return Ok(());
    };
    let mut is_more = pass_front(session, window, form, is_begun)?;
    let mut number = 0u64;
    for _ in 0..u64::MAX {
        form = form_of_section(window.held(), form);
        match form.block(window.held()) {
            Block::Packet(start, end, size) => {
                number = number.saturating_add(1);
                take_packet(session, window, number, (start, end))?;
                window.pass(size);
            }
            Block::Other(size) => window.pass(size),
            Block::Part if is_more => {
                session.flush()?;
                is_more = fill(session, window)?;
            }
            Block::Part | Block::Wrong => return refuse_rest(session, window, number),
        }
    }
    Ok(())
}

/// Passes what stands in front of the first packet of pcap, and answers whether more may come.
fn pass_front<R: Read + Drop>(
    session: &mut Session,
    window: &mut Window<R>,
    form: Form,
    is_begun: bool,
) -> Result<bool, Stop> {
    if form.has_blocks {
        return Ok(is_begun);
    }
    let mut is_more = is_begun;
    for _ in 0..PCAP_FRONT {
        if window.held().len() < PCAP_FRONT && is_more {
            is_more = fill(session, window)?;
        }
    }
    if window.held().len() >= PCAP_FRONT {
        window.pass(PCAP_FRONT);
    }
    Ok(is_more)
}

/// Takes the datagram in a packet, if it is one of rtnetlink.
fn take_packet<R: Read + Drop>(
    session: &mut Session,
    window: &mut Window<R>,
    number: u64,
    ends: (usize, usize),
) -> Result<(), Stop> {
    let (start, end) = ends;
    let packet = window.held().get(start..end).unwrap_or(&[]);
    if let Some((&[.., 0, 0], datagram)) = packet.split_first_chunk::<COOKED>() {
        let place = Position {
            what: "packet",
            number,
            offset: window.passed().saturating_add(start as u64),
            length: packet.len() as u64,
        };
        take_bytes(session, place, datagram)?;
    }
    Ok(())
}

/// Refuses what is left, if anything is.
fn refuse_rest<R: Read + Drop>(
    session: &mut Session,
    window: &mut Window<R>,
    number: u64,
) -> Result<(), Stop> {
    let length = window.held().len() as u64;
    if length != 0 {
        let place = Position {
            what: "packet",
            number: number.saturating_add(1),
            offset: window.passed(),
            length,
        };
        session.refuse(place, Refusal::BadBlock);
        session.keep(window.held())?;
    }
    session.flush()
}
