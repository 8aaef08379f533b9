//! Finding messages in an input, a window of it at a time.

use crate::capture::{is_capture, read_capture};
use crate::refusal::Refusal;
use crate::session::{Position, Session};
use byte_window::{Stop, Window};
use hex_text::{HexError, bytes_of};
use netlink_packet_core::{NETLINK_HEADER_LEN, NLMSG_ALIGNTO, NetlinkHeader};
use netlink_packet_route::MessageKind;
use std::io::Read;

/// How many bytes of an input are held at a time, which is what the longest message has.
pub const WINDOW: usize = 1 << 18;

/// What stands in front of some bytes.
#[derive(Clone, Copy)]
enum Front {
    /// A message of this length, with so many bytes to its end and padding.
    Whole(usize, usize),
    /// A message that is not there whole, or nothing.
    Part,
    /// A message of this length, which has no room.
    TooLong(u32),
    /// A length that no message has.
    TooShort(u32),
}

/// What stands in front of the bytes, behind which more come or not.
fn front_of(bytes: &[u8], is_last: bool) -> Front {
    let Ok(header) = NetlinkHeader::parse(bytes) else {
        return Front::Part;
    };
    let length = header.length as usize;
    if length < NETLINK_HEADER_LEN {
        return Front::TooShort(header.length);
    }
    if length > WINDOW {
        return Front::TooLong(header.length);
    }
    let padded = length.next_multiple_of(NLMSG_ALIGNTO);
    if padded <= bytes.len() || (is_last && length <= bytes.len()) {
        return Front::Whole(length, padded);
    }
    Front::Part
}

/// Reads an input by what the run's options say of it.
pub fn read_input<R: Read + Drop>(session: &mut Session, reader: R) -> Result<(), Stop> {
    let mut window = Window::new(session.alloc, reader, WINDOW)?;
    match (session.options.is_hex, session.options.kind) {
        (true, _) => read_lines(session, &mut window),
        (false, Some(kind)) => read_lone(session, &mut window, kind),
        (false, None) => read_file(session, &mut window),
    }
}

/// What `ip route save`, `ip address save` and `ip rule save` write in front of datagrams, little endian
/// (`ip/iproute.c`, `ip/ipaddress.c` and `ip/iprule.c` of iproute2).
const SAVED: [[u8; 4]; 3] = [
    [0x24, 0x12, 0x31, 0x45],
    [0x22, 0x12, 0x36, 0x47],
    [0x86, 0x69, 0x70, 0x71],
];

/// Reads datagrams, those that `ip` has saved, or a capture, by the first four bytes.
fn read_file<R: Read + Drop>(session: &mut Session, window: &mut Window<R>) -> Result<(), Stop> {
    let mut is_more = true;
    for _ in 0..4u8 {
        if window.held().len() < 4 && is_more {
            is_more = fill(session, window)?;
        }
    }
    match window.held().first_chunk::<4>() {
        Some(front) if is_capture(front) => return read_capture(session, window, is_more),
        Some(front) if SAVED.contains(front) => window.pass(4),
        _ => {}
    }
    read_datagrams(session, window, is_more)
}

/// Reads once more, and answers whether anything came.
pub fn fill<R: Read + Drop>(session: &mut Session, window: &mut Window<R>) -> Result<bool, Stop> {
    let before = window.held().len();
    let is_more = window.fill()?;
    let more = window.held().len().saturating_sub(before);
    session.progress(more as u64, window.passed());
    Ok(is_more)
}

/// Datagrams, one behind the other, of which the window holds the first bytes.
fn read_datagrams<R: Read + Drop>(
    session: &mut Session,
    window: &mut Window<R>,
    is_begun: bool,
) -> Result<(), Stop> {
    let mut number = 0u64;
    let mut is_more = is_begun;
    session.look(window.held());
    for turn in 0..u64::MAX {
        if turn != 0 {
            is_more = fill(session, window)?;
        }
        let front = take_messages(session, window, &mut number, !is_more)?;
        match front {
            Front::TooLong(length) => pass_long(session, window, &mut number, length)?,
            Front::TooShort(_) => return refuse_rest(session, window, number, front),
            _ if !is_more => return refuse_rest(session, window, number, front),
            _ => {}
        }
        session.flush()?;
    }
    Ok(())
}

/// Tells of the messages that the window has whole, and answers what stands behind them.
fn take_messages<R: Read + Drop>(
    session: &mut Session,
    window: &mut Window<R>,
    number: &mut u64,
    is_last: bool,
) -> Result<Front, Stop> {
    for _ in 0..window.held().len() {
        let front = front_of(window.held(), is_last);
        let Front::Whole(length, padded) = front else {
            return Ok(front);
        };
        let Some(bytes) = window.held().get(..length) else {
            return Ok(Front::Part);
        };
        *number = number.saturating_add(1);
        let place = Position {
            what: "message",
            number: *number,
            offset: window.passed(),
            length: length as u64,
        };
        session.message(place, bytes)?;
        window.pass(padded);
    }
    Ok(front_of(window.held(), is_last))
}

/// Passes a message that has no room, and refuses it.
fn pass_long<R: Read + Drop>(
    session: &mut Session,
    window: &mut Window<R>,
    number: &mut u64,
    length: u32,
) -> Result<(), Stop> {
    *number = number.saturating_add(1);
    let length = u64::from(length);
    let place = Position {
        what: "message",
        number: *number,
        offset: window.passed(),
        length,
    };
    let left = pass_kept(session, window, length.next_multiple_of(4))?;
    let gone = window.passed().saturating_sub(place.offset);
    let refusal = match left {
        0 => Refusal::TooLong {
            length,
            most: WINDOW as u64,
        },
        _ => Refusal::MessageLength { length, left: gone },
    };
    session.refuse(place, refusal);
    Ok(())
}

/// Passes so many bytes of the input and keeps them, and answers how many were not there.
fn pass_kept<R: Read + Drop>(
    session: &mut Session,
    window: &mut Window<R>,
    count: u64,
) -> Result<u64, Stop> {
    let mut left = count;
    for _ in 0..u64::MAX {
        let held = window.held();
        let here = held.len().min(usize::try_from(left).unwrap_or(usize::MAX));
        session.keep(held.get(..here).unwrap_or(held))?;
        window.pass(here);
        left = left.saturating_sub(here as u64);
        if left == 0 || !fill(session, window)? {
            break;
        }
    }
    Ok(left)
}

/// Refuses what is left of an input, if anything is.
fn refuse_rest<R: Read + Drop>(
    session: &mut Session,
    window: &mut Window<R>,
    number: u64,
    front: Front,
) -> Result<(), Stop> {
    if window.held().is_empty() {
        return session.flush();
    }
    let stated = NetlinkHeader::parse(window.held()).map_or(0, |header| header.length);
    let offset = window.passed();
    pass_kept(session, window, u64::MAX)?;
    let left = window.passed().saturating_sub(offset);
    let place = Position {
        what: "message",
        number: number.saturating_add(1),
        offset,
        length: left,
    };
    let length = u64::from(stated);
    let refusal = match front {
        Front::Part if left < NETLINK_HEADER_LEN as u64 => Refusal::MessageTooShort { left },
        _ => Refusal::MessageLength { length, left },
    };
    session.refuse(place, refusal);
    session.flush()
}

/// One message without an envelope.
fn read_lone<R: Read + Drop>(
    session: &mut Session,
    window: &mut Window<R>,
    kind: MessageKind,
) -> Result<(), Stop> {
    for _ in 0..u64::MAX {
        if window.is_full() || !fill(session, window)? {
            break;
        }
    }
    session.look(window.held());
    let mut place = Position {
        what: "message",
        number: 1,
        offset: 0,
        length: window.held().len() as u64,
    };
    if !window.is_full() {
        session.lone(kind, place, window.held())?;
        return session.flush();
    }
    pass_kept(session, window, u64::MAX)?;
    place.length = window.passed();
    let refusal = Refusal::TooLong {
        length: place.length,
        most: WINDOW as u64 - 1,
    };
    session.refuse(place, refusal);
    session.flush()
}

/// Lines of hexadecimal text.
fn read_lines<R: Read + Drop>(session: &mut Session, window: &mut Window<R>) -> Result<(), Stop> {
    let mut number = 0u64;
    for _ in 0..u64::MAX {
        let is_more = fill(session, window)?;
        take_lines(session, window, &mut number)?;
        if window.is_full() {
            pass_line(session, window, &mut number)?;
        } else if !is_more {
            if !window.held().is_empty() {
                number = number.saturating_add(1);
                take_line(session, number, window.passed(), window.held())?;
            }
            return session.flush();
        }
        session.flush()?;
    }
    Ok(())
}

/// Where the first line ends.
fn line_end(bytes: &[u8]) -> Option<usize> {
    bytes.iter().position(|byte| *byte == b'\n')
}

/// Takes the lines that the window has whole.
fn take_lines<R: Read + Drop>(
    session: &mut Session,
    window: &mut Window<R>,
    number: &mut u64,
) -> Result<(), Stop> {
    for _ in 0..window.held().len() {
        let held = window.held();
        let Some(end) = line_end(held) else {
            break;
        };
        *number = number.saturating_add(1);
        take_line(
            session,
            *number,
            window.passed(),
            held.get(..end).unwrap_or(held),
        )?;
        window.pass(end.saturating_add(1));
    }
    Ok(())
}

/// Passes a line that has no room, and refuses it.
fn pass_line<R: Read + Drop>(
    session: &mut Session,
    window: &mut Window<R>,
    number: &mut u64,
) -> Result<(), Stop> {
    *number = number.saturating_add(1);
    let offset = window.passed();
    for _ in 0..u64::MAX {
        let held = window.held();
        let end = line_end(held);
        let count = end.map_or(held.len(), |end| end.saturating_add(1));
        session.keep_as_it_stands(held.get(..count).unwrap_or(held))?;
        window.pass(count);
        if end.is_some() || !fill(session, window)? {
            break;
        }
    }
    let length = window.passed().saturating_sub(offset);
    let place = Position {
        what: "line",
        number: *number,
        offset,
        length,
    };
    let most = WINDOW as u64 - 1;
    session.refuse(place, Refusal::TooLong { length, most });
    Ok(())
}

/// Takes a line, which is kept as it stands where anything in it is refused.
fn take_line(session: &mut Session, number: u64, offset: u64, line: &[u8]) -> Result<(), Stop> {
    let place = Position {
        what: "line",
        number,
        offset,
        length: line.len() as u64,
    };
    let before = session.counts.refused;
    match bytes_of(session.alloc, line) {
        Err(HexError::OutOfMemory) => return Err(Stop::Memory),
        Err(HexError::Bad(_)) => session.refuse(place, Refusal::BadHex),
        Ok(bytes) if bytes.is_empty() => {}
        Ok(bytes) => take_bytes(session, place, bytes.as_slice())?,
    }
    if session.counts.refused != before {
        session.keep_as_it_stands(line)?;
        session.keep_as_it_stands(b"\n")?;
    }
    Ok(())
}

/// Takes the bytes of a line or a packet: a message without an envelope, or messages.
pub fn take_bytes(session: &mut Session, place: Position, bytes: &[u8]) -> Result<(), Stop> {
    let whole = Position {
        length: bytes.len() as u64,
        ..place
    };
    if place.number == 1 {
        session.look(bytes);
    }
    if let Some(kind) = session.options.kind {
        return session.lone(kind, whole, bytes);
    }
    let mut rest = bytes;
    for _ in 0..bytes.len() {
        if rest.is_empty() {
            break;
        }
        let Front::Whole(length, padded) = front_of(rest, true) else {
            session.refuse(whole, refusal_of(rest));
            break;
        };
        session.message(whole, rest.get(..length).unwrap_or(rest))?;
        rest = rest.get(padded..).unwrap_or(&[]);
    }
    Ok(())
}

/// Why bytes without a message in front are none.
fn refusal_of(bytes: &[u8]) -> Refusal {
    let left = bytes.len() as u64;
    match NetlinkHeader::parse(bytes) {
        Ok(header) => Refusal::MessageLength {
            length: u64::from(header.length),
            left,
        },
        Err(_) => Refusal::MessageTooShort { left },
    }
}
