//! What is shown of encapsulations by routing headers: SEG6, SEG6 local, RPL and IOAM6.

use crate::attribute::push_raw;
use crate::field::{Fields, ITEM, Word, Wording};
use crate::list::{List, Seen, small};
use crate::manner::Inet6;
use crate::names::{SEG6_MODES, TABLES};
use crate::part::push_parts;
use crate::row::How::{Interface, Mark, Named, Number, Own, Text};
use crate::row::{Parts, Rows};
use netlink_packet_route::framing::AttributeSet;
use netlink_packet_route::net::Ipv6Addr;
use netlink_packet_route::route::{Ioam6Mode, Seg6LocalAction, Seg6MessageBuffer};

/// Of a list of segments that packets are sent along (`SEG6_IPTUNNEL_*`).
pub const SEG6: Rows = crate::rows![
    1 0 "mode" "mode " Own;
    2 3 "tunsrc" "tunsrc " Text;
    3 4 "table" "table " Named(TABLES);
];

/// Of what a segment does with packets (`SEG6_LOCAL_*`).
pub const SEG6_LOCAL: Rows = crate::rows![
    0 100 "unspecified" "unspecified" Mark;
    1 0 "action" "action " Own;
    2 1 "srh" "" Own;
    3 2 "table" "table " Named(TABLES);
    4 4 "nh4" "nh4 " Text;
    5 5 "nh6" "nh6 " Text;
    6 6 "iif" "iif " Interface;
    7 7 "oif" "oif " Interface;
    9 3 "vrftable" "vrftable " Named(TABLES);
];

/// Of a routing header for lossy networks (`RPL_IPTUNNEL_*`).
pub const RPL: Rows = crate::rows![
    0 100 "unspecified" "unspecified" Mark;
    1 1 "segs" "" Own;
];

/// Of data that is traced (`IOAM6_IPTUNNEL_*`).
pub const IOAM6: Rows = crate::rows![
    0 100 "unspecified" "unspecified" Mark;
    1 2 "mode" "mode " Own;
    2 4 "tundst" "tundst " Text;
    3 5 "trace" "trace" Own;
    4 0 "freq" "freq " Number;
    5 1 "freq_of" "/" Number;
    6 3 "tunsrc" "tunsrc " Text;
];

/// What stands in front of the segments of a local segment (RFC 8754, section 2).
const LOCAL_FRONT: Parts = crate::parts![
    U8 0 10 "nexthdr" "nexthdr " Number;
    U8 2 11 "type" "type " Number;
    U8 3 12 "segments_left" "segments_left " Number;
    U8 4 13 "first_segment" "first_segment " Number;
    U8 5 14 "flags" "flags " Number;
    Be16 6 15 "tag" "tag " Number;
];

/// The same of RPL, but for what stands in four bits (RFC 6554, section 3).
const RPL_FRONT: Parts = crate::parts![
    U8 0 10 "nexthdr" "nexthdr " Number;
    U8 2 11 "type" "type " Number;
    U8 3 12 "segments_left" "segments_left " Number;
];

const SEGMENTS: Word = &Wording(1, "segs", "");

const HMAC: Word = &Wording(2, "hmac", "hmac ");

const LEFT_OUT: Word = &Wording(16, "cmpri", "cmpri ");

const LEFT_OUT_LAST: Word = &Wording(17, "cmpre", "cmpre ");

const PADDING: Word = &Wording(18, "pad", "pad ");

const PREALLOCATED: Word = &Wording(6, "prealloc", "prealloc");

const TRACE_TYPE: Word = &Wording(7, "type", "type ");

const NAMESPACE: Word = &Wording(8, "ns", "ns ");

const SIZE: Word = &Wording(9, "size", "size ");

const NODE_LENGTH: Word = &Wording(10, "nodelen", "nodelen ");

const OVERFLOW: Word = &Wording(11, "overflow", "overflow");

/// Routing headers, and numbers by the names that the library has.
pub fn push_own(fields: &mut Fields, list: List<'_>, word: Word, seen: &Seen<'_>) {
    match (list.nest.told_set(), seen.number) {
        (AttributeSet::Seg6, _) => push_seg6(fields, word, seen.bytes),
        (AttributeSet::Seg6Local, 1) => { push_action(fields, word, small(&seen.value)) }
        (AttributeSet::Seg6Local, _) => push_local(fields, list, word, seen),
        (AttributeSet::Rpl, _) => push_rpl(fields, list, seen),
        (_, 1) => push_mode(fields, word, small(&seen.value)),
        _ => push_trace(fields, word, seen),
    }
}

/// How a list of segments is put in, its segments, and the number of a key behind them, for which a flag
/// says so (RFC 8754, section 2). The header counts eights of bytes behind its first eight, and an HMAC
/// takes five of them.
fn push_seg6(fields: &mut Fields, word: Word, bytes: &[u8]) {
    let Ok(front) = Seg6MessageBuffer::parse(bytes) else {
        return;
    };
    let has_key = front.flags & 8 != 0;
    let eights = usize::from(front.hdrlen).saturating_sub(if has_key { 5 } else { 0 });
    let body = bytes.get(12..).unwrap_or(&[]);
    let end = body.len().min(eights * 8);
    fields.named(word, SEG6_MODES, front.mode);
    push_segments(fields, body.get(..end).unwrap_or(body));
    if let (true, Some([_, _, _, _, a, b, c, d, ..])) = (has_key, body.get(end..)) {
        let key = u32::from_be_bytes([*a, *b, *c, *d]);
        fields.bits_shown(HMAC, key, &format_args!("{key:X}"));
    }
}

/// Addresses from the last to the first, which is the order in which they are visited.
fn push_segments(fields: &mut Fields, bytes: &[u8]) {
    let mut inside = Fields::new(fields.manner);
    let mut left = bytes;
    let mut count = 0usize;
    for _ in 0..bytes.len() {
        let Some((before, octets)) = left.split_last_chunk::<16>() else {
            break;
        };
        inside.text(ITEM, &Inet6(&Ipv6Addr::from(*octets)));
        count = count.saturating_add(1);
        left = before;
    }
    fields.list(SEGMENTS, inside, " ");
    fields.enclose("segs", count);
}

fn push_action(fields: &mut Fields, word: Word, number: u32) {
    match Seg6LocalAction::from(number) {
        Seg6LocalAction::Other(number) => fields.text(word, &number),
        action => fields.text(word, &action),
    }
}

/// The segments behind the eight bytes in front of a routing header, where its lengths are right.
fn segments_of(bytes: &[u8]) -> Option<&[u8]> {
    let [_, eights, _, _, _, _, _, _, segments @ ..] = bytes else {
        return None;
    };
    let is_whole = segments.len() == usize::from(*eights) * 8 && segments.len() % 16 == 0;
    is_whole.then_some(segments)
}

/// The routing header of a local segment, or its bytes where it can't be read.
fn push_local(fields: &mut Fields, list: List<'_>, word: Word, seen: &Seen<'_>) {
    let Some(segments) = segments_of(seen.bytes) else {
        return push_raw(fields, seen.kind, seen.bytes);
    };
    let mut inside = Fields::new(fields.manner);
    push_segments(&mut inside, segments);
    push_parts(&mut inside, list, seen.bytes, LOCAL_FRONT);
    fields.object(word, inside);
}

/// The routing header of RPL. One that leaves out parts of addresses can't be read.
fn push_rpl(fields: &mut Fields, list: List<'_>, seen: &Seen<'_>) {
    match (seen.bytes, segments_of(seen.bytes)) {
        ([_, _, _, _, 0, padding, ..], Some(segments)) => {
            push_segments(fields, segments);
            push_parts(fields, list, seen.bytes, RPL_FRONT);
            fields.number(LEFT_OUT, 0u8);
            fields.number(LEFT_OUT_LAST, 0u8);
            fields.number(PADDING, padding / 16);
        }
        _ => push_raw(fields, seen.kind, seen.bytes),
    }
}

fn push_mode(fields: &mut Fields, word: Word, number: u32) {
    match Ioam6Mode::from(u8::try_from(number).unwrap_or(0)) {
        Ioam6Mode::Other(number) => fields.text(word, &number),
        mode => fields.text(word, &mode),
    }
}

/// A trace whose room is there from the start (RFC 9197, section 4.4.1): namespace, length of a node's
/// data, overflow, room that is left, and which data each node writes.
fn push_trace(fields: &mut Fields, word: Word, seen: &Seen<'_>) {
    let [a, b, node, room, c, d, e, _] = seen.bytes else {
        return push_raw(fields, seen.kind, seen.bytes);
    };
    fields.mark(word);
    fields.mark(PREALLOCATED);
    push_trace_type(fields, u32::from_be_bytes([0, *c, *d, *e]));
    fields.number(NAMESPACE, u16::from_be_bytes([*a, *b]));
    fields.number(SIZE, u32::from(room & 0x7f) * 4);
    fields.number(NODE_LENGTH, node >> 3);
    if node & 4 != 0 {
        fields.truth(OVERFLOW, true);
    }
}

/// The data that is traced, as C prints it by `%#08x`.
fn push_trace_type(fields: &mut Fields, bits: u32) {
    match bits {
        0 => fields.bits_shown(TRACE_TYPE, bits, &"00000000"),
        _ => fields.bits_shown(TRACE_TYPE, bits, &format_args!("0x{bits:06x}")),
    }
}
