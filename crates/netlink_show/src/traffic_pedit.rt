//! What is shown of pedit, which changes bytes of packets.

use crate::field::{Fields, Word, Wording};
use crate::list::{List, Seen};
use crate::names::Names;
use crate::part::{number_at, push_parts};
use crate::row::How::{Bits, Flat, Named, Number, Objects, Own};
use crate::row::Line::{IfAny, Never};
use crate::row::{Parts, Rows};
use crate::traffic_action::{GENERIC, TIMES};
use crate::traffic_option::{ACTION, push_generic_by};
use netlink_packet_route::framing::NlasIterator;

/// Of what changes bytes (`TCA_PEDIT_*` of `linux/tc_act/tc_pedit.h`).
pub const PEDIT: Rows = crate::rows![
    1 0 "" "" Own;
    2 40 "keys" "" Own;
    4 40 "keys" "" Own;
    5 60 "keys_ex" "" Objects("", "", ""), Never;
];

/// Of what is known of keys beside their structures.
pub const PEDIT_KEYS: Rows = crate::rows![
    6 0 "" "" Flat;
];

/// Of what is known of one of them (`TCA_PEDIT_KEY_EX_*`).
pub const PEDIT_KEY: Rows = crate::rows![
    1 0 "htype" "" Named(HEADERS);
    2 1 "cmd" "" Named(COMMANDS);
];

/// In which header the bytes are (`TCA_PEDIT_KEY_EX_HDR_TYPE_*`).
const HEADERS: Names = &[
    (NETWORK, "network"),
    (1, "eth"),
    (2, "ipv4"),
    (3, "ipv6"),
    (4, "tcp"),
    (5, "udp"),
];

/// From the network header on, whichever that is.
const NETWORK: u32 = 0;

/// What becomes of them (`TCA_PEDIT_KEY_EX_CMD_*`).
const COMMANDS: Names = &[(0, "set"), (1, "add")];

/// The number of the attribute with what is known of keys beside their structures (`TCA_PEDIT_KEYS_EX`).
const TCA_PEDIT_KEYS_EX: u16 = 5;

/// What stands behind what every action has (`struct tc_pedit_sel`).
const SELECTOR: Parts = crate::parts![
    U8 20 11 "nkeys" "keys " Number;
    U8 21 61 "sel_flags" "" Bits, Never;
];

/// Where else the place of bytes comes from (`struct tc_pedit_key`).
const OFFSETS: Parts = crate::parts![
    U32 12 5 "at" "at " Number, IfAny;
    U32 16 6 "offmask" "offmask " Bits, IfAny;
    U32 20 7 "shift" "shift " Number, IfAny;
];

/// The bytes in front of the keys, and those of a key.
const FRONT: usize = 24;

const KEY: usize = 24;

const ONE: Word = &Wording(0, "", "\n\t key");

const HEADER: Word = &Wording(1, "htype", "");

const OFFSET: Word = &Wording(2, "offset", "");

const COMMAND: Word = &Wording(3, "cmd", "");

const VALUE: Word = &Wording(4, "val", "");

const MASK: Word = &Wording(4, "mask", "mask ");

/// Times, and the keys.
pub fn push_own(fields: &mut Fields, list: List<'_>, word: Word, seen: &Seen<'_>) {
    match seen.number {
        1 => push_parts(fields, list, seen.bytes, TIMES),
        number => {
            push_generic_by(fields, list, ACTION, seen.bytes);
            push_parts(fields, list, seen.bytes, SELECTOR);
            push_keys(fields, list, word, (number, seen.bytes))
        }
    }
}

/// The keys behind a structure, each in a line. The attribute of one of two numbers has more of them.
fn push_keys(fields: &mut Fields, list: List<'_>, word: Word, keys: (u16, &[u8])) {
    let (number, bytes) = keys;
    let more = match number {
        2 => None,
        _ => list.first_inside(TCA_PEDIT_KEYS_EX),
    };
    let mut walk = NlasIterator::new(match more {
        Some(inner) => inner.bytes,
        None => &[],
    });
    let mut objects = Fields::new(fields.manner);
    let mut left = bytes.get(FRONT..).unwrap_or(&[]);
    for place in 0..bytes.len() {
        let (Some(key), Some(behind)) = (left.get(..KEY), left.get(KEY..)) else {
            break;
        };
        let (header, command) = known_of(more, &mut walk);
        let mut inside = Fields::new(fields.manner);
        push_place(&mut inside, place, header, number_at(key, 8).cast_signed());
        push_key(&mut inside, list, key, command);
        objects.object(ONE, inside);
        left = behind;
    }
    fields.list(word, objects, "");
}

/// In which header a key is and what becomes of its bytes, by the next attribute of these, if there is one.
fn known_of(more: Option<List<'_>>, walk: &mut NlasIterator<'_>) -> (u32, u32) {
    let (Some(inner), Some(Ok(item))) = (more, walk.next()) else {
        return (NETWORK, 0);
    };
    match inner.inside_of(&item) {
        Some(known) => (known.number(1), known.number(2)),
        None => (NETWORK, 0),
    }
}

/// Which key it is, and where its bytes are.
fn push_place(inside: &mut Fields, place: usize, header: u32, offset: i32) {
    let alloc = inside.manner.alloc;
    let sign = if offset < 0 { "" } else { "+" };
    let front = format!(in alloc; "#{place} at");
    match inside.manner.name(HEADERS, header) {
        Some(name) if header == NETWORK => {
            inside.text_shown(HEADER, &name, front);
            inside.written(OFFSET, offset, format!(in alloc; "{offset}:"))
        }
        Some(name) => {
            inside.text_shown(HEADER, &name, front);
            inside.written(OFFSET, offset, format!(in alloc; "{name}{sign}{offset}:"))
        }
        None => {
            inside.text_shown(HEADER, &header, front);
            inside.written(OFFSET, offset, format!(in alloc; "{header}{sign}{offset}:"))
        }
    }
}

/// What becomes of them: those that the mask has stay as they are.
fn push_key(inside: &mut Fields, list: List<'_>, key: &[u8], command: u32) {
    let alloc = inside.manner.alloc;
    match inside.manner.name(COMMANDS, command) {
        Some(name) => {
            let text = if command == 0 { "val" } else { name };
            inside.text_shown(COMMAND, &name, String::from_str(alloc, text))
        }
        None => inside.number(COMMAND, command),
    }
    let (value, mask) = (
        number_at(key, 4).swap_bytes(),
        number_at(key, 0).swap_bytes(),
    );
    let text = format!(in alloc; "{value:08x}");
    inside.text_shown(VALUE, &format_args!("{value:x}"), text);
    let text = format!(in alloc; "{mask:08x}");
    inside.text_shown(MASK, &format_args!("{mask:x}"), text);
    push_parts(inside, list, key, OFFSETS)
}
