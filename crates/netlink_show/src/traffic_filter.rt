//! What is shown of the filters u32, matchall, fw and bpf.

use crate::field::{Fields, Flags, Word, Wording};
use crate::list::{List, Seen, small};
use crate::manner;
use crate::part::{number_at, push_parts};
use crate::row::How::{Bits, Flags as Words, Number, Object, Objects, Own, Text};
use crate::row::Line::Never;
use crate::row::{Parts, Rows, Size};
use crate::traffic_program::push_program;
use crate::traffic_text::{Handle, U32Handle};
use netlink_packet_route::framing::AttributeSet;

/// Of a filter by bits of a packet (`TCA_U32_*` of `linux/pkt_cls.h`).
pub const U32: Rows = crate::rows![
    1 4 "flowid" "flowid " Own;
    2 2 "key_ht" "key ht " Own;
    3 5 "link" "link " Own;
    4 1 "ht_divisor" "ht divisor " Number;
    5 11 "match" "" Own;
    6 89 "police" "\n police" Object;
    7 90 "actions" "" Objects("", "", "");
    8 14 "input_dev" "\n  input dev " Text;
    9 9 "rule_hit" "" Own;
    10 10 "fwmark_value" "\n  mark " Own;
    11 6 "flags" "" Own;
];

/// Of a filter that takes all (`TCA_MATCHALL_*` of `linux/pkt_cls.h`).
pub const MATCH_ALL: Rows = crate::rows![
    1 4 "flowid" "flowid " Own;
    2 90 "actions" "" Objects("", "", "");
    3 80 "flags" "" Own;
    4 85 "rule_hit" "(rule hit " Own;
];

/// Of a filter by marks (`TCA_FW_*` of `linux/pkt_cls.h`).
pub const FW: Rows = crate::rows![
    1 1 "classid" "classid " Own;
    2 89 "police" "police" Object;
    3 2 "indev" "input dev " Text;
    4 90 "actions" "" Objects("", "", "");
    5 0 "mask" "/" Own;
];

/// Of a filter that runs a program (`TCA_BPF_*` of `linux/pkt_cls.h`).
pub const BPF: Rows = crate::rows![
    1 90 "actions" "" Objects("", "", "");
    2 89 "police" "\n police" Object;
    3 1 "flowid" "flowid " Own;
    4 60 "ops_len" "" Number, Never;
    5 12 "bytecode" "" Own;
    6 13 "fd" "fd " Number;
    7 2 "bpf_name" "" Text;
    8 3 "flags" "" Words(PROGRAM);
    9 6 "flags_gen" "" Own;
    10 15 "tag" "tag " Text;
    11 14 "id" "id " Number;
];

/// What a program does (`TCA_BPF_FLAG_*` of `linux/pkt_cls.h`).
const PROGRAM: Flags = &[(0x1, &Wording(3, "direct-action", "direct-action"))];

/// Where a filter works (`TCA_CLS_FLAGS_*` of `linux/pkt_cls.h`).
const PLACES: Flags = &[
    (0x1, &Wording(6, "skip_hw", "skip_hw")),
    (0x2, &Wording(6, "skip_sw", "skip_sw")),
    (0x4, &Wording(6, "in_hw", "in_hw")),
    (0x8, &Wording(6, "not_in_hw", "not_in_hw")),
    (0x10, &Wording(6, "verbose", "verbose")),
];

/// The same in lines of their own.
const PLACES_BELOW: Flags = &[
    (0x1, &Wording(80, "skip_hw", "\n  skip_hw")),
    (0x2, &Wording(80, "skip_sw", "\n  skip_sw")),
    (0x4, &Wording(81, "in_hw", "\n  in_hw")),
    (0x8, &Wording(81, "not_in_hw", "\n  not_in_hw")),
    (0x10, &Wording(82, "verbose", "\n  verbose")),
];

/// What stands in front of the keys of a filter (`struct tc_u32_sel`), but for how many there are.
const SELECTOR: Parts = crate::parts![
    U8 0 20 "sel_flags" "" Bits, Never;
    U8 1 21 "offshift" "" Number, Never;
    Be16 4 22 "offmask" "" Bits, Never;
    U16 6 23 "off" "" Number, Never;
    U16 8 24 "offoff" "" Number, Never;
];

/// The bytes in front of the keys, and those of a key (`struct tc_u32_key`).
const FRONT: usize = 16;

const KEY: usize = 16;

/// The number of the attribute with counts, of which two are of the filter (`TCA_U32_PCNT`).
const COUNTERS: u16 = 9;

const BUCKET: Word = &Wording(3, "bkt", "bkt ");

const HASH_MASK: Word = &Wording(12, "hash_mask", "\n    hash mask ");

const HASH_OFFSET: Word = &Wording(13, "hash_off", "at ");

const MARK_MASK: Word = &Wording(10, "fwmark_mask", "");

const MARK_SUCCESSES: Word = &Wording(10, "fwmark_success", "(success ");

const MATCH: Word = &Wording(0, "", "\n  match");

const VALUE: Word = &Wording(0, "value", "");

const MASK: Word = &Wording(1, "mask", "/");

const AT: Word = &Wording(2, "off", "at ");

const BEHIND: Word = &Wording(3, "offmask", "");

const HITS: Word = &Wording(9, "rule_hit", "(rule hit ");

const SUCCESSES: Word = &Wording(9, "success", "success ");

const OF_KEY: Word = &Wording(4, "success", "(success ");

/// Handles, structures and counters.
pub fn push_own(fields: &mut Fields, list: List<'_>, word: Word, seen: &Seen<'_>) {
    let number = small(&seen.value);
    match (list.nest.set, seen.number) {
        (_, 1) => push_handle(fields, word, seen.bytes),
        (AttributeSet::TcFilterU32, 2) => push_table(fields, word, number),
        (AttributeSet::TcFilterU32, 3) => fields.text(word, &U32Handle(number)),
        (AttributeSet::TcFilterU32, 5) => push_selector(fields, list, word, seen.bytes),
        (AttributeSet::TcFilterU32, 9) => push_hits(fields, seen.bytes),
        (AttributeSet::TcFilterU32, 10) => push_mark(fields, word, seen.bytes),
        (AttributeSet::TcFilterU32, _) => push_places(fields, word, number, PLACES),
        (AttributeSet::TcFilterMatchAll, 4) => push_hit(fields, word, seen.bytes),
        (AttributeSet::TcFilterFw, _) => {
            fields.bits(word, number);
            fields.hide_if(number == u32::MAX)
        }
        (AttributeSet::TcFilterBpf, 3) => push_handle(fields, word, seen.bytes),
        (AttributeSet::TcFilterBpf, 5) => push_program(fields, list, word, seen.bytes),
        (AttributeSet::TcFilterBpf, _) => push_places(fields, word, number, PLACES),
        _ => push_places_below(fields, word, number),
    }
}

/// A handle of a class.
pub fn push_handle(fields: &mut Fields, word: Word, bytes: &[u8]) {
    fields.text(word, &Handle(number_at(bytes, 0)))
}

/// Where a filter works, in lines of their own.
pub fn push_places_below(fields: &mut Fields, word: Word, bits: u32) {
    push_places(fields, word, bits, PLACES_BELOW);
}

/// Where a filter works.
fn push_places(fields: &mut Fields, word: Word, bits: u32, places: Flags) {
    fields.flags(places, bits, Some(true));
    fields.bits(word, bits);
    fields.hide();
}

/// A mark of packets, those bits of it that are looked at, and how often it was that.
fn push_mark(fields: &mut Fields, word: Word, bytes: &[u8]) {
    let (value, mask, taken) = (
        number_at(bytes, 0),
        number_at(bytes, 4),
        number_at(bytes, 8),
    );
    let alloc = fields.manner.alloc;
    fields.text_shown(
        word,
        &manner::Bits(value.into()),
        format!(in alloc; "{value:#06x}"),
    );
    fields.text_shown(
        MARK_MASK,
        &manner::Bits(mask.into()),
        format!(in alloc; "{mask:#06x}"),
    );
    fields.written(MARK_SUCCESSES, taken, format!(in alloc; "{taken})"));
}

/// The table that an element stands in, and its bucket there.
fn push_table(fields: &mut Fields, word: Word, handle: u32) {
    let table = format!(in fields.manner.alloc; "{:x}", handle >> 20);
    fields.made(word, table);
    let bucket = format!(in fields.manner.alloc; "{:x}", handle >> 12 & 0xff);
    fields.made(BUCKET, bucket)
}

/// The keys, each in a line, and what a hash is made of.
fn push_selector(fields: &mut Fields, list: List<'_>, word: Word, bytes: &[u8]) {
    push_parts(fields, list, bytes, SELECTOR);
    push_hash(fields, bytes);
    let counts = match list.first(COUNTERS) {
        Some(seen) => seen.bytes,
        None => &[],
    };
    let mut objects = Fields::new(fields.manner);
    let mut left = bytes.get(FRONT..).unwrap_or(&[]);
    for place in 2..bytes.len() {
        let (Some(key), Some(behind)) = (left.get(..KEY), left.get(KEY..)) else {
            break;
        };
        let mut inside = Fields::new(fields.manner);
        push_key(&mut inside, key, Size::U64.number_in(counts, place));
        objects.object(MATCH, inside);
        left = behind;
    }
    fields.list(word, objects, "");
}

/// What a hash is made of, if of anything.
fn push_hash(fields: &mut Fields, bytes: &[u8]) {
    let alloc = fields.manner.alloc;
    let mask = number_at(bytes, 12).swap_bytes();
    let offset = Size::U16.number_at(bytes, 10).unwrap_or(0);
    if mask != 0 {
        fields.text_shown(
            HASH_MASK,
            &format_args!("{mask:x}"),
            format!(in alloc; "{mask:08x}"),
        );
        fields.number(HASH_OFFSET, offset)
    }
}

/// The value of some bytes of a packet, those bits of it that are looked at, where it stands, and how often
/// it was there.
fn push_key(inside: &mut Fields, key: &[u8], taken: Option<u64>) {
    inside.bytes(VALUE, key.get(4..8).unwrap_or(&[]));
    inside.bytes(MASK, key.get(..4).unwrap_or(&[]));
    let alloc = inside.manner.alloc;
    let (at, mask) = (number_at(key, 8).cast_signed(), number_at(key, 12));
    match mask {
        0 => inside.number(AT, at),
        _ => inside.written(AT, at, format!(in alloc; "nexthdr+{at}")),
    }
    inside.bits(BEHIND, mask);
    inside.hide();
    if let Some(count) = taken {
        inside.written(OF_KEY, count, format!(in alloc; "{count} )"))
    }
}

/// How often a filter was asked, and how often it took a packet. Counts of keys stand with them.
pub fn push_hits(fields: &mut Fields, bytes: &[u8]) {
    let (Some(asked), Some(taken)) = (Size::U64.number_in(bytes, 0), Size::U64.number_in(bytes, 1))
    else {
        return fields.bytes(HITS, bytes);
    };
    fields.number(HITS, asked);
    let text = format!(in fields.manner.alloc; "{taken})");
    fields.written(SUCCESSES, taken, text)
}

/// How often a filter took a packet.
fn push_hit(fields: &mut Fields, word: Word, bytes: &[u8]) {
    match Size::U64.number_at(bytes, 0) {
        Some(count) => {
            let text = format!(in fields.manner.alloc; "{count})");
            fields.written(word, count, text)
        }
        None => fields.bytes(word, bytes),
    }
}
