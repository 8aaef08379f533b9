//! What is shown of the filter basic, and of its extended matches, whose data have no words.

use crate::field::{Fields, Word, Wording};
use crate::list::{List, Seen};
use crate::manner::Hexadecimal;
use crate::names::Names;
use crate::part::{number_at, push_parts};
use crate::row::How::{self, Number, Object, Objects, Own};
use crate::row::Line::{Always, IfAny, Never};
use crate::row::{Parts, Row, Rows, Size};
use crate::traffic_filter::{push_handle, push_hits};
use netlink_packet_route::framing::AttributeSet;

/// Of a filter by extended matches (`TCA_BASIC_*` of `linux/pkt_cls.h`).
pub const BASIC: Rows = crate::rows![
    1 4 "flowid" "flowid " Own;
    2 60 "ematches" "" Object;
    3 90 "actions" "" Objects("", "", "");
    4 89 "police" "\n police" Object;
    5 9 "rule_hit" "" Own;
];

/// Of the matches (`TCA_EMATCH_TREE_*`).
pub const MATCHES: Rows = crate::rows![
    1 0 "" "" Own;
    2 2 "matches" "" Objects("\n  ", "\n  ", ""), IfAny;
];

/// Of a match, whose number in its list is its place.
pub const ANY_MATCH: &Row = &Row {
    number: 0,
    word: &Wording(0, "", ""),
    how: Own,
    line: Always,
};

/// How many there are (`struct tcf_ematch_tree_hdr` of `linux/pkt_cls.h`).
const TREE: Parts = crate::parts![
    U16 0 0 "nmatches" "" Number, Never;
    U16 2 1 "progid" "" Number, Never;
];

/// What stands in front of the data of one (`struct tcf_ematch_hdr`).
const FRONT: Parts = crate::parts![
    U16 0 10 "matchid" "" Number, Never;
    U16 4 11 "flags" "" How::Bits, Never;
];

/// The bytes in front of the data.
const SIZE: usize = 8;

/// What is looked at (`TCF_EM_*` of `linux/pkt_cls.h`).
const KINDS: Names = &[
    (0, "container"),
    (1, "cmp"),
    (2, "nbyte"),
    (3, "u32"),
    (4, "meta"),
    (5, "text"),
    (6, "vlan"),
    (7, "canid"),
    (8, "ipset"),
    (9, "ipt"),
];

/// What a match is to the next (`TCF_EM_REL_*`): the lowest bits of its flags.
const RELATIONS: Names = &[(0, "end"), (1, "and"), (2, "or")];

const RELATION: u32 = 0x3;

/// A match that must not be (`TCF_EM_INVERT`).
const INVERTED: u32 = 0x4;

const NOT: Word = &Wording(0, "not", "NOT");

const KIND: Word = &Wording(1, "kind", "");

const DATA: Word = &Wording(2, "data", "");

const NEXT: Word = &Wording(3, "relation", "");

/// Handles, structures and counters.
pub fn push_own(fields: &mut Fields, list: List<'_>, word: Word, seen: &Seen<'_>) {
    match (list.nest.set, seen.number) {
        (AttributeSet::TcEmatches, _) => push_match(fields, list, seen.bytes),
        (AttributeSet::TcEmatchTree, _) => push_parts(fields, list, seen.bytes, TREE),
        (_, 1) => push_handle(fields, word, seen.bytes),
        _ => push_hits(fields, seen.bytes),
    }
}

/// A match: what is looked at, its data as they are, and what it is to the next one.
fn push_match(fields: &mut Fields, list: List<'_>, bytes: &[u8]) {
    let alloc = fields.manner.alloc;
    let both = number_at(bytes, 2);
    let (kind, flags) = (both & 0xffff, both >> 16);
    let data = Hexadecimal(bytes.get(SIZE..).unwrap_or(&[]), "");
    fields.word_if(NOT, flags & INVERTED != 0);
    match fields.manner.name(KINDS, kind) {
        Some(name) => fields.text_shown(KIND, &name, format!(in alloc; "{name}({data})")),
        None => fields.written(KIND, kind, format!(in alloc; "{kind}({data})")),
    }
    fields.text(DATA, &data);
    fields.hide();
    let relation = flags & RELATION;
    match relation {
        1 => fields.text_shown(NEXT, &"and", String::from_str(alloc, "AND")),
        2 => fields.text_shown(NEXT, &"or", String::from_str(alloc, "OR")),
        _ => fields.named(NEXT, RELATIONS, relation),
    }
    fields.hide_if(relation == 0);
    push_parts(fields, list, bytes, FRONT)
}
