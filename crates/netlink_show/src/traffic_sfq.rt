//! What is shown of sfq, whose data are a structure that grew.

use crate::field::{Fields, Flags, Word, Wording};
use crate::list::List;
use crate::part::{number_at, push_parts};
use crate::row::How::{Number, Signed};
use crate::row::Line::Never;
use crate::row::Parts;
use crate::traffic_share::push_share;
use crate::traffic_text::Bytes;

/// What it counts of a flow (`struct tc_sfq_xstats` of `linux/pkt_sched.h`).
pub const SFQ_COUNTS: Parts = crate::parts![
    U32 0 30 "allot" "" Signed, Never;
];

/// What it counts of packets that it drops or marks (`struct tc_sfq_qopt_v1`).
const DROPPED: Parts = crate::parts![
    U32 56 40 "prob_mark" "" Number, Never;
    U32 64 41 "prob_mark_head" "" Number, Never;
    U32 48 42 "prob_drop" "" Number, Never;
    U32 60 43 "forced_mark" "" Number, Never;
    U32 68 44 "forced_mark_head" "" Number, Never;
    U32 52 45 "forced_drop" "" Number, Never;
    U32 28 46 "red_limit" "" Number, Never;
];

/// The words of what is so of it (`TC_RED_*`).
const HOW: Flags = &[
    (0x1, &Wording(20, "ecn", "ecn")),
    (0x2, &Wording(21, "harddrop", "harddrop")),
    (0x4, &Wording(22, "adaptive", "adaptive")),
    (0x8, &Wording(23, "nodrop", "nodrop")),
];

const LIMIT: Word = &Wording(0, "limit", "limit ");

const QUANTUM: Word = &Wording(1, "quantum", "quantum ");

const DEPTH: Word = &Wording(2, "depth", "depth ");

const HEAD: Word = &Wording(3, "headdrop", "headdrop");

const FLOWS: Word = &Wording(4, "flows", "flows ");

const DIVISOR: Word = &Wording(5, "divisor", "divisor ");

const PERTURB: Word = &Wording(6, "perturb", "perturb ");

const WEIGHT: Word = &Wording(7, "ewma", "ewma ");

const FROM: Word = &Wording(8, "min", "min ");

const UP_TO: Word = &Wording(9, "max", "max ");

const LIKELY: Word = &Wording(10, "probability", "probability ");

const PLOG: Word = &Wording(50, "Plog", "");

const CELL: Word = &Wording(51, "Scell_log", "");

/// How many flows it tells apart, and how much of one may wait (`struct tc_sfq_qopt`, and behind it
/// `struct tc_sfq_qopt_v1`).
pub fn push_sfq(fields: &mut Fields, list: List<'_>, bytes: &[u8]) {
    let alloc = fields.manner.alloc;
    let (quantum, limit) = (number_at(bytes, 0), number_at(bytes, 8));
    fields.written(LIMIT, limit, format!(in alloc; "{limit}p"));
    fields.push(QUANTUM, quantum, &Bytes(quantum));
    let depth = number_at(bytes, 20);
    if depth != 0 {
        fields.number(DEPTH, depth);
    }
    if number_at(bytes, 24) != 0 {
        fields.truth(HEAD, true);
    }
    fields.number(FLOWS, number_at(bytes, 16));
    fields.number(DIVISOR, number_at(bytes, 12));
    let perturb = number_at(bytes, 4).cast_signed();
    if perturb != 0 {
        fields.seconds(PERTURB, perturb);
    }
    if number_at(bytes, 32) != 0 {
        push_red(fields, list, bytes)
    }
}

/// When it drops packets before there is no room for more.
fn push_red(fields: &mut Fields, list: List<'_>, bytes: &[u8]) {
    let (from, up_to) = (number_at(bytes, 32), number_at(bytes, 36));
    let [weight, plog, cell, flags] = number_at(bytes, 40).to_le_bytes();
    fields.number(WEIGHT, weight);
    fields.push(FROM, from, &Bytes(from));
    fields.push(UP_TO, up_to, &Bytes(up_to));
    push_share(fields, LIKELY, number_at(bytes, 44));
    for (bit, word) in HOW {
        fields.word_if(*word, u32::from(flags) & *bit != 0);
    }
    push_parts(fields, list, bytes, DROPPED);
    fields.number(PLOG, plog);
    fields.hide();
    fields.number(CELL, cell);
    fields.hide()
}
