//! What is shown of options of tunnels: those that an action sets, and those that a filter looks at.

use crate::field::{Fields, ITEM, Word, Wording};
use crate::list::{List, Seen, small, wide};
use crate::row::How::{Apart, Number, Text};
use crate::row::Rows;
use crate::walk::{push_nameless, push_unknown_rows};
use netlink_packet_route::framing::{NlaBuffer, NlasIterator};

/// Of options, of one kind each (`TCA_FLOWER_KEY_ENC_OPTS_*` of `linux/pkt_cls.h`). Those of a kind stand
/// together, however many attributes have them.
pub const ENC: Rows = crate::rows![
    1 0 "" "" Apart;
    2 0 "" "" Apart;
    3 0 "" "" Apart;
    4 0 "" "" Apart;
    5 0 "" "" Apart;
];

/// Of those of Geneve (`TCA_FLOWER_KEY_ENC_OPT_GENEVE_*`).
pub const ENC_GENEVE: Rows = crate::rows![
    1 0 "class" "" Number;
    2 1 "type" ":" Number;
    3 2 "data" ":" Text;
];

/// Of those of VXLAN (`TCA_FLOWER_KEY_ENC_OPT_VXLAN_*`).
pub const ENC_VXLAN: Rows = crate::rows![
    1 0 "gbp" "" Number;
];

/// Of those of ERSPAN (`TCA_FLOWER_KEY_ENC_OPT_ERSPAN_*`).
pub const ENC_ERSPAN: Rows = crate::rows![
    1 0 "ver" "" Number;
    2 1 "index" ":" Number;
    3 2 "dir" ":" Number;
    4 3 "hwid" ":" Number;
];

/// Of those of GTP (`TCA_FLOWER_KEY_ENC_OPT_GTP_*`).
pub const ENC_GTP: Rows = crate::rows![
    1 0 "pdu_type" "" Number;
    2 1 "qfi" ":" Number;
];

/// Of those of PFCP (`TCA_FLOWER_KEY_ENC_OPT_PFCP_*`).
pub const ENC_PFCP: Rows = crate::rows![
    1 0 "type" "" Number;
    2 1 "seid" ":" Number;
];

/// The kinds, and the words of an action for what it sets.
const OF_ACTION: &[(u16, Word)] = &[
    (GENEVE, &Wording(5, "geneve_opts", "\n\tgeneve_opts ")),
    (VXLAN, &Wording(5, "vxlan_opts", "\n\tvxlan_opts ")),
    (ERSPAN, &Wording(5, "erspan_opts", "\n\terspan_opts ")),
    (GTP, &Wording(5, "gtp_opts", "\n\tgtp_opts ")),
    (PFCP, &Wording(5, "pfcp_opts", "\n\tpfcp_opts ")),
];

/// The kinds, and the words of a filter for what it looks at and for which bits of that.
const OF_FILTER: &[(u16, Word, Word)] = &[
    (
        GENEVE,
        &Wording(48, "geneve_opt_key", "\n  geneve_opts "),
        &Wording(48, "geneve_opt_mask", "/"),
    ),
    (
        VXLAN,
        &Wording(48, "vxlan_opt_key", "\n  vxlan_opts "),
        &Wording(48, "vxlan_opt_mask", "/"),
    ),
    (
        ERSPAN,
        &Wording(48, "erspan_opt_key", "\n  erspan_opts "),
        &Wording(48, "erspan_opt_mask", "/"),
    ),
    (
        GTP,
        &Wording(48, "gtp_opt_key", "\n  gtp_opts "),
        &Wording(48, "gtp_opt_mask", "/"),
    ),
    (
        PFCP,
        &Wording(48, "pfcp_opt_key", "\n  pfcp_opts "),
        &Wording(48, "pfcp_opt_mask", "/"),
    ),
];

/// The number of each kind (`TCA_FLOWER_KEY_ENC_OPTS_*`).
const GENEVE: u16 = 1;

const VXLAN: u16 = 2;

const ERSPAN: u16 = 3;

const GTP: u16 = 4;

const PFCP: u16 = 5;

/// The number of the attribute of a filter that says which bits count (`TCA_FLOWER_KEY_ENC_OPTS_MASK`).
const TCA_FLOWER_KEY_ENC_OPTS_MASK: u16 = 85;

const CLASS: Word = &Wording(0, "class", "");

const TYPE_BEHIND: Word = &Wording(1, "type", ":");

const DATA: Word = &Wording(2, "data", ":");

const GROUP: Word = &Wording(0, "gbp", "");

const VERSION: Word = &Wording(0, "ver", "");

const INDEX: Word = &Wording(1, "index", ":");

const DIRECTION: Word = &Wording(2, "dir", ":");

const DEVICE: Word = &Wording(3, "hwid", ":");

const PACKET: Word = &Wording(0, "pdu_type", "");

const FLOW: Word = &Wording(1, "qfi", ":");

const TYPE: Word = &Wording(0, "type", "");

const SESSION: Word = &Wording(1, "seid", ":");

/// The options that an action sets, but for those of kinds that nobody knows.
pub fn push_beside(fields: &mut Fields, list: List<'_>) {
    for (number, word) in OF_ACTION {
        push_kind(fields, *word, list, *number);
    }
}

/// The options that a filter looks at, and which of their bits count.
pub fn push_looked_at(fields: &mut Fields, list: List<'_>, seen: &Seen<'_>) {
    let Some(keys) = list.inside(seen) else {
        return;
    };
    let masks = list.first_inside(TCA_FLOWER_KEY_ENC_OPTS_MASK);
    for (number, key, mask) in OF_FILTER {
        push_kind(fields, *key, keys, *number);
        if let Some(masks) = masks {
            push_kind(fields, *mask, masks, *number);
        }
    }
    push_unknown_rows(fields, keys, ENC);
}

/// The options of one kind, if there are some.
fn push_kind(fields: &mut Fields, word: Word, list: List<'_>, number: u16) {
    let mut objects = Fields::new(fields.manner);
    for next in NlasIterator::new(list.bytes) {
        let Ok(item) = next else {
            break;
        };
        if item.kind() == number {
            if let Some(inner) = list.inside_of(&item) {
                push_options(&mut objects, inner, number);
            }
        }
    }
    if !objects.is_empty() {
        fields.list(word, objects, ",")
    }
}

/// The options of a kind in a list, each as an object.
fn push_options(objects: &mut Fields, list: List<'_>, kind: u16) {
    if kind == GENEVE {
        return push_geneve(objects, list);
    }
    let mut inside = Fields::new(objects.manner);
    let known = match kind {
        VXLAN => {
            inside.number(GROUP, list.number(1));
            ENC_VXLAN
        }
        ERSPAN => {
            push_erspan(&mut inside, list);
            ENC_ERSPAN
        }
        GTP => {
            push_digits(&mut inside, PACKET, list.number(1));
            push_digits(&mut inside, FLOW, list.number(2));
            ENC_GTP
        }
        _ => {
            push_digits(&mut inside, TYPE, list.number(1));
            push_session(&mut inside, list);
            ENC_PFCP
        }
    };
    push_unknown_rows(&mut inside, list, known);
    objects.object(ITEM, inside)
}

/// Options of Geneve, each of which begins with its class.
fn push_geneve(objects: &mut Fields, list: List<'_>) {
    let mut inside = Fields::new(objects.manner);
    for next in NlasIterator::new(list.bytes) {
        let Ok(item) = next else {
            break;
        };
        if item.kind() == 1 && !inside.is_empty() {
            objects.object(ITEM, inside);
            inside = Fields::new(objects.manner);
        }
        push_of_geneve(&mut inside, list, &item);
    }
    if !inside.is_empty() {
        objects.object(ITEM, inside)
    }
}

/// A part of one of them.
fn push_of_geneve<'a>(inside: &mut Fields, list: List<'a>, item: &NlaBuffer<'a>) {
    let alloc = inside.manner.alloc;
    match (item.kind(), list.seen(item)) {
        (1, Some(seen)) => {
            let class = small(&seen.value);
            inside.written(CLASS, class, format!(in alloc; "{class:04x}"))
        }
        (2, Some(seen)) => push_digits(inside, TYPE_BEHIND, small(&seen.value)),
        (3, Some(seen)) => {
            let mut bytes = Fields::new(inside.manner);
            for byte in seen.bytes {
                push_digits(&mut bytes, ITEM, u32::from(*byte));
            }
            inside.list(DATA, bytes, "")
        }
        _ => push_nameless(inside, list, item),
    }
}

/// An option of ERSPAN: of each version some parts are 0.
fn push_erspan(inside: &mut Fields, list: List<'_>) {
    inside.number(VERSION, list.number(1));
    inside.number(INDEX, list.number(2));
    inside.number(DIRECTION, list.number(3));
    inside.number(DEVICE, list.number(4))
}

/// The session of an option of PFCP.
fn push_session(inside: &mut Fields, list: List<'_>) {
    let session = match list.first(2) {
        Some(seen) => wide(&seen.value),
        None => 0,
    };
    let text = format!(in inside.manner.alloc; "{session:x}");
    inside.written(SESSION, session, text)
}

/// A number of one byte, of which a line has two digits.
fn push_digits(inside: &mut Fields, word: Word, number: u32) {
    let text = format!(in inside.manner.alloc; "{number:02x}");
    inside.written(word, number, text)
}
