//! What is shown of actions: of the list that they stand in, and of mirred, nat and tunnel_key.

use crate::field::{Fields, Flags, ITEM, Word, Wording};
use crate::list::{List, Seen, small};
use crate::manner::Hexadecimal;
use crate::names::Names;
use crate::part::{number_at, push_parts};
use crate::row::How::{Apart, Data, Flat, Hundredths, Number, Object, Own, Text, Truth};
use crate::row::Line::{Always, Never};
use crate::row::{Parts, Row, Rows};
use crate::traffic_text::prefix_of;
use netlink_packet_route::framing::AttributeSet;
use netlink_packet_route::net::Ipv4Addr;

/// Of an action, whose number in its list is its place.
pub const ANY_ACTION: &Row = &Row {
    number: 0,
    word: &Wording(0, "", ""),
    how: Flat,
    line: Always,
};

/// Of what every action has (`TCA_ACT_*` of `linux/pkt_cls.h`).
pub const ACTION: Rows = crate::rows![
    1 1 "kind" ": " Text;
    2 2 "options" "" Data(OPTIONS);
    3 20 "index" "index " Number;
    4 40 "stats" "" Object, Never;
    6 23 "cookie" "\n\tcookie " Text;
    7 24 "flags" "" Own;
    8 27 "hw_stats" "hw_stats " Own;
    9 28 "used_hw_stats" "used_hw_stats " Own;
    10 25 "in_hw_count" "" Own;
];

/// Of what copies packets or sends them elsewhere (`TCA_MIRRED_*` of `linux/tc_act/tc_mirred.h`).
pub const MIRROR: Rows = crate::rows![
    1 0 "" "" Own;
    2 3 "mirred_action" "" Own;
    4 0 "" "" Apart;
];

/// Of what changes addresses (`TCA_NAT_*` of `linux/tc_act/tc_nat.h`).
pub const NAT: Rows = crate::rows![
    1 0 "direction" "" Own;
    2 0 "" "" Own;
];

/// Of what says which tunnel packets take (`TCA_TUNNEL_KEY_*` of `linux/tc_act/tc_tunnel_key.h`).
pub const TUNNEL_KEY: Rows = crate::rows![
    1 0 "" "" Own;
    2 0 "mode" "" Own;
    3 1 "src_ip" "\n\tsrc_ip " Text;
    4 2 "dst_ip" "\n\tdst_ip " Text;
    5 1 "src_ip" "\n\tsrc_ip " Text;
    6 2 "dst_ip" "\n\tdst_ip " Text;
    7 3 "key_id" "\n\tkey_id " Number;
    9 4 "dst_port" "\n\tdst_port " Number;
    10 6 "flag" "\n\t" Own;
    11 0 "" "" Flat;
    12 8 "tos" "\n\ttos " Own;
    13 9 "ttl" "\n\tttl " Number;
    14 7 "nofrag" "\n\tnofrag" Truth;
];

/// How an action was made (`TCA_ACT_FLAGS_*` of `linux/pkt_cls.h`).
const FLAGS: Flags = &[
    (0x1, &Wording(24, "no_percpu", "no_percpu")),
    (0x2, &Wording(24, "skip_hw", "skip_hw")),
    (0x4, &Wording(24, "skip_sw", "skip_sw")),
];

/// Who counts what went by (`TCA_ACT_HW_STATS_*`).
const COUNTED: Names = &[(0x1, "immediate"), (0x2, "delayed")];

/// What becomes of a packet (`TC_ACT_*` of `linux/pkt_cls.h`).
const CONTROLS: Names = &[
    (u32::MAX, "continue"),
    (0, "pass"),
    (1, "reclassify"),
    (2, "drop"),
    (3, "pipe"),
    (4, "stolen"),
    (5, "queued"),
    (6, "repeat"),
    (7, "redirect"),
    (8, "trap"),
];

/// Jumps over actions, and to chains: the number behind the first four bits says how far.
const JUMP: u32 = 1;

const GOTO: u32 = 2;

/// What every action has in front of its own (`tc_gen` of `linux/pkt_cls.h`), but for what it does.
pub const GENERIC: Parts = crate::parts![
    U32 0 20 "index" "\n\tindex " Number;
    U32 12 21 "ref" "ref " Number;
    U32 16 22 "bind" "bind " Number;
];

/// When it was made and used, in hundredths of a second (`struct tcf_t` of `linux/pkt_cls.h`).
pub const TIMES: Parts = crate::parts![
    U64 0 30 "installed" "" Hundredths, Never;
    U64 8 31 "last_used" "" Hundredths, Never;
    U64 24 32 "first_used" "" Hundredths, Never;
    U64 16 33 "expires" "" Hundredths, Never;
];

const OPTIONS: Word = &Wording(2, "options", "options ");

const ORDER: Word = &Wording(0, "order", "\n\taction order ");

const CONTROL: Word = &Wording(10, "control_action", "");

const TYPE: Word = &Wording(0, "type", "");

const CHAIN: Word = &Wording(1, "chain", "chain ");

const COUNT: Word = &Wording(1, "jump", "");

const DIRECTION: Word = &Wording(2, "direction", "(");

const DEVICE: Word = &Wording(4, "to_dev", "to device ");

const TO_BLOCK: Word = &Wording(4, "to_blockid", "to blockid ");

const OLD: Word = &Wording(1, "old_addr", "");

const NEW: Word = &Wording(2, "new_addr", "");

const IN_DEVICE: Word = &Wording(25, "in_hw", "in_hw");

const NOT_IN_DEVICE: Word = &Wording(25, "not_in_hw", "not_in_hw");

const DEVICES: Word = &Wording(26, "in_hw_count", "in_hw_count ");

/// A word for JSON and one for a line.
type Words = (&'static str, &'static str);

const OUT: Words = ("egress", "Egress");

const IN: Words = ("ingress", "Ingress");

const REDIRECT: Words = ("redirect", "Redirect");

const MIRRORED: Words = ("mirror", "Mirror");

/// What stands in front of an element of a list: of an action its place.
pub fn push_order(inside: &mut Fields, list: List<'_>, number: u16) {
    if let AttributeSet::TcActions = list.nest.set {
        inside.number(ORDER, number);
    }
}

/// Structures, and numbers with names.
pub fn push_own(fields: &mut Fields, list: List<'_>, word: Word, seen: &Seen<'_>) {
    match (list.nest.set, seen.number) {
        (AttributeSet::TcAction, _) => push_of_action(fields, word, seen),
        (AttributeSet::TcActionMirror, 2) => push_mirror(fields, list, word, seen.bytes),
        (AttributeSet::TcActionNat, 1) => push_nat(fields, list, word, seen.bytes),
        (AttributeSet::TcActionTunnelKey, 2) => push_mode(fields, list, word, seen.bytes),
        (AttributeSet::TcActionTunnelKey, 10) => {
            let is_without = small(&seen.value) != 0;
            fields.text(word, &(if is_without { "nocsum" } else { "csum" }))
        }
        (AttributeSet::TcActionTunnelKey, 12) => {
            let number = small(&seen.value);
            let text = format!(in fields.manner.alloc; "{number:#x}");
            fields.written(word, number, text)
        }
        _ => push_parts(fields, list, seen.bytes, TIMES),
    }
}

/// Of what every action has.
fn push_of_action(fields: &mut Fields, word: Word, seen: &Seen<'_>) {
    let bits = number_at(seen.bytes, 0);
    match (seen.number, bits) {
        (7, _) => {
            fields.flags(FLAGS, bits, Some(true));
            fields.bits(word, bits);
            fields.hide()
        }
        (8 | 9, 0) => {
            let mut inside = Fields::new(fields.manner);
            inside.text(ITEM, &"disabled");
            fields.list(word, inside, " ")
        }
        (8 | 9, _) => fields.set(word, COUNTED, bits, " "),
        (_, 0) => fields.truth(NOT_IN_DEVICE, true),
        _ => {
            fields.truth(IN_DEVICE, true);
            fields.number(DEVICES, bits)
        }
    }
}

/// What becomes of a packet, and what every action says of itself.
pub fn push_generic(fields: &mut Fields, list: List<'_>, bytes: &[u8]) {
    push_control(fields, CONTROL, number_at(bytes, 8));
    push_parts(fields, list, bytes, GENERIC);
}

/// What becomes of a packet.
pub fn push_control(fields: &mut Fields, word: Word, action: u32) {
    push_control_by(fields, word, TYPE, action)
}

/// The same, by this word for the type.
pub fn push_control_by(fields: &mut Fields, word: Word, kind: Word, action: u32) {
    let mut inside = Fields::new(fields.manner);
    let far = action & 0x0fff_ffff;
    match action >> 28 {
        JUMP => {
            inside.text(kind, &"jump");
            inside.number(COUNT, far)
        }
        GOTO => {
            inside.text(kind, &"goto");
            inside.number(CHAIN, far)
        }
        _ => inside.named(kind, CONTROLS, action),
    }
    fields.object(word, inside);
}

/// Where packets go, and whether they are copied.
fn push_mirror(fields: &mut Fields, list: List<'_>, word: Word, bytes: &[u8]) {
    let alloc = fields.manner.alloc;
    match number_at(bytes, 20) {
        1 => push_way(fields, word, OUT, REDIRECT),
        2 => push_way(fields, word, OUT, MIRRORED),
        3 => push_way(fields, word, IN, REDIRECT),
        4 => push_way(fields, word, IN, MIRRORED),
        other => fields.number(word, other),
    }
    match list.number_if(4) {
        Some(block) => fields.written(TO_BLOCK, block, format!(in alloc; "{block})")),
        None => push_device(fields, number_at(bytes, 24)),
    }
    push_generic(fields, list, bytes)
}

/// A device, at the end of what a line has in brackets.
fn push_device(fields: &mut Fields, index: u32) {
    let alloc = fields.manner.alloc;
    match fields.manner.interface(index) {
        Some(name) => fields.text_shown(DEVICE, &name, format!(in alloc; "{name})")),
        None => fields.written(DEVICE, index, format!(in alloc; "{index})")),
    }
}

/// Which way, and what is done, in words for JSON and for a line.
fn push_way(fields: &mut Fields, word: Word, way: Words, done: Words) {
    let alloc = fields.manner.alloc;
    fields.text_shown(DIRECTION, &way.0, String::from_str(alloc, way.1));
    fields.text_shown(word, &done.0, String::from_str(alloc, done.1));
}

/// Which addresses become which.
fn push_nat(fields: &mut Fields, list: List<'_>, word: Word, bytes: &[u8]) {
    let is_out = number_at(bytes, 32) & 1 != 0;
    fields.text(word, &(if is_out { "egress" } else { "ingress" }));
    let mask = bytes.get(28..32).unwrap_or(&[]);
    let old = Ipv4Addr::from(number_at(bytes, 20).to_le_bytes());
    let text = match prefix_of(mask) {
        Some(32) => format!(in fields.manner.alloc; "{old}"),
        Some(length) => format!(in fields.manner.alloc; "{old}/{length}"),
        None => format!(in fields.manner.alloc; "{old}/{}", Hexadecimal(mask, "")),
    };
    fields.made(OLD, text);
    fields.text(NEW, &Ipv4Addr::from(number_at(bytes, 24).to_le_bytes()));
    push_generic(fields, list, bytes)
}

/// Whether packets take a tunnel, or leave one.
fn push_mode(fields: &mut Fields, list: List<'_>, word: Word, bytes: &[u8]) {
    match number_at(bytes, 20) {
        1 => fields.text(word, &"set"),
        2 => fields.text(word, &"unset"),
        other => fields.number(word, other),
    }
    push_generic(fields, list, bytes)
}
