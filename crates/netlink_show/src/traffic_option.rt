//! What is shown of the options of actions: gact, vlan, skbedit, csum, ct, sample and bpf.

use crate::field::{Fields, Flags, Word, Wording};
use crate::list::{List, Seen, small};
use crate::manner::Hexadecimal;
use crate::names::Names;
use crate::part::{number_at, push_parts};
use crate::row::How::{Hardware, Named, Number, Own, Text};
use crate::row::Line::Never;
use crate::row::{Rows, Size};
use crate::traffic::push_frame;
use crate::traffic_action::{GENERIC, TIMES, push_control, push_generic};
use crate::traffic_filter::push_handle;
use crate::traffic_police::push_police;
use crate::traffic_program::push_program;
use crate::traffic_text::Joined;
use crate::value::push_text;
use netlink_packet_route::framing::AttributeSet;

/// Of what says what becomes of packets (`TCA_GACT_*` of `linux/tc_act/tc_gact.h`).
pub const GACT: Rows = crate::rows![
    1 0 "" "" Own;
    2 0 "" "" Own;
    3 12 "prob" "\n\t random type" Own;
];

/// Of what changes tags of VLANs (`TCA_VLAN_*` of `linux/tc_act/tc_vlan.h`).
pub const ACTION_VLAN: Rows = crate::rows![
    1 0 "" "" Own;
    2 0 "vlan_action" "" Own;
    3 1 "id" "id " Number;
    4 2 "protocol" "protocol " Own;
    6 3 "priority" "priority " Number;
    7 4 "dst_mac" "dst_mac " Hardware;
    8 5 "src_mac" "src_mac " Hardware;
];

/// Of what changes what a kernel knows of a packet (`TCA_SKBEDIT_*` of `linux/tc_act/tc_skbedit.h`).
pub const SKBEDIT: Rows = crate::rows![
    1 0 "" "" Own;
    2 0 "" "" Own;
    3 2 "priority" "priority " Own;
    4 0 "queue_mapping" "queue_mapping " Number;
    5 3 "mark" "mark " Number;
    7 5 "ptype" "ptype " Named(FOR_WHOM);
    8 4 "mask" "/" Own;
    9 6 "flags" "" Own;
    10 1 "queue_mapping_max" "queue_mapping_max " Number;
];

/// Of what makes checksums anew (`TCA_CSUM_*` of `linux/tc_act/tc_csum.h`).
pub const CSUM: Rows = crate::rows![
    1 0 "csum" "" Own;
    2 0 "" "" Own;
];

/// Of what has connections followed (`TCA_CT_*` of `linux/tc_act/tc_ct.h`).
pub const CT: Rows = crate::rows![
    1 0 "" "" Own;
    2 0 "" "" Own;
    3 0 "action" "" Own;
    4 3 "zone" "zone " Number;
    5 1 "mark" "mark " Number;
    6 2 "mark_mask" "/" Own;
    7 4 "label" "label " Own;
    8 40 "label_mask" "" Text, Never;
    9 41 "nat_ipv4_min" "" Text, Never;
    10 42 "nat_ipv4_max" "" Text, Never;
    11 43 "nat_ipv6_min" "" Text, Never;
    12 44 "nat_ipv6_max" "" Text, Never;
    13 45 "nat_port_min" "" Number, Never;
    14 46 "nat_port_max" "" Number, Never;
    16 6 "helper" "helper " Own;
    17 47 "helper_family" "" Number, Never;
    18 48 "helper_proto" "" Number, Never;
];

/// Of what tells of some packets (`TCA_SAMPLE_*` of `linux/tc_act/tc_sample.h`).
pub const SAMPLE: Rows = crate::rows![
    1 0 "" "" Own;
    2 0 "" "" Own;
    3 0 "rate" "rate 1/" Number;
    4 2 "trunc_size" "trunc_size " Number;
    5 1 "group" "group " Number;
];

/// Of what runs a program (`TCA_ACT_BPF_*` of `linux/tc_act/tc_bpf.h`).
pub const ACTION_BPF: Rows = crate::rows![
    1 0 "" "" Own;
    2 0 "" "" Own;
    3 40 "ops_len" "" Number, Never;
    4 0 "bytecode" "" Own;
    5 41 "fd" "fd " Number;
    6 1 "bpf_name" "" Text;
    8 3 "tag" "tag " Text;
    9 2 "id" "id " Number;
];

/// How packets are chosen (`PGACT_*` of `linux/tc_act/tc_gact.h`).
const CHOICES: Names = &[(0, "none"), (1, "netrand"), (2, "determ")];

/// What becomes of tags (`TCA_VLAN_ACT_*` of `linux/tc_act/tc_vlan.h`).
const TAGS: Names = &[
    (1, "pop"),
    (2, "push"),
    (3, "modify"),
    (4, "pop_eth"),
    (5, "push_eth"),
];

/// Whom a packet is for (`PACKET_*` of `linux/if_packet.h`).
const FOR_WHOM: Names = &[
    (0, "host"),
    (1, "broadcast"),
    (2, "multicast"),
    (3, "otherhost"),
];

/// What else is set (`SKBEDIT_F_*` of `linux/tc_act/tc_skbedit.h`).
const SETTINGS: Flags = &[
    (0x20, &Wording(6, "inheritdsfield", "inheritdsfield")),
    (0x40, &Wording(6, "txq_skbhash", "txq_skbhash")),
];

/// Checksums (`TCA_CSUM_UPDATE_FLAG_*` of `linux/tc_act/tc_csum.h`).
const CHECKSUMS: Names = &[
    (0x1, "iph"),
    (0x2, "icmp"),
    (0x4, "igmp"),
    (0x8, "tcp"),
    (0x10, "udp"),
    (0x20, "udplite"),
    (0x40, "sctp"),
];

/// What is done with a connection (`TCA_CT_ACT_*` of `linux/tc_act/tc_ct.h`).
const CONNECTIONS: Names = &[(0x1, "commit"), (0x2, "force"), (0x4, "clear")];

/// Its addresses are changed, and those of which end.
const NAT: u32 = 0x8;

const NAT_SRC: u32 = 0x10;

const NAT_DST: u32 = 0x20;

const FAMILIES: Names = &[(2, "ipv4"), (10, "ipv6")];

const PROTOCOLS: Names = &[(6, "tcp"), (17, "udp")];

pub const ACTION: Word = &Wording(10, "control_action", "action");

const DEFAULT: Word = &Wording(10, "control_action", "default-action");

const CHANCE: Word = &Wording(12, "prob", "\n\t random type");

const CHOICE: Word = &Wording(0, "random_type", "");

const CHOSEN: Word = &Wording(1, "control_action", "");

const PLACE: Word = &Wording(2, "val", "val ");

const TRANSLATED: Word = &Wording(5, "nat", "nat ");

const END: Word = &Wording(0, "", "");

const FIRST: Word = &Wording(1, "", "addr ");

const LAST: Word = &Wording(2, "", "-");

const FIRST_PORT: Word = &Wording(3, "", "port ");

const LAST_PORT: Word = &Wording(4, "", "-");

/// Structures, and numbers with names.
pub fn push_own(fields: &mut Fields, list: List<'_>, word: Word, seen: &Seen<'_>) {
    match list.nest.set {
        AttributeSet::TcActionGact => push_gact(fields, list, word, seen),
        AttributeSet::TcActionPolice => push_police(fields, list, word, seen),
        AttributeSet::TcActionVlan => push_vlan(fields, list, word, seen),
        AttributeSet::TcActionSkbedit => push_skbedit(fields, list, word, seen),
        AttributeSet::TcActionCsum => push_csum(fields, list, word, seen),
        AttributeSet::TcActionCt => push_ct(fields, list, word, seen),
        AttributeSet::TcActionBpf => push_bpf(fields, list, word, seen),
        _ => push_sample(fields, list, seen),
    }
}

/// What every action has, with a word in front of what becomes of a packet.
pub fn push_generic_by(fields: &mut Fields, list: List<'_>, word: Word, bytes: &[u8]) {
    push_control(fields, word, number_at(bytes, 8));
    push_parts(fields, list, bytes, GENERIC)
}

/// What becomes of packets, and what of some of them.
fn push_gact(fields: &mut Fields, list: List<'_>, word: Word, seen: &Seen<'_>) {
    match seen.number {
        1 => push_parts(fields, list, seen.bytes, TIMES),
        2 => {
            push_generic_by(fields, list, ACTION, seen.bytes);
            if !list.has(3) {
                push_chance(fields, CHANCE, &[])
            }
        }
        _ => push_chance(fields, word, seen.bytes),
    }
}

/// How some packets are chosen, and what becomes of these.
fn push_chance(fields: &mut Fields, word: Word, bytes: &[u8]) {
    let both = number_at(bytes, 0);
    let mut inside = Fields::new(fields.manner);
    inside.named(CHOICE, CHOICES, both & 0xffff);
    push_control(&mut inside, CHOSEN, number_at(bytes, 4));
    inside.number(PLACE, both >> 16);
    fields.object(word, inside)
}

/// The bytes of the first attribute of this number.
pub fn bytes_in<'a>(list: List<'a>, number: u16) -> &'a [u8] {
    match list.first(number) {
        Some(seen) => seen.bytes,
        None => &[],
    }
}

/// What becomes of the tag of a VLAN.
fn push_vlan(fields: &mut Fields, list: List<'_>, word: Word, seen: &Seen<'_>) {
    match seen.number {
        1 => push_parts(fields, list, seen.bytes, TIMES),
        2 => {
            fields.named(word, TAGS, number_at(seen.bytes, 20));
            push_generic(fields, list, seen.bytes)
        }
        _ => push_frame(fields, word, small(&seen.value)),
    }
}

/// What a kernel knows of a packet.
fn push_skbedit(fields: &mut Fields, list: List<'_>, word: Word, seen: &Seen<'_>) {
    match seen.number {
        1 => push_parts(fields, list, seen.bytes, TIMES),
        2 => push_generic(fields, list, seen.bytes),
        3 => push_handle(fields, word, seen.bytes),
        8 => push_mask(fields, word, small(&seen.value)),
        _ => {
            fields.flags(SETTINGS, number_at(seen.bytes, 0), None);
            fields.bits(word, Size::U64.number_at(seen.bytes, 0).unwrap_or(0));
            fields.hide()
        }
    }
}

/// A mask, whose digits stand alone in JSON.
fn push_mask(fields: &mut Fields, word: Word, mask: u32) {
    let text = format!(in fields.manner.alloc; "{mask:#x}");
    fields.text_shown(word, &format_args!("{mask:x}"), text)
}

/// Which checksums are made anew.
fn push_csum(fields: &mut Fields, list: List<'_>, word: Word, seen: &Seen<'_>) {
    if seen.number == 2 {
        return push_parts(fields, list, seen.bytes, TIMES);
    }
    let names = Joined(CHECKSUMS, number_at(seen.bytes, 20), ", ");
    let text = format!(in fields.manner.alloc; "({names})");
    fields.text_shown(word, &names, text);
    push_generic_by(fields, list, ACTION, seen.bytes)
}

/// What is done with a connection.
fn push_ct(fields: &mut Fields, list: List<'_>, word: Word, seen: &Seen<'_>) {
    match seen.number {
        1 => push_generic(fields, list, seen.bytes),
        2 => push_parts(fields, list, seen.bytes, TIMES),
        3 => push_connection(fields, list, word, small(&seen.value)),
        6 => push_mask(fields, word, small(&seen.value)),
        7 => {
            let (label, mask) = (
                Hexadecimal(seen.bytes, ""),
                Hexadecimal(bytes_in(list, 8), ""),
            );
            match list.has(8) {
                true => fields.made(word, format!(in fields.manner.alloc; "{label}/{mask}")),
                false => fields.text(word, &label),
            }
        }
        _ => push_helper(fields, list, word, seen),
    }
}

/// What is done with it, and which addresses it gets.
fn push_connection(fields: &mut Fields, list: List<'_>, word: Word, bits: u32) {
    if bits & 0x7 != 0 {
        fields.text(word, &Joined(CONNECTIONS, bits, " "));
    }
    if bits & NAT == 0 {
        return;
    }
    let mut inside = Fields::new(fields.manner);
    match (bits & NAT_SRC, bits & NAT_DST) {
        (0, 0) => {}
        (0, _) => inside.text(END, &"dst"),
        _ => inside.text(END, &"src"),
    }
    push_address(&mut inside, list, FIRST, (9, 11));
    push_address(&mut inside, list, LAST, (10, 12));
    push_port(&mut inside, FIRST_PORT, list.number_if(13));
    push_port(&mut inside, LAST_PORT, list.number_if(14));
    let text = inside.line("", " ");
    fields.made(TRANSLATED, text)
}

/// An address, of version 4 or else of version 6, by the numbers of both.
fn push_address(inside: &mut Fields, list: List<'_>, word: Word, numbers: (u16, u16)) {
    let (ip4, ip6) = numbers;
    match (list.first(ip4), list.first(ip6)) {
        (Some(seen), _) => push_text(inside, word, &seen.value),
        (None, Some(seen)) => push_text(inside, word, &seen.value),
        (None, None) => {}
    }
}

/// A port, if there is one.
fn push_port(inside: &mut Fields, word: Word, port: Option<u32>) {
    if let Some(port) = port {
        inside.number(word, port)
    }
}

/// The helper of a connection: for which addresses, over which protocol, and its name.
fn push_helper(fields: &mut Fields, list: List<'_>, word: Word, seen: &Seen<'_>) {
    let alloc = fields.manner.alloc;
    let (family, protocol) = (list.number(17), list.number(18));
    let names = (
        fields.manner.name(FAMILIES, family),
        fields.manner.name(PROTOCOLS, protocol),
    );
    let name = list.name(16).unwrap_or("");
    let text = match names {
        (Some(family), Some(protocol)) => format!(in alloc; "{family}-{protocol}-{name}"),
        _ => format!(in alloc; "{family}-{protocol}-{name}"),
    };
    fields.made(word, text);
    fields.hide_if(seen.bytes.is_empty())
}

/// A program.
fn push_bpf(fields: &mut Fields, list: List<'_>, word: Word, seen: &Seen<'_>) {
    match seen.number {
        1 => push_parts(fields, list, seen.bytes, TIMES),
        2 => push_generic_by(fields, list, DEFAULT, seen.bytes),
        _ => push_program(fields, list, word, seen.bytes),
    }
}

/// What tells of some packets.
fn push_sample(fields: &mut Fields, list: List<'_>, seen: &Seen<'_>) {
    match seen.number {
        1 => push_parts(fields, list, seen.bytes, TIMES),
        _ => push_generic(fields, list, seen.bytes),
    }
}
