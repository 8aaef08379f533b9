//! What is shown of a rule.

use crate::attribute::{RealmWords, push_ip_number, push_realm};
use crate::field::{self, Fields, Word, Wording};
use crate::list::{Head, List, Seen, small};
use crate::manner::Inet;
use crate::names::{PROTOCOLS, TABLES, TYPES};
use crate::part::push_parts;
use crate::row::How::{Bits, Group, Lone, Named, Number, Own, Signed, Text};
use crate::row::Line::{IfAny, Not};
use crate::row::{ANY, Parts, Rows};
use crate::walk::push_list;
use netlink_packet_route::MessageKind;
use netlink_packet_route::framing::Value;
use netlink_packet_route::net::IpAddr;
use netlink_packet_route::route::RouteRealm;
use netlink_packet_route::rule::{RuleMessageBuffer, RulePortRange};

/// Of a rule.
pub const RULE: Rows = crate::rows![
    1 6 "dst" "to " Own;
    2 4 "src" "from " Own;
    3 11 "iif" "iif " Text;
    4 35 "goto" "goto " Number;
    6 2 "priority" "" Own;
    10 9 "fwmark" "fwmark " Bits;
    11 33 "flow_from" "realms " Own;
    12 25 "tun_id" "tun_id " Number;
    13 32 "suppress_ifgroup" "suppress_ifgroup " Group, Not(ANY);
    14 31 "suppress_prefixlen" "suppress_prefixlength " Signed, Not(ANY);
    15 30 "table" "lookup " Named(TABLES), IfAny;
    16 10 "fwmask" "/" Bits, Not(ANY);
    17 13 "oif" "oif " Text;
    19 15 "l3mdev" "lookup [l3mdev-table]" Lone, IfAny;
    20 16 "uid_start" "uidrange " Own;
    21 39 "protocol" "proto " Named(PROTOCOLS);
    22 18 "ipproto" "ipproto " Own;
    23 19 "sport" "sport " Own;
    24 22 "dport" "dport " Own;
    25 26 "dscp" "dscp " Number;
    26 28 "flowlabel" "flowlabel " Bits;
    27 29 "flowlabel_mask" "/" Bits, Not(0xf_ffff);
    28 20 "sport_mask" "/" Bits, Not(0xffff);
    29 23 "dport_mask" "/" Bits, Not(0xffff);
    30 27 "dscp_mask" "/" Bits, Not(63);
];

/// The first and the last of users (`struct fib_rule_uid_range`).
const USERS: Parts = crate::parts![
    U32 0 16 "uid_start" "uidrange " Number;
    U32 4 17 "uid_end" "-" Number;
];

const PRIORITY: Word = &Wording(2, "priority", "");

/// The words for an address and for the length of its prefix.
type PrefixWords = (Word, Word);

const FROM: PrefixWords = (&Wording(4, "src", "from "), &Wording(5, "srclen", "/"));

const TO: PrefixWords = (&Wording(6, "dst", "to "), &Wording(7, "dstlen", "/"));

const SERVICE: Word = &Wording(8, "tos", "tos ");

const MARK: Word = &Wording(9, "fwmark", "fwmark ");

const TABLE: Word = &Wording(30, "table", "lookup ");

const FLOW: RealmWords = (
    &Wording(33, "flow_from", "realms "),
    &Wording(34, "flow_to", "/"),
    &Wording(34, "flow_to", "realms "),
);

const GOTO: Word = &Wording(35, "goto", "goto ");

const NOP: Word = &Wording(37, "nop", "nop");

const MASQUERADE: Word = &Wording(37, "masquerade", "masquerade");

const ACTION: Word = &Wording(38, "action", "");

const OTHER_FLAGS: Word = &Wording(41, "flags", "flags ");

const FAMILY: Word = &Wording(42, "family", "family ");

/// The words for a port, for the first port of a range and for its last.
type PortWords = (Word, Word, Word);

const SOURCE_PORTS: PortWords = (
    &Wording(19, "sport", "sport "),
    &Wording(20, "sport_start", "sport "),
    &Wording(21, "sport_end", "-"),
);

const DESTINATION_PORTS: PortWords = (
    &Wording(22, "dport", "dport "),
    &Wording(23, "dport_start", "dport "),
    &Wording(24, "dport_end", "-"),
);

/// Attributes in whose absence something is told (`FRA_*` of `linux/fib_rules.h`).
const FRA_DST: u16 = 1;

const FRA_SRC: u16 = 2;

const FRA_GOTO: u16 = 4;

const FRA_PRIORITY: u16 = 6;

const FRA_FWMARK: u16 = 10;

const FRA_TABLE: u16 = 15;

const FRA_FWMASK: u16 = 16;

/// Actions (`FR_ACT_*` of `linux/fib_rules.h`), and that which `ip` calls `masquerade` (`RTN_NAT`).
const FR_ACT_TO_TBL: u8 = 1;

const FR_ACT_GOTO: u8 = 2;

const FR_ACT_NOP: u8 = 3;

const RTN_NAT: u8 = 10;

/// The flags that have a word (`FIB_RULE_*`).
const FLAGS: field::Flags = &[
    (0x1, &Wording(40, "permanent", "permanent")),
    (0x2, &Wording(3, "not", "not")),
    (0x4, &Wording(36, "unresolved", "[unresolved]")),
    (0x8, &Wording(12, "iif_detached", "[detached]")),
    (0x10, &Wording(14, "oif_detached", "[detached]")),
];

/// What is shown of a rule.
pub fn push_rule(fields: &mut Fields, bytes: &[u8]) {
    let Ok(header) = RuleMessageBuffer::parse(bytes) else {
        return;
    };
    let head = Head {
        to: Some(header.dst_len),
        from: Some(header.src_len),
        ..Head::default()
    };
    let Some(list) = List::of_message(MessageKind::Rule, bytes, head) else {
        return;
    };
    let rest = fields.flags(FLAGS, header.flags, None);
    fields.some_bits(OTHER_FLAGS, rest);
    push_action(fields, header.action);
    push_absent(fields, &header, list);
    push_header(fields, &header);
    push_list(fields, list);
}

fn push_header(fields: &mut Fields, header: &RuleMessageBuffer) {
    if header.tos != 0 {
        fields.text(SERVICE, &format_args!("0x{:02x}", header.tos));
    }
    fields.family(FAMILY, header.family);
    fields.hide_if(!fields.manner.tells_family);
}

fn push_action(fields: &mut Fields, action: u8) {
    match action {
        // What they do is told by attributes.
        FR_ACT_TO_TBL | FR_ACT_GOTO => {}
        FR_ACT_NOP => fields.mark(NOP),
        RTN_NAT => fields.mark(MASQUERADE),
        _ => fields.named(ACTION, TYPES, action),
    }
}

/// What is told where an attribute is not there.
fn push_absent(fields: &mut Fields, header: &RuleMessageBuffer, list: List<'_>) {
    if !list.has(FRA_PRIORITY) {
        push_priority(fields, 0);
    }
    if !list.has(FRA_SRC) {
        let source = if header.src_len == 0 { "all" } else { "0" };
        fields.text(FROM.0, &source);
        push_length(fields, FROM.1, header.src_len, 0);
    }
    if !list.has(FRA_DST) && header.dst_len != 0 {
        fields.text(TO.0, &"0");
        push_length(fields, TO.1, header.dst_len, 0);
    }
    if list.has(FRA_FWMASK) && !list.has(FRA_FWMARK) {
        fields.bits(MARK, 0u32);
    }
    if !list.has(FRA_TABLE) {
        push_table(fields, u32::from(header.table));
    }
    if header.action == FR_ACT_GOTO && !list.has(FRA_GOTO) {
        fields.text(GOTO, &"none");
    }
}

/// The preference, which stands first in a line.
fn push_priority(fields: &mut Fields, number: u32) {
    let text = format!(in fields.manner.alloc; "{number}:");
    fields.written(PRIORITY, number, text);
}

/// The length of a prefix, where it is not that of the address alone.
fn push_length(fields: &mut Fields, word: Word, length: u8, whole: u8) {
    if length != whole {
        fields.number(word, length);
    }
}

fn whole_length(ip: &IpAddr) -> u8 {
    match ip {
        IpAddr::V4(_) => 32,
        IpAddr::V6(_) => 128,
    }
}

/// The table, which a line does not have where there is none.
fn push_table(fields: &mut Fields, number: u32) {
    fields.named(TABLE, TABLES, number);
    fields.hide_if(number == 0);
}

/// An address with its prefix, a preference, realms, a protocol and ports: each by two words, or by one
/// that its value chooses.
pub fn push_own(fields: &mut Fields, list: List<'_>, word: Word, seen: &Seen<'_>) {
    let number = small(&seen.value);
    match seen.number {
        1 => push_prefix(fields, TO, &seen.value, list.head.to),
        2 => push_prefix(fields, FROM, &seen.value, list.head.from),
        6 => push_priority(fields, number),
        11 => push_realm(fields, FLOW, RouteRealm::from(number)),
        20 => push_parts(fields, list, seen.bytes, USERS),
        22 => push_ip_number(fields, word, number.cast_signed()),
        23 => push_ports(fields, SOURCE_PORTS, seen.bytes),
        24 => push_ports(fields, DESTINATION_PORTS, seen.bytes),
        _ => {}
    }
}

/// An address and the length of its prefix.
fn push_prefix(fields: &mut Fields, words: PrefixWords, value: &Value<'_>, length: Option<u8>) {
    if let Value::Address(ip) = value {
        fields.text(words.0, &Inet(ip));
        push_length(fields, words.1, length.unwrap_or(0), whole_length(ip));
    }
}

fn push_ports(fields: &mut Fields, words: PortWords, bytes: &[u8]) {
    let (one, first, last) = words;
    let Ok(ports) = RulePortRange::parse(bytes) else {
        return;
    };
    if ports.start == ports.end {
        return fields.number(one, ports.start);
    }
    fields.number(first, ports.start);
    fields.number(last, ports.end);
}
