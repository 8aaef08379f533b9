//! Values of tunnels that are shown in a way of their own.

use crate::field::{Fields, Word, Wording};
use crate::link_kind_names::ENCAPS;
use crate::list::{List, Seen, small};
use crate::manner::Inet;
use crate::part::{PORTS, push_structure};
use crate::tables::is_over_6;
use netlink_packet_route::framing::{AttributeSet, Value};
use netlink_packet_route::net::IpAddr;

const ENCAP: Word = &Wording(33, "encap", "encap");

const ENCAP_TYPE: Word = &Wording(0, "type", "");

const SOURCE_PORT: Word = &Wording(1, "sport", "encap-sport ");

const DESTINATION_PORT: Word = &Wording(2, "dport", "encap-dport ");

const CHECKSUM: Word = &Wording(3, "csum", "");

const CHECKSUM6: Word = &Wording(4, "csum6", "");

const REMOTE_CHECKSUM: Word = &Wording(5, "remcsum", "");

const ENCAP_FLAGS: Word = &Wording(6, "flags", "encap-flags ");

/// Addresses that may be a group's, ranges of ports, and what flags of a tunnel over version 6 replace.
pub fn push_own(fields: &mut Fields, list: List<'_>, word: Word, seen: &Seen<'_>) {
    let number = small(&seen.value);
    match (list.nest.told_set(), seen.number) {
        (AttributeSet::InfoVxlan, 10) => push_structure(fields, list, word, seen.bytes, PORTS),
        (AttributeSet::InfoVxlan, _) => push_remote(fields, word, &seen.value),
        (AttributeSet::InfoGeneve, 15) => push_structure(fields, list, word, seen.bytes, PORTS),
        (AttributeSet::InfoGeneve, _) => push_remote6(fields, word, &seen.value),
        (AttributeSet::InfoGre6, 12) => push_flow(fields, number, list.number(13)),
        (AttributeSet::InfoGre6, _) => push_mark6(fields, word, number, list.number(13)),
        (AttributeSet::InfoIpTunnel, 7) if is_over_6(list.nest) => {
            push_flow(fields, number, list.number(8))
        }
        (AttributeSet::InfoIpTunnel, _) if is_over_6(list.nest) => {
            push_mark6(fields, word, number, list.number(8))
        }
        _ => push_flow(fields, number, u32::MAX),
    }
}

/// The other end, or a group.
fn push_remote(fields: &mut Fields, word: Word, value: &Value<'_>) {
    if let Value::Address(ip) = value {
        let word = match (is_group(ip), ip) {
            (false, _) => word,
            (true, IpAddr::V4(_)) => &Wording(3, "group", "group "),
            (true, IpAddr::V6(_)) => &Wording(3, "group6", "group "),
        };
        fields.text(word, &Inet(ip));
    }
}

/// The other end over version 6. No line has a group.
fn push_remote6(fields: &mut Fields, word: Word, value: &Value<'_>) {
    if let Value::Address(ip) = value {
        fields.text(word, &Inet(ip));
        fields.hide_if(is_group(ip));
    }
}

/// Whether an address is one of a group (RFC 1112, RFC 4291).
fn is_group(ip: &IpAddr) -> bool {
    match ip {
        IpAddr::V4(ip) => matches!(ip.octets(), [224..=239, ..]),
        IpAddr::V6(ip) => matches!(ip.octets(), [255, ..]),
    }
}

/// The class and the label of a flow, unless these flags say that those of the packet inside are kept.
fn push_flow(fields: &mut Fields, flow: u32, flags: u32) {
    let alloc = fields.manner.alloc;
    let (class, label) = (flow >> 20 & 0xff, flow & 0xf_ffff);
    fields.made(
        &Wording(8, "tclass", "tclass "),
        format!(in alloc; "0x{class:02x}"),
    );
    fields.hide_if(flags & 0x2 != 0);
    fields.made(
        &Wording(9, "flowlabel", "flowlabel "),
        format!(in alloc; "0x{label:05x}"),
    );
    fields.hide_if(flags & 0x4 != 0);
    fields.some_bits(&Wording(10, "flowinfo", "flowinfo "), flow & 0xf000_0000);
}

/// A mark of packets, which these flags of a tunnel over version 6 may replace.
fn push_mark6(fields: &mut Fields, word: Word, mark: u32, flags: u32) {
    fields.bits(word, mark);
    fields.hide_if(flags & 0x20 != 0);
}

/// What a tunnel is packed in once more, by the numbers of its type, its flags and its ports. A line has
/// it where it is something.
pub fn push_encap(fields: &mut Fields, list: List<'_>, numbers: [u16; 4]) {
    let [of_type, flags, source, destination] = numbers;
    let mut inside = Fields::new(fields.manner);
    if list.has(of_type) {
        inside.named(ENCAP_TYPE, ENCAPS, list.number(of_type));
    }
    if list.has(flags) {
        push_encap_flags(&mut inside, list.number(flags));
    }
    if list.has(source) {
        push_port(&mut inside, list.number(source));
    }
    if list.has(destination) {
        inside.number(DESTINATION_PORT, list.number(destination));
    }
    if !inside.is_empty() {
        fields.object(ENCAP, inside);
        fields.hide_if(list.number(of_type) == 0);
    }
}

/// The port that packets come from, which the kernel chooses where it is 0.
fn push_port(fields: &mut Fields, port: u32) {
    match port {
        0 => fields.push(SOURCE_PORT, port, &"auto"),
        _ => fields.number(SOURCE_PORT, port),
    }
}

fn push_encap_flags(inside: &mut Fields, bits: u32) {
    inside.either(CHECKSUM, bits & 1 != 0, ("encap-csum", "noencap-csum"));
    inside.either(CHECKSUM6, bits & 2 != 0, ("encap-csum6", "noencap-csum6"));
    inside.either(
        REMOTE_CHECKSUM,
        bits & 4 != 0,
        ("encap-remcsum", "noencap-remcsum"),
    );
    inside.some_bits(ENCAP_FLAGS, bits & !7);
}
