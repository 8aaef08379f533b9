//! What is shown of a neighbour.

use crate::field::{self, Fields, Word, Wording};
use crate::list::{Seen, small};
use crate::names::{Names, PROTOCOLS, TYPES};
use crate::row::How::{Bits, Flags, Flat, Hardware, Interface, Mark, Named, Number, Own, Text};
use crate::row::Line::IfAny;
use crate::row::Rows;
use crate::walk::push_message;
use netlink_packet_route::MessageKind;
use netlink_packet_route::neighbour::{NeighbourCacheInfo, NeighbourMessageBuffer};

/// Of a neighbour.
pub const NEIGHBOUR: Rows = crate::rows![
    1 2 "dst" "" Text;
    2 4 "lladdr" "lladdr " Hardware;
    3 9 "refcnt" "ref " Own;
    4 13 "probes" "probes " Number;
    5 16 "vlan" "vlan " Number;
    6 17 "port" "port " Number;
    7 18 "vni" "vni " Number;
    8 20 "via_dev" "via dev " Interface;
    9 21 "master" "master " Interface;
    10 22 "link_netnsid" "link-netnsid " Number;
    11 19 "src_vni" "src_vni " Number;
    12 15 "protocol" "proto " Named(PROTOCOLS), IfAny;
    13 23 "nhid" "nhid " Number;
    14 26 "" "" Flat;
    15 8 "flags_ext" "flags_ext " Own;
    16 28 "state_mask" "state_mask " Bits;
    17 29 "flags_mask" "flags_mask " Bits;
];

/// Of what a forwarding entry is besides.
pub const FORWARDING: Rows = crate::rows![
    1 26 "" "" Flags(&[
        (0x1, &Wording(26, "activity_notify", "activity_notify")),
        (0x2, &Wording(26, "inactive", "inactive")),
    ]);
    2 27 "norefresh" "norefresh" Mark;
];

const INTERFACE: Word = &Wording(3, "dev", "dev ");

const USED: Word = &Wording(10, "used", "used ");

const CONFIRMED: Word = &Wording(11, "confirmed", "/");

const UPDATED: Word = &Wording(12, "updated", "/");

const STATE: Word = &Wording(14, "state", "");

const TYPE: Word = &Wording(24, "type", "type ");

const FAMILY: Word = &Wording(25, "family", "family ");

/// The flags that have a word (`NTF_*`).
const NEIGHBOUR_FLAGS: field::Flags = &[
    (0x80, &Wording(5, "router", "router")),
    (0x8, &Wording(5, "proxy", "proxy")),
    (0x10, &Wording(7, "extern_learn", "extern_learn")),
    (0x20, &Wording(7, "offload", "offload")),
    (0x1, &Wording(7, "use", "use")),
    (0x2, &Wording(7, "self", "self")),
    (0x4, &Wording(7, "of_master", "of_master")),
    (0x40, &Wording(7, "sticky", "sticky")),
];

/// The flag of those for which the header has no room that has a word (`NTF_EXT_MANAGED`).
const MORE_FLAGS: field::Flags = &[(0x1, &Wording(6, "managed", "managed"))];

/// The states, each by its bit (`NUD_*`).
const STATES: Names = &[
    (0x1, "INCOMPLETE"),
    (0x2, "REACHABLE"),
    (0x4, "STALE"),
    (0x8, "DELAY"),
    (0x10, "PROBE"),
    (0x20, "FAILED"),
    (0x40, "NOARP"),
    (0x80, "PERMANENT"),
];

/// What is shown of a neighbour.
pub fn push_neighbour(fields: &mut Fields, bytes: &[u8]) {
    let Ok(header) = NeighbourMessageBuffer::parse(bytes) else {
        return;
    };
    push_header(fields, &header);
    push_message(fields, MessageKind::Neighbour, bytes);
}

fn push_header(fields: &mut Fields, header: &NeighbourMessageBuffer) {
    fields.some_interface(INTERFACE, header.ifindex);
    fields.flags(NEIGHBOUR_FLAGS, u32::from(header.flags), None);
    let state = u32::from(header.state);
    if state != 0 {
        fields.set(STATE, STATES, state, " ");
    }
    fields.named(TYPE, TYPES, header.kind);
    // A neighbour that answers is unicast.
    fields.hide_if(header.kind == 1);
    fields.family(FAMILY, header.family);
    fields.hide();
}

/// Times that JSON has in whole seconds, and flags of which one has a word.
pub fn push_own(fields: &mut Fields, word: Word, seen: &Seen<'_>) {
    match seen.number {
        3 => push_times(fields, word, seen.bytes),
        15 => {
            let rest = fields.flags(MORE_FLAGS, small(&seen.value), None);
            fields.some_bits(word, rest);
        }
        _ => {}
    }
}

/// How long ago, in seconds: whole ones in JSON, and hundredths besides in a line.
fn push_times(fields: &mut Fields, word: Word, bytes: &[u8]) {
    let Ok(info) = NeighbourCacheInfo::parse(bytes) else {
        return;
    };
    fields.number(word, info.refcnt);
    fields.hide_if(info.refcnt == 0);
    push_time(fields, USED, info.used);
    push_time(fields, CONFIRMED, info.confirmed);
    push_time(fields, UPDATED, info.updated);
}

fn push_time(fields: &mut Fields, word: Word, hundredths: u32) {
    let (seconds, rest) = (hundredths / 100, hundredths % 100);
    let text = format!(in fields.manner.alloc; "{seconds}.{rest:02}");
    fields.written(word, seconds, text);
}
