//! What is shown of an address.

use crate::field::{self, Fields, Word, Wording};
use crate::list::{Head, List, Seen, small};
use crate::names::{ADDRESS_PROTOCOLS, SCOPES};
use crate::part::push_parts;
use crate::row::How::{Apart, Lifetime, Named, Number, Own, Text};
use crate::row::{Parts, Rows};
use crate::value::push_text;
use crate::walk::push_list;
use netlink_packet_route::address::{AddressFlags, AddressMessageBuffer};
use netlink_packet_route::framing::Value;
use netlink_packet_route::{AddressFamily, Flags, MessageKind};

/// Of an address. Its flags stand among the pieces of the message.
pub const ADDRESS: Rows = crate::rows![
    1 5 "address" "peer " Own;
    2 4 "local" "" Text;
    3 14 "label" "" Text;
    4 8 "broadcast" "brd " Text;
    5 9 "anycast" "any " Text;
    6 15 "valid_life_time" "valid_lft " Own;
    7 19 "multicast" "mcast " Text;
    8 0 "" "" Apart;
    9 7 "metric" "metric " Number;
    10 20 "target_netnsid" "target-netnsid " Number;
    11 13 "protocol" "proto " Named(ADDRESS_PROTOCOLS);
];

/// How long an address stands, and when it was made and changed (`struct ifa_cacheinfo`).
const TIMES: Parts = crate::parts![
    U32 0 16 "preferred_life_time" "preferred_lft " Lifetime;
    U32 4 15 "valid_life_time" "valid_lft " Lifetime;
    U32 8 17 "cstamp" "cstamp " Number;
    U32 12 18 "tstamp" "tstamp " Number;
];

const INDEX: Word = &Wording(2, "ifindex", "");

const INTERFACE: Word = &Wording(3, "dev", "");

const FAMILY: Word = &Wording(3, "family", "");

const LOCAL: Word = &Wording(4, "local", "");

const PREFIX: Word = &Wording(6, "prefixlen", "/");

const SCOPE: Word = &Wording(10, "scope", "scope ");

const OTHER_FLAGS: Word = &Wording(12, "ifa_flags", "flags ");

/// The first flag, and what it is in version 6.
const SECONDARY: field::Flags = &[(0x1, &Wording(11, "secondary", "secondary"))];

const TEMPORARY: field::Flags = &[(0x1, &Wording(11, "temporary", "temporary"))];

/// The other flags that have a word; `dynamic` is an address without its flag.
const FLAGS: field::Flags = &[
    (0x2, &Wording(11, "nodad", "nodad")),
    (0x4, &Wording(11, "optimistic", "optimistic")),
    (0x8, &Wording(11, "dadfailed", "dadfailed")),
    (0x10, &Wording(11, "home", "home")),
    (0x20, &Wording(11, "deprecated", "deprecated")),
    (0x40, &Wording(11, "tentative", "tentative")),
    (0x80, &Wording(11, "dynamic", "dynamic")),
    (0x100, &Wording(11, "mngtmpaddr", "mngtmpaddr")),
    (0x200, &Wording(11, "noprefixroute", "noprefixroute")),
    (0x400, &Wording(11, "autojoin", "autojoin")),
    (0x800, &Wording(11, "stable-privacy", "stable-privacy")),
];

/// The address of this end, and the flags, of 32 bits (`IFA_*` of `linux/if_addr.h`).
const IFA_LOCAL: u16 = 2;

const IFA_FLAGS: u16 = 8;

/// What is shown of an address.
pub fn push_address(fields: &mut Fields, bytes: &[u8]) {
    let Ok(header) = AddressMessageBuffer::parse(bytes) else {
        return;
    };
    let Some(list) = List::of_message(MessageKind::Address, bytes, Head::default()) else {
        return;
    };
    push_header(fields, &header);
    let bits = match list.first(IFA_FLAGS) {
        Some(seen) => small(&seen.value),
        None => u32::from(header.flags),
    };
    push_flags(fields, AddressFamily::from(header.family), bits);
    push_list(fields, list);
}

fn push_header(fields: &mut Fields, header: &AddressMessageBuffer) {
    let index = header.index;
    let text = format!(in fields.manner.alloc; "{index}:");
    fields.written(INDEX, index, text);
    if let Some(name) = fields.manner.interface(index) {
        fields.text(INTERFACE, &name);
    }
    fields.family(FAMILY, header.family);
    fields.number(PREFIX, header.prefix_len);
    fields.named(SCOPE, SCOPES, header.scope);
}

fn push_flags(fields: &mut Fields, family: AddressFamily, bits: u32) {
    let first = match family {
        AddressFamily::Inet6 => TEMPORARY,
        _ => SECONDARY,
    };
    let rest = fields.flags(first, bits ^ AddressFlags::Permanent.bits(), Some(true));
    let rest = fields.flags(FLAGS, rest, Some(true));
    if rest != 0 {
        fields.text(OTHER_FLAGS, &format_args!("{rest:02x}"));
    }
}

/// What rests on another attribute, and the times.
pub fn push_own(fields: &mut Fields, list: List<'_>, word: Word, seen: &Seen<'_>) {
    match seen.number {
        1 => push_peer(fields, list, word, &seen.value),
        6 => push_parts(fields, list, seen.bytes, TIMES),
        _ => {}
    }
}

/// The address of an interface without a local one, its peer, or the local one once more.
fn push_peer(fields: &mut Fields, list: List<'_>, word: Word, value: &Value<'_>) {
    let Some(local) = list.first(IFA_LOCAL) else {
        return push_text(fields, LOCAL, value);
    };
    push_text(fields, word, value);
    fields.hide_if(local.value == *value);
}
