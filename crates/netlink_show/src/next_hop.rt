//! What is shown of a next hop that has a number, of a group of them, and of a bucket of one.

use crate::field::{Fields, ITEM, Word, Wording};
use crate::list::{List, Seen, small};
use crate::names::{Names, PROTOCOLS, SCOPES};
use crate::route::push_route_flags;
use crate::route_value::push_type;
use crate::row::How::{Apart, Interface, Mark, Number, Object, Own, Span, Text};
use crate::row::Line::IfAny;
use crate::row::Rows;
use crate::value::push_setting;
use crate::walk::{push_all_rows, push_message, push_nameless};
use netlink_packet_route::framing::NlasIterator;
use netlink_packet_route::nexthop::{NextHopGroupEntry, NextHopMessageBuffer};
use netlink_packet_route::{AddressFamily, MessageKind};

/// Of a next hop. Its encapsulation, and what devices count, stand in objects of their own.
pub const NEXT_HOP: Rows = crate::rows![
    1 2 "id" "id " Number;
    2 3 "group" "group " Own;
    3 4 "type" "type " Own;
    4 10 "blackhole" "blackhole" Mark;
    5 8 "dev" "dev " Interface, IfAny;
    6 7 "gateway" "via " Text;
    7 0 "" "" Apart;
    8 6 "encap" "encap" Object;
    9 14 "groups" "groups" Mark;
    10 15 "master" "master " Interface;
    11 13 "fdb" "fdb" Mark;
    12 5 "resilient_args" "" Object;
    13 5 "bucket" "" Object;
    14 16 "op_flags" "op_flags " Own;
    15 255 "group_stats" "\n  stats:" Own;
    16 0 "" "" Apart;
    17 0 "" "" Apart;
];

/// Of what a resilient group is made with.
pub const RESILIENT: Rows = crate::rows![
    1 0 "buckets" "buckets " Number;
    2 1 "idle_timer" "idle_timer " Span;
    3 2 "unbalanced_timer" "unbalanced_timer " Span;
    4 3 "unbalanced_time" "unbalanced_time " Span;
];

/// Of a bucket.
pub const BUCKET: Rows = crate::rows![
    1 0 "index" "index " Number;
    2 1 "idle_time" "idle_time " Span;
    3 2 "nhid" "nhid " Number;
];

/// Of what went by a member of a group.
pub const STATS_ENTRY: Rows = crate::rows![
    1 0 "id" "id " Number;
    2 1 "packets" "packets " Number;
    3 2 "packets_hw" "packets_hw " Number;
];

const ENCAP: Word = &Wording(6, "encap", "encap");

const ENCAP_TYPE: Word = &Wording(0, "encap_type", "");

const SCOPE: Word = &Wording(9, "scope", "scope ");

const PROTOCOL: Word = &Wording(11, "protocol", "proto ");

const FLAGS: Word = &Wording(12, "flags", "");

const FAMILY: Word = &Wording(17, "family", "family ");

const DEVICE_STATS: Word = &Wording(18, "hw_stats", "hw_stats");

const MEMBER: Word = &Wording(0, "id", "");

/// The key of a weight, which a line has behind the member.
const WEIGHT: &str = "weight";

/// The counters of a member, in a line of their own.
const STATS_OF: Word = &Wording(0, "", "\n   ");

/// What is asked for, or answered (`NHA_OP_FLAG_*`).
const OPTIONS: Names = &[
    (0x1, "dump_stats"),
    (0x2, "dump_hw_stats"),
    (ANSWERED, "resp_grp_resvd_0"),
];

/// That the bytes which no group uses are 0 (`NHA_OP_FLAG_RESP_GRP_RESVD_0`).
const ANSWERED: u32 = 0x8000_0000;

/// Attributes that stand beside others (`NHA_*` of `linux/nexthop.h`).
const NHA_ENCAP_TYPE: u16 = 7;

const NHA_ENCAP: u16 = 8;

const NHA_HW_STATS_ENABLE: u16 = 16;

const NHA_HW_STATS_USED: u16 = 17;

/// What is shown of a next hop, or of a bucket, in whose header a kernel tells nothing.
pub fn push_next_hop(fields: &mut Fields, bytes: &[u8], is_bucket: bool) {
    let Ok(header) = NextHopMessageBuffer::parse(bytes) else {
        return;
    };
    if !is_bucket || header.scope != 0 || header.protocol != 0 {
        fields.named(SCOPE, SCOPES, header.scope);
        fields.named(PROTOCOL, PROTOCOLS, header.protocol);
    }
    push_header(fields, &header);
    push_message(fields, MessageKind::NextHop, bytes);
}

fn push_header(fields: &mut Fields, header: &NextHopMessageBuffer) {
    push_route_flags(fields, FLAGS, header.flags);
    let family = AddressFamily::from(header.family);
    fields.text(FAMILY, &family);
    fields.hide_if(matches!(
        family,
        AddressFamily::Unspec | AddressFamily::Inet | AddressFamily::Inet6
    ));
}

/// What several attributes tell together: a type without an encapsulation, and what devices count.
pub fn push_beside(fields: &mut Fields, list: List<'_>) {
    if list.has(NHA_ENCAP_TYPE) && !list.has(NHA_ENCAP) {
        let mut inside = Fields::new(fields.manner);
        push_encap_type(&mut inside, list, NHA_ENCAP);
        fields.object(ENCAP, inside);
    }
    let mut inside = Fields::new(fields.manner);
    if let Some(seen) = list.first(NHA_HW_STATS_ENABLE) {
        push_setting(&mut inside, &Wording(0, "enabled", ""), &seen.value);
    }
    if let Some(seen) = list.first(NHA_HW_STATS_USED) {
        push_setting(&mut inside, &Wording(1, "used", "used "), &seen.value);
    }
    if !inside.is_empty() {
        fields.object(DEVICE_STATS, inside);
    }
}

/// The type of an encapsulation, in front of its members.
pub fn push_encap_type(inside: &mut Fields, list: List<'_>, number: u16) {
    if number != NHA_ENCAP {
        return;
    }
    for next in NlasIterator::new(list.bytes) {
        let Ok(item) = next else {
            return;
        };
        match list.seen(&item) {
            Some(seen) if seen.number == NHA_ENCAP_TYPE => {
                push_type(inside, ENCAP_TYPE, small(&seen.value))
            }
            _ => {}
        }
    }
}

/// Arrays and lists in lists, and values that a line leaves out.
pub fn push_own(fields: &mut Fields, list: List<'_>, word: Word, seen: &Seen<'_>) {
    let number = small(&seen.value);
    match seen.number {
        2 => push_group(fields, word, seen.bytes),
        3 => push_group_type(fields, word, number),
        14 => {
            fields.set(word, OPTIONS, number, ",");
            // Each kernel of today answers so.
            fields.hide_if(matches!(number, 0 | ANSWERED));
        }
        15 => push_stats(fields, list, word, seen),
        _ => {}
    }
}

/// The members of a group.
fn push_group(fields: &mut Fields, word: Word, bytes: &[u8]) {
    let mut objects = Fields::new(fields.manner);
    let mut left = bytes;
    for _ in 0..bytes.len() {
        let (Ok(entry), Some(behind)) = (NextHopGroupEntry::parse(left), left.get(8..)) else {
            break;
        };
        let mut inside = Fields::new(fields.manner);
        push_entry(&mut inside, entry);
        objects.object(ITEM, inside);
        left = behind;
    }
    fields.list(word, objects, "/");
}

/// A member, with its weight where that is not 1.
fn push_entry(fields: &mut Fields, entry: NextHopGroupEntry) {
    let NextHopGroupEntry { id, weight } = entry;
    if weight == 0 {
        return fields.number(MEMBER, id);
    }
    let weight = u32::from(weight) + 1;
    let text = format!(in fields.manner.alloc; "{id},{weight}");
    fields.written(MEMBER, id, text);
    fields.counted(WEIGHT, weight);
}

/// How a group takes turns, which a line does not have where it is by a hash alone.
fn push_group_type(fields: &mut Fields, word: Word, number: u32) {
    match number {
        0 => {
            fields.text(word, &"mpath");
            fields.hide();
        }
        1 => fields.text(word, &"resilient"),
        _ => fields.number(word, number),
    }
}

/// What went by the members.
fn push_stats(fields: &mut Fields, list: List<'_>, word: Word, seen: &Seen<'_>) {
    let mut objects = Fields::new(fields.manner);
    if let Some(members) = list.inside(seen) {
        for next in NlasIterator::new(members.bytes) {
            let Ok(item) = next else {
                break;
            };
            let mut inside = Fields::new(fields.manner);
            match members.inside_of(&item) {
                Some(entry) => push_all_rows(&mut inside, entry, STATS_ENTRY),
                None => push_nameless(&mut inside, members, &item),
            }
            objects.object(STATS_OF, inside);
        }
    }
    fields.list(word, objects, " ");
}
