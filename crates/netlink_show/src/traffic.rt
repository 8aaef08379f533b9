//! What is shown of messages of traffic control: their headers, and the attributes of each kind. What
//! stands in options, statistics and actions is in files of its own.

use crate::field::{Fields, Word, Wording};
use crate::list::{Head, List, Seen};
use crate::manner::Bits;
use crate::names::Names;
use crate::part::push_structure;
use crate::row::How::{Data, Mark, Number, Object, Objects, Own, Text};
use crate::row::Line::{Never, Not};
use crate::row::{Parts, Rows};
use crate::traffic_qdisc::push_counters;
use crate::traffic_text::{Handle, U32Handle};
use crate::value::push_text;
use crate::walk::{push_list, push_message};
use netlink_packet_route::framing::AttributeSet;
use netlink_packet_route::tc::{TcActionMessageBuffer, TcHeader, TcMessageBuffer};
use netlink_packet_route::{MessageKind, Subject};

/// Of a message of traffic control (`TCA_*` of `linux/rtnetlink.h`).
pub const TRAFFIC: Rows = crate::rows![
    1 3 "kind" "" Own;
    2 20 "options" "" Data(OPTIONS);
    3 241 "old_stats" "" Own, Never;
    4 242 "xstats" "" Own, Never;
    5 243 "estimator" "" Own, Never;
    6 244 "fcnt" "" Text, Never;
    7 240 "stats" "" Object, Never;
    8 30 "stab" "\n " Object;
    10 14 "invisible" "invisible" Mark;
    11 10 "chain" "chain " Number;
    12 15 "offloaded" "offloaded " Number, Not(0);
    13 12 "ingress_block" "ingress_block " Number;
    14 13 "egress_block" "egress_block " Number;
    15 245 "dump_flags" "" Own, Never;
    16 40 "warning" "warning " Text;
];

/// Of a message of actions (`TCA_ROOT_*` of `linux/rtnetlink.h`).
pub const ACTIONS: Rows = crate::rows![
    1 10 "actions" "" Objects("", "", "");
    2 245 "flags" "" Own, Never;
    3 3 "total acts" "total acts " Number;
    4 4 "since" "since " Number;
    5 5 "warning" "warning " Text;
];

/// A structure of bits, and of those that are meant.
pub const BITFIELD: Parts = crate::parts![
    U32 0 0 "value" "" Number;
    U32 4 1 "selector" "/" Number;
];

/// `struct tc_estimator` of `linux/gen_stats.h`.
const ESTIMATOR: Parts = crate::parts![
    U8 0 0 "interval" "" Number;
    U8 1 1 "ewma_log" "" Number;
];

/// `struct tc_stats` of `linux/pkt_sched.h`.
const OLD_STATS: Parts = crate::parts![
    U64 0 0 "bytes" "" Number;
    U32 8 1 "packets" "" Number;
    U32 12 2 "drops" "" Number;
    U32 16 3 "overlimits" "" Number;
    U32 20 4 "bps" "" Number;
    U32 24 5 "pps" "" Number;
    U32 28 6 "qlen" "" Number;
    U32 32 7 "backlog" "" Number;
];

/// Protocols of Ethernet frames that have a name (`ETH_P_*` of `linux/if_ether.h`).
pub const FRAMES: Names = &[
    (0x0001, "802_3"),
    (0x0003, "all"),
    (0x0004, "802_2"),
    (0x0005, "snap"),
    (0x0060, "loop"),
    (0x0200, "pup"),
    (0x0800, "ip"),
    (0x0805, "x25"),
    (0x0806, "arp"),
    (0x6558, "teb"),
    (0x8035, "rarp"),
    (0x809b, "atalk"),
    (0x80f3, "aarp"),
    (0x8100, "802.1Q"),
    (0x8137, "ipx"),
    (0x86dd, "ipv6"),
    (0x8847, "mpls_uc"),
    (0x8848, "mpls_mc"),
    (0x8863, "ppp_disc"),
    (0x8864, "ppp_ses"),
    (0x88a8, "802.1ad"),
    (0x88ca, "tipc"),
];

/// A parent that is the root of a device (`TC_H_ROOT` of `linux/pkt_sched.h`).
const TC_H_ROOT: u32 = u32::MAX;

const OPTIONS: Word = &Wording(20, "options", "options ");

const HANDLE: Word = &Wording(4, "handle", "");

const INTERFACE: Word = &Wording(5, "dev", "dev ");

const BLOCK: Word = &Wording(5, "block", "block ");

const ROOT: Word = &Wording(6, "root", "root");

const PARENT: Word = &Wording(6, "parent", "parent ");

const HOLDERS: Word = &Wording(7, "refcnt", "refcnt ");

const LEAF: Word = &Wording(7, "leaf", "leaf ");

const INFO: Word = &Wording(7, "info", "info ");

const PROTOCOL: Word = &Wording(7, "protocol", "protocol ");

const PREFERENCE: Word = &Wording(8, "pref", "pref ");

const KIND_OF_FILTER: Word = &Wording(9, "kind", "");

const U32_HANDLE: Word = &Wording(11, "fh", "fh ");

const ORDER: Word = &Wording(12, "order", "order ");

const NUMBER: Word = &Wording(11, "handle", "handle ");

const FAMILY: Word = &Wording(41, "family", "family ");

/// What is shown of a queueing discipline, a class, a filter or a chain, as its type says.
pub fn push_traffic(fields: &mut Fields, bytes: &[u8], subject: Option<Subject>) {
    let Ok(header) = TcMessageBuffer::parse(bytes) else {
        return;
    };
    let head = Head {
        is_filter: matches!(
            subject,
            Some(Subject::TrafficFilter | Subject::TrafficChain)
        ),
        ..Head::default()
    };
    push_place(fields, header.index.cast_unsigned(), header.parent);
    fields.family(FAMILY, header.family);
    fields.hide_if(header.family == 0);
    if let Some(list) = List::of_message(MessageKind::Tc, bytes, head) {
        push_header(fields, &header, list, subject);
        push_list(fields, list);
    }
}

/// Its handle, and what else the header says.
fn push_header(
    fields: &mut Fields,
    header: &TcMessageBuffer,
    list: List<'_>,
    subject: Option<Subject>,
) {
    let alloc = fields.manner.alloc;
    if list.head.is_filter {
        return push_filter_header(fields, header, list.name(1));
    }
    match (subject, header.info) {
        (Some(Subject::QueueDiscipline), count) => {
            fields.made(HANDLE, format!(in alloc; "{:x}:", header.handle >> 16));
            fields.number(HOLDERS, count);
            fields.hide_if(count < 2);
        }
        (Some(Subject::TrafficClass), leaf) => {
            fields.text(HANDLE, &Handle(header.handle));
            push_leaf(fields, leaf);
        }
        (_, info) => {
            fields.text(HANDLE, &Handle(header.handle));
            fields.bits(INFO, info);
            fields.hide_if(info == 0);
        }
    }
}

/// The handle of the queueing discipline in a class, whose major number JSON has.
fn push_leaf(fields: &mut Fields, leaf: u32) {
    if leaf != 0 {
        let text = format!(in fields.manner.alloc; "{}", Handle(leaf));
        fields.text_shown(LEAF, &Bits((leaf >> 16).into()), text)
    }
}

/// The same of a filter: its protocol, its preference, and its number among those of its kind.
fn push_filter_header(fields: &mut Fields, header: &TcMessageBuffer, kind: Option<&str>) {
    let [high, low, ..] = header.info.to_le_bytes();
    let frame = u16::from_be_bytes([high, low]);
    push_frame(fields, PROTOCOL, frame.into());
    fields.hide_if(frame == 0);
    let preference = header.info >> 16;
    fields.number(PREFERENCE, preference);
    fields.hide_if(preference == 0);
    match kind {
        Some("u32") => push_u32_handle(fields, header.handle),
        Some("bpf") => fields.bits(NUMBER, header.handle),
        _ => {
            let text = format!(in fields.manner.alloc; "{:#x}", header.handle);
            fields.written(NUMBER, header.handle, text)
        }
    }
    fields.hide_if(header.handle == 0);
}

/// A handle of a filter u32, and the place in its bucket.
fn push_u32_handle(fields: &mut Fields, handle: u32) {
    fields.number(ORDER, handle & 0xfff);
    fields.hide_if(handle & 0xfff == 0);
    fields.text(U32_HANDLE, &U32Handle(handle));
}

/// A protocol of frames by its name, or by its number in brackets.
pub fn push_frame(fields: &mut Fields, word: Word, number: u32) {
    match fields.manner.name(FRAMES, number) {
        Some(name) => fields.text(word, &name),
        None => {
            let text = format!(in fields.manner.alloc; "[{number}]");
            fields.made(word, text)
        }
    }
}

/// Where it stands: in a block, or at a device and below another one.
fn push_place(fields: &mut Fields, index: u32, parent: u32) {
    if index == TcHeader::TCM_IFINDEX_MAGIC_BLOCK {
        return fields.number(BLOCK, parent);
    }
    fields.some_interface(INTERFACE, index);
    match parent {
        0 => {}
        TC_H_ROOT => fields.truth(ROOT, true),
        _ => fields.text(PARENT, &Handle(parent)),
    }
}

/// Structures, and what rests on what a message is on.
pub fn push_own(fields: &mut Fields, list: List<'_>, word: Word, seen: &Seen<'_>) {
    match (list.nest.set, seen.number) {
        (AttributeSet::Tc, 1) => push_kind(fields, list, word, seen),
        (AttributeSet::Tc, 3) => push_structure(fields, list, word, seen.bytes, OLD_STATS),
        // Kernels say the same among the statistics.
        (AttributeSet::Tc, 4) if list.has(7) => {}
        (AttributeSet::Tc, 4) => push_counters(fields, list, word, seen),
        (AttributeSet::Tc, 5) => push_structure(fields, list, word, seen.bytes, ESTIMATOR),
        _ => push_structure(fields, list, word, seen.bytes, BITFIELD),
    }
}

/// A kind, which a line of a filter has behind its preference.
fn push_kind(fields: &mut Fields, list: List<'_>, word: Word, seen: &Seen<'_>) {
    let word = if list.head.is_filter {
        KIND_OF_FILTER
    } else {
        word
    };
    push_text(fields, word, &seen.value)
}

/// What is shown of a message of actions.
pub fn push_traffic_actions(fields: &mut Fields, bytes: &[u8]) {
    let Ok(header) = TcActionMessageBuffer::parse(bytes) else {
        return;
    };
    fields.family(FAMILY, header.family);
    fields.hide_if(header.family == 0);
    push_message(fields, MessageKind::TcAction, bytes);
}
