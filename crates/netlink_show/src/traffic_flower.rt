//! What is shown of the filter flower, whose values have masks beside them.

use crate::field::{Fields, ITEM, Word, Wording};
use crate::list::{List, Seen, small};
use crate::manner::{Hexadecimal, Inet};
use crate::names::{IP_PROTOCOLS, Names};
use crate::row::How::{Apart, Flat, Number, Object, Objects, Own, Text};
use crate::row::Line::IfAny;
use crate::row::Rows;
use crate::traffic::push_frame;
use crate::traffic_filter::{push_handle, push_places_below};
use crate::traffic_flower_key::push_key;
use crate::traffic_text::prefix_of;
use netlink_packet_route::framing::Value;
use std::fmt;

/// Of a filter by the fields of a packet (`TCA_FLOWER_*` of `linux/pkt_cls.h`). A mask stands behind its
/// value.
pub const FLOWER: Rows = crate::rows![
    1 4 "classid" "classid " Own;
    2 5 "indev" "\n  indev " Text;
    3 90 "actions" "" Objects("", "", "");
    4 10 "dst_mac" "\n  dst_mac " Own;
    5 0 "" "" Apart;
    6 11 "src_mac" "\n  src_mac " Own;
    7 0 "" "" Apart;
    8 18 "eth_type" "\n  eth_type " Own;
    9 19 "ip_proto" "\n  ip_proto " Own;
    10 27 "src_ip" "\n  src_ip " Own;
    11 0 "" "" Apart;
    12 26 "dst_ip" "\n  dst_ip " Own;
    13 0 "" "" Apart;
    14 27 "src_ip" "\n  src_ip " Own;
    15 0 "" "" Apart;
    16 26 "dst_ip" "\n  dst_ip " Own;
    17 0 "" "" Apart;
    18 29 "src_port" "\n  src_port " Own;
    19 28 "dst_port" "\n  dst_port " Own;
    20 29 "src_port" "\n  src_port " Own;
    21 28 "dst_port" "\n  dst_port " Own;
    22 80 "flags" "" Own;
    23 12 "vlan_id" "\n  vlan_id " Own;
    24 13 "vlan_prio" "\n  vlan_prio " Own;
    25 14 "vlan_ethtype" "\n  vlan_ethtype " Own;
    26 44 "enc_key_id" "\n  enc_key_id " Own;
    27 43 "enc_src_ip" "\n  enc_src_ip " Own;
    28 0 "" "" Apart;
    29 42 "enc_dst_ip" "\n  enc_dst_ip " Own;
    30 0 "" "" Apart;
    31 43 "enc_src_ip" "\n  enc_src_ip " Own;
    32 0 "" "" Apart;
    33 42 "enc_dst_ip" "\n  enc_dst_ip " Own;
    34 0 "" "" Apart;
    35 0 "src_port_mask" "" Apart;
    36 0 "dst_port_mask" "" Apart;
    37 0 "src_port_mask" "" Apart;
    38 0 "dst_port_mask" "" Apart;
    39 0 "src_port_mask" "" Apart;
    40 0 "dst_port_mask" "" Apart;
    41 29 "src_port" "\n  src_port " Own;
    42 28 "dst_port" "\n  dst_port " Own;
    43 46 "enc_src_port" "\n  enc_src_port " Own;
    44 0 "enc_src_port_mask" "" Apart;
    45 45 "enc_dst_port" "\n  enc_dst_port " Own;
    46 0 "enc_dst_port_mask" "" Apart;
    47 49 "ip_flags" "\n  ip_flags " Own;
    48 0 "" "" Apart;
    49 36 "icmp_code" "\n  icmp_code " Own;
    50 0 "icmp_code_mask" "" Apart;
    51 35 "icmp_type" "\n  icmp_type " Own;
    52 0 "icmp_type_mask" "" Apart;
    53 36 "icmp_code" "\n  icmp_code " Own;
    54 0 "icmp_code_mask" "" Apart;
    55 35 "icmp_type" "\n  icmp_type " Own;
    56 0 "icmp_type_mask" "" Apart;
    57 37 "arp_sip" "\n  arp_sip " Own;
    58 0 "" "" Apart;
    59 38 "arp_tip" "\n  arp_tip " Own;
    60 0 "" "" Apart;
    61 39 "arp_op" "\n  arp_op " Own;
    62 0 "" "" Apart;
    63 40 "arp_sha" "\n  arp_sha " Own;
    64 0 "" "" Apart;
    65 41 "arp_tha" "\n  arp_tha " Own;
    66 0 "" "" Apart;
    67 25 "mpls_ttl" "\n  mpls_ttl " Own;
    68 24 "mpls_bos" "\n  mpls_bos " Own;
    69 23 "mpls_tc" "\n  mpls_tc " Own;
    70 22 "mpls_label" "\n  mpls_label " Own;
    71 34 "tcp_flags" "\n  tcp_flags " Own;
    72 0 "" "" Apart;
    73 20 "ip_tos" "\n  ip_tos " Own;
    74 0 "ip_tos_mask" "" Apart;
    75 21 "ip_ttl" "\n  ip_ttl " Own;
    76 0 "ip_ttl_mask" "" Apart;
    77 15 "cvlan_id" "\n  cvlan_id " Own;
    78 16 "cvlan_prio" "\n  cvlan_prio " Own;
    79 17 "cvlan_ethtype" "\n  cvlan_ethtype " Own;
    80 47 "enc_tos" "\n  enc_tos " Own;
    81 0 "enc_tos_mask" "" Apart;
    82 48 "enc_ttl" "\n  enc_ttl " Own;
    83 0 "enc_ttl_mask" "" Apart;
    84 48 "" "" Own;
    85 0 "" "" Apart;
    86 83 "in_hw_count" "in_hw_count " Number, IfAny;
    87 33 "src_port" "\n  src_port" Own;
    88 0 "" "" Apart;
    89 32 "dst_port" "\n  dst_port" Own;
    90 0 "" "" Apart;
    91 50 "ct_state" "\n  ct_state " Own;
    92 0 "" "" Apart;
    93 51 "ct_zone" "\n  ct_zone " Own;
    94 0 "ct_zone_mask" "" Apart;
    95 52 "ct_mark" "\n  ct_mark " Own;
    96 0 "ct_mark_mask" "" Apart;
    97 53 "ct_label" "\n  ct_label " Own;
    98 0 "" "" Apart;
    99 60 "mpls" "\n  mpls" Objects("", "", "");
    100 54 "hash" "\n  hash " Own;
    101 0 "hash_mask" "" Apart;
    102 9 "num_of_vlans" "\n  num_of_vlans " Number;
    103 18 "pppoe_sid" "\n  pppoe_sid " Number;
    104 18 "ppp_proto" "\n  ppp_proto " Own;
    105 31 "l2tpv3_sid" "\n  l2tpv3_sid " Number;
    106 17 "l2_miss" "\n  l2_miss " Number;
    107 41 "cfm" "\n  cfm" Object;
    108 31 "spi" "\n  spi " Own;
    109 0 "" "" Apart;
    110 49 "enc_flags" "\n  enc_flags " Own;
    111 0 "" "" Apart;
];

/// Of labels in it (`TCA_FLOWER_KEY_MPLS_OPTS_*`).
pub const FLOWER_MPLS: Rows = crate::rows![
    1 0 "" "" Flat;
];

/// Of one of them (`TCA_FLOWER_KEY_MPLS_OPT_LSE_*`).
pub const FLOWER_MPLS_LSE: Rows = crate::rows![
    1 0 "depth" "\n    lse depth " Number;
    2 4 "ttl" "ttl " Number;
    3 3 "bos" "bos " Number;
    4 2 "tc" "tc " Number;
    5 1 "label" "label " Number;
];

/// Values, and the masks that stand beside them.
const MASKS: &[(u16, u16)] = &[
    (4, 5),
    (6, 7),
    (10, 11),
    (12, 13),
    (14, 15),
    (16, 17),
    (18, 35),
    (19, 36),
    (20, 37),
    (21, 38),
    (27, 28),
    (29, 30),
    (31, 32),
    (33, 34),
    (41, 39),
    (42, 40),
    (43, 44),
    (45, 46),
    (47, 48),
    (49, 50),
    (51, 52),
    (53, 54),
    (55, 56),
    (57, 58),
    (59, 60),
    (61, 62),
    (63, 64),
    (65, 66),
    (71, 72),
    (73, 74),
    (75, 76),
    (80, 81),
    (82, 83),
    (91, 92),
    (93, 94),
    (95, 96),
    (97, 98),
    (100, 101),
];

/// What is asked of ARP (`ARPOP_*` of `linux/if_arp.h`).
const OPERATIONS: Names = &[(1, "request"), (2, "reply")];

/// Protocols of frames, which have a name as the one that a message stands under.
const FRAMES_OF_KEYS: Names = &[(0x0800, "ipv4"), (0x86dd, "ipv6"), (0x0806, "arp")];

/// `IPPROTO_ICMPV6`, which `tc` names in its own way.
const ICMPV6: u32 = 58;

const ICMPV6_NAME: Names = &[(ICMPV6, "icmpv6")];

/// Which pieces of a packet (`TCA_FLOWER_KEY_FLAGS_*`).
const FRAGMENTS: Names = &[(0x1, "frag"), (0x2, "firstfrag")];

/// What is known of a connection (`TCA_FLOWER_KEY_CT_FLAGS_*`).
const STATES: Names = &[
    (0x8, "trk"),
    (0x1, "new"),
    (0x2, "est"),
    (0x4, "rel"),
    (0x10, "inv"),
    (0x20, "rpl"),
];

const START: Word = &Wording(0, "start", "");

const END: Word = &Wording(1, "end", "-");

/// Values with masks, and numbers with names.
pub fn push_own(fields: &mut Fields, list: List<'_>, word: Word, seen: &Seen<'_>) {
    let number = small(&seen.value);
    match seen.number {
        1 => push_handle(fields, word, seen.bytes),
        8 => push_type(fields, word, number),
        9 if number == ICMPV6 => fields.named(word, ICMPV6_NAME, number),
        9 => fields.named(word, IP_PROTOCOLS, number),
        22 => push_places_below(fields, word, number),
        25 | 79 => push_frame(fields, word, number),
        47 => push_bits(
            fields,
            word,
            ("/", "no", ""),
            (FRAGMENTS, number, list.number(48)),
        ),
        61 => fields.named(word, OPERATIONS, number),
        71 => push_flags(fields, word, number, list.number_if(72)),
        84 | 104 | 108 | 110 => push_key(fields, list, word, seen),
        87 | 89 => push_range(fields, list, word, seen),
        91 => push_bits(
            fields,
            word,
            ("", "-", "+"),
            (STATES, number, list.number(92)),
        ),
        _ => push_masked(fields, list, word, seen),
    }
}

/// The protocol of a frame, by its digits where it has no name.
fn push_type(fields: &mut Fields, word: Word, number: u32) {
    match fields.manner.name(FRAMES_OF_KEYS, number) {
        Some(name) => fields.text(word, &name),
        None => {
            let text = format!(in fields.manner.alloc; "{number:04x}");
            fields.made(word, text)
        }
    }
}

/// Flags of TCP, and which of them count.
fn push_flags(fields: &mut Fields, word: Word, bits: u32, mask: Option<u32>) {
    let alloc = fields.manner.alloc;
    let text = match mask {
        Some(mask) => format!(in alloc; "{bits:#x}/{mask:x}"),
        None => format!(in alloc; "{bits:#x}"),
    };
    fields.made(word, text)
}

/// The names of the bits that count, each behind a mark that says whether it is set: what stands between
/// them, before one that is not, and before one that is.
pub fn push_bits(
    fields: &mut Fields,
    word: Word,
    (between, not, set): (&str, &str, &str),
    (names, bits, mask): (Names, u32, u32),
) {
    let mut inside = Fields::new(fields.manner);
    for (bit, name) in names {
        if mask & *bit != 0 {
            let mark = if bits & *bit != 0 { set } else { not };
            inside.made(ITEM, format!(in fields.manner.alloc; "{mark}{name}"));
        }
    }
    fields.list_in(word, inside, ("", between, ""))
}

/// The lowest port of a range, and the highest, which the next number has.
fn push_range(fields: &mut Fields, list: List<'_>, word: Word, seen: &Seen<'_>) {
    let mut inside = Fields::new(fields.manner);
    inside.number(START, small(&seen.value));
    inside.number(END, list.number(if seen.number == 87 { 88 } else { 90 }));
    fields.object(word, inside)
}

/// The mask beside the value of this number.
fn mask_of(list: List<'_>, number: u16) -> Option<Seen<'_>> {
    let (_, mask) = MASKS.iter().find(|row| row.0 == number)?;
    list.first(*mask)
}

/// A value, and which of its bits count, where not all do.
fn push_masked(fields: &mut Fields, list: List<'_>, word: Word, seen: &Seen<'_>) {
    match mask_of(list, seen.number) {
        Some(mask) if !is_whole(mask.bytes) => push_part(fields, word, seen, &mask),
        _ if is_number(seen) => fields.number(word, small(&seen.value)),
        _ => fields.text(word, &Plain(seen)),
    }
}

/// A value, and those of its bits that count: as the length of a prefix, if they are one.
fn push_part(fields: &mut Fields, word: Word, seen: &Seen<'_>, mask: &Seen<'_>) {
    if is_number(seen) {
        return push_number(fields, word, seen, mask);
    }
    let alloc = fields.manner.alloc;
    let text = match prefix_of(mask.bytes) {
        Some(length) => format!(in alloc; "{}/{length}", Plain(seen)),
        None => format!(in alloc; "{}/{}", Plain(seen), Plain(mask)),
    };
    fields.made(word, text)
}

/// A number, and which of its bits count, by the word of their row. Those of ICMP stand in a line as a number.
fn push_number(fields: &mut Fields, word: Word, seen: &Seen<'_>, mask: &Seen<'_>) {
    let (number, bits) = (small(&seen.value), small(&mask.value));
    let text = match seen.number {
        49..=56 => format!(in fields.manner.alloc; "{number}/{bits}"),
        _ => format!(in fields.manner.alloc; "{number}/{bits:#x}"),
    };
    fields.written(word, number, text);
    if let Some(row) = FLOWER.iter().find(|row| row.number == mask.number) {
        fields.made(row.word, format!(in fields.manner.alloc; "{bits:x}"));
        fields.hide();
    }
}

/// Whether a mask has all bits.
fn is_whole(mask: &[u8]) -> bool {
    mask.iter().all(|byte| *byte == 0xff)
}

/// Whether a value is neither an address nor bytes.
fn is_number(seen: &Seen<'_>) -> bool {
    !matches!(
        seen.value,
        Value::Address(_) | Value::Bytes(_) | Value::Structure(_)
    )
}

/// A value without a mask. The bytes of the address of a device have a colon between them.
#[derive(Clone, Copy)]
struct Plain<'a>(&'a Seen<'a>);

impl fmt::Display for Plain<'_> {
    fn fmt<W: fmt::Write>(&self, f: &mut fmt::Formatter<W>) -> fmt::Result {
        match &self.0.value {
            Value::Address(ip) => write!(f, "{}", Inet(ip)),
            Value::Bytes(bytes) | Value::Structure(bytes) => match bytes.len() {
                6 => write!(f, "{}", Hexadecimal(bytes, ":")),
                _ => write!(f, "{}", Hexadecimal(bytes, "")),
            },
            value => write!(f, "{}", small(value)),
        }
    }
}
