//! What is shown of encapsulations by labels, over IP and by IPsec, with their options.

use crate::field::{self, Fields, ITEM, Word, Wording};
use crate::list::{List, Seen, small};
use crate::row::How::{Alone, Flat, Interface, Mark, Number, Objects, Own, Text};
use crate::row::Rows;
use netlink_packet_route::framing::NlasIterator;

/// Of an encapsulation by labels.
pub const MPLS: Rows = crate::rows![
    1 0 "dst" "" Own;
    2 1 "ttl" "ttl " Number;
];

/// Of a tunnel over version 4.
pub const IP: Rows = crate::rows![
    0 100 "unspecified" "unspecified" Mark;
    1 0 "id" "id " Number;
    2 2 "dst" "dst " Text;
    3 1 "src" "src " Text;
    4 3 "ttl" "ttl " Number;
    5 4 "tos" "tos " Number;
    6 8 "flags" "flags " Own;
    8 0 "" "" Flat;
];

/// The same over version 6.
pub const IP6: Rows = crate::rows![
    0 100 "unspecified" "unspecified" Mark;
    1 0 "id" "id " Number;
    2 2 "dst" "dst " Text;
    3 1 "src" "src " Text;
    4 3 "hoplimit" "hoplimit " Number;
    5 4 "tc" "tc " Number;
    6 8 "flags" "flags " Own;
    8 0 "" "" Flat;
];

/// Of an encapsulation for IPsec.
pub const XFRM_ENCAP: Rows = crate::rows![
    0 100 "unspecified" "unspecified" Mark;
    1 0 "if_id" "if_id " Number;
    2 1 "link_dev" "link_dev " Interface;
];

/// Of options of a tunnel.
pub const OPTIONS: Rows = crate::rows![
    1 9 "geneve_opts" "geneve_opts " Own;
    2 10 "vxlan_opts" "vxlan_opts " Objects("", " ", "");
    3 11 "erspan_opts" "erspan_opts " Alone("", "");
];

/// Of an option of VXLAN.
pub const VXLAN_OPTIONS: Rows = crate::rows![1 0 "gbp" "" Number;];

/// Of the options of ERSPAN.
pub const ERSPAN_OPTIONS: Rows = crate::rows![
    1 0 "ver" "" Number;
    2 1 "index" ":" Number;
    3 2 "dir" ":" Number;
    4 3 "hwid" ":" Number;
];

/// The flags of a tunnel that have a word (`TUNNEL_*`).
const FLAGS: field::Flags = &[
    (0x1, &Wording(6, "csum", "csum")),
    (0x4, &Wording(5, "key", "key")),
    (0x8, &Wording(7, "seq", "seq")),
];

/// Flags of which some have words.
pub fn push_own(fields: &mut Fields, word: Word, seen: &Seen<'_>) {
    let rest = fields.flags(FLAGS, small(&seen.value), Some(true));
    fields.some_bits(word, rest);
}

/// Options of Geneve: each is a class, a type and data.
pub fn push_geneve(fields: &mut Fields, word: Word, bytes: &[u8]) {
    let mut objects = Fields::new(fields.manner);
    let (mut class, mut kind, mut data) = (None, 0, &bytes[..0]);
    for next in NlasIterator::new(bytes) {
        let Ok(item) = next else {
            return;
        };
        match (item.kind(), item.value()) {
            (1, [a, b]) => {
                push_option(&mut objects, class, kind, data);
                (class, kind, data) = (Some(u16::from_be_bytes([*a, *b])), 0, &bytes[..0]);
            }
            (2, [of_type]) => kind = *of_type,
            (3, more) => data = more,
            _ => {}
        }
    }
    push_option(&mut objects, class, kind, data);
    fields.list(word, objects, ",");
}

/// An option of Geneve, if there is one.
fn push_option(objects: &mut Fields, class: Option<u16>, kind: u8, data: &[u8]) {
    if let Some(class) = class {
        let mut inside = Fields::new(objects.manner);
        inside.number(&Wording(0, "class", ""), class);
        inside.number(&Wording(1, "type", ":"), kind);
        inside.bytes(&Wording(2, "data", ":"), data);
        objects.object(ITEM, inside);
    }
}

/// The members of ERSPAN, of which `ip` prints 0 for one that is not there.
pub fn push_erspan(fields: &mut Fields, list: List<'_>) {
    for row in ERSPAN_OPTIONS {
        if !list.has(row.number) {
            fields.number(row.word, 0u8);
        }
    }
}
