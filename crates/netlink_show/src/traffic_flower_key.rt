//! What is shown of keys of the filter flower that have a way of their own.

use crate::field::{Fields, Word};
use crate::list::{List, Seen, small};
use crate::names::Names;
use crate::row::How::Number;
use crate::row::Rows;
use crate::traffic_flower::push_bits;
use crate::tunnel_option::push_looked_at;

/// Of frames that watch connections (`TCA_FLOWER_KEY_CFM_*` of `linux/pkt_cls.h`).
pub const FLOWER_CFM: Rows = crate::rows![
    1 0 "mdl" "mdl " Number;
    2 1 "op" "op " Number;
];

/// Protocols over PPP (`PPP_*` of `linux/ppp_defs.h`).
const PPP_PROTOCOLS: Names = &[
    (0x0021, "ip"),
    (0x0057, "ipv6"),
    (0x0281, "mpls_uc"),
    (0x0283, "mpls_mc"),
];

/// What is known of a tunnel (`TCA_FLOWER_KEY_FLAGS_TUNNEL_*` of `linux/pkt_cls.h`).
const OF_TUNNEL: Names = &[
    (0x4, "tuncsum"),
    (0x8, "tundf"),
    (0x10, "tunoam"),
    (0x20, "tuncrit"),
];

/// Keys whose numbers are above those of most.
pub fn push_key(fields: &mut Fields, list: List<'_>, word: Word, seen: &Seen<'_>) {
    let number = small(&seen.value);
    match seen.number {
        84 => push_looked_at(fields, list, seen),
        104 => push_ppp(fields, word, number),
        108 => push_index(fields, word, number, list.number_if(109)),
        _ => push_bits(
            fields,
            word,
            ("/", "no", ""),
            (OF_TUNNEL, number, list.number(111)),
        ),
    }
}

/// A protocol over PPP by its name, or by its number in brackets.
fn push_ppp(fields: &mut Fields, word: Word, number: u32) {
    match fields.manner.name(PPP_PROTOCOLS, number) {
        Some(name) => fields.text(word, &name),
        None => {
            let text = format!(in fields.manner.alloc; "[{number}]");
            fields.made(word, text)
        }
    }
}

/// The index of the parameters of a secure connection, and which of its bits count, where not all do.
fn push_index(fields: &mut Fields, word: Word, number: u32, mask: Option<u32>) {
    let alloc = fields.manner.alloc;
    match mask {
        None | Some(u32::MAX) => {
            let text = format!(in alloc; "{number:#x}");
            fields.text_shown(word, &format_args!("{number:x}"), text)
        }
        Some(mask) => {
            let text = format!(in alloc; "{number:#x}/{mask:#x}");
            fields.text_shown(word, &format_args!("{number:x}/{mask:x}"), text)
        }
    }
}
