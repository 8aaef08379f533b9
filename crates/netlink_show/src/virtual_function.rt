//! What is shown of the virtual functions and ports of a link.

use crate::bridge::push_tag;
use crate::field::{Fields, Word, Wording};
use crate::list::{List, Seen};
use crate::manner::LinkAddress;
use crate::names::Names;
use crate::part::{number_at, push_parts, push_structure};
use crate::row::How::{Flat, Named, Number, Object, Objects, Own, Text};
use crate::row::Line::{IfAny, Never};
use crate::row::{Parts, Rows};
use std::alloc::AllocError;

/// Of virtual functions, in a list of them.
pub const FUNCTIONS: Rows = crate::rows![1 0 "" "" Flat;];

/// Of a virtual function.
pub const FUNCTION: Rows = crate::rows![
    1 0 "vf" "\n    vf " Own;
    2 3 "vlan" "" Own;
    3 6 "tx_rate" "" Own;
    4 8 "spoofchk" "spoofchk " Own;
    5 11 "link_state" "" Own;
    6 7 "rate" "" Own;
    7 13 "query_rss_en" "query_rss " Own;
    8 14 "stats" "" Object, Never;
    9 12 "trust" "trust " Own;
    10 9 "node_guid" "node_guid " Own;
    11 10 "port_guid" "port_guid " Own;
    12 5 "vlan_list" "" Objects("", " ", "");
    13 2 "broadcast" "brd " Own;
];

/// Of the counters of one.
pub const FUNCTION_STATS: Rows = crate::rows![
    0 0 "rx_packets" "" Number;
    1 1 "tx_packets" "" Number;
    2 2 "rx_bytes" "" Number;
    3 3 "tx_bytes" "" Number;
    4 4 "broadcast" "" Number;
    5 5 "multicast" "" Number;
    7 6 "rx_dropped" "" Number;
    8 7 "tx_dropped" "" Number;
];

/// Of the VLANs of one.
pub const FUNCTION_VLANS: Rows = crate::rows![1 0 "protocol" "protocol " Own;];

/// Of ports, in a list of them.
pub const FUNCTION_PORTS: Rows = crate::rows![1 0 "" "\n    port" Object;];

/// Of a port.
pub const FUNCTION_PORT: Rows = crate::rows![
    1 0 "vf" "vf " Number;
    2 1 "profile" "profile " Text;
    4 2 "instance" "instance " Own;
    5 3 "host" "host " Own;
    6 4 "request" "request " Number;
    7 5 "response" "response " Number;
];

/// The VLAN and its priority, behind the number of the function (`struct ifla_vf_vlan`).
const VLAN: Parts = crate::parts![
    U32 4 3 "vlan" "vlan " Number, IfAny;
    U32 8 4 "qos" "qos " Number, IfAny;
];

/// The rate of `struct ifla_vf_tx_rate`.
const TX_RATE: Parts = crate::parts![U32 4 6 "tx_rate" "tx_rate " Number, IfAny;];

/// The rates of `struct ifla_vf_rate`.
const RATES: Parts = crate::parts![
    U32 8 0 "max_tx" "max_tx_rate " Number, IfAny;
    U32 4 1 "min_tx" "min_tx_rate " Number, IfAny;
];

/// The state of `struct ifla_vf_link_state`.
const STATE: Parts = crate::parts![U32 4 11 "link_state" "link-state " Named(STATES);];

/// The states (`IFLA_VF_LINK_STATE_*`).
const STATES: Names = &[(0, "auto"), (1, "enable"), (2, "disable")];

/// The identifier of `struct ifla_vf_guid`.
const IDENTIFIER: usize = 8;

const ADDRESS: Word = &Wording(1, "address", "");

/// The type of links of InfiniBand (`ARPHRD_INFINIBAND`).
const INFINIBAND: u16 = 32;

/// The structures of a function.
pub fn push_own(fields: &mut Fields, list: List<'_>, word: Word, seen: &Seen<'_>) {
    let bytes = seen.bytes;
    match seen.number {
        1 => {
            fields.number(word, number_at(bytes, 0));
            push_address(fields, list, ADDRESS, bytes.get(4..));
        }
        2 => push_parts(fields, list, bytes, VLAN),
        3 => push_parts(fields, list, bytes, TX_RATE),
        5 => push_parts(fields, list, bytes, STATE),
        6 => push_structure(fields, list, word, bytes, RATES),
        10 | 11 => push_identifier(fields, word, bytes),
        13 => push_address(fields, list, word, Some(bytes)),
        // What a driver says nothing of has all bits.
        _ => match number_at(bytes, 4) {
            u32::MAX => {}
            setting => fields.switch(word, setting != 0),
        },
    }
}

/// A VLAN in a list of them, with the protocol of its tags.
pub fn push_vlan(fields: &mut Fields, list: List<'_>, word: Word, seen: &Seen<'_>) {
    push_parts(fields, list, seen.bytes, VLAN);
    match seen.bytes.get(12..).unwrap_or(&[]).first_chunk() {
        Some(protocol) => push_tag(fields, word, u32::from(u16::from_be_bytes(*protocol))),
        None => {}
    }
}

/// An address, of which the type of the link tells the length.
fn push_address(fields: &mut Fields, list: List<'_>, word: Word, bytes: Option<&[u8]>) {
    let of_type = list.head.of_type;
    let length = if of_type == INFINIBAND { 20 } else { 6 };
    match bytes.unwrap_or(&[]).get(..length) {
        Some(address) => fields.text(word, &LinkAddress(address, of_type)),
        None => {}
    }
}

/// An identifier of a port, in the form of RFC 9562 (section 4).
pub fn push_uuid(fields: &mut Fields, word: Word, bytes: &[u8]) {
    let (Some(front), Some(back)) = (bytes.first_chunk(), bytes.last_chunk()) else {
        return;
    };
    let (high, low) = (u64::from_be_bytes(*front), u64::from_be_bytes(*back));
    let (time, middle, version) = (high >> 32, high >> 16 & 0xffff, high & 0xffff);
    let (variant, node) = (low >> 48, low & 0xffff_ffff_ffff);
    match format!(in fields.manner.alloc;
        "{time:08x}-{middle:04x}-{version:04x}-{variant:04x}-{node:012x}"
    ) {
        Ok(text) => fields.text(word, &text),
        Err(AllocError) => fields.refuse(),
    }
}

fn push_identifier(fields: &mut Fields, word: Word, bytes: &[u8]) {
    match bytes.get(IDENTIFIER..).unwrap_or(&[]).first_chunk() {
        Some(identifier) => {
            let number = u64::from_le_bytes(*identifier);
            fields.text(word, &format_args!("{:016x}", number))
        }
        None => {}
    }
}
