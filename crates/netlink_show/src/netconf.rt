//! What is shown of the settings of an interface.

use crate::field::{Fields, Word, Wording};
use crate::list::{Seen, small};
use crate::names::Names;
use crate::row::How::{Known, Own, Setting};
use crate::row::Rows;
use crate::walk::push_message;
use netlink_packet_route::MessageKind;
use netlink_packet_route::netconf::NetconfMessageBuffer;

/// How strictly the way back of a packet is looked at.
const FILTERS: Names = &[(0, "off"), (1, "strict"), (2, "loose")];

/// Of settings.
pub const NETCONF: Rows = crate::rows![
    1 3 "interface" "" Own;
    2 4 "forwarding" "forwarding " Setting;
    3 5 "rp_filter" "rp_filter " Known(FILTERS, &Wording(5, "rp_filter", "rp_filter "));
    4 6 "mc_forwarding" "mc_forwarding " Setting;
    5 7 "proxy_neigh" "proxy_neigh " Setting;
    6 8 "ignore_routes_with_linkdown" "ignore_routes_with_linkdown " Setting;
    7 9 "input" "input " Setting;
    8 10 "bc_forwarding" "bc_forwarding " Setting;
    9 11 "force_forwarding" "force_forwarding " Setting;
];

const FAMILY: Word = &Wording(2, "family", "");

/// What stands in the place of an interface (`NETCONFA_IFINDEX_*`).
const ALL: Names = &[(0xffff_ffff, "all"), (0xffff_fffe, "default")];

/// What is shown of settings.
pub fn push_netconf(fields: &mut Fields, bytes: &[u8]) {
    let Ok(header) = NetconfMessageBuffer::parse(bytes) else {
        return;
    };
    fields.family(FAMILY, header.family);
    push_message(fields, MessageKind::Netconf, bytes);
}

/// An interface, or all.
pub fn push_own(fields: &mut Fields, word: Word, seen: &Seen<'_>) {
    let index = small(&seen.value);
    match fields.manner.name(ALL, index) {
        Some(name) => fields.text(word, &name),
        None => fields.interface(word, index),
    }
}
