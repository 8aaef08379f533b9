//! What is shown of the other end of a pair.

use crate::field::{Fields, Word, Wording};
use crate::link_names::{LINK_MODES, LINK_TYPES, STATES};
use crate::list::Head;
use crate::row::How::{Group, Named, Number, OfType, Text};
use crate::row::Rows;
use netlink_packet_route::AddressFamily;
use netlink_packet_route::link::LinkMessageBuffer;

/// Of the other end of a pair.
pub const PEER: Rows = crate::rows![
    1 6 "address" "address " OfType;
    2 7 "broadcast" "broadcast " OfType;
    3 1 "ifname" "name " Text;
    4 8 "mtu" "mtu " Number;
    13 12 "txqlen" "qlen " Number;
    16 9 "operstate" "state " Named(STATES);
    17 10 "linkmode" "mode " Named(LINK_MODES);
    19 13 "net_ns_pid" "netns-pid " Number;
    27 11 "group" "group " Group;
    28 14 "net_ns_fd" "netns-fd " Number;
    31 16 "num_tx_queues" "numtxqueues " Number;
    32 17 "num_rx_queues" "numrxqueues " Number;
    40 18 "gso_max_segs" "gso_max_segs " Number;
    41 19 "gso_max_size" "gso_max_size " Number;
    46 15 "if_netnsid" "if-netnsid " Number;
    58 20 "gro_max_size" "gro_max_size " Number;
    63 21 "gso_ipv4_max_size" "gso_ipv4_max_size " Number;
    64 22 "gro_ipv4_max_size" "gro_ipv4_max_size " Number;
];

/// The header of the other end of a pair: what is not 0.
pub fn push_peer_header(fields: &mut Fields, bytes: &[u8]) -> Head {
    let none = Head::default();
    let Ok(header) = LinkMessageBuffer::parse(bytes) else {
        return none;
    };
    let (index, of_type) = (header.link_index, header.link_layer_type);
    fields.number(&Wording(0, "ifindex", "index "), index);
    fields.hide_if(index == 0);
    fields.bits(&Wording(2, "flags", "flags "), header.flags);
    fields.hide_if(header.flags == 0);
    fields.bits(&Wording(3, "change", "change "), header.change_mask);
    fields.hide_if(header.change_mask == 0);
    fields.named(&Wording(4, "link_type", "link/"), LINK_TYPES, of_type);
    fields.hide_if(of_type == 0);
    let family = AddressFamily::from(header.interface_family);
    fields.text(&Wording(5, "family", "family "), &family);
    fields.hide_if(family == AddressFamily::Unspec);
    Head { of_type, ..none }
}
