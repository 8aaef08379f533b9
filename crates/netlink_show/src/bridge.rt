//! What is shown of a bridge and of its ports.

use crate::field::{self, Fields, Word, Wording};
use crate::link_names::{BRIDGE_GROUPS, PORT_STATES, TAGS};
use crate::list::{List, Seen, small};
use crate::manner::BitNames;
use crate::row::How::{
    Apart, Bits, Hardware, Hundredths, Interface, Mark, Number, Own, Switch, Text,
};
use crate::row::Rows;
use crate::walk::{push_all_rows, push_rows};
use netlink_packet_route::Flags;
use netlink_packet_route::framing::AttributeSet;
use netlink_packet_route::link::{BridgeBooleanOptions, BridgeId};
use std::fmt;

/// Of a bridge.
pub const BRIDGE: Rows = crate::rows![
    1 1 "forward_delay" "forward_delay " Number;
    2 2 "hello_time" "hello_time " Number;
    3 3 "max_age" "max_age " Number;
    4 4 "ageing_time" "ageing_time " Number;
    5 5 "stp_state" "stp_state " Number;
    6 6 "priority" "priority " Number;
    7 7 "vlan_filtering" "vlan_filtering " Number;
    8 8 "vlan_protocol" "vlan_protocol " Own;
    9 24 "group_fwd_mask" "group_fwd_mask " Bits;
    10 10 "root_id" "designated_root " Own;
    11 9 "bridge_id" "bridge_id " Own;
    12 11 "root_port" "root_port " Number;
    13 12 "root_path_cost" "root_path_cost " Number;
    14 13 "topology_change" "topology_change " Number;
    15 14 "topology_change_detected" "topology_change_detected " Number;
    16 15 "hello_timer" "hello_timer " Hundredths;
    17 16 "tcn_timer" "tcn_timer " Hundredths;
    18 17 "topology_change_timer" "topology_change_timer " Hundredths;
    19 18 "gc_timer" "gc_timer " Hundredths;
    20 25 "group_addr" "group_address " Hardware;
    21 55 "fdb_flush" "fdb_flush" Mark;
    22 33 "mcast_router" "mcast_router " Number;
    23 26 "mcast_snooping" "mcast_snooping " Number;
    24 34 "mcast_query_use_ifaddr" "mcast_query_use_ifaddr " Number;
    25 35 "mcast_querier" "mcast_querier " Number;
    26 38 "mcast_hash_elasticity" "mcast_hash_elasticity " Number;
    27 39 "mcast_hash_max" "mcast_hash_max " Number;
    28 40 "mcast_last_member_cnt" "mcast_last_member_count " Number;
    29 41 "mcast_startup_query_cnt" "mcast_startup_query_count " Number;
    30 42 "mcast_last_member_intvl" "mcast_last_member_interval " Number;
    31 43 "mcast_membership_intvl" "mcast_membership_interval " Number;
    32 44 "mcast_querier_intvl" "mcast_querier_interval " Number;
    33 45 "mcast_query_intvl" "mcast_query_interval " Number;
    34 46 "mcast_query_response_intvl" "mcast_query_response_interval " Number;
    35 47 "mcast_startup_query_intvl" "mcast_startup_query_interval " Number;
    36 51 "nf_call_iptables" "nf_call_iptables " Number;
    37 52 "nf_call_ip6tables" "nf_call_ip6tables " Number;
    38 53 "nf_call_arptables" "nf_call_arptables " Number;
    39 21 "vlan_default_pvid" "vlan_default_pvid " Number;
    41 22 "vlan_stats_enabled" "vlan_stats_enabled " Number;
    42 48 "mcast_stats_enabled" "mcast_stats_enabled " Number;
    43 49 "mcast_igmp_version" "mcast_igmp_version " Number;
    44 50 "mcast_mld_version" "mcast_mld_version " Number;
    45 23 "vlan_stats_per_port" "vlan_stats_per_port " Number;
    46 32 "options" "options " Own;
    47 36 "mcast_querier_state_ipv4" "" Own;
    48 19 "fdb_n_learned" "fdb_n_learned " Number;
    49 20 "fdb_max_learned" "fdb_max_learned " Number;
    50 54 "stp_mode" "stp_mode " Number;
];

/// Of a port of a bridge.
pub const BRIDGE_PORT: Rows = crate::rows![
    1 1 "state" "state " Own;
    2 2 "priority" "priority " Number;
    3 3 "cost" "cost " Number;
    4 4 "hairpin" "hairpin " Switch;
    5 5 "guard" "guard " Switch;
    6 6 "root_block" "root_block " Switch;
    7 7 "fastleave" "fastleave " Switch;
    8 8 "learning" "learning " Switch;
    9 9 "flood" "flood " Switch;
    10 21 "proxy_arp" "proxy_arp " Switch;
    11 38 "learning_sync" "learning_sync " Switch;
    12 22 "proxy_arp_wifi" "proxy_arp_wifi " Switch;
    13 15 "root_id" "designated_root " Own;
    14 14 "bridge_id" "designated_bridge " Own;
    15 12 "designated_port" "designated_port " Number;
    16 13 "designated_cost" "designated_cost " Number;
    17 10 "id" "port_id " Bits;
    18 11 "no" "port_no " Bits;
    19 19 "topology_change_ack" "topology_change_ack " Number;
    20 20 "config_pending" "config_pending " Number;
    21 17 "message_age_timer" "message_age_timer " Hundredths;
    22 18 "forward_delay_timer" "forward_delay_timer " Hundredths;
    23 16 "hold_timer" "hold_timer " Hundredths;
    24 46 "flush" "flush" Mark;
    25 23 "multicast_router" "mcast_router " Number;
    27 25 "mcast_flood" "mcast_flood " Switch;
    28 27 "mcast_to_unicast" "mcast_to_unicast " Switch;
    29 32 "vlan_tunnel" "vlan_tunnel " Switch;
    30 26 "bcast_flood" "bcast_flood " Switch;
    31 30 "group_fwd_mask" "group_fwd_mask " Own;
    32 28 "neigh_suppress" "neigh_suppress " Switch;
    33 33 "isolated" "isolated " Switch;
    34 36 "backup_port" "backup_port " Interface;
    35 43 "mrp_ring_open" "mrp_ring_open " Switch;
    36 44 "mrp_in_open" "mrp_in_open " Switch;
    37 41 "mcast_eht_hosts_limit" "mcast_eht_hosts_limit " Number;
    38 42 "mcast_eht_hosts_cnt" "mcast_eht_hosts_cnt " Number;
    39 34 "locked" "locked " Switch;
    40 35 "mab" "mab " Switch;
    41 39 "mcast_n_groups" "mcast_n_groups " Number;
    42 40 "mcast_max_groups" "mcast_max_groups " Number;
    43 29 "neigh_vlan_suppress" "neigh_vlan_suppress " Switch;
    44 37 "backup_nhid" "backup_nhid " Number;
    45 45 "neigh_forward_grat" "neigh_forward_grat " Switch;
];

/// Of who asks for groups in version 4.
const QUERIER: Rows = crate::rows![
    1 0 "mcast_querier_ipv4_addr" "mcast_querier_ipv4_addr " Text;
    2 1 "mcast_querier_ipv4_port" "mcast_querier_ipv4_port " Number;
    3 2 "mcast_querier_ipv4_other_timer" "mcast_querier_ipv4_other_timer " Hundredths;
];

/// Of who asks for groups in version 6.
const QUERIER6: Rows = crate::rows![
    5 0 "mcast_querier_ipv6_addr" "mcast_querier_ipv6_addr " Text;
    6 1 "mcast_querier_ipv6_port" "mcast_querier_ipv6_port " Number;
    7 2 "mcast_querier_ipv6_other_timer" "mcast_querier_ipv6_other_timer " Hundredths;
];

/// Both stand in objects of their own.
const QUERIERS: Rows = crate::rows![
    1 0 "" "" Apart;
    2 0 "" "" Apart;
    3 0 "" "" Apart;
    5 0 "" "" Apart;
    6 0 "" "" Apart;
    7 0 "" "" Apart;
];

/// The options of a bit that have a word (`BR_BOOLOPT_*`).
const BITS: field::Flags = &[
    (
        0x1,
        &Wording(27, "no_linklocal_learn", "no_linklocal_learn "),
    ),
    (
        0x2,
        &Wording(28, "mcast_vlan_snooping", "mcast_vlan_snooping "),
    ),
    (0x4, &Wording(29, "mst_enabled", "mst_enabled ")),
    (
        0x8,
        &Wording(
            30,
            "mdb_offload_fail_notification",
            "mdb_offload_fail_notification ",
        ),
    ),
    (0x10, &Wording(31, "fdb_local_vlan_0", "fdb_local_vlan_0 ")),
];

/// Ids, options of which some are meant, numbers with a text of their own, and lists in two objects.
pub fn push_own(fields: &mut Fields, list: List<'_>, word: Word, seen: &Seen<'_>) {
    let number = small(&seen.value);
    match (list.nest.told_set(), seen.number) {
        (AttributeSet::InfoBridgePort, 1) => push_state(fields, word, number),
        (AttributeSet::InfoBridgePort, 31) => push_groups(fields, word, number),
        (AttributeSet::InfoBridge, 8) => push_tag(fields, word, number),
        (AttributeSet::InfoBridge, 46) => push_options(fields, seen.bytes),
        (AttributeSet::InfoBridge, 47) => push_querier(fields, list, seen),
        _ => push_id(fields, word, seen.bytes),
    }
}

/// The protocol of tags, or its number in brackets.
pub fn push_tag(fields: &mut Fields, word: Word, number: u32) {
    match fields.manner.name(TAGS, number) {
        Some(name) => fields.text(word, &name),
        None => {
            let text = format!(in fields.manner.alloc; "[{number}]");
            fields.made(word, text)
        }
    }
}

fn push_id(fields: &mut Fields, word: Word, bytes: &[u8]) {
    if let Ok(id) = BridgeId::parse(bytes) {
        fields.text(word, &Id(id));
    }
}

/// The options that are meant, each 0 or 1, and the bits without a word.
fn push_options(fields: &mut Fields, bytes: &[u8]) {
    let Ok(options) = BridgeBooleanOptions::parse(bytes) else {
        return;
    };
    let (value, mask) = (options.value.bits(), options.mask.bits());
    let (mut left, mut left_mask) = (value, mask);
    for (bit, word) in BITS {
        if mask & *bit != 0 {
            fields.number(*word, u8::from(value & *bit != 0));
            left &= !*bit;
            left_mask &= !*bit;
        }
    }
    if left != 0 || left_mask != 0 {
        fields.bits(&Wording(32, "options", "options "), left);
        fields.hide_if(left == 0);
        fields.bits(&Wording(32, "options_mask", "/"), left_mask);
        fields.hide_if(left == 0);
    }
}

/// Who asks for groups.
fn push_querier(fields: &mut Fields, list: List<'_>, seen: &Seen<'_>) {
    let mut inet = Fields::new(fields.manner);
    let mut inet6 = Fields::new(fields.manner);
    if let Some(inner) = list.inside(seen) {
        push_rows(&mut inet, inner, QUERIER);
        push_rows(&mut inet6, inner, QUERIER6);
        push_all_rows(fields, inner, QUERIERS);
    }
    fields.object(&Wording(36, "mcast_querier_state_ipv4", ""), inet);
    fields.object(&Wording(37, "mcast_querier_state_ipv6", ""), inet6);
}

fn push_state(fields: &mut Fields, word: Word, number: u32) {
    match fields.manner.name(PORT_STATES, number) {
        Some(name) => fields.text(word, &name),
        None => {
            let text = format!(in fields.manner.alloc; "({number})");
            fields.written(&Wording(1, "state_index", "state "), number, text)
        }
    }
}

fn push_groups(fields: &mut Fields, word: Word, bits: u32) {
    fields.bits(word, bits);
    let names = &Wording(31, "group_fwd_mask_str", "group_fwd_mask_str ");
    fields.text(names, &BitNames(BRIDGE_GROUPS, bits));
}

/// The id of a bridge: its priority and its address, with no zero in front of a digit.
#[derive(Clone, Copy)]
struct Id(BridgeId);

impl fmt::Display for Id {
    fn fmt<W: fmt::Write>(&self, f: &mut fmt::Formatter<W>) -> fmt::Result {
        let priority = self.0.priority;
        let [a, b, c, d, e, g] = self.0.address;
        write!(f, "{priority:04x}.{a:x}:{b:x}:{c:x}:{d:x}:{e:x}:{g:x}")
    }
}
