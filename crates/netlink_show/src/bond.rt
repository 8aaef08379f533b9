//! What is shown of a bond and of its ports.

use crate::field::{Fields, ITEM, Word, Wording};
use crate::link_kind_names::{
    ALL_TARGETS, BOND_MODES, BOND_STATES, CHURN_STATES, HASH_POLICIES, LACP_RATES, LACP_STATES,
    MII_STATES, PORT_ADDRESSES, RESELECTS, SELECTS, VALIDATIONS,
};
use crate::list::{List, Seen, small};
use crate::manner::Inet6;
use crate::row::How::{Hardware, Interface, Known, Named, Number, Object, OneOf, Own, Switch};
use crate::row::Line::IfAny;
use crate::row::Rows;
use crate::value::push_angled;
use netlink_packet_route::framing::{AttributeSet, NlasIterator};
use netlink_packet_route::net::{Ipv4Addr, Ipv6Addr};

/// Of a bond.
pub const BOND: Rows = crate::rows![
    1 0 "mode" "mode " Named(BOND_MODES);
    2 1 "active_slave" "active_slave " Interface, IfAny;
    3 2 "miimon" "miimon " Number;
    4 3 "updelay" "updelay " Number;
    5 4 "downdelay" "downdelay " Number;
    6 6 "use_carrier" "use_carrier " Number;
    7 7 "arp_interval" "arp_interval " Number;
    8 9 "arp_ip_target" "arp_ip_target " Own, IfAny;
    9 11 "arp_validate" "arp_validate " Own;
    10 12 "arp_all_targets" "arp_all_targets " Named(ALL_TARGETS);
    11 13 "primary" "primary " Interface, IfAny;
    12 14 "primary_reselect" "primary_reselect " Named(RESELECTS);
    13 15 "fail_over_mac" "fail_over_mac " Named(PORT_ADDRESSES);
    14 16 "xmit_hash_policy" "xmit_hash_policy " Named(HASH_POLICIES);
    15 17 "resend_igmp" "resend_igmp " Number;
    16 18 "num_peer_notif" "num_grat_arp " Number;
    17 19 "all_slaves_active" "all_slaves_active " Number;
    18 20 "min_links" "min_links " Number;
    19 21 "lp_interval" "lp_interval " Number;
    20 22 "packets_per_slave" "packets_per_slave " Number;
    21 24 "ad_lacp_rate" "lacp_rate " Named(LACP_RATES);
    22 26 "ad_select" "ad_select " Named(SELECTS);
    23 27 "ad_info" "" Object;
    24 28 "ad_actor_sys_prio" "ad_actor_sys_prio " Number;
    25 29 "ad_user_port_key" "ad_user_port_key " Number;
    26 30 "ad_actor_system" "ad_actor_system " Hardware;
    27 31 "tlb_dynamic_lb" "tlb_dynamic_lb " Number;
    28 5 "peer_notify_delay" "peer_notify_delay " Number;
    29 23 "ad_lacp_active" "lacp_active " OneOf("on", "off");
    30 8 "arp_missed_max" "arp_missed_max " Number;
    31 10 "ns_ip6_target" "ns_ip6_target " Own, IfAny;
    32 25 "coupled_control" "coupled_control " Switch;
    33 32 "broadcast_neighbor" "broadcast_neighbor " Switch;
    34 33 "lacp_strict" "lacp_strict " Switch;
];

/// Of what the ports of a bond agreed on.
pub const BOND_AD_INFO: Rows = crate::rows![
    1 0 "aggregator" "ad_aggregator " Number;
    2 1 "num_ports" "ad_num_ports " Number;
    3 2 "actor_key" "ad_actor_key " Number;
    4 3 "partner_key" "ad_partner_key " Number;
    5 4 "partner_mac" "ad_partner_mac " Hardware;
];

/// Of a port of a bond.
pub const BOND_PORT: Rows = crate::rows![
    1 0 "state" "state " Known(BOND_STATES, &Wording(0, "state_index", "state "));
    2 1 "mii_status" "mii_status " Known(MII_STATES, &Wording(1, "mii_status_index", "mii_status "));
    3 2 "link_failure_count" "link_failure_count " Number;
    4 3 "perm_hwaddr" "perm_hwaddr " Hardware;
    5 4 "queue_id" "queue_id " Number;
    6 6 "ad_aggregator_id" "ad_aggregator_id " Number;
    7 7 "ad_actor_oper_port_state" "ad_actor_oper_port_state " Own;
    8 9 "ad_partner_oper_port_state" "ad_partner_oper_port_state " Own;
    9 5 "prio" "prio " Number;
    10 13 "actor_port_prio" "actor_port_prio " Number;
    11 11 "churn_actor_state" "churn_actor_state " Named(CHURN_STATES);
    12 12 "churn_partner_state" "churn_partner_state " Named(CHURN_STATES);
];

const ACTOR_STATE: Word = &Wording(
    8,
    "ad_actor_oper_port_state_str",
    "ad_actor_oper_port_state_str ",
);

const PARTNER_STATE: Word = &Wording(
    10,
    "ad_partner_oper_port_state_str",
    "ad_partner_oper_port_state_str ",
);

/// Lists of addresses, a choice that is `null`, and states with the names of their bits besides.
pub fn push_own(fields: &mut Fields, list: List<'_>, word: Word, seen: &Seen<'_>) {
    let number = small(&seen.value);
    match (list.nest.told_set(), seen.number) {
        (AttributeSet::InfoBondPort, 7) => push_agreement(fields, (word, ACTOR_STATE), number),
        (AttributeSet::InfoBondPort, _) => push_agreement(fields, (word, PARTNER_STATE), number),
        (_, 9) => push_validation(fields, word, number),
        _ => push_targets(fields, word, seen.bytes),
    }
}

/// Addresses, each the value of an attribute.
fn push_targets(fields: &mut Fields, word: Word, bytes: &[u8]) {
    let mut inside = Fields::new(fields.manner);
    for next in NlasIterator::new(bytes) {
        let Ok(item) = next else {
            return;
        };
        let ip = item.value();
        if let Ok(octets) = <[u8; 4]>::try_from(ip) {
            inside.text(ITEM, &Ipv4Addr::from(octets));
        } else if let Ok(octets) = <[u8; 16]>::try_from(ip) {
            inside.text(ITEM, &Inet6(&Ipv6Addr::from(octets)));
        }
    }
    fields.list(word, inside, ",");
}

/// On which ports answers are looked at: on none is `null` in JSON.
fn push_validation(fields: &mut Fields, word: Word, which: u32) {
    match which {
        0 => fields.push(word, (), &"none"),
        number => fields.named(word, VALIDATIONS, number),
    }
}

/// A state by IEEE 802.3ad, and the names of its bits.
fn push_agreement(fields: &mut Fields, words: (Word, Word), bits: u32) {
    fields.number(words.0, bits);
    push_angled(fields, words.1, LACP_STATES, bits);
}
