//! The words that `ip` has for numbers of kinds of links.

use crate::names::Names;

/// By what rule a bond sends (`BOND_MODE_*`).
pub const BOND_MODES: Names = &[
    (0, "balance-rr"),
    (1, "active-backup"),
    (2, "balance-xor"),
    (3, "broadcast"),
    (4, "802.3ad"),
    (5, "balance-tlb"),
    (6, "balance-alb"),
];

/// On which ports answers are looked at (`BOND_ARP_VALIDATE_*`).
pub const VALIDATIONS: Names = &[
    (1, "active"),
    (2, "backup"),
    (3, "all"),
    (4, "filter"),
    (5, "filter_active"),
    (6, "filter_backup"),
];

/// How many targets have to answer (`BOND_ARP_TARGETS_*`).
pub const ALL_TARGETS: Names = &[(0, "any"), (1, "all")];

/// When the primary port becomes active again (`BOND_PRI_RESELECT_*`).
pub const RESELECTS: Names = &[(0, "always"), (1, "better"), (2, "failure")];

/// Which addresses ports have (`BOND_FOM_*`).
pub const PORT_ADDRESSES: Names = &[(0, "none"), (1, "active"), (2, "follow")];

/// What a packet's port is chosen by (`BOND_XMIT_POLICY_*`).
pub const HASH_POLICIES: Names = &[
    (0, "layer2"),
    (1, "layer3+4"),
    (2, "layer2+3"),
    (3, "encap2+3"),
    (4, "encap3+4"),
    (5, "vlan+srcmac"),
];

/// How often the partner is asked to send (`AD_LACP_*`).
pub const LACP_RATES: Names = &[(0, "slow"), (1, "fast")];

/// How an aggregator is chosen (`BOND_AD_*`).
pub const SELECTS: Names = &[
    (0, "stable"),
    (1, "bandwidth"),
    (2, "count"),
    (3, "actor_port_prio"),
];

/// What a port of a bond is (`BOND_STATE_*`).
pub const BOND_STATES: Names = &[(0, "ACTIVE"), (1, "BACKUP")];

/// How the link of a port is (`BOND_LINK_*`).
pub const MII_STATES: Names = &[(0, "UP"), (1, "GOING_DOWN"), (2, "DOWN"), (3, "GOING_BACK")];

/// The bits of a state by IEEE 802.3ad (`LACP_STATE_*`).
pub const LACP_STATES: Names = &[
    (0x1, "active"),
    (0x2, "short_timeout"),
    (0x4, "aggregating"),
    (0x8, "in_sync"),
    (0x10, "collecting"),
    (0x20, "distributing"),
    (0x40, "defaulted"),
    (0x80, "expired"),
];

/// Whether a port comes to an agreement (`AD_CHURN_MONITOR`).
pub const CHURN_STATES: Names = &[(0, "MONITOR")];

/// Which packets a MACVLAN takes (`MACVLAN_MODE_*`).
pub const MAC_VLAN_MODES: Names = &[
    (1, "private"),
    (2, "vepa"),
    (4, "bridge"),
    (8, "passthru"),
    (16, "source"),
];

/// What becomes of a list of sources (`MACVLAN_MACADDR_*`).
pub const ADDRESS_CHANGES: Names = &[(0, "add"), (1, "del"), (2, "flush"), (3, "set")];

/// On which layer an IPVLAN works (`IPVLAN_MODE_*`).
pub const IP_VLAN_MODES: Names = &[(0, "l2"), (1, "l3"), (2, "l3s")];

/// What a TUN device carries (`IFF_TUN`, `IFF_TAP`).
pub const TUN_TYPES: Names = &[(1, "tun"), (2, "tap")];

/// On which layer a pair of netkit works (`NETKIT_L2`, `NETKIT_L3`).
pub const NETKIT_MODES: Names = &[(0, "l2"), (1, "l3")];

/// What becomes of a packet without a program (`NETKIT_PASS`, `NETKIT_DROP`).
pub const NETKIT_POLICIES: Names = &[(0, "forward"), (2, "blackhole")];

/// What is taken off a packet (`NETKIT_SCRUB_*`).
pub const NETKIT_SCRUBS: Names = &[(0, "none"), (1, "default")];

/// Whether a packet may be cut (`VXLAN_DF_*`, `GENEVE_DF_*`).
pub const CUTS: Names = &[(0, "unset"), (1, "set"), (2, "inherit")];

/// Where the flow label of a VXLAN comes from (`VXLAN_LABEL_*`).
pub const LABEL_POLICIES: Names = &[(0, "fixed"), (1, "inherit")];

/// What a tunnel is packed in once more (`TUNNEL_ENCAP_*`).
pub const ENCAPS: Names = &[(0, "none"), (1, "fou"), (2, "gue")];

/// Which way a packet of ERSPAN went.
pub const DIRECTIONS: Names = &[(0, "ingress"), (1, "egress")];

/// What a tunnel over version 4 carries.
pub const CARRIED: Names = &[(0, "any"), (4, "ipip"), (41, "ip6ip"), (137, "mplsip")];

/// What a tunnel over version 6 carries.
pub const CARRIED_OVER_6: Names = &[(0, "any"), (4, "ipip6"), (41, "ip6ip6")];
