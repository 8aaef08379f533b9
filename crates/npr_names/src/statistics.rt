//! The names of attributes of statistics, as the kernel's headers have them.

/// What a message of statistics says.
pub const STATS: &[&str] = &[
    "IFLA_STATS_UNSPEC",
    "IFLA_STATS_LINK_64",
    "IFLA_STATS_LINK_XSTATS",
    "IFLA_STATS_LINK_XSTATS_SLAVE",
    "IFLA_STATS_LINK_OFFLOAD_XSTATS",
    "IFLA_STATS_AF_SPEC",
];

/// Whose further counters they are.
pub const LINK_XSTATS: &[&str] = &[
    "LINK_XSTATS_TYPE_UNSPEC",
    "LINK_XSTATS_TYPE_BRIDGE",
    "LINK_XSTATS_TYPE_BOND",
];

/// Further counters of bridges.
pub const BRIDGE_XSTATS: &[&str] = &[
    "BRIDGE_XSTATS_UNSPEC",
    "BRIDGE_XSTATS_VLAN",
    "BRIDGE_XSTATS_MCAST",
    "BRIDGE_XSTATS_PAD",
    "BRIDGE_XSTATS_STP",
];

/// Further counters of bonds.
pub const BOND_XSTATS: &[&str] = &["BOND_XSTATS_UNSPEC", "BOND_XSTATS_3AD"];

/// Counters of LACP.
pub const BOND_AD_STAT: &[&str] = &[
    "BOND_3AD_STAT_LACPDU_RX",
    "BOND_3AD_STAT_LACPDU_TX",
    "BOND_3AD_STAT_LACPDU_UNKNOWN_RX",
    "BOND_3AD_STAT_LACPDU_ILLEGAL_RX",
    "BOND_3AD_STAT_MARKER_RX",
    "BOND_3AD_STAT_MARKER_TX",
    "BOND_3AD_STAT_MARKER_RESP_RX",
    "BOND_3AD_STAT_MARKER_RESP_TX",
    "BOND_3AD_STAT_MARKER_UNKNOWN_RX",
    "BOND_3AD_STAT_PAD",
];

/// What hardware counts.
pub const OFFLOAD_XSTATS: &[&str] = &[
    "IFLA_OFFLOAD_XSTATS_UNSPEC",
    "IFLA_OFFLOAD_XSTATS_CPU_HIT",
    "IFLA_OFFLOAD_XSTATS_HW_S_INFO",
    "IFLA_OFFLOAD_XSTATS_L3_STATS",
];

/// Whether hardware counts.
pub const OFFLOAD_HW_STATE: &[&str] = &[
    "IFLA_OFFLOAD_XSTATS_HW_S_INFO_UNSPEC",
    "IFLA_OFFLOAD_XSTATS_HW_S_INFO_REQUEST",
    "IFLA_OFFLOAD_XSTATS_HW_S_INFO_USED",
];

/// Counters of MPLS.
pub const MPLS_STATS: &[&str] = &["MPLS_STATS_UNSPEC", "MPLS_STATS_LINK"];
