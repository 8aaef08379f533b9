//! The names of attributes of next hop objects, namespaces, prefixes, tables of neighbours, settings and
//! labels, as the kernel's headers have them.

/// A next hop object.
pub const NEXT_HOP: &[&str] = &[
    "NHA_UNSPEC",
    "NHA_ID",
    "NHA_GROUP",
    "NHA_GROUP_TYPE",
    "NHA_BLACKHOLE",
    "NHA_OIF",
    "NHA_GATEWAY",
    "NHA_ENCAP_TYPE",
    "NHA_ENCAP",
    "NHA_GROUPS",
    "NHA_MASTER",
    "NHA_FDB",
    "NHA_RES_GROUP",
    "NHA_RES_BUCKET",
    "NHA_OP_FLAGS",
    "NHA_GROUP_STATS",
    "NHA_HW_STATS_ENABLE",
    "NHA_HW_STATS_USED",
];

/// A resilient group.
pub const NEXT_HOP_RES_GROUP: &[&str] = &[
    "NHA_RES_GROUP_PAD",
    "NHA_RES_GROUP_BUCKETS",
    "NHA_RES_GROUP_IDLE_TIMER",
    "NHA_RES_GROUP_UNBALANCED_TIMER",
    "NHA_RES_GROUP_UNBALANCED_TIME",
];

/// A bucket of one.
pub const NEXT_HOP_RES_BUCKET: &[&str] = &[
    "NHA_RES_BUCKET_PAD",
    "NHA_RES_BUCKET_INDEX",
    "NHA_RES_BUCKET_IDLE_TIME",
    "NHA_RES_BUCKET_NH_ID",
];

/// Statistics of a group.
pub const NEXT_HOP_GROUP_STATS: &[&str] = &["NHA_GROUP_STATS_UNSPEC", "NHA_GROUP_STATS_ENTRY"];

/// Those of a member.
pub const NEXT_HOP_GROUP_STATS_ENTRY: &[&str] = &[
    "NHA_GROUP_STATS_ENTRY_UNSPEC",
    "NHA_GROUP_STATS_ENTRY_ID",
    "NHA_GROUP_STATS_ENTRY_PACKETS",
    "NHA_GROUP_STATS_ENTRY_PACKETS_HW",
];

/// The id of a network namespace.
pub const NSID: &[&str] = &[
    "NETNSA_NONE",
    "NETNSA_NSID",
    "NETNSA_PID",
    "NETNSA_FD",
    "NETNSA_TARGET_NSID",
    "NETNSA_CURRENT_NSID",
];

/// A prefix that a router tells.
pub const PREFIX: &[&str] = &["PREFIX_UNSPEC", "PREFIX_ADDRESS", "PREFIX_CACHEINFO"];

/// How an interface is configured.
pub const NETCONF: &[&str] = &[
    "NETCONFA_UNSPEC",
    "NETCONFA_IFINDEX",
    "NETCONFA_FORWARDING",
    "NETCONFA_RP_FILTER",
    "NETCONFA_MC_FORWARDING",
    "NETCONFA_PROXY_NEIGH",
    "NETCONFA_IGNORE_ROUTES_WITH_LINKDOWN",
    "NETCONFA_INPUT",
    "NETCONFA_BC_FORWARDING",
    "NETCONFA_FORCE_FORWARDING",
];

/// A table of neighbours.
pub const NEIGHBOUR_TABLE: &[&str] = &[
    "NDTA_UNSPEC",
    "NDTA_NAME",
    "NDTA_THRESH1",
    "NDTA_THRESH2",
    "NDTA_THRESH3",
    "NDTA_CONFIG",
    "NDTA_PARMS",
    "NDTA_STATS",
    "NDTA_GC_INTERVAL",
    "NDTA_PAD",
];

/// Parameters of one.
pub const NEIGHBOUR_TABLE_PARAMETER: &[&str] = &[
    "NDTPA_UNSPEC",
    "NDTPA_IFINDEX",
    "NDTPA_REFCNT",
    "NDTPA_REACHABLE_TIME",
    "NDTPA_BASE_REACHABLE_TIME",
    "NDTPA_RETRANS_TIME",
    "NDTPA_GC_STALETIME",
    "NDTPA_DELAY_PROBE_TIME",
    "NDTPA_QUEUE_LEN",
    "NDTPA_APP_PROBES",
    "NDTPA_UCAST_PROBES",
    "NDTPA_MCAST_PROBES",
    "NDTPA_ANYCAST_DELAY",
    "NDTPA_PROXY_DELAY",
    "NDTPA_PROXY_QLEN",
    "NDTPA_LOCKTIME",
    "NDTPA_QUEUE_LENBYTES",
    "NDTPA_MCAST_REPROBES",
    "NDTPA_PAD",
    "NDTPA_INTERVAL_PROBE_TIME_MS",
];

/// A label of addresses.
pub const ADDRESS_LABEL: &[&str] = &["IFAL_UNSPEC", "IFAL_ADDRESS", "IFAL_LABEL"];

/// What a forwarding entry is besides.
pub const NEIGHBOUR_FDB: &[&str] = &["NFEA_UNSPEC", "NFEA_ACTIVITY_NOTIFY", "NFEA_DONT_REFRESH"];
