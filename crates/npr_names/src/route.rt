//! The names of attributes of addresses, rules, neighbours and routes, as the kernel's headers have them.

/// An address.
pub const ADDRESS: &[&str] = &[
    "IFA_UNSPEC",
    "IFA_ADDRESS",
    "IFA_LOCAL",
    "IFA_LABEL",
    "IFA_BROADCAST",
    "IFA_ANYCAST",
    "IFA_CACHEINFO",
    "IFA_MULTICAST",
    "IFA_FLAGS",
    "IFA_RT_PRIORITY",
    "IFA_TARGET_NETNSID",
    "IFA_PROTO",
];

/// A rule.
pub const RULE: &[&str] = &[
    "FRA_UNSPEC",
    "FRA_DST",
    "FRA_SRC",
    "FRA_IIFNAME",
    "FRA_GOTO",
    "FRA_UNUSED2",
    "FRA_PRIORITY",
    "FRA_UNUSED3",
    "FRA_UNUSED4",
    "FRA_UNUSED5",
    "FRA_FWMARK",
    "FRA_FLOW",
    "FRA_TUN_ID",
    "FRA_SUPPRESS_IFGROUP",
    "FRA_SUPPRESS_PREFIXLEN",
    "FRA_TABLE",
    "FRA_FWMASK",
    "FRA_OIFNAME",
    "FRA_PAD",
    "FRA_L3MDEV",
    "FRA_UID_RANGE",
    "FRA_PROTOCOL",
    "FRA_IP_PROTO",
    "FRA_SPORT_RANGE",
    "FRA_DPORT_RANGE",
    "FRA_DSCP",
    "FRA_FLOWLABEL",
    "FRA_FLOWLABEL_MASK",
    "FRA_SPORT_MASK",
    "FRA_DPORT_MASK",
    "FRA_DSCP_MASK",
];

/// A neighbour.
pub const NEIGHBOUR: &[&str] = &[
    "NDA_UNSPEC",
    "NDA_DST",
    "NDA_LLADDR",
    "NDA_CACHEINFO",
    "NDA_PROBES",
    "NDA_VLAN",
    "NDA_PORT",
    "NDA_VNI",
    "NDA_IFINDEX",
    "NDA_MASTER",
    "NDA_LINK_NETNSID",
    "NDA_SRC_VNI",
    "NDA_PROTOCOL",
    "NDA_NH_ID",
    "NDA_FDB_EXT_ATTRS",
    "NDA_FLAGS_EXT",
    "NDA_NDM_STATE_MASK",
    "NDA_NDM_FLAGS_MASK",
];

/// A route.
pub const ROUTE: &[&str] = &[
    "RTA_UNSPEC",
    "RTA_DST",
    "RTA_SRC",
    "RTA_IIF",
    "RTA_OIF",
    "RTA_GATEWAY",
    "RTA_PRIORITY",
    "RTA_PREFSRC",
    "RTA_METRICS",
    "RTA_MULTIPATH",
    "RTA_PROTOINFO",
    "RTA_FLOW",
    "RTA_CACHEINFO",
    "RTA_SESSION",
    "RTA_MP_ALGO",
    "RTA_TABLE",
    "RTA_MARK",
    "RTA_MFC_STATS",
    "RTA_VIA",
    "RTA_NEWDST",
    "RTA_PREF",
    "RTA_ENCAP_TYPE",
    "RTA_ENCAP",
    "RTA_EXPIRES",
    "RTA_PAD",
    "RTA_UID",
    "RTA_TTL_PROPAGATE",
    "RTA_IP_PROTO",
    "RTA_SPORT",
    "RTA_DPORT",
    "RTA_NH_ID",
    "RTA_FLOWLABEL",
];

/// The metrics of a route.
pub const METRIC: &[&str] = &[
    "RTAX_UNSPEC",
    "RTAX_LOCK",
    "RTAX_MTU",
    "RTAX_WINDOW",
    "RTAX_RTT",
    "RTAX_RTTVAR",
    "RTAX_SSTHRESH",
    "RTAX_CWND",
    "RTAX_ADVMSS",
    "RTAX_REORDERING",
    "RTAX_HOPLIMIT",
    "RTAX_INITCWND",
    "RTAX_FEATURES",
    "RTAX_RTO_MIN",
    "RTAX_INITRWND",
    "RTAX_QUICKACK",
    "RTAX_CC_ALGO",
    "RTAX_FASTOPEN_NO_COOKIE",
];

/// An encapsulation in MPLS.
pub const MPLS: &[&str] = &[
    "MPLS_IPTUNNEL_UNSPEC",
    "MPLS_IPTUNNEL_DST",
    "MPLS_IPTUNNEL_TTL",
];

/// An encapsulation in IP version 4.
pub const IP: &[&str] = &[
    "LWTUNNEL_IP_UNSPEC",
    "LWTUNNEL_IP_ID",
    "LWTUNNEL_IP_DST",
    "LWTUNNEL_IP_SRC",
    "LWTUNNEL_IP_TTL",
    "LWTUNNEL_IP_TOS",
    "LWTUNNEL_IP_FLAGS",
    "LWTUNNEL_IP_PAD",
    "LWTUNNEL_IP_OPTS",
];

/// An encapsulation in IP version 6.
pub const IP6: &[&str] = &[
    "LWTUNNEL_IP6_UNSPEC",
    "LWTUNNEL_IP6_ID",
    "LWTUNNEL_IP6_DST",
    "LWTUNNEL_IP6_SRC",
    "LWTUNNEL_IP6_HOPLIMIT",
    "LWTUNNEL_IP6_TC",
    "LWTUNNEL_IP6_FLAGS",
    "LWTUNNEL_IP6_PAD",
    "LWTUNNEL_IP6_OPTS",
];

/// An encapsulation in IPsec.
pub const XFRM: &[&str] = &["LWT_XFRM_UNSPEC", "LWT_XFRM_IF_ID", "LWT_XFRM_LINK"];

/// The options of a tunnel.
pub const OPT: &[&str] = &[
    "LWTUNNEL_IP_OPTS_UNSPEC",
    "LWTUNNEL_IP_OPTS_GENEVE",
    "LWTUNNEL_IP_OPTS_VXLAN",
    "LWTUNNEL_IP_OPTS_ERSPAN",
];

/// An option of Geneve.
pub const GENEVE: &[&str] = &[
    "LWTUNNEL_IP_OPT_GENEVE_UNSPEC",
    "LWTUNNEL_IP_OPT_GENEVE_CLASS",
    "LWTUNNEL_IP_OPT_GENEVE_TYPE",
    "LWTUNNEL_IP_OPT_GENEVE_DATA",
];

/// The options of VXLAN.
pub const VXLAN: &[&str] = &["LWTUNNEL_IP_OPT_VXLAN_UNSPEC", "LWTUNNEL_IP_OPT_VXLAN_GBP"];

/// The options of ERSPAN.
pub const ERSPAN: &[&str] = &[
    "LWTUNNEL_IP_OPT_ERSPAN_UNSPEC",
    "LWTUNNEL_IP_OPT_ERSPAN_VER",
    "LWTUNNEL_IP_OPT_ERSPAN_INDEX",
    "LWTUNNEL_IP_OPT_ERSPAN_DIR",
    "LWTUNNEL_IP_OPT_ERSPAN_HWID",
];

/// An encapsulation in SEG6.
pub const SEG6: &[&str] = &[
    "SEG6_IPTUNNEL_UNSPEC",
    "SEG6_IPTUNNEL_SRH",
    "SEG6_IPTUNNEL_SRC",
    "SEG6_IPTUNNEL_TABLE",
];

/// What is done with packets of SEG6.
pub const SEG6_LOCAL: &[&str] = &[
    "SEG6_LOCAL_UNSPEC",
    "SEG6_LOCAL_ACTION",
    "SEG6_LOCAL_SRH",
    "SEG6_LOCAL_TABLE",
    "SEG6_LOCAL_NH4",
    "SEG6_LOCAL_NH6",
    "SEG6_LOCAL_IIF",
    "SEG6_LOCAL_OIF",
    "SEG6_LOCAL_BPF",
    "SEG6_LOCAL_VRFTABLE",
    "SEG6_LOCAL_COUNTERS",
    "SEG6_LOCAL_FLAVORS",
];

/// An encapsulation in RPL.
pub const RPL: &[&str] = &["RPL_IPTUNNEL_UNSPEC", "RPL_IPTUNNEL_SRH"];

/// An encapsulation in IOAM6.
pub const IOAM6: &[&str] = &[
    "IOAM6_IPTUNNEL_UNSPEC",
    "IOAM6_IPTUNNEL_MODE",
    "IOAM6_IPTUNNEL_DST",
    "IOAM6_IPTUNNEL_TRACE",
    "IOAM6_IPTUNNEL_FREQ_K",
    "IOAM6_IPTUNNEL_FREQ_N",
    "IOAM6_IPTUNNEL_SRC",
];
