//! The names of attributes of actions, as the kernel's headers have them.

/// The options of `mirred`.
pub const MIRROR: &[&str] = &[
    "TCA_MIRRED_UNSPEC",
    "TCA_MIRRED_TM",
    "TCA_MIRRED_PARMS",
    "TCA_MIRRED_PAD",
    "TCA_MIRRED_BLOCKID",
];

/// The options of `nat`.
pub const NAT: &[&str] = &[
    "TCA_NAT_UNSPEC",
    "TCA_NAT_PARMS",
    "TCA_NAT_TM",
    "TCA_NAT_PAD",
];

/// The options of `tunnel_key`.
pub const TUNNEL_KEY: &[&str] = &[
    "TCA_TUNNEL_KEY_UNSPEC",
    "TCA_TUNNEL_KEY_TM",
    "TCA_TUNNEL_KEY_PARMS",
    "TCA_TUNNEL_KEY_ENC_IPV4_SRC",
    "TCA_TUNNEL_KEY_ENC_IPV4_DST",
    "TCA_TUNNEL_KEY_ENC_IPV6_SRC",
    "TCA_TUNNEL_KEY_ENC_IPV6_DST",
    "TCA_TUNNEL_KEY_ENC_KEY_ID",
    "TCA_TUNNEL_KEY_PAD",
    "TCA_TUNNEL_KEY_ENC_DST_PORT",
    "TCA_TUNNEL_KEY_NO_CSUM",
    "TCA_TUNNEL_KEY_ENC_OPTS",
    "TCA_TUNNEL_KEY_ENC_TOS",
    "TCA_TUNNEL_KEY_ENC_TTL",
    "TCA_TUNNEL_KEY_NO_FRAG",
];

/// The options of `gact`.
pub const GACT: &[&str] = &[
    "TCA_GACT_UNSPEC",
    "TCA_GACT_TM",
    "TCA_GACT_PARMS",
    "TCA_GACT_PROB",
    "TCA_GACT_PAD",
];

/// The options of `police`.
pub const POLICE: &[&str] = &[
    "TCA_POLICE_UNSPEC",
    "TCA_POLICE_TBF",
    "TCA_POLICE_RATE",
    "TCA_POLICE_PEAKRATE",
    "TCA_POLICE_AVRATE",
    "TCA_POLICE_RESULT",
    "TCA_POLICE_TM",
    "TCA_POLICE_PAD",
    "TCA_POLICE_RATE64",
    "TCA_POLICE_PEAKRATE64",
    "TCA_POLICE_PKTRATE64",
    "TCA_POLICE_PKTBURST64",
];

/// The options of `vlan`.
pub const VLAN: &[&str] = &[
    "TCA_VLAN_UNSPEC",
    "TCA_VLAN_TM",
    "TCA_VLAN_PARMS",
    "TCA_VLAN_PUSH_VLAN_ID",
    "TCA_VLAN_PUSH_VLAN_PROTOCOL",
    "TCA_VLAN_PAD",
    "TCA_VLAN_PUSH_VLAN_PRIORITY",
    "TCA_VLAN_PUSH_ETH_DST",
    "TCA_VLAN_PUSH_ETH_SRC",
];

/// The options of `skbedit`.
pub const SKBEDIT: &[&str] = &[
    "TCA_SKBEDIT_UNSPEC",
    "TCA_SKBEDIT_TM",
    "TCA_SKBEDIT_PARMS",
    "TCA_SKBEDIT_PRIORITY",
    "TCA_SKBEDIT_QUEUE_MAPPING",
    "TCA_SKBEDIT_MARK",
    "TCA_SKBEDIT_PAD",
    "TCA_SKBEDIT_PTYPE",
    "TCA_SKBEDIT_MASK",
    "TCA_SKBEDIT_FLAGS",
    "TCA_SKBEDIT_QUEUE_MAPPING_MAX",
];

/// The options of `csum`.
pub const CSUM: &[&str] = &[
    "TCA_CSUM_UNSPEC",
    "TCA_CSUM_PARMS",
    "TCA_CSUM_TM",
    "TCA_CSUM_PAD",
];

/// The options of `ct`.
pub const CT: &[&str] = &[
    "TCA_CT_UNSPEC",
    "TCA_CT_PARMS",
    "TCA_CT_TM",
    "TCA_CT_ACTION",
    "TCA_CT_ZONE",
    "TCA_CT_MARK",
    "TCA_CT_MARK_MASK",
    "TCA_CT_LABELS",
    "TCA_CT_LABELS_MASK",
    "TCA_CT_NAT_IPV4_MIN",
    "TCA_CT_NAT_IPV4_MAX",
    "TCA_CT_NAT_IPV6_MIN",
    "TCA_CT_NAT_IPV6_MAX",
    "TCA_CT_NAT_PORT_MIN",
    "TCA_CT_NAT_PORT_MAX",
    "TCA_CT_PAD",
    "TCA_CT_HELPER_NAME",
    "TCA_CT_HELPER_FAMILY",
    "TCA_CT_HELPER_PROTO",
];

/// The options of `sample`.
pub const SAMPLE: &[&str] = &[
    "TCA_SAMPLE_UNSPEC",
    "TCA_SAMPLE_TM",
    "TCA_SAMPLE_PARMS",
    "TCA_SAMPLE_RATE",
    "TCA_SAMPLE_TRUNC_SIZE",
    "TCA_SAMPLE_PSAMPLE_GROUP",
    "TCA_SAMPLE_PAD",
];

/// The options of `bpf`.
pub const BPF: &[&str] = &[
    "TCA_ACT_BPF_UNSPEC",
    "TCA_ACT_BPF_TM",
    "TCA_ACT_BPF_PARMS",
    "TCA_ACT_BPF_OPS_LEN",
    "TCA_ACT_BPF_OPS",
    "TCA_ACT_BPF_FD",
    "TCA_ACT_BPF_NAME",
    "TCA_ACT_BPF_PAD",
    "TCA_ACT_BPF_TAG",
    "TCA_ACT_BPF_ID",
];

/// The options of a tunnel.
pub const ENC: &[&str] = &[
    "TCA_FLOWER_KEY_ENC_OPTS_UNSPEC",
    "TCA_FLOWER_KEY_ENC_OPTS_GENEVE",
    "TCA_FLOWER_KEY_ENC_OPTS_VXLAN",
    "TCA_FLOWER_KEY_ENC_OPTS_ERSPAN",
    "TCA_FLOWER_KEY_ENC_OPTS_GTP",
    "TCA_FLOWER_KEY_ENC_OPTS_PFCP",
];

/// Those of Geneve.
pub const ENC_GENEVE: &[&str] = &[
    "TCA_FLOWER_KEY_ENC_OPT_GENEVE_UNSPEC",
    "TCA_FLOWER_KEY_ENC_OPT_GENEVE_CLASS",
    "TCA_FLOWER_KEY_ENC_OPT_GENEVE_TYPE",
    "TCA_FLOWER_KEY_ENC_OPT_GENEVE_DATA",
];

/// Those of VXLAN.
pub const ENC_VXLAN: &[&str] = &[
    "TCA_FLOWER_KEY_ENC_OPT_VXLAN_UNSPEC",
    "TCA_FLOWER_KEY_ENC_OPT_VXLAN_GBP",
];

/// Those of ERSPAN.
pub const ENC_ERSPAN: &[&str] = &[
    "TCA_FLOWER_KEY_ENC_OPT_ERSPAN_UNSPEC",
    "TCA_FLOWER_KEY_ENC_OPT_ERSPAN_VER",
    "TCA_FLOWER_KEY_ENC_OPT_ERSPAN_INDEX",
    "TCA_FLOWER_KEY_ENC_OPT_ERSPAN_DIR",
    "TCA_FLOWER_KEY_ENC_OPT_ERSPAN_HWID",
];

/// Those of GTP.
pub const ENC_GTP: &[&str] = &[
    "TCA_FLOWER_KEY_ENC_OPT_GTP_UNSPEC",
    "TCA_FLOWER_KEY_ENC_OPT_GTP_PDU_TYPE",
    "TCA_FLOWER_KEY_ENC_OPT_GTP_QFI",
];

/// Those of PFCP.
pub const ENC_PFCP: &[&str] = &[
    "TCA_FLOWER_KEY_ENC_OPT_PFCP_UNSPEC",
    "TCA_FLOWER_KEY_ENC_OPT_PFCP_TYPE",
    "TCA_FLOWER_KEY_ENC_OPT_PFCP_SEID",
];

/// The options of `pedit`.
pub const PEDIT: &[&str] = &[
    "TCA_PEDIT_UNSPEC",
    "TCA_PEDIT_TM",
    "TCA_PEDIT_PARMS",
    "TCA_PEDIT_PAD",
    "TCA_PEDIT_PARMS_EX",
    "TCA_PEDIT_KEYS_EX",
    "TCA_PEDIT_KEY_EX",
];

/// What a key of `pedit` is besides. The header names no number 0.
pub const PEDIT_KEY_EX: &[&str] = &[
    "TCA_PEDIT_KEY_EX_UNSPEC",
    "TCA_PEDIT_KEY_EX_HTYPE",
    "TCA_PEDIT_KEY_EX_CMD",
];
