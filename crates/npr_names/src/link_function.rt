//! The names of attributes of virtual functions of links and of kinds of links, as the kernel's headers have them.

/// One of the virtual functions of a link.
pub const VF_INFO_LIST: &[&str] = &["IFLA_VF_INFO_UNSPEC", "IFLA_VF_INFO"];

/// What a link says of a virtual function.
pub const VF_INFO: &[&str] = &[
    "IFLA_VF_UNSPEC",
    "IFLA_VF_MAC",
    "IFLA_VF_VLAN",
    "IFLA_VF_TX_RATE",
    "IFLA_VF_SPOOFCHK",
    "IFLA_VF_LINK_STATE",
    "IFLA_VF_RATE",
    "IFLA_VF_RSS_QUERY_EN",
    "IFLA_VF_STATS",
    "IFLA_VF_TRUST",
    "IFLA_VF_IB_NODE_GUID",
    "IFLA_VF_IB_PORT_GUID",
    "IFLA_VF_VLAN_LIST",
    "IFLA_VF_BROADCAST",
];

/// A counter of a virtual function.
pub const VF_STATS: &[&str] = &[
    "IFLA_VF_STATS_RX_PACKETS",
    "IFLA_VF_STATS_TX_PACKETS",
    "IFLA_VF_STATS_RX_BYTES",
    "IFLA_VF_STATS_TX_BYTES",
    "IFLA_VF_STATS_BROADCAST",
    "IFLA_VF_STATS_MULTICAST",
    "IFLA_VF_STATS_PAD",
    "IFLA_VF_STATS_RX_DROPPED",
    "IFLA_VF_STATS_TX_DROPPED",
];

/// One of the VLANs of a virtual function.
pub const VF_VLAN: &[&str] = &["IFLA_VF_VLAN_INFO_UNSPEC", "IFLA_VF_VLAN_INFO"];

/// One of the ports of a link.
pub const VF_PORTS: &[&str] = &["IFLA_VF_PORT_UNSPEC", "IFLA_VF_PORT"];

/// What a link says of a port.
pub const VF_PORT: &[&str] = &[
    "IFLA_PORT_UNSPEC",
    "IFLA_PORT_VF",
    "IFLA_PORT_PROFILE",
    "IFLA_PORT_VSI_TYPE",
    "IFLA_PORT_INSTANCE_UUID",
    "IFLA_PORT_HOST_UUID",
    "IFLA_PORT_REQUEST",
    "IFLA_PORT_RESPONSE",
];

/// What MCTP says of a link.
pub const MCTP: &[&str] = &[
    "IFLA_MCTP_UNSPEC",
    "IFLA_MCTP_NET",
    "IFLA_MCTP_PHYS_BINDING",
];

/// The pin that a link is clocked by.
pub const DPLL_PIN: &[&str] = &["DPLL_A_PIN_UNSPEC", "DPLL_A_PIN_ID"];

/// The data of `hsr`.
pub const HSR: &[&str] = &[
    "IFLA_HSR_UNSPEC",
    "IFLA_HSR_SLAVE1",
    "IFLA_HSR_SLAVE2",
    "IFLA_HSR_MULTICAST_SPEC",
    "IFLA_HSR_SUPERVISION_ADDR",
    "IFLA_HSR_SEQ_NR",
    "IFLA_HSR_VERSION",
    "IFLA_HSR_PROTOCOL",
    "IFLA_HSR_INTERLINK",
];

/// The data of `ipoib`.
pub const IPOIB: &[&str] = &[
    "IFLA_IPOIB_UNSPEC",
    "IFLA_IPOIB_PKEY",
    "IFLA_IPOIB_MODE",
    "IFLA_IPOIB_UMCAST",
];

/// The data of `macsec`.
pub const MAC_SEC: &[&str] = &[
    "IFLA_MACSEC_UNSPEC",
    "IFLA_MACSEC_SCI",
    "IFLA_MACSEC_PORT",
    "IFLA_MACSEC_ICV_LEN",
    "IFLA_MACSEC_CIPHER_SUITE",
    "IFLA_MACSEC_WINDOW",
    "IFLA_MACSEC_ENCODING_SA",
    "IFLA_MACSEC_ENCRYPT",
    "IFLA_MACSEC_PROTECT",
    "IFLA_MACSEC_INC_SCI",
    "IFLA_MACSEC_ES",
    "IFLA_MACSEC_SCB",
    "IFLA_MACSEC_REPLAY_PROTECT",
    "IFLA_MACSEC_VALIDATION",
    "IFLA_MACSEC_PAD",
    "IFLA_MACSEC_OFFLOAD",
];

/// The data of `gtp`.
pub const GTP: &[&str] = &[
    "IFLA_GTP_UNSPEC",
    "IFLA_GTP_FD0",
    "IFLA_GTP_FD1",
    "IFLA_GTP_PDP_HASHSIZE",
    "IFLA_GTP_ROLE",
    "IFLA_GTP_CREATE_SOCKETS",
    "IFLA_GTP_RESTART_COUNT",
    "IFLA_GTP_LOCAL",
    "IFLA_GTP_LOCAL6",
];

/// The data of `ovpn`.
pub const OVPN: &[&str] = &["IFLA_OVPN_UNSPEC", "IFLA_OVPN_MODE"];
