//! The words that `ip` has for numbers of links.

use crate::names::Names;

/// What kind of link it is (`ARPHRD_*`).
pub const LINK_TYPES: Names = &[
    (0, "netrom"),
    (1, "ether"),
    (2, "eether"),
    (3, "ax25"),
    (4, "pronet"),
    (5, "chaos"),
    (6, "ieee802"),
    (7, "arcnet"),
    (8, "atalk"),
    (15, "dlci"),
    (19, "atm"),
    (23, "metricom"),
    (24, "ieee1394"),
    (32, "infiniband"),
    (256, "slip"),
    (257, "cslip"),
    (258, "slip6"),
    (259, "cslip6"),
    (260, "rsrvd"),
    (264, "adapt"),
    (270, "rose"),
    (271, "x25"),
    (272, "hwx25"),
    (280, "can"),
    (512, "ppp"),
    (513, "hdlc"),
    (516, "lapb"),
    (517, "ddcmp"),
    (518, "rawhdlc"),
    (768, "ipip"),
    (769, "tunnel6"),
    (770, "frad"),
    (771, "skip"),
    (772, "loopback"),
    (773, "ltalk"),
    (774, "fddi"),
    (775, "bif"),
    (776, "sit"),
    (777, "ip/ddp"),
    (778, "gre"),
    (779, "pimreg"),
    (780, "hippi"),
    (781, "ash"),
    (782, "econet"),
    (783, "irda"),
    (784, "fcpp"),
    (785, "fcal"),
    (786, "fcpl"),
    (787, "fcfb0"),
    (788, "fcfb1"),
    (789, "fcfb2"),
    (790, "fcfb3"),
    (791, "fcfb4"),
    (792, "fcfb5"),
    (793, "fcfb6"),
    (794, "fcfb7"),
    (795, "fcfb8"),
    (796, "fcfb9"),
    (797, "fcfb10"),
    (798, "fcfb11"),
    (799, "fcfb12"),
    (800, "tr"),
    (801, "ieee802.11"),
    (802, "ieee802.11/prism"),
    (803, "ieee802.11/radiotap"),
    (804, "ieee802.15.4"),
    (805, "ieee802.15.4/monitor"),
    (820, "phonet"),
    (821, "phonet_pipe"),
    (822, "caif"),
    (823, "gre6"),
    (824, "netlink"),
    (825, "6lowpan"),
    (65534, "none"),
    (65535, "void"),
];

/// The flags of a link (`IFF_*`) but that of its being ready to run, in the order of `ip`.
pub const LINK_FLAGS: Names = &[
    (0x8, "LOOPBACK"),
    (0x2, "BROADCAST"),
    (0x10, "POINTOPOINT"),
    (0x1000, "MULTICAST"),
    (0x80, "NOARP"),
    (0x200, "ALLMULTI"),
    (0x100, "PROMISC"),
    (0x400, "MASTER"),
    (0x800, "SLAVE"),
    (0x4, "DEBUG"),
    (0x8000, "DYNAMIC"),
    (0x4000, "AUTOMEDIA"),
    (0x2000, "PORTSEL"),
    (0x20, "NOTRAILERS"),
    (0x1, "UP"),
    (0x10000, "LOWER_UP"),
    (0x20000, "DORMANT"),
    (0x40000, "ECHO"),
];

/// The operational states (`IF_OPER_*`).
pub const STATES: Names = &[
    (0, "UNKNOWN"),
    (1, "NOTPRESENT"),
    (2, "DOWN"),
    (3, "LOWERLAYERDOWN"),
    (4, "TESTING"),
    (5, "DORMANT"),
    (6, "UP"),
];

/// What a link is up for (`IF_LINK_MODE_*`).
pub const LINK_MODES: Names = &[(0, "DEFAULT"), (1, "DORMANT")];

/// What happened to a link (`IFLA_EVENT_*`).
pub const EVENTS: Names = &[
    (0, "NONE"),
    (1, "REBOOT"),
    (2, "FEATURE CHANGE"),
    (3, "BONDING FAILOVER"),
    (4, "NOTIFY PEERS"),
    (5, "RESEND IGMP"),
    (6, "BONDING OPTION"),
];

/// Where a program stands, as a line tells it (`XDP_ATTACHED_*`).
pub const PROGRAMS: Names = &[
    (1, "xdp"),
    (2, "xdpgeneric"),
    (3, "xdpoffload"),
    (4, "xdpmulti"),
];

/// How a link makes its address of version 6 (`IN6_ADDR_GEN_MODE_*`).
pub const ADDRESS_MODES: Names = &[
    (0, "eui64"),
    (1, "none"),
    (2, "stable_secret"),
    (3, "random"),
];

/// What a link does for version 6 (`IF_RS_SENT` and the like).
pub const INET6_FLAGS: Names = &[
    (0x10, "rs_sent"),
    (0x20, "ra_rcvd"),
    (0x40, "ra_managed"),
    (0x80, "ra_otherconf"),
    (0x8000_0000, "ready"),
];

/// What an answer is to say besides (`RTEXT_FILTER_*`).
pub const FILTERS: Names = &[
    (0x1, "vf"),
    (0x2, "brvlan"),
    (0x4, "brvlan_compressed"),
    (0x8, "skip_stats"),
    (0x10, "mrp"),
    (0x20, "cfm_config"),
    (0x40, "cfm_status"),
    (0x80, "mst"),
    (0x100, "name_only"),
];

/// The protocols of tags of VLANs (`ETH_P_*`).
pub const TAGS: Names = &[(0x8100, "802.1Q"), (0x88a8, "802.1ad")];

/// The flags of a VLAN (`VLAN_FLAG_*`), in the order of `ip`.
pub const VLAN_FLAGS: Names = &[
    (0x1, "REORDER_HDR"),
    (0x2, "GVRP"),
    (0x8, "MVRP"),
    (0x4, "LOOSE_BINDING"),
    (0x10, "BRIDGE_BINDING"),
];

/// The states of a port of a bridge (`BR_STATE_*`).
pub const PORT_STATES: Names = &[
    (0, "disabled"),
    (1, "listening"),
    (2, "learning"),
    (3, "forwarding"),
    (4, "blocking"),
];

/// The groups that a bridge can forward, by their names or bits.
pub const BRIDGE_GROUPS: Names = &[
    (0x1, "stp"),
    (0x2, "0x2"),
    (0x4, "lacp"),
    (0x8, "0x8"),
    (0x10, "0x10"),
    (0x20, "0x20"),
    (0x40, "0x40"),
    (0x80, "0x80"),
    (0x100, "0x100"),
    (0x200, "0x200"),
    (0x400, "0x400"),
    (0x800, "0x800"),
    (0x1000, "0x1000"),
    (0x2000, "0x2000"),
    (0x4000, "lldp"),
    (0x8000, "0x8000"),
];
