//! The words that `ip` has for numbers.

/// Numbers, each with its word.
pub type Names = &'static [(u32, &'static str)];

/// Who made a route (`RTPROT_*`).
pub const PROTOCOLS: Names = &[
    (0, "unspec"),
    (1, "redirect"),
    (2, "kernel"),
    (3, "boot"),
    (4, "static"),
    (8, "gated"),
    (9, "ra"),
    (10, "mrt"),
    (11, "zebra"),
    (12, "bird"),
    (13, "dnrouted"),
    (14, "xorp"),
    (15, "ntk"),
    (16, "dhcp"),
    (17, "mrouted"),
    (18, "keepalived"),
    (42, "babel"),
    (99, "openr"),
    (186, "bgp"),
    (187, "isis"),
    (188, "ospf"),
    (189, "rip"),
    (192, "eigrp"),
];

/// How far a destination or an address reaches (`RT_SCOPE_*`).
pub const SCOPES: Names = &[
    (0, "global"),
    (200, "site"),
    (253, "link"),
    (254, "host"),
    (255, "nowhere"),
];

/// What a route, or a rule, does with a packet (`RTN_*`).
pub const TYPES: Names = &[
    (0, "none"),
    (1, "unicast"),
    (2, "local"),
    (3, "broadcast"),
    (4, "anycast"),
    (5, "multicast"),
    (6, "blackhole"),
    (7, "unreachable"),
    (8, "prohibit"),
    (9, "throw"),
    (10, "nat"),
    (11, "xresolve"),
];

/// The tables that have a name (`RT_TABLE_*`).
pub const TABLES: Names = &[
    (0, "unspec"),
    (253, "default"),
    (254, "main"),
    (255, "local"),
];

/// The realm that has a name.
pub const REALMS: Names = &[(0, "cosmos")];

/// The group of interfaces that has a name.
pub const GROUPS: Names = &[(0, "default")];

/// What made an address (`IFAPROT_*`).
pub const ADDRESS_PROTOCOLS: Names = &[
    (0, "unspec"),
    (1, "kernel_lo"),
    (2, "kernel_ra"),
    (3, "kernel_ll"),
];

/// Protocols over IP, as most systems name them.
pub const IP_PROTOCOLS: Names = &[
    (0, "ip"),
    (1, "icmp"),
    (2, "igmp"),
    (4, "ipencap"),
    (6, "tcp"),
    (8, "egp"),
    (12, "pup"),
    (17, "udp"),
    (22, "xns-idp"),
    (29, "iso-tp4"),
    (33, "dccp"),
    (41, "ipv6"),
    (46, "rsvp"),
    (47, "gre"),
    (50, "esp"),
    (51, "ah"),
    (58, "ipv6-icmp"),
    (98, "encap"),
    (103, "pim"),
    (108, "ipcomp"),
    (115, "l2tp"),
    (132, "sctp"),
    (136, "udplite"),
    (137, "mpls-in-ip"),
];

/// How a segment routing header is put in (`SEG6_IPTUN_MODE_*`).
pub const SEG6_MODES: Names = &[
    (0, "inline"),
    (1, "encap"),
    (2, "l2encap"),
    (3, "encap.red"),
    (4, "l2encap.red"),
];

/// The preferences of a router (RFC 4191).
pub const PREFERENCES: Names = &[(0, "medium"), (1, "high"), (3, "low")];
