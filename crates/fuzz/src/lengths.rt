//! The lengths of values that fit, by the number of the attribute.

/// Any length.
pub const ANY: u8 = 255;

/// The length of an address of the family.
pub const OF_FAMILY: u8 = 254;

/// Of addresses.
pub const ADDRESS: [u8; 12] = [ANY, OF_FAMILY, OF_FAMILY, ANY, 4, 16, 16, 16, 4, 4, ANY, 1];

/// Of routes.
pub const ROUTE: [u8; 32] = [
    ANY, OF_FAMILY, OF_FAMILY, 4, 4, OF_FAMILY, 4, OF_FAMILY, 0, 0, ANY, 4, 32, ANY, ANY, 4, 4, 24,
    6, OF_FAMILY, 1, 2, 0, 4, ANY, 4, 1, 1, 2, 2, 4, 4,
];

/// Of rules.
pub const RULE: [u8; 31] = [
    ANY, OF_FAMILY, OF_FAMILY, ANY, 4, ANY, 4, ANY, ANY, ANY, 4, 4, 8, 4, 4, 4, 4, ANY, ANY, 1, 8,
    1, 1, 4, 4, 1, 4, 4, 2, 2, 1,
];

/// Of neighbours; lists are empty here.
pub const NEIGHBOUR: [u8; 18] = [
    ANY, OF_FAMILY, 6, 16, 4, 2, 2, 4, 4, 4, 4, 4, 1, 4, 0, 4, 2, 1,
];

/// Of an extended answer.
pub const ANSWERS: [u8; 7] = [ANY, ANY, 4, ANY, ANY, 4, 4];

/// Of members of encapsulations, of whichever type.
pub const MEMBERS: [u8; 10] = [ANY, 8, 4, 4, 1, 1, 2, ANY, 0, 4];

/// Of metrics.
pub const NUMBERS: [u8; 18] = [ANY, 4, 4, 4, 4, 4, 4, 4, 4, 4, 4, 4, 4, 4, 4, 4, ANY, 4];

/// Of options of tunnels.
pub const OPTIONS: [u8; 5] = [ANY, 2, 1, ANY, 4];

/// Of links; lists are empty here.
pub const LINK: [u8; 70] = [
    ANY, 6, 6, ANY, 4, 4, ANY, ANY, ANY, ANY, 4, ANY, ANY, 4, 32, 4, 1, 1, 0, 4, ANY, 4, 0, ANY,
    ANY, ANY, 0, 4, 4, 4, 4, 4, 4, 1, ANY, 4, ANY, 4, ANY, 1, 4, 4, ANY, 0, 4, 4, 4, 4, 4, 4, 4, 4,
    0, ANY, ANY, 0, ANY, ANY, 4, 4, 4, 4, ANY, 4, 4, 0, 8, 1, 2, 2,
];

/// Of what drivers say of a link.
pub const INFO: [u8; 6] = [ANY, ANY, 0, ANY, ANY, 0];

/// Of the data of a bridge, of its querier, and of a port of it.
pub const BRIDGE: [u8; 51] = [
    ANY, 4, 4, 4, 4, 4, 2, 1, 2, 2, 8, 8, 2, 4, 1, 1, 8, 8, 8, 8, 6, 0, 1, 1, 1, 1, 4, 4, 4, 4, 8,
    8, 8, 8, 8, 8, 1, 1, 1, 2, ANY, 1, 1, 1, 1, 1, 8, 0, 4, 4, 4,
];

pub const QUERIER: [u8; 8] = [ANY, 4, 4, 8, ANY, 16, 4, 8];

pub const BRIDGE_PORT: [u8; 46] = [
    ANY, 1, 2, 4, 1, 1, 1, 1, 1, 1, 1, 1, 1, 8, 8, 2, 2, 2, 2, 1, 1, 8, 8, 8, 0, 1, ANY, 1, 1, 1,
    1, 2, 1, 1, 4, 1, 1, 4, 4, 1, 1, 4, 4, 1, 4, 1,
];

/// Of the data of a vlan, and of a list of its priorities.
pub const VLAN: [u8; 6] = [ANY, 2, 8, 0, 0, 2];

pub const PRIORITIES: [u8; 2] = [ANY, 8];

/// Of the data of a vrf.
pub const VRF: [u8; 2] = [ANY, 4];

/// Of what the two versions of IP say of a link.
pub const INET: [u8; 2] = [ANY, ANY];

pub const INET6: [u8; 10] = [ANY, 4, ANY, ANY, ANY, 16, ANY, 16, 1, 4];

/// Of programs at a link, and of reasons why it is down.
pub const XDP: [u8; 9] = [ANY, 4, 1, 4, 4, 4, 4, 4, 4];

pub const REASONS: [u8; 3] = [ANY, 4, 4];

/// Of the data of a kind of link. A flag has no value, and a mark may have any.
pub type Lengths = &'static [u8];

const VXLAN: Lengths = &[
    ANY, 4, 4, 4, 4, 1, 1, 1, 4, 4, 4, 1, 1, 1, 1, 2, 16, 16, 1, 1, 1, 1, 1, 0, 0, 1, 4, 0, 1, 1,
    1, 1, 4, 8, 1,
];

const GENEVE: Lengths = &[
    ANY, 4, 4, 1, 1, 2, ANY, 16, 1, 1, 1, 4, 1, 1, ANY, 4, ANY, 4, 16,
];

const GRE: Lengths = &[
    ANY, 4, 2, 2, 4, 4, 4, 4, 1, 1, 1, ANY, ANY, ANY, 2, 2, 2, 2, ANY, 1, 4, 4, 1, 1, 2,
];

const GRE6: Lengths = &[
    ANY, 4, 2, 2, 4, 4, 16, 16, 1, ANY, ANY, 1, 4, 4, 2, 2, 2, 2, ANY, ANY, 4, 4, 1, 1, 2,
];

const TUNNEL: Lengths = &[
    ANY, 4, 4, 16, 1, 1, 1, 4, 2, 1, 1, 16, 4, 2, 2, 2, 2, 2, 2, 0, 4,
];

const TUNNEL6: Lengths = &[
    ANY, 4, 16, 16, 1, 1, 1, 4, 4, 1, 1, ANY, ANY, ANY, ANY, 2, 2, 2, 2, 1, 4,
];

const BOND: Lengths = &[
    ANY, 1, 4, 4, 4, 4, 1, 4, 0, 4, 4, 4, 1, 1, 1, 4, 1, 1, 4, 4, 4, 1, 1, 0, 2, 2, 6, 1, 4, 1, 1,
    0, 1, 1, 1,
];

/// Of ports of a bond.
pub const BOND_PORT: Lengths = &[ANY, 1, 1, 4, ANY, 2, 2, 1, 2, 4, 2, 1, 1];

/// Kinds without a list inside that is made by itself, each with the lengths of its data.
pub const KINDS: [(&str, Lengths); 23] = [
    ("vxlan", VXLAN),
    ("geneve", GENEVE),
    ("gre", GRE),
    ("gretap", GRE),
    ("ip6gre", GRE6),
    ("ip6gretap", GRE6),
    ("ipip", TUNNEL),
    ("sit", TUNNEL),
    ("ip6tnl", TUNNEL6),
    ("vti6", &[ANY, 4, 4, 4, 4, 16, 4]),
    ("xfrm", &[ANY, 4, 4, ANY]),
    ("tun", &[ANY, 4, 4, 1, 1, 1, 1, 1, 4, 4]),
    ("bond", BOND),
    ("macvlan", &[ANY, 4, 2, 4, 6, 0, 4, 4, 4, 4]),
    ("ipvlan", &[ANY, 2, 2]),
    ("netkit", &[ANY, 16, 1, 4, 4, 4, 4, 4, 2, 2, 4]),
    ("erspan", GRE),
    ("ip6erspan", GRE6),
    ("hsr", &[ANY, 4, 4, 1, 6, 2, 1, 1, 4]),
    ("ipoib", &[ANY, 2, 2, 2]),
    ("macsec", MAC_SEC),
    ("gtp", &[ANY, 4, 4, 4, 4, 1, 1, 4, 16]),
    ("ovpn", &[ANY, 1]),
];

const MAC_SEC: Lengths = &[ANY, 8, 2, 1, 8, 4, 1, 1, 1, 1, 1, 1, 1, 1, ANY, 1];

/// Addresses in a list, of version 4 and 6.
pub const TARGETS: Lengths = &[4, 4, 4, 4, 4, 4, 4, 4];

pub const TARGETS6: Lengths = &[16, 16, 16, 16, 16, 16, 16, 16];

/// Of next hops; lists are empty here.
pub const NEXT_HOP: [u8; 18] = [
    ANY, 4, 8, 2, 0, 4, OF_FAMILY, 2, ANY, 0, 4, 0, 0, 0, 4, 0, 4, 4,
];

/// Of a resilient group, of a bucket of one, and of the statistics of a member.
pub const RESILIENT: [u8; 5] = [ANY, 2, 4, 4, 8];

pub const BUCKET: [u8; 4] = [ANY, 2, 8, 4];

pub const STATISTICS: [u8; 4] = [ANY, 4, 8, 4];

/// Of name spaces, settings, address labels and prefixes.
pub const NAME_SPACE: [u8; 6] = [ANY, 4, 4, 4, 4, 4];

pub const SETTINGS: [u8; 10] = [ANY, 4, 4, 4, 4, 4, 4, 4, 4, 4];

pub const LABEL: [u8; 3] = [ANY, 16, 4];

pub const PREFIX: [u8; 3] = [ANY, 16, 8];

/// Of tables of neighbours, where the list is empty, and of their parameters.
pub const TABLE: [u8; 9] = [ANY, ANY, 4, 4, 4, 32, 0, 88, 8];

pub const PARAMETER: [u8; 20] = [
    ANY, 4, 4, 8, 8, 8, 8, 8, 4, 4, 4, 4, 8, 8, 4, 8, 4, 4, ANY, 8,
];

/// Of messages of traffic control; lists are empty here.
pub const TRAFFIC: [u8; 17] = [
    ANY, ANY, 0, 40, ANY, 2, ANY, 0, 0, ANY, 0, 4, 1, 4, 4, 8, ANY,
];

/// Of statistics, and of a table of sizes.
pub const STATS2: [u8; 9] = [ANY, 16, 8, 20, ANY, 16, ANY, 16, 8];

pub const SIZES: [u8; 3] = [ANY, 24, ANY];

/// Queueing disciplines with data.
pub const DISCIPLINES: [(&str, Lengths); 12] = [
    ("fq_codel", &[ANY, 4, 4, 4, 4, 4, 4, 4, 4, 4, 1, 1]),
    ("ingress", &[ANY, ANY]),
    ("clsact", &[ANY, ANY]),
    ("htb", &[ANY, 44, 20, ANY, ANY, 4, 8, 8, ANY, 0]),
    ("tbf", &[ANY, 36, ANY, ANY, 8, 8, 4, 4]),
    ("red", &[ANY, 16, ANY, 4, 8, 4, 4]),
    ("fq", FQ),
    ("netem", NETEM),
    ("prio", &[ANY, 20]),
    ("bfifo", &[ANY, ANY]),
    ("cake", CAKE),
    ("sfq", &[ANY, ANY]),
];

const FQ: Lengths = &[ANY, 4, 4, 4, 4, 4, 4, 4, 4, 4, 4, 4, 4, 4, 4, 1, 20, 12, 4];

const CAKE: Lengths = &[ANY, ANY, 8, 4, 4, 4, 4, 4, 4, 4, 4, 4, 4, 4, 4, 4, 4, 4, 4];

/// The first attributes stand where its structure does.
const NETEM: Lengths = &[ANY, 12, ANY, 8, 8, 0, 16, 4, 8, ANY, 8, 8, 40, ANY, 8];

/// Filters with data, each with the number of its actions.
pub const FILTERS: [(&str, u16, Lengths); 6] = [
    ("u32", 7, &[ANY, 4, 4, 4, 4, 32, 0, 0, ANY, 24, 12, 4]),
    ("matchall", 2, &[ANY, 4, 0, 4, 8]),
    ("flower", 3, FLOWER),
    ("fw", 4, &[ANY, 4, 0, ANY, 0, 4]),
    ("bpf", 1, &[ANY, 0, 0, 4, 2, 16, 4, ANY, 4, 4, ANY, 4]),
    ("basic", 3, &[ANY, 4, 0, 0, 0, 16]),
];

pub const FLOWER: Lengths = &[
    ANY, 4, ANY, 0, 6, 6, 6, 6, 2, 1, 4, 4, 4, 4, 16, 16, 16, 16, 2, 2, 2, 2, 4, 2, 1, 2, 4, 4, 4,
    4, 4, 16, 16, 16, 16, 2, 2, 2, 2, 2, 2, 2, 2, 2, 2, 2, 2, 4, 4, 1, 1, 1, 1, 1, 1, 1, 1, 4, 4,
    4, 4, 1, 1, 6, 6, 6, 6, 1, 1, 1, 4, 2, 2, 1, 1, 1, 1, 2, 1, 2, 1, 1, 1, 1, 0, 0, 4, 2, 2, 2, 2,
    2, 2, 2, 2, 4, 4, 16, 16, 0, 4, 4, 1, 2, 2, 4, 1, 0, 4, 4, 4, 4,
];

/// Of an entry of labels.
pub const LABEL_ENTRY: [u8; 6] = [ANY, 1, 1, 1, 1, 4];

/// Of a message of actions, of a list of them, and of one; lists are empty here.
pub const ACTION_MESSAGE: [u8; 6] = [ANY, 0, 8, 4, 4, ANY];

pub const ACTIONS: Lengths = &[0, 0, 0];

pub const ACTION: [u8; 11] = [ANY, ANY, 0, 4, 0, ANY, ANY, 8, 8, 8, 4];

/// Actions with options.
pub const ACTION_KINDS: [(&str, Lengths); 12] = [
    ("mirred", &[ANY, 32, 28, ANY, 4]),
    ("nat", &[ANY, 36, 32]),
    (
        "tunnel_key",
        &[ANY, 32, 24, 4, 4, 16, 16, 4, ANY, 2, 1, 0, 1, 1, 0],
    ),
    ("gact", &[ANY, 32, 20, 8]),
    ("police", &[ANY, 56, ANY, ANY, 4, 4, 32, ANY, 8, 8, 8, 8]),
    ("vlan", &[ANY, 32, 24, 2, 2, ANY, 1, 6, 6]),
    ("skbedit", &[ANY, 32, 20, 4, 2, 4, ANY, 2, 4, 8, 2]),
    ("csum", &[ANY, 24, 32]),
    ("ct", CONNECTION),
    ("sample", &[ANY, 32, 20, 4, 4, 4]),
    ("bpf", &[ANY, 32, 20, 2, 16, 4, ANY, ANY, ANY, 4]),
    ("pedit", &[ANY, 32, 24, ANY, 48, 0]),
];

const CONNECTION: Lengths = &[
    ANY, 20, 32, 2, 2, 4, 4, ANY, ANY, 4, 4, 16, 16, 2, 2, ANY, ANY, 1, 1,
];

/// Of statistics; lists are empty here.
pub const COUNTERS: [u8; 6] = [ANY, 200, 0, 0, 0, 0];

/// Of what bridges, bonds, hardware and MPLS count, and of whether hardware does.
pub const BRIDGE_COUNTERS: [u8; 5] = [ANY, 40, 240, ANY, 48];

pub const BOND_COUNTERS: [u8; 10] = [8, 8, 8, 8, 8, 8, 8, 8, 8, ANY];

pub const HARDWARE_COUNTERS: [u8; 4] = [ANY, 200, 0, 72];

pub const HARDWARE_STATE: [u8; 3] = [ANY, 1, 1];

pub const MPLS_COUNTERS: [u8; 2] = [ANY, 72];
