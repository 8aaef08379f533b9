//! The messages.

use netlink_packet_route::MessageKind;

/// What is called on the bytes.
#[derive(Clone, Copy)]
pub enum Called {
    /// The calls of a message of this kind.
    Message(MessageKind),
    /// Those of a next hop by itself.
    NextHop,
    /// Those of the type of a route with next hops inside next hops, as many as a length of two bytes
    /// lets stand.
    Levels,
}

/// A message as hexadecimal text, and its canonical bytes.
#[derive(Clone, Copy)]
pub struct Row {
    /// What is called on its bytes.
    pub called: Called,
    /// Its bytes.
    pub text: &'static str,
    /// The bytes that are written of it.
    pub canonical: &'static str,
}

const ADDRESS: Called = Called::Message(MessageKind::Address);

const ROUTE: Called = Called::Message(MessageKind::Route);

const RULE: Called = Called::Message(MessageKind::Rule);

const NEIGHBOUR: Called = Called::Message(MessageKind::Neighbour);

const LINK: Called = Called::Message(MessageKind::Link);

const OBJECT: Called = Called::Message(MessageKind::NextHop);

const TABLE: Called = Called::Message(MessageKind::NeighbourTable);

/// The address of the loopback interface.
const LOOPBACK: &str =
    "020880fe01000000080001007f000001080002007f000001070003006c6f0000080008008000000014000600ffffffffffffffff9c0000009c000000";

/// A route by an object of a next hop.
const BY_NEXT_HOP: &str = "02100000fe03000100000000080001000a06000008001e002a000000";

/// A route to a network of version 6.
const VERSION_6: &str =
    "0a400000fe030001000000001400010020010db800010000000000000000000008001700b80b00000800040002000000";

/// A route with two next hops, the first of which has padding behind it.
const TWO_NEXT_HOPS: &str =
    "02000000fe030001000000001c0009000d000000020000000500140001aabbcc0800000003000000";

const TWO_NEXT_HOPS_CANONICAL: &str =
    "02000000fe030001000000001c000900100000000200000005001400010000000800000003000000";

/// A route with an option of Geneve.
const GENEVE: &str =
    "02000000fe0300010000000014001680100008800c00018006000100010200000600150002000000";

const GENEVE_CANONICAL: &str =
    "02000000fe03000100000000200016801c0008801800018006000100010200000500020000000000040003000600150002000000";

/// A rule with the name of an interface, which has no zero at its end.
const NAME: &str = "02000000fe000001000000000800030065746830";

const NAME_CANONICAL: &str = "02000000fe00000100000000090003006574683000000000";

/// A route with an RPL header.
const RPL: &str =
    "02000000fe03000100000000200016001c0001000002030100000000fc0000000000000000000000000000010600150008000000";

const RPL_CANONICAL: &str =
    "02000000fe03000100000000200016801c0001000002030100000000fc0000000000000000000000000000010600150008000000";

/// A neighbour of a bridge, whose address and address on the link are bytes.
const OF_BRIDGE: &str = "070000000300000080000200080001000a0000090a0002000200000000130000";

/// A link with the number of a vlan and a list of its priorities, whose kind stands behind them and has no
/// zero at its end.
const VLAN: &str =
    "00000000000000000000000000000000280012001c0002000600010064000000100004000c000100010000000200000008000100766c616e";

const VLAN_CANONICAL: &str =
    "000000000000000000000000000000002c0012001c0002000600010064000000100004000c000100010000000200000009000100766c616e00000000";

/// A link and its peer.
const PEER: &str =
    "0000000000000000000000000000000030001200090001007665746800000000200002001c000100000000000000000000000000000000000800030076653100";

/// A link of a kind without a family of data, as that of its port.
const KEPT: &str =
    "00000000000000000000000000000000340012000c00010062617265756470000c0002000600010019eb000009000400626f6e64000000000c0005000500010000000000";

/// What both versions of IP say of a link, the one in numbers.
const FAMILIES: &str =
    "0000000000000000000000000000000024001a0014000200100001000100000000000000020000000c000a000500080001000000";

/// Other names of a link.
const NAMES: &str =
    "000000000000000000000000000000001c0034800a00350066697273740000000b0035007365636f6e640000";

/// A next hop with labels of MPLS before their type.
const LABELS: &str =
    "02fd0000000000000800010009000000080006000a000009100008800c00010000064000000c81000600070001000000";

/// A resilient group.
const GROUP: &str =
    "0000000000000000080001000600000014000200010000000000000002000000000000001c000c80060001002000000008000200701700000800030030750000";

/// A change of a table of neighbours: its name, and a list of parameters.
const PARAMETERS: &str =
    "000000000e0001006172705f63616368650000001800060008000100040000000c000500e803000000000000";

/// A next hop, its attributes two addresses.
const NEXT_HOP: &str = "1800000002000000080005000a000001080001000a000002";

impl Row {
    /// The row of this name.
    pub fn of(name: &str) -> Option<Row> {
        let (called, text, canonical) = match name {
            "loopback" => (ADDRESS, LOOPBACK, LOOPBACK),
            "by_next_hop" => (ROUTE, BY_NEXT_HOP, BY_NEXT_HOP),
            "version_6" => (ROUTE, VERSION_6, VERSION_6),
            "two_next_hops" => (ROUTE, TWO_NEXT_HOPS, TWO_NEXT_HOPS_CANONICAL),
            "geneve" => (ROUTE, GENEVE, GENEVE_CANONICAL),
            "name" => (RULE, NAME, NAME_CANONICAL),
            "rpl" => (ROUTE, RPL, RPL_CANONICAL),
            "of_bridge" => (NEIGHBOUR, OF_BRIDGE, OF_BRIDGE),
            "vlan" => (LINK, VLAN, VLAN_CANONICAL),
            "peer" => (LINK, PEER, PEER),
            "kept_data" => (LINK, KEPT, KEPT),
            "families" => (LINK, FAMILIES, FAMILIES),
            "other_names" => (LINK, NAMES, NAMES),
            "labels" => (OBJECT, LABELS, LABELS),
            "group" => (OBJECT, GROUP, GROUP),
            "parameters" => (TABLE, PARAMETERS, PARAMETERS),
            "next_hop" => (Called::NextHop, NEXT_HOP, NEXT_HOP),
            "levels" => (Called::Levels, "", ""),
            _ => return None,
        };
        Some(Row {
            called,
            text,
            canonical,
        })
    }
}
