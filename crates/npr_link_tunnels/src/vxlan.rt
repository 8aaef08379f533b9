//! The data of a tunnel of VXLAN: `IFLA_VXLAN_*` of `linux/if_link.h`.

ghost use Rattle.std.specs.Prelude.{◌≢◌, IfOk, IfErr};
ghost use Rattle.{npr_base.specs.{declared.refusal.DecodeError.TheVariants.{OutOfMemory}, RowReading.{reads_at, wrong_at}, Tables.{shape_by, shape-by}}, npr_link_tunnels.specs.Vxlan.{table, attributes, family}};

use crate::ports::{read_ports, write_ports};
use npr_base::{
    At, Attribute, AttributeSet, DecodeError, DefaultNla, EmitError, Form, Ipv4Addr, Ipv6Addr,
    Looks, Nla, NlaBuffer, Place, Rowed, put_read,
};
use std::alloc::{AllocError, Global};

/// The data of a tunnel of VXLAN.
#[derive(Debug, Drop, PartialEq, Eq)]
pub enum InfoVxlan {
    /// `IFLA_VXLAN_ID`: the network.
    Id(u32),
    /// `IFLA_VXLAN_GROUP`: where packets to unknown addresses go over IP version 4: a group, or another end.
    Group(Ipv4Addr),
    /// `IFLA_VXLAN_LINK`: the index of the link that it goes by.
    Link(u32),
    /// `IFLA_VXLAN_LOCAL`: the address of this end, of IP version 4.
    Local(Ipv4Addr),
    /// `IFLA_VXLAN_TTL`: the time to live of what it sends.
    Ttl(u8),
    /// `IFLA_VXLAN_TOS`: the type of service of what it sends, or 1 for that of the packet inside.
    Tos(u8),
    /// `IFLA_VXLAN_LEARNING`: whether addresses are learned from what comes in.
    Learning(bool),
    /// `IFLA_VXLAN_AGEING`: how long an address is remembered, in seconds.
    Ageing(u32),
    /// `IFLA_VXLAN_LIMIT`: how many addresses are remembered at most, or 0 for any number.
    Limit(u32),
    /// `IFLA_VXLAN_PORT_RANGE`: the first and the last port of UDP that it sends from.
    PortRange((u16, u16)),
    /// `IFLA_VXLAN_PROXY`: whether it answers questions for neighbours that it knows.
    Proxy(bool),
    /// `IFLA_VXLAN_RSC`: whether what goes to a router goes to the next hop at once.
    Rsc(bool),
    /// `IFLA_VXLAN_L2MISS`: whether it tells of an address of a link that it does not know.
    L2Miss(bool),
    /// `IFLA_VXLAN_L3MISS`: whether it tells of an address of IP that it does not know.
    L3Miss(bool),
    /// `IFLA_VXLAN_PORT`: the port of UDP that it sends to.
    Port(u16),
    /// `IFLA_VXLAN_GROUP6`: where packets to unknown addresses go over IP version 6: a group, or another end.
    Group6(Ipv6Addr),
    /// `IFLA_VXLAN_LOCAL6`: the address of this end, of IP version 6.
    Local6(Ipv6Addr),
    /// `IFLA_VXLAN_UDP_CSUM`: whether checksums are sent over IP version 4.
    UDPCsum(bool),
    /// `IFLA_VXLAN_UDP_ZERO_CSUM6_TX`: whether none are sent over IP version 6.
    UDPZeroCsumTX(bool),
    /// `IFLA_VXLAN_UDP_ZERO_CSUM6_RX`: whether packets without one are taken over IP version 6.
    UDPZeroCsumRX(bool),
    /// `IFLA_VXLAN_REMCSUM_TX`: whether the checksum inside is left to the other end.
    RemCsumTX(bool),
    /// `IFLA_VXLAN_REMCSUM_RX`: whether one that was left to this end is made up.
    RemCsumRX(bool),
    /// `IFLA_VXLAN_GBP`: whether the header says a group for policies.
    Gbp(bool),
    /// `IFLA_VXLAN_REMCSUM_NOPARTIAL`: whether a checksum that was left to this end is made up at once.
    RemCsumNoPartial(bool),
    /// `IFLA_VXLAN_COLLECT_METADATA`: whether each packet says the network and the other end itself.
    CollectMetadata(bool),
    /// `IFLA_VXLAN_LABEL`: the flow label of what it sends over IP version 6.
    Label(u32),
    /// `IFLA_VXLAN_GPE`: whether the header says the protocol of what is inside.
    Gpe(bool),
    /// `IFLA_VXLAN_TTL_INHERIT`: whether the time to live is that of the packet inside.
    TtlInherit(bool),
    /// `IFLA_VXLAN_DF`: the don't-fragment bit of what it sends: `VXLAN_DF_*`.
    Df(u8),
    /// `IFLA_VXLAN_VNIFILTER`: whether packets of networks that it was not told of are dropped.
    Vnifilter(bool),
    /// `IFLA_VXLAN_LOCALBYPASS`: whether what goes to another such tunnel of this host goes there at once.
    Localbypass(bool),
    /// `IFLA_VXLAN_LABEL_POLICY`: where the flow label comes from: `VXLAN_LABEL_*`.
    LabelPolicy(u32),
    /// `IFLA_VXLAN_RESERVED_BITS`: the bits of the header that must be 0, in the order of the header.
    ReservedBits(u64),
    /// `IFLA_VXLAN_MC_ROUTE`: whether what goes to a group takes multicast routes.
    McRoute(bool),
    /// An attribute of another number, as it stands.
    Other(DefaultNla),
}

/// The rows of the table.
macro_rules! rows {
    ($body:ident ($($given:tt)*)) => {
        npr_base::$body!(($($given)*) InfoVxlan of InfoVxlan {
            1 Id(le32);
            2 Group(octets4);
            3 Link(le32);
            4 Local(octets4);
            5 Ttl(byte);
            6 Tos(byte);
            7 Learning(boolean);
            8 Ageing(le32);
            9 Limit(le32);
            11 Proxy(boolean);
            12 Rsc(boolean);
            13 L2Miss(boolean);
            14 L3Miss(boolean);
            15 Port(be16);
            16 Group6(octets16);
            17 Local6(octets16);
            18 UDPCsum(boolean);
            19 UDPZeroCsumTX(boolean);
            20 UDPZeroCsumRX(boolean);
            21 RemCsumTX(boolean);
            22 RemCsumRX(boolean);
            23 Gbp(flag);
            24 RemCsumNoPartial(flag);
            25 CollectMetadata(boolean);
            26 Label(be32);
            27 Gpe(flag);
            28 TtlInherit(flag);
            29 Df(byte);
            30 Vnifilter(boolean);
            31 Localbypass(boolean);
            32 LabelPolicy(le32);
            33 ReservedBits(be64);
            34 McRoute(boolean);
        })
    };
}

impl Nla for InfoVxlan {
    ghost shape = { shape_by table };

    fn kind(&self) -> u16 {
        rows!(kind_rows(self; InfoVxlan::PortRange(_) => 10,))
    }

    fn is_nested(&self) -> bool {
        false
    }

    fn check_value(&self) -> Result<usize, EmitError> {
        Ok(rows!(len_rows(self; InfoVxlan::PortRange(_) => 4,)))
    }

    fn write_value(&self, out: &mut [u8]) -> usize {
        rows!(write_rows(self, out; InfoVxlan::PortRange(x) => write_ports(*x, out),))
    }
}

impl Rowed for InfoVxlan {
    ghost reads = { reads_at table };

    ghost wrong = { wrong_at table };
}

/// Puts an attribute; none has others inside.
///
/// # Errors
/// `OutOfMemory` where memory is refused, and else what is wrong with the value.
#[tactic(auto, unfolding(crate::specs::Vxlan::attributes))]
fn put_flat<P: Place<InfoVxlan>>(
    place: &mut P,
    alloc: Global,
    item: &NlaBuffer<'_>,
) -> Result<(), DecodeError>
    requires { P.ready place.old }
    ensures ok { IfOk result (λ _. (a : InfoVxlan) × P.puts place.old a place.new × attributes.Reads item.now (family.meaning a)) }
    ensures refused { IfErr result (λ e. e ≢ OutOfMemory → attributes.Faulty item.now e) }
{
    rows!(flat_rows(place, alloc, item; 10 => put_read(
        place,
        read_ports(item.value(), AttributeSet::InfoVxlan.at(10)),
        InfoVxlan::PortRange,
    ),))
}

impl Attribute for InfoVxlan {
    type Context = ();

    ghost family = { family };

    ghost shape_is = { shape-by table };

    #[tactic(auto, using(crate::specs::Vxlan::no_looks))]
    fn read_into<P: Place<Self>>(
        place: &mut P,
        alloc: Global,
        _context: (),
        item: &NlaBuffer<'_>,
        looks: &mut Looks,
    ) -> Result<(), DecodeError> {
        put_flat(place, alloc, item)
    }

    #[tactic(auto, unfolding(crate::specs::Vxlan::attributes))]
    fn form(_context: (), number: u16) -> (At, Form) {
        rows!(form_rows(number; 10 => Form::Exactly(4),))
    }

    fn try_clone(&self, alloc: Global) -> Result<Self, AllocError> {
        rows!(clone_rows(self, alloc; InfoVxlan::PortRange(x) => Ok(InfoVxlan::PortRange(*x)),))
    }
}
