//! The data of a tunnel of Geneve: `IFLA_GENEVE_*` of `linux/if_link.h`.

ghost use Rattle.std.specs.Prelude.{◌≢◌, IfOk, IfErr};
ghost use Rattle.{npr_base.specs.{declared.refusal.DecodeError.TheVariants.{OutOfMemory}, RowReading.{reads_at, wrong_at}, Tables.{shape_by, shape-by}}, npr_link_tunnels.specs.Geneve.{table, attributes, family}};

use crate::geneve_df::GeneveDf;
use crate::ports::{read_ports, write_ports};
use npr_base::{
    At, Attribute, AttributeSet, DecodeError, DefaultNla, EmitError, Form, Ipv4Addr, Ipv6Addr,
    Looks, Nla, NlaBuffer, Place, Rowed, put_read,
};
use std::alloc::{AllocError, Global};

/// The data of a tunnel of Geneve.
#[derive(Debug, Drop, PartialEq, Eq)]
pub enum InfoGeneve {
    /// `IFLA_GENEVE_ID`: the network.
    Id(u32),
    /// `IFLA_GENEVE_REMOTE`: the address of the other end, of IP version 4.
    Remote(Ipv4Addr),
    /// `IFLA_GENEVE_TTL`: the time to live of what it sends.
    Ttl(u8),
    /// `IFLA_GENEVE_TOS`: the type of service of what it sends, or 1 for that of the packet inside.
    Tos(u8),
    /// `IFLA_GENEVE_PORT`: the port of UDP that it sends to.
    Port(u16),
    /// `IFLA_GENEVE_COLLECT_METADATA`: each packet says the network and the other end itself.
    CollectMetadata,
    /// `IFLA_GENEVE_REMOTE6`: the address of the other end, of IP version 6.
    Remote6(Ipv6Addr),
    /// `IFLA_GENEVE_UDP_CSUM`: whether checksums are sent over IP version 4.
    UdpCsum(bool),
    /// `IFLA_GENEVE_UDP_ZERO_CSUM6_TX`: whether none are sent over IP version 6.
    UdpZeroCsum6Tx(bool),
    /// `IFLA_GENEVE_UDP_ZERO_CSUM6_RX`: whether packets without one are taken over IP version 6.
    UdpZeroCsum6Rx(bool),
    /// `IFLA_GENEVE_LABEL`: the flow label of what it sends over IP version 6.
    Label(u32),
    /// `IFLA_GENEVE_TTL_INHERIT`: whether the time to live is that of the packet inside.
    TtlInherit(bool),
    /// `IFLA_GENEVE_DF`: the don't-fragment bit of what it sends.
    Df(GeneveDf),
    /// `IFLA_GENEVE_INNER_PROTO_INHERIT`: packets of IP go without a header of Ethernet.
    InnerProtoInherit,
    /// `IFLA_GENEVE_PORT_RANGE`: the first and the last port of UDP that it sends from.
    PortRange((u16, u16)),
    /// `IFLA_GENEVE_GRO_HINT`: a hint for those that join packets goes along.
    GroHint,
    /// `IFLA_GENEVE_LOCAL`: the address of this end, of IP version 4.
    Local(Ipv4Addr),
    /// `IFLA_GENEVE_LOCAL6`: the address of this end, of IP version 6.
    Local6(Ipv6Addr),
    /// An attribute of another number, as it stands.
    Other(DefaultNla),
}

/// The rows of the table.
macro_rules! rows {
    ($body:ident ($($given:tt)*)) => {
        npr_base::$body!(($($given)*) InfoGeneve of InfoGeneve {
            1 Id(le32);
            2 Remote(octets4);
            3 Ttl(byte);
            4 Tos(byte);
            5 Port(be16);
            6 CollectMetadata;
            7 Remote6(octets16);
            8 UdpCsum(boolean);
            9 UdpZeroCsum6Tx(boolean);
            10 UdpZeroCsum6Rx(boolean);
            11 Label(be32);
            12 TtlInherit(boolean);
            13 Df(GeneveDf as byte);
            14 InnerProtoInherit;
            16 GroHint;
            17 Local(octets4);
            18 Local6(octets16);
        })
    };
}

impl Nla for InfoGeneve {
    ghost shape = { shape_by table };

    fn kind(&self) -> u16 {
        rows!(kind_rows(self; InfoGeneve::PortRange(_) => 15,))
    }

    fn is_nested(&self) -> bool {
        false
    }

    fn check_value(&self) -> Result<usize, EmitError> {
        Ok(rows!(len_rows(self; InfoGeneve::PortRange(_) => 4,)))
    }

    fn write_value(&self, out: &mut [u8]) -> usize {
        rows!(write_rows(self, out; InfoGeneve::PortRange(x) => write_ports(*x, out),))
    }
}

impl Rowed for InfoGeneve {
    ghost reads = { reads_at table };

    ghost wrong = { wrong_at table };
}

/// Puts an attribute; none has others inside.
///
/// # Errors
/// `OutOfMemory` where memory is refused, and else what is wrong with the value.
#[tactic(auto, unfolding(crate::specs::Geneve::attributes))]
fn put_flat<P: Place<InfoGeneve>>(
    place: &mut P,
    alloc: Global,
    item: &NlaBuffer<'_>,
) -> Result<(), DecodeError>
    requires { P.ready place.old }
    ensures ok { IfOk result (λ _. (a : InfoGeneve) × P.puts place.old a place.new × attributes.Reads item.now (family.meaning a)) }
    ensures refused { IfErr result (λ e. e ≢ OutOfMemory → attributes.Faulty item.now e) }
{
    rows!(flat_rows(place, alloc, item; 15 => put_read(
        place,
        read_ports(item.value(), AttributeSet::InfoGeneve.at(15)),
        InfoGeneve::PortRange,
    ),))
}

impl Attribute for InfoGeneve {
    type Context = ();

    ghost family = { family };

    ghost shape_is = { shape-by table };

    #[tactic(auto, using(crate::specs::Geneve::no_looks))]
    fn read_into<P: Place<Self>>(
        place: &mut P,
        alloc: Global,
        _context: (),
        item: &NlaBuffer<'_>,
        looks: &mut Looks,
    ) -> Result<(), DecodeError> {
        put_flat(place, alloc, item)
    }

    #[tactic(auto, unfolding(crate::specs::Geneve::attributes))]
    fn form(_context: (), number: u16) -> (At, Form) {
        rows!(form_rows(number; 15 => Form::Exactly(4),))
    }

    fn try_clone(&self, alloc: Global) -> Result<Self, AllocError> {
        rows!(clone_rows(self, alloc; InfoGeneve::PortRange(x) => Ok(InfoGeneve::PortRange(*x)),))
    }
}
