//! The data of a tunnel of GRE over IP version 6: `IFLA_GRE_*` of `linux/if_tunnel.h`.

ghost use Rattle.std.specs.Prelude.{◌≢◌, IfOk, IfErr};
ghost use Rattle.{npr_base.specs.{declared.refusal.DecodeError.TheVariants.{OutOfMemory}, RowReading.{reads_at, wrong_at}, Tables.{shape_by, shape-by}}, npr_link_tunnels.specs.Gre6.{table, attributes, family}};

use crate::gre_encap_flags::GreEncapFlags;
use crate::gre_encap_type::GreEncapType;
use crate::gre_io_flags::GreIOFlags;
use crate::ip6_tunnel_flags::Ip6TunnelFlags;
use bitflags::Flags;
use npr_base::{
    At, Attribute, DecodeError, DefaultNla, EmitError, Form, Ipv6Addr, Looks, Nla, NlaBuffer,
    Place, Rowed,
};
use std::alloc::{AllocError, Global};

/// The data of a tunnel of GRE over IP version 6.
#[derive(Debug, Drop, PartialEq, Eq)]
pub enum InfoGre6 {
    /// `IFLA_GRE_LINK`: the index of the link that it goes by.
    Link(u32),
    /// `IFLA_GRE_IFLAGS`: what stands in the headers of what comes in.
    IFlags(GreIOFlags),
    /// `IFLA_GRE_OFLAGS`: what stands in the headers of what goes out.
    OFlags(GreIOFlags),
    /// `IFLA_GRE_IKEY`: the key of what comes in.
    IKey(u32),
    /// `IFLA_GRE_OKEY`: the key of what goes out.
    OKey(u32),
    /// `IFLA_GRE_LOCAL`: the address of this end.
    Local(Ipv6Addr),
    /// `IFLA_GRE_REMOTE`: the address of the other end.
    Remote(Ipv6Addr),
    /// `IFLA_GRE_TTL`: the hop limit of what it sends, or 0 for that of the packet inside.
    Ttl(u8),
    /// `IFLA_GRE_ENCAP_LIMIT`: how many more tunnels what it sends may go into.
    EncapLimit(u8),
    /// `IFLA_GRE_FLOWINFO`: the traffic class and the flow label of what it sends.
    FlowLabel(u32),
    /// `IFLA_GRE_FLAGS`: the flags.
    Flags(Ip6TunnelFlags),
    /// `IFLA_GRE_ENCAP_TYPE`: what stands between IP and GRE.
    EncapType(GreEncapType),
    /// `IFLA_GRE_ENCAP_FLAGS`: which checksums that has.
    EncapFlags(GreEncapFlags),
    /// `IFLA_GRE_ENCAP_SPORT`: the port of UDP that it sends from, or 0 for one by the flow.
    SourcePort(u16),
    /// `IFLA_GRE_ENCAP_DPORT`: the port of UDP that it sends to.
    DestinationPort(u16),
    /// `IFLA_GRE_COLLECT_METADATA`: each packet says the key and the other end itself.
    CollectMetadata,
    /// `IFLA_GRE_FWMARK`: the mark of what goes out.
    FwMask(u32),
    /// `IFLA_GRE_ERSPAN_INDEX`: the index of the port that is mirrored, of ERSPAN version 1.
    ErspanIndex(u32),
    /// `IFLA_GRE_ERSPAN_VER`: the version of ERSPAN.
    ErspanVer(u8),
    /// `IFLA_GRE_ERSPAN_DIR`: whether what comes in is mirrored, 0, or what goes out, 1, of ERSPAN version 2.
    ErspanDir(u8),
    /// `IFLA_GRE_ERSPAN_HWID`: the id of the device, of ERSPAN version 2.
    ErspanHwid(u16),
    /// An attribute of another number, as it stands.
    Other(DefaultNla),
}

/// The rows of the table.
macro_rules! rows {
    ($body:ident ($($given:tt)*)) => {
        npr_base::$body!(($($given)*) InfoGre6 of InfoGre6 {
            1 Link(le32);
            2 IFlags(GreIOFlags flags be16);
            3 OFlags(GreIOFlags flags be16);
            4 IKey(be32);
            5 OKey(be32);
            6 Local(octets16);
            7 Remote(octets16);
            8 Ttl(byte);
            11 EncapLimit(byte);
            12 FlowLabel(be32);
            13 Flags(Ip6TunnelFlags flags le32);
            14 EncapType(GreEncapType as le16);
            15 EncapFlags(GreEncapFlags flags le16);
            16 SourcePort(be16);
            17 DestinationPort(be16);
            18 CollectMetadata;
            20 FwMask(le32);
            21 ErspanIndex(le32);
            22 ErspanVer(byte);
            23 ErspanDir(byte);
            24 ErspanHwid(le16);
        })
    };
}

impl Nla for InfoGre6 {
    ghost shape = { shape_by table };

    fn kind(&self) -> u16 {
        rows!(kind_rows(self))
    }

    fn is_nested(&self) -> bool {
        false
    }

    fn check_value(&self) -> Result<usize, EmitError> {
        Ok(rows!(len_rows(self)))
    }

    fn write_value(&self, out: &mut [u8]) -> usize {
        rows!(write_rows(self, out))
    }
}

impl Rowed for InfoGre6 {
    ghost reads = { reads_at table };

    ghost wrong = { wrong_at table };
}

/// Puts an attribute; none has others inside.
///
/// # Errors
/// `OutOfMemory` where memory is refused, and else what is wrong with the value.
#[tactic(auto, unfolding(crate::specs::Gre6::attributes))]
fn put_flat<P: Place<InfoGre6>>(
    place: &mut P,
    alloc: Global,
    item: &NlaBuffer<'_>,
) -> Result<(), DecodeError>
    requires { P.ready place.old }
    ensures ok { IfOk result (λ _. (a : InfoGre6) × P.puts place.old a place.new × attributes.Reads item.now (family.meaning a)) }
    ensures refused { IfErr result (λ e. e ≢ OutOfMemory → attributes.Faulty item.now e) }
{
    rows!(flat_rows(place, alloc, item))
}

impl Attribute for InfoGre6 {
    type Context = ();

    ghost family = { family };

    ghost shape_is = { shape-by table };

    #[tactic(auto, using(crate::specs::Gre6::no_looks))]
    fn read_into<P: Place<Self>>(
        place: &mut P,
        alloc: Global,
        _context: (),
        item: &NlaBuffer<'_>,
        looks: &mut Looks,
    ) -> Result<(), DecodeError> {
        put_flat(place, alloc, item)
    }

    #[tactic(auto, unfolding(crate::specs::Gre6::attributes))]
    fn form(_context: (), number: u16) -> (At, Form) {
        rows!(form_rows(number))
    }

    fn try_clone(&self, alloc: Global) -> Result<Self, AllocError> {
        rows!(clone_rows(self, alloc))
    }
}
