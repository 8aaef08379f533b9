//! The attributes of a neighbour message: `NDA_*` of `linux/neighbour.h`.

ghost use Rattle.{npr_base.specs.Tables.{shape_by, shape-by}, npr_neighbour.specs.{Attribute.{table, family}, NeighbourAddress.{any}}};

use crate::address::NeighbourAddress;
use crate::cache_info::NeighbourCacheInfo;
use crate::fdb::NeighbourFdbAttribute;
use crate::flags::{NeighbourExtFlags, NeighbourFlags};
use crate::state::NeighbourState;
use bitflags::Flags;
use npr_base::{
    AddressFamily, At, Attribute, AttributeSet, DecodeError, DefaultNla, EmitError, Form, Looks,
    NLA_F_NESTED, Nla, NlaBuffer, Place, put_read,
};
use npr_route_values::RouteProtocol;
use std::alloc::{AllocError, Global};

/// An attribute of a neighbour message. What an address means rests on the family of the message's
/// header.
#[derive(Debug, Drop, PartialEq, Eq)]
pub enum NeighbourAttribute {
    /// `NDA_DST`: the address.
    Destination(NeighbourAddress),
    /// `NDA_LLADDR`: the address on the link, as it stands.
    LinkLocalAddress(Vec<u8>),
    /// `NDA_CACHEINFO`: when it was confirmed, used and changed.
    CacheInfo(NeighbourCacheInfo),
    /// `NDA_PROBES`: how often it was asked.
    Probes(u32),
    /// `NDA_VLAN`: the VLAN.
    Vlan(u16),
    /// `NDA_PORT`: the port of the tunnel.
    Port(u16),
    /// `NDA_VNI`: the network of the tunnel.
    Vni(u32),
    /// `NDA_IFINDEX`: the interface that the tunnel goes by.
    IfIndex(u32),
    /// `NDA_MASTER`: the controller of the interface.
    Controller(u32),
    /// `NDA_LINK_NETNSID`: the network namespace of the link.
    LinkNetNsId(u32),
    /// `NDA_SRC_VNI`: the network that a packet comes from.
    SourceVni(u32),
    /// `NDA_PROTOCOL`: who made it.
    Protocol(RouteProtocol),
    /// `NDA_NH_ID`: the id of a next hop object.
    NhId(u32),
    /// `NDA_FLAGS_EXT`: the flags for which the header has no room.
    ExtFlags(NeighbourExtFlags),
    /// `NDA_FDB_EXT_ATTRS`: what an entry of a bridge is besides. Written with NESTED.
    FdbExtAttributes(Vec<NeighbourFdbAttribute>),
    /// `NDA_NDM_STATE_MASK`: of which states a dump is wanted.
    StateMask(NeighbourState),
    /// `NDA_NDM_FLAGS_MASK`: of which flags.
    FlagsMask(NeighbourFlags),
    /// An attribute of another number, as it stands.
    Other(DefaultNla),
}

/// The number of an address, `NDA_DST`.
const NDA_DST: u16 = 1;

/// The rows of the table that stand for themselves. Number 1 stands beside them in each match.
macro_rules! rows {
    ($body:ident ($($given:tt)*)) => {
        npr_base::$body!(($($given)*) NeighbourAttribute of Neighbour {
            2 LinkLocalAddress(raw);
            3 CacheInfo(NeighbourCacheInfo leading 16);
            4 Probes(le32);
            5 Vlan(le16);
            6 Port(be16);
            7 Vni(le32);
            8 IfIndex(le32);
            9 Controller(le32);
            10 LinkNetNsId(le32);
            11 SourceVni(le32);
            12 Protocol(RouteProtocol as byte);
            13 NhId(le32);
            14 FdbExtAttributes(list NeighbourFdb) as NLA_F_NESTED + 14;
            15 ExtFlags(NeighbourExtFlags flags le32);
            16 StateMask(NeighbourState flags le16);
            17 FlagsMask(NeighbourFlags flags byte);
        })
    };
}

impl Nla for NeighbourAttribute {
    ghost shape = { shape_by (table any) };

    fn kind(&self) -> u16 {
        rows!(kind_rows(self; NeighbourAttribute::Destination(_) => NDA_DST,))
    }

    fn is_nested(&self) -> bool {
        false
    }

    fn check_value(&self) -> Result<usize, EmitError> {
        Ok(rows!(len_rows(self; NeighbourAttribute::Destination(a) => a.len(),)))
    }

    fn write_value(&self, out: &mut [u8]) -> usize {
        rows!(write_rows(self, out; NeighbourAttribute::Destination(a) => a.write(out),))
    }
}

impl Attribute for NeighbourAttribute {
    type Context = AddressFamily;

    ghost family = { family };

    ghost shape_is = { shape-by (table any) };

    fn read_into<P: Place<Self>>(
        place: &mut P,
        alloc: Global,
        family: AddressFamily,
        item: &NlaBuffer<'_>,
        looks: &mut Looks,
    ) -> Result<(), DecodeError> {
        rows!(put_rows(place, alloc, item, looks;
            NDA_DST => put_read(
                place,
                NeighbourAddress::read(alloc, family, item.value(), AttributeSet::Neighbour.at(NDA_DST)),
                NeighbourAttribute::Destination,
            ),
        ))
    }

    fn form(family: AddressFamily, number: u16) -> (At, Form) {
        rows!(form_rows(number; NDA_DST => NeighbourAddress::form(family),))
    }

    fn try_clone(&self, alloc: Global) -> Result<Self, AllocError> {
        rows!(clone_rows(self, alloc;
            NeighbourAttribute::Destination(a) => a.try_clone(alloc).map(NeighbourAttribute::Destination),
        ))
    }
}
