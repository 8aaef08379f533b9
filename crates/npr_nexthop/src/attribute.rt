//! The attributes of a next hop message: `NHA_*` of `linux/nexthop.h`.

ghost use Rattle.{npr_base.specs.Tables.{shape_by, shape-by}, npr_nexthop.specs.Attribute.{family, plain}};

use crate::group::NextHopGroupEntry;
use crate::group_stats::NextHopGroupStats;
use crate::group_type::NextHopGroupType;
use crate::op_flags::NextHopOpFlags;
use crate::res_bucket::NextHopResBucket;
use crate::res_group::NextHopResGroup;
use bitflags::Flags;
use npr_base::{
    AddressFamily, At, Attribute, AttributeSet, DecodeError, DefaultNla, EmitError, Form, Looks,
    NLA_F_NESTED, Nla, NlaBuffer, Place, blocks_len, check_list, clone_list, parse_list, put_read,
    read_blocks, write_blocks, write_list,
};
use npr_encapsulation::{RouteLwEnCapType, RouteLwTunnelEncap};
use npr_route_values::RouteAddress;
use std::alloc::{AllocError, Global};

/// The number of the members of a group, `NHA_GROUP`.
const NHA_GROUP: u16 = 2;

/// The number of the gateway, `NHA_GATEWAY`.
const NHA_GATEWAY: u16 = 6;

/// The number of the type of an encapsulation, `NHA_ENCAP_TYPE`.
pub(crate) const NHA_ENCAP_TYPE: u16 = 7;

/// The number of an encapsulation, `NHA_ENCAP`.
const NHA_ENCAP: u16 = 8;

/// What the meaning of an attribute rests on besides its bytes: the family of the message's header,
/// and the type that governs its encapsulation.
pub(crate) type Context = (AddressFamily, RouteLwEnCapType);

/// An attribute of a next hop message. What a gateway and an encapsulation mean rests on a context:
/// the family of the message's header, and the type of its encapsulation.
#[derive(Debug, Drop, PartialEq, Eq)]
pub enum NextHopAttribute {
    /// `NHA_GATEWAY`: the gateway.
    Gateway(RouteAddress),
    /// `NHA_ENCAP`: the encapsulation, by the type that governs it. It is written with NESTED, which
    /// kernels ask for in a request.
    Encap(Vec<RouteLwTunnelEncap>),
    /// `NHA_ENCAP_TYPE`: the type of the encapsulation.
    EncapType(RouteLwEnCapType),
    /// `NHA_ID`: the id of the next hop, or of the group.
    Id(u32),
    /// `NHA_GROUP`: the members of a group.
    Group(Vec<NextHopGroupEntry>),
    /// `NHA_GROUP_TYPE`: how a group takes turns.
    GroupType(NextHopGroupType),
    /// `NHA_BLACKHOLE`: packets are dropped.
    Blackhole,
    /// `NHA_OIF`: the index of the interface that a packet goes out by.
    Oif(u32),
    /// `NHA_GROUPS`: groups alone are asked for.
    Groups,
    /// `NHA_MASTER`: next hops over ports of this controller are asked for, by its index.
    Controller(u32),
    /// `NHA_FDB`: it is for bridges, as the other end of a VXLAN.
    Fdb,
    /// `NHA_RES_GROUP`: what a resilient group is made with. It is written with NESTED.
    ResGroup(Vec<NextHopResGroup>),
    /// `NHA_RES_BUCKET`: a bucket of a resilient group. It is written with NESTED.
    ResBucket(Vec<NextHopResBucket>),
    /// `NHA_OP_FLAGS`: what is asked, or answered.
    OpFlags(NextHopOpFlags),
    /// `NHA_GROUP_STATS`: what went by the members of a group. It is written with NESTED.
    GroupStats(Vec<NextHopGroupStats>),
    /// `NHA_HW_STATS_ENABLE`: whether devices are to count what they forward; 1 or 0.
    HwStatsEnable(u32),
    /// `NHA_HW_STATS_USED`: whether they do; 1 or 0.
    HwStatsUsed(u32),
    /// An attribute of another number, as it stands.
    Other(DefaultNla),
}

/// The rows of the table that stand for themselves. Numbers 2, 6 and 8 stand beside them in each match.
macro_rules! rows {
    ($body:ident ($($given:tt)*)) => {
        npr_base::$body!(($($given)*) NextHopAttribute of NextHop {
            1 Id(le32);
            3 GroupType(NextHopGroupType as le16);
            4 Blackhole;
            5 Oif(le32);
            7 EncapType(RouteLwEnCapType as le16);
            9 Groups;
            10 Controller(le32);
            11 Fdb;
            12 ResGroup(list NextHopResGroup) as NLA_F_NESTED + 12;
            13 ResBucket(list NextHopResBucket) as NLA_F_NESTED + 13;
            14 OpFlags(NextHopOpFlags flags le32);
            15 GroupStats(list NextHopGroupStats) as NLA_F_NESTED + 15;
            16 HwStatsEnable(le32);
            17 HwStatsUsed(le32);
        })
    };
}

impl Nla for NextHopAttribute {
    ghost shape = { shape_by plain };

    fn kind(&self) -> u16 {
        rows!(kind_rows(self;
            NextHopAttribute::Gateway(_) => NHA_GATEWAY,
            NextHopAttribute::Encap(_) => NLA_F_NESTED + NHA_ENCAP,
            NextHopAttribute::Group(_) => NHA_GROUP,
        ))
    }

    fn is_nested(&self) -> bool {
        false
    }

    fn check_value(&self) -> Result<usize, EmitError> {
        Ok(rows!(len_rows(self;
            NextHopAttribute::Gateway(x) => x.len(),
            NextHopAttribute::Encap(xs) => check_list(xs.as_slice())?,
            NextHopAttribute::Group(xs) => blocks_len(xs.as_slice()),
        )))
    }

    fn write_value(&self, out: &mut [u8]) -> usize {
        rows!(write_rows(self, out;
            NextHopAttribute::Gateway(x) => x.write(out),
            NextHopAttribute::Encap(xs) => write_list(xs.as_slice(), out),
            NextHopAttribute::Group(xs) => write_blocks(xs.as_slice(), out),
        ))
    }
}

impl Attribute for NextHopAttribute {
    type Context = Context;

    ghost family = { family };

    ghost shape_is = { shape-by plain };

    fn read_into<P: Place<Self>>(
        place: &mut P,
        alloc: Global,
        context: Context,
        item: &NlaBuffer<'_>,
        looks: &mut Looks,
    ) -> Result<(), DecodeError> {
        let (family, encap_type) = context;
        rows!(put_rows(place, alloc, item, looks;
            NHA_GATEWAY => put_read(
                place,
                RouteAddress::read(alloc, family, item.value(), AttributeSet::NextHop.at(NHA_GATEWAY)),
                NextHopAttribute::Gateway,
            ),
            NHA_ENCAP => put_read(
                place,
                parse_list(alloc, encap_type, item.value(), looks),
                NextHopAttribute::Encap,
            ),
            NHA_GROUP => {
                place.put(NextHopAttribute::Group(read_blocks(alloc, item.value())?));
                Ok(())
            }
        ))
    }

    fn form(context: Context, number: u16) -> (At, Form) {
        rows!(form_rows(number;
            NHA_GATEWAY => RouteAddress::form(context.0),
            NHA_ENCAP => Form::List(AttributeSet::Encap, 0),
            NHA_GROUP => Form::Raw,
        ))
    }

    fn try_clone(&self, alloc: Global) -> Result<Self, AllocError> {
        rows!(clone_rows(self, alloc;
            NextHopAttribute::Gateway(x) => x.try_clone(alloc).map(NextHopAttribute::Gateway),
            NextHopAttribute::Encap(xs) => clone_list(alloc, xs.as_slice()).map(NextHopAttribute::Encap),
            NextHopAttribute::Group(xs) => Vec::from_slice(alloc, xs.as_slice()).map(NextHopAttribute::Group),
        ))
    }
}
