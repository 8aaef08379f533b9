//! The attributes of a rule message: `FRA_*` of `linux/fib_rules.h`.

ghost use Rattle.{
  npr_base.specs.Tables.{shape_by, shape-by},
  npr_rule.specs.Attribute.{table, family},
};

use crate::port_range::RulePortRange;
use crate::uid_range::RuleUidRange;
use npr_base::{
    At, Attribute, DecodeError, DefaultNla, EmitError, Form, IpAddr, Looks, Nla, NlaBuffer, Place,
};
use npr_route_values::{IpProtocol, RouteProtocol, RouteRealm, check_protocol, protocol_byte};
use std::alloc::{AllocError, Global};

/// An attribute of a rule message.
#[derive(Debug, Drop, PartialEq, Eq)]
pub enum RuleAttribute {
    /// `FRA_DST`: the destination, a prefix.
    Destination(IpAddr),
    /// `FRA_SRC`: the source, a prefix.
    Source(IpAddr),
    /// `FRA_IIFNAME`: the interface that a packet comes in by.
    Iifname(String),
    /// `FRA_GOTO`: the preference of the rule to go on at.
    Goto(u32),
    /// `FRA_PRIORITY`: the preference of this rule.
    Priority(u32),
    /// `FRA_FWMARK`: the mark of the packet.
    FwMark(u32),
    /// `FRA_FLOW`: the realms.
    Realm(RouteRealm),
    /// `FRA_TUN_ID`: the id of the tunnel.
    TunId(u64),
    /// `FRA_SUPPRESS_IFGROUP`: a route by an interface of this group does not count.
    SuppressIfGroup(u32),
    /// `FRA_SUPPRESS_PREFIXLEN`: a route of a prefix of so many bits or fewer does not count.
    SuppressPrefixLen(u32),
    /// `FRA_TABLE`: the table.
    Table(u32),
    /// `FRA_FWMASK`: the bits of the mark that count.
    FwMask(u32),
    /// `FRA_OIFNAME`: the interface that a packet of this host is bound to.
    Oifname(String),
    /// `FRA_L3MDEV`: look up in the table of the master device. True for a byte above 0.
    L3MDev(bool),
    /// `FRA_UID_RANGE`: the users.
    UidRange(RuleUidRange),
    /// `FRA_PROTOCOL`: who made the rule.
    Protocol(RouteProtocol),
    /// `FRA_IP_PROTO`: the protocol over IP.
    IpProtocol(IpProtocol),
    /// `FRA_SPORT_RANGE`: the ports of the source.
    SourcePortRange(RulePortRange),
    /// `FRA_DPORT_RANGE`: the ports of the destination.
    DestinationPortRange(RulePortRange),
    /// `FRA_DSCP`: the differentiated services code point, six bits.
    Dscp(u8),
    /// `FRA_FLOWLABEL`: the flow label of IP version 6, 20 bits.
    FlowLabel(u32),
    /// `FRA_FLOWLABEL_MASK`: the bits of the flow label that count.
    FlowLabelMask(u32),
    /// `FRA_SPORT_MASK`: the bits of the source's port that count.
    SourcePortMask(u16),
    /// `FRA_DPORT_MASK`: the bits of the destination's port that count.
    DestinationPortMask(u16),
    /// `FRA_DSCP_MASK`: the bits of the code point that count.
    DscpMask(u8),
    /// An attribute of another number, as it stands.
    Other(DefaultNla),
}

/// The rows of the table.
macro_rules! rows {
    ($body:ident ($($given:tt)*)) => {
        npr_base::$body!(($($given)*) RuleAttribute of Rule {
            1 Destination(ip);
            2 Source(ip);
            3 Iifname(name);
            4 Goto(le32);
            6 Priority(le32);
            10 FwMark(le32);
            11 Realm(RouteRealm as le32);
            12 TunId(be64);
            13 SuppressIfGroup(le32);
            14 SuppressPrefixLen(le32);
            15 Table(le32);
            16 FwMask(le32);
            17 Oifname(name);
            19 L3MDev(boolean);
            20 UidRange(RuleUidRange exactly 8);
            21 Protocol(RouteProtocol as byte);
            22 IpProtocol(IpProtocol as byte by protocol_byte);
            23 SourcePortRange(RulePortRange exactly 4);
            24 DestinationPortRange(RulePortRange exactly 4);
            25 Dscp(byte);
            26 FlowLabel(be32);
            27 FlowLabelMask(be32);
            28 SourcePortMask(le16);
            29 DestinationPortMask(le16);
            30 DscpMask(byte);
        })
    };
}

impl Nla for RuleAttribute {
    ghost shape = { shape_by table };

    fn kind(&self) -> u16 {
        rows!(kind_rows(self))
    }

    fn is_nested(&self) -> bool {
        false
    }

    fn check_value(&self) -> Result<usize, EmitError> {
        match self {
            RuleAttribute::IpProtocol(protocol) => check_protocol(*protocol),
            _ => Ok(rows!(len_rows(self))),
        }
    }

    fn write_value(&self, out: &mut [u8]) -> usize {
        rows!(write_rows(self, out))
    }
}

impl Attribute for RuleAttribute {
    type Context = ();

    ghost family = { family };

    ghost shape_is = { shape-by table };

    fn read_into<P: Place<Self>>(
        place: &mut P,
        alloc: Global,
        _context: (),
        item: &NlaBuffer<'_>,
        looks: &mut Looks,
    ) -> Result<(), DecodeError> {
        rows!(put_rows(place, alloc, item, looks))
    }

    fn form(_context: (), number: u16) -> (At, Form) {
        rows!(form_rows(number))
    }

    fn try_clone(&self, alloc: Global) -> Result<Self, AllocError> {
        rows!(clone_rows(self, alloc))
    }
}
