//! What is said of an action over connections: `TCA_CT_*` of `linux/tc_act/tc_ct.h`.

ghost use Rattle.{npr_base.specs.Tables.{shape_by, shape-by}, npr_tc_actions.specs.CtOption.{family, table}};

use crate::ct_flags::TcCtFlags;
use crate::generic::TcActionGeneric;
use crate::tcf::Tcf;
use bitflags::Flags;
use npr_base::{
    At, Attribute, DecodeError, DefaultNla, EmitError, Form, Ipv4Addr, Ipv6Addr, Looks, Nla,
    NlaBuffer, Place,
};
use std::alloc::{AllocError, Global};

/// An action over connections, by its name.
pub struct TcActionCt {}

impl TcActionCt {
    /// The name of its kind.
    pub const KIND: &'static str = "ct";
}

/// What is said of an action over connections: `TCA_CT_*` of `linux/tc_act/tc_ct.h`.
#[derive(Debug, Drop, PartialEq, Eq)]
pub enum TcActionCtOption {
    /// `TCA_CT_PARMS`: what every action has.
    Parms(TcActionGeneric),
    /// `TCA_CT_TM`: when it was made and used.
    Tm(Tcf),
    /// `TCA_CT_ACTION`: what it does.
    Action(TcCtFlags),
    /// `TCA_CT_ZONE`: the zone.
    Zone(u16),
    /// `TCA_CT_MARK`: the mark of the connection.
    Mark(u32),
    /// `TCA_CT_MARK_MASK`: its mask.
    MarkMask(u32),
    /// `TCA_CT_LABELS`: the labels of the connection, 16 bytes.
    Labels(Vec<u8>),
    /// `TCA_CT_LABELS_MASK`: their mask.
    LabelsMask(Vec<u8>),
    /// `TCA_CT_NAT_IPV4_MIN`: the first address that it may get.
    NatIpv4Min(Ipv4Addr),
    /// `TCA_CT_NAT_IPV4_MAX`: the last.
    NatIpv4Max(Ipv4Addr),
    /// `TCA_CT_NAT_IPV6_MIN`: the first, of version 6.
    NatIpv6Min(Ipv6Addr),
    /// `TCA_CT_NAT_IPV6_MAX`: the last, of version 6.
    NatIpv6Max(Ipv6Addr),
    /// `TCA_CT_NAT_PORT_MIN`: the first port that it may get.
    NatPortMin(u16),
    /// `TCA_CT_NAT_PORT_MAX`: the last.
    NatPortMax(u16),
    /// `TCA_CT_HELPER_NAME`: the helper of the connection, by its name.
    HelperName(String),
    /// `TCA_CT_HELPER_FAMILY`: the family of addresses that the helper is for.
    HelperFamily(u8),
    /// `TCA_CT_HELPER_PROTO`: the protocol that it is for.
    HelperProto(u8),
    /// An attribute of another number, as it stands.
    Other(DefaultNla),
}

/// The rows of the table.
macro_rules! rows {
    ($body:ident ($($given:tt)*)) => {
        npr_base::$body!(($($given)*) TcActionCtOption of TcActionCt {
            1 Parms(TcActionGeneric leading 20);
            2 Tm(Tcf leading 32);
            3 Action(TcCtFlags flags le16);
            4 Zone(le16);
            5 Mark(le32);
            6 MarkMask(le32);
            7 Labels(raw);
            8 LabelsMask(raw);
            9 NatIpv4Min(octets4);
            10 NatIpv4Max(octets4);
            11 NatIpv6Min(octets16);
            12 NatIpv6Max(octets16);
            13 NatPortMin(be16);
            14 NatPortMax(be16);
            16 HelperName(name);
            17 HelperFamily(byte);
            18 HelperProto(byte);
        })
    };
}

impl Nla for TcActionCtOption {
    ghost shape = { shape_by table };

    fn kind(&self) -> u16 {
        rows!(kind_rows(self))
    }

    fn is_nested(&self) -> bool {
        false
    }

    fn check_value(&self) -> Result<usize, EmitError> {
        Ok(rows!(len_rows(self)))
    }

    fn write_value(&self, out: &mut [u8]) -> usize {
        rows!(write_rows(self, out))
    }
}

impl Attribute for TcActionCtOption {
    type Context = ();

    ghost family = { family };

    ghost shape_is = { shape-by table };

    #[tactic(auto, unfolding(crate::specs::CtOption::attributes))]
    fn read_into<P: Place<Self>>(
        place: &mut P,
        alloc: Global,
        _context: (),
        item: &NlaBuffer<'_>,
        looks: &mut Looks,
    ) -> Result<(), DecodeError> {
        rows!(put_rows(place, alloc, item, looks))
    }

    #[tactic(auto, unfolding(crate::specs::CtOption::attributes))]
    fn form(_context: (), number: u16) -> (At, Form) {
        rows!(form_rows(number))
    }

    fn try_clone(&self, alloc: Global) -> Result<Self, AllocError> {
        rows!(clone_rows(self, alloc))
    }
}
