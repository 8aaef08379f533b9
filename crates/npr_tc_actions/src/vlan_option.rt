//! What is said of an action over VLANs: `TCA_VLAN_*` of `linux/tc_act/tc_vlan.h`.

ghost use Rattle.std.specs.Prelude.{refl};
ghost use Rattle.{npr_base.specs.Family.{shaped}, npr_tc_actions.specs.VlanOption.{family}};

use crate::tcf::Tcf;
use crate::vlan::TcVlan;
use npr_base::{
    At, Attribute, DecodeError, DefaultNla, EmitError, Form, Looks, Nla, NlaBuffer, Place,
};
use std::alloc::{AllocError, Global};

/// An action over VLANs, by its name.
pub struct TcActionVlan {}

impl TcActionVlan {
    /// The name of its kind.
    pub const KIND: &'static str = "vlan";
}

/// What is said of an action over VLANs: `TCA_VLAN_*` of `linux/tc_act/tc_vlan.h`.
#[derive(Debug, Drop, PartialEq, Eq)]
pub enum TcActionVlanOption {
    /// `TCA_VLAN_TM`: when it was made and used.
    Tm(Tcf),
    /// `TCA_VLAN_PARMS`: what it does.
    Parms(TcVlan),
    /// `TCA_VLAN_PUSH_VLAN_ID`: the VLAN.
    PushVlanId(u16),
    /// `TCA_VLAN_PUSH_VLAN_PROTOCOL`: its protocol: `ETH_P_*`.
    PushVlanProtocol(u16),
    /// `TCA_VLAN_PUSH_VLAN_PRIORITY`: its priority.
    PushVlanPriority(u8),
    /// `TCA_VLAN_PUSH_ETH_DST`: the destination in the header that is added.
    PushEthDst([u8; 6]),
    /// `TCA_VLAN_PUSH_ETH_SRC`: the source in it.
    PushEthSrc([u8; 6]),
    /// An attribute of another number, as it stands.
    Other(DefaultNla),
}

/// The rows of the table.
macro_rules! rows {
    ($body:ident ($($given:tt)*)) => {
        npr_base::$body!(($($given)*) TcActionVlanOption of TcActionVlan {
            1 Tm(Tcf leading 32);
            2 Parms(TcVlan leading 24);
            3 PushVlanId(le16);
            4 PushVlanProtocol(be16);
            6 PushVlanPriority(byte);
            7 PushEthDst(octets 6);
            8 PushEthSrc(octets 6);
        })
    };
}

impl Nla for TcActionVlanOption {
    ghost shape = { shaped family };

    fn kind(&self) -> u16 {
        rows!(kind_rows(self))
    }

    fn is_nested(&self) -> bool {
        false
    }

    fn check_value(&self) -> Result<usize, EmitError> {
        Ok(rows!(len_rows(self)))
    }

    fn write_value(&self, out: &mut [u8]) -> usize {
        rows!(write_rows(self, out))
    }
}

impl Attribute for TcActionVlanOption {
    type Context = ();

    ghost family = { family };

    ghost shape_is = { λ a. refl };

    #[tactic(auto, unfolding(crate::specs::VlanOption::attributes))]
    fn read_into<P: Place<Self>>(
        place: &mut P,
        alloc: Global,
        _context: (),
        item: &NlaBuffer<'_>,
        looks: &mut Looks,
    ) -> Result<(), DecodeError> {
        rows!(put_rows(place, alloc, item, looks))
    }

    #[tactic(auto, unfolding(crate::specs::VlanOption::attributes))]
    fn form(_context: (), number: u16) -> (At, Form) {
        rows!(form_rows(number))
    }

    fn try_clone(&self, alloc: Global) -> Result<Self, AllocError> {
        rows!(clone_rows(self, alloc))
    }
}
