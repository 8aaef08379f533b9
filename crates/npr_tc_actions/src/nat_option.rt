//! An action that changes addresses: `TCA_NAT_*` of `linux/tc_act/tc_nat.h`.

ghost use Rattle.std.specs.Prelude.{refl};
ghost use Rattle.{npr_base.specs.Family.{shaped}, npr_tc_actions.specs.NatOption.{family}};

use crate::nat::TcNat;
use crate::tcf::Tcf;
use npr_base::{
    At, Attribute, DecodeError, DefaultNla, EmitError, Form, Looks, Nla, NlaBuffer, Place,
};
use std::alloc::{AllocError, Global};

/// An action that changes addresses, by its name.
pub struct TcActionNat {}

impl TcActionNat {
    /// The name of its kind.
    pub const KIND: &'static str = "nat";
}

/// What is said of such an action: `TCA_NAT_*` of `linux/tc_act/tc_nat.h`.
#[derive(Debug, Drop, PartialEq, Eq)]
pub enum TcActionNatOption {
    /// `TCA_NAT_PARMS`: the addresses.
    Parms(TcNat),
    /// `TCA_NAT_TM`: when it was made and used.
    Tm(Tcf),
    /// An attribute of another number, as it stands.
    Other(DefaultNla),
}

/// The rows of the table.
macro_rules! rows {
    ($body:ident ($($given:tt)*)) => {
        npr_base::$body!(($($given)*) TcActionNatOption of TcActionNat {
            1 Parms(TcNat leading 36);
            2 Tm(Tcf leading 32);
        })
    };
}

impl Nla for TcActionNatOption {
    ghost shape = { shaped family };

    fn kind(&self) -> u16 {
        rows!(kind_rows(self))
    }

    fn is_nested(&self) -> bool {
        false
    }

    fn check_value(&self) -> Result<usize, EmitError> {
        Ok(rows!(len_rows(self)))
    }

    fn write_value(&self, out: &mut [u8]) -> usize {
        rows!(write_rows(self, out))
    }
}

impl Attribute for TcActionNatOption {
    type Context = ();

    ghost family = { family };

    ghost shape_is = { λ a. refl };

    #[tactic(auto, unfolding(crate::specs::NatOption::attributes))]
    fn read_into<P: Place<Self>>(
        place: &mut P,
        alloc: Global,
        _context: (),
        item: &NlaBuffer<'_>,
        looks: &mut Looks,
    ) -> Result<(), DecodeError> {
        rows!(put_rows(place, alloc, item, looks))
    }

    #[tactic(auto, unfolding(crate::specs::NatOption::attributes))]
    fn form(_context: (), number: u16) -> (At, Form) {
        rows!(form_rows(number))
    }

    fn try_clone(&self, alloc: Global) -> Result<Self, AllocError> {
        rows!(clone_rows(self, alloc))
    }
}
