//! What is said of an action that lets packets through or drops them: `TCA_GACT_*` of `linux/tc_act/tc_gact.h`.

ghost use Rattle.std.specs.Prelude.{refl};
ghost use Rattle.{npr_base.specs.Family.{shaped}, npr_tc_actions.specs.GactOption.{family}};

use crate::gact_probability::TcGactProbability;
use crate::generic::TcActionGeneric;
use crate::tcf::Tcf;
use npr_base::{
    At, Attribute, DecodeError, DefaultNla, EmitError, Form, Looks, Nla, NlaBuffer, Place,
};
use std::alloc::{AllocError, Global};

/// An action that lets packets through or drops them, by its name.
pub struct TcActionGact {}

impl TcActionGact {
    /// The name of its kind.
    pub const KIND: &'static str = "gact";
}

/// What is said of an action that lets packets through or drops them: `TCA_GACT_*` of `linux/tc_act/tc_gact.h`.
#[derive(Debug, Drop, PartialEq, Eq)]
pub enum TcActionGactOption {
    /// `TCA_GACT_TM`: when it was made and used.
    Tm(Tcf),
    /// `TCA_GACT_PARMS`: what becomes of a packet.
    Parms(TcActionGeneric),
    /// `TCA_GACT_PROB`: what becomes of some of the packets.
    Prob(TcGactProbability),
    /// An attribute of another number, as it stands.
    Other(DefaultNla),
}

/// The rows of the table.
macro_rules! rows {
    ($body:ident ($($given:tt)*)) => {
        npr_base::$body!(($($given)*) TcActionGactOption of TcActionGact {
            1 Tm(Tcf leading 32);
            2 Parms(TcActionGeneric leading 20);
            3 Prob(TcGactProbability leading 8);
        })
    };
}

impl Nla for TcActionGactOption {
    ghost shape = { shaped family };

    fn kind(&self) -> u16 {
        rows!(kind_rows(self))
    }

    fn is_nested(&self) -> bool {
        false
    }

    fn check_value(&self) -> Result<usize, EmitError> {
        Ok(rows!(len_rows(self)))
    }

    fn write_value(&self, out: &mut [u8]) -> usize {
        rows!(write_rows(self, out))
    }
}

impl Attribute for TcActionGactOption {
    type Context = ();

    ghost family = { family };

    ghost shape_is = { λ a. refl };

    #[tactic(auto, unfolding(crate::specs::GactOption::attributes))]
    fn read_into<P: Place<Self>>(
        place: &mut P,
        alloc: Global,
        _context: (),
        item: &NlaBuffer<'_>,
        looks: &mut Looks,
    ) -> Result<(), DecodeError> {
        rows!(put_rows(place, alloc, item, looks))
    }

    #[tactic(auto, unfolding(crate::specs::GactOption::attributes))]
    fn form(_context: (), number: u16) -> (At, Form) {
        rows!(form_rows(number))
    }

    fn try_clone(&self, alloc: Global) -> Result<Self, AllocError> {
        rows!(clone_rows(self, alloc))
    }
}
