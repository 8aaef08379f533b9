//! What is said of an action that makes checksums anew: `TCA_CSUM_*` of `linux/tc_act/tc_csum.h`.

ghost use Rattle.std.specs.Prelude.{refl};
ghost use Rattle.{npr_base.specs.Family.{shaped}, npr_tc_actions.specs.CsumOption.{family}};

use crate::csum::TcCsum;
use crate::tcf::Tcf;
use npr_base::{
    At, Attribute, DecodeError, DefaultNla, EmitError, Form, Looks, Nla, NlaBuffer, Place,
};
use std::alloc::{AllocError, Global};

/// An action that makes checksums anew, by its name.
pub struct TcActionCsum {}

impl TcActionCsum {
    /// The name of its kind.
    pub const KIND: &'static str = "csum";
}

/// What is said of an action that makes checksums anew: `TCA_CSUM_*` of `linux/tc_act/tc_csum.h`.
#[derive(Debug, Drop, PartialEq, Eq)]
pub enum TcActionCsumOption {
    /// `TCA_CSUM_PARMS`: which.
    Parms(TcCsum),
    /// `TCA_CSUM_TM`: when it was made and used.
    Tm(Tcf),
    /// An attribute of another number, as it stands.
    Other(DefaultNla),
}

/// The rows of the table.
macro_rules! rows {
    ($body:ident ($($given:tt)*)) => {
        npr_base::$body!(($($given)*) TcActionCsumOption of TcActionCsum {
            1 Parms(TcCsum leading 24);
            2 Tm(Tcf leading 32);
        })
    };
}

impl Nla for TcActionCsumOption {
    ghost shape = { shaped family };

    fn kind(&self) -> u16 {
        rows!(kind_rows(self))
    }

    fn is_nested(&self) -> bool {
        false
    }

    fn check_value(&self) -> Result<usize, EmitError> {
        Ok(rows!(len_rows(self)))
    }

    fn write_value(&self, out: &mut [u8]) -> usize {
        rows!(write_rows(self, out))
    }
}

impl Attribute for TcActionCsumOption {
    type Context = ();

    ghost family = { family };

    ghost shape_is = { λ a. refl };

    #[tactic(auto, unfolding(crate::specs::CsumOption::attributes))]
    fn read_into<P: Place<Self>>(
        place: &mut P,
        alloc: Global,
        _context: (),
        item: &NlaBuffer<'_>,
        looks: &mut Looks,
    ) -> Result<(), DecodeError> {
        rows!(put_rows(place, alloc, item, looks))
    }

    #[tactic(auto, unfolding(crate::specs::CsumOption::attributes))]
    fn form(_context: (), number: u16) -> (At, Form) {
        rows!(form_rows(number))
    }

    fn try_clone(&self, alloc: Global) -> Result<Self, AllocError> {
        rows!(clone_rows(self, alloc))
    }
}
