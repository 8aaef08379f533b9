//! What is said of the keys of an action that edits packets: `TCA_PEDIT_KEY_EX` of
//! `linux/tc_act/tc_pedit.h`.

ghost use Rattle.std.specs.Prelude.{refl};
ghost use Rattle.{npr_base.specs.Family.{shaped}, npr_tc_actions.specs.PeditKeysEx.{family}};

use crate::pedit_key_ex::TcPeditKeyEx;
use npr_base::{
    At, Attribute, DecodeError, DefaultNla, EmitError, Form, Looks, Nla, NlaBuffer, Place,
};
use std::alloc::{AllocError, Global};

/// What is said of the keys of an action that edits packets, an attribute for each key:
/// `TCA_PEDIT_KEY_EX` of `linux/tc_act/tc_pedit.h`.
#[derive(Debug, Drop, PartialEq, Eq)]
pub enum TcPeditKeysEx {
    /// `TCA_PEDIT_KEY_EX`: what is said of one.
    KeyEx(Vec<TcPeditKeyEx>),
    /// An attribute of another number, as it stands.
    Other(DefaultNla),
}

/// The rows of the table.
macro_rules! rows {
    ($body:ident ($($given:tt)*)) => {
        npr_base::$body!(($($given)*) TcPeditKeysEx of TcPeditKeysEx {
            6 KeyEx(list TcPeditKeyEx);
        })
    };
}

impl Nla for TcPeditKeysEx {
    ghost shape = { shaped family };

    fn kind(&self) -> u16 {
        rows!(kind_rows(self))
    }

    fn is_nested(&self) -> bool {
        false
    }

    fn check_value(&self) -> Result<usize, EmitError> {
        Ok(rows!(len_rows(self)))
    }

    fn write_value(&self, out: &mut [u8]) -> usize {
        rows!(write_rows(self, out))
    }
}

impl Attribute for TcPeditKeysEx {
    type Context = ();

    ghost family = { family };

    ghost shape_is = { λ a. refl };

    #[tactic(auto, unfolding(crate::specs::PeditKeysEx::attributes))]
    fn read_into<P: Place<Self>>(
        place: &mut P,
        alloc: Global,
        _context: (),
        item: &NlaBuffer<'_>,
        looks: &mut Looks,
    ) -> Result<(), DecodeError> {
        rows!(put_rows(place, alloc, item, looks))
    }

    #[tactic(auto, unfolding(crate::specs::PeditKeysEx::attributes))]
    fn form(_context: (), number: u16) -> (At, Form) {
        rows!(form_rows(number))
    }

    fn try_clone(&self, alloc: Global) -> Result<Self, AllocError> {
        rows!(clone_rows(self, alloc))
    }
}
