//! What is said of a key of an action that edits packets: `TCA_PEDIT_KEY_EX_*` of
//! `linux/tc_act/tc_pedit.h`.

ghost use Rattle.std.specs.Prelude.{refl};
ghost use Rattle.{npr_base.specs.Family.{shaped}, npr_tc_actions.specs.PeditKeyEx.{family}};

use crate::pedit_command::TcPeditCommand;
use crate::pedit_header_type::TcPeditHeaderType;
use npr_base::{
    At, Attribute, DecodeError, DefaultNla, EmitError, Form, Looks, Nla, NlaBuffer, Place,
};
use std::alloc::{AllocError, Global};

/// What is said of a key of an action that edits packets: `TCA_PEDIT_KEY_EX_*` of
/// `linux/tc_act/tc_pedit.h`.
#[derive(Debug, Drop, PartialEq, Eq)]
pub enum TcPeditKeyEx {
    /// `TCA_PEDIT_KEY_EX_HTYPE`: the header that it is of.
    Htype(TcPeditHeaderType),
    /// `TCA_PEDIT_KEY_EX_CMD`: what is done with its value.
    Cmd(TcPeditCommand),
    /// An attribute of another number, as it stands.
    Other(DefaultNla),
}

/// The rows of the table.
macro_rules! rows {
    ($body:ident ($($given:tt)*)) => {
        npr_base::$body!(($($given)*) TcPeditKeyEx of TcPeditKeyEx {
            1 Htype(TcPeditHeaderType as le16);
            2 Cmd(TcPeditCommand as le16);
        })
    };
}

impl Nla for TcPeditKeyEx {
    ghost shape = { shaped family };

    fn kind(&self) -> u16 {
        rows!(kind_rows(self))
    }

    fn is_nested(&self) -> bool {
        false
    }

    fn check_value(&self) -> Result<usize, EmitError> {
        Ok(rows!(len_rows(self)))
    }

    fn write_value(&self, out: &mut [u8]) -> usize {
        rows!(write_rows(self, out))
    }
}

impl Attribute for TcPeditKeyEx {
    type Context = ();

    ghost family = { family };

    ghost shape_is = { λ a. refl };

    #[tactic(auto, unfolding(crate::specs::PeditKeyEx::attributes))]
    fn read_into<P: Place<Self>>(
        place: &mut P,
        alloc: Global,
        _context: (),
        item: &NlaBuffer<'_>,
        looks: &mut Looks,
    ) -> Result<(), DecodeError> {
        rows!(put_rows(place, alloc, item, looks))
    }

    #[tactic(auto, unfolding(crate::specs::PeditKeyEx::attributes))]
    fn form(_context: (), number: u16) -> (At, Form) {
        rows!(form_rows(number))
    }

    fn try_clone(&self, alloc: Global) -> Result<Self, AllocError> {
        rows!(clone_rows(self, alloc))
    }
}
