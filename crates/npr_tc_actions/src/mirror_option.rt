//! An action that copies packets, or sends them on: `TCA_MIRRED_*` of `linux/tc_act/tc_mirred.h`.

ghost use Rattle.std.specs.Prelude.{refl};
ghost use Rattle.{npr_base.specs.Family.{shaped}, npr_tc_actions.specs.MirrorOption.{family}};

use crate::mirror::TcMirror;
use crate::tcf::Tcf;
use npr_base::{
    At, Attribute, DecodeError, DefaultNla, EmitError, Form, Looks, Nla, NlaBuffer, Place,
};
use std::alloc::{AllocError, Global};

/// An action that copies packets, or sends them on, by its name.
pub struct TcActionMirror {}

impl TcActionMirror {
    /// The name of its kind.
    pub const KIND: &'static str = "mirred";
}

/// What is said of such an action: `TCA_MIRRED_*` of `linux/tc_act/tc_mirred.h`.
#[derive(Debug, Drop, PartialEq, Eq)]
pub enum TcActionMirrorOption {
    /// `TCA_MIRRED_TM`: when it was made and used.
    Tm(Tcf),
    /// `TCA_MIRRED_PARMS`: which way, and the device.
    Parms(TcMirror),
    /// `TCA_MIRRED_BLOCKID`: the number of the block, whose devices each have a copy.
    BlockId(u32),
    /// An attribute of another number, as it stands.
    Other(DefaultNla),
}

/// The rows of the table.
macro_rules! rows {
    ($body:ident ($($given:tt)*)) => {
        npr_base::$body!(($($given)*) TcActionMirrorOption of TcActionMirror {
            1 Tm(Tcf leading 32);
            2 Parms(TcMirror leading 28);
            4 BlockId(le32);
        })
    };
}

impl Nla for TcActionMirrorOption {
    ghost shape = { shaped family };

    fn kind(&self) -> u16 {
        rows!(kind_rows(self))
    }

    fn is_nested(&self) -> bool {
        false
    }

    fn check_value(&self) -> Result<usize, EmitError> {
        Ok(rows!(len_rows(self)))
    }

    fn write_value(&self, out: &mut [u8]) -> usize {
        rows!(write_rows(self, out))
    }
}

impl Attribute for TcActionMirrorOption {
    type Context = ();

    ghost family = { family };

    ghost shape_is = { λ a. refl };

    #[tactic(auto, unfolding(crate::specs::MirrorOption::attributes))]
    fn read_into<P: Place<Self>>(
        place: &mut P,
        alloc: Global,
        _context: (),
        item: &NlaBuffer<'_>,
        looks: &mut Looks,
    ) -> Result<(), DecodeError> {
        rows!(put_rows(place, alloc, item, looks))
    }

    #[tactic(auto, unfolding(crate::specs::MirrorOption::attributes))]
    fn form(_context: (), number: u16) -> (At, Form) {
        rows!(form_rows(number))
    }

    fn try_clone(&self, alloc: Global) -> Result<Self, AllocError> {
        rows!(clone_rows(self, alloc))
    }
}
