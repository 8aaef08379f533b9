//! What a forwarding entry is besides: `NFEA_*` of `linux/neighbour.h`.

ghost use Rattle.std.specs.Prelude.{refl};
ghost use Rattle.{npr_base.specs.Family.{shaped}, npr_neighbour.specs.Fdb.{family}};

use crate::flags::NeighbourFdbNotify;
use bitflags::Flags;
use npr_base::{
    At, Attribute, DecodeError, DefaultNla, EmitError, Form, Looks, Nla, NlaBuffer, Place,
};
use std::alloc::{AllocError, Global};

/// What a forwarding entry is besides.
#[derive(Debug, Drop, PartialEq, Eq)]
pub enum NeighbourFdbAttribute {
    /// `NFEA_ACTIVITY_NOTIFY`: of what a bridge tells.
    ActivityNotify(NeighbourFdbNotify),
    /// `NFEA_DONT_REFRESH`: a change of it leaves its age.
    DontRefresh,
    /// An attribute of another number, as it stands.
    Other(DefaultNla),
}

/// The rows of the table.
macro_rules! rows {
    ($body:ident ($($given:tt)*)) => {
        npr_base::$body!(($($given)*) NeighbourFdbAttribute of NeighbourFdb {
            1 ActivityNotify(NeighbourFdbNotify flags byte);
            2 DontRefresh;
        })
    };
}

impl Nla for NeighbourFdbAttribute {
    ghost shape = { shaped family };

    fn kind(&self) -> u16 {
        rows!(kind_rows(self))
    }

    fn is_nested(&self) -> bool {
        false
    }

    fn check_value(&self) -> Result<usize, EmitError> {
        Ok(rows!(len_rows(self)))
    }

    fn write_value(&self, out: &mut [u8]) -> usize {
        rows!(write_rows(self, out))
    }
}

impl Attribute for NeighbourFdbAttribute {
    type Context = ();

    ghost family = { family };

    ghost shape_is = { λ a. refl };

    #[tactic(auto, unfolding(crate::specs::Fdb::attributes))]
    fn read_into<P: Place<Self>>(
        place: &mut P,
        alloc: Global,
        _context: (),
        item: &NlaBuffer<'_>,
        looks: &mut Looks,
    ) -> Result<(), DecodeError> {
        rows!(put_rows(place, alloc, item, looks))
    }

    #[tactic(auto, unfolding(crate::specs::Fdb::attributes))]
    fn form(_context: (), number: u16) -> (At, Form) {
        rows!(form_rows(number))
    }

    fn try_clone(&self, alloc: Global) -> Result<Self, AllocError> {
        rows!(clone_rows(self, alloc))
    }
}
