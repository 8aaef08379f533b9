//! What kinds of link count besides: `LINK_XSTATS_TYPE_*` of `linux/if_link.h`.

ghost use Rattle.std.specs.Prelude.{refl};
ghost use Rattle.{npr_base.specs.Family.{shaped}, npr_stats.specs.LinkXstats.{family}};

use crate::bond_xstats::BondXstats;
use crate::bridge_xstats::BridgeXstats;
use npr_base::{
    At, Attribute, DecodeError, DefaultNla, EmitError, Form, Looks, Nla, NlaBuffer, Place,
};
use std::alloc::{AllocError, Global};

/// What a kind of link counts besides: `LINK_XSTATS_TYPE_*` of `linux/if_link.h`.
#[derive(Debug, Drop, PartialEq, Eq)]
pub enum LinkXstats {
    /// `LINK_XSTATS_TYPE_BRIDGE`: what a bridge counts.
    Bridge(Vec<BridgeXstats>),
    /// `LINK_XSTATS_TYPE_BOND`: what a bond counts.
    Bond(Vec<BondXstats>),
    /// An attribute of another number, as it stands.
    Other(DefaultNla),
}

/// The rows of the table.
macro_rules! rows {
    ($body:ident ($($given:tt)*)) => {
        npr_base::$body!(($($given)*) LinkXstats of LinkXstats {
            1 Bridge(list BridgeXstats);
            2 Bond(list BondXstats);
        })
    };
}

impl Nla for LinkXstats {
    ghost shape = { shaped family };

    fn kind(&self) -> u16 {
        rows!(kind_rows(self))
    }

    fn is_nested(&self) -> bool {
        false
    }

    fn check_value(&self) -> Result<usize, EmitError> {
        Ok(rows!(len_rows(self)))
    }

    fn write_value(&self, out: &mut [u8]) -> usize {
        rows!(write_rows(self, out))
    }
}

impl Attribute for LinkXstats {
    type Context = ();

    ghost family = { family };

    ghost shape_is = { λ a. refl };

    #[tactic(auto, unfolding(crate::specs::LinkXstats::attributes))]
    fn read_into<P: Place<Self>>(
        place: &mut P,
        alloc: Global,
        _context: (),
        item: &NlaBuffer<'_>,
        looks: &mut Looks,
    ) -> Result<(), DecodeError> {
        rows!(put_rows(place, alloc, item, looks))
    }

    #[tactic(auto, unfolding(crate::specs::LinkXstats::attributes))]
    fn form(_context: (), number: u16) -> (At, Form) {
        rows!(form_rows(number))
    }

    fn try_clone(&self, alloc: Global) -> Result<Self, AllocError> {
        rows!(clone_rows(self, alloc))
    }
}
