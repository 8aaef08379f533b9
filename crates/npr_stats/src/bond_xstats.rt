//! What a bond counts: `BOND_XSTATS_*` of `linux/if_bonding.h`.

ghost use Rattle.std.specs.Prelude.{refl};
ghost use Rattle.{npr_base.specs.Family.{shaped}, npr_stats.specs.BondXstats.{family}};

use crate::bond_ad_stat::BondAdStat;
use npr_base::{
    At, Attribute, DecodeError, DefaultNla, EmitError, Form, Looks, Nla, NlaBuffer, Place,
};
use std::alloc::{AllocError, Global};

/// What a bond, or a port of it, counts: `BOND_XSTATS_*` of `linux/if_bonding.h`.
#[derive(Debug, Drop, PartialEq, Eq)]
pub enum BondXstats {
    /// `BOND_XSTATS_3AD`: what went by of the protocol of IEEE 802.3ad.
    Ad(Vec<BondAdStat>),
    /// An attribute of another number, as it stands.
    Other(DefaultNla),
}

/// The rows of the table.
macro_rules! rows {
    ($body:ident ($($given:tt)*)) => {
        npr_base::$body!(($($given)*) BondXstats of BondXstats {
            1 Ad(list BondAdStat);
        })
    };
}

impl Nla for BondXstats {
    ghost shape = { shaped family };

    fn kind(&self) -> u16 {
        rows!(kind_rows(self))
    }

    fn is_nested(&self) -> bool {
        false
    }

    fn check_value(&self) -> Result<usize, EmitError> {
        Ok(rows!(len_rows(self)))
    }

    fn write_value(&self, out: &mut [u8]) -> usize {
        rows!(write_rows(self, out))
    }
}

impl Attribute for BondXstats {
    type Context = ();

    ghost family = { family };

    ghost shape_is = { λ a. refl };

    #[tactic(auto, unfolding(crate::specs::BondXstats::attributes))]
    fn read_into<P: Place<Self>>(
        place: &mut P,
        alloc: Global,
        _context: (),
        item: &NlaBuffer<'_>,
        looks: &mut Looks,
    ) -> Result<(), DecodeError> {
        rows!(put_rows(place, alloc, item, looks))
    }

    #[tactic(auto, unfolding(crate::specs::BondXstats::attributes))]
    fn form(_context: (), number: u16) -> (At, Form) {
        rows!(form_rows(number))
    }

    fn try_clone(&self, alloc: Global) -> Result<Self, AllocError> {
        rows!(clone_rows(self, alloc))
    }
}
