//! What went by the members of a group: `NHA_GROUP_STATS_*` of `linux/nexthop.h`.

ghost use Rattle.std.specs.Prelude.{refl};
ghost use Rattle.{npr_base.specs.Family.{shaped}, npr_nexthop.specs.GroupStats.{family}};

use crate::group_stats_entry::NextHopGroupStatsEntry;
use npr_base::{
    At, Attribute, DecodeError, DefaultNla, EmitError, Form, Looks, NLA_F_NESTED, Nla, NlaBuffer,
    Place,
};
use std::alloc::{AllocError, Global};

/// What went by the members of a group: `NHA_GROUP_STATS_*` of `linux/nexthop.h`.
#[derive(Debug, Drop, PartialEq, Eq)]
pub enum NextHopGroupStats {
    /// `NHA_GROUP_STATS_ENTRY`: what went by one member. It is written with NESTED.
    Entry(Vec<NextHopGroupStatsEntry>),
    /// An attribute of another number, as it stands.
    Other(DefaultNla),
}

/// The rows of the table.
macro_rules! rows {
    ($body:ident ($($given:tt)*)) => {
        npr_base::$body!(($($given)*) NextHopGroupStats of NextHopGroupStats {
            1 Entry(list NextHopGroupStatsEntry) as NLA_F_NESTED + 1;
        })
    };
}

impl Nla for NextHopGroupStats {
    ghost shape = { shaped family };

    fn kind(&self) -> u16 {
        rows!(kind_rows(self))
    }

    fn is_nested(&self) -> bool {
        false
    }

    fn check_value(&self) -> Result<usize, EmitError> {
        Ok(rows!(len_rows(self)))
    }

    fn write_value(&self, out: &mut [u8]) -> usize {
        rows!(write_rows(self, out))
    }
}

impl Attribute for NextHopGroupStats {
    type Context = ();

    ghost family = { family };

    ghost shape_is = { λ a. refl };

    #[tactic(auto, unfolding(crate::specs::GroupStats::attributes))]
    fn read_into<P: Place<Self>>(
        place: &mut P,
        alloc: Global,
        _context: (),
        item: &NlaBuffer<'_>,
        looks: &mut Looks,
    ) -> Result<(), DecodeError> {
        rows!(put_rows(place, alloc, item, looks))
    }

    #[tactic(auto, unfolding(crate::specs::GroupStats::attributes))]
    fn form(_context: (), number: u16) -> (At, Form) {
        rows!(form_rows(number))
    }

    fn try_clone(&self, alloc: Global) -> Result<Self, AllocError> {
        rows!(clone_rows(self, alloc))
    }
}
