//! What went by one member of a group: `NHA_GROUP_STATS_ENTRY_*` of `linux/nexthop.h`.

ghost use Rattle.std.specs.Prelude.{refl};
ghost use Rattle.{npr_base.specs.Family.{shaped}, npr_nexthop.specs.GroupStatsEntry.{family}};

use npr_base::{
    At, Attribute, DecodeError, DefaultNla, EmitError, Form, Looks, Nla, NlaBuffer, Place,
};
use std::alloc::{AllocError, Global};

/// What went by one member of a group: `NHA_GROUP_STATS_ENTRY_*` of `linux/nexthop.h`.
#[derive(Debug, Drop, PartialEq, Eq)]
pub enum NextHopGroupStatsEntry {
    /// `NHA_GROUP_STATS_ENTRY_ID`: the id of the member.
    Id(u32),
    /// `NHA_GROUP_STATS_ENTRY_PACKETS`: how many packets went by it.
    Packets(u64),
    /// `NHA_GROUP_STATS_ENTRY_PACKETS_HW`: how many of them a device forwarded by itself.
    PacketsHw(u64),
    /// An attribute of another number, as it stands.
    Other(DefaultNla),
}

/// The rows of the table.
macro_rules! rows {
    ($body:ident ($($given:tt)*)) => {
        npr_base::$body!(($($given)*) NextHopGroupStatsEntry of NextHopGroupStatsEntry {
            1 Id(le32);
            2 Packets(uint);
            3 PacketsHw(uint);
        })
    };
}

impl Nla for NextHopGroupStatsEntry {
    ghost shape = { shaped family };

    fn kind(&self) -> u16 {
        rows!(kind_rows(self))
    }

    fn is_nested(&self) -> bool {
        false
    }

    fn check_value(&self) -> Result<usize, EmitError> {
        Ok(rows!(len_rows(self)))
    }

    fn write_value(&self, out: &mut [u8]) -> usize {
        rows!(write_rows(self, out))
    }
}

impl Attribute for NextHopGroupStatsEntry {
    type Context = ();

    ghost family = { family };

    ghost shape_is = { λ a. refl };

    #[tactic(auto, unfolding(crate::specs::GroupStatsEntry::attributes))]
    fn read_into<P: Place<Self>>(
        place: &mut P,
        alloc: Global,
        _context: (),
        item: &NlaBuffer<'_>,
        looks: &mut Looks,
    ) -> Result<(), DecodeError> {
        rows!(put_rows(place, alloc, item, looks))
    }

    #[tactic(auto, unfolding(crate::specs::GroupStatsEntry::attributes))]
    fn form(_context: (), number: u16) -> (At, Form) {
        rows!(form_rows(number))
    }

    fn try_clone(&self, alloc: Global) -> Result<Self, AllocError> {
        rows!(clone_rows(self, alloc))
    }
}
