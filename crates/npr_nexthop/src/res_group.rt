//! What a resilient group is made with: `NHA_RES_GROUP_*` of `linux/nexthop.h`.

ghost use Rattle.std.specs.Prelude.{refl};
ghost use Rattle.{npr_base.specs.Family.{shaped}, npr_nexthop.specs.ResGroup.{family}};

use npr_base::{
    At, Attribute, DecodeError, DefaultNla, EmitError, Form, Looks, Nla, NlaBuffer, Place,
};
use std::alloc::{AllocError, Global};

/// What a resilient group is made with: `NHA_RES_GROUP_*` of `linux/nexthop.h`.
#[derive(Debug, Drop, PartialEq, Eq)]
pub enum NextHopResGroup {
    /// `NHA_RES_GROUP_BUCKETS`: how many buckets it has.
    Buckets(u16),
    /// `NHA_RES_GROUP_IDLE_TIMER`: how long a bucket is idle before it may go to another next hop, in hundredths of a
    /// second.
    IdleTimer(u32),
    /// `NHA_RES_GROUP_UNBALANCED_TIMER`: how long the group may be unbalanced before buckets in use go too, in hundredths of
    /// a second; 0 is without end.
    UnbalancedTimer(u32),
    /// `NHA_RES_GROUP_UNBALANCED_TIME`: how long it has been unbalanced, in hundredths of a second.
    UnbalancedTime(u64),
    /// An attribute of another number, as it stands.
    Other(DefaultNla),
}

/// The rows of the table.
macro_rules! rows {
    ($body:ident ($($given:tt)*)) => {
        npr_base::$body!(($($given)*) NextHopResGroup of NextHopResGroup {
            1 Buckets(le16);
            2 IdleTimer(le32);
            3 UnbalancedTimer(le32);
            4 UnbalancedTime(le64);
        })
    };
}

impl Nla for NextHopResGroup {
    ghost shape = { shaped family };

    fn kind(&self) -> u16 {
        rows!(kind_rows(self))
    }

    fn is_nested(&self) -> bool {
        false
    }

    fn check_value(&self) -> Result<usize, EmitError> {
        Ok(rows!(len_rows(self)))
    }

    fn write_value(&self, out: &mut [u8]) -> usize {
        rows!(write_rows(self, out))
    }
}

impl Attribute for NextHopResGroup {
    type Context = ();

    ghost family = { family };

    ghost shape_is = { λ a. refl };

    #[tactic(auto, unfolding(crate::specs::ResGroup::attributes))]
    fn read_into<P: Place<Self>>(
        place: &mut P,
        alloc: Global,
        _context: (),
        item: &NlaBuffer<'_>,
        looks: &mut Looks,
    ) -> Result<(), DecodeError> {
        rows!(put_rows(place, alloc, item, looks))
    }

    #[tactic(auto, unfolding(crate::specs::ResGroup::attributes))]
    fn form(_context: (), number: u16) -> (At, Form) {
        rows!(form_rows(number))
    }

    fn try_clone(&self, alloc: Global) -> Result<Self, AllocError> {
        rows!(clone_rows(self, alloc))
    }
}
