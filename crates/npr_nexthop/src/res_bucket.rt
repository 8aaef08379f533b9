//! A bucket of a resilient group: `NHA_RES_BUCKET_*` of `linux/nexthop.h`.

ghost use Rattle.std.specs.Prelude.{refl};
ghost use Rattle.{npr_base.specs.Family.{shaped}, npr_nexthop.specs.ResBucket.{family}};

use npr_base::{
    At, Attribute, DecodeError, DefaultNla, EmitError, Form, Looks, Nla, NlaBuffer, Place,
};
use std::alloc::{AllocError, Global};

/// A bucket of a resilient group: `NHA_RES_BUCKET_*` of `linux/nexthop.h`.
#[derive(Debug, Drop, PartialEq, Eq)]
pub enum NextHopResBucket {
    /// `NHA_RES_BUCKET_INDEX`: its index.
    Index(u16),
    /// `NHA_RES_BUCKET_IDLE_TIME`: how long it has been idle, in hundredths of a second.
    IdleTime(u64),
    /// `NHA_RES_BUCKET_NH_ID`: the id of its next hop.
    NhId(u32),
    /// An attribute of another number, as it stands.
    Other(DefaultNla),
}

/// The rows of the table.
macro_rules! rows {
    ($body:ident ($($given:tt)*)) => {
        npr_base::$body!(($($given)*) NextHopResBucket of NextHopResBucket {
            1 Index(le16);
            2 IdleTime(le64);
            3 NhId(le32);
        })
    };
}

impl Nla for NextHopResBucket {
    ghost shape = { shaped family };

    fn kind(&self) -> u16 {
        rows!(kind_rows(self))
    }

    fn is_nested(&self) -> bool {
        false
    }

    fn check_value(&self) -> Result<usize, EmitError> {
        Ok(rows!(len_rows(self)))
    }

    fn write_value(&self, out: &mut [u8]) -> usize {
        rows!(write_rows(self, out))
    }
}

impl Attribute for NextHopResBucket {
    type Context = ();

    ghost family = { family };

    ghost shape_is = { λ a. refl };

    #[tactic(auto, unfolding(crate::specs::ResBucket::attributes))]
    fn read_into<P: Place<Self>>(
        place: &mut P,
        alloc: Global,
        _context: (),
        item: &NlaBuffer<'_>,
        looks: &mut Looks,
    ) -> Result<(), DecodeError> {
        rows!(put_rows(place, alloc, item, looks))
    }

    #[tactic(auto, unfolding(crate::specs::ResBucket::attributes))]
    fn form(_context: (), number: u16) -> (At, Form) {
        rows!(form_rows(number))
    }

    fn try_clone(&self, alloc: Global) -> Result<Self, AllocError> {
        rows!(clone_rows(self, alloc))
    }
}
