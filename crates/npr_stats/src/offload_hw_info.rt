//! What is known of counting in a device, by what is counted: `IFLA_OFFLOAD_XSTATS_*` of `linux/if_link.h`.

ghost use Rattle.std.specs.Prelude.{refl};
ghost use Rattle.{npr_base.specs.Family.{shaped}, npr_stats.specs.OffloadHwInfo.{family}};

use crate::offload_hw_state::OffloadHwState;
use npr_base::{
    At, Attribute, DecodeError, DefaultNla, EmitError, Form, Looks, NLA_F_NESTED, Nla, NlaBuffer,
    Place,
};
use std::alloc::{AllocError, Global};

/// What is known of counting in a device, by what is counted: `IFLA_OFFLOAD_XSTATS_*` of `linux/if_link.h`.
#[derive(Debug, Drop, PartialEq, Eq)]
pub enum OffloadHwInfo {
    /// `IFLA_OFFLOAD_XSTATS_L3_STATS`: of what the device routed. It is written with NESTED.
    L3Stats(Vec<OffloadHwState>),
    /// An attribute of another number, as it stands.
    Other(DefaultNla),
}

/// The rows of the table.
macro_rules! rows {
    ($body:ident ($($given:tt)*)) => {
        npr_base::$body!(($($given)*) OffloadHwInfo of OffloadHwInfo {
            3 L3Stats(list OffloadHwState) as NLA_F_NESTED + 3;
        })
    };
}

impl Nla for OffloadHwInfo {
    ghost shape = { shaped family };

    fn kind(&self) -> u16 {
        rows!(kind_rows(self))
    }

    fn is_nested(&self) -> bool {
        false
    }

    fn check_value(&self) -> Result<usize, EmitError> {
        Ok(rows!(len_rows(self)))
    }

    fn write_value(&self, out: &mut [u8]) -> usize {
        rows!(write_rows(self, out))
    }
}

impl Attribute for OffloadHwInfo {
    type Context = ();

    ghost family = { family };

    ghost shape_is = { λ a. refl };

    #[tactic(auto, unfolding(crate::specs::OffloadHwInfo::attributes))]
    fn read_into<P: Place<Self>>(
        place: &mut P,
        alloc: Global,
        _context: (),
        item: &NlaBuffer<'_>,
        looks: &mut Looks,
    ) -> Result<(), DecodeError> {
        rows!(put_rows(place, alloc, item, looks))
    }

    #[tactic(auto, unfolding(crate::specs::OffloadHwInfo::attributes))]
    fn form(_context: (), number: u16) -> (At, Form) {
        rows!(form_rows(number))
    }

    fn try_clone(&self, alloc: Global) -> Result<Self, AllocError> {
        rows!(clone_rows(self, alloc))
    }
}
