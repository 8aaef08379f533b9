//! Whether a device counts: `IFLA_OFFLOAD_XSTATS_HW_S_INFO_*` of `linux/if_link.h`.

ghost use Rattle.std.specs.Prelude.{refl};
ghost use Rattle.{npr_base.specs.Family.{shaped}, npr_stats.specs.OffloadHwState.{family}};

use npr_base::{
    At, Attribute, DecodeError, DefaultNla, EmitError, Form, Looks, Nla, NlaBuffer, Place,
};
use std::alloc::{AllocError, Global};

/// Whether a device counts: `IFLA_OFFLOAD_XSTATS_HW_S_INFO_*` of `linux/if_link.h`.
#[derive(Debug, Drop, PartialEq, Eq)]
pub enum OffloadHwState {
    /// `IFLA_OFFLOAD_XSTATS_HW_S_INFO_REQUEST`: whether it is asked to count; 1 or 0.
    Request(u8),
    /// `IFLA_OFFLOAD_XSTATS_HW_S_INFO_USED`: whether it does; 1 or 0.
    Used(u8),
    /// An attribute of another number, as it stands.
    Other(DefaultNla),
}

/// The rows of the table.
macro_rules! rows {
    ($body:ident ($($given:tt)*)) => {
        npr_base::$body!(($($given)*) OffloadHwState of OffloadHwState {
            1 Request(byte);
            2 Used(byte);
        })
    };
}

impl Nla for OffloadHwState {
    ghost shape = { shaped family };

    fn kind(&self) -> u16 {
        rows!(kind_rows(self))
    }

    fn is_nested(&self) -> bool {
        false
    }

    fn check_value(&self) -> Result<usize, EmitError> {
        Ok(rows!(len_rows(self)))
    }

    fn write_value(&self, out: &mut [u8]) -> usize {
        rows!(write_rows(self, out))
    }
}

impl Attribute for OffloadHwState {
    type Context = ();

    ghost family = { family };

    ghost shape_is = { λ a. refl };

    #[tactic(auto, unfolding(crate::specs::OffloadHwState::attributes))]
    fn read_into<P: Place<Self>>(
        place: &mut P,
        alloc: Global,
        _context: (),
        item: &NlaBuffer<'_>,
        looks: &mut Looks,
    ) -> Result<(), DecodeError> {
        rows!(put_rows(place, alloc, item, looks))
    }

    #[tactic(auto, unfolding(crate::specs::OffloadHwState::attributes))]
    fn form(_context: (), number: u16) -> (At, Form) {
        rows!(form_rows(number))
    }

    fn try_clone(&self, alloc: Global) -> Result<Self, AllocError> {
        rows!(clone_rows(self, alloc))
    }
}
