//! The label stack that a flower filter looks for: `TCA_FLOWER_KEY_MPLS_OPTS_*` of `linux/pkt_cls.h`.

ghost use Rattle.std.specs.Prelude.{refl};
ghost use Rattle.{npr_base.specs.Family.{shaped}, npr_tc_filters.specs.FlowerMpls.{family}};

use crate::flower_mpls_lse::TcFilterFlowerMplsLseOption;
use npr_base::{
    At, Attribute, DecodeError, DefaultNla, EmitError, Form, Looks, NLA_F_NESTED, Nla, NlaBuffer,
    Place,
};
use std::alloc::{AllocError, Global};

/// The label stack of MPLS that a flower filter looks for: `TCA_FLOWER_KEY_MPLS_OPTS_*` of
/// `linux/pkt_cls.h`.
#[derive(Debug, Drop, PartialEq, Eq)]
pub enum TcFilterFlowerMplsOption {
    /// `TCA_FLOWER_KEY_MPLS_OPTS_LSE`: an entry. It is written with NESTED.
    Lse(Vec<TcFilterFlowerMplsLseOption>),
    /// An attribute of another number, as it stands.
    Other(DefaultNla),
}

/// The rows of the table.
macro_rules! rows {
    ($body:ident ($($given:tt)*)) => {
        npr_base::$body!(($($given)*) TcFilterFlowerMplsOption of TcFilterFlowerMpls {
            1 Lse(list TcFilterFlowerMplsLse) as NLA_F_NESTED + 1;
        })
    };
}

impl Nla for TcFilterFlowerMplsOption {
    ghost shape = { shaped family };

    fn kind(&self) -> u16 {
        rows!(kind_rows(self))
    }

    fn is_nested(&self) -> bool {
        false
    }

    fn check_value(&self) -> Result<usize, EmitError> {
        Ok(rows!(len_rows(self)))
    }

    fn write_value(&self, out: &mut [u8]) -> usize {
        rows!(write_rows(self, out))
    }
}

impl Attribute for TcFilterFlowerMplsOption {
    type Context = ();

    ghost family = { family };

    ghost shape_is = { λ a. refl };

    #[tactic(auto, unfolding(crate::specs::FlowerMpls::attributes))]
    fn read_into<P: Place<Self>>(
        place: &mut P,
        alloc: Global,
        _context: (),
        item: &NlaBuffer<'_>,
        looks: &mut Looks,
    ) -> Result<(), DecodeError> {
        rows!(put_rows(place, alloc, item, looks))
    }

    #[tactic(auto, unfolding(crate::specs::FlowerMpls::attributes))]
    fn form(_context: (), number: u16) -> (At, Form) {
        rows!(form_rows(number))
    }

    fn try_clone(&self, alloc: Global) -> Result<Self, AllocError> {
        rows!(clone_rows(self, alloc))
    }
}
