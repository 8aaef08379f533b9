//! An entry of a label stack that a flower filter looks for: `TCA_FLOWER_KEY_MPLS_OPT_LSE_*` of
//! `linux/pkt_cls.h`.

ghost use Rattle.std.specs.Prelude.{refl};
ghost use Rattle.{npr_base.specs.Family.{shaped}, npr_tc_filters.specs.FlowerMplsLse.{family}};

use npr_base::{
    At, Attribute, DecodeError, DefaultNla, EmitError, Form, Looks, Nla, NlaBuffer, Place,
};
use std::alloc::{AllocError, Global};

/// An entry of a label stack of MPLS that a flower filter looks for: `TCA_FLOWER_KEY_MPLS_OPT_LSE_*` of
/// `linux/pkt_cls.h`.
#[derive(Debug, Drop, PartialEq, Eq)]
pub enum TcFilterFlowerMplsLseOption {
    /// `TCA_FLOWER_KEY_MPLS_OPT_LSE_DEPTH`: which entry it is, from 1 on.
    LseDepth(u8),
    /// `TCA_FLOWER_KEY_MPLS_OPT_LSE_TTL`: how many hops are left.
    LseTtl(u8),
    /// `TCA_FLOWER_KEY_MPLS_OPT_LSE_BOS`: whether it is the last: 1 or 0.
    LseBos(u8),
    /// `TCA_FLOWER_KEY_MPLS_OPT_LSE_TC`: the traffic class.
    LseTc(u8),
    /// `TCA_FLOWER_KEY_MPLS_OPT_LSE_LABEL`: the label.
    LseLabel(u32),
    /// An attribute of another number, as it stands.
    Other(DefaultNla),
}

/// The rows of the table.
macro_rules! rows {
    ($body:ident ($($given:tt)*)) => {
        npr_base::$body!(($($given)*) TcFilterFlowerMplsLseOption of TcFilterFlowerMplsLse {
            1 LseDepth(byte);
            2 LseTtl(byte);
            3 LseBos(byte);
            4 LseTc(byte);
            5 LseLabel(le32);
        })
    };
}

impl Nla for TcFilterFlowerMplsLseOption {
    ghost shape = { shaped family };

    fn kind(&self) -> u16 {
        rows!(kind_rows(self))
    }

    fn is_nested(&self) -> bool {
        false
    }

    fn check_value(&self) -> Result<usize, EmitError> {
        Ok(rows!(len_rows(self)))
    }

    fn write_value(&self, out: &mut [u8]) -> usize {
        rows!(write_rows(self, out))
    }
}

impl Attribute for TcFilterFlowerMplsLseOption {
    type Context = ();

    ghost family = { family };

    ghost shape_is = { λ a. refl };

    #[tactic(auto, unfolding(crate::specs::FlowerMplsLse::attributes))]
    fn read_into<P: Place<Self>>(
        place: &mut P,
        alloc: Global,
        _context: (),
        item: &NlaBuffer<'_>,
        looks: &mut Looks,
    ) -> Result<(), DecodeError> {
        rows!(put_rows(place, alloc, item, looks))
    }

    #[tactic(auto, unfolding(crate::specs::FlowerMplsLse::attributes))]
    fn form(_context: (), number: u16) -> (At, Form) {
        rows!(form_rows(number))
    }

    fn try_clone(&self, alloc: Global) -> Result<Self, AllocError> {
        rows!(clone_rows(self, alloc))
    }
}
