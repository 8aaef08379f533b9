//! The data of `red`: `TCA_RED_*` of `linux/pkt_sched.h`.

ghost use Rattle.std.specs.Prelude.{refl};
ghost use Rattle.{npr_base.specs.Family.{shaped}, npr_tc_qdiscs.specs.Red.{family}};

use crate::red_qopt::TcRedQopt;
use npr_base::{
    At, Attribute, DecodeError, DefaultNla, EmitError, Form, Looks, Nla, NlaBuffer, Place,
};
use npr_tc_values::TcBitfield;
use std::alloc::{AllocError, Global};

/// The data of `red`: `TCA_RED_*` of `linux/pkt_sched.h`.
#[derive(Debug, Drop, PartialEq, Eq)]
pub enum TcQdiscRedOption {
    /// `TCA_RED_PARMS`: when it drops.
    Parms(TcRedQopt),
    /// `TCA_RED_STAB`: a table for times without packets, 256 bytes.
    Stab(Vec<u8>),
    /// `TCA_RED_MAX_P`: how likely a packet is dropped at most: the share of the greatest number.
    MaxP(u32),
    /// `TCA_RED_FLAGS`: `TC_RED_*`, and which of them are said.
    Flags(TcBitfield),
    /// `TCA_RED_EARLY_DROP_BLOCK`: the block of filters for packets that are dropped early.
    EarlyDropBlock(u32),
    /// `TCA_RED_MARK_BLOCK`: that for packets that are marked.
    MarkBlock(u32),
    /// An attribute of another number, as it stands.
    Other(DefaultNla),
}

/// The rows of the table.
macro_rules! rows {
    ($body:ident ($($given:tt)*)) => {
        npr_base::$body!(($($given)*) TcQdiscRedOption of TcQdiscRed {
            1 Parms(TcRedQopt leading 16);
            2 Stab(raw);
            3 MaxP(le32);
            4 Flags(TcBitfield exactly 8);
            5 EarlyDropBlock(le32);
            6 MarkBlock(le32);
        })
    };
}

impl Nla for TcQdiscRedOption {
    ghost shape = { shaped family };

    fn kind(&self) -> u16 {
        rows!(kind_rows(self))
    }

    fn is_nested(&self) -> bool {
        false
    }

    fn check_value(&self) -> Result<usize, EmitError> {
        Ok(rows!(len_rows(self)))
    }

    fn write_value(&self, out: &mut [u8]) -> usize {
        rows!(write_rows(self, out))
    }
}

impl Attribute for TcQdiscRedOption {
    type Context = ();

    ghost family = { family };

    ghost shape_is = { λ a. refl };

    #[tactic(auto, unfolding(crate::specs::Red::attributes))]
    fn read_into<P: Place<Self>>(
        place: &mut P,
        alloc: Global,
        _context: (),
        item: &NlaBuffer<'_>,
        looks: &mut Looks,
    ) -> Result<(), DecodeError> {
        rows!(put_rows(place, alloc, item, looks))
    }

    #[tactic(auto, unfolding(crate::specs::Red::attributes))]
    fn form(_context: (), number: u16) -> (At, Form) {
        rows!(form_rows(number))
    }

    fn try_clone(&self, alloc: Global) -> Result<Self, AllocError> {
        rows!(clone_rows(self, alloc))
    }
}
