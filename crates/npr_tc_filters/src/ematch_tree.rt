//! The tests of the filter `basic`: `TCA_EMATCH_TREE_*` of `linux/pkt_cls.h`.

ghost use Rattle.std.specs.Prelude.{refl};
ghost use Rattle.{npr_base.specs.Family.{shaped}, npr_tc_filters.specs.EmatchTree.{family}};

use crate::ematch::TcEmatch;
use crate::ematch_tree_header::TcEmatchTreeHeader;
use npr_base::{
    At, Attribute, DecodeError, DefaultNla, EmitError, Form, Looks, Nla, NlaBuffer, Place,
};
use std::alloc::{AllocError, Global};

/// The tests of the filter `basic`: `TCA_EMATCH_TREE_*` of `linux/pkt_cls.h`.
#[derive(Debug, Drop, PartialEq, Eq)]
pub enum TcEmatchTree {
    /// `TCA_EMATCH_TREE_HDR`: how many there are.
    Header(TcEmatchTreeHeader),
    /// `TCA_EMATCH_TREE_LIST`: the tests, by their places.
    List(Vec<TcEmatch>),
    /// An attribute of another number, as it stands.
    Other(DefaultNla),
}

/// The rows of the table.
macro_rules! rows {
    ($body:ident ($($given:tt)*)) => {
        npr_base::$body!(($($given)*) TcEmatchTree of TcEmatchTree {
            1 Header(TcEmatchTreeHeader leading 4);
            2 List(list TcEmatches);
        })
    };
}

impl Nla for TcEmatchTree {
    ghost shape = { shaped family };

    fn kind(&self) -> u16 {
        rows!(kind_rows(self))
    }

    fn is_nested(&self) -> bool {
        false
    }

    fn check_value(&self) -> Result<usize, EmitError> {
        Ok(rows!(len_rows(self)))
    }

    fn write_value(&self, out: &mut [u8]) -> usize {
        rows!(write_rows(self, out))
    }
}

impl Attribute for TcEmatchTree {
    type Context = ();

    ghost family = { family };

    ghost shape_is = { λ a. refl };

    #[tactic(auto, unfolding(crate::specs::EmatchTree::attributes))]
    fn read_into<P: Place<Self>>(
        place: &mut P,
        alloc: Global,
        _context: (),
        item: &NlaBuffer<'_>,
        looks: &mut Looks,
    ) -> Result<(), DecodeError> {
        rows!(put_rows(place, alloc, item, looks))
    }

    #[tactic(auto, unfolding(crate::specs::EmatchTree::attributes))]
    fn form(_context: (), number: u16) -> (At, Form) {
        rows!(form_rows(number))
    }

    fn try_clone(&self, alloc: Global) -> Result<Self, AllocError> {
        rows!(clone_rows(self, alloc))
    }
}
