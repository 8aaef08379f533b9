//! States of a port in spanning trees: `IFLA_BRIDGE_MST_*` of `linux/if_bridge.h`.

ghost use Rattle.std.specs.Prelude.{refl};
ghost use Rattle.{npr_base.specs.Family.{shaped}, npr_link_bridge.specs.Mst.{family}};

use crate::mst_entry::BridgeMstEntry;
use npr_base::{
    At, Attribute, DecodeError, DefaultNla, EmitError, Form, Looks, Nla, NlaBuffer, Place,
};
use std::alloc::{AllocError, Global};

/// A state of a port in a spanning tree, in the list of them.
#[derive(Debug, Drop, PartialEq, Eq)]
pub enum BridgeMst {
    /// `IFLA_BRIDGE_MST_ENTRY`: the state in one tree.
    Entry(Vec<BridgeMstEntry>),
    /// An attribute of another number, as it stands.
    Other(DefaultNla),
}

/// The rows of the table.
macro_rules! rows {
    ($body:ident ($($given:tt)*)) => {
        npr_base::$body!(($($given)*) BridgeMst of BridgeMst {
            1 Entry(list BridgeMstEntry);
        })
    };
}

impl Nla for BridgeMst {
    ghost shape = { shaped family };

    fn kind(&self) -> u16 {
        rows!(kind_rows(self))
    }

    fn is_nested(&self) -> bool {
        false
    }

    fn check_value(&self) -> Result<usize, EmitError> {
        Ok(rows!(len_rows(self)))
    }

    fn write_value(&self, out: &mut [u8]) -> usize {
        rows!(write_rows(self, out))
    }
}

impl Attribute for BridgeMst {
    type Context = ();

    ghost family = { family };

    ghost shape_is = { λ a. refl };

    #[tactic(auto, unfolding(crate::specs::Mst::attributes))]
    fn read_into<P: Place<Self>>(
        place: &mut P,
        alloc: Global,
        _context: (),
        item: &NlaBuffer<'_>,
        looks: &mut Looks,
    ) -> Result<(), DecodeError> {
        rows!(put_rows(place, alloc, item, looks))
    }

    #[tactic(auto, unfolding(crate::specs::Mst::attributes))]
    fn form(_context: (), number: u16) -> (At, Form) {
        rows!(form_rows(number))
    }

    fn try_clone(&self, alloc: Global) -> Result<Self, AllocError> {
        rows!(clone_rows(self, alloc))
    }
}
