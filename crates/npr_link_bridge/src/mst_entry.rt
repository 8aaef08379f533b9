//! The state of a port in a spanning tree: `IFLA_BRIDGE_MST_ENTRY_*` of `linux/if_bridge.h`.

ghost use Rattle.std.specs.Prelude.{refl};
ghost use Rattle.{npr_base.specs.Family.{shaped}, npr_link_bridge.specs.MstEntry.{family}};

use crate::port_state::BridgePortState;
use npr_base::{
    At, Attribute, DecodeError, DefaultNla, EmitError, Form, Looks, Nla, NlaBuffer, Place,
};
use std::alloc::{AllocError, Global};

/// The state of a port in a spanning tree (IEEE 802.1Q, MSTP).
#[derive(Debug, Drop, PartialEq, Eq)]
pub enum BridgeMstEntry {
    /// `IFLA_BRIDGE_MST_ENTRY_MSTI`: the tree.
    Msti(u16),
    /// `IFLA_BRIDGE_MST_ENTRY_STATE`: the state.
    State(BridgePortState),
    /// An attribute of another number, as it stands.
    Other(DefaultNla),
}

/// The rows of the table.
macro_rules! rows {
    ($body:ident ($($given:tt)*)) => {
        npr_base::$body!(($($given)*) BridgeMstEntry of BridgeMstEntry {
            1 Msti(le16);
            2 State(BridgePortState as byte);
        })
    };
}

impl Nla for BridgeMstEntry {
    ghost shape = { shaped family };

    fn kind(&self) -> u16 {
        rows!(kind_rows(self))
    }

    fn is_nested(&self) -> bool {
        false
    }

    fn check_value(&self) -> Result<usize, EmitError> {
        Ok(rows!(len_rows(self)))
    }

    fn write_value(&self, out: &mut [u8]) -> usize {
        rows!(write_rows(self, out))
    }
}

impl Attribute for BridgeMstEntry {
    type Context = ();

    ghost family = { family };

    ghost shape_is = { λ a. refl };

    #[tactic(auto, unfolding(crate::specs::MstEntry::attributes))]
    fn read_into<P: Place<Self>>(
        place: &mut P,
        alloc: Global,
        _context: (),
        item: &NlaBuffer<'_>,
        looks: &mut Looks,
    ) -> Result<(), DecodeError> {
        rows!(put_rows(place, alloc, item, looks))
    }

    #[tactic(auto, unfolding(crate::specs::MstEntry::attributes))]
    fn form(_context: (), number: u16) -> (At, Form) {
        rows!(form_rows(number))
    }

    fn try_clone(&self, alloc: Global) -> Result<Self, AllocError> {
        rows!(clone_rows(self, alloc))
    }
}
