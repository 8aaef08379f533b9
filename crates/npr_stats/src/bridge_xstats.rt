//! What a bridge counts: `BRIDGE_XSTATS_*` of `linux/if_bridge.h`.

ghost use Rattle.std.specs.Prelude.{refl};
ghost use Rattle.{npr_base.specs.Family.{shaped}, npr_stats.specs.BridgeXstats.{family}};

use crate::bridge_multicast_stats::BridgeMulticastStats;
use crate::bridge_stp_xstats::BridgeStpXstats;
use crate::bridge_vlan_xstats::BridgeVlanXstats;
use npr_base::{
    At, Attribute, DecodeError, DefaultNla, EmitError, Form, Looks, Nla, NlaBuffer, Place,
};
use npr_link_statistics::Grown;
use std::alloc::{AllocError, Global};

/// What a bridge, or a port of it, counts: `BRIDGE_XSTATS_*` of `linux/if_bridge.h`.
#[derive(Debug, Drop, PartialEq, Eq)]
pub enum BridgeXstats {
    /// `BRIDGE_XSTATS_VLAN`: what went by one VLAN; there is one for each.
    Vlan(BridgeVlanXstats),
    /// `BRIDGE_XSTATS_MCAST`: what it counted of multicast.
    Multicast(BridgeMulticastStats),
    /// `BRIDGE_XSTATS_STP`: what the spanning tree protocol counted at a port.
    Stp(BridgeStpXstats),
    /// An attribute of another number, as it stands.
    Other(DefaultNla),
}

/// The rows of the table.
macro_rules! rows {
    ($body:ident ($($given:tt)*)) => {
        npr_base::$body!(($($given)*) BridgeXstats of BridgeXstats {
            1 Vlan(BridgeVlanXstats leading 40);
            2 Multicast(BridgeMulticastStats value raw);
            4 Stp(BridgeStpXstats leading 48);
        })
    };
}

impl Nla for BridgeXstats {
    ghost shape = { shaped family };

    fn kind(&self) -> u16 {
        rows!(kind_rows(self))
    }

    fn is_nested(&self) -> bool {
        false
    }

    fn check_value(&self) -> Result<usize, EmitError> {
        Ok(rows!(len_rows(self)))
    }

    fn write_value(&self, out: &mut [u8]) -> usize {
        rows!(write_rows(self, out))
    }
}

impl Attribute for BridgeXstats {
    type Context = ();

    ghost family = { family };

    ghost shape_is = { λ a. refl };

    #[tactic(auto, unfolding(crate::specs::BridgeXstats::attributes))]
    fn read_into<P: Place<Self>>(
        place: &mut P,
        alloc: Global,
        _context: (),
        item: &NlaBuffer<'_>,
        looks: &mut Looks,
    ) -> Result<(), DecodeError> {
        rows!(put_rows(place, alloc, item, looks))
    }

    #[tactic(auto, unfolding(crate::specs::BridgeXstats::attributes))]
    fn form(_context: (), number: u16) -> (At, Form) {
        rows!(form_rows(number))
    }

    fn try_clone(&self, alloc: Global) -> Result<Self, AllocError> {
        rows!(clone_rows(self, alloc))
    }
}
