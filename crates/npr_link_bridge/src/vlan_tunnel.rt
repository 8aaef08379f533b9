//! The tunnel of a VLAN: `IFLA_BRIDGE_VLAN_TUNNEL_*` of `linux/if_bridge.h`.

ghost use Rattle.std.specs.Prelude.{refl};
ghost use Rattle.{npr_base.specs.Family.{shaped}, npr_link_bridge.specs.VlanTunnel.{family}};

use crate::vlan_info_flags::BridgeVlanInfoFlags;
use bitflags::Flags;
use npr_base::{
    At, Attribute, DecodeError, DefaultNla, EmitError, Form, Looks, Nla, NlaBuffer, Place,
};
use std::alloc::{AllocError, Global};

/// The tunnel of a VLAN of a port.
#[derive(Debug, Drop, PartialEq, Eq)]
pub enum BridgeVlanTunnelInfo {
    /// `IFLA_BRIDGE_VLAN_TUNNEL_ID`: the id of the tunnel.
    Id(u32),
    /// `IFLA_BRIDGE_VLAN_TUNNEL_VID`: the VLAN.
    Vid(u16),
    /// `IFLA_BRIDGE_VLAN_TUNNEL_FLAGS`: where it stands in a range.
    Flags(BridgeVlanInfoFlags),
    /// An attribute of another number, as it stands.
    Other(DefaultNla),
}

/// The rows of the table.
macro_rules! rows {
    ($body:ident ($($given:tt)*)) => {
        npr_base::$body!(($($given)*) BridgeVlanTunnelInfo of BridgeVlanTunnelInfo {
            1 Id(le32);
            2 Vid(le16);
            3 Flags(BridgeVlanInfoFlags flags le16);
        })
    };
}

impl Nla for BridgeVlanTunnelInfo {
    ghost shape = { shaped family };

    fn kind(&self) -> u16 {
        rows!(kind_rows(self))
    }

    fn is_nested(&self) -> bool {
        false
    }

    fn check_value(&self) -> Result<usize, EmitError> {
        Ok(rows!(len_rows(self)))
    }

    fn write_value(&self, out: &mut [u8]) -> usize {
        rows!(write_rows(self, out))
    }
}

impl Attribute for BridgeVlanTunnelInfo {
    type Context = ();

    ghost family = { family };

    ghost shape_is = { λ a. refl };

    #[tactic(auto, unfolding(crate::specs::VlanTunnel::attributes))]
    fn read_into<P: Place<Self>>(
        place: &mut P,
        alloc: Global,
        _context: (),
        item: &NlaBuffer<'_>,
        looks: &mut Looks,
    ) -> Result<(), DecodeError> {
        rows!(put_rows(place, alloc, item, looks))
    }

    #[tactic(auto, unfolding(crate::specs::VlanTunnel::attributes))]
    fn form(_context: (), number: u16) -> (At, Form) {
        rows!(form_rows(number))
    }

    fn try_clone(&self, alloc: Global) -> Result<Self, AllocError> {
        rows!(clone_rows(self, alloc))
    }
}
