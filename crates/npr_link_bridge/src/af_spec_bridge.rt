//! What a bridge says of a port or of itself: `IFLA_BRIDGE_*` of `linux/if_bridge.h`, in `IFLA_AF_SPEC`.

ghost use Rattle.std.specs.Prelude.{refl};
ghost use Rattle.{npr_base.specs.Family.{shaped}, npr_link_bridge.specs.AfSpecBridge.{family}};

use crate::bridge_flag::BridgeFlag;
use crate::bridge_mode::BridgeMode;
use crate::mst::BridgeMst;
use crate::vlan_info::BridgeVlanInfo;
use crate::vlan_tunnel::BridgeVlanTunnelInfo;
use npr_base::{
    At, Attribute, DecodeError, DefaultNla, EmitError, Form, Looks, NLA_F_NESTED, Nla, NlaBuffer,
    Place,
};
use std::alloc::{AllocError, Global};

/// What is said of a bridge under its own address family: VLANs, and how it bridges.
#[derive(Debug, Drop, PartialEq, Eq)]
pub enum AfSpecBridge {
    /// `IFLA_BRIDGE_FLAGS`: whom a request is for.
    Flags(BridgeFlag),
    /// `IFLA_BRIDGE_MODE`: how a network card bridges.
    Mode(BridgeMode),
    /// `IFLA_BRIDGE_VLAN_INFO`: a VLAN.
    VlanInfo(BridgeVlanInfo),
    /// `IFLA_BRIDGE_VLAN_TUNNEL_INFO`: the tunnel of a VLAN.
    VlanTunnelInfo(Vec<BridgeVlanTunnelInfo>),
    /// `IFLA_BRIDGE_MST`: states in spanning trees.
    Mst(Vec<BridgeMst>),
    /// An attribute of another number, as it stands.
    Other(DefaultNla),
}

/// The rows of the table.
macro_rules! rows {
    ($body:ident ($($given:tt)*)) => {
        npr_base::$body!(($($given)*) AfSpecBridge of AfSpecBridge {
            0 Flags(BridgeFlag as le16);
            1 Mode(BridgeMode as le16);
            2 VlanInfo(BridgeVlanInfo exactly 4);
            3 VlanTunnelInfo(list BridgeVlanTunnelInfo);
            6 Mst(list BridgeMst) as NLA_F_NESTED + 6;
        })
    };
}

impl Nla for AfSpecBridge {
    ghost shape = { shaped family };

    fn kind(&self) -> u16 {
        rows!(kind_rows(self))
    }

    fn is_nested(&self) -> bool {
        false
    }

    fn check_value(&self) -> Result<usize, EmitError> {
        Ok(rows!(len_rows(self)))
    }

    fn write_value(&self, out: &mut [u8]) -> usize {
        rows!(write_rows(self, out))
    }
}

impl Attribute for AfSpecBridge {
    type Context = ();

    ghost family = { family };

    ghost shape_is = { λ a. refl };

    #[tactic(auto, unfolding(crate::specs::AfSpecBridge::attributes))]
    fn read_into<P: Place<Self>>(
        place: &mut P,
        alloc: Global,
        _context: (),
        item: &NlaBuffer<'_>,
        looks: &mut Looks,
    ) -> Result<(), DecodeError> {
        rows!(put_rows(place, alloc, item, looks))
    }

    #[tactic(auto, unfolding(crate::specs::AfSpecBridge::attributes))]
    fn form(_context: (), number: u16) -> (At, Form) {
        rows!(form_rows(number))
    }

    fn try_clone(&self, alloc: Global) -> Result<Self, AllocError> {
        rows!(clone_rows(self, alloc))
    }
}
