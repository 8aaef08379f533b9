//! The laws of what is said of bridges, over their definitions alone. Each function does nothing, and
//! its contract is the law.

ghost use Rattle.std.specs.Prelude.{◌≡◌, ◌^◌, ℕ, ◌∷◌, [], true};
ghost use Rattle.{
  npr_base.specs.{Equality.{IsEquality, IsEqualityOf}, Rows.{agrees}},
  npr_link_bridge.specs.{
    AfSpecBridge.{family as af_spec_family},
    BooleanOptions.{boolean_option_bits},
    Bridge.{family as bridge_family},
    BridgeFlag.{bridge_flags},
    BridgeMode.{bridge_modes},
    BridgePort.{family as bridge_port_family},
    Mst.{family as mst_family},
    MstEntry.{family as mst_entry_family},
    MulticastRouter.{router_types},
    PortState.{port_states},
    QuerierState.{family as querier_family},
    StpState.{stp_states},
    VlanInfoFlags.{vlan_info_flag_bits},
    VlanProtocol.{vlan_protocols},
    VlanTunnel.{family as tunnel_family},
  },
};

use crate::af_spec_bridge::AfSpecBridge;
use crate::boolean_options::{BridgeBooleanOptionFlags, BridgeBooleanOptions};
use crate::bridge::InfoBridge;
use crate::bridge_flag::BridgeFlag;
use crate::bridge_id::BridgeId;
use crate::bridge_mode::BridgeMode;
use crate::bridge_port::InfoBridgePort;
use crate::mst::BridgeMst;
use crate::mst_entry::BridgeMstEntry;
use crate::multicast_router::BridgeMulticastRouterType;
use crate::port_state::BridgePortState;
use crate::querier_state::BridgeQuerierState;
use crate::stp_state::BridgeStpState;
use crate::vlan_info::BridgeVlanInfo;
use crate::vlan_info_flags::BridgeVlanInfoFlags;
use crate::vlan_protocol::VlanProtocol;
use crate::vlan_tunnel::BridgeVlanTunnelInfo;

/// What a number reads as is written as that number.
pub fn law_numbers()
    ensures bridge_flags { (d : ℕ) → bridge_flags.number (bridge_flags.of d) ≡ d }
    ensures bridge_modes { (d : ℕ) → bridge_modes.number (bridge_modes.of d) ≡ d }
    ensures router_types { (d : ℕ) → router_types.number (router_types.of d) ≡ d }
    ensures port_states { (d : ℕ) → port_states.number (port_states.of d) ≡ d }
    ensures stp_states { (d : ℕ) → stp_states.number (stp_states.of d) ≡ d }
    ensures vlan_protocols { (d : ℕ) → vlan_protocols.number (vlan_protocols.of d) ≡ d }
{}

/// `Auto` is another name of a type.
pub fn law_router_types()
    ensures { BridgeMulticastRouterType.Auto ≡ BridgeMulticastRouterType.TempQuery }
{}

/// The named flags, by their bits (`linux/if_bridge.h`).
pub fn law_flags()
    ensures boolean_options { agrees boolean_option_bits.number ((2 ^ 0, BridgeBooleanOptionFlags.NoLinkLocalLearn)
        ∷ (2 ^ 1, BridgeBooleanOptionFlags.VlanMulticastSnooping) ∷ (2 ^ 2, BridgeBooleanOptionFlags.MstEnable)
        ∷ (2 ^ 3, BridgeBooleanOptionFlags.MdbOffloadFailNotif) ∷ (2 ^ 4, BridgeBooleanOptionFlags.FdbLocalVlan0) ∷ []) ≡ true }
    ensures vlan_info { agrees vlan_info_flag_bits.number ((2 ^ 0, BridgeVlanInfoFlags.Controller) ∷ (2 ^ 1, BridgeVlanInfoFlags.Pvid)
        ∷ (2 ^ 2, BridgeVlanInfoFlags.Untagged) ∷ (2 ^ 3, BridgeVlanInfoFlags.RangeBegin) ∷ (2 ^ 4, BridgeVlanInfoFlags.RangeEnd)
        ∷ (2 ^ 5, BridgeVlanInfoFlags.Brentry) ∷ (2 ^ 6, BridgeVlanInfoFlags.OnlyOpts) ∷ []) ≡ true }
{}

/// Which value is the default.
pub fn law_default()
    ensures vlan_protocol { (x : VlanProtocol) → ⟦<VlanProtocol as Default>⟧.is_default x → x ≡ VlanProtocol.Ieee8021Q }
    ensures boolean_option_flags { (x : BridgeBooleanOptionFlags) → ⟦<BridgeBooleanOptionFlags as Default>⟧.is_default x → x ≡ boolean_option_bits.of 0 }
    ensures boolean_options { (x : BridgeBooleanOptions) → ⟦<BridgeBooleanOptions as Default>⟧.is_default x → x ≡ record { value = boolean_option_bits.of 0; mask = boolean_option_bits.of 0 } }
    ensures bridge_id { (x : BridgeId) → ⟦<BridgeId as Default>⟧.is_default x → x ≡ record { priority = 0; address = 0 ∷ 0 ∷ 0 ∷ 0 ∷ 0 ∷ 0 ∷ [] } }
    ensures vlan_info_flags { (x : BridgeVlanInfoFlags) → ⟦<BridgeVlanInfoFlags as Default>⟧.is_default x → x ≡ vlan_info_flag_bits.of 0 }
    ensures vlan_info { (x : BridgeVlanInfo) → ⟦<BridgeVlanInfo as Default>⟧.is_default x → x ≡ record { flags = vlan_info_flag_bits.of 0; vid = 0 } }
{}

/// `==` answers whether two values are equal.
pub fn law_equality()
    ensures bridge_flag { IsEquality ⟦<BridgeFlag as PartialEq>⟧.eq }
    ensures bridge_mode { IsEquality ⟦<BridgeMode as PartialEq>⟧.eq }
    ensures router_type { IsEquality ⟦<BridgeMulticastRouterType as PartialEq>⟧.eq }
    ensures port_state { IsEquality ⟦<BridgePortState as PartialEq>⟧.eq }
    ensures stp_state { IsEquality ⟦<BridgeStpState as PartialEq>⟧.eq }
    ensures vlan_protocol { IsEquality ⟦<VlanProtocol as PartialEq>⟧.eq }
    ensures boolean_option_flags { IsEquality ⟦<BridgeBooleanOptionFlags as PartialEq>⟧.eq }
    ensures boolean_options { IsEquality ⟦<BridgeBooleanOptions as PartialEq>⟧.eq }
    ensures bridge_id { IsEquality ⟦<BridgeId as PartialEq>⟧.eq }
    ensures vlan_info_flags { IsEquality ⟦<BridgeVlanInfoFlags as PartialEq>⟧.eq }
    ensures vlan_info { IsEquality ⟦<BridgeVlanInfo as PartialEq>⟧.eq }
{}

/// `==` answers whether two values mean the same, where they hold a vector.
pub fn law_equality_of_meanings()
    ensures querier { IsEqualityOf querier_family.meaning ⟦<BridgeQuerierState as PartialEq>⟧.eq }
    ensures bridge { IsEqualityOf bridge_family.meaning ⟦<InfoBridge as PartialEq>⟧.eq }
    ensures bridge_port { IsEqualityOf bridge_port_family.meaning ⟦<InfoBridgePort as PartialEq>⟧.eq }
    ensures vlan_tunnel { IsEqualityOf tunnel_family.meaning ⟦<BridgeVlanTunnelInfo as PartialEq>⟧.eq }
    ensures mst_entry { IsEqualityOf mst_entry_family.meaning ⟦<BridgeMstEntry as PartialEq>⟧.eq }
    ensures mst { IsEqualityOf mst_family.meaning ⟦<BridgeMst as PartialEq>⟧.eq }
    ensures af_spec { IsEqualityOf af_spec_family.meaning ⟦<AfSpecBridge as PartialEq>⟧.eq }
{}
