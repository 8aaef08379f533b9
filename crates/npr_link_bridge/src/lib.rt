//! What link messages say of bridges and of their ports.
#![tactic(auto)]

mod af_spec_bridge;
mod boolean_options;
mod bridge;
mod bridge_flag;
mod bridge_id;
mod bridge_mode;
mod bridge_port;
pub mod laws;
mod mst;
mod mst_entry;
mod multicast_router;
mod port_state;
mod querier_state;
mod stp_state;
mod vlan_info;
mod vlan_info_flags;
mod vlan_protocol;
mod vlan_tunnel;

pub use af_spec_bridge::AfSpecBridge;
pub use boolean_options::{BridgeBooleanOptionFlags, BridgeBooleanOptions};
pub use bridge::InfoBridge;
pub use bridge_flag::BridgeFlag;
pub use bridge_id::{BridgeId, BridgeIdBuffer};
pub use bridge_mode::BridgeMode;
pub use bridge_port::InfoBridgePort;
pub use mst::BridgeMst;
pub use mst_entry::BridgeMstEntry;
pub use multicast_router::BridgeMulticastRouterType;
pub use port_state::BridgePortState;
pub use querier_state::BridgeQuerierState;
pub use stp_state::BridgeStpState;
pub use vlan_info::BridgeVlanInfo;
pub use vlan_info_flags::BridgeVlanInfoFlags;
pub use vlan_protocol::{VlanProtocol, vlan_protocol_number};
pub use vlan_tunnel::BridgeVlanTunnelInfo;
