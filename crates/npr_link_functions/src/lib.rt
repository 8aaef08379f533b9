//! What a link says of its virtual functions and ports: `IFLA_VFINFO_LIST` and `IFLA_VF_PORTS` of `linux/if_link.h`.
#![tactic(auto)]

pub mod laws;
mod link_state;
mod link_vf_info;
mod link_vf_port;
mod vf_broadcast;
mod vf_guid;
mod vf_info;
mod vf_link_state;
mod vf_mac;
mod vf_port;
mod vf_rate;
mod vf_setting;
mod vf_stats;
mod vf_tx_rate;
mod vf_vlan;
mod vf_vlan_info;
mod vf_vlan_list;

pub use link_state::VfLinkState;
pub use link_vf_info::LinkVfInfo;
pub use link_vf_port::LinkVfPort;
pub use vf_broadcast::{VfInfoBroadcast, VfInfoBroadcastBuffer};
pub use vf_guid::{VfInfoGuid, VfInfoGuidBuffer};
pub use vf_info::VfInfo;
pub use vf_link_state::{VfInfoLinkState, VfInfoLinkStateBuffer};
pub use vf_mac::{VfInfoMac, VfInfoMacBuffer};
pub use vf_port::VfPort;
pub use vf_rate::{VfInfoRate, VfInfoRateBuffer};
pub use vf_setting::{
    VfInfoRssQueryEn, VfInfoRssQueryEnBuffer, VfInfoSetting, VfInfoSpoofCheck,
    VfInfoSpoofCheckBuffer, VfInfoTrust, VfInfoTrustBuffer,
};
pub use vf_stats::VfStats;
pub use vf_tx_rate::{VfInfoTxRate, VfInfoTxRateBuffer};
pub use vf_vlan::{VfInfoVlan, VfInfoVlanBuffer};
pub use vf_vlan_info::{VfVlanInfo, VfVlanInfoBuffer};
pub use vf_vlan_list::VfVlan;
