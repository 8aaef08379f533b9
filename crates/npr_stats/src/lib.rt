//! Messages of statistics: what links, bridges, bonds, devices and address families count.
#![tactic(auto)]

mod af_spec;
mod attribute;
mod bond_ad_stat;
mod bond_xstats;
mod bridge_multicast_stats;
mod bridge_stp_xstats;
mod bridge_vlan_xstats;
mod bridge_xstats;
mod header;
mod hw_stats64;
pub mod laws;
mod link_xstats;
mod mpls_link_stats;
mod mpls_stats;
mod offload_hw_info;
mod offload_hw_state;
mod offload_xstats;

pub use af_spec::StatsAfSpec;
pub use attribute::StatsAttribute;
pub use bond_ad_stat::BondAdStat;
pub use bond_xstats::BondXstats;
pub use bridge_multicast_stats::BridgeMulticastStats;
pub use bridge_stp_xstats::BridgeStpXstats;
pub use bridge_vlan_xstats::BridgeVlanXstats;
pub use bridge_xstats::BridgeXstats;
pub use header::{StatsHeader, StatsMessage, StatsMessageBuffer};
pub use hw_stats64::HwStats64;
pub use link_xstats::LinkXstats;
pub use mpls_link_stats::MplsLinkStats;
pub use mpls_stats::MplsStats;
pub use offload_hw_info::OffloadHwInfo;
pub use offload_hw_state::OffloadHwState;
pub use offload_xstats::OffloadXstats;
