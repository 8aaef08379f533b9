//! The laws of messages of statistics, over their definitions alone. Each function does nothing, and its
//! contract is the law.

ghost use Rattle.std.specs.Prelude.{◌≡◌};
ghost use Rattle.{
  npr_base.specs.{Equality.{IsEquality, IsEqualityOf}, Message.{view}},
  npr_link_statistics.specs.Grown.{parts},
  npr_stats.specs.{
    AfSpec.{family as af_spec_family},
    Attribute.{family},
    BondAdStat.{family as bond_ad_stat_family},
    BondXstats.{family as bond_xstats_family},
    BridgeMulticastStats.{bridge_multicast_stats},
    BridgeXstats.{family as bridge_xstats_family},
    Header.{default_header},
    LinkXstats.{family as link_xstats_family},
    Message.{stats_messages},
    MplsStats.{family as mpls_stats_family},
    OffloadHwInfo.{family as offload_hw_info_family},
    OffloadHwState.{family as offload_hw_state_family},
    OffloadXstats.{family as offload_xstats_family},
  },
};

use crate::af_spec::StatsAfSpec;
use crate::attribute::StatsAttribute;
use crate::bond_ad_stat::BondAdStat;
use crate::bond_xstats::BondXstats;
use crate::bridge_multicast_stats::BridgeMulticastStats;
use crate::bridge_stp_xstats::BridgeStpXstats;
use crate::bridge_vlan_xstats::BridgeVlanXstats;
use crate::bridge_xstats::BridgeXstats;
use crate::header::{StatsHeader, StatsMessage, StatsMessageBuffer};
use crate::hw_stats64::HwStats64;
use crate::link_xstats::LinkXstats;
use crate::mpls_link_stats::MplsLinkStats;
use crate::mpls_stats::MplsStats;
use crate::offload_hw_info::OffloadHwInfo;
use crate::offload_hw_state::OffloadHwState;
use crate::offload_xstats::OffloadXstats;

/// Which value is the default: each number is 0.
pub fn law_default()
    ensures header { (x : StatsHeader) → ⟦<StatsHeader as Default>⟧.is_default x → x ≡ default_header }
    ensures bridge_vlan_xstats { (x : BridgeVlanXstats) → ⟦<BridgeVlanXstats as Default>⟧.is_default x
        → x ≡ record { rx_bytes = 0; rx_packets = 0; tx_bytes = 0; tx_packets = 0; vid = 0; flags = 0 } }
    ensures bridge_stp_xstats { (x : BridgeStpXstats) → ⟦<BridgeStpXstats as Default>⟧.is_default x
        → x ≡ record { transition_blk = 0; transition_fwd = 0; rx_bpdu = 0; tx_bpdu = 0; rx_tcn = 0; tx_tcn = 0 } }
    ensures hw_stats64 { (x : HwStats64) → ⟦<HwStats64 as Default>⟧.is_default x
        → x ≡ record { rx_packets = 0; tx_packets = 0; rx_bytes = 0; tx_bytes = 0; rx_errors = 0; tx_errors = 0; rx_dropped = 0; tx_dropped = 0; multicast = 0 } }
    ensures mpls_link_stats { (x : MplsLinkStats) → ⟦<MplsLinkStats as Default>⟧.is_default x
        → x ≡ record { rx_packets = 0; tx_packets = 0; rx_bytes = 0; tx_bytes = 0; rx_errors = 0; tx_errors = 0; rx_dropped = 0; tx_dropped = 0; rx_noroute = 0 } }
{}

/// `==` of the header, its layout and structures answers whether two values are equal.
pub fn law_equality()
    ensures header { IsEquality ⟦<StatsHeader as PartialEq>⟧.eq }
    ensures header_buffer { IsEquality ⟦<StatsMessageBuffer as PartialEq>⟧.eq }
    ensures bridge_vlan_xstats { IsEquality ⟦<BridgeVlanXstats as PartialEq>⟧.eq }
    ensures bridge_stp_xstats { IsEquality ⟦<BridgeStpXstats as PartialEq>⟧.eq }
    ensures hw_stats64 { IsEquality ⟦<HwStats64 as PartialEq>⟧.eq }
    ensures mpls_link_stats { IsEquality ⟦<MplsLinkStats as PartialEq>⟧.eq }
{}

/// `==` answers whether two values mean the same, where they hold a vector.
pub fn law_equality_of_meanings()
    ensures attribute { IsEqualityOf family.meaning ⟦<StatsAttribute as PartialEq>⟧.eq }
    ensures link_xstats { IsEqualityOf link_xstats_family.meaning ⟦<LinkXstats as PartialEq>⟧.eq }
    ensures bridge_xstats { IsEqualityOf bridge_xstats_family.meaning ⟦<BridgeXstats as PartialEq>⟧.eq }
    ensures bond_xstats { IsEqualityOf bond_xstats_family.meaning ⟦<BondXstats as PartialEq>⟧.eq }
    ensures bond_ad_stat { IsEqualityOf bond_ad_stat_family.meaning ⟦<BondAdStat as PartialEq>⟧.eq }
    ensures offload_xstats { IsEqualityOf offload_xstats_family.meaning ⟦<OffloadXstats as PartialEq>⟧.eq }
    ensures offload_hw_info { IsEqualityOf offload_hw_info_family.meaning ⟦<OffloadHwInfo as PartialEq>⟧.eq }
    ensures offload_hw_state { IsEqualityOf offload_hw_state_family.meaning ⟦<OffloadHwState as PartialEq>⟧.eq }
    ensures af_spec { IsEqualityOf af_spec_family.meaning ⟦<StatsAfSpec as PartialEq>⟧.eq }
    ensures mpls_stats { IsEqualityOf mpls_stats_family.meaning ⟦<MplsStats as PartialEq>⟧.eq }
    ensures bridge_multicast_stats { IsEqualityOf (parts bridge_multicast_stats) ⟦<BridgeMulticastStats as PartialEq>⟧.eq }
    ensures message { IsEqualityOf (view stats_messages) ⟦<StatsMessage as PartialEq>⟧.eq }
{}
