//! The laws of what a link says of its virtual functions and ports, over their definitions alone. Each function does
//! nothing, and its contract is the law.

ghost use Rattle.std.specs.Prelude.{◌≡◌, ℕ};
ghost use Rattle.{
  npr_base.specs.Equality.{IsEquality, IsEqualityOf},
  npr_link_functions.specs.{
    LinkState.{vf_link_states},
    LinkVfInfo.{family as link_info_family},
    LinkVfPort.{family as link_port_family},
    VfInfo.{family as info_family},
    VfPort.{family as port_family},
    VfStats.{family as stats_family},
    VfVlanList.{family as vlan_list_family},
  },
};

use crate::link_state::VfLinkState;
use crate::link_vf_info::LinkVfInfo;
use crate::link_vf_port::LinkVfPort;
use crate::vf_broadcast::VfInfoBroadcast;
use crate::vf_guid::VfInfoGuid;
use crate::vf_info::VfInfo;
use crate::vf_link_state::VfInfoLinkState;
use crate::vf_mac::VfInfoMac;
use crate::vf_port::VfPort;
use crate::vf_rate::VfInfoRate;
use crate::vf_setting::VfInfoSetting;
use crate::vf_stats::VfStats;
use crate::vf_tx_rate::VfInfoTxRate;
use crate::vf_vlan::VfInfoVlan;
use crate::vf_vlan_info::VfVlanInfo;
use crate::vf_vlan_list::VfVlan;

/// What a number reads as is written as that number.
pub fn law_numbers()
    ensures states { (d : ℕ) → vf_link_states.number (vf_link_states.of d) ≡ d }
{}

/// Which value is the default.
pub fn law_default()
    ensures state { (x : VfLinkState) → ⟦<VfLinkState as Default>⟧.is_default x → x ≡ VfLinkState.Auto }
{}

/// `==` answers whether two values are equal.
pub fn law_equality()
    ensures state { IsEquality ⟦<VfLinkState as PartialEq>⟧.eq }
    ensures mac { IsEquality ⟦<VfInfoMac as PartialEq>⟧.eq }
    ensures broadcast { IsEquality ⟦<VfInfoBroadcast as PartialEq>⟧.eq }
    ensures vlan { IsEquality ⟦<VfInfoVlan as PartialEq>⟧.eq }
    ensures tx_rate { IsEquality ⟦<VfInfoTxRate as PartialEq>⟧.eq }
    ensures rate { IsEquality ⟦<VfInfoRate as PartialEq>⟧.eq }
    ensures setting { IsEquality ⟦<VfInfoSetting as PartialEq>⟧.eq }
    ensures link_state_of { IsEquality ⟦<VfInfoLinkState as PartialEq>⟧.eq }
    ensures guid { IsEquality ⟦<VfInfoGuid as PartialEq>⟧.eq }
    ensures vlan_info { IsEquality ⟦<VfVlanInfo as PartialEq>⟧.eq }
{}

/// `==` answers whether two values mean the same, where they hold a vector.
pub fn law_equality_of_meanings()
    ensures stats { IsEqualityOf stats_family.meaning ⟦<VfStats as PartialEq>⟧.eq }
    ensures vlan_list { IsEqualityOf vlan_list_family.meaning ⟦<VfVlan as PartialEq>⟧.eq }
    ensures info { IsEqualityOf info_family.meaning ⟦<VfInfo as PartialEq>⟧.eq }
    ensures link_info { IsEqualityOf link_info_family.meaning ⟦<LinkVfInfo as PartialEq>⟧.eq }
    ensures port { IsEqualityOf port_family.meaning ⟦<VfPort as PartialEq>⟧.eq }
    ensures link_port { IsEqualityOf link_port_family.meaning ⟦<LinkVfPort as PartialEq>⟧.eq }
{}
