//! What a link says of a virtual function: `IFLA_VF_*` of `linux/if_link.h`.

ghost use Rattle.std.specs.Prelude.{refl};
ghost use Rattle.{npr_base.specs.Family.{shaped}, npr_link_functions.specs.VfInfo.{family}};

use crate::vf_broadcast::VfInfoBroadcast;
use crate::vf_guid::VfInfoGuid;
use crate::vf_link_state::VfInfoLinkState;
use crate::vf_mac::VfInfoMac;
use crate::vf_rate::VfInfoRate;
use crate::vf_setting::{VfInfoRssQueryEn, VfInfoSpoofCheck, VfInfoTrust};
use crate::vf_stats::VfStats;
use crate::vf_tx_rate::VfInfoTxRate;
use crate::vf_vlan::VfInfoVlan;
use crate::vf_vlan_list::VfVlan;
use npr_base::{
    At, Attribute, DecodeError, DefaultNla, EmitError, Form, Looks, Nla, NlaBuffer, Place,
};
use std::alloc::{AllocError, Global};

/// What a link says of a virtual function.
#[derive(Debug, Drop, PartialEq, Eq)]
pub enum VfInfo {
    /// `IFLA_VF_MAC`: its address.
    Mac(VfInfoMac),
    /// `IFLA_VF_VLAN`: its VLAN.
    Vlan(VfInfoVlan),
    /// `IFLA_VF_TX_RATE`: how fast it may send.
    TxRate(VfInfoTxRate),
    /// `IFLA_VF_SPOOFCHK`: whether its source addresses are checked.
    SpoofCheck(VfInfoSpoofCheck),
    /// `IFLA_VF_LINK_STATE`: the state of its link.
    LinkState(VfInfoLinkState),
    /// `IFLA_VF_RATE`: between which rates it sends.
    Rate(VfInfoRate),
    /// `IFLA_VF_RSS_QUERY_EN`: whether it may ask how packets are spread over queues.
    RssQueryEn(VfInfoRssQueryEn),
    /// `IFLA_VF_STATS`: its counters.
    Stats(Vec<VfStats>),
    /// `IFLA_VF_TRUST`: whether it is trusted.
    Trust(VfInfoTrust),
    /// `IFLA_VF_IB_NODE_GUID`: the identifier of its node.
    IbNodeGuid(VfInfoGuid),
    /// `IFLA_VF_IB_PORT_GUID`: that of its port.
    IbPortGuid(VfInfoGuid),
    /// `IFLA_VF_VLAN_LIST`: its VLANs.
    VlanList(Vec<VfVlan>),
    /// `IFLA_VF_BROADCAST`: its broadcast address.
    Broadcast(VfInfoBroadcast),
    /// An attribute of another number, as it stands.
    Other(DefaultNla),
}

/// The rows of the table.
macro_rules! rows {
    ($body:ident ($($given:tt)*)) => {
        npr_base::$body!(($($given)*) VfInfo of VfInfo {
            1 Mac(VfInfoMac leading 36);
            2 Vlan(VfInfoVlan leading 12);
            3 TxRate(VfInfoTxRate leading 8);
            4 SpoofCheck(VfInfoSpoofCheck leading 8);
            5 LinkState(VfInfoLinkState leading 8);
            6 Rate(VfInfoRate leading 12);
            7 RssQueryEn(VfInfoRssQueryEn leading 8);
            8 Stats(list VfStats);
            9 Trust(VfInfoTrust leading 8);
            10 IbNodeGuid(VfInfoGuid leading 16);
            11 IbPortGuid(VfInfoGuid leading 16);
            12 VlanList(list VfVlan);
            13 Broadcast(VfInfoBroadcast leading 32);
        })
    };
}

impl Nla for VfInfo {
    ghost shape = { shaped family };

    fn kind(&self) -> u16 {
        rows!(kind_rows(self))
    }

    fn is_nested(&self) -> bool {
        false
    }

    fn check_value(&self) -> Result<usize, EmitError> {
        Ok(rows!(len_rows(self)))
    }

    fn write_value(&self, out: &mut [u8]) -> usize {
        rows!(write_rows(self, out))
    }
}

impl Attribute for VfInfo {
    type Context = ();

    ghost family = { family };

    ghost shape_is = { λ a. refl };

    #[tactic(auto, unfolding(crate::specs::VfInfo::attributes))]
    fn read_into<P: Place<Self>>(
        place: &mut P,
        alloc: Global,
        _context: (),
        item: &NlaBuffer<'_>,
        looks: &mut Looks,
    ) -> Result<(), DecodeError> {
        rows!(put_rows(place, alloc, item, looks))
    }

    #[tactic(auto, unfolding(crate::specs::VfInfo::attributes))]
    fn form(_context: (), number: u16) -> (At, Form) {
        rows!(form_rows(number))
    }

    fn try_clone(&self, alloc: Global) -> Result<Self, AllocError> {
        rows!(clone_rows(self, alloc))
    }
}
