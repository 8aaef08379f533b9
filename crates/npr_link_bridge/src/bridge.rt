//! The data of a bridge: `IFLA_BR_*` of `linux/if_link.h`.

ghost use Rattle.std.specs.Prelude.{◌≢◌, IfOk, IfErr};
ghost use Rattle.{npr_base.specs.{declared.refusal.DecodeError.TheVariants.{OutOfMemory}, Framing.{number_of}, RowReading.{reads_at, wrong_at}, Tables.{shape_by, shape-by}}, npr_link_bridge.specs.Bridge.{table, attributes, family}};

use crate::boolean_options::BridgeBooleanOptions;
use crate::bridge_id::BridgeId;
use crate::multicast_router::BridgeMulticastRouterType;
use crate::querier_state::BridgeQuerierState;
use crate::stp_state::BridgeStpState;
use crate::vlan_protocol::{VlanProtocol, vlan_protocol_number};
use npr_base::{
    At, Attribute, DecodeError, DefaultNla, EmitError, Form, Looks, NLA_F_NESTED, Nla, NlaBuffer,
    Place, Rowed, parse_list, put_read,
};
use std::alloc::{AllocError, Global};

/// The data of a bridge. Times are in hundredths of a second.
#[derive(Debug, Drop, PartialEq, Eq)]
pub enum InfoBridge {
    /// `IFLA_BR_FORWARD_DELAY`: how long a port listens and learns.
    ForwardDelay(u32),
    /// `IFLA_BR_HELLO_TIME`: how often it tells of itself.
    HelloTime(u32),
    /// `IFLA_BR_MAX_AGE`: how long what another bridge told is believed.
    MaxAge(u32),
    /// `IFLA_BR_AGEING_TIME`: how long an address is remembered.
    AgeingTime(u32),
    /// `IFLA_BR_STP_STATE`: who runs the spanning tree.
    StpState(BridgeStpState),
    /// `IFLA_BR_PRIORITY`: the priority.
    Priority(u16),
    /// `IFLA_BR_VLAN_FILTERING`: whether VLANs are told apart.
    VlanFiltering(bool),
    /// `IFLA_BR_VLAN_PROTOCOL`: the protocol of their tags.
    VlanProtocol(VlanProtocol),
    /// `IFLA_BR_GROUP_FWD_MASK`: which link-local groups are forwarded, a bit each.
    GroupFwdMask(u16),
    /// `IFLA_BR_ROOT_ID`: the root of the tree.
    RootId(BridgeId),
    /// `IFLA_BR_BRIDGE_ID`: the bridge itself.
    BridgeId(BridgeId),
    /// `IFLA_BR_ROOT_PORT`: the port to the root.
    RootPort(u16),
    /// `IFLA_BR_ROOT_PATH_COST`: what the way to the root costs.
    RootPathCost(u32),
    /// `IFLA_BR_TOPOLOGY_CHANGE`: whether the tree changes.
    TopologyChange(u8),
    /// `IFLA_BR_TOPOLOGY_CHANGE_DETECTED`: whether it saw a change.
    TopologyChangeDetected(u8),
    /// `IFLA_BR_HELLO_TIMER`: when it tells of itself again.
    HelloTimer(u64),
    /// `IFLA_BR_TCN_TIMER`: when it tells of a change again.
    TcnTimer(u64),
    /// `IFLA_BR_TOPOLOGY_CHANGE_TIMER`: when the change ends.
    TopologyChangeTimer(u64),
    /// `IFLA_BR_GC_TIMER`: when addresses are forgotten.
    GcTimer(u64),
    /// `IFLA_BR_GROUP_ADDR`: the address that it tells of itself at.
    GroupAddr([u8; 6]),
    /// `IFLA_BR_FDB_FLUSH`: forget the addresses.
    FdbFlush,
    /// `IFLA_BR_MCAST_ROUTER`: whether it is a multicast router.
    MulticastRouter(BridgeMulticastRouterType),
    /// `IFLA_BR_MCAST_SNOOPING`: whether it follows multicast groups.
    MulticastSnooping(bool),
    /// `IFLA_BR_MCAST_QUERY_USE_IFADDR`: whether it asks from its own address.
    MulticastQueryUseIfaddr(bool),
    /// `IFLA_BR_MCAST_QUERIER`: whether it asks for groups.
    MulticastQuerier(bool),
    /// `IFLA_BR_MCAST_HASH_ELASTICITY`: how far the table of groups may be out of balance.
    MulticastHashElasticity(u32),
    /// `IFLA_BR_MCAST_HASH_MAX`: how many groups there may be.
    MulticastHashMax(u32),
    /// `IFLA_BR_MCAST_LAST_MEMBER_CNT`: how often it asks after one has left.
    MulticastLastMemberCount(u32),
    /// `IFLA_BR_MCAST_STARTUP_QUERY_CNT`: how often it asks at the start.
    MulticastStartupQueryCount(u32),
    /// `IFLA_BR_MCAST_LAST_MEMBER_INTVL`: between questions after one has left.
    MulticastLastMemberInterval(u64),
    /// `IFLA_BR_MCAST_MEMBERSHIP_INTVL`: how long a member is believed.
    MulticastMembershipInterval(u64),
    /// `IFLA_BR_MCAST_QUERIER_INTVL`: how long another that asks is believed.
    MulticastQuerierInterval(u64),
    /// `IFLA_BR_MCAST_QUERY_INTVL`: between questions.
    MulticastQueryInterval(u64),
    /// `IFLA_BR_MCAST_QUERY_RESPONSE_INTVL`: how long an answer may take.
    MulticastQueryResponseInterval(u64),
    /// `IFLA_BR_MCAST_STARTUP_QUERY_INTVL`: between questions at the start.
    MulticastStartupQueryInterval(u64),
    /// `IFLA_BR_NF_CALL_IPTABLES`: whether packets pass iptables.
    NfCallIpTables(bool),
    /// `IFLA_BR_NF_CALL_IP6TABLES`: whether packets pass ip6tables.
    NfCallIp6Tables(bool),
    /// `IFLA_BR_NF_CALL_ARPTABLES`: whether packets pass arptables.
    NfCallArpTables(bool),
    /// `IFLA_BR_VLAN_DEFAULT_PVID`: the VLAN of packets without a tag.
    VlanDefaultPvid(u16),
    /// `IFLA_BR_VLAN_STATS_ENABLED`: whether each VLAN is counted.
    VlanStatsEnabled(bool),
    /// `IFLA_BR_MCAST_STATS_ENABLED`: whether multicast is counted.
    MulticastStatsEnabled(bool),
    /// `IFLA_BR_MCAST_IGMP_VERSION`: the version of IGMP.
    MulticastIgmpVersion(u8),
    /// `IFLA_BR_MCAST_MLD_VERSION`: the version of MLD.
    MulticastMldVersion(u8),
    /// `IFLA_BR_VLAN_STATS_PER_PORT`: whether each VLAN of a port is counted.
    VlanStatsPerPort(bool),
    /// `IFLA_BR_MULTI_BOOLOPT`: options of a bit.
    MultiBoolOpt(BridgeBooleanOptions),
    /// `IFLA_BR_MCAST_QUERIER_STATE`: who asks for groups.
    MulticastQuerierState(Vec<BridgeQuerierState>),
    /// `IFLA_BR_FDB_N_LEARNED`: how many addresses it has learned.
    FdbNLearned(u32),
    /// `IFLA_BR_FDB_MAX_LEARNED`: how many it may learn.
    FdbMaxLearned(u32),
    /// `IFLA_BR_STP_MODE`: by what the spanning tree is run.
    StpMode(u32),
    /// An attribute of another number, as it stands.
    Other(DefaultNla),
}

/// The number of who asks for groups, `IFLA_BR_MCAST_QUERIER_STATE`.
const IFLA_BR_MCAST_QUERIER_STATE: u16 = 47;

/// The rows of the table.
macro_rules! rows {
    ($body:ident ($($given:tt)*)) => {
        npr_base::$body!(($($given)*) InfoBridge of InfoBridge {
            1 ForwardDelay(le32);
            2 HelloTime(le32);
            3 MaxAge(le32);
            4 AgeingTime(le32);
            5 StpState(BridgeStpState as le32);
            6 Priority(le16);
            7 VlanFiltering(boolean);
            8 VlanProtocol(VlanProtocol as be16 by vlan_protocol_number);
            9 GroupFwdMask(le16);
            10 RootId(BridgeId leading 8);
            11 BridgeId(BridgeId leading 8);
            12 RootPort(le16);
            13 RootPathCost(le32);
            14 TopologyChange(byte);
            15 TopologyChangeDetected(byte);
            16 HelloTimer(le64);
            17 TcnTimer(le64);
            18 TopologyChangeTimer(le64);
            19 GcTimer(le64);
            20 GroupAddr(octets 6);
            21 FdbFlush;
            22 MulticastRouter(BridgeMulticastRouterType as byte);
            23 MulticastSnooping(boolean);
            24 MulticastQueryUseIfaddr(boolean);
            25 MulticastQuerier(boolean);
            26 MulticastHashElasticity(le32);
            27 MulticastHashMax(le32);
            28 MulticastLastMemberCount(le32);
            29 MulticastStartupQueryCount(le32);
            30 MulticastLastMemberInterval(le64);
            31 MulticastMembershipInterval(le64);
            32 MulticastQuerierInterval(le64);
            33 MulticastQueryInterval(le64);
            34 MulticastQueryResponseInterval(le64);
            35 MulticastStartupQueryInterval(le64);
            36 NfCallIpTables(boolean);
            37 NfCallIp6Tables(boolean);
            38 NfCallArpTables(boolean);
            39 VlanDefaultPvid(le16);
            41 VlanStatsEnabled(boolean);
            42 MulticastStatsEnabled(boolean);
            43 MulticastIgmpVersion(byte);
            44 MulticastMldVersion(byte);
            45 VlanStatsPerPort(boolean);
            46 MultiBoolOpt(BridgeBooleanOptions exactly 8);
            47 MulticastQuerierState(list BridgeQuerierState) as NLA_F_NESTED + 47;
            48 FdbNLearned(le32);
            49 FdbMaxLearned(le32);
            50 StpMode(le32);
        })
    };
}

impl Nla for InfoBridge {
    ghost shape = { shape_by table };

    fn kind(&self) -> u16 {
        rows!(kind_rows(self))
    }

    fn is_nested(&self) -> bool {
        false
    }

    fn check_value(&self) -> Result<usize, EmitError> {
        Ok(rows!(len_rows(self)))
    }

    fn write_value(&self, out: &mut [u8]) -> usize {
        rows!(write_rows(self, out))
    }
}

impl Rowed for InfoBridge {
    ghost reads = { reads_at table };

    ghost wrong = { wrong_at table };
}

/// Puts an attribute without others inside. Asks that its number is not that of a list.
///
/// # Errors
/// `OutOfMemory` where memory is refused, and else what is wrong with the value.
#[tactic(auto, unfolding(crate::specs::Bridge::attributes))]
fn put_flat<P: Place<InfoBridge>>(
    place: &mut P,
    alloc: Global,
    item: &NlaBuffer<'_>,
) -> Result<(), DecodeError>
    requires ready { P.ready place.old }
    requires flat { number_of (item.now).kind ≢ 47 }
    ensures ok { IfOk result (λ _. (a : InfoBridge) × P.puts place.old a place.new × attributes.Reads item.now (family.meaning a)) }
    ensures refused { IfErr result (λ e. e ≢ OutOfMemory → attributes.Faulty item.now e) }
{
    rows!(flat_rows(place, alloc, item))
}

impl Attribute for InfoBridge {
    type Context = ();

    ghost family = { family };

    ghost shape_is = { shape-by table };

    #[tactic(auto, using(crate::specs::Bridge::no_looks), unfolding(crate::specs::Bridge::attributes))]
    fn read_into<P: Place<Self>>(
        place: &mut P,
        alloc: Global,
        _context: (),
        item: &NlaBuffer<'_>,
        looks: &mut Looks,
    ) -> Result<(), DecodeError> {
        match item.kind() {
            IFLA_BR_MCAST_QUERIER_STATE => put_read(
                place,
                parse_list(alloc, (), item.value(), looks),
                InfoBridge::MulticastQuerierState,
            ),
            _ => put_flat(place, alloc, item),
        }
    }

    #[tactic(auto, unfolding(crate::specs::Bridge::attributes))]
    fn form(_context: (), number: u16) -> (At, Form) {
        rows!(form_rows(number))
    }

    fn try_clone(&self, alloc: Global) -> Result<Self, AllocError> {
        rows!(clone_rows(self, alloc))
    }
}
