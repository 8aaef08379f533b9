//! The data of a port of a bridge: `IFLA_BRPORT_*` of `linux/if_link.h`.

ghost use Rattle.std.specs.Prelude.{◌≢◌, IfOk, IfErr};
ghost use Rattle.{npr_base.specs.{declared.refusal.DecodeError.TheVariants.{OutOfMemory}, RowReading.{reads_at, wrong_at}, Tables.{shape_by, shape-by}}, npr_link_bridge.specs.BridgePort.{table, attributes, family}};

use crate::bridge_id::BridgeId;
use crate::multicast_router::BridgeMulticastRouterType;
use crate::port_state::BridgePortState;
use npr_base::{
    At, Attribute, DecodeError, DefaultNla, EmitError, Form, Looks, Nla, NlaBuffer, Place, Rowed,
};
use std::alloc::{AllocError, Global};

/// The data of a port of a bridge. Times are in hundredths of a second.
#[derive(Debug, Drop, PartialEq, Eq)]
pub enum InfoBridgePort {
    /// `IFLA_BRPORT_STATE`: its state in the tree.
    State(BridgePortState),
    /// `IFLA_BRPORT_PRIORITY`: the priority.
    Priority(u16),
    /// `IFLA_BRPORT_COST`: what the way through it costs.
    Cost(u32),
    /// `IFLA_BRPORT_MODE`: whether a packet may go back where it came from.
    HairpinMode(bool),
    /// `IFLA_BRPORT_GUARD`: whether other bridges are shut out.
    Guard(bool),
    /// `IFLA_BRPORT_PROTECT`: whether it may not become the port to the root.
    Protect(bool),
    /// `IFLA_BRPORT_FAST_LEAVE`: whether a group is left at once.
    FastLeave(bool),
    /// `IFLA_BRPORT_LEARNING`: whether addresses are learned.
    Learning(bool),
    /// `IFLA_BRPORT_UNICAST_FLOOD`: whether packets to unknown addresses go out.
    UnicastFlood(bool),
    /// `IFLA_BRPORT_PROXYARP`: whether the bridge answers for those behind it.
    ProxyARP(bool),
    /// `IFLA_BRPORT_LEARNING_SYNC`: whether addresses that the device learned are taken over.
    LearningSync(bool),
    /// `IFLA_BRPORT_PROXYARP_WIFI`: whether it answers for stations too.
    ProxyARPWifi(bool),
    /// `IFLA_BRPORT_ROOT_ID`: the root of the tree.
    RootId(BridgeId),
    /// `IFLA_BRPORT_BRIDGE_ID`: the bridge that goes before it.
    BridgeId(BridgeId),
    /// `IFLA_BRPORT_DESIGNATED_PORT`: the port of that bridge.
    DesignatedPort(u16),
    /// `IFLA_BRPORT_DESIGNATED_COST`: what the way from there to the root costs.
    DesignatedCost(u16),
    /// `IFLA_BRPORT_ID`: the id, with the priority.
    PortId(u16),
    /// `IFLA_BRPORT_NO`: the number.
    PortNumber(u16),
    /// `IFLA_BRPORT_TOPOLOGY_CHANGE_ACK`: whether a change is to be answered.
    TopologyChangeAck(bool),
    /// `IFLA_BRPORT_CONFIG_PENDING`: whether it is to tell of the bridge.
    ConfigPending(bool),
    /// `IFLA_BRPORT_MESSAGE_AGE_TIMER`: when what it was told is too old.
    MessageAgeTimer(u64),
    /// `IFLA_BRPORT_FORWARD_DELAY_TIMER`: when its state goes on.
    ForwardDelayTimer(u64),
    /// `IFLA_BRPORT_HOLD_TIMER`: when it may tell again.
    HoldTimer(u64),
    /// `IFLA_BRPORT_FLUSH`: forget its addresses.
    Flush,
    /// `IFLA_BRPORT_MULTICAST_ROUTER`: whether a multicast router is behind it.
    MulticastRouter(BridgeMulticastRouterType),
    /// `IFLA_BRPORT_MCAST_FLOOD`: whether packets to unknown groups go out.
    MulticastFlood(bool),
    /// `IFLA_BRPORT_MCAST_TO_UCAST`: whether each member gets a packet of its own.
    MulticastToUnicast(bool),
    /// `IFLA_BRPORT_VLAN_TUNNEL`: whether VLANs go into tunnels.
    VlanTunnel(bool),
    /// `IFLA_BRPORT_BCAST_FLOOD`: whether broadcast packets go out.
    BroadcastFlood(bool),
    /// `IFLA_BRPORT_GROUP_FWD_MASK`: which link-local groups are forwarded, a bit each.
    GroupFwdMask(u16),
    /// `IFLA_BRPORT_NEIGH_SUPPRESS`: whether questions for neighbours are held back.
    NeighSupress(bool),
    /// `IFLA_BRPORT_ISOLATED`: whether it reaches no other such port.
    Isolated(bool),
    /// `IFLA_BRPORT_BACKUP_PORT`: the index of a port that is taken where it is down.
    BackupPort(u32),
    /// `IFLA_BRPORT_MRP_RING_OPEN`: whether its ring is open.
    MrpRingOpen(bool),
    /// `IFLA_BRPORT_MRP_IN_OPEN`: whether its ring of rings is open.
    MrpInOpen(bool),
    /// `IFLA_BRPORT_MCAST_EHT_HOSTS_LIMIT`: how many hosts are followed at most.
    MulticastEhtHostsLimit(u32),
    /// `IFLA_BRPORT_MCAST_EHT_HOSTS_CNT`: how many are.
    MulticastEhtHostsCnt(u32),
    /// `IFLA_BRPORT_LOCKED`: whether only known addresses may send.
    Locked(bool),
    /// `IFLA_BRPORT_MAB`: whether an unknown address is learned as locked.
    Mab(bool),
    /// `IFLA_BRPORT_MCAST_N_GROUPS`: how many groups it is in.
    MulticastNGroups(u32),
    /// `IFLA_BRPORT_MCAST_MAX_GROUPS`: how many it may be in.
    MulticastMaxGroups(u32),
    /// `IFLA_BRPORT_NEIGH_VLAN_SUPPRESS`: whether they are held back by VLAN.
    NeighVlanSupress(bool),
    /// `IFLA_BRPORT_BACKUP_NHID`: the id of a next hop for the port that is taken instead.
    BackupNextHopId(u32),
    /// `IFLA_BRPORT_NEIGH_FORWARD_GRAT`: whether news of neighbours that nobody asked for go out.
    NeighForwardGrat(bool),
    /// An attribute of another number, as it stands.
    Other(DefaultNla),
}

/// The rows of the table.
macro_rules! rows {
    ($body:ident ($($given:tt)*)) => {
        npr_base::$body!(($($given)*) InfoBridgePort of InfoBridgePort {
            1 State(BridgePortState as byte);
            2 Priority(le16);
            3 Cost(le32);
            4 HairpinMode(boolean);
            5 Guard(boolean);
            6 Protect(boolean);
            7 FastLeave(boolean);
            8 Learning(boolean);
            9 UnicastFlood(boolean);
            10 ProxyARP(boolean);
            11 LearningSync(boolean);
            12 ProxyARPWifi(boolean);
            13 RootId(BridgeId leading 8);
            14 BridgeId(BridgeId leading 8);
            15 DesignatedPort(le16);
            16 DesignatedCost(le16);
            17 PortId(le16);
            18 PortNumber(le16);
            19 TopologyChangeAck(boolean);
            20 ConfigPending(boolean);
            21 MessageAgeTimer(le64);
            22 ForwardDelayTimer(le64);
            23 HoldTimer(le64);
            24 Flush;
            25 MulticastRouter(BridgeMulticastRouterType as byte);
            27 MulticastFlood(boolean);
            28 MulticastToUnicast(boolean);
            29 VlanTunnel(boolean);
            30 BroadcastFlood(boolean);
            31 GroupFwdMask(le16);
            32 NeighSupress(boolean);
            33 Isolated(boolean);
            34 BackupPort(le32);
            35 MrpRingOpen(boolean);
            36 MrpInOpen(boolean);
            37 MulticastEhtHostsLimit(le32);
            38 MulticastEhtHostsCnt(le32);
            39 Locked(boolean);
            40 Mab(boolean);
            41 MulticastNGroups(le32);
            42 MulticastMaxGroups(le32);
            43 NeighVlanSupress(boolean);
            44 BackupNextHopId(le32);
            45 NeighForwardGrat(boolean);
        })
    };
}

impl Nla for InfoBridgePort {
    ghost shape = { shape_by table };

    fn kind(&self) -> u16 {
        rows!(kind_rows(self))
    }

    fn is_nested(&self) -> bool {
        false
    }

    fn check_value(&self) -> Result<usize, EmitError> {
        Ok(rows!(len_rows(self)))
    }

    fn write_value(&self, out: &mut [u8]) -> usize {
        rows!(write_rows(self, out))
    }
}

impl Rowed for InfoBridgePort {
    ghost reads = { reads_at table };

    ghost wrong = { wrong_at table };
}

/// Puts an attribute; none has others inside.
///
/// # Errors
/// `OutOfMemory` where memory is refused, and else what is wrong with the value.
#[tactic(auto, unfolding(crate::specs::BridgePort::attributes))]
fn put_flat<P: Place<InfoBridgePort>>(
    place: &mut P,
    alloc: Global,
    item: &NlaBuffer<'_>,
) -> Result<(), DecodeError>
    requires { P.ready place.old }
    ensures ok { IfOk result (λ _. (a : InfoBridgePort) × P.puts place.old a place.new × attributes.Reads item.now (family.meaning a)) }
    ensures refused { IfErr result (λ e. e ≢ OutOfMemory → attributes.Faulty item.now e) }
{
    rows!(flat_rows(place, alloc, item))
}

impl Attribute for InfoBridgePort {
    type Context = ();

    ghost family = { family };

    ghost shape_is = { shape-by table };

    #[tactic(auto, using(crate::specs::BridgePort::no_looks))]
    fn read_into<P: Place<Self>>(
        place: &mut P,
        alloc: Global,
        _context: (),
        item: &NlaBuffer<'_>,
        looks: &mut Looks,
    ) -> Result<(), DecodeError> {
        put_flat(place, alloc, item)
    }

    #[tactic(auto, unfolding(crate::specs::BridgePort::attributes))]
    fn form(_context: (), number: u16) -> (At, Form) {
        rows!(form_rows(number))
    }

    fn try_clone(&self, alloc: Global) -> Result<Self, AllocError> {
        rows!(clone_rows(self, alloc))
    }
}
