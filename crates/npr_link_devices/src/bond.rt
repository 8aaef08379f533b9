//! The data of a bond: `IFLA_BOND_*` of `linux/if_link.h`.

ghost use Rattle.std.specs.Prelude.{◌≡◌, ◌≢◌, ◌⊎◌, IfSome, IfNone, IfOk, IfErr};
ghost use Rattle.{npr_base.specs.{declared.refusal.DecodeError.TheVariants.{OutOfMemory}, Framing.{number_of}, RowReading.{reads_at, wrong_at}, Tables.{shape_by, shape-by}}, npr_link_devices.specs.Bond.{table, family, attributes}};

use crate::ad_info::BondAdInfo;
use crate::addresses::{check_addresses, check_addresses_value, read_addresses, write_addresses};
use crate::all_port_active::BondAllPortActive;
use crate::arp_all_targets::BondArpAllTargets;
use crate::arp_validate::BondArpValidate;
use crate::bond_mode::BondMode;
use crate::fail_over_mac::BondFailOverMac;
use crate::lacp_rate::BondLacpRate;
use crate::primary_reselect::BondPrimaryReselect;
use crate::xmit_hash_policy::BondXmitHashPolicy;
use npr_base::{
    At, Attribute, AttributeSet, DecodeError, DefaultNla, EmitError, Form, Ipv4Addr, Ipv6Addr,
    Looks, NLA_F_NESTED, Nla, NlaBuffer, Place, Rowed, parse_list, put_read,
};
use std::alloc::{AllocError, Global};

/// Targets of IP version 4 (`linux/if_link.h`).
const IFLA_BOND_ARP_IP_TARGET: u16 = 8;

/// What 802.3ad says (`linux/if_link.h`).
const IFLA_BOND_AD_INFO: u16 = 23;

/// Targets of IP version 6 (`linux/if_link.h`).
const IFLA_BOND_NS_IP6_TARGET: u16 = 31;

/// The data of a bond. Times are in thousandths of a second.
#[derive(Debug, Drop, PartialEq, Eq)]
pub enum InfoBond {
    /// `IFLA_BOND_MODE`: by what rule it sends.
    Mode(BondMode),
    /// `IFLA_BOND_ACTIVE_SLAVE`: the index of the active port.
    ActivePort(u32),
    /// `IFLA_BOND_MIIMON`: how often the links of its ports are looked at.
    MiiMon(u32),
    /// `IFLA_BOND_UPDELAY`: how long a link is up before its port is used.
    UpDelay(u32),
    /// `IFLA_BOND_DOWNDELAY`: how long a link is down before its port is not.
    DownDelay(u32),
    /// `IFLA_BOND_USE_CARRIER`: whether the carrier tells that a link is up.
    UseCarrier(bool),
    /// `IFLA_BOND_ARP_INTERVAL`: how often targets are asked.
    ArpInterval(u32),
    /// `IFLA_BOND_ARP_IP_TARGET`: the targets that are asked by ARP, each the value of an
    /// attribute, whose kind is not looked at.
    ArpIpTarget(Vec<Ipv4Addr>),
    /// `IFLA_BOND_ARP_VALIDATE`: on which ports answers are looked at.
    ArpValidate(BondArpValidate),
    /// `IFLA_BOND_ARP_ALL_TARGETS`: how many targets have to answer.
    ArpAllTargets(BondArpAllTargets),
    /// `IFLA_BOND_PRIMARY`: the index of the port that is the active one where it can be.
    Primary(u32),
    /// `IFLA_BOND_PRIMARY_RESELECT`: when it becomes so again.
    PrimaryReselect(BondPrimaryReselect),
    /// `IFLA_BOND_FAIL_OVER_MAC`: which addresses its ports have.
    FailOverMac(BondFailOverMac),
    /// `IFLA_BOND_XMIT_HASH_POLICY`: what a packet's port is chosen by.
    XmitHashPolicy(BondXmitHashPolicy),
    /// `IFLA_BOND_RESEND_IGMP`: how often groups are told of another active port.
    ResendIgmp(u32),
    /// `IFLA_BOND_NUM_PEER_NOTIF`: how often neighbours are told of it.
    NumPeerNotif(u8),
    /// `IFLA_BOND_ALL_SLAVES_ACTIVE`: what becomes of a packet at a port that is not active.
    AllPortsActive(BondAllPortActive),
    /// `IFLA_BOND_MIN_LINKS`: how many links have to be up.
    MinLinks(u32),
    /// `IFLA_BOND_LP_INTERVAL`: how often switches are taught its addresses, in seconds.
    LpInterval(u32),
    /// `IFLA_BOND_PACKETS_PER_SLAVE`: how many packets go by a port before the next.
    PacketsPerPort(u32),
    /// `IFLA_BOND_AD_LACP_RATE`: how often the partner is asked to send LACPDUs.
    AdLacpRate(BondLacpRate),
    /// `IFLA_BOND_AD_SELECT`: how an aggregator is chosen (`BOND_AD_*` of the kernel's `net/bond_3ad.h`).
    AdSelect(u8),
    /// `IFLA_BOND_AD_INFO`: what was agreed on.
    AdInfo(Vec<BondAdInfo>),
    /// `IFLA_BOND_AD_ACTOR_SYS_PRIO`: its priority by IEEE 802.3ad.
    AdActorSysPrio(u16),
    /// `IFLA_BOND_AD_USER_PORT_KEY`: the part of its ports' keys that the user sets.
    AdUserPortKey(u16),
    /// `IFLA_BOND_AD_ACTOR_SYSTEM`: its address in LACPDUs.
    AdActorSystem([u8; 6]),
    /// `IFLA_BOND_TLB_DYNAMIC_LB`: whether packets move to other ports with the load.
    TlbDynamicLb(bool),
    /// `IFLA_BOND_PEER_NOTIF_DELAY`: the time between two such tellings of neighbours.
    PeerNotifDelay(u32),
    /// `IFLA_BOND_AD_LACP_ACTIVE`: whether it sends LACPDUs unasked.
    AdLacpActive(bool),
    /// `IFLA_BOND_MISSED_MAX`: how many questions may stay without an answer.
    MissedMax(u8),
    /// `IFLA_BOND_NS_IP6_TARGET`: the targets that are asked by neighbour solicitations,
    /// each the value of an attribute, whose kind is not looked at.
    NsIp6Target(Vec<Ipv6Addr>),
    /// `IFLA_BOND_COUPLED_CONTROL`: whether a port collects and distributes at once.
    CoupledControl(bool),
    /// `IFLA_BOND_BROADCAST_NEIGH`: whether questions for neighbours go by each port.
    BroadcastNeigh(bool),
    /// `IFLA_BOND_LACP_STRICT`: whether the bond is down where no partner agrees.
    LacpStrict(bool),
    /// An attribute of another number, as it stands.
    Other(DefaultNla),
}

/// The rows of the table.
macro_rules! rows {
    ($body:ident ($($given:tt)*)) => {
        npr_base::$body!(($($given)*) InfoBond of InfoBond {
            1 Mode(BondMode as byte);
            2 ActivePort(le32);
            3 MiiMon(le32);
            4 UpDelay(le32);
            5 DownDelay(le32);
            6 UseCarrier(boolean);
            7 ArpInterval(le32);
            9 ArpValidate(BondArpValidate as le32);
            10 ArpAllTargets(BondArpAllTargets as le32);
            11 Primary(le32);
            12 PrimaryReselect(BondPrimaryReselect as byte);
            13 FailOverMac(BondFailOverMac as byte);
            14 XmitHashPolicy(BondXmitHashPolicy as byte);
            15 ResendIgmp(le32);
            16 NumPeerNotif(byte);
            17 AllPortsActive(BondAllPortActive as byte);
            18 MinLinks(le32);
            19 LpInterval(le32);
            20 PacketsPerPort(le32);
            21 AdLacpRate(BondLacpRate as byte);
            22 AdSelect(byte);
            23 AdInfo(list BondAdInfo);
            24 AdActorSysPrio(le16);
            25 AdUserPortKey(le16);
            26 AdActorSystem(octets 6);
            27 TlbDynamicLb(boolean);
            28 PeerNotifDelay(le32);
            29 AdLacpActive(boolean);
            30 MissedMax(byte);
            32 CoupledControl(boolean);
            33 BroadcastNeigh(boolean);
            34 LacpStrict(boolean);
        })
    };
}

impl Nla for InfoBond {
    ghost shape = { shape_by table };

    fn kind(&self) -> u16 {
        rows!(kind_rows(self; InfoBond::ArpIpTarget(_) => 8, InfoBond::NsIp6Target(_) => NLA_F_NESTED + 31,))
    }

    fn is_nested(&self) -> bool {
        false
    }

    fn check_value(&self) -> Result<usize, EmitError> {
        Ok(
            rows!(len_rows(self; InfoBond::ArpIpTarget(x) => check_addresses(x.as_slice())?, InfoBond::NsIp6Target(x) => check_addresses(x.as_slice())?,)),
        )
    }

    fn write_value(&self, out: &mut [u8]) -> usize {
        rows!(write_rows(self, out; InfoBond::ArpIpTarget(x) => write_addresses(x.as_slice(), out), InfoBond::NsIp6Target(x) => write_addresses(x.as_slice(), out),))
    }
}

impl Rowed for InfoBond {
    ghost reads = { reads_at table };

    ghost wrong = { wrong_at table };
}

/// Puts an attribute without others inside. Asks that its number is not that of a list.
///
/// # Errors
/// `OutOfMemory` where memory is refused, and else what is wrong with the value.
#[tactic(auto, unfolding(crate::specs::Bond::attributes))]
fn put_flat<P: Place<InfoBond>>(
    place: &mut P,
    alloc: Global,
    item: &NlaBuffer<'_>,
) -> Result<(), DecodeError>
    requires ready { P.ready place.old }
    requires flat { (number_of (item.now).kind ≢ 8) × (number_of (item.now).kind ≢ 23) × (number_of (item.now).kind ≢ 31) }
    ensures ok { IfOk result (λ _. (a : InfoBond) × P.puts place.old a place.new × attributes.Reads item.now (family.meaning a)) }
    ensures refused { IfErr result (λ e. e ≢ OutOfMemory → attributes.Faulty item.now e) }
{
    rows!(flat_rows(place, alloc, item))
}

impl Attribute for InfoBond {
    type Context = ();

    ghost family = { family };

    ghost shape_is = { shape-by table };

    #[tactic(auto, using(crate::specs::Bond::no_looks), unfolding(crate::specs::Bond::attributes))]
    fn read_into<P: Place<Self>>(
        place: &mut P,
        alloc: Global,
        _context: (),
        item: &NlaBuffer<'_>,
        looks: &mut Looks,
    ) -> Result<(), DecodeError> {
        let value = item.value();
        match item.kind() {
            IFLA_BOND_ARP_IP_TARGET => put_read(
                place,
                read_addresses::<Ipv4Addr>(alloc, value, AttributeSet::InfoBond.at(8), looks),
                InfoBond::ArpIpTarget,
            ),
            IFLA_BOND_AD_INFO => put_read(
                place,
                parse_list(alloc, (), value, looks),
                InfoBond::AdInfo,
            ),
            IFLA_BOND_NS_IP6_TARGET => put_read(
                place,
                read_addresses::<Ipv6Addr>(alloc, value, AttributeSet::InfoBond.at(31), looks),
                InfoBond::NsIp6Target,
            ),
            _ => put_flat(place, alloc, item),
        }
    }

    #[tactic(auto, unfolding(crate::specs::Bond::attributes))]
    fn form(_context: (), number: u16) -> (At, Form) {
        rows!(form_rows(number; 8 => Form::Inside, 31 => Form::Inside,))
    }

    fn try_clone(&self, alloc: Global) -> Result<Self, AllocError> {
        rows!(clone_rows(self, alloc; InfoBond::ArpIpTarget(x) => Vec::from_slice(alloc, x.as_slice()).map(InfoBond::ArpIpTarget), InfoBond::NsIp6Target(x) => Vec::from_slice(alloc, x.as_slice()).map(InfoBond::NsIp6Target),))
    }
}

impl InfoBond {
    /// Whether targets are read, which have a reader of their own, or `None` for an attribute of
    /// another number. It takes no memory.
    ///
    /// # Errors
    /// The first fault of the targets in reading order.
    #[tactic(auto, unfolding(crate::specs::Bond::attributes))]
    pub fn check_apart(item: &NlaBuffer<'_>) -> Option<Result<(), DecodeError>>
        ensures apart { IfSome result (λ _. (number_of (item.now).kind ≡ 8) ⊎ (number_of (item.now).kind ≡ 31)) }
        ensures other { IfNone result ((number_of (item.now).kind ≢ 8) × (number_of (item.now).kind ≢ 31)) }
        ensures ok { IfSome result (λ r. IfOk r (λ _. (m : family.Meaning) × attributes.Reads item.now m)) }
        ensures refused { IfSome result (λ r. IfErr r (λ e. attributes.Faulty item.now e)) }
    {
        let number = item.kind();
        let at = AttributeSet::InfoBond.at(number);
        match number {
            IFLA_BOND_ARP_IP_TARGET => Some(check_addresses_value::<Ipv4Addr>(item.value(), at)),
            IFLA_BOND_NS_IP6_TARGET => Some(check_addresses_value::<Ipv6Addr>(item.value(), at)),
            _ => None,
        }
    }
}
