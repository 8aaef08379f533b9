//! Where a value stands: the set of its attribute, and the attribute's number.

ghost use Rattle.std.specs.Prelude.{◌≡◌};

use std::fmt;

/// A set of attributes, in which a number is to be understood. Each has the number that C sees.
#[derive(Clone, Copy, Debug, PartialEq, Eq)]
pub enum AttributeSet {
    /// No set: a value that is read by itself.
    Value = 0,
    /// `IFA_*` of `linux/if_addr.h`.
    Address = 1,
    /// `FRA_*` of `linux/fib_rules.h`.
    Rule = 2,
    /// `RTA_*` of `linux/rtnetlink.h`.
    Route = 3,
    /// `RTAX_*` of `linux/rtnetlink.h`.
    Metric = 4,
    /// `MPLS_IPTUNNEL_*` of `linux/mpls_iptunnel.h`.
    Mpls = 5,
    /// `LWTUNNEL_IP_*` of `linux/lwtunnel.h`.
    Ip = 6,
    /// `LWTUNNEL_IP6_*` of `linux/lwtunnel.h`.
    Ip6 = 7,
    /// `LWT_XFRM_*` of `linux/lwtunnel.h`.
    Xfrm = 8,
    /// `LWTUNNEL_IP_OPTS_*` of `linux/lwtunnel.h`.
    Opt = 9,
    /// `LWTUNNEL_IP_OPT_GENEVE_*` of `linux/lwtunnel.h`.
    Geneve = 10,
    /// `LWTUNNEL_IP_OPT_VXLAN_*` of `linux/lwtunnel.h`.
    Vxlan = 11,
    /// `LWTUNNEL_IP_OPT_ERSPAN_*` of `linux/lwtunnel.h`.
    Erspan = 12,
    /// `SEG6_IPTUNNEL_*` of `linux/seg6_iptunnel.h`.
    Seg6 = 13,
    /// `SEG6_LOCAL_*` of `linux/seg6_local.h`.
    Seg6Local = 14,
    /// `RPL_IPTUNNEL_*` of `linux/rpl_iptunnel.h`.
    Rpl = 15,
    /// `IOAM6_IPTUNNEL_*` of `linux/ioam6_iptunnel.h`.
    Ioam6 = 16,
    /// `NDA_*` of `linux/neighbour.h`.
    Neighbour = 17,
    /// `IFLA_*` of `linux/if_link.h`.
    Link = 18,
    /// `IFLA_INFO_*` of `linux/if_link.h`.
    LinkInfo = 19,
    /// `IFLA_XDP_*` of `linux/if_link.h`.
    LinkXdp = 20,
    /// `IFLA_ALT_IFNAME` of `linux/if_link.h`, the one property.
    Prop = 21,
    /// `IFLA_PROTO_DOWN_REASON_*` of `linux/if_link.h`.
    LinkProtocolDownReason = 22,
    /// Address families in `IFLA_AF_SPEC`: `AF_*` of `linux/socket.h`.
    AfSpecUnspec = 23,
    /// `IFLA_INET_*` of `linux/if_link.h`.
    AfSpecInet = 24,
    /// `IFLA_INET6_*` of `linux/if_link.h`.
    AfSpecInet6 = 25,
    /// `IFLA_BR_*` of `linux/if_link.h`.
    InfoBridge = 26,
    /// `BRIDGE_QUERIER_*` of `linux/if_bridge.h`.
    BridgeQuerierState = 27,
    /// `IFLA_BRPORT_*` of `linux/if_link.h`.
    InfoBridgePort = 28,
    /// `IFLA_VLAN_*` of `linux/if_link.h`.
    InfoVlan = 29,
    /// `IFLA_VLAN_QOS_*` of `linux/if_link.h`.
    VlanQosMapping = 30,
    /// `IFLA_VRF_*` of `linux/if_link.h`.
    InfoVrf = 31,
    /// `VETH_INFO_*` of `linux/veth.h`.
    InfoVeth = 32,
    /// `IFLA_*` of `linux/if_link.h`, in the peer of a link.
    Peer = 33,
    /// `IFLA_BRIDGE_*` of `linux/if_bridge.h`.
    AfSpecBridge = 34,
    /// `IFLA_BRIDGE_VLAN_TUNNEL_*` of `linux/if_bridge.h`.
    BridgeVlanTunnelInfo = 35,
    /// `IFLA_BRIDGE_MST_ENTRY` of `linux/if_bridge.h`, the one state in a list of states.
    BridgeMst = 36,
    /// `IFLA_BRIDGE_MST_ENTRY_*` of `linux/if_bridge.h`.
    BridgeMstEntry = 37,
    /// `IFLA_BOND_*` of `linux/if_link.h`.
    InfoBond = 38,
    /// `IFLA_BOND_AD_INFO_*` of `linux/if_link.h`.
    BondAdInfo = 39,
    /// `IFLA_BOND_SLAVE_*` of `linux/if_link.h`.
    InfoBondPort = 40,
    /// `IFLA_MACVLAN_*` of `linux/if_link.h`.
    InfoMacVlan = 41,
    /// `IFLA_MACVLAN_MACADDR` of `linux/if_link.h`, in a list of addresses.
    MacVlanAddress = 42,
    /// `IFLA_IPVLAN_*` of `linux/if_link.h`.
    InfoIpVlan = 43,
    /// `IFLA_NETKIT_*` of `linux/if_link.h`.
    InfoNetkit = 44,
    /// `IFLA_TUN_*` of `linux/if_link.h`.
    InfoTun = 45,
    /// `IFLA_VXLAN_*` of `linux/if_link.h`.
    InfoVxlan = 46,
    /// `IFLA_GENEVE_*` of `linux/if_link.h`.
    InfoGeneve = 47,
    /// `IFLA_GRE_*` of `linux/if_tunnel.h`, over version 4.
    InfoGre = 48,
    /// `IFLA_GRE_*` of `linux/if_tunnel.h`, over version 6.
    InfoGre6 = 49,
    /// `IFLA_IPTUN_*` of `linux/if_tunnel.h`.
    InfoIpTunnel = 50,
    /// `IFLA_VTI_*` of `linux/if_tunnel.h`.
    InfoVti = 51,
    /// `IFLA_XFRM_*` of `linux/if_link.h`.
    InfoXfrm = 52,
    /// `NHA_*` of `linux/nexthop.h`.
    NextHop = 53,
    /// `NHA_RES_GROUP_*` of `linux/nexthop.h`.
    NextHopResGroup = 54,
    /// `NHA_RES_BUCKET_*` of `linux/nexthop.h`.
    NextHopResBucket = 55,
    /// `NHA_GROUP_STATS_ENTRY` of `linux/nexthop.h`, the one entry in a list of entries.
    NextHopGroupStats = 56,
    /// `NHA_GROUP_STATS_ENTRY_*` of `linux/nexthop.h`.
    NextHopGroupStatsEntry = 57,
    /// `NETNSA_*` of `linux/net_namespace.h`.
    Nsid = 58,
    /// `PREFIX_*` of `linux/rtnetlink.h`.
    Prefix = 59,
    /// `NETCONFA_*` of `linux/netconf.h`.
    Netconf = 60,
    /// `NDTA_*` of `linux/neighbour.h`.
    NeighbourTable = 61,
    /// `NDTPA_*` of `linux/neighbour.h`.
    NeighbourTableParameter = 62,
    /// `IFAL_*` of `linux/if_addrlabel.h`.
    AddressLabel = 63,
    /// What an encapsulation holds, by its type: the set is that of the type (`Mpls` .. `Ioam6`), which
    /// refusals name, or none.
    Encap = 64,
    /// `TCA_*` of `linux/rtnetlink.h`.
    Tc = 65,
    /// `TCA_STATS_*` of `linux/gen_stats.h`.
    TcStats2 = 66,
    /// `TCA_STAB_*` of `linux/pkt_sched.h`.
    TcStab = 67,
    /// The data of `ingress` and of `clsact`, which have no numbers.
    TcQdiscIngress = 68,
    /// `TCA_FQ_CODEL_*` of `linux/pkt_sched.h`.
    TcQdiscFqCodel = 69,
    /// `TCA_U32_*` of `linux/pkt_cls.h`.
    TcFilterU32 = 70,
    /// `TCA_MATCHALL_*` of `linux/pkt_cls.h`.
    TcFilterMatchAll = 71,
    /// `TCA_FLOWER_*` of `linux/pkt_cls.h`.
    TcFilterFlower = 72,
    /// `TCA_FLOWER_KEY_MPLS_OPTS_*` of `linux/pkt_cls.h`.
    TcFilterFlowerMpls = 73,
    /// `TCA_FLOWER_KEY_MPLS_OPT_LSE_*` of `linux/pkt_cls.h`.
    TcFilterFlowerMplsLse = 74,
    /// `TCA_ROOT_*` of `linux/rtnetlink.h`.
    TcActionMessage = 75,
    /// `TCA_ACT_*` of `linux/pkt_cls.h`.
    TcAction = 76,
    /// `TCA_MIRRED_*` of `linux/tc_act/tc_mirred.h`.
    TcActionMirror = 77,
    /// `TCA_NAT_*` of `linux/tc_act/tc_nat.h`.
    TcActionNat = 78,
    /// `TCA_TUNNEL_KEY_*` of `linux/tc_act/tc_tunnel_key.h`.
    TcActionTunnelKey = 79,
    /// A list of actions: the number of each is its place.
    TcActions = 80,
    /// `TCA_HTB_*` of `linux/pkt_sched.h`.
    TcQdiscHtb = 81,
    /// `TCA_TBF_*` of `linux/pkt_sched.h`.
    TcQdiscTbf = 82,
    /// `TCA_RED_*` of `linux/pkt_sched.h`.
    TcQdiscRed = 83,
    /// `TCA_FQ_*` of `linux/pkt_sched.h`.
    TcQdiscFq = 84,
    /// `TCA_NETEM_*` of `linux/pkt_sched.h`.
    TcQdiscNetem = 85,
    /// `NETEM_LOSS_*` of `linux/pkt_sched.h`.
    TcNetemLoss = 86,
    /// `TCA_FW_*` of `linux/pkt_cls.h`.
    TcFilterFw = 87,
    /// `TCA_BPF_*` of `linux/pkt_cls.h`.
    TcFilterBpf = 88,
    /// `TCA_GACT_*` of `linux/tc_act/tc_gact.h`.
    TcActionGact = 89,
    /// `TCA_POLICE_*` of `linux/pkt_cls.h`.
    TcActionPolice = 90,
    /// `TCA_VLAN_*` of `linux/tc_act/tc_vlan.h`.
    TcActionVlan = 91,
    /// `TCA_SKBEDIT_*` of `linux/tc_act/tc_skbedit.h`.
    TcActionSkbedit = 92,
    /// `TCA_CSUM_*` of `linux/tc_act/tc_csum.h`.
    TcActionCsum = 93,
    /// `TCA_CT_*` of `linux/tc_act/tc_ct.h`.
    TcActionCt = 94,
    /// `TCA_SAMPLE_*` of `linux/tc_act/tc_sample.h`.
    TcActionSample = 95,
    /// `TCA_ACT_BPF_*` of `linux/tc_act/tc_bpf.h`.
    TcActionBpf = 96,
    /// `TCA_CAKE_*` of `linux/pkt_sched.h`.
    TcQdiscCake = 97,
    /// `TCA_CAKE_STATS_*` of `linux/pkt_sched.h`.
    TcCakeStat = 98,
    /// A list of cake's tins: the number of each is its place.
    TcCakeTins = 99,
    /// `TCA_CAKE_TIN_STATS_*` of `linux/pkt_sched.h`.
    TcCakeTinStat = 100,
    /// `TCA_MQPRIO_*` of `linux/pkt_sched.h`.
    TcQdiscMqprio = 101,
    /// `TCA_MQPRIO_TC_ENTRY_*` of `linux/pkt_sched.h`.
    TcMqprioEntry = 102,
    /// `TCA_BASIC_*` of `linux/pkt_cls.h`.
    TcFilterBasic = 103,
    /// `TCA_EMATCH_TREE_*` of `linux/pkt_cls.h`.
    TcEmatchTree = 104,
    /// A list of extended matches: the number of each is its place.
    TcEmatches = 105,
    /// `TCA_FLOWER_KEY_CFM_*` of `linux/pkt_cls.h`.
    TcFlowerCfm = 106,
    /// `TCA_FLOWER_KEY_ENC_OPTS_*` of `linux/pkt_cls.h`, the options of a tunnel.
    TcEnc = 107,
    /// `TCA_FLOWER_KEY_ENC_OPT_GENEVE_*` of `linux/pkt_cls.h`.
    TcEncGeneve = 108,
    /// `TCA_FLOWER_KEY_ENC_OPT_VXLAN_*` of `linux/pkt_cls.h`.
    TcEncVxlan = 109,
    /// `TCA_FLOWER_KEY_ENC_OPT_ERSPAN_*` of `linux/pkt_cls.h`.
    TcEncErspan = 110,
    /// `TCA_FLOWER_KEY_ENC_OPT_GTP_*` of `linux/pkt_cls.h`.
    TcEncGtp = 111,
    /// `TCA_FLOWER_KEY_ENC_OPT_PFCP_*` of `linux/pkt_cls.h`.
    TcEncPfcp = 112,
    /// `TCA_PEDIT_*` of `linux/tc_act/tc_pedit.h`.
    TcActionPedit = 113,
    /// `TCA_PEDIT_KEY_EX` of `linux/tc_act/tc_pedit.h`, the one entry in a list of entries.
    TcPeditKeysEx = 114,
    /// `TCA_PEDIT_KEY_EX_*` of `linux/tc_act/tc_pedit.h`.
    TcPeditKeyEx = 115,
    /// `IFLA_MCTP_*` of `linux/if_link.h`.
    AfSpecMctp = 116,
    /// `DPLL_A_PIN_*` of `linux/dpll.h`.
    LinkDpllPin = 117,
    /// `IFLA_HSR_*` of `linux/if_link.h`.
    InfoHsr = 118,
    /// `IFLA_OVPN_*` of `linux/if_link.h`.
    InfoOvpn = 119,
    /// `NFEA_*` of `linux/neighbour.h`.
    NeighbourFdb = 120,
    /// `IFLA_GTP_*` of `linux/if_link.h`.
    InfoGtp = 121,
    /// `IFLA_IPOIB_*` of `linux/if_link.h`.
    InfoIpoib = 122,
    /// `IFLA_MACSEC_*` of `linux/if_link.h`.
    InfoMacSec = 123,
    /// `IFLA_VF_INFO` of `linux/if_link.h`, the one entry in a list of virtual functions.
    LinkVfInfo = 124,
    /// `IFLA_VF_*` of `linux/if_link.h`.
    VfInfo = 125,
    /// `IFLA_VF_STATS_*` of `linux/if_link.h`.
    VfStats = 126,
    /// `IFLA_VF_VLAN_INFO` of `linux/if_link.h`, the one entry in a list of VLANs.
    VfVlan = 127,
    /// `IFLA_VF_PORT` of `linux/if_link.h`, the one entry in a list of ports.
    LinkVfPort = 128,
    /// `IFLA_PORT_*` of `linux/if_link.h`.
    VfPort = 129,
    /// `IFLA_STATS_*` of `linux/if_link.h`.
    Stats = 130,
    /// `LINK_XSTATS_TYPE_*` of `linux/if_link.h`.
    LinkXstats = 131,
    /// `BRIDGE_XSTATS_*` of `linux/if_bridge.h`.
    BridgeXstats = 132,
    /// `BOND_XSTATS_*` of `linux/if_bonding.h`.
    BondXstats = 133,
    /// `BOND_3AD_STAT_*` of `linux/if_bonding.h`.
    BondAdStat = 134,
    /// `IFLA_OFFLOAD_XSTATS_*` of `linux/if_link.h`.
    OffloadXstats = 135,
    /// `IFLA_OFFLOAD_XSTATS_*` of `linux/if_link.h`, each with what is known of counting it in hardware.
    OffloadHwInfo = 136,
    /// `IFLA_OFFLOAD_XSTATS_HW_S_INFO_*` of `linux/if_link.h`.
    OffloadHwState = 137,
    /// Address families in `IFLA_STATS_AF_SPEC`: `AF_*` of `linux/socket.h`.
    StatsAfSpec = 138,
    /// `MPLS_STATS_*` of `linux/mpls.h`.
    MplsStats = 139,
}

/// The place of a value: the set of its attribute, and the attribute's number.
#[derive(Clone, Copy, Debug, PartialEq, Eq)]
pub struct At {
    /// The set.
    pub set: AttributeSet,
    /// The number, without the two flags of the attribute's type.
    pub number: u16,
}

impl AttributeSet {
    /// The place of the attribute of this number in the set.
    pub const fn at(self, number: u16) -> At
        ensures { result ≡ record { set = self; number = number } }
    {
        At { set: self, number }
    }
}

impl At {
    /// The place of a value that is read by itself: no set, and the number 0.
    pub const NO_PLACE: At = At {
        set: AttributeSet::Value,
        number: 0,
    };
}

/// The number, and the set that it stands in.
impl fmt::Display for At {
    fn fmt<W: fmt::Write>(&self, f: &mut fmt::Formatter<W>) -> fmt::Result {
        let number = self.number;
        write!(f, "attribute {number} of ")?;
        fmt::Debug::fmt(&self.set, f)
    }
}
