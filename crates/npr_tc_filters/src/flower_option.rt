//! The data of a flower filter: `TCA_FLOWER_*` of `linux/pkt_cls.h`.

use crate::flower_cfm::TcFlowerCfmOption;
use crate::flower_mpls::TcFilterFlowerMplsOption;
use npr_base::{DefaultNla, Ipv4Addr, Ipv6Addr};
use npr_tc_actions::{TcAction, TcEncOption};
use npr_tc_values::TcHandle;

/// The data of a flower filter: `TCA_FLOWER_*` of `linux/pkt_cls.h`. A packet matches that has what
/// they say.
#[derive(Drop)]
pub enum TcFilterFlowerOption {
    /// `TCA_FLOWER_CLASSID`: the class of a packet that matches.
    ClassId(TcHandle),
    /// `TCA_FLOWER_INDEV`: the name of the interface that packets came in by.
    InDev(String),
    /// `TCA_FLOWER_ACT`: what is done with a packet that matches.
    Actions(Vec<TcAction>),
    /// `TCA_FLOWER_KEY_ETH_DST`: the destination address of Ethernet.
    EthDst([u8; 6]),
    /// `TCA_FLOWER_KEY_ETH_DST_MASK`: which bits of that are looked at.
    EthDstMask([u8; 6]),
    /// `TCA_FLOWER_KEY_ETH_SRC`: the source address of Ethernet.
    EthSrc([u8; 6]),
    /// `TCA_FLOWER_KEY_ETH_SRC_MASK`: which bits of that are looked at.
    EthSrcMask([u8; 6]),
    /// `TCA_FLOWER_KEY_ETH_TYPE`: the type of Ethernet (`ETH_P_*`).
    EthType(u16),
    /// `TCA_FLOWER_KEY_IP_PROTO`: the protocol over IP.
    IpProto(u8),
    /// `TCA_FLOWER_KEY_IPV4_SRC`: the source address of IP version 4.
    Ipv4Src(Ipv4Addr),
    /// `TCA_FLOWER_KEY_IPV4_SRC_MASK`: which bits of that are looked at.
    Ipv4SrcMask(Ipv4Addr),
    /// `TCA_FLOWER_KEY_IPV4_DST`: the destination address of IP version 4.
    Ipv4Dst(Ipv4Addr),
    /// `TCA_FLOWER_KEY_IPV4_DST_MASK`: which bits of that are looked at.
    Ipv4DstMask(Ipv4Addr),
    /// `TCA_FLOWER_KEY_IPV6_SRC`: the source address of IP version 6.
    Ipv6Src(Ipv6Addr),
    /// `TCA_FLOWER_KEY_IPV6_SRC_MASK`: which bits of that are looked at.
    Ipv6SrcMask(Ipv6Addr),
    /// `TCA_FLOWER_KEY_IPV6_DST`: the destination address of IP version 6.
    Ipv6Dst(Ipv6Addr),
    /// `TCA_FLOWER_KEY_IPV6_DST_MASK`: which bits of that are looked at.
    Ipv6DstMask(Ipv6Addr),
    /// `TCA_FLOWER_KEY_TCP_SRC`: the source port of TCP.
    TcpSrc(u16),
    /// `TCA_FLOWER_KEY_TCP_DST`: the destination port of TCP.
    TcpDst(u16),
    /// `TCA_FLOWER_KEY_UDP_SRC`: the source port of UDP.
    UdpSrc(u16),
    /// `TCA_FLOWER_KEY_UDP_DST`: the destination port of UDP.
    UdpDst(u16),
    /// `TCA_FLOWER_FLAGS`: what devices do with it (`TCA_CLS_FLAGS_*`).
    Flags(u32),
    /// `TCA_FLOWER_KEY_VLAN_ID`: the VLAN.
    VlanId(u16),
    /// `TCA_FLOWER_KEY_VLAN_PRIO`: the priority of the VLAN's tag.
    VlanPrio(u8),
    /// `TCA_FLOWER_KEY_VLAN_ETH_TYPE`: the type of Ethernet behind the tag of the VLAN.
    VlanEthType(u16),
    /// `TCA_FLOWER_KEY_ENC_KEY_ID`: the number of the tunnel.
    EncKeyId(u32),
    /// `TCA_FLOWER_KEY_ENC_IPV4_SRC`: the source address of the tunnel, of IP version 4.
    EncKeyIpv4Src(Ipv4Addr),
    /// `TCA_FLOWER_KEY_ENC_IPV4_SRC_MASK`: which bits of that are looked at.
    EncKeyIpv4SrcMask(Ipv4Addr),
    /// `TCA_FLOWER_KEY_ENC_IPV4_DST`: the destination address of the tunnel, of IP version 4.
    EncKeyIpv4Dst(Ipv4Addr),
    /// `TCA_FLOWER_KEY_ENC_IPV4_DST_MASK`: which bits of that are looked at.
    EncKeyIpv4DstMask(Ipv4Addr),
    /// `TCA_FLOWER_KEY_ENC_IPV6_SRC`: the source address of the tunnel, of IP version 6.
    EncKeyIpv6Src(Ipv6Addr),
    /// `TCA_FLOWER_KEY_ENC_IPV6_SRC_MASK`: which bits of that are looked at.
    EncKeyIpv6SrcMask(Ipv6Addr),
    /// `TCA_FLOWER_KEY_ENC_IPV6_DST`: the destination address of the tunnel, of IP version 6.
    EncKeyIpv6Dst(Ipv6Addr),
    /// `TCA_FLOWER_KEY_ENC_IPV6_DST_MASK`: which bits of that are looked at.
    EncKeyIpv6DstMask(Ipv6Addr),
    /// `TCA_FLOWER_KEY_TCP_SRC_MASK`: which bits of that are looked at.
    TcpSrcMask(u16),
    /// `TCA_FLOWER_KEY_TCP_DST_MASK`: which bits of that are looked at.
    TcpDstMask(u16),
    /// `TCA_FLOWER_KEY_UDP_SRC_MASK`: which bits of that are looked at.
    UdpSrcMask(u16),
    /// `TCA_FLOWER_KEY_UDP_DST_MASK`: which bits of that are looked at.
    UdpDstMask(u16),
    /// `TCA_FLOWER_KEY_SCTP_SRC_MASK`: which bits of that are looked at.
    SctpSrcMask(u16),
    /// `TCA_FLOWER_KEY_SCTP_DST_MASK`: which bits of that are looked at.
    SctpDstMask(u16),
    /// `TCA_FLOWER_KEY_SCTP_SRC`: the source port of SCTP.
    SctpSrc(u16),
    /// `TCA_FLOWER_KEY_SCTP_DST`: the destination port of SCTP.
    SctpDst(u16),
    /// `TCA_FLOWER_KEY_ENC_UDP_SRC_PORT`: the source port of the tunnel.
    EncKeyUdpSrcPort(u16),
    /// `TCA_FLOWER_KEY_ENC_UDP_SRC_PORT_MASK`: which bits of that are looked at.
    EncKeyUdpSrcPortMask(u16),
    /// `TCA_FLOWER_KEY_ENC_UDP_DST_PORT`: the destination port of the tunnel.
    EncKeyUdpDstPort(u16),
    /// `TCA_FLOWER_KEY_ENC_UDP_DST_PORT_MASK`: which bits of that are looked at.
    EncKeyUdpDstPortMask(u16),
    /// `TCA_FLOWER_KEY_FLAGS`: what a packet is (`TCA_FLOWER_KEY_FLAGS_*`).
    KeyFlags(u32),
    /// `TCA_FLOWER_KEY_FLAGS_MASK`: which bits of that are looked at.
    KeyFlagsMask(u32),
    /// `TCA_FLOWER_KEY_ICMPV4_CODE`: the code of ICMP.
    Icmpv4Code(u8),
    /// `TCA_FLOWER_KEY_ICMPV4_CODE_MASK`: which bits of that are looked at.
    Icmpv4CodeMask(u8),
    /// `TCA_FLOWER_KEY_ICMPV4_TYPE`: the type of ICMP.
    Icmpv4Type(u8),
    /// `TCA_FLOWER_KEY_ICMPV4_TYPE_MASK`: which bits of that are looked at.
    Icmpv4TypeMask(u8),
    /// `TCA_FLOWER_KEY_ICMPV6_CODE`: the code of ICMP for IP version 6.
    Icmpv6Code(u8),
    /// `TCA_FLOWER_KEY_ICMPV6_CODE_MASK`: which bits of that are looked at.
    Icmpv6CodeMask(u8),
    /// `TCA_FLOWER_KEY_ICMPV6_TYPE`: the type of ICMP for IP version 6.
    Icmpv6Type(u8),
    /// `TCA_FLOWER_KEY_ICMPV6_TYPE_MASK`: which bits of that are looked at.
    Icmpv6TypeMask(u8),
    /// `TCA_FLOWER_KEY_ARP_SIP`: the address of IP that ARP says of its sender.
    ArpSip(Ipv4Addr),
    /// `TCA_FLOWER_KEY_ARP_SIP_MASK`: which bits of that are looked at.
    ArpSipMask(Ipv4Addr),
    /// `TCA_FLOWER_KEY_ARP_TIP`: the address of IP that ARP says of its target.
    ArpTip(Ipv4Addr),
    /// `TCA_FLOWER_KEY_ARP_TIP_MASK`: which bits of that are looked at.
    ArpTipMask(Ipv4Addr),
    /// `TCA_FLOWER_KEY_ARP_OP`: the operation of ARP.
    ArpOp(u8),
    /// `TCA_FLOWER_KEY_ARP_OP_MASK`: which bits of that are looked at.
    ArpOpMask(u8),
    /// `TCA_FLOWER_KEY_ARP_SHA`: the address of Ethernet that ARP says of its sender.
    ArpSha([u8; 6]),
    /// `TCA_FLOWER_KEY_ARP_SHA_MASK`: which bits of that are looked at.
    ArpShaMask([u8; 6]),
    /// `TCA_FLOWER_KEY_ARP_THA`: the address of Ethernet that ARP says of its target.
    ArpTha([u8; 6]),
    /// `TCA_FLOWER_KEY_ARP_THA_MASK`: which bits of that are looked at.
    ArpThaMask([u8; 6]),
    /// `TCA_FLOWER_KEY_MPLS_TTL`: how many hops are left to the first label of MPLS.
    MplsTtl(u8),
    /// `TCA_FLOWER_KEY_MPLS_BOS`: whether the first label of MPLS is the last: 1 or 0.
    MplsBos(u8),
    /// `TCA_FLOWER_KEY_MPLS_TC`: the traffic class of the first label of MPLS.
    MplsTc(u8),
    /// `TCA_FLOWER_KEY_MPLS_LABEL`: the first label of MPLS.
    MplsLabel(u32),
    /// `TCA_FLOWER_KEY_TCP_FLAGS`: the flags of TCP.
    TcpFlags(u16),
    /// `TCA_FLOWER_KEY_TCP_FLAGS_MASK`: which bits of that are looked at.
    TcpFlagsMask(u16),
    /// `TCA_FLOWER_KEY_IP_TOS`: the type of service of IP.
    IpTos(u8),
    /// `TCA_FLOWER_KEY_IP_TOS_MASK`: which bits of that are looked at.
    IpTosMask(u8),
    /// `TCA_FLOWER_KEY_IP_TTL`: how many hops of IP are left.
    IpTtl(u8),
    /// `TCA_FLOWER_KEY_IP_TTL_MASK`: which bits of that are looked at.
    IpTtlMask(u8),
    /// `TCA_FLOWER_KEY_CVLAN_ID`: the inner VLAN.
    CvlanId(u16),
    /// `TCA_FLOWER_KEY_CVLAN_PRIO`: the priority of the inner VLAN's tag.
    CvlanPrio(u8),
    /// `TCA_FLOWER_KEY_CVLAN_ETH_TYPE`: the type of Ethernet behind the tag of the inner VLAN.
    CvlanEthType(u16),
    /// `TCA_FLOWER_KEY_ENC_IP_TOS`: the type of service of the tunnel.
    EncKeyIpTos(u8),
    /// `TCA_FLOWER_KEY_ENC_IP_TOS_MASK`: which bits of that are looked at.
    EncKeyIpTosMask(u8),
    /// `TCA_FLOWER_KEY_ENC_IP_TTL`: how many hops of the tunnel are left.
    EncKeyIpTtl(u8),
    /// `TCA_FLOWER_KEY_ENC_IP_TTL_MASK`: which bits of that are looked at.
    EncKeyIpTtlMask(u8),
    /// `TCA_FLOWER_KEY_ENC_OPTS`: the options of the tunnel.
    EncOpts(Vec<TcEncOption>),
    /// `TCA_FLOWER_KEY_ENC_OPTS_MASK`: which bits of that are looked at.
    EncOptsMask(Vec<TcEncOption>),
    /// `TCA_FLOWER_IN_HW_COUNT`: how many devices have the filter.
    InHwCount(u32),
    /// `TCA_FLOWER_KEY_PORT_SRC_MIN`: the lowest source port.
    PortSrcMin(u16),
    /// `TCA_FLOWER_KEY_PORT_SRC_MAX`: the highest source port.
    PortSrcMax(u16),
    /// `TCA_FLOWER_KEY_PORT_DST_MIN`: the lowest destination port.
    PortDstMin(u16),
    /// `TCA_FLOWER_KEY_PORT_DST_MAX`: the highest destination port.
    PortDstMax(u16),
    /// `TCA_FLOWER_KEY_CT_STATE`: what is known of the connection (`TCA_FLOWER_KEY_CT_FLAGS_*`).
    CtState(u16),
    /// `TCA_FLOWER_KEY_CT_STATE_MASK`: which bits of that are looked at.
    CtStateMask(u16),
    /// `TCA_FLOWER_KEY_CT_ZONE`: the zone of the connection.
    CtZone(u16),
    /// `TCA_FLOWER_KEY_CT_ZONE_MASK`: which bits of that are looked at.
    CtZoneMask(u16),
    /// `TCA_FLOWER_KEY_CT_MARK`: the mark of the connection.
    CtMark(u32),
    /// `TCA_FLOWER_KEY_CT_MARK_MASK`: which bits of that are looked at.
    CtMarkMask(u32),
    /// `TCA_FLOWER_KEY_CT_LABELS`: the labels of the connection.
    CtLabels([u8; 16]),
    /// `TCA_FLOWER_KEY_CT_LABELS_MASK`: which bits of that are looked at.
    CtLabelsMask([u8; 16]),
    /// `TCA_FLOWER_KEY_MPLS_OPTS`: the labels of MPLS, one by one. It is written with NESTED.
    MplsOpts(Vec<TcFilterFlowerMplsOption>),
    /// `TCA_FLOWER_KEY_HASH`: the hash of the packet.
    KeyHash(u32),
    /// `TCA_FLOWER_KEY_HASH_MASK`: which bits of that are looked at.
    KeyHashMask(u32),
    /// `TCA_FLOWER_KEY_NUM_OF_VLANS`: how many tags of VLANs a packet has.
    NumOfVlans(u8),
    /// `TCA_FLOWER_KEY_PPPOE_SID`: the session of PPPoE.
    PppoeSid(u16),
    /// `TCA_FLOWER_KEY_PPP_PROTO`: the protocol over PPP.
    PppProto(u16),
    /// `TCA_FLOWER_KEY_L2TPV3_SID`: the session of L2TP, version 3.
    L2tpv3Sid(u32),
    /// `TCA_FLOWER_L2_MISS`: whether a bridge did not know the destination address: 1 or 0.
    L2Miss(u8),
    /// `TCA_FLOWER_KEY_CFM`: a message of CFM. It is written with NESTED.
    Cfm(Vec<TcFlowerCfmOption>),
    /// `TCA_FLOWER_KEY_SPI`: the parameters of ESP or AH, by their number.
    Spi(u32),
    /// `TCA_FLOWER_KEY_SPI_MASK`: which bits of that are looked at.
    SpiMask(u32),
    /// `TCA_FLOWER_KEY_ENC_FLAGS`: what a packet of the tunnel is (`TCA_FLOWER_KEY_FLAGS_*`).
    EncFlags(u32),
    /// `TCA_FLOWER_KEY_ENC_FLAGS_MASK`: which bits of that are looked at.
    EncFlagsMask(u32),
    /// An attribute of another number, as it stands.
    Other(DefaultNla),
}
