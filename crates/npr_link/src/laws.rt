//! The laws of link messages, over their definitions alone. Each function does nothing, and its
//! contract is the law.

ghost use Rattle.std.specs.Prelude.{◌≡◌, ◌≢◌, ◌≤◌, ◌+◌, ◌^◌, ◌⊎◌, ℕ, pos, List, ◌∷◌, [], true, length, map};
ghost use Rattle.{
  npr_base.specs.{
    Counts.{Counts},
    declared.refusal.DecodeError.{DecodeError},
    Equality.{IsEquality, IsEqualityOf},
    Family.{written_as},
    Framing.{Item, number_of},
    Lists.{ReadsList, FirstFault},
    Message.{view},
    Refusal.{no_place},
    Rows.{agrees},
  },
  npr_link.specs.{
    AddressMode.{address_modes},
    AfSpec.{family as af_spec_family},
    AfSpecInet.{family as inet_family},
    AfSpecInet6.{family as inet6_family},
    AfSpecMctp.{family as mctp_family},
    Attribute.{family, shape},
    DpllPin.{family as pin_family},
    ExtentMask.{extent_mask_bits},
    Flags.{link_flag_bits},
    Governing.{Forms, Governs, Searches},
    Header.{default_header},
    HeaderFamily.{Several, StandsUnder},
    Inet6Flags.{inet6_flag_bits},
    Info.{Meaning, attributes, family as info_family},
    InfoData.{info_data_of},
    InfoKind.{info_kind_names, info_kind_of},
    InfoList.{governing, info_list},
    KindNames.{info_kinds, port_kinds},
    Kinds.{known},
    LayerType.{layer_types},
    LinkEvent.{link_events},
    LinkMode.{link_modes},
    Message.{links},
    Netkit.{family as netkit_family},
    NetkitMode.{netkit_modes},
    NetkitPolicy.{netkit_policies},
    NetkitScrub.{netkit_scrubs},
    Peer.{peer_of},
    PeerAttribute.{family as peer_family},
    PortData.{port_data_of},
    PortKind.{port_kind_names, port_kind_of},
    Prop.{family as prop_family},
    ProtocolDown.{family as reason_family},
    State.{states},
    Veth.{family as veth_family},
    Vlan.{family as vlan_family},
    VlanFlags.{vlan_flag_bits},
    VlanQos.{family as qos_family},
    Vrf.{family as vrf_family},
    Xdp.{family as xdp_family},
    XdpAttached.{attachments},
    declared.{info_kind.InfoKind.{InfoKind as LinkKind}, port_kind.InfoPortKind.{InfoPortKind as PortKindNamed}},
  },
};

use crate::address_mode::In6AddrGenMode;
use crate::af_spec::AfSpecUnspec;
use crate::af_spec_inet::AfSpecInet;
use crate::af_spec_inet6::AfSpecInet6;
use crate::af_spec_mctp::AfSpecMctp;
use crate::attribute::LinkAttribute;
use crate::dpll_pin::LinkDpllPin;
use crate::extent_mask::LinkExtentMask;
use crate::flags::LinkFlags;
use crate::header::{LinkHeader, LinkMessageBuffer};
use crate::inet6_cache_info::Inet6CacheInfo;
use crate::inet6_flags::Inet6IfaceFlags;
use crate::info::LinkInfo;
use crate::info_data::InfoData;
use crate::info_kind::InfoKind;
use crate::layer_type::LinkLayerType;
use crate::link_event::LinkEvent;
use crate::link_mode::LinkMode;
use crate::map::Map;
use crate::message::LinkMessage;
use crate::netkit::InfoNetkit;
use crate::netkit_mode::NetkitMode;
use crate::netkit_policy::NetkitPolicy;
use crate::netkit_scrub::NetkitScrub;
use crate::peer::LinkPeer;
use crate::peer_attribute::PeerAttribute;
use crate::port_data::InfoPortData;
use crate::port_kind::{InfoPortForm, InfoPortKind};
use crate::prop::Prop;
use crate::protocol_down::LinkProtocolDownReason;
use crate::state::State;
use crate::veth::InfoVeth;
use crate::vlan::InfoVlan;
use crate::vlan_flags::VlanFlags;
use crate::vlan_qos::VlanQosMapping;
use crate::vrf::InfoVrf;
use crate::xdp::LinkXdp;
use crate::xdp_attached::XdpAttached;
use npr_base::AddressFamily;
use npr_link_bridge::{AfSpecBridge, InfoBridgePort};

/// What a number reads as is written as that number.
pub fn law_numbers()
    ensures address_modes { (d : ℕ) → address_modes.number (address_modes.of d) ≡ d }
    ensures layer_types { (d : ℕ) → layer_types.number (layer_types.of d) ≡ d }
    ensures link_events { (d : ℕ) → link_events.number (link_events.of d) ≡ d }
    ensures netkit_modes { (d : ℕ) → netkit_modes.number (netkit_modes.of d) ≡ d }
    ensures netkit_policies { (d : ℕ) → netkit_policies.number (netkit_policies.of d) ≡ d }
    ensures netkit_scrubs { (d : ℕ) → netkit_scrubs.number (netkit_scrubs.of d) ≡ d }
    ensures link_modes { (d : ℕ) → link_modes.number (link_modes.of d) ≡ d }
    ensures states { (d : ℕ) → states.number (states.of d) ≡ d }
    ensures attachments { (d : ℕ) → attachments.number (attachments.of d) ≡ d }
{}

/// Each kind of link, and of port, has the name that stands beside it.
pub fn law_kinds()
    ensures links { map (λ (p : List ℕ × LinkKind). info_kind_of p.1) info_kinds ≡ map (λ (p : List ℕ × LinkKind). known p.0) info_kinds }
    ensures link_names { map (λ (p : List ℕ × LinkKind). p.0) info_kinds ≡ info_kind_names }
    ensures ports { map (λ (p : List ℕ × PortKindNamed). port_kind_of p.1) port_kinds ≡ map (λ (p : List ℕ × PortKindNamed). known p.0) port_kinds }
    ensures port_names { map (λ (p : List ℕ × PortKindNamed). p.0) port_kinds ≡ port_kind_names }
{}

/// What governs the data in a list is one, whatever its bytes are; and where they are a list, it is what
/// the first kinds that the list holds tell.
pub fn law_governing()
    ensures one { (bytes : List ℕ) (c d : Forms) → Governs bytes c → Governs bytes d → c ≡ d }
    ensures first { (bytes : List ℕ) (ms : List Meaning) → info_list.Reads bytes ms → Governs bytes (governing ms) }
{}

/// A search finds what governs, in a list that has room for a kind and for data beside it; and what is
/// read or refused under what a search of any list finds is what the list is, or why it is none.
pub fn law_search()
    ensures governs { (bytes : List ℕ) (c : Forms) (old new : Counts) → 8 ≤ length bytes → Searches bytes c old new → Governs bytes c }
    ensures reads { (bytes : List ℕ) (ms : List Meaning) (c : Forms) (old new : Counts) → Searches bytes c old new
        → ReadsList (attributes c).Reads bytes ms → info_list.Reads bytes ms }
    ensures back { (bytes : List ℕ) (ms : List Meaning) (c : Forms) (old new : Counts) → Searches bytes c old new
        → info_list.Reads bytes ms → ReadsList (attributes c).Reads bytes ms }
    ensures refused { (bytes : List ℕ) (e : DecodeError) (c : Forms) (old new : Counts) → Searches bytes c old new
        → FirstFault (attributes c).Reads (attributes c).Faulty bytes e → info_list.Wrong no_place bytes e }
{}

/// What the protocol and what address families say of a link stands in the variant of the header's
/// family, as it is read. What a bridge says of its port is written with NESTED, which is bit 15.
pub fn law_header_family()
    ensures proto_inet6 { (v : Several AfSpecInet6) → StandsUnder (λ f. f ≡ AddressFamily.Inet6) (LinkAttribute.ProtoInfoInet6 v) }
    ensures proto_bridge { (v : Several InfoBridgePort) → StandsUnder (λ f. f ≡ AddressFamily.Bridge) (LinkAttribute.ProtoInfoBridge v) }
    ensures proto_unknown { (x : Item) → StandsUnder (λ f. (f ≢ AddressFamily.Inet6) × (f ≢ AddressFamily.Bridge) × (number_of x.kind ≡ 12)) (LinkAttribute.ProtoInfoUnknown x) }
    ensures unspec { (v : Several AfSpecUnspec) → StandsUnder (λ f. (f ≡ AddressFamily.Unspec) ⊎ ((f ≡ AddressFamily.Inet) ⊎ (f ≡ AddressFamily.Inet6))) (LinkAttribute.AfSpecUnspec v) }
    ensures bridge { (v : Several AfSpecBridge) → StandsUnder (λ f. f ≡ AddressFamily.Bridge) (LinkAttribute.AfSpecBridge v) }
    ensures unknown { (v : Several ℕ) → StandsUnder (λ f. (f ≢ AddressFamily.Unspec) × (f ≢ AddressFamily.Inet) × (f ≢ AddressFamily.Inet6) × (f ≢ AddressFamily.Bridge)) (LinkAttribute.AfSpecUnknown v) }
    ensures other { (x : Item) → StandsUnder (λ f. number_of x.kind ≢ 12) (LinkAttribute.Other x) }
    ensures nested { (v : Several InfoBridgePort) → (written_as (shape (LinkAttribute.ProtoInfoBridge v))).kind ≡ 2 ^ 15 + 12 }
{}

/// `Forward` is another name of a policy.
pub fn law_netkit_policies()
    ensures { NetkitPolicy.Forward ≡ NetkitPolicy.Pass }
{}

/// The named flags of a link, by their bits (`linux/if.h`).
pub fn law_link_flags()
    ensures { agrees link_flag_bits.number ((2 ^ 0, LinkFlags.Up) ∷ (2 ^ 1, LinkFlags.Broadcast) ∷ (2 ^ 2, LinkFlags.Debug)
        ∷ (2 ^ 3, LinkFlags.Loopback) ∷ (2 ^ 4, LinkFlags.Pointopoint) ∷ (2 ^ 5, LinkFlags.Notrailers) ∷ (2 ^ 6, LinkFlags.Running)
        ∷ (2 ^ 7, LinkFlags.Noarp) ∷ (2 ^ 8, LinkFlags.Promisc) ∷ (2 ^ 9, LinkFlags.Allmulti) ∷ (2 ^ 10, LinkFlags.Controller)
        ∷ (2 ^ 11, LinkFlags.Port) ∷ (2 ^ 12, LinkFlags.Multicast) ∷ (2 ^ 13, LinkFlags.Portsel) ∷ (2 ^ 14, LinkFlags.Automedia)
        ∷ (2 ^ 15, LinkFlags.Dynamic) ∷ (2 ^ 16, LinkFlags.LowerUp) ∷ (2 ^ 17, LinkFlags.Dormant) ∷ (2 ^ 18, LinkFlags.Echo) ∷ []) ≡ true }
{}

/// The named flags of what stands in a link message, by their bits (`linux/rtnetlink.h`, `net/if_inet6.h`
/// and `linux/if_vlan.h`).
pub fn law_flags()
    ensures extent_mask { agrees extent_mask_bits.number ((2 ^ 0, LinkExtentMask.Vf) ∷ (2 ^ 1, LinkExtentMask.Brvlan) ∷ (2 ^ 2, LinkExtentMask.BrvlanCompressed)
        ∷ (2 ^ 3, LinkExtentMask.SkipStats) ∷ (2 ^ 4, LinkExtentMask.Mrp) ∷ (2 ^ 5, LinkExtentMask.CfmConfig)
        ∷ (2 ^ 6, LinkExtentMask.CfmStatus) ∷ (2 ^ 7, LinkExtentMask.Mst) ∷ (2 ^ 8, LinkExtentMask.NameOnly) ∷ []) ≡ true }
    ensures inet6_flags { agrees inet6_flag_bits.number ((2 ^ 4, Inet6IfaceFlags.RsSent) ∷ (2 ^ 5, Inet6IfaceFlags.RaRcvd) ∷ (2 ^ 6, Inet6IfaceFlags.RaManaged)
        ∷ (2 ^ 7, Inet6IfaceFlags.Otherconf) ∷ (2 ^ 31, Inet6IfaceFlags.Ready) ∷ []) ≡ true }
    ensures vlan_flags { agrees vlan_flag_bits.number ((2 ^ 0, VlanFlags.ReorderHdr) ∷ (2 ^ 1, VlanFlags.Gvrp) ∷ (2 ^ 2, VlanFlags.LooseBinding)
        ∷ (2 ^ 3, VlanFlags.Mvrp) ∷ (2 ^ 4, VlanFlags.BridgeBinding) ∷ []) ≡ true }
{}

/// Which value is the default.
pub fn law_default()
    ensures address_mode { (x : In6AddrGenMode) → ⟦<In6AddrGenMode as Default>⟧.is_default x → x ≡ In6AddrGenMode.Eui64 }
    ensures layer_type { (x : LinkLayerType) → ⟦<LinkLayerType as Default>⟧.is_default x → x ≡ LinkLayerType.Netrom }
    ensures link_event { (x : LinkEvent) → ⟦<LinkEvent as Default>⟧.is_default x → x ≡ LinkEvent.None }
    ensures link_mode { (x : LinkMode) → ⟦<LinkMode as Default>⟧.is_default x → x ≡ LinkMode.Default }
    ensures flags { (x : LinkFlags) → ⟦<LinkFlags as Default>⟧.is_default x → x ≡ link_flag_bits.of 0 }
    ensures extent_mask { (x : LinkExtentMask) → ⟦<LinkExtentMask as Default>⟧.is_default x → x ≡ extent_mask_bits.of 0 }
    ensures inet6_flags { (x : Inet6IfaceFlags) → ⟦<Inet6IfaceFlags as Default>⟧.is_default x → x ≡ inet6_flag_bits.of 0 }
    ensures vlan_flags { (x : VlanFlags) → ⟦<VlanFlags as Default>⟧.is_default x → x ≡ vlan_flag_bits.of 0 }
    ensures cache_info { (x : Inet6CacheInfo) → ⟦<Inet6CacheInfo as Default>⟧.is_default x → x ≡ record { max_reasm_len = pos 0; tstamp = pos 0; reachable_time = pos 0; retrans_time = pos 0 } }
    ensures map { (x : Map) → ⟦<Map as Default>⟧.is_default x → x ≡ record { memory_start = 0; memory_end = 0; base_address = 0; irq = 0; dma = 0; port = 0 } }
    ensures header { (x : LinkHeader) → ⟦<LinkHeader as Default>⟧.is_default x → x ≡ default_header }
{}

/// `==` answers whether two values are equal.
pub fn law_equality()
    ensures address_mode { IsEquality ⟦<In6AddrGenMode as PartialEq>⟧.eq }
    ensures layer_type { IsEquality ⟦<LinkLayerType as PartialEq>⟧.eq }
    ensures link_event { IsEquality ⟦<LinkEvent as PartialEq>⟧.eq }
    ensures netkit_mode { IsEquality ⟦<NetkitMode as PartialEq>⟧.eq }
    ensures netkit_policy { IsEquality ⟦<NetkitPolicy as PartialEq>⟧.eq }
    ensures netkit_scrub { IsEquality ⟦<NetkitScrub as PartialEq>⟧.eq }
    ensures link_mode { IsEquality ⟦<LinkMode as PartialEq>⟧.eq }
    ensures state { IsEquality ⟦<State as PartialEq>⟧.eq }
    ensures attachment { IsEquality ⟦<XdpAttached as PartialEq>⟧.eq }
    ensures port_form { IsEquality ⟦<InfoPortForm as PartialEq>⟧.eq }
    ensures flags { IsEquality ⟦<LinkFlags as PartialEq>⟧.eq }
    ensures extent_mask { IsEquality ⟦<LinkExtentMask as PartialEq>⟧.eq }
    ensures inet6_flags { IsEquality ⟦<Inet6IfaceFlags as PartialEq>⟧.eq }
    ensures vlan_flags { IsEquality ⟦<VlanFlags as PartialEq>⟧.eq }
    ensures cache_info { IsEquality ⟦<Inet6CacheInfo as PartialEq>⟧.eq }
    ensures map { IsEquality ⟦<Map as PartialEq>⟧.eq }
    ensures header { IsEquality ⟦<LinkHeader as PartialEq>⟧.eq }
    ensures header_buffer { IsEquality ⟦<LinkMessageBuffer as PartialEq>⟧.eq }
{}

/// `==` answers whether two values mean the same, where they hold a vector or a text.
pub fn law_equality_of_meanings()
    ensures inet { IsEqualityOf inet_family.meaning ⟦<AfSpecInet as PartialEq>⟧.eq }
    ensures inet6 { IsEqualityOf inet6_family.meaning ⟦<AfSpecInet6 as PartialEq>⟧.eq }
    ensures af_spec { IsEqualityOf af_spec_family.meaning ⟦<AfSpecUnspec as PartialEq>⟧.eq }
    ensures xdp { IsEqualityOf xdp_family.meaning ⟦<LinkXdp as PartialEq>⟧.eq }
    ensures prop { IsEqualityOf prop_family.meaning ⟦<Prop as PartialEq>⟧.eq }
    ensures reason { IsEqualityOf reason_family.meaning ⟦<LinkProtocolDownReason as PartialEq>⟧.eq }
    ensures qos { IsEqualityOf qos_family.meaning ⟦<VlanQosMapping as PartialEq>⟧.eq }
    ensures vlan { IsEqualityOf vlan_family.meaning ⟦<InfoVlan as PartialEq>⟧.eq }
    ensures vrf { IsEqualityOf vrf_family.meaning ⟦<InfoVrf as PartialEq>⟧.eq }
    ensures peer_attribute { IsEqualityOf peer_family.meaning ⟦<PeerAttribute as PartialEq>⟧.eq }
    ensures peer { IsEqualityOf peer_of ⟦<LinkPeer as PartialEq>⟧.eq }
    ensures veth { IsEqualityOf veth_family.meaning ⟦<InfoVeth as PartialEq>⟧.eq }
    ensures netkit { IsEqualityOf netkit_family.meaning ⟦<InfoNetkit as PartialEq>⟧.eq }
    ensures kind { IsEqualityOf info_kind_of ⟦<InfoKind as PartialEq>⟧.eq }
    ensures port_kind { IsEqualityOf port_kind_of ⟦<InfoPortKind as PartialEq>⟧.eq }
    ensures info_data { IsEqualityOf info_data_of ⟦<InfoData as PartialEq>⟧.eq }
    ensures port_data { IsEqualityOf port_data_of ⟦<InfoPortData as PartialEq>⟧.eq }
    ensures info { IsEqualityOf info_family.meaning ⟦<LinkInfo as PartialEq>⟧.eq }
    ensures attribute { IsEqualityOf family.meaning ⟦<LinkAttribute as PartialEq>⟧.eq }
    ensures message { IsEqualityOf (view links) ⟦<LinkMessage as PartialEq>⟧.eq }
    ensures mctp { IsEqualityOf mctp_family.meaning ⟦<AfSpecMctp as PartialEq>⟧.eq }
    ensures pin { IsEqualityOf pin_family.meaning ⟦<LinkDpllPin as PartialEq>⟧.eq }
{}
