//! The laws of the data of tunnels, over their definitions alone. Each function does nothing, and its
//! contract is the law.

ghost use Rattle.std.specs.Prelude.{◌≡◌, ◌+◌, ◌^◌, ℕ, ◌∷◌, [], true};
ghost use Rattle.{
  npr_base.specs.{Equality.{IsEquality, IsEqualityOf}, Rows.{agrees}},
  npr_link_tunnels.specs.{
    Geneve.{family as geneve_family},
    GeneveDf.{geneve_dfs},
    Gre.{family as gre_family},
    Gre6.{family as gre6_family},
    GreEncapFlags.{gre_encap_flag_bits},
    GreEncapType.{gre_encap_types},
    GreIoFlags.{gre_io_flag_bits},
    Gtp.{family as gtp_family},
    Ip6TunnelFlags.{ip6_tunnel_flag_bits},
    IpTunnel.{family as ip_tunnel_family},
    Ovpn.{family as ovpn_family},
    OvpnMode.{ovpn_modes},
    TunnelEncapFlags.{tunnel_encap_flag_bits},
    TunnelEncapType.{tunnel_encap_types},
    Vti.{family as vti_family},
    Vxlan.{family as vxlan_family},
    Xfrm.{family as xfrm_family},
  },
};

use crate::form::InfoForm;
use crate::geneve::InfoGeneve;
use crate::geneve_df::GeneveDf;
use crate::gre::InfoGre;
use crate::gre_encap_flags::GreEncapFlags;
use crate::gre_encap_type::GreEncapType;
use crate::gre_io_flags::GreIOFlags;
use crate::gre6::InfoGre6;
use crate::gtp::InfoGtp;
use crate::ip_tunnel::InfoIpTunnel;
use crate::ip6_tunnel_flags::Ip6TunnelFlags;
use crate::ovpn::InfoOvpn;
use crate::ovpn_mode::OvpnMode;
use crate::tunnel_encap_flags::TunnelEncapFlags;
use crate::tunnel_encap_type::TunnelEncapType;
use crate::vti::InfoVti;
use crate::vxlan::InfoVxlan;
use crate::xfrm::InfoXfrm;

/// What a number reads as is written as that number.
pub fn law_numbers()
    ensures geneve_dfs { (d : ℕ) → geneve_dfs.number (geneve_dfs.of d) ≡ d }
    ensures gre_encap_types { (d : ℕ) → gre_encap_types.number (gre_encap_types.of d) ≡ d }
    ensures tunnel_encap_types { (d : ℕ) → tunnel_encap_types.number (tunnel_encap_types.of d) ≡ d }
    ensures ovpn_modes { (d : ℕ) → ovpn_modes.number (ovpn_modes.of d) ≡ d }
{}

/// The named flags of tunnels, by their bits (`linux/if_tunnel.h`, `linux/ip6_tunnel.h`, and the kernel's
/// `net/ip6_tunnel.h`). Three names of what stands in a header of GRE have several bits.
pub fn law_flags()
    ensures gre_io_flags { agrees gre_io_flag_bits.number ((2 ^ 15, GreIOFlags.Checksum) ∷ (2 ^ 14, GreIOFlags.Routing)
        ∷ (2 ^ 13, GreIOFlags.Key) ∷ (2 ^ 12, GreIOFlags.Seq) ∷ (2 ^ 11, GreIOFlags.Strict0)
        ∷ (2 ^ 10 + 2 ^ 9 + 2 ^ 8, GreIOFlags.Rec) ∷ (2 ^ 7, GreIOFlags.Ack) ∷ (2 ^ 6 + 2 ^ 5 + 2 ^ 4 + 2 ^ 3, GreIOFlags.Flags)
        ∷ (2 ^ 2 + 2 ^ 1 + 2 ^ 0, GreIOFlags.Version) ∷ []) ≡ true }
    ensures gre_encap_flags { agrees gre_encap_flag_bits.number ((2 ^ 0, GreEncapFlags.Checksum)
        ∷ (2 ^ 1, GreEncapFlags.Checksum6) ∷ (2 ^ 2, GreEncapFlags.RemoteChecksum) ∷ []) ≡ true }
    ensures tunnel_encap_flags { agrees tunnel_encap_flag_bits.number ((2 ^ 0, TunnelEncapFlags.CSum)
        ∷ (2 ^ 1, TunnelEncapFlags.CSum6) ∷ (2 ^ 2, TunnelEncapFlags.RemCSum) ∷ []) ≡ true }
    ensures ip6_tunnel_flags { agrees ip6_tunnel_flag_bits.number ((2 ^ 0, Ip6TunnelFlags.IgnEncapLimit)
        ∷ (2 ^ 1, Ip6TunnelFlags.UseOrigTclass) ∷ (2 ^ 2, Ip6TunnelFlags.UseOrigFlowlabel) ∷ (2 ^ 3, Ip6TunnelFlags.Mip6Dev)
        ∷ (2 ^ 4, Ip6TunnelFlags.RcvDscpCopy) ∷ (2 ^ 5, Ip6TunnelFlags.UseOrigFwMark) ∷ (2 ^ 6, Ip6TunnelFlags.AllowLocalRemote)
        ∷ (2 ^ 16, Ip6TunnelFlags.CapXmit) ∷ (2 ^ 17, Ip6TunnelFlags.CapRcv)
        ∷ (2 ^ 18, Ip6TunnelFlags.CapPerPacket) ∷ []) ≡ true }
{}

/// Which value is the default.
pub fn law_default()
    ensures gre_encap_type { (x : GreEncapType) → ⟦<GreEncapType as Default>⟧.is_default x → x ≡ GreEncapType.None }
    ensures gre_io_flags { (x : GreIOFlags) → ⟦<GreIOFlags as Default>⟧.is_default x → x ≡ gre_io_flag_bits.of 0 }
    ensures gre_encap_flags { (x : GreEncapFlags) → ⟦<GreEncapFlags as Default>⟧.is_default x → x ≡ gre_encap_flag_bits.of 0 }
    ensures tunnel_encap_flags { (x : TunnelEncapFlags) → ⟦<TunnelEncapFlags as Default>⟧.is_default x → x ≡ tunnel_encap_flag_bits.of 0 }
    ensures ip6_tunnel_flags { (x : Ip6TunnelFlags) → ⟦<Ip6TunnelFlags as Default>⟧.is_default x → x ≡ ip6_tunnel_flag_bits.of 0 }
{}

/// `==` answers whether two values are equal.
pub fn law_equality()
    ensures form { IsEquality ⟦<InfoForm as PartialEq>⟧.eq }
    ensures geneve_df { IsEquality ⟦<GeneveDf as PartialEq>⟧.eq }
    ensures gre_encap_type { IsEquality ⟦<GreEncapType as PartialEq>⟧.eq }
    ensures tunnel_encap_type { IsEquality ⟦<TunnelEncapType as PartialEq>⟧.eq }
    ensures gre_io_flags { IsEquality ⟦<GreIOFlags as PartialEq>⟧.eq }
    ensures gre_encap_flags { IsEquality ⟦<GreEncapFlags as PartialEq>⟧.eq }
    ensures tunnel_encap_flags { IsEquality ⟦<TunnelEncapFlags as PartialEq>⟧.eq }
    ensures ip6_tunnel_flags { IsEquality ⟦<Ip6TunnelFlags as PartialEq>⟧.eq }
    ensures ovpn_mode { IsEquality ⟦<OvpnMode as PartialEq>⟧.eq }
{}

/// `==` answers whether two values mean the same, where they hold a vector.
pub fn law_equality_of_meanings()
    ensures geneve { IsEqualityOf geneve_family.meaning ⟦<InfoGeneve as PartialEq>⟧.eq }
    ensures gre { IsEqualityOf gre_family.meaning ⟦<InfoGre as PartialEq>⟧.eq }
    ensures gre6 { IsEqualityOf gre6_family.meaning ⟦<InfoGre6 as PartialEq>⟧.eq }
    ensures ip_tunnel { IsEqualityOf ip_tunnel_family.meaning ⟦<InfoIpTunnel as PartialEq>⟧.eq }
    ensures vti { IsEqualityOf vti_family.meaning ⟦<InfoVti as PartialEq>⟧.eq }
    ensures vxlan { IsEqualityOf vxlan_family.meaning ⟦<InfoVxlan as PartialEq>⟧.eq }
    ensures xfrm { IsEqualityOf xfrm_family.meaning ⟦<InfoXfrm as PartialEq>⟧.eq }
    ensures gtp { IsEqualityOf gtp_family.meaning ⟦<InfoGtp as PartialEq>⟧.eq }
    ensures ovpn { IsEqualityOf ovpn_family.meaning ⟦<InfoOvpn as PartialEq>⟧.eq }
{}
