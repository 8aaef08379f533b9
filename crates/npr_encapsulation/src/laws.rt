//! The laws of this crate. Each function does nothing, and its contract is the law.

ghost use Rattle.std.specs.Prelude.{◌≡◌, ◌^◌, ℕ, ◌∷◌, [], true};
ghost use Rattle.{
  npr_base.specs.{Equality.{IsEquality, IsEqualityOf}, Rows.{agrees}},
  npr_encapsulation.specs.{
    EncapType.{encap_types},
    Encapsulation.{family as encap},
    ErspanOptions.{family as erspan},
    Geneve.{option_of},
    IpTunnel.{family as ip, family6 as ip6},
    MplsTunnel.{family as mpls},
    TunnelFlags.{ip_flag_bits, ip6_flag_bits},
    TunnelOptions.{family as tunnel_option},
    VxlanOptions.{family as vxlan},
    XfrmTunnel.{family as xfrm},
  },
};

use crate::encap::RouteLwTunnelEncap;
use crate::encap_type::RouteLwEnCapType;
use crate::erspan::RouteErspanOpt;
use crate::flags::{RouteIp6TunnelFlags, RouteIpTunnelFlags};
use crate::geneve::RouteGeneveOpt;
use crate::ip::RouteIpTunnel;
use crate::ip6::RouteIp6Tunnel;
use crate::mpls::RouteMplsIpTunnel;
use crate::tunnel_opts::RouteLwTunnelOpt;
use crate::vxlan::RouteVxlanOpt;
use crate::xfrm::RouteXfrmTunnel;

/// What a number reads as is written as that number.
pub fn law_encap_type_number()
    ensures { (d : ℕ) → encap_types.number (encap_types.of d) ≡ d }
{}

/// The named flags of a tunnel over IP version 4, by their bits (`linux/if_tunnel.h`).
pub fn law_ip_flags()
    ensures { agrees ip_flag_bits.number ((2 ^ 0, RouteIpTunnelFlags.Checksum) ∷ (2 ^ 2, RouteIpTunnelFlags.Key)
        ∷ (2 ^ 3, RouteIpTunnelFlags.Sequence) ∷ []) ≡ true }
{}

/// The named flags of a tunnel over IP version 6, by their bits (`linux/if_tunnel.h`).
pub fn law_ip6_flags()
    ensures { agrees ip6_flag_bits.number ((2 ^ 0, RouteIp6TunnelFlags.Checksum) ∷ (2 ^ 2, RouteIp6TunnelFlags.Key)
        ∷ (2 ^ 3, RouteIp6TunnelFlags.Sequence) ∷ []) ≡ true }
{}

/// `==` answers whether two values are equal, or mean the same where they hold a vector.
pub fn law_equality()
    ensures encap_type { IsEquality ⟦<RouteLwEnCapType as PartialEq>⟧.eq }
    ensures ip_flags { IsEquality ⟦<RouteIpTunnelFlags as PartialEq>⟧.eq }
    ensures ip6_flags { IsEquality ⟦<RouteIp6TunnelFlags as PartialEq>⟧.eq }
    ensures geneve { IsEqualityOf option_of ⟦<RouteGeneveOpt as PartialEq>⟧.eq }
    ensures vxlan { IsEqualityOf vxlan.meaning ⟦<RouteVxlanOpt as PartialEq>⟧.eq }
    ensures erspan { IsEqualityOf erspan.meaning ⟦<RouteErspanOpt as PartialEq>⟧.eq }
    ensures tunnel_option { IsEqualityOf tunnel_option.meaning ⟦<RouteLwTunnelOpt as PartialEq>⟧.eq }
    ensures mpls { IsEqualityOf mpls.meaning ⟦<RouteMplsIpTunnel as PartialEq>⟧.eq }
    ensures ip { IsEqualityOf ip.meaning ⟦<RouteIpTunnel as PartialEq>⟧.eq }
    ensures ip6 { IsEqualityOf ip6.meaning ⟦<RouteIp6Tunnel as PartialEq>⟧.eq }
    ensures xfrm { IsEqualityOf xfrm.meaning ⟦<RouteXfrmTunnel as PartialEq>⟧.eq }
    ensures encap { IsEqualityOf encap.meaning ⟦<RouteLwTunnelEncap as PartialEq>⟧.eq }
{}

/// Which value is the default.
pub fn law_default()
    ensures encap_type { (x : RouteLwEnCapType) → ⟦<RouteLwEnCapType as Default>⟧.is_default x → x ≡ RouteLwEnCapType.None }
    ensures ip_flags { (x : RouteIpTunnelFlags) → ⟦<RouteIpTunnelFlags as Default>⟧.is_default x → x ≡ ip_flag_bits.of 0 }
    ensures ip6_flags { (x : RouteIp6TunnelFlags) → ⟦<RouteIp6TunnelFlags as Default>⟧.is_default x → x ≡ ip6_flag_bits.of 0 }
    ensures ip { (x : RouteIpTunnel) → ⟦<RouteIpTunnel as Default>⟧.is_default x → x ≡ RouteIpTunnel.Unspecified }
    ensures ip6 { (x : RouteIp6Tunnel) → ⟦<RouteIp6Tunnel as Default>⟧.is_default x → x ≡ RouteIp6Tunnel.Unspecified }
    ensures xfrm { (x : RouteXfrmTunnel) → ⟦<RouteXfrmTunnel as Default>⟧.is_default x → x ≡ RouteXfrmTunnel.Unspecified }
{}
