//! The data of links that are tunnels.
#![tactic(auto)]

mod form;
mod geneve;
mod geneve_df;
mod gre;
mod gre6;
mod gre_encap_flags;
mod gre_encap_type;
mod gre_io_flags;
mod gtp;
mod ip6_tunnel_flags;
mod ip_tunnel;
pub mod laws;
mod ovpn;
mod ovpn_mode;
mod ports;
mod tunnel_encap_flags;
mod tunnel_encap_type;
mod vti;
mod vxlan;
mod xfrm;

pub use form::InfoForm;
pub use geneve::InfoGeneve;
pub use geneve_df::GeneveDf;
pub use gre::InfoGre;
pub use gre_encap_flags::GreEncapFlags;
pub use gre_encap_type::GreEncapType;
pub use gre_io_flags::GreIOFlags;
pub use gre6::InfoGre6;
pub use gtp::InfoGtp;
pub use ip_tunnel::InfoIpTunnel;
pub use ip6_tunnel_flags::Ip6TunnelFlags;
pub use ovpn::InfoOvpn;
pub use ovpn_mode::OvpnMode;
pub use tunnel_encap_flags::TunnelEncapFlags;
pub use tunnel_encap_type::TunnelEncapType;
pub use vti::InfoVti;
pub use vxlan::InfoVxlan;
pub use xfrm::InfoXfrm;
