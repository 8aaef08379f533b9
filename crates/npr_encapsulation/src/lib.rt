//! The encapsulations of routes.
#![tactic(auto)]

mod encap;
mod encap_type;
mod erspan;
mod flags;
mod geneve;
mod ip;
mod ip6;
mod ip_rows;
pub mod laws;
mod mpls;
mod tunnel_opts;
mod vxlan;
mod xfrm;

pub use encap::RouteLwTunnelEncap;
pub use encap_type::RouteLwEnCapType;
pub use erspan::RouteErspanOpt;
pub use flags::{RouteIp6TunnelFlags, RouteIpTunnelFlags};
pub use geneve::RouteGeneveOpt;
pub use ip::RouteIpTunnel;
pub use ip6::RouteIp6Tunnel;
pub use mpls::RouteMplsIpTunnel;
pub use tunnel_opts::RouteLwTunnelOpt;
pub use vxlan::RouteVxlanOpt;
pub use xfrm::RouteXfrmTunnel;
