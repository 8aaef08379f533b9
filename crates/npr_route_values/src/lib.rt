//! The small values of routes and rules: numbers with names, labels of MPLS, and realms.
#![tactic(auto)]

mod address;
mod cache_info;
mod flags;
mod ip_protocol;
pub mod laws;
mod mfc_stats;
mod mpls;
mod preference;
mod realm;
mod route_protocol;
mod route_scope;
mod route_type;
mod via;

pub use address::RouteAddress;
pub use cache_info::{RouteCacheInfo, RouteCacheInfoBuffer};
pub use flags::{RouteFlags, RouteNextHopFlags};
pub use ip_protocol::{IpProtocol, check_protocol, protocol_byte};
pub use mfc_stats::{RouteMfcStats, RouteMfcStatsBuffer};
pub use mpls::{MplsLabel, emit_labels, labels_len, read_labels, write_labels};
pub use preference::{RouteMplsTtlPropagation, RoutePreference};
pub use realm::RouteRealm;
pub use route_protocol::RouteProtocol;
pub use route_scope::RouteScope;
pub use route_type::RouteType;
pub use via::{RouteVia, RouteViaBuffer};
