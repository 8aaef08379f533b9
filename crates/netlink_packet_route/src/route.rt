//! Route messages: `struct rtmsg` of `linux/rtnetlink.h`, with the values, tunnels and routing
//! headers that stand in them.
//!
//! ```
//! use netlink_packet_route::route::{RouteAddress, RouteAttribute, RouteMessage, RouteProtocol};
//! use std::net::Ipv4Addr;
//!
//! let bytes = [
//!     2, 24, 0, 0, 254, 4, 0, 1, 0, 0, 0, 0, // 24 bits of a destination, in the table 254
//!     8, 0, 1, 0, 10, 0, 1, 0, // RTA_DST
//!     8, 0, 5, 0, 10, 0, 0, 9, // RTA_GATEWAY
//!     8, 0, 4, 0, 3, 0, 0, 0, // RTA_OIF
//!     8, 0, 6, 0, 77, 0, 0, 0, // RTA_PRIORITY
//! ];
//! let route = RouteMessage::try_from(&bytes[..])?;
//! assert_eq!((route.header.table, route.header.protocol), (254, RouteProtocol::Static));
//! let gateway = RouteAddress::Inet(Ipv4Addr::new(10, 0, 0, 9));
//! assert_eq!(route.attributes[1], RouteAttribute::Gateway(gateway));
//! assert_eq!(route.to_bytes()?, bytes);
//! # Ok::<(), Box<dyn std::error::Error>>(())
//! ```

pub use npr_encapsulation::{
    RouteErspanOpt, RouteGeneveOpt, RouteIp6Tunnel, RouteIp6TunnelFlags, RouteIpTunnel,
    RouteIpTunnelFlags, RouteLwEnCapType, RouteLwTunnelEncap, RouteLwTunnelOpt, RouteMplsIpTunnel,
    RouteVxlanOpt, RouteXfrmTunnel,
};
pub use npr_route::{
    NEXT_HOP_HEADER_SIZE, RTNH_ALIGNTO, RouteAttribute, RouteHeader, RouteMessage,
    RouteMessageBuffer, RouteMetric, RouteNextHop, RouteNextHopBuffer, RoutePath, governing_type,
    normalize, read_next_hops, read_route_list,
};
pub use npr_route_values::{
    MplsLabel, RouteAddress, RouteCacheInfo, RouteCacheInfoBuffer, RouteFlags, RouteMfcStats,
    RouteMfcStatsBuffer, RouteMplsTtlPropagation, RouteNextHopFlags, RoutePreference,
    RouteProtocol, RouteRealm, RouteScope, RouteType, RouteVia, RouteViaBuffer, emit_labels,
    labels_len, read_labels, write_labels,
};
pub use npr_srh::{
    Ioam6Mode, Ioam6TraceHdr, RouteIoam6Tunnel, RouteRplIpTunnel, RouteSeg6IpTunnel,
    RouteSeg6LocalTunnel, RplSrh, Seg6Header, Seg6LocalAction, Seg6LocalSrh, Seg6MessageBuffer,
    Seg6Mode,
};
