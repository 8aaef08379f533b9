//! Routing headers of lightweight tunnels: SEG6, SEG6 local, RPL and IOAM6.
#![tactic(auto)]

mod ioam6;
pub mod laws;
mod rpl;
mod seg6;
mod seg6_header;
mod seg6_mode;
mod seg6local;
mod seg6local_action;
mod seg6local_srh;
mod segments;

pub use ioam6::{Ioam6Mode, Ioam6TraceHdr, RouteIoam6Tunnel};
pub use rpl::{RouteRplIpTunnel, RplSrh};
pub use seg6::RouteSeg6IpTunnel;
pub use seg6_header::{Seg6Header, Seg6MessageBuffer};
pub use seg6_mode::Seg6Mode;
pub use seg6local::RouteSeg6LocalTunnel;
pub use seg6local_action::Seg6LocalAction;
pub use seg6local_srh::Seg6LocalSrh;
