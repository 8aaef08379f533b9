//! Messages of Linux rtnetlink on links, addresses, routes, rules, neighbours and their tables, next
//! hops, name spaces, settings, address labels, prefixes, statistics and traffic control: bytes to typed
//! values and back.
//!
//! A message is read by `parse` and written by `emit`, once `check` accepts it. Names and paths are
//! those of the Rust crate `netlink-packet-route`; what that crate takes from others stands in
//! `framing` and `net`, the messages of a datagram in `envelope`, requests in `request`, what a family
//! of one's own is made of in `family`, the numbers of values in `numbers`, and all laws in `laws`. A
//! program that reads messages of any kind tells them by `MessageKind`, and one that reads them off a
//! socket by `RouteNetlinkMessage`.
#![tactic(auto)]

pub mod address;
pub mod address_label;
mod apart;
mod begin;
mod canonical_bytes;
mod checking;
mod context;
mod entry;
pub mod envelope;
pub mod family;
pub mod framing;
mod kind;
pub mod laws;
pub mod link;
mod locating;
mod message;
mod message_type;
pub mod neighbour;
pub mod neighbour_table;
mod nests;
pub mod net;
pub mod netconf;
pub mod nexthop;
pub mod nsid;
pub mod numbers;
pub mod prefix;
pub mod request;
pub mod route;
pub mod rule;
pub mod stats;
pub mod tc;
mod type_tests;
mod validity;

pub use bitflags::Flags;
pub use canonical_bytes::{CanonicalError, WriteCanonicalError, canonical, write_canonical};
pub use context::Context;
pub use entry::Entry;
pub use kind::MessageKind;
pub use locating::locate;
pub use message::{OtherMessage, RouteNetlinkMessage};
pub use message_type::{Action, MessageType, Subject};
pub use nests::Nest;
pub use npr_base::AddressFamily;
pub use npr_names::Located;
pub use npr_route_values::IpProtocol;
pub use validity::validate;
