//! Route messages of rtnetlink.
#![tactic(auto)]

mod attribute;
mod descent;
mod header;
pub mod laws;
mod list;
mod message;
mod metrics;
mod modes;
mod next_hop_buffer;
mod next_hops;
mod path;
mod reader;
mod rows;

pub use attribute::RouteAttribute;
pub use header::{RouteHeader, RouteMessageBuffer};
pub use list::{governing_type, read_route_list};
pub use message::RouteMessage;
pub use metrics::RouteMetric;
pub use modes::normalize;
pub use next_hop_buffer::{NEXT_HOP_HEADER_SIZE, RTNH_ALIGNTO, RouteNextHopBuffer};
pub use next_hops::RouteNextHop;
pub use path::RoutePath;
pub use reader::read_next_hops;
