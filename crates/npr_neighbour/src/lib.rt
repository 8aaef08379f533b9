//! Messages of neighbours, and of tables of neighbours.
#![tactic(auto)]

mod address;
mod attribute;
mod cache_info;
mod fdb;
mod flags;
mod header;
pub mod laws;
mod message;
mod neighbour_table;
mod neighbour_table_attribute;
mod neighbour_table_config;
mod neighbour_table_parameter;
mod neighbour_table_stats;
mod state;

pub use address::NeighbourAddress;
pub use attribute::NeighbourAttribute;
pub use cache_info::{NeighbourCacheInfo, NeighbourCacheInfoBuffer};
pub use fdb::NeighbourFdbAttribute;
pub use flags::{NeighbourExtFlags, NeighbourFdbNotify, NeighbourFlags};
pub use header::{NeighbourHeader, NeighbourMessageBuffer};
pub use message::NeighbourMessage;
pub use neighbour_table::{
    NeighbourTableHeader, NeighbourTableMessage, NeighbourTableMessageBuffer,
};
pub use neighbour_table_attribute::NeighbourTableAttribute;
pub use neighbour_table_config::{NeighbourTableConfig, NeighbourTableConfigBuffer};
pub use neighbour_table_parameter::NeighbourTableParameter;
pub use neighbour_table_stats::{NeighbourTableStats, NeighbourTableStatsBuffer};
pub use state::NeighbourState;
