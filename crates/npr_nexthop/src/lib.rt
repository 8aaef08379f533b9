//! Next hop messages of rtnetlink.
#![tactic(auto)]

mod attribute;
mod governing;
mod group;
mod group_stats;
mod group_stats_entry;
mod group_type;
mod header;
pub mod laws;
mod message;
mod op_flags;
mod res_bucket;
mod res_group;

pub use attribute::NextHopAttribute;
pub use group::NextHopGroupEntry;
pub use group_stats::NextHopGroupStats;
pub use group_stats_entry::NextHopGroupStatsEntry;
pub use group_type::NextHopGroupType;
pub use header::{NextHopHeader, NextHopMessageBuffer};
pub use message::NextHopMessage;
pub use op_flags::NextHopOpFlags;
pub use res_bucket::NextHopResBucket;
pub use res_group::NextHopResGroup;
