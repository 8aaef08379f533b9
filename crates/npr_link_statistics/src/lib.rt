//! Counters and settings of links, which each kernel has as many of as it has.
#![tactic(auto)]

mod grown;
mod icmp6_stats;
mod inet6_devconf;
mod inet6_stats;
mod inet_devconf;
pub mod laws;
mod numbers;
mod stats;
mod stats64;

pub use grown::Grown;
pub use icmp6_stats::Icmp6Stats;
pub use inet_devconf::InetDevConf;
pub use inet6_devconf::Inet6DevConf;
pub use inet6_stats::Inet6Stats;
pub use numbers::{copy_numbers, grown_len, read_grown, write_grown};
pub use stats::Stats;
pub use stats64::Stats64;
