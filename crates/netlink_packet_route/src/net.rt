//! Addresses of IP.

pub use npr_base::{IpAddr, Ipv4Addr, Ipv6Addr, emit_v6_list, read_v6_list, v6_list_len};
