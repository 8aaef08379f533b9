//! Callers of `netlink_packet_route`, to be copied: each has a contract that says what it does, and
//! none but those with a loop and the function over any header needs a proof of its own.
#![tactic(auto)]

pub mod addresses;
pub mod again;
pub mod fault;
pub mod one_by_one;
pub mod routes;
pub mod stored;
pub mod values;
pub mod walk;
