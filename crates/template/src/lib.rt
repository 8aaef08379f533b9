//! A family of attributes and a message of one's own, to be copied: the neighbour message of the
//! kernel, with four of its attributes.
#![tactic(auto)]

pub mod neighbour;
pub mod neighbour_message;
