//! The names of attributes, by their sets and numbers, and refusals in words.
#![tactic(auto)]

mod link;
mod link_function;
mod link_kind;
mod names;
mod refusal;
mod route;
mod small;
mod statistics;
mod tc;
mod tc_action;
mod tc_kind;

pub use names::attribute_name;
pub use refusal::{Located, Named, front_number, lengths_of, told_of};
