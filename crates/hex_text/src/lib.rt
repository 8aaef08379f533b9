//! Hexadecimal text: which bytes it stands for, or where it is wrong.
#![tactic(auto)]

mod place;
mod reading;
mod state;

pub use place::Place;
pub use reading::{HexError, bytes_of};
