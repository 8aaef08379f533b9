//! A window of fixed length over a reader, and why a run over its input ends early.
#![tactic(auto)]

mod stop;
mod window;

pub use stop::Stop;
pub use window::Window;
