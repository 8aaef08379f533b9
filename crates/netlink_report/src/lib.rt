//! Reports on a message of rtnetlink that is read as hexadecimal text: what the program `nlroute` does,
//! over any reader and any writer.
#![tactic(auto)]

mod command_line;
mod counted;
mod ended;
mod envelope;
mod error;
mod input;
mod output;
mod report;
mod running;

pub use command_line::{Command, HELP, USAGE, Which};
pub use counted::Counted;
pub use ended::{Ended, Where};
pub use error::{RunError, law_equality};
pub use hex_text::{HexError, Place, bytes_of};
pub use input::read_all;
pub use output::{finish, write_text};
pub use running::run;
