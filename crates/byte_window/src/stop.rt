//! Why a run ends before its input does.

ghost use Rattle.std.specs.{Prelude.{◌≡◌, option_map}, IoError.{error_kind}};
ghost use Rattle.byte_window.specs.{declared.stop.Stop.TheVariants.{Memory}, Stop.{line_of, status_of, unopened, unwritten}};

use std::alloc::{AllocError, AllocFailed};
use std::io;
use std::io::ErrorKind;

/// Why a run ends before its input does.
#[derive(Clone, Copy)]
pub enum Stop {
    /// Memory was refused.
    Memory,
    /// There is no file of this name.
    Missing,
    /// A file may not be opened.
    Forbidden,
    /// A file could not be opened, or made.
    Open,
    /// Input could not be read.
    Read,
    /// Output could not be written.
    Write,
    /// Nobody reads the output any more.
    Closed,
}

impl Stop {
    /// The status that the process ends with, where no message was refused before.
    pub fn status(&self) -> u8
        ensures { result ≡ status_of self.now }
    {
        match self {
            Stop::Closed => 0,
            Stop::Memory => 4,
            Stop::Missing | Stop::Forbidden | Stop::Open | Stop::Read | Stop::Write => 5,
        }
    }

    /// The line for standard error, without its end; nothing where nobody is to be told.
    pub fn line(&self) -> Option<&'static str>
        ensures { option_map (λ line. line.now) result ≡ line_of self.now }
    {
        match self {
            Stop::Memory => Some("out of memory"),
            Stop::Missing => Some("no such file or directory"),
            Stop::Forbidden => Some("permission denied"),
            Stop::Open => Some("cannot be opened"),
            Stop::Read => Some("read failed"),
            Stop::Write => Some("write failed"),
            Stop::Closed => None,
        }
    }

    /// Why a file could not be opened, or made.
    pub fn of_open(fault: &io::Error) -> Stop
        ensures { result ≡ unopened (error_kind fault.now) }
    {
        match fault.kind() {
            ErrorKind::NotFound => Stop::Missing,
            ErrorKind::PermissionDenied => Stop::Forbidden,
            _ => Stop::Open,
        }
    }

    /// Why a write failed.
    pub fn of_write(fault: &io::Error) -> Stop
        ensures { result ≡ unwritten (error_kind fault.now) }
    {
        match fault.kind() {
            ErrorKind::BrokenPipe => Stop::Closed,
            _ => Stop::Write,
        }
    }
}

impl From<AllocError> for Stop {
    ghost from_gives = { λ _ stop. stop ≡ Memory };

    fn from(_fault: AllocError) -> Stop {
        Stop::Memory
    }
}

impl<T: Drop> From<AllocFailed<T>> for Stop {
    ghost from_gives = { λ _ stop. stop ≡ Memory };

    fn from(_fault: AllocFailed<T>) -> Stop {
        Stop::Memory
    }
}
