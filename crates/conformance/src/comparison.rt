//! Lines of files, compared one after the other.

ghost use Rattle.std.specs.Prelude.{◌≡◌};

use crate::answer::Asked;
use hex::FromHexError;
use std::alloc::{AllocError, Global};
use std::io::{BufRead, BufReader};
use std::{fs, io};
use thiserror::Error;

/// The lines that are printed at most.
const PRINTED: u64 = 10;

/// Why a comparison ends early.
#[derive(Debug, Drop, Error)]
pub enum Fault {
    /// Reading or printing failed, or memory was refused.
    #[error(transparent)]
    Io(#[from] io::Error),
    /// A line that is no hexadecimal text, a tab and an answer.
    #[error("line {line} is no hexadecimal text, a tab and an answer")]
    Form { line: u64 },
}

impl From<AllocError> for Fault {
    fn from(fault: AllocError) -> Fault {
        Fault::Io(io::Error::from(fault))
    }
}

/// How many lines were compared, and how many were answered otherwise.
#[derive(Drop)]
pub struct Comparison {
    /// The lines that were compared.
    pub lines: u64,
    /// Those of them that were answered otherwise.
    pub differ: u64,
}

impl Comparison {
    /// Nothing is compared yet.
    pub fn new() -> Comparison
        ensures { result ≡ record { lines = 0; differ = 0 } }
    {
        Comparison {
            lines: 0,
            differ: 0,
        }
    }

    /// Compares each line of a file, one in memory at a time.
    pub fn compare_file(
        &mut self,
        rt: &HostRuntime,
        asked: Asked,
        path: &str,
    ) -> Result<(), Fault> {
        let file = fs::open(rt, path)?;
        let mut number = 0u64;
        for line in BufReader::new(rt.alloc(), file)?.lines(rt.alloc()) {
            let line = line?;
            number = number.saturating_add(1);
            if !self.compare_line(rt, asked, line.as_str())? {
                return Err(Fault::Form { line: number });
            }
        }
        Ok(())
    }

    /// Compares a line, and prints it where it is one of the first that are answered otherwise.
    /// `false` where the line is out of form.
    fn compare_line(&mut self, rt: &HostRuntime, asked: Asked, line: &str) -> Result<bool, Fault> {
        let Some((digits, wanted)) = line.split_once('\t') else {
            return Ok(false);
        };
        let Some(bytes) = bytes_of(rt.alloc(), digits)? else {
            return Ok(false);
        };
        if !is_answer(wanted) {
            return Ok(false);
        }
        let answered = asked.answer(rt.alloc(), bytes.as_slice())?;
        self.lines = self.lines.saturating_add(1);
        if answered.as_str() != wanted {
            self.differ = self.differ.saturating_add(1);
            if self.differ <= PRINTED {
                println!(rt; "{line}\n    answered {answered}")?;
            }
        }
        Ok(true)
    }
}

/// The bytes of hexadecimal text, if it is some.
fn bytes_of(alloc: Global, digits: &str) -> Result<Option<Vec<u8>>, AllocError> {
    match hex::decode(alloc, digits) {
        Ok(bytes) => Ok(Some(bytes)),
        Err(FromHexError::OutOfMemory) => Err(AllocError),
        Err(_) => Ok(None),
    }
}

fn is_answer(text: &str) -> bool {
    ["canonical ", "messages ", "refused ", "unfit "]
        .iter()
        .any(|word| text.starts_with(*word))
}
