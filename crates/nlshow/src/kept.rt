//! The file for what is refused.

use byte_window::Stop;
use std::fs;
use std::fs::{File, Metadata};
use std::io::Write;
use std::os::unix::fs::MetadataExt;
use std::rt::Files;

/// The file for what is refused, which is made when the first of it comes.
#[derive(Drop)]
pub struct Kept<'r, 'a> {
    rt: &'r HostRuntime,
    /// Its name, if anything is to be kept.
    pub name: Option<&'a str>,
    file: Option<File>,
}

impl<'r, 'a> Kept<'r, 'a> {
    /// A file of this name that is not made yet.
    pub fn new(rt: &'r HostRuntime, name: Option<&'a str>) -> Kept<'r, 'a> {
        Kept {
            rt,
            name,
            file: None,
        }
    }

    /// Adds these bytes, if anything is to be kept.
    pub fn add(&mut self, bytes: &[u8]) -> Result<(), Stop> {
        let Some(name) = self.name else {
            return Ok(());
        };
        if self.file.is_none() {
            self.file = Some(fs::create(self.rt, name).map_err(|_| Stop::Open)?);
        }
        match &mut self.file {
            None => Ok(()),
            Some(file) => file.write_all(bytes).map_err(|_| Stop::Write),
        }
    }
}

/// Whether the input of this name is the file of that one, by whatever path.
pub fn is_emptied(rt: &impl Files, input: &str, keep: Option<&str>) -> bool {
    let path = if input == "-" { "/dev/stdin" } else { input };
    let Some(keep) = keep.and_then(|name| fs::metadata(rt, name).ok()) else {
        return false;
    };
    fs::metadata(rt, path).is_ok_and(|input| is_same(&input, &keep))
}

/// Whether both tell of one file, which has bytes of its own.
fn is_same(one: &Metadata, other: &Metadata) -> bool {
    one.is_file() && one.dev() == other.dev() && one.ino() == other.ino()
}
