//! A reader through a window of fixed length, so that memory does not grow with the input.

ghost use Rattle.std.specs.{
  Prelude.{◌≡◌, ◌≤◌, ◌<◌, ◌↔◌, ◌++◌, ◌+◌, ◌-◌, ◌^◌, ◌==◌, ℕ, List, [], IfOk, IfErr, OnErr, IsFalse, IsTrue, drop, length, min, vec_len},
  Io.KnownBytes.{Consumes, IsAtEnd, Keeps},
};
ghost use Rattle.byte_window.specs.{declared.stop.Stop.TheVariants.{Read as ReadFailed}, Window.{between}};

use crate::stop::Stop;
use std::alloc::{AllocError, Global};
use std::io::Read;

/// What a reader gave and nobody has passed yet.
#[derive(Drop)]
pub struct Window<R> {
    reader: R,
    room: Vec<u8>,
    start: usize,
    end: usize,
    passed: u64,
    ghost ordered: { start ≤ end },
    ghost inside: { end ≤ vec_len room },
}

impl<R: Read + Drop> Window<R> {
    /// A window of this length before the reader, which holds nothing yet.
    ///
    /// # Errors
    /// `AllocError` where memory is refused; a length of 0 wants none.
    pub fn new(alloc: Global, reader: R, length: usize) -> Result<Window<R>, AllocError>
        ensures empty { IfOk result (λ window. between window.room.items window.start window.end ≡ []) }
        ensures fresh { IfOk result (λ window. (window.reader ≡ reader) × (window.passed ≡ 0) × (vec_len window.room ≡ length)) }
        ensures memory { OnErr result (0 < length) }
    {
        let mut room = Vec::with_capacity(alloc, length)?;
        room.resize_with(length, || 0u8)?;
        Ok(Window {
            reader,
            room,
            start: 0,
            end: 0,
            passed: 0,
        })
    }

    /// The bytes in the window.
    pub fn held(&self) -> &[u8]
        ensures { result.now ≡ between self.now.room.items self.now.start self.now.end }
    {
        &self.room.as_slice()[self.start..self.end]
    }

    /// How many bytes of the input stand before the window.
    pub fn passed(&self) -> u64
        ensures { result ≡ self.now.passed }
    {
        self.passed
    }

    /// Whether the window has no room for more.
    pub fn is_full(&self) -> bool
        ensures { result ≡ (self.now.end - self.now.start == vec_len self.now.room) }
    {
        self.end - self.start == self.room.len()
    }

    /// Passes so many of the bytes in the window, or all.
    pub fn pass(&mut self, count: usize)
        ensures rest { let n = min count (self.old.end - self.old.start) in between self.new.room.items self.new.start self.new.end ≡ drop n (between self.old.room.items self.old.start self.old.end) }
        ensures passed { let n = min count (self.old.end - self.old.start) in self.new.passed ≡ min (self.old.passed + n) (2 ^ 64 - 1) }
        ensures kept { (self.new.reader ≡ self.old.reader) × (self.new.room ≡ self.old.room) }
    {
        let count = count.min(self.end - self.start);
        self.start += count;
        self.passed = self.passed.saturating_add(count as u64);
    }

    /// Moves the bytes in the window to the front of its room.
    fn shift(&mut self)
        ensures same { between self.new.room.items self.new.start self.new.end ≡ between self.old.room.items self.old.start self.old.end }
        ensures front { self.new.start ≡ 0 }
        ensures rest { (self.new.reader ≡ self.old.reader) × (self.new.passed ≡ self.old.passed) }
        ensures room { vec_len self.new.room ≡ vec_len self.old.room }
    {
        self.room
            .as_mut_slice()
            .copy_within(self.start..self.end, 0);
        self.end -= self.start;
        self.start = 0;
    }

    /// Reads once into the room that is left, and answers whether anything came. Nothing comes
    /// where no room is left, and at the reader's end. No failed read is tried again; one leaves what
    /// the window holds.
    ///
    /// # Errors
    /// `Stop::Read` where the read failed.
    pub fn fill(&mut self) -> Result<bool, Stop>
        ensures more { IfOk result (λ more. (bytes : List ℕ) × (IsTrue more ↔ (0 < length bytes)) × (between self.new.room.items self.new.start self.new.end ≡ between self.old.room.items self.old.start self.old.end ++ bytes)
            × Consumes (R.remaining self.old.reader) (R.remaining self.new.reader) bytes) }
        ensures end { IfOk result (λ more. IsFalse more → self.old.end - self.old.start < vec_len self.old.room → IsAtEnd (R.remaining self.new.reader)) }
        ensures failed { IfErr result (λ stop. stop ≡ ReadFailed) }
        ensures unchanged { OnErr result (between self.new.room.items self.new.start self.new.end ≡ between self.old.room.items self.old.start self.old.end) }
        ensures unread { OnErr result (Keeps (R.remaining self.old.reader) (R.remaining self.new.reader)) }
        ensures passed { self.new.passed ≡ self.old.passed }
        ensures room { vec_len self.new.room ≡ vec_len self.old.room }
    {
        self.shift();
        match self.reader.read(&mut self.room.as_mut_slice()[self.end..]) {
            Ok(count) => {
                self.end += count;
                Ok(count != 0)
            }
            Err(_) => Err(Stop::Read),
        }
    }
}
