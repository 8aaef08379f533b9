//! Values of one width, one behind the other.

ghost use Rattle.std.specs.Prelude.{◌≡◌, ◌≤◌, ◌<◌, ◌^◌, length, IfOk, OnErr};
ghost use Rattle.npr_base.specs.{
  Blocks.{AreBlocks, IsBlock, Width, block_bytes},
  Framing.{Writes},
  Words.{words16, words32, words64, signed_words32, signed_words64},
};

use crate::values::write_array;
use std::alloc::{AllocError, Global};

/// A value of a fixed width: a number with the lowest byte first, or a structure.
pub trait Block: Copy {
    /// How it is read and written.
    ghost width: { Width Self };

    /// The value that stands for none.
    fn zero() -> Self
        ensures { result ≡ width.none };

    /// The width, in bytes.
    fn size() -> usize
        ensures { result ≡ width.layout.size };

    /// The value in the first bytes. Asks that they are there.
    ///
    /// # Panics
    /// May panic where it is not as asked.
    fn in_front(bytes: &[u8]) -> Self
        requires { width.layout.size ≤ length bytes.now }
        ensures { IsBlock width.layout bytes.now result };

    /// Writes it at the front of the slice, leaves the rest, and answers its length. Asks for room of it.
    ///
    /// # Panics
    /// May panic where it is not as asked.
    fn write(self, out: &mut [u8]) -> usize
        requires { width.layout.size ≤ length out.old }
        ensures len { result ≡ width.layout.size }
        ensures after { Writes out.old out.new (width.layout.encode self) };
}

impl Block for u16 {
    ghost width = { words16 };

    fn zero() -> u16 {
        0
    }

    fn size() -> usize {
        2
    }

    fn in_front(bytes: &[u8]) -> u16 {
        u16::from_le_bytes([bytes[0], bytes[1]])
    }

    fn write(self, out: &mut [u8]) -> usize {
        write_array(self.to_le_bytes(), out)
    }
}

impl Block for u32 {
    ghost width = { words32 };

    fn zero() -> u32 {
        0
    }

    fn size() -> usize {
        4
    }

    fn in_front(bytes: &[u8]) -> u32 {
        u32::from_le_bytes([bytes[0], bytes[1], bytes[2], bytes[3]])
    }

    fn write(self, out: &mut [u8]) -> usize {
        write_array(self.to_le_bytes(), out)
    }
}

impl Block for i32 {
    ghost width = { signed_words32 };

    fn zero() -> i32 {
        0
    }

    fn size() -> usize {
        4
    }

    fn in_front(bytes: &[u8]) -> i32 {
        i32::from_le_bytes([bytes[0], bytes[1], bytes[2], bytes[3]])
    }

    fn write(self, out: &mut [u8]) -> usize {
        write_array(self.to_le_bytes(), out)
    }
}

impl Block for u64 {
    ghost width = { words64 };

    fn zero() -> u64 {
        0
    }

    fn size() -> usize {
        8
    }

    fn in_front(bytes: &[u8]) -> u64 {
        u64::from_le_bytes([
            bytes[0], bytes[1], bytes[2], bytes[3], bytes[4], bytes[5], bytes[6], bytes[7],
        ])
    }

    fn write(self, out: &mut [u8]) -> usize {
        write_array(self.to_le_bytes(), out)
    }
}

impl Block for i64 {
    ghost width = { signed_words64 };

    fn zero() -> i64 {
        0
    }

    fn size() -> usize {
        8
    }

    fn in_front(bytes: &[u8]) -> i64 {
        i64::from_le_bytes([
            bytes[0], bytes[1], bytes[2], bytes[3], bytes[4], bytes[5], bytes[6], bytes[7],
        ])
    }

    fn write(self, out: &mut [u8]) -> usize {
        write_array(self.to_le_bytes(), out)
    }
}

/// The values of the bytes, in order; what is left at the end and too short for one is dropped.
///
/// # Errors
/// `AllocError` where memory is refused; bytes that are too short for one take none.
pub fn read_blocks<T: Block>(alloc: Global, bytes: &[u8]) -> Result<Vec<T>, AllocError>
    ensures ok { IfOk result (λ blocks. AreBlocks T.width.layout bytes.now blocks.items) }
    ensures memory { OnErr result (T.width.layout.size ≤ length bytes.now) }
{
    let mut blocks = Vec::new(alloc);
    let mut rest = bytes;
    while T::size() <= rest.len() {
        blocks.push(T::in_front(rest))?;
        rest = &rest[T::size()..];
    }
    Ok(blocks)
}

/// The length of the values, in bytes. Asks that it is below 2 to the 64.
///
/// # Panics
/// May panic where it is not as asked.
pub fn blocks_len<T: Block>(blocks: &[T]) -> usize
    requires { length (block_bytes T.width.layout blocks.now) < 2 ^ 64 }
    ensures { result ≡ length (block_bytes T.width.layout blocks.now) }
{
    blocks.len() * T::size()
}

/// Writes the values at the front of the slice, leaves the rest, and answers their length. Asks for
/// room of that length.
///
/// # Panics
/// May panic where it is not as asked.
pub fn write_blocks<T: Block>(blocks: &[T], out: &mut [u8]) -> usize
    requires { length (block_bytes T.width.layout blocks.now) ≤ length out.old }
    ensures len { result ≡ length (block_bytes T.width.layout blocks.now) }
    ensures after { Writes out.old out.new (block_bytes T.width.layout blocks.now) }
{
    let mut at = 0usize;
    for block in blocks {
        at += block.write(&mut out[at..]);
    }
    at
}
