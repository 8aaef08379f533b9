//! Texts as C takes them, and what is wrong with a message in words.

ghost use Rattle.std.specs.Prelude.{◌≡◌, ◌≤◌, ◌++◌, ◌⊎◌, ℕ, List, length, take, IsOk, IfSome};
ghost use Rattle.{
  netlink_packet_route.specs.{
    MessageKind.{form_of},
    Messages.{MessageFault},
    declared.framing.DecodeError.{DecodeError},
  },
  npr_c.specs.{Kinds.{kind_at}, Names.{Puts}},
};

use crate::kinds::kind_at;
use netlink_packet_route::{Located, locate};
use std::fmt::{self, Write};
use std::marker::Model;

/// Writes the text and a zero to the front of the buffer, where both have room there, and leaves
/// the rest. Answers the length of the text.
pub fn put(text: &[u8], out: &mut [u8]) -> usize
    ensures length { result ≡ length text.now }
    ensures text { Puts out.old out.new text.now }
{
    let length = text.len();
    if length < out.len() {
        out[..length].copy_from_slice(text);
        out[length] = 0;
    }
    length
}

/// The longest text of a fault in bytes.
const LONGEST: usize = 255;

/// A text of few bytes that is written piece by piece. Contracts see what is written so far.
#[derive(Drop)]
struct Words {
    bytes: [u8; LONGEST],
    count: usize,
}

impl Model for Words {
    ghost Value = { List ℕ };

    ghost view = { λ w. take w.count w.bytes };

    ghost invariant = { λ w. w.count ≤ 255 };
}

impl Words {
    fn new() -> Words {
        Words {
            bytes: [0; LONGEST],
            count: 0,
        }
    }

    fn written(&self) -> &[u8]
        ensures text { result.now ≡ self.now }
        ensures longest { length result.now ≤ 255 }
    {
        &self.bytes[..self.count]
    }
}

/// `write_str` appends the whole text, or fails and appends nothing.
impl fmt::Write for Words {
    ghost write_str_gives = { λ w bytes v. v ≡ w ++ bytes };

    fn write_str(&mut self, text: &str) -> fmt::Result
        ensures ok { IsOk result → self.new ≡ self.old ++ text.now }
    {
        let text = text.as_bytes();
        if LONGEST - self.count < text.len() {
            return Err(fmt::Error);
        }
        let end = self.count + text.len();
        self.bytes[self.count..end].copy_from_slice(text);
        self.count = end;
        Ok(())
    }
}

/// Writes what a refusal with its place says, in the same way.
fn put_place(place: &Located, out: &mut [u8]) -> usize
    ensures text { (text : List ℕ) × Puts out.old out.new text × (result ≡ length text) }
    ensures longest { result ≤ 255 }
{
    let mut words = Words::new();
    // Each text has room.
    let _ = write!(words, "{place}");
    put(words.written(), out)
}

/// Writes what is wrong with the bytes as a message of the kind of this number, in words, and a zero, to the
/// front of the buffer, and leaves the rest of it: the attribute by name and number, the lengths that are
/// there and that are wanted, and the place. Answers the length of the text in bytes, without the zero: 0
/// where the bytes are a message. The buffer is as it was where there is no room. It takes no memory.
#[unsafe(no_mangle)]
pub extern "C" fn npr_fault_text(kind: u32, bytes: &[u8], out: &mut [u8]) -> usize
    ensures text { (text : List ℕ) × Puts out.old out.new text × (result ≡ length text) }
    ensures longest { result ≤ 255 }
    // There is none, or a fault.
    ensures fault { IfSome (kind_at kind) (λ known. (result ≡ 0) ⊎ ((e : DecodeError) × MessageFault (form_of known).grammar bytes.now e)) }
{
    match kind_at(kind) {
        None => put(b"no such kind of messages", out),
        Some(known) => match locate(known, bytes) {
            Ok(()) => put(b"", out),
            Err(place) => put_place(&place, out),
        },
    }
}
