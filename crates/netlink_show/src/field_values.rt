//! How the values of pieces are shown.

use crate::field::{Fields, Flags, ITEM, Word};
use crate::manner::{Bits, Hexadecimal};
use crate::names::Names;
use netlink_packet_route::AddressFamily;
use serde_json::Value;
use std::alloc::AllocError;
use std::fmt;
use std::num::nearest_u64_to_f64;

impl Fields<'_> {
    /// A text that is made for it, which is a text in JSON too.
    pub fn made(&mut self, word: Word, text: Result<String, AllocError>) {
        match text {
            Ok(text) => self.text(word, &text),
            Err(AllocError) => self.refuse(),
        }
    }

    /// A value as it is printed, in the place of which a line shows this text.
    pub fn text_shown<V: fmt::Display>(
        &mut self,
        word: Word,
        value: &V,
        text: Result<String, AllocError>,
    ) {
        match format!(in self.manner.alloc; "{value}") {
            Ok(value) => self.written(word, value, text),
            Err(AllocError) => self.refuse(),
        }
    }

    /// A number's name among these, or the number.
    pub fn named<N: Into<u32>>(&mut self, word: Word, names: Names, number: N) {
        let number = number.into();
        match self.manner.name(names, number) {
            Some(name) => self.text(word, &name),
            None => self.text(word, &number),
        }
    }

    /// A number.
    pub fn number<N: Into<Value> + fmt::Display + Copy>(&mut self, word: Word, number: N) {
        self.push(word, number, &number);
    }

    /// An interface by its name, or by its number where nobody has told a name.
    pub fn interface(&mut self, word: Word, index: u32) {
        match self.manner.interface(index) {
            Some(name) => self.text(word, &name),
            None => self.number(word, index),
        }
    }

    /// An interface, of which a line has nothing where its number is 0.
    pub fn some_interface(&mut self, word: Word, index: u32) {
        self.interface(word, index);
        self.hide_if(index == 0);
    }

    /// Seconds that are left; the greatest number is for ever.
    pub fn lifetime(&mut self, word: Word, seconds: u32) {
        match seconds {
            u32::MAX => self.push(word, seconds, &"forever"),
            _ => self.seconds(word, seconds),
        }
    }

    /// Seconds.
    pub fn seconds<N: Into<Value> + fmt::Display + Copy>(&mut self, word: Word, seconds: N) {
        let text = format!(in self.manner.alloc; "{seconds}sec");
        self.written(word, seconds, text)
    }

    /// Hundredths of a second.
    pub fn hundredths(&mut self, word: Word, count: u64) {
        let (seconds, rest) = (count / 100, count % 100);
        let text = format!(in self.manner.alloc; "{seconds}.{rest:02}");
        self.written(word, nearest_u64_to_f64(count) / 100.0, text)
    }

    /// Hundredths of a second, as seconds without zeros at the end.
    pub fn span(&mut self, word: Word, count: u64) {
        let (seconds, rest) = (count / 100, count % 100);
        if rest == 0 {
            return self.number(word, seconds);
        }
        let text = match rest % 10 {
            0 => format!(in self.manner.alloc; "{seconds}.{}", rest / 10),
            _ => format!(in self.manner.alloc; "{seconds}.{rest:02}"),
        };
        self.written(word, nearest_u64_to_f64(count) / 100.0, text)
    }

    /// A truth value, which a line tells by `on` and `off`.
    pub fn switch(&mut self, word: Word, is_on: bool) {
        self.push(word, is_on, &(if is_on { "on" } else { "off" }));
    }

    /// A truth value, which a line tells by the first of two words or by the other.
    pub fn either(&mut self, word: Word, is_so: bool, words: (&str, &str)) {
        self.push(word, is_so, &(if is_so { words.0 } else { words.1 }));
    }

    /// A word without a value, which a line has where it is so.
    pub fn word_if(&mut self, word: Word, is_so: bool) {
        self.truth(word, is_so);
        self.hide_if(!is_so);
    }

    /// An address family by its name.
    pub fn family(&mut self, word: Word, family: u8) {
        self.text(word, &AddressFamily::from(family));
    }

    /// Bits, which are a hexadecimal text in JSON too.
    pub fn bits<N: Into<u64>>(&mut self, word: Word, bits: N) {
        self.text(word, &Bits(bits.into()));
    }

    /// Bits that a line shows so.
    pub fn bits_shown<D: fmt::Display>(&mut self, word: Word, bits: u32, shown: &D) {
        match format!(in self.manner.alloc; "{}", Bits(u64::from(bits))) {
            Ok(text) => self.push(word, text, shown),
            Err(AllocError) => self.refuse(),
        }
    }

    /// Bits, if there are some.
    pub fn some_bits<N: Into<u64>>(&mut self, word: Word, bits: N) {
        let bits = bits.into();
        if bits != 0 {
            self.bits(word, bits);
        }
    }

    /// Bytes in hexadecimal.
    pub fn bytes(&mut self, word: Word, bytes: &[u8]) {
        self.text(word, &Hexadecimal(bytes, ""));
    }

    /// A word without a value: `null` in JSON.
    pub fn mark(&mut self, word: Word) {
        self.push(word, (), &"");
    }

    /// A word without a value, which tells that something is so, or is not.
    pub fn truth(&mut self, word: Word, is_so: bool) {
        self.push(word, is_so, &"");
    }

    /// The words of the bits that are set, of which this is the value. Answers the bits without a word.
    pub fn flags(&mut self, flags: Flags, bits: u32, value: Option<bool>) -> u32 {
        let mut rest = bits;
        for (bit, word) in flags {
            if bits & *bit != 0 {
                self.push(*word, value, &"");
            }
            rest &= !*bit;
        }
        rest
    }

    /// The names of the bits that are set, and the rest as a number, which are a list in JSON.
    pub fn set(&mut self, word: Word, names: Names, bits: u32, between: &str) {
        let mut inside = Fields::new(self.manner);
        let rest = inside.names(names, bits);
        inside.some_bits(ITEM, rest);
        self.list(word, inside, between);
    }

    /// The names of the bits that are set, each a piece of a list. Answers the bits without a name.
    pub fn names(&mut self, names: Names, bits: u32) -> u32 {
        let mut rest = bits;
        for (bit, name) in names {
            if bits & *bit != 0 {
                self.text(ITEM, name);
            }
            rest &= !*bit;
        }
        rest
    }
}
