//! Rows of tables: what `ip` says of an attribute by its number, or of a part of a structure by its place.

use crate::field::{Flags, Word};
use crate::names::Names;

/// The rows of a list of attributes.
pub type Rows = &'static [Row];

/// An attribute: its number, its word, how its value is shown, and when a line has it.
pub struct Row {
    /// The number in its set; of a part of a structure the place of its first byte.
    pub number: u16,
    /// The place in a line, the key in JSON, and the text in front.
    pub word: Word,
    /// How the value is shown.
    pub how: How,
    /// When a line has it.
    pub line: Line,
}

/// How a value is shown.
#[derive(Clone, Copy)]
pub enum How {
    /// A number; a truth value as 0 or 1.
    Number,
    /// A number, in the place of this one of which a line has a text.
    Except(u32, &'static str),
    /// Bits, as `%#x` prints them.
    Bits,
    /// The same, in the place of this number of which a line has a text.
    BitsExcept(u32, &'static str),
    /// Four bytes, as an address of version 4 is written.
    Dotted,
    /// A text, an address of IP, labels, or the digits of bytes.
    Text,
    /// The address of an end of a tunnel, which may be any.
    End,
    /// The address of a device.
    Hardware,
    /// The address of a device of the link's type.
    OfType,
    /// The name of a number, or the number.
    Named(Names),
    /// The name of a number, or by this word the number.
    Known(Names, Word),
    /// The names of bits in a list, with this between them.
    Set(Names, &'static str),
    /// The names of bits in angle brackets.
    Angled(Names),
    /// The words of bits, each by itself, and all bits, of which a line has none.
    Flags(Flags),
    /// An interface.
    Interface,
    /// A group of interfaces.
    Group,
    /// Hundredths of a second.
    Hundredths,
    /// The same without zeros at the end.
    Span,
    /// Seconds that are left; the greatest number is for ever.
    Lifetime,
    /// A truth value, as `on` or `off`.
    Switch,
    /// A truth value, of which a line has the text in front alone.
    Truth,
    /// A truth value, for which a line has the first or the second text.
    Either(&'static str, &'static str),
    /// The same, and the text stands in JSON too.
    OneOf(&'static str, &'static str),
    /// Nothing but the text in front: `null` in JSON.
    Mark,
    /// The same where it is so, and else false.
    Lone,
    /// A number of 32 bits with a sign.
    Signed,
    /// A truth value as `on` or `off`, or another number.
    Setting,
    /// Numbers of four bytes by their keys, which no line has.
    Keyed(&'static [&'static str]),
    /// The same of eight bytes.
    KeyedWide(&'static [&'static str]),
    /// A list of attributes: an object.
    Object,
    /// The same, and bytes by this word where it is no list.
    Data(Word),
    /// The same as the only object in a list, between these.
    Alone(&'static str, &'static str),
    /// A list of attributes whose pieces stand among those beside it.
    Flat,
    /// A list of attributes whose values are a list, with this before, between and behind them.
    Items(&'static str, &'static str, &'static str),
    /// The same, each in an object by itself.
    Objects(&'static str, &'static str, &'static str),
    /// The other end of a pair: a header and a list, as an object.
    Peer,
    /// Next hops: each a header and a list, as an object.
    NextHops,
    /// It stands with something else.
    Apart,
    /// There are no words for it: its bytes.
    Written,
    /// In a way of its own: a function beside the table has it.
    Own,
}

/// When a line has a value; JSON always has it, but where it is said.
#[derive(Clone, Copy)]
pub enum Line {
    /// Always.
    Always,
    /// Unless it is 0, empty or false.
    IfAny,
    /// The same, and so in JSON.
    Told,
    /// Never.
    Never,
    /// Unless it is this number.
    Not(u32),
    /// Where the attribute of this number has one of these bits.
    IfBits(u16, u32),
    /// Unless it has one of them.
    UnlessBits(u16, u32),
    /// Where the attribute of this number is this.
    IfIs(u16, u32),
    /// Where the attributes of these two numbers are not 0.
    IfBoth(u16, u16),
}

/// All bits.
pub const ANY: u32 = u32::MAX;

/// The parts of a structure.
pub type Parts = &'static [Part];

/// A part of a structure: its size, and its row.
pub struct Part {
    /// How many bytes it has, and their order.
    pub size: Size,
    /// Its place, its word, how it is shown, and when.
    pub row: Row,
}

/// A number in a structure.
#[derive(Clone, Copy)]
pub enum Size {
    /// One byte.
    U8,
    /// Two bytes, little endian.
    U16,
    /// Four bytes, little endian.
    U32,
    /// Eight bytes, little endian.
    U64,
    /// The same, with a sign.
    I64,
    /// Two bytes, big endian.
    Be16,
}

/// Rows, each a number, a place, a key, a text in front, how, and when a line has it.
#[macro_export]
macro_rules! rows {
    ($($number:literal $place:literal $key:literal $text:literal $how:expr $(, $line:expr)?;)*) => {
        &[$($crate::row::Row {
            number: $number,
            word: &$crate::field::Wording($place, $key, $text),
            how: $how,
            line: $crate::line_of!($($line)?),
        }),*]
    };
}

/// Parts, each a size, the place of its first byte, and what a row has behind its number.
#[macro_export]
macro_rules! parts {
    ($($size:ident $at:literal $place:literal $key:literal $text:literal $how:expr $(, $line:expr)?;)*) => {
        &[$($crate::row::Part {
            size: $crate::row::Size::$size,
            row: $crate::row::Row {
                number: $at,
                word: &$crate::field::Wording($place, $key, $text),
                how: $how,
                line: $crate::line_of!($($line)?),
            },
        }),*]
    };
}

/// When a line has a value: always where nothing is said.
#[macro_export]
macro_rules! line_of {
    () => {
        $crate::row::Line::Always
    };
    ($line:expr) => {
        $line
    };
}
