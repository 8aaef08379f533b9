//! A place in a text, as people count.

ghost use Rattle.std.specs.Prelude.{Some};
ghost use Rattle.hex_text.specs.Place.{IsPlace, place_text};

use std::fmt;

/// A place in a text: the line, and the byte in it, each from 1 on.
#[derive(Clone, Copy, Debug)]
pub struct Place {
    /// The line.
    pub line: usize,
    /// The byte in the line.
    pub column: usize,
}

impl Place {
    /// The place behind this beginning of a text.
    pub fn behind(front: &[u8]) -> Place
        ensures { IsPlace front.now result.line result.column }
    {
        let mut line = 1;
        let mut column = 1;
        for &byte in front {
            if byte == b'\n' {
                line += 1;
                column = 1;
            } else {
                column += 1;
            }
        }
        Place { line, column }
    }
}

/// The line and the column.
impl fmt::Display for Place {
    ghost output = { λ place. Some (place_text place.line place.column) };

    fn fmt<W: fmt::Write>(&self, f: &mut fmt::Formatter<W>) -> fmt::Result {
        write!(f, "line {}, column {}", self.line, self.column)
    }
}
