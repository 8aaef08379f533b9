//! What is shown of a message, piece by piece: each piece has its text and its value in JSON, so that
//! a line and an object are made of one list.

use crate::manner::Manner;
use serde_json::{Map, Value};
use std::alloc::{AllocError, Global};
use std::fmt;

/// The key of attributes that nobody knows.
pub const UNKNOWN: &str = "unknown";

/// The key of the pieces whose key was there before.
const AGAIN: &str = "again";

/// What a word of `ip` is: where it stands in a line, the key that it has in JSON, and what stands
/// before the value in a line.
pub struct Wording(pub u8, pub &'static str, pub &'static str);

/// A word of `ip`. A reference to one costs the prover a fifth of what the words themselves do.
pub type Word = &'static Wording;

/// Bits, each with its word.
pub type Flags = &'static [(u32, Word)];

/// A piece of a message.
#[derive(Drop)]
struct Field {
    /// Pieces stand in the order of their places.
    place: u8,
    /// The key in JSON.
    key: &'static str,
    /// What stands in a line, if anything.
    text: String,
    /// The value in JSON.
    value: Value,
}

/// The pieces of a message, or of an object inside one. Where memory is refused for one, pieces are
/// still taken, and what is made of them is refused in the end.
#[derive(Drop)]
pub struct Fields<'a> {
    /// How values are shown.
    pub manner: Manner<'a>,
    items: Vec<Field>,
    /// Whether memory was refused for a piece.
    is_cut: bool,
}

impl<'a> Fields<'a> {
    /// No pieces.
    pub fn new(manner: Manner<'a>) -> Fields<'a> {
        Fields {
            manner,
            items: Vec::new(manner.alloc),
            is_cut: false,
        }
    }

    /// Whether there is nothing, and no memory was refused.
    pub fn is_empty(&self) -> bool {
        self.items.is_empty() && !self.is_cut
    }

    /// Takes notice that memory was refused.
    pub fn refuse(&mut self) {
        self.is_cut = true;
    }

    /// Adds a piece of this value, which a line shows so behind its word.
    pub fn push<V: Into<Value>, D: fmt::Display>(&mut self, word: Word, value: V, shown: &D) {
        let lead = word.2;
        let value = value.into();
        match format!(in self.manner.alloc; "{lead}{shown}") {
            Ok(text) => self.add(word, text, value),
            Err(AllocError) => self.is_cut = true,
        }
    }

    /// A value that a line shows by this text behind its word.
    pub fn written<V: Into<Value>>(
        &mut self,
        word: Word,
        value: V,
        text: Result<String, AllocError>,
    ) {
        let value = value.into();
        match text {
            Ok(text) => self.push(word, value, &text),
            Err(AllocError) => self.is_cut = true,
        }
    }

    /// Adds a piece of this text.
    fn add(&mut self, word: Word, text: String, value: Value) {
        let field = Field {
            place: word.0,
            key: word.1,
            text,
            value,
        };
        self.keep(field);
    }

    fn keep(&mut self, field: Field) {
        if self.items.push(field).is_err() {
            self.is_cut = true;
        }
    }

    /// Takes the text of the last piece away, under this condition.
    pub fn hide_if(&mut self, condition: bool) {
        if condition {
            self.hide();
        }
    }

    /// Takes the text of the last piece away.
    pub fn hide(&mut self) {
        if let Some(field) = self.items.as_mut_slice().last_mut() {
            field.text.clear();
        }
    }

    /// A value as it is printed, which is a text in JSON too.
    pub fn text<D: fmt::Display>(&mut self, word: Word, shown: &D) {
        match format!(in self.manner.alloc; "{shown}") {
            Ok(text) => self.push(word, text, shown),
            Err(AllocError) => self.is_cut = true,
        }
    }

    /// A number by its key, which no line shows.
    pub fn counted<N: Into<Value>>(&mut self, key: &'static str, number: N) {
        let field = Field {
            place: 0,
            key,
            text: String::new(self.manner.alloc),
            value: number.into(),
        };
        self.keep(field);
    }

    /// Pieces of its own: an object in JSON.
    pub fn object(&mut self, word: Word, inside: Fields) {
        match inside.into_object(word.2) {
            Ok((text, object)) => self.add(word, text, object),
            Err(AllocError) => self.is_cut = true,
        }
    }

    /// Pieces whose values are a list in JSON, with this between their texts.
    pub fn list(&mut self, word: Word, inside: Fields, between: &str) {
        self.list_in(word, inside, ("", between, ""))
    }

    /// The same, with these before, between and behind their texts.
    pub fn list_in(&mut self, word: Word, inside: Fields, marks: (&str, &str, &str)) {
        let (before, between, behind) = marks;
        match inside.into_list(between) {
            Ok((text, list)) => {
                let text = format!(in self.manner.alloc; "{before}{text}{behind}");
                self.written(word, list, text)
            }
            Err(AllocError) => self.is_cut = true,
        }
    }

    /// Puts the text of the last piece into brackets, behind a name and a number.
    pub fn enclose(&mut self, name: &str, count: usize) {
        let alloc = self.manner.alloc;
        let Some(field) = self.items.as_mut_slice().last_mut() else {
            return;
        };
        match format!(in alloc; "{name} {count} [ {} ]", field.text) {
            Ok(text) => field.text = text,
            Err(AllocError) => self.is_cut = true,
        }
    }

    /// Brings the pieces into the order of their places, unless memory is or was refused.
    fn sort(&mut self) -> Result<(), AllocError> {
        if self.is_cut {
            return Err(AllocError);
        }
        let items = self.items.as_mut_slice();
        items.sort_by_key(self.manner.alloc, |field| field.place)
    }

    /// The texts, with this between them and this before the first.
    ///
    /// # Errors
    /// `AllocError` where memory is or was refused.
    pub fn line(&mut self, lead: &str, between: &str) -> Result<String, AllocError> {
        self.sort()?;
        let mut line = String::from_str(self.manner.alloc, lead)?;
        for field in self.items.iter() {
            append(&mut line, between, field.text.as_str())?;
        }
        Ok(line)
    }

    /// The members of the object that the pieces are in JSON.
    ///
    /// # Errors
    /// `AllocError` where memory is or was refused.
    pub fn into_members(self) -> Result<Map<String, Value>, AllocError> {
        let mut fields = self;
        fields.sort()?;
        let alloc = fields.manner.alloc;
        let mut members = Map::new(alloc);
        for field in fields.items {
            put(alloc, &mut members, field.key, field.value)?;
        }
        Ok(members)
    }

    /// The texts behind this one, and the object.
    fn into_object(self, lead: &str) -> Result<(String, Value), AllocError> {
        let mut fields = self;
        let text = fields.line(lead, " ")?;
        Ok((text, Value::from(fields.into_members()?)))
    }

    /// The texts with this between them, and the list of the values.
    fn into_list(self, between: &str) -> Result<(String, Value), AllocError> {
        let mut fields = self;
        let text = fields.line("", between)?;
        let mut values = Vec::new(fields.manner.alloc);
        for field in fields.items {
            values.push(field.value)?;
        }
        Ok((text, Value::from(values)))
    }
}

/// A piece of a list.
pub const ITEM: Word = &Wording(0, "", "");

/// Whether a text goes on the one before it, without a blank.
fn is_joined(text: &str) -> bool {
    match text.as_bytes() {
        // An address of version 6.
        [b':', b':', ..] => false,
        [b'/' | b'-' | b':' | b'\n', ..] => true,
        _ => false,
    }
}

/// Appends a piece of a line, with this before it.
fn append(line: &mut String, between: &str, text: &str) -> Result<(), AllocError> {
    if !line.is_empty() && !text.is_empty() && !is_joined(text) {
        line.push_str(between)?;
    }
    line.push_str(text)
}

/// Puts a piece into an object, by its key, or behind others of this key.
fn put(
    alloc: Global,
    members: &mut Map<String, Value>,
    key: &'static str,
    value: Value,
) -> Result<(), AllocError> {
    if key == UNKNOWN {
        return put_behind(alloc, members, UNKNOWN, value);
    }
    if members.contains_key(key) {
        let mut lone = Map::new(alloc);
        lone.insert(String::from_str(alloc, key)?, value)?;
        return put_behind(alloc, members, AGAIN, Value::from(lone));
    }
    members.insert(String::from_str(alloc, key)?, value)?;
    Ok(())
}

/// Puts a value behind those that an object has in the list of this key.
fn put_behind(
    alloc: Global,
    members: &mut Map<String, Value>,
    key: &'static str,
    value: Value,
) -> Result<(), AllocError> {
    let key = String::from_str(alloc, key)?;
    let none = Value::from(Vec::new(alloc));
    if let Some(list) = members.entry(key)?.or_insert(none).as_array_mut() {
        list.push(value)?;
    }
    Ok(())
}
