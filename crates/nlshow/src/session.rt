//! What is done with each message: it is told of, counted or refused.

use crate::command_line::{Form, Options, PLAIN};
use crate::guess::hint_of;
use crate::kept::Kept;
use crate::refusal::Refusal;
use byte_window::Stop;
use netlink_packet_core::NetlinkBuffer;
use netlink_packet_route::{Located, MessageKind};
use netlink_show::{Counts, Interfaces, Manner, Shown, append_lines, append_object};
use std::alloc::Global;
use std::io::{IsTerminal, Write};
use std::rt::{Stderr, Stdout};

/// How much text is kept back at most, in bytes, before it is written in the midst of a read.
const LONG_TEXT: usize = 1 << 16;

/// After how many bytes it is told how far a long input is.
const STEP: u64 = 1 << 26;

/// Where a message stands in its input.
#[derive(Clone, Copy)]
pub struct Position {
    /// What it is there: a message or a line.
    pub what: &'static str,
    /// Which, from 1 on.
    pub number: u64,
    /// How many bytes stand before it.
    pub offset: u64,
    /// How many bytes it has.
    pub length: u64,
}

/// A run over inputs: where lines, refusals and refused bytes go.
#[derive(Drop)]
pub struct Session<'r, 'a> {
    /// Where memory comes from.
    pub alloc: Global,
    /// How messages are read and told.
    pub options: Options,
    /// How many there were.
    pub counts: Counts,
    /// The name of what is read, or else of what failed.
    pub subject: &'a str,
    output: Stdout,
    errors: Stderr,
    kept: Kept<'r, 'a>,
    is_watched: bool,
    /// The interfaces that messages told of.
    interfaces: Interfaces,
    /// Whether messages tell of interfaces alone, and are not shown.
    is_learning: bool,
    /// The family of the last rule, and whether there were rules of several.
    rule_family: Option<u8>,
    tells_family: bool,
    text: String,
    /// What is told of the input at its first refusal.
    hint: Option<&'static str>,
}

impl<'r, 'a> Session<'r, 'a> {
    /// A run that has read nothing. Where standard error is a terminal, long input shows how far it is.
    pub fn new(rt: &HostRuntime, options: Options, kept: Kept<'r, 'a>) -> Session<'r, 'a> {
        Session {
            alloc: rt.alloc(),
            options,
            counts: Counts::default(),
            subject: "nlshow",
            output: rt.stdout(),
            errors: rt.stderr(),
            kept,
            is_watched: rt.stderr().is_terminal(),
            interfaces: Interfaces::new(rt.alloc()),
            is_learning: false,
            rule_family: None,
            tells_family: false,
            text: String::new(rt.alloc()),
            hint: None,
        }
    }

    /// From now on datagrams are read whose messages tell the names of interfaces, and are not shown.
    pub fn begin_learning(&mut self) {
        self.is_learning = true;
        self.options = PLAIN;
    }

    /// From now on inputs are read and told so, with the names that are known.
    pub fn end_learning(&mut self, options: Options) {
        self.is_learning = false;
        self.options = options;
        self.counts.bytes = 0;
    }

    /// Goes on with the input of this name.
    pub fn open(&mut self, name: &'a str) {
        self.subject = name;
        self.hint = None;
    }

    /// Looks at the first bytes of the input.
    pub fn look(&mut self, bytes: &[u8]) {
        self.hint = hint_of(bytes, &self.options);
    }

    /// A message in its envelope.
    pub fn message(&mut self, place: Position, bytes: &[u8]) -> Result<(), Stop> {
        match NetlinkBuffer::new_checked(bytes) {
            Ok(envelope) => self.take(place, bytes, Shown::of(&envelope)),
            Err(_) => {
                let left = bytes.len() as u64;
                self.refuse(place, Refusal::MessageTooShort { left });
                self.keep(bytes)
            }
        }
    }

    /// A message of this kind without an envelope.
    pub fn lone(&mut self, kind: MessageKind, place: Position, bytes: &[u8]) -> Result<(), Stop> {
        self.take(place, bytes, Shown::lone(kind, bytes))
    }

    /// Takes the message that these bytes are, or refuses them.
    fn take(&mut self, place: Position, bytes: &[u8], message: Shown<'_>) -> Result<(), Stop> {
        match message.check() {
            Ok(()) => self.tell(message),
            Err(fault) => {
                let front = bytes.len().saturating_sub(message.payload.len());
                let offset = fault.offset.saturating_add(front);
                self.refuse(place, Refusal::Payload(Located { offset, ..fault }));
                self.keep(bytes)
            }
        }
    }

    /// Tells of a message that can be shown.
    fn tell(&mut self, message: Shown<'_>) -> Result<(), Stop> {
        if !matches!(self.options.form, Form::Count) {
            self.interfaces.note(self.alloc, message)?;
        }
        if self.is_learning || !self.options.tells_of(message.kind) {
            return Ok(());
        }
        self.counts.add(message);
        self.note_family(message);
        let manner = Manner {
            alloc: self.alloc,
            numeric: self.options.numeric,
            tells_family: self.tells_family,
            interfaces: &self.interfaces,
        };
        match self.options.form {
            Form::Count => return Ok(()),
            Form::Json => append_object(manner, message, &mut self.text)?,
            Form::Lines => append_lines(manner, message, &mut self.text)?,
        }
        if self.text.len() < LONG_TEXT {
            return Ok(());
        }
        self.flush()
    }

    /// Takes notice of the family of a rule: where there was another, rules tell theirs from now on.
    fn note_family(&mut self, message: Shown<'_>) {
        if !matches!(message.kind, Some(MessageKind::Rule)) {
            return;
        }
        let family = message.payload.first().copied();
        self.tells_family |= self.rule_family.is_some() && self.rule_family != family;
        self.rule_family = family;
    }

    /// Says that a message is refused.
    pub fn refuse(&mut self, place: Position, refusal: Refusal) {
        self.counts.refused = self.counts.refused.saturating_add(1);
        let input = self.subject;
        let what = place.what;
        let number = place.number;
        let offset = place.offset;
        let length = place.length;
        // Nobody could be told that this failed.
        let _ = writeln!(
            self.errors,
            "{input}: {what} {number} at byte {offset}, {length} bytes: {refusal}"
        );
        match self.hint.take() {
            Some(hint) if number == 1 => {
                let _ = writeln!(self.errors, "{input}: this {hint}");
            }
            _ => {}
        }
    }

    /// Keeps bytes of the input that are refused. Of hexadecimal text the line is kept in their place.
    pub fn keep(&mut self, bytes: &[u8]) -> Result<(), Stop> {
        if self.options.is_hex || self.is_learning {
            return Ok(());
        }
        self.keep_as_it_stands(bytes)
    }

    /// Keeps these bytes.
    pub fn keep_as_it_stands(&mut self, bytes: &[u8]) -> Result<(), Stop> {
        let kept = self.kept.add(bytes);
        if kept.is_err() {
            self.subject = self.kept.name.unwrap_or(self.subject);
        }
        kept
    }

    /// Writes what is told so far.
    pub fn flush(&mut self) -> Result<(), Stop> {
        let written = self.output.write_all(self.text.as_bytes());
        self.text.clear();
        match written.and_then(|()| self.output.flush()) {
            Ok(()) => Ok(()),
            Err(fault) => Err(Stop::of_write(&fault)),
        }
    }

    /// Takes notice that so many bytes more were read of which this many stand before the window.
    pub fn progress(&mut self, more: u64, passed: u64) {
        let before = self.counts.bytes / STEP;
        self.counts.bytes = self.counts.bytes.saturating_add(more);
        if self.is_watched && self.counts.bytes / STEP != before {
            let _ = write!(self.errors, "\r{}: {passed} bytes", self.subject);
        }
    }

    /// Writes the rest.
    pub fn finish(&mut self) -> Result<(), Stop> {
        self.subject = "nlshow";
        if self.is_watched && self.counts.bytes >= STEP {
            let _ = writeln!(self.errors, "");
        }
        if matches!(self.options.form, Form::Count) {
            self.counts.write(&mut self.text)?;
        }
        self.flush()
    }
}
