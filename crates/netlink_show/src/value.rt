//! The ways in which a value that is no list is shown.

use crate::attribute::{push_group, push_raw};
use crate::field::{self, Fields, ITEM, Word};
use crate::list::{List, Seen, bytes_of, is_nothing, small, wide};
use crate::manner::{Hexadecimal, Inet, Labels, LinkAddress};
use crate::names::Names;
use crate::own::push_own;
use crate::part::push_keyed;
use crate::row::{How, Line, Row, Size};
use netlink_packet_route::framing::Value;
use netlink_packet_route::net::Ipv4Addr;
use netlink_packet_route::route::read_labels;

/// What is shown of a value by its row.
pub fn push_row(fields: &mut Fields, list: List<'_>, row: &Row, seen: &Seen<'_>) {
    match row.how {
        How::Apart => {}
        How::Own => {
            push_own(fields, list, row.word, seen);
            fields.hide_if(is_hidden(list, row.line, &seen.value));
        }
        _ => push_plain(fields, list, row, seen),
    }
}

/// The same of one that has no way of its own.
pub fn push_plain(fields: &mut Fields, list: List<'_>, row: &Row, seen: &Seen<'_>) {
    match row.line {
        Line::Told if is_nothing(&seen.value) => {}
        line => {
            push_value(fields, list, row, seen);
            fields.hide_if(is_hidden(list, line, &seen.value));
        }
    }
}

/// Whether a line has nothing of a value.
pub fn is_hidden(list: List<'_>, line: Line, value: &Value<'_>) -> bool {
    match line {
        Line::Always | Line::Told => false,
        Line::IfAny => is_nothing(value),
        Line::Never => true,
        Line::Not(number) => small(value) == number,
        Line::IfBits(number, bits) => list.number(number) & bits == 0,
        Line::UnlessBits(number, bits) => list.number(number) & bits != 0,
        Line::IfIs(number, is) => list.number(number) != is,
        Line::IfBoth(one, other) => !list.is_some(one) || !list.is_some(other),
    }
}

fn push_value(fields: &mut Fields, list: List<'_>, row: &Row, seen: &Seen<'_>) {
    let word = row.word;
    let value = &seen.value;
    match row.how {
        How::Number => push_number(fields, word, value),
        How::Except(number, text) => push_except(fields, word, value, number, text),
        How::Bits => fields.bits(word, wide(value)),
        How::BitsExcept(number, text) => push_bits_except(fields, word, small(value), number, text),
        How::Dotted => fields.text(word, &Ipv4Addr::from(small(value).to_be_bytes())),
        How::Text => push_text(fields, word, value),
        How::End => push_end(fields, word, value),
        How::Hardware => fields.text(word, &Hexadecimal(bytes_of(value), ":")),
        How::OfType => fields.text(word, &LinkAddress(bytes_of(value), list.head.of_type)),
        How::Named(names) => fields.named(word, names, small(value)),
        How::Known(names, other) => push_known(fields, word, other, names, small(value)),
        How::Set(names, between) => fields.set(word, names, small(value), between),
        How::Angled(names) => push_angled(fields, word, names, small(value)),
        How::Flags(flags) => push_flags(fields, word, flags, small(value)),
        _ => push_other_value(fields, row, seen),
    }
}

fn push_other_value(fields: &mut Fields, row: &Row, seen: &Seen<'_>) {
    let word = row.word;
    let value = &seen.value;
    let is_so = !is_nothing(value);
    match row.how {
        How::Interface => fields.interface(word, small(value)),
        How::Group => push_group(fields, word, small(value)),
        How::Hundredths => fields.hundredths(word, wide(value)),
        How::Span => fields.span(word, wide(value)),
        How::Lifetime => fields.lifetime(word, small(value)),
        How::Switch => fields.switch(word, is_so),
        How::Truth => fields.truth(word, is_so),
        How::Either(yes, no) => fields.either(word, is_so, (yes, no)),
        How::OneOf(yes, no) => fields.text(word, &(if is_so { yes } else { no })),
        How::Mark => fields.mark(word),
        How::Lone => push_lone(fields, word, is_so),
        How::Signed => fields.number(word, small(value).cast_signed()),
        How::Setting => push_setting(fields, word, value),
        How::Keyed(keys) => push_keyed(fields, word, Size::U32, keys, seen.bytes),
        How::KeyedWide(keys) => push_keyed(fields, word, Size::U64, keys, seen.bytes),
        How::Written => push_raw(fields, seen.number, seen.bytes),
        _ => {}
    }
}

/// A number, which can have a sign.
pub fn push_number(fields: &mut Fields, word: Word, value: &Value<'_>) {
    match *value {
        Value::I32(number) => fields.number(word, number),
        Value::I64(number) => fields.number(word, number),
        _ => fields.number(word, wide(value)),
    }
}

fn push_except(fields: &mut Fields, word: Word, value: &Value<'_>, number: u32, text: &str) {
    match *value {
        _ if wide(value) != u64::from(number) => push_number(fields, word, value),
        Value::I32(number) => fields.push(word, number, &text),
        _ => fields.push(word, number, &text),
    }
}

/// A truth value; a number that is neither 0 nor 1 is shown.
pub fn push_setting(fields: &mut Fields, word: Word, value: &Value<'_>) {
    match wide(value) {
        0 | 1 => fields.switch(word, !is_nothing(value)),
        _ => push_number(fields, word, value),
    }
}

fn push_bits_except(fields: &mut Fields, word: Word, bits: u32, number: u32, text: &str) {
    if bits == number {
        return fields.bits_shown(word, bits, &text);
    }
    fields.bits(word, bits)
}

/// A text, an address, labels or bytes.
pub fn push_text(fields: &mut Fields, word: Word, value: &Value<'_>) {
    match value {
        Value::Structure(bytes) => push_labels(fields, word, bytes),
        Value::Address(ip) => fields.text(word, &Inet(ip)),
        Value::Name(text) => fields.text(word, text),
        _ => fields.bytes(word, bytes_of(value)),
    }
}

/// Labels.
pub fn push_labels(fields: &mut Fields, word: Word, bytes: &[u8]) {
    match read_labels(fields.manner.alloc, bytes) {
        Ok(labels) => fields.text(word, &Labels(labels.as_slice())),
        Err(_) => fields.refuse(),
    }
}

fn push_end(fields: &mut Fields, word: Word, value: &Value<'_>) {
    match is_nothing(value) {
        true => fields.text(word, &"any"),
        false => push_text(fields, word, value),
    }
}

fn push_known(fields: &mut Fields, word: Word, other: Word, names: Names, number: u32) {
    match fields.manner.name(names, number) {
        Some(name) => fields.text(word, &name),
        None => fields.number(other, number),
    }
}

/// The names of bits, and the rest as a number, in angle brackets.
pub fn push_angled(fields: &mut Fields, word: Word, names: Names, bits: u32) {
    let mut inside = Fields::new(fields.manner);
    push_bits(&mut inside, names, bits);
    fields.list_in(word, inside, ("<", ",", ">"));
}

/// The names of bits, and the rest as a number.
pub fn push_bits(fields: &mut Fields, names: Names, bits: u32) {
    let rest = fields.names(names, bits);
    if rest != 0 {
        fields.bits_shown(ITEM, rest, &format_args!("{rest:x}"));
    }
}

fn push_flags(fields: &mut Fields, word: Word, flags: field::Flags, bits: u32) {
    fields.flags(flags, bits, Some(true));
    fields.bits(word, bits);
    fields.hide();
}

/// What `ip` tells by its word alone: `null` in JSON where it is so.
fn push_lone(fields: &mut Fields, word: Word, is_so: bool) {
    match is_so {
        true => fields.mark(word),
        false => fields.truth(word, false),
    }
}
