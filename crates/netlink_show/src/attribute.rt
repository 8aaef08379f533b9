//! What is shown of an attribute of any set.

use crate::field::{Fields, UNKNOWN, Word, Wording};
use crate::names::{GROUPS, IP_PROTOCOLS, REALMS};
use netlink_packet_route::framing::NLA_TYPE_MASK;
use netlink_packet_route::route::RouteRealm;

/// The last place of a line.
const LAST: u8 = 250;

const WHOLE: Word = &Wording(LAST, UNKNOWN, "");

const NUMBER: Word = &Wording(0, "number", "unknown ");

const FLAGS: Word = &Wording(1, "flags", "/");

const VALUE: Word = &Wording(2, "value", "");

/// The words for the realm of a source, for the realm behind it, and for a realm alone.
pub type RealmWords = (Word, Word, Word);

/// Realms.
pub fn push_realm(fields: &mut Fields, words: RealmWords, realm: RouteRealm) {
    let (from, to, alone) = words;
    if realm.source == 0 {
        return fields.named(alone, REALMS, realm.destination);
    }
    fields.named(from, REALMS, realm.source);
    fields.named(to, REALMS, realm.destination);
}

/// A group of interfaces.
pub fn push_group(fields: &mut Fields, word: Word, group: u32) {
    match fields.manner.name(GROUPS, group) {
        Some(name) => fields.text(word, &name),
        None => fields.text(word, &group.cast_signed()),
    }
}

/// The number of a protocol over IP.
pub fn push_ip_number(fields: &mut Fields, word: Word, number: i32) {
    match fields.manner.name(IP_PROTOCOLS, number.cast_unsigned()) {
        Some(name) => fields.text(word, &name),
        None => {
            let text = format!(in fields.manner.alloc; "ipproto-{number}");
            fields.made(word, text)
        }
    }
}

/// An attribute that nobody knows: its number, the flags of its kind if it has any, and its value.
pub fn push_raw(fields: &mut Fields, kind: u16, value: &[u8]) {
    let mut inside = Fields::new(fields.manner);
    inside.number(NUMBER, kind & NLA_TYPE_MASK);
    inside.some_bits(FLAGS, kind & !NLA_TYPE_MASK);
    inside.bytes(VALUE, value);
    fields.object(WHOLE, inside);
}
