//! Values of routes that are shown in a way of their own.

use crate::attribute::{RealmWords, push_ip_number, push_realm};
use crate::field::{Fields, Word, Wording};
use crate::list::{List, Seen, bytes_of, small};
use crate::manner::{Bits, Hexadecimal, Inet, Inet6, Labels};
use crate::names::PREFERENCES;
use crate::part::push_structure;
use crate::route::push_table;
use crate::row::How::Number;
use crate::row::Parts;
use crate::value::{push_labels, push_text};
use netlink_packet_route::framing::Value;
use netlink_packet_route::net::IpAddr;
use netlink_packet_route::route::{
    RouteCacheInfo, RouteLwEnCapType, RouteRealm, RouteVia, read_labels,
};
use netlink_packet_route::{AddressFamily, Nest};
use std::fmt;

/// How much a route forwarded (`struct rta_mfc_stats`).
const FORWARDED: Parts = crate::parts![
    U64 0 0 "packets" "packets " Number;
    U64 8 1 "bytes" "bytes " Number;
    U64 16 2 "wrong_if" "wrong_if " Number;
];

const FLOW: Word = &Wording(20, "flow", "");

const EXPIRY: Word = &Wording(22, "expires", "expires ");

const ERROR: Word = &Wording(23, "error", "error ");

const USERS: Word = &Wording(24, "users", "users ");

const USED: Word = &Wording(25, "used", "used ");

const AGE: Word = &Wording(26, "age", "age ");

const IDENTIFICATION: Word = &Wording(27, "ipid", "ipid ");

const STAMP: Word = &Wording(28, "ts", "ts ");

const STAMP_AGE: Word = &Wording(29, "tsage", "tsage ");

const REALM_WORDS: RealmWords = (
    &Wording(0, "from", "realms "),
    &Wording(1, "to", "/"),
    &Wording(1, "to", "realm "),
);

const HOST_FAMILY: Word = &Wording(0, "family", "");

const HOST: Word = &Wording(1, "host", "");

/// Ticks in a second, as the kernel tells them.
const HERTZ: u8 = 100;

/// Addresses with their prefix, values of several words, structures whose parts rest on one another.
pub fn push_own(fields: &mut Fields, list: List<'_>, word: Word, seen: &Seen<'_>) {
    let number = small(&seen.value);
    match seen.number {
        1 => push_prefix(fields, word, &seen.value, list.head.to),
        2 => push_prefix(fields, word, &seen.value, list.head.from),
        11 => push_realms(fields, RouteRealm::from(number)),
        12 => push_cache_info(fields, seen.bytes),
        15 => push_table(fields, number),
        16 => push_mark(fields, word, number),
        17 => push_structure(fields, list, word, seen.bytes, FORWARDED),
        18 => push_via(fields, word, seen.bytes),
        19 => push_new(fields, list.nest, word, &seen.value),
        20 => push_preference(fields, word, number),
        21 => push_type(fields, word, number),
        23 => push_expires(fields, word, &seen.value),
        26 => push_propagate(fields, word, number),
        27 => push_ip_number(fields, word, number.cast_signed()),
        _ => {}
    }
}

/// An address with the length of its prefix, where that is not the address's own.
fn push_prefix(fields: &mut Fields, word: Word, value: &Value<'_>, length: Option<u8>) {
    match value {
        Value::Address(ip) => {
            let whole = match ip {
                IpAddr::V4(_) => 32,
                IpAddr::V6(_) => 128,
            };
            push_with_length(fields, word, &Inet(ip), whole, length)
        }
        Value::Structure(bytes) => match read_labels(fields.manner.alloc, bytes) {
            Ok(labels) => { push_with_length(fields, word, &Labels(labels.as_slice()), 20, length) }
            Err(_) => fields.refuse(),
        },
        _ => push_with_length(fields, word, &Hexadecimal(bytes_of(value), ""), 0, length),
    }
}

fn push_with_length<D: fmt::Display>(
    fields: &mut Fields,
    word: Word,
    shown: &D,
    whole: u8,
    length: Option<u8>,
) {
    match length {
        Some(length) if length != whole => {
            let text = format!(in fields.manner.alloc; "{shown}/{length}");
            fields.made(word, text)
        }
        _ => fields.text(word, shown),
    }
}

/// A mark, which is decimal below 16.
fn push_mark(fields: &mut Fields, word: Word, mark: u32) {
    match mark {
        0..16 => fields.number(word, mark),
        _ => fields.push(word, mark, &Bits(u64::from(mark))),
    }
}

/// Another destination: labels, or an address of the family.
fn push_new(fields: &mut Fields, nest: Nest, word: Word, value: &Value<'_>) {
    match nest.context.family {
        AddressFamily::Mpls => push_labels(fields, word, bytes_of(value)),
        _ => push_text(fields, word, value),
    }
}

/// The preference of a router; `ip` has no word before a number without a name.
fn push_preference(fields: &mut Fields, word: Word, number: u32) {
    match number {
        0 | 1 | 3 => fields.named(word, PREFERENCES, number),
        _ => fields.number(&Wording(32, "pref", ""), number),
    }
}

/// The type of an encapsulation: the name that the library has, or its number.
pub fn push_type(fields: &mut Fields, word: Word, number: u32) {
    match RouteLwEnCapType::from(u16::try_from(number).unwrap_or(0)) {
        RouteLwEnCapType::Other(number) => fields.text(word, &number),
        kind => fields.text(word, &kind),
    }
}

/// How long a route stands: ticks of a multicast route, else seconds.
fn push_expires(fields: &mut Fields, word: Word, value: &Value<'_>) {
    match *value {
        Value::U64(ticks) => {
            fields.number(&Wording(39, "expires_ticks", "expires_ticks "), ticks)
        }
        _ => fields.lifetime(word, small(value)),
    }
}

fn push_propagate(fields: &mut Fields, word: Word, number: u32) {
    match number {
        0 => fields.truth(
            &Wording(33, "ttl-propogate", "ttl-propogate disabled"),
            false,
        ),
        1 => fields.truth(&Wording(33, "ttl-propogate", "ttl-propogate enabled"), true),
        _ => fields.number(word, number),
    }
}

/// Realms.
fn push_realms(fields: &mut Fields, realm: RouteRealm) {
    let mut inside = Fields::new(fields.manner);
    push_realm(&mut inside, REALM_WORDS, realm);
    fields.object(FLOW, inside);
}

/// A gateway of a family of its own.
fn push_via(fields: &mut Fields, word: Word, bytes: &[u8]) {
    match RouteVia::parse(fields.manner.alloc, bytes) {
        Ok(gateway) => push_gateway(fields, word, &gateway),
        Err(_) => fields.refuse(),
    }
}

fn push_gateway(fields: &mut Fields, word: Word, gateway: &RouteVia) {
    match gateway {
        RouteVia::Inet(ip) => push_host(fields, word, &"inet", ip),
        RouteVia::Inet6(ip) => push_host(fields, word, &"inet6", &Inet6(ip)),
        RouteVia::Packet(bytes) => {
            push_host(fields, word, &"link", &Hexadecimal(bytes.as_slice(), ":"))
        }
        RouteVia::Other((family, bytes)) => {
            push_host(fields, word, family, &Hexadecimal(bytes.as_slice(), ""))
        }
    }
}

fn push_host<F: fmt::Display, D: fmt::Display>(
    fields: &mut Fields,
    word: Word,
    family: &F,
    host: &D,
) {
    let mut inside = Fields::new(fields.manner);
    inside.text(HOST_FAMILY, family);
    inside.text(HOST, host);
    fields.object(word, inside);
}

/// What the kernel remembers of a route, where it is not 0.
fn push_cache_info(fields: &mut Fields, bytes: &[u8]) {
    let Ok(info) = RouteCacheInfo::parse(bytes) else {
        return;
    };
    if info.expires != 0 {
        fields.seconds(EXPIRY, info.expires.cast_signed() / i32::from(HERTZ));
    }
    for (word, number) in [
        (ERROR, info.error),
        (USERS, info.clntref),
        (USED, info.used),
    ] {
        if number != 0 {
            fields.number(word, number);
        }
    }
    if info.last_use != 0 {
        fields.seconds(AGE, info.last_use / u32::from(HERTZ));
    }
    if info.id != 0 {
        fields.bits_shown(IDENTIFICATION, info.id, &format_args!("0x{:04x}", info.id));
    }
    if info.ts != 0 || info.ts_age != 0 {
        fields.bits_shown(STAMP, info.ts, &format_args!("0x{:x}", info.ts));
        fields.seconds(STAMP_AGE, info.ts_age);
    }
}
