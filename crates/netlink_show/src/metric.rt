//! Metrics of routes, with their locks.

use crate::field::{Fields, Word, Wording};
use crate::list::{List, Seen, small};
use crate::manner::{Bits, Milliseconds};
use crate::row::How::{Apart, Own};
use crate::row::{How, Rows};
use netlink_packet_route::framing::Value;
use std::alloc::AllocError;

/// Of metrics. The locks stand with what they lock.
pub const METRICS: Rows = crate::rows![
    1 0 "" "" Apart;
    2 2 "mtu" "mtu" Own;
    3 3 "window" "window" Own;
    4 4 "rtt" "rtt" Own;
    5 5 "rttvar" "rttvar" Own;
    6 6 "ssthresh" "ssthresh" Own;
    7 7 "cwnd" "cwnd" Own;
    8 8 "advmss" "advmss" Own;
    9 9 "reordering" "reordering" Own;
    10 10 "hoplimit" "hoplimit" Own;
    11 11 "initcwnd" "initcwnd" Own;
    12 12 "features" "features" Own;
    13 13 "rto_min" "rto_min" Own;
    14 14 "initrwnd" "initrwnd" Own;
    15 15 "quickack" "quickack" Own;
    16 16 "congestion" "congctl" Own;
    17 17 "fastopen_no_cookie" "fastopen_no_cookie" Own;
];

/// The locks (`RTAX_LOCK`).
const LOCK: u16 = 1;

/// What stands behind the name of a metric that is locked.
const LOCKED: &str = " lock";

/// How many of a time are a millisecond; 0 of a number that is none.
fn parts_of(number: u16) -> u32 {
    match number {
        4 => 8,
        5 => 4,
        13 => 1,
        _ => 0,
    }
}

/// The bit by which a metric of this number is locked.
fn bit_of(number: u16) -> u32 {
    1u32.checked_shl(u32::from(number)).unwrap_or(0)
}

fn lock_of(list: List<'_>, number: u16) -> &'static str {
    match list.number(LOCK) & bit_of(number) {
        0 => "",
        _ => LOCKED,
    }
}

/// A metric, which tells its lock.
pub fn push_own(fields: &mut Fields, list: List<'_>, word: Word, seen: &Seen<'_>) {
    let lock = lock_of(list, seen.number);
    match (seen.number, &seen.value) {
        (16, Value::Name(name)) => {
            let text = format!(in fields.manner.alloc; "{lock} {name}");
            fields.text_shown(word, name, text)
        }
        (number, value) => push_metric(fields, word, number, small(value), lock),
    }
}

/// The metrics that are locked and not there, and the locks.
pub fn push_locks(fields: &mut Fields, list: List<'_>) {
    let locks = list.number(LOCK);
    if locks == 0 {
        return;
    }
    let mut left = locks;
    for row in METRICS {
        let bit = bit_of(row.number);
        if locks & bit == 0 || matches!(row.how, How::Apart) {
            continue;
        }
        if list.has(row.number) {
            left &= !bit;
        } else if row.number != 16 {
            push_metric(fields, row.word, row.number, 0, LOCKED);
            left &= !bit;
        }
    }
    fields.bits(&Wording(40, "lock", "lock "), locks);
    fields.hide_if(left == 0);
}

/// A metric of a number that is no name.
fn push_metric(fields: &mut Fields, word: Word, of: u16, number: u32, lock: &str) {
    let alloc = fields.manner.alloc;
    if of == 12 {
        return push_features(fields, word, number, lock);
    }
    match number.checked_div(parts_of(of)) {
        Some(count) => {
            let text = format!(in alloc; "{lock} {}", Milliseconds(count));
            fields.written(word, count, text)
        }
        None => fields.written(word, number, format!(in alloc; "{lock} {number}")),
    }
}

/// The features, of which one has a name.
fn push_features(fields: &mut Fields, word: Word, bits: u32, lock: &str) {
    let alloc = fields.manner.alloc;
    let number = Bits(u64::from(bits));
    let (has_ecn, has_more) = (bits & 1 != 0, bits & !1 != 0);
    let text = match (has_ecn, has_more) {
        (false, false) => String::from_str(alloc, lock),
        (false, true) => format!(in alloc; "{lock} {number}"),
        (true, false) => format!(in alloc; "{lock} ecn"),
        (true, true) => format!(in alloc; "{lock} ecn {number}"),
    };
    match text {
        Err(AllocError) => fields.refuse(),
        Ok(text) if has_ecn => fields.push(&Wording(12, "ecn", "features"), (), &text),
        Ok(text) => return fields.bits_shown(word, bits, &text),
    }
    if has_more {
        fields.bits(word, bits);
        fields.hide();
    }
}
