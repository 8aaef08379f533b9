//! Shares, which kernels have as parts of the greatest number of 32 bits.

use crate::field::{Fields, Word};
use serde_json::Value;
use std::num::nearest_u64_to_f64;

/// A share as a number from 0 to 1, as it stands in JSON.
pub fn push_share(fields: &mut Fields, word: Word, part: u32) {
    let (count, whole) = digits(part);
    let text = format!(in fields.manner.alloc; "{}", share(count, whole));
    fields.written(word, share(count, whole), text)
}

/// The same, which a line has in hundredths.
pub fn push_percent(fields: &mut Fields, word: Word, part: u32) {
    let (count, whole) = digits(part);
    let text = format!(in fields.manner.alloc; "{}%", share(count, whole / 100));
    fields.written(word, share(count, whole), text)
}

/// A share in six digits, as a count of parts of a whole.
fn digits(part: u32) -> (u64, u64) {
    let whole = match part {
        429_496_730.. => 1_000_000,
        42_949_673.. => 10_000_000,
        4_294_968.. => 100_000_000,
        _ => 1_000_000_000,
    };
    let count = u64::from(part).saturating_mul(whole);
    (count.saturating_add(0x7fff_ffff) / 0xffff_ffff, whole)
}

/// So many parts of a whole.
fn share(count: u64, whole: u64) -> Value {
    match (count.checked_rem(whole), count.checked_div(whole)) {
        (Some(0), Some(number)) => Value::from(number),
        _ => Value::from(nearest_u64_to_f64(count) / nearest_u64_to_f64(whole)),
    }
}
