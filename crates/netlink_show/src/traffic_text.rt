//! How `tc` writes handles, times, sizes, rates and names of bits.

use crate::names::Names;
use std::fmt;

/// A handle, of which `tc` leaves out a minor number of 0; all bits are the root.
#[derive(Clone, Copy)]
pub struct Handle(pub u32);

impl fmt::Display for Handle {
    fn fmt<W: fmt::Write>(&self, f: &mut fmt::Formatter<W>) -> fmt::Result {
        let (major, minor) = (self.0 >> 16, self.0 & 0xffff);
        match (major, minor) {
            (0xffff, 0xffff) => write!(f, "root"),
            (0, 0) => write!(f, "none"),
            (0, _) => write!(f, ":{minor:x}"),
            (_, 0) => write!(f, "{major:x}:"),
            _ => write!(f, "{major:x}:{minor:x}"),
        }
    }
}

/// The handle of an element of a filter u32: its table, its bucket there, and its number in that
/// (`TC_U32_*` of `linux/pkt_cls.h`).
#[derive(Clone, Copy)]
pub struct U32Handle(pub u32);

impl fmt::Display for U32Handle {
    fn fmt<W: fmt::Write>(&self, f: &mut fmt::Formatter<W>) -> fmt::Result {
        let (table, bucket, node) = (self.0 >> 20, self.0 >> 12 & 0xff, self.0 & 0xfff);
        if self.0 == 0 {
            return write!(f, "none");
        }
        write!(f, "{table:x}:")?;
        if bucket != 0 {
            write!(f, "{bucket:x}")?;
        }
        match node {
            0 => Ok(()),
            _ => write!(f, ":{node:x}"),
        }
    }
}

/// Microseconds, from a thousand on in another unit, in three digits.
#[derive(Clone, Copy)]
pub struct Microseconds(pub u32);

impl fmt::Display for Microseconds {
    fn fmt<W: fmt::Write>(&self, f: &mut fmt::Formatter<W>) -> fmt::Result {
        match self.0 {
            count @ 1_000_000.. => write!(f, "{}s", Rounded(count, 1_000_000)),
            count @ 1000.. => write!(f, "{}ms", Rounded(count, 1000)),
            count => write!(f, "{count}us"),
        }
    }
}

/// A number of such units, in three digits without zeros at the end.
#[derive(Clone, Copy)]
struct Rounded(u32, u32);

impl fmt::Display for Rounded {
    fn fmt<W: fmt::Write>(&self, f: &mut fmt::Formatter<W>) -> fmt::Result {
        let (count, unit) = (u64::from(self.0), u64::from(self.1));
        match count.checked_div(unit) {
            Some(100..) => write!(f, "{}", nearest(count, unit)),
            Some(10..) => {
                let tenths = nearest(count.saturating_mul(10), unit);
                write!(f, "{}{}", tenths / 10, Hundredths(tenths % 10 * 10))
            }
            _ => {
                let hundredths = nearest(count.saturating_mul(100), unit);
                write!(f, "{}{}", hundredths / 100, Hundredths(hundredths % 100))
            }
        }
    }
}

/// How many units the count is, to the nearest.
fn nearest(count: u64, unit: u64) -> u64 {
    count
        .saturating_add(unit / 2)
        .checked_div(unit)
        .unwrap_or(0)
}

/// Hundredths behind a whole number, without zeros at the end.
#[derive(Clone, Copy)]
struct Hundredths(u64);

impl fmt::Display for Hundredths {
    fn fmt<W: fmt::Write>(&self, f: &mut fmt::Formatter<W>) -> fmt::Result {
        match (self.0, self.0 % 10) {
            (0, _) => Ok(()),
            (count, 0) => write!(f, ".{}", count / 10),
            (count, _) => write!(f, ".{count:02}"),
        }
    }
}

/// Bytes, where they are close to a number of larger units in these.
#[derive(Clone, Copy)]
pub struct Bytes(pub u32);

const KIB: u64 = 1024;

const MIB: u64 = 1_048_576;

impl fmt::Display for Bytes {
    fn fmt<W: fmt::Write>(&self, f: &mut fmt::Formatter<W>) -> fmt::Result {
        let count = u64::from(self.0);
        let (of_mib, of_kib) = ((count + MIB / 2) / MIB, (count + KIB / 2) / KIB);
        match count {
            MIB.. if of_mib.saturating_mul(MIB).abs_diff(count) < 1024 => write!(f, "{of_mib}Mb"),
            KIB.. if of_kib.saturating_mul(KIB).abs_diff(count) < 16 => write!(f, "{of_kib}Kb"),
            _ => write!(f, "{count}b"),
        }
    }
}

/// Bytes in a second, as bits in a second in the largest unit that loses little.
#[derive(Clone, Copy)]
pub struct Rate(pub u64);

impl fmt::Display for Rate {
    fn fmt<W: fmt::Write>(&self, f: &mut fmt::Formatter<W>) -> fmt::Result {
        let bits = self.0.saturating_mul(8);
        let (kilo, mega) = (bits / 1000, bits / 1_000_000);
        let (giga, tera) = (bits / 1_000_000_000, bits / 1_000_000_000_000);
        match (goes(bits), goes(kilo), goes(mega), goes(giga)) {
            (false, _, _, _) => write!(f, "{bits}bit"),
            (_, false, _, _) => write!(f, "{kilo}Kbit"),
            (_, _, false, _) => write!(f, "{mega}Mbit"),
            (_, _, _, false) => write!(f, "{giga}Gbit"),
            _ => write!(f, "{tera}Tbit"),
        }
    }
}

/// Whether a number is written in the next unit.
fn goes(count: u64) -> bool {
    count >= 1_000_000 || count >= 1000 && count % 1000 == 0
}

/// Nanoseconds, from a thousand on as microseconds.
#[derive(Clone, Copy)]
pub struct Nanoseconds(pub u64);

impl fmt::Display for Nanoseconds {
    fn fmt<W: fmt::Write>(&self, f: &mut fmt::Formatter<W>) -> fmt::Result {
        match self.0 {
            count @ 1000.. => {
                let whole = u32::try_from(count / 1000).unwrap_or(u32::MAX);
                write!(f, "{}", Microseconds(whole))
            }
            count => write!(f, "{count}ns"),
        }
    }
}

/// The names of the bits that are set, with this between them.
#[derive(Clone, Copy)]
pub struct Joined(pub Names, pub u32, pub &'static str);

impl fmt::Display for Joined {
    fn fmt<W: fmt::Write>(&self, f: &mut fmt::Formatter<W>) -> fmt::Result {
        let Joined(names, bits, mark) = *self;
        let mut between = "";
        for (bit, name) in names {
            if bits & *bit != 0 {
                write!(f, "{between}{name}")?;
                between = mark;
            }
        }
        Ok(())
    }
}

/// The prefix that a mask of these bytes is, if it is one.
pub fn prefix_of(mask: &[u8]) -> Option<u32> {
    let mut bits = 0u32;
    let mut is_over = false;
    for byte in mask {
        let ones = byte.leading_ones();
        if byte.count_ones() != ones || is_over && ones != 0 {
            return None;
        }
        is_over = ones < 8;
        bits = bits.saturating_add(ones);
    }
    Some(bits)
}
