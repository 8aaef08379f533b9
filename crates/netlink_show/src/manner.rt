//! How values are shown.

use crate::interfaces::Interfaces;
use crate::names::Names;
use netlink_packet_route::net::{IpAddr, Ipv4Addr, Ipv6Addr};
use netlink_packet_route::route::MplsLabel;
use std::alloc::Global;
use std::fmt;

/// How values are shown, and where memory comes from.
#[derive(Clone, Copy)]
pub struct Manner<'a> {
    /// Where memory comes from.
    pub alloc: Global,
    /// Numbers stand in place of their names.
    pub numeric: bool,
    /// The lines of rules tell their families, which `ip` shows one at a time.
    pub tells_family: bool,
    /// The names of interfaces.
    pub interfaces: &'a Interfaces,
}

impl<'a> Manner<'a> {
    /// The name of the interface of this number, if it has one that is shown.
    pub fn interface(self, index: u32) -> Option<&'a str> {
        if self.numeric {
            return None;
        }
        self.interfaces.name_of(index)
    }

    /// The number's name among these, if it has one that is shown.
    pub fn name(self, names: Names, number: u32) -> Option<&'static str> {
        let (_, name) = names.iter().find(|row| row.0 == number && !self.numeric)?;
        Some(*name)
    }
}

/// Bytes in hexadecimal, with this between them.
#[derive(Clone, Copy)]
pub struct Hexadecimal<'a>(pub &'a [u8], pub &'static str);

impl fmt::Display for Hexadecimal<'_> {
    fn fmt<W: fmt::Write>(&self, f: &mut fmt::Formatter<W>) -> fmt::Result {
        let mut between = "";
        for byte in self.0 {
            write!(f, "{between}{byte:02x}")?;
            between = self.1;
        }
        Ok(())
    }
}

/// Bits as C prints them by `%#x`.
#[derive(Clone, Copy)]
pub struct Bits(pub u64);

impl fmt::Display for Bits {
    fn fmt<W: fmt::Write>(&self, f: &mut fmt::Formatter<W>) -> fmt::Result {
        match self.0 {
            0 => write!(f, "0"),
            bits => write!(f, "0x{bits:x}"),
        }
    }
}

/// An address of version 6 as C prints it: where its first six words alone are 0, the rest is dotted.
#[derive(Clone, Copy)]
pub struct Inet6<'a>(pub &'a Ipv6Addr);

impl fmt::Display for Inet6<'_> {
    fn fmt<W: fmt::Write>(&self, f: &mut fmt::Formatter<W>) -> fmt::Result {
        match self.0.octets() {
            [0, 0, 0, 0, 0, 0, 0, 0, 0, 0, 0, 0, a, b, c, d] if (a, b) != (0, 0) => {
                write!(f, "::{a}.{b}.{c}.{d}")
            }
            _ => write!(f, "{}", self.0),
        }
    }
}

/// An address of version 4 or 6.
#[derive(Clone, Copy)]
pub struct Inet<'a>(pub &'a IpAddr);

impl fmt::Display for Inet<'_> {
    fn fmt<W: fmt::Write>(&self, f: &mut fmt::Formatter<W>) -> fmt::Result {
        match self.0 {
            IpAddr::V4(ip) => write!(f, "{ip}"),
            IpAddr::V6(ip) => write!(f, "{}", Inet6(ip)),
        }
    }
}

/// A prefix of this length without an address.
#[derive(Clone, Copy)]
pub struct Nowhere(pub u8);

impl fmt::Display for Nowhere {
    fn fmt<W: fmt::Write>(&self, f: &mut fmt::Formatter<W>) -> fmt::Result {
        match self.0 {
            0 => write!(f, "default"),
            length => write!(f, "0/{length}"),
        }
    }
}

/// Labels with `/` between them.
#[derive(Clone, Copy)]
pub struct Labels<'a>(pub &'a [MplsLabel]);

impl fmt::Display for Labels<'_> {
    fn fmt<W: fmt::Write>(&self, f: &mut fmt::Formatter<W>) -> fmt::Result {
        let mut between = "";
        let mut left = self.0.len();
        for label in self.0 {
            left = left.saturating_sub(1);
            write!(f, "{between}{}", Label(*label, left == 0))?;
            between = "/";
        }
        Ok(())
    }
}

/// A label, in brackets with what `ip` does not show: a class and a time to live that are not 0,
/// and whether the stack ends with it, where that is not what its place says.
#[derive(Clone, Copy)]
struct Label(MplsLabel, bool);

impl fmt::Display for Label {
    fn fmt<W: fmt::Write>(&self, f: &mut fmt::Formatter<W>) -> fmt::Result {
        let Label(label, is_last) = *self;
        write!(f, "{}", label.label)?;
        if label.traffic_class != 0 {
            write!(f, "[tc {}]", label.traffic_class)?;
        }
        if label.bottom_of_stack != is_last {
            write!(f, "[bottom {}]", label.bottom_of_stack)?;
        }
        if label.ttl != 0 {
            write!(f, "[ttl {}]", label.ttl)?;
        }
        Ok(())
    }
}

/// Milliseconds, and from a second on seconds.
#[derive(Clone, Copy)]
pub struct Milliseconds(pub u32);

impl fmt::Display for Milliseconds {
    fn fmt<W: fmt::Write>(&self, f: &mut fmt::Formatter<W>) -> fmt::Result {
        let (seconds, rest) = (self.0 / 1000, self.0 % 1000);
        match (seconds, rest % 100, rest % 10) {
            (0, ..) => write!(f, "{rest}ms"),
            _ if rest == 0 => write!(f, "{seconds}s"),
            (_, 0, _) => write!(f, "{seconds}.{}s", rest / 100),
            (_, _, 0) => write!(f, "{seconds}.{:02}s", rest / 10),
            _ => write!(f, "{seconds}.{rest:03}s"),
        }
    }
}

/// An address on a link of this type: one of IP where the type is a tunnel over it.
#[derive(Clone, Copy)]
pub struct LinkAddress<'a>(pub &'a [u8], pub u16);

/// The types of tunnels over version 4, and over version 6 (`ARPHRD_*`).
const TUNNELS: [u16; 3] = [768, 776, 778];

const TUNNELS_OVER_6: [u16; 2] = [769, 823];

impl fmt::Display for LinkAddress<'_> {
    fn fmt<W: fmt::Write>(&self, f: &mut fmt::Formatter<W>) -> fmt::Result {
        let LinkAddress(bytes, kind) = *self;
        if TUNNELS.contains(&kind) {
            if let Ok(octets) = <[u8; 4]>::try_from(bytes) {
                return write!(f, "{}", Ipv4Addr::from(octets));
            }
        }
        if TUNNELS_OVER_6.contains(&kind) {
            if let Ok(octets) = <[u8; 16]>::try_from(bytes) {
                return write!(f, "{}", Inet6(&Ipv6Addr::from(octets)));
            }
        }
        write!(f, "{}", Hexadecimal(bytes, ":"))
    }
}

/// The names of the bits that are set, with `,` between them.
#[derive(Clone, Copy)]
pub struct BitNames(pub Names, pub u32);

impl fmt::Display for BitNames {
    fn fmt<W: fmt::Write>(&self, f: &mut fmt::Formatter<W>) -> fmt::Result {
        let BitNames(names, bits) = *self;
        let mut between = "";
        for (bit, name) in names {
            if bits & *bit != 0 {
                write!(f, "{between}{name}")?;
                between = ",";
            }
        }
        match bits {
            0 => write!(f, "0x0"),
            _ => Ok(()),
        }
    }
}
