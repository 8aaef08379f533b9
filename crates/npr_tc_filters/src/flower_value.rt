//! What an attribute of a flower filter holds.

ghost use Rattle.std.specs.Prelude.{◌≡◌, ◌≤◌, None, length};
ghost use Rattle.{
  npr_base.specs.{Framing.{Writes}, Lists.{checked}},
  npr_tc_filters.specs.{FlowerHeld.{held_of, same_held}, FlowerValue.{held_bytes, held_unfit, kind_of}},
};

use crate::flower_cfm::TcFlowerCfmOption;
use crate::flower_mpls::TcFilterFlowerMplsOption;
use npr_base::{
    DefaultNla, EmitError, Ipv4Addr, Ipv6Addr, Nla, check_list, write_array, write_bytes,
    write_list, write_name,
};
use npr_tc_actions::{TcAction, TcEncOption};
use npr_tc_values::TcHandle;
use std::fmt;

/// What an attribute of a flower filter holds, where it lies.
#[derive(Clone, Copy)]
pub(crate) enum FlowerValue<'a> {
    /// A number of one byte.
    Byte(u8),
    /// A number of two bytes, little endian.
    Little16(u16),
    /// A number of four bytes, little endian.
    Little32(u32),
    /// A number of two bytes, big endian.
    Big16(u16),
    /// A number of four bytes, big endian.
    Big32(u32),
    /// An address of version 4.
    Octets4(Ipv4Addr),
    /// An address of version 6.
    Octets16(Ipv6Addr),
    /// Six bytes, as they stand.
    Six([u8; 6]),
    /// Sixteen.
    Sixteen([u8; 16]),
    /// A class.
    Handle(TcHandle),
    /// A name.
    Name(&'a String),
    /// Actions.
    Actions(&'a Vec<TcAction>),
    /// Labels of MPLS.
    Mpls(&'a Vec<TcFilterFlowerMplsOption>),
    /// A message of CFM.
    Cfm(&'a Vec<TcFlowerCfmOption>),
    /// Options of a tunnel.
    Enc(&'a Vec<TcEncOption>),
    /// An attribute of another number, as it stands.
    Other(&'a DefaultNla),
}

impl<'a> FlowerValue<'a> {
    /// The kind that is written, by that of the row: of an attribute that no row has the number of, its own.
    pub(crate) fn kind(&self, tag: u16) -> u16
        ensures { result ≡ kind_of tag self.now }
    {
        match self {
            FlowerValue::Other(nla) => nla.kind(),
            _ => tag,
        }
    }

    /// Whether both hold the same.
    pub(crate) fn same(&self, other: &FlowerValue<'_>) -> bool
        ensures { result ≡ same_held (held_of self.now) (held_of other.now) }
    {
        match (self, other) {
            (FlowerValue::Byte(x), FlowerValue::Byte(y)) => x == y,
            (FlowerValue::Little16(x), FlowerValue::Little16(y)) => x == y,
            (FlowerValue::Little32(x), FlowerValue::Little32(y)) => x == y,
            (FlowerValue::Big16(x), FlowerValue::Big16(y)) => x == y,
            (FlowerValue::Big32(x), FlowerValue::Big32(y)) => x == y,
            (FlowerValue::Octets4(x), FlowerValue::Octets4(y)) => x == y,
            (FlowerValue::Octets16(x), FlowerValue::Octets16(y)) => x == y,
            (FlowerValue::Six(x), FlowerValue::Six(y)) => x == y,
            (FlowerValue::Sixteen(x), FlowerValue::Sixteen(y)) => x == y,
            (FlowerValue::Handle(x), FlowerValue::Handle(y)) => x == y,
            (FlowerValue::Name(x), FlowerValue::Name(y)) => x == y,
            (FlowerValue::Actions(x), FlowerValue::Actions(y)) => x == y,
            (FlowerValue::Mpls(x), FlowerValue::Mpls(y)) => x == y,
            (FlowerValue::Cfm(x), FlowerValue::Cfm(y)) => x == y,
            (FlowerValue::Enc(x), FlowerValue::Enc(y)) => x == y,
            (FlowerValue::Other(x), FlowerValue::Other(y)) => x == y,
            _ => false,
        }
    }

    /// The length of the value, in bytes, or the first cause inside it why it can't be written.
    pub(crate) fn check(&self) -> Result<usize, EmitError>
        ensures { result ≡ checked (held_unfit self.now) (length (held_bytes self.now)) }
    {
        match self {
            FlowerValue::Byte(_) => Ok(1),
            FlowerValue::Little16(_) => Ok(2),
            FlowerValue::Little32(_) => Ok(4),
            FlowerValue::Big16(_) => Ok(2),
            FlowerValue::Big32(_) => Ok(4),
            FlowerValue::Octets4(x) => Ok(x.octets().len()),
            FlowerValue::Octets16(x) => Ok(x.octets().len()),
            FlowerValue::Six(x) => Ok(x.as_slice().len()),
            FlowerValue::Sixteen(x) => Ok(x.as_slice().len()),
            FlowerValue::Handle(_) => Ok(4),
            FlowerValue::Name(x) => Ok(x.len() + 1),
            FlowerValue::Actions(xs) => check_list(xs.as_slice()),
            FlowerValue::Mpls(xs) => check_list(xs.as_slice()),
            FlowerValue::Cfm(xs) => check_list(xs.as_slice()),
            FlowerValue::Enc(xs) => check_list(xs.as_slice()),
            FlowerValue::Other(nla) => Ok(nla.value().len()),
        }
    }

    /// Writes the value at the front of the slice, leaves the rest, and answers its length. Asks that
    /// `check` accepts, and room for the value.
    pub(crate) fn write(&self, out: &mut [u8]) -> usize
        requires fits { held_unfit self.now ≡ None }
        requires room { length (held_bytes self.now) ≤ length out.old }
        ensures len { result ≡ length (held_bytes self.now) }
        ensures after { Writes out.old out.new (held_bytes self.now) }
    {
        match self {
            FlowerValue::Byte(x) => write_array([*x], out),
            FlowerValue::Little16(x) => write_array(x.to_le_bytes(), out),
            FlowerValue::Little32(x) => write_array(x.to_le_bytes(), out),
            FlowerValue::Big16(x) => write_array(x.to_be_bytes(), out),
            FlowerValue::Big32(x) => write_array(x.to_be_bytes(), out),
            FlowerValue::Octets4(x) => write_array(x.octets(), out),
            FlowerValue::Octets16(x) => write_array(x.octets(), out),
            FlowerValue::Six(x) => write_bytes(x.as_slice(), out),
            FlowerValue::Sixteen(x) => write_bytes(x.as_slice(), out),
            FlowerValue::Handle(x) => write_array(x.to_bytes(), out),
            FlowerValue::Name(x) => write_name(x.as_str(), out),
            FlowerValue::Actions(xs) => write_list(xs.as_slice(), out),
            FlowerValue::Mpls(xs) => write_list(xs.as_slice(), out),
            FlowerValue::Cfm(xs) => write_list(xs.as_slice(), out),
            FlowerValue::Enc(xs) => write_list(xs.as_slice(), out),
            FlowerValue::Other(nla) => write_bytes(nla.value(), out),
        }
    }
}

/// What it holds, alone.
impl<'a> fmt::Debug for FlowerValue<'a> {
    fn fmt<W: fmt::Write>(&self, f: &mut fmt::Formatter<W>) -> fmt::Result {
        match self {
            FlowerValue::Byte(x) => fmt::Debug::fmt(x, f),
            FlowerValue::Little16(x) => fmt::Debug::fmt(x, f),
            FlowerValue::Little32(x) => fmt::Debug::fmt(x, f),
            FlowerValue::Big16(x) => fmt::Debug::fmt(x, f),
            FlowerValue::Big32(x) => fmt::Debug::fmt(x, f),
            FlowerValue::Octets4(x) => fmt::Debug::fmt(x, f),
            FlowerValue::Octets16(x) => fmt::Debug::fmt(x, f),
            FlowerValue::Six(x) => fmt::Debug::fmt(x, f),
            FlowerValue::Sixteen(x) => fmt::Debug::fmt(x, f),
            FlowerValue::Handle(x) => fmt::Debug::fmt(x, f),
            FlowerValue::Name(x) => fmt::Debug::fmt(*x, f),
            FlowerValue::Actions(xs) => fmt::Debug::fmt(*xs, f),
            FlowerValue::Mpls(xs) => fmt::Debug::fmt(*xs, f),
            FlowerValue::Cfm(xs) => fmt::Debug::fmt(*xs, f),
            FlowerValue::Enc(xs) => fmt::Debug::fmt(*xs, f),
            FlowerValue::Other(nla) => fmt::Debug::fmt(*nla, f),
        }
    }
}
