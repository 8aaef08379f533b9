//! Handles of queueing disciplines and classes: `TC_H_*` of `linux/pkt_sched.h`.

ghost use Rattle.std.specs.Prelude.{◌≡◌, Some, IfOk, IfErr};
ghost use Rattle.{npr_base.specs.{Codec.{exactly}, Refusal.{no_place}}, npr_tc_values.specs.Handle.{handle, handles, handle_text}};

use npr_base::{At, DecodeError, EmitError, Emitable, Scalar, read_octets, write_array};
use std::fmt;

/// The handle of a queueing discipline or a class.
///
/// Layout (`linux/pkt_sched.h`), 4 bytes, a number in little endian: its high half is the major number,
/// and its low half the minor.
#[derive(Clone, Copy, Debug, Default, PartialEq, Eq)]
pub struct TcHandle {
    /// The number of the queueing discipline.
    pub major: u16,
    /// The number of a class in it.
    pub minor: u16,
}

impl From<u32> for TcHandle {
    ghost from_gives = { λ number h. h ≡ handles.of number };

    fn from(number: u32) -> TcHandle {
        TcHandle {
            major: (number / 0x1_0000) as u16,
            minor: (number % 0x1_0000) as u16,
        }
    }
}

impl From<TcHandle> for u32 {
    ghost from_gives = { λ h number. number ≡ handles.number h };

    fn from(handle: TcHandle) -> u32 {
        u32::from(handle.major) * 0x1_0000 + u32::from(handle.minor)
    }
}

impl Scalar for TcHandle {
    ghost layout = { handle };

    #[inline(always)]
    fn read_scalar(value: &[u8], at: At) -> Result<Self, DecodeError> {
        TcHandle::read(value, at)
    }
}

impl TcHandle {
    /// `TC_H_UNSPEC`, 0:0: none.
    pub const UNSPEC: TcHandle = TcHandle { major: 0, minor: 0 };

    /// `TC_H_ROOT`, ffff:ffff: the root of an interface.
    pub const ROOT: TcHandle = TcHandle {
        major: 0xffff,
        minor: 0xffff,
    };

    /// `TC_H_INGRESS`, ffff:fff1: what comes in.
    pub const INGRESS: TcHandle = TcHandle {
        major: 0xffff,
        minor: 0xfff1,
    };

    /// `TC_H_CLSACT`, the same.
    pub const CLSACT: TcHandle = TcHandle {
        major: 0xffff,
        minor: 0xfff1,
    };

    /// `TC_H_MIN_PRIORITY`: the first minor number of classes that stand for priorities.
    pub const MIN_PRIORITY: u16 = 0xffe0;

    /// `TC_H_MIN_INGRESS`: the minor number of what comes in.
    pub const MIN_INGRESS: u16 = 0xfff2;

    /// `TC_H_MIN_EGRESS`: the minor number of what goes out.
    pub const MIN_EGRESS: u16 = 0xfff3;

    /// The handle of 4 bytes.
    ///
    /// # Errors
    /// `ValueLength` at another length.
    pub fn parse(bytes: &[u8]) -> Result<Self, DecodeError>
        ensures ok { IfOk result (λ x. (exactly handle).Reads bytes.now x) }
        ensures refused { IfErr result (λ e. (exactly handle).Wrong no_place bytes.now e) }
    {
        Self::read(bytes, At::NO_PLACE)
    }

    /// The handle of 4 bytes at a place.
    ///
    /// # Errors
    /// `ValueLength` at another length.
    pub fn read(bytes: &[u8], at: At) -> Result<Self, DecodeError>
        ensures ok { IfOk result (λ x. (exactly handle).Reads bytes.now x) }
        ensures refused { IfErr result (λ e. (exactly handle).Wrong at bytes.now e) }
    {
        let octets = read_octets::<4>(bytes, at)?;
        Ok(TcHandle::from(u32::from_le_bytes(octets)))
    }

    /// The 4 bytes of the layout.
    pub fn to_bytes(&self) -> [u8; 4]
        ensures { result ≡ handle.encode self.now }
    {
        u32::from(*self).to_le_bytes()
    }
}

/// Both numbers, in hexadecimal: `ffff:fff1`.
impl fmt::Display for TcHandle {
    ghost output = { λ h. Some (handle_text h) };

    fn fmt<W: fmt::Write>(&self, f: &mut fmt::Formatter<W>) -> fmt::Result {
        write!(f, "{:x}:{:x}", self.major, self.minor)
    }
}

impl Emitable for TcHandle {
    ghost bytes = { handle.encode };

    fn check(&self) -> Result<usize, EmitError> {
        Ok(4)
    }

    fn emit(&self, out: &mut [u8]) {
        write_array(self.to_bytes(), out);
    }
}
