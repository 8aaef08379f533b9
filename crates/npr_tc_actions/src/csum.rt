//! Which checksums an action makes anew, with what every action has: `struct tc_csum` of
//! `linux/tc_act/tc_csum.h`.

ghost use Rattle.std.specs.Prelude.{◌≡◌, IfOk, IfErr};
ghost use Rattle.{npr_base.specs.{Codec.{leading}, Refusal.{no_place}}, npr_tc_actions.specs.Csum.{csum}};

use crate::csum_flags::TcCsumFlags;
use crate::generic::TcActionGeneric;
use bitflags::Flags;
use npr_base::{DecodeError, EmitError, Emitable, leading_octets, octets_at, write_array};

/// Which checksums an action makes anew, with what every action has.
///
/// Layout (`struct tc_csum` of `linux/tc_act/tc_csum.h`), 24 bytes: what every action has, and a number
/// of 4, little endian.
#[derive(Clone, Copy, Debug, Default, PartialEq, Eq)]
pub struct TcCsum {
    /// What every action has.
    pub generic: TcActionGeneric,
    /// Which checksums.
    pub update_flags: TcCsumFlags,
}

impl TcCsum {
    /// The values in the first 24 bytes; more are not looked at.
    ///
    /// # Errors
    /// `HeaderTooShort` below 24 bytes.
    pub fn parse(bytes: &[u8]) -> Result<Self, DecodeError>
        ensures ok { IfOk result (λ x. (leading csum).Reads bytes.now x) }
        ensures refused { IfErr result (λ e. (leading csum).Wrong no_place bytes.now e) }
    {
        let b = leading_octets(bytes, 24)?;
        Ok(TcCsum {
            generic: TcActionGeneric::in_front(b),
            update_flags: TcCsumFlags::from_bits_retain(u32::from_le_bytes(octets_at(b, 20))),
        })
    }

    /// The 24 bytes of the layout.
    pub fn to_bytes(&self) -> [u8; 24]
        ensures { result ≡ csum.encode self.now }
    {
        let [
            a0,
            a1,
            a2,
            a3,
            a4,
            a5,
            a6,
            a7,
            a8,
            a9,
            a10,
            a11,
            a12,
            a13,
            a14,
            a15,
            a16,
            a17,
            a18,
            a19,
        ] = self.generic.to_bytes();
        let [b0, b1, b2, b3] = self.update_flags.bits().to_le_bytes();
        [
            a0, a1, a2, a3, a4, a5, a6, a7, a8, a9, a10, a11, a12, a13, a14, a15, a16, a17, a18,
            a19, b0, b1, b2, b3,
        ]
    }
}

impl Emitable for TcCsum {
    ghost bytes = { csum.encode };

    fn check(&self) -> Result<usize, EmitError> {
        Ok(24)
    }

    fn emit(&self, out: &mut [u8]) {
        write_array(self.to_bytes(), out);
    }
}
