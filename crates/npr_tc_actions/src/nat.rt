//! How an action changes addresses: `struct tc_nat` of `linux/tc_act/tc_nat.h`.

ghost use Rattle.std.specs.Prelude.{◌≡◌, IfOk, IfErr};
ghost use Rattle.{npr_base.specs.{Codec.{leading}, Refusal.{no_place}}, npr_tc_actions.specs.Nat.{default_nat, nat}};

use crate::generic::TcActionGeneric;
use crate::nat_flags::TcNatFlags;
use bitflags::Flags;
use npr_base::{
    DecodeError, EmitError, Emitable, Ipv4Addr, leading_octets, octets_at, write_array,
};

/// How an action changes addresses: `struct tc_nat` of `linux/tc_act/tc_nat.h`, 36 bytes, what every
/// action has, three addresses of 4 bytes, and the flags in 4, little endian.
#[derive(Clone, Copy, Debug, PartialEq, Eq)]
pub struct TcNat {
    /// What every action has.
    pub generic: TcActionGeneric,
    /// The address that is changed.
    pub old_addr: Ipv4Addr,
    /// The address that it becomes.
    pub new_addr: Ipv4Addr,
    /// The bits that are looked at and changed.
    pub mask: Ipv4Addr,
    /// Which way.
    pub flags: TcNatFlags,
}

/// A [`TcNat`] is its own layout.
pub type TcNatBuffer = TcNat;

/// Each number 0, and each address 0.0.0.0.
impl Default for TcNat {
    ghost is_default = { λ x. x ≡ default_nat };

    fn default() -> TcNat {
        TcNat {
            generic: TcActionGeneric::default(),
            old_addr: Ipv4Addr::new(0, 0, 0, 0),
            new_addr: Ipv4Addr::new(0, 0, 0, 0),
            mask: Ipv4Addr::new(0, 0, 0, 0),
            flags: TcNatFlags::from_bits_retain(0),
        }
    }
}

impl TcNat {
    /// The values in the first 36 bytes; more are not looked at.
    ///
    /// # Errors
    /// `HeaderTooShort` below 36 bytes.
    pub fn parse(bytes: &[u8]) -> Result<Self, DecodeError>
        ensures ok { IfOk result (λ x. (leading nat).Reads bytes.now x) }
        ensures refused { IfErr result (λ e. (leading nat).Wrong no_place bytes.now e) }
    {
        let b = leading_octets(bytes, 36)?;
        Ok(TcNat {
            generic: TcActionGeneric::in_front(b),
            old_addr: Ipv4Addr::new(b[20], b[21], b[22], b[23]),
            new_addr: Ipv4Addr::new(b[24], b[25], b[26], b[27]),
            mask: Ipv4Addr::new(b[28], b[29], b[30], b[31]),
            flags: TcNatFlags::from_bits_retain(u32::from_le_bytes(octets_at(b, 32))),
        })
    }

    /// The 36 bytes of the layout.
    pub fn to_bytes(&self) -> [u8; 36]
        ensures { result ≡ nat.encode self.now }
    {
        let [
            g0,
            g1,
            g2,
            g3,
            g4,
            g5,
            g6,
            g7,
            g8,
            g9,
            g10,
            g11,
            g12,
            g13,
            g14,
            g15,
            g16,
            g17,
            g18,
            g19,
        ] = self.generic.to_bytes();
        let [a0, a1, a2, a3] = self.old_addr.octets();
        let [b0, b1, b2, b3] = self.new_addr.octets();
        let [c0, c1, c2, c3] = self.mask.octets();
        let [d0, d1, d2, d3] = self.flags.bits().to_le_bytes();
        [
            g0, g1, g2, g3, g4, g5, g6, g7, g8, g9, g10, g11, g12, g13, g14, g15, g16, g17, g18,
            g19, a0, a1, a2, a3, b0, b1, b2, b3, c0, c1, c2, c3, d0, d1, d2, d3,
        ]
    }
}

impl Emitable for TcNat {
    ghost bytes = { nat.encode };

    fn check(&self) -> Result<usize, EmitError> {
        Ok(36)
    }

    fn emit(&self, out: &mut [u8]) {
        write_array(self.to_bytes(), out);
    }
}
