//! Where an action copies or sends a packet: `struct tc_mirred` of `linux/tc_act/tc_mirred.h`.

ghost use Rattle.std.specs.Prelude.{◌≡◌, IfOk, IfErr};
ghost use Rattle.{npr_base.specs.{Codec.{leading}, Refusal.{no_place}}, npr_tc_actions.specs.Mirror.{mirror}};

use crate::generic::TcActionGeneric;
use crate::mirror_action_type::TcMirrorActionType;
use npr_base::{DecodeError, EmitError, Emitable, leading_octets, write_array};

/// Where an action copies or sends a packet: `struct tc_mirred` of `linux/tc_act/tc_mirred.h`, 28 bytes,
/// what every action has, and two numbers of 4 bytes, little endian.
#[derive(Clone, Copy, Debug, Default, PartialEq, Eq)]
pub struct TcMirror {
    /// What every action has.
    pub generic: TcActionGeneric,
    /// Whether it is copied or sent on, and which way.
    pub eaction: TcMirrorActionType,
    /// The index of the device.
    pub ifindex: u32,
}

/// A [`TcMirror`] is its own layout.
pub type TcMirrorBuffer = TcMirror;

impl TcMirror {
    /// The values in the first 28 bytes; more are not looked at.
    ///
    /// # Errors
    /// `HeaderTooShort` below 28 bytes.
    pub fn parse(bytes: &[u8]) -> Result<Self, DecodeError>
        ensures ok { IfOk result (λ x. (leading mirror).Reads bytes.now x) }
        ensures refused { IfErr result (λ e. (leading mirror).Wrong no_place bytes.now e) }
    {
        let b = leading_octets(bytes, 28)?;
        Ok(TcMirror {
            generic: TcActionGeneric::in_front(b),
            eaction: TcMirrorActionType::from(i32::from_le_bytes([b[20], b[21], b[22], b[23]])),
            ifindex: u32::from_le_bytes([b[24], b[25], b[26], b[27]]),
        })
    }

    /// The 28 bytes of the layout.
    pub fn to_bytes(&self) -> [u8; 28]
        ensures { result ≡ mirror.encode self.now }
    {
        let [
            g0,
            g1,
            g2,
            g3,
            g4,
            g5,
            g6,
            g7,
            g8,
            g9,
            g10,
            g11,
            g12,
            g13,
            g14,
            g15,
            g16,
            g17,
            g18,
            g19,
        ] = self.generic.to_bytes();
        let [a0, a1, a2, a3] = i32::from(self.eaction).to_le_bytes();
        let [b0, b1, b2, b3] = self.ifindex.to_le_bytes();
        [
            g0, g1, g2, g3, g4, g5, g6, g7, g8, g9, g10, g11, g12, g13, g14, g15, g16, g17, g18,
            g19, a0, a1, a2, a3, b0, b1, b2, b3,
        ]
    }
}

impl Emitable for TcMirror {
    ghost bytes = { mirror.encode };

    fn check(&self) -> Result<usize, EmitError> {
        Ok(28)
    }

    fn emit(&self, out: &mut [u8]) {
        write_array(self.to_bytes(), out);
    }
}
