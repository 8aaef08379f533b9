//! What becomes of some of the packets: `struct tc_gact_p` of `linux/tc_act/tc_gact.h`.

ghost use Rattle.std.specs.Prelude.{◌≡◌, IfOk, IfErr};
ghost use Rattle.{npr_base.specs.{Codec.{leading}, Refusal.{no_place}}, npr_tc_actions.specs.GactProbability.{gact_probability}};

use crate::action_type::TcActionType;
use npr_base::{DecodeError, EmitError, Emitable, leading_octets, write_array};

/// What becomes of some of the packets.
///
/// Layout (`struct tc_gact_p` of `linux/tc_act/tc_gact.h`), 8 bytes: two numbers of 2, and a signed one
/// of 4, little endian.
#[derive(Clone, Copy, Debug, Default, PartialEq, Eq)]
pub struct TcGactProbability {
    /// How they are chosen: 1 (`PGACT_NETRAND`) by chance, 2 (`PGACT_DETERM`) by counting.
    pub ptype: u16,
    /// One in so many.
    pub pval: u16,
    /// What becomes of them.
    pub paction: TcActionType,
}

impl TcGactProbability {
    /// The values in the first 8 bytes; more are not looked at.
    ///
    /// # Errors
    /// `HeaderTooShort` below 8 bytes.
    pub fn parse(bytes: &[u8]) -> Result<Self, DecodeError>
        ensures ok { IfOk result (λ x. (leading gact_probability).Reads bytes.now x) }
        ensures refused { IfErr result (λ e. (leading gact_probability).Wrong no_place bytes.now e) }
    {
        let b = leading_octets(bytes, 8)?;
        Ok(TcGactProbability {
            ptype: u16::from_le_bytes([b[0], b[1]]),
            pval: u16::from_le_bytes([b[2], b[3]]),
            paction: TcActionType::from(i32::from_le_bytes([b[4], b[5], b[6], b[7]])),
        })
    }

    /// The 8 bytes of the layout.
    pub fn to_bytes(&self) -> [u8; 8]
        ensures { result ≡ gact_probability.encode self.now }
    {
        let [a0, a1] = self.ptype.to_le_bytes();
        let [b0, b1] = self.pval.to_le_bytes();
        let [c0, c1, c2, c3] = i32::from(self.paction).to_le_bytes();
        [a0, a1, b0, b1, c0, c1, c2, c3]
    }
}

impl Emitable for TcGactProbability {
    ghost bytes = { gact_probability.encode };

    fn check(&self) -> Result<usize, EmitError> {
        Ok(8)
    }

    fn emit(&self, out: &mut [u8]) {
        write_array(self.to_bytes(), out);
    }
}
