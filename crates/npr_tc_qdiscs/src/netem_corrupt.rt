//! How many packets are damaged: `struct tc_netem_corrupt` of `linux/pkt_sched.h`.

ghost use Rattle.std.specs.Prelude.{◌≡◌, IfOk, IfErr};
ghost use Rattle.{npr_base.specs.{Codec.{leading}, Refusal.{no_place}}, npr_tc_qdiscs.specs.NetemCorrupt.{netem_corrupt}};

use npr_base::{DecodeError, EmitError, Emitable, leading_octets, octets_at, write_array};

/// How many packets are damaged.
///
/// Layout (`struct tc_netem_corrupt` of `linux/pkt_sched.h`), 8 bytes: two numbers of 4, little endian.
#[derive(Clone, Copy, Debug, Default, PartialEq, Eq)]
pub struct TcNetemCorrupt {
    /// How many: the share of the greatest number.
    pub probability: u32,
    /// How far one is as the last, likewise.
    pub correlation: u32,
}

impl TcNetemCorrupt {
    /// The values in the first 8 bytes; more are not looked at.
    ///
    /// # Errors
    /// `HeaderTooShort` below 8 bytes.
    pub fn parse(bytes: &[u8]) -> Result<Self, DecodeError>
        ensures ok { IfOk result (λ x. (leading netem_corrupt).Reads bytes.now x) }
        ensures refused { IfErr result (λ e. (leading netem_corrupt).Wrong no_place bytes.now e) }
    {
        let b = leading_octets(bytes, 8)?;
        Ok(TcNetemCorrupt {
            probability: u32::from_le_bytes(octets_at(b, 0)),
            correlation: u32::from_le_bytes(octets_at(b, 4)),
        })
    }

    /// The 8 bytes of the layout.
    pub fn to_bytes(&self) -> [u8; 8]
        ensures { result ≡ netem_corrupt.encode self.now }
    {
        let [a0, a1, a2, a3] = self.probability.to_le_bytes();
        let [b0, b1, b2, b3] = self.correlation.to_le_bytes();
        [a0, a1, a2, a3, b0, b1, b2, b3]
    }
}

impl Emitable for TcNetemCorrupt {
    ghost bytes = { netem_corrupt.encode };

    fn check(&self) -> Result<usize, EmitError> {
        Ok(8)
    }

    fn emit(&self, out: &mut [u8]) {
        write_array(self.to_bytes(), out);
    }
}
