//! How far one packet is as the last: `struct tc_netem_corr` of `linux/pkt_sched.h`.

ghost use Rattle.std.specs.Prelude.{◌≡◌, IfOk, IfErr};
ghost use Rattle.{npr_base.specs.{Codec.{leading}, Refusal.{no_place}}, npr_tc_qdiscs.specs.NetemCorr.{netem_corr}};

use npr_base::{DecodeError, EmitError, Emitable, leading_octets, octets_at, write_array};

/// How far one packet is as the last.
///
/// Layout (`struct tc_netem_corr` of `linux/pkt_sched.h`), 12 bytes: three numbers of 4, little endian.
#[derive(Clone, Copy, Debug, Default, PartialEq, Eq)]
pub struct TcNetemCorr {
    /// In its delay: the share of the greatest number.
    pub delay_corr: u32,
    /// In its loss, likewise.
    pub loss_corr: u32,
    /// In its being sent twice, likewise.
    pub dup_corr: u32,
}

impl TcNetemCorr {
    /// The values in the first 12 bytes; more are not looked at.
    ///
    /// # Errors
    /// `HeaderTooShort` below 12 bytes.
    pub fn parse(bytes: &[u8]) -> Result<Self, DecodeError>
        ensures ok { IfOk result (λ x. (leading netem_corr).Reads bytes.now x) }
        ensures refused { IfErr result (λ e. (leading netem_corr).Wrong no_place bytes.now e) }
    {
        let b = leading_octets(bytes, 12)?;
        Ok(TcNetemCorr {
            delay_corr: u32::from_le_bytes(octets_at(b, 0)),
            loss_corr: u32::from_le_bytes(octets_at(b, 4)),
            dup_corr: u32::from_le_bytes(octets_at(b, 8)),
        })
    }

    /// The 12 bytes of the layout.
    pub fn to_bytes(&self) -> [u8; 12]
        ensures { result ≡ netem_corr.encode self.now }
    {
        let [a0, a1, a2, a3] = self.delay_corr.to_le_bytes();
        let [b0, b1, b2, b3] = self.loss_corr.to_le_bytes();
        let [c0, c1, c2, c3] = self.dup_corr.to_le_bytes();
        [a0, a1, a2, a3, b0, b1, b2, b3, c0, c1, c2, c3]
    }
}

impl Emitable for TcNetemCorr {
    ghost bytes = { netem_corr.encode };

    fn check(&self) -> Result<usize, EmitError> {
        Ok(12)
    }

    fn emit(&self, out: &mut [u8]) {
        write_array(self.to_bytes(), out);
    }
}
