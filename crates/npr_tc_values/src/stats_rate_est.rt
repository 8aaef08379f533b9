//! An estimated rate: `struct gnet_stats_rate_est` of `linux/gen_stats.h`.

ghost use Rattle.std.specs.Prelude.{◌≡◌, IfOk, IfErr};
ghost use Rattle.{npr_base.specs.{Codec.{leading}, Refusal.{no_place}}, npr_tc_values.specs.StatsRateEst.{stats_rate_est}};

use npr_base::{DecodeError, EmitError, Emitable, leading_octets, octets_at, write_array};

/// An estimated rate.
///
/// Layout (`struct gnet_stats_rate_est` of `linux/gen_stats.h`), 8 bytes: two numbers of 4 bytes, little endian.
#[derive(Clone, Copy, Debug, Default, PartialEq, Eq)]
pub struct TcStatsRateEst {
    /// In bytes a second; the highest number where it has no room.
    pub bps: u32,
    /// In packets a second.
    pub pps: u32,
}

impl TcStatsRateEst {
    /// The values in the first 8 bytes; more are not looked at.
    ///
    /// # Errors
    /// `HeaderTooShort` below 8 bytes.
    pub fn parse(bytes: &[u8]) -> Result<Self, DecodeError>
        ensures ok { IfOk result (λ x. (leading stats_rate_est).Reads bytes.now x) }
        ensures refused { IfErr result (λ e. (leading stats_rate_est).Wrong no_place bytes.now e) }
    {
        let b = leading_octets(bytes, 8)?;
        Ok(TcStatsRateEst {
            bps: u32::from_le_bytes(octets_at(b, 0)),
            pps: u32::from_le_bytes(octets_at(b, 4)),
        })
    }

    /// The 8 bytes of the layout.
    pub fn to_bytes(&self) -> [u8; 8]
        ensures { result ≡ stats_rate_est.encode self.now }
    {
        let [a0, a1, a2, a3] = self.bps.to_le_bytes();
        let [b0, b1, b2, b3] = self.pps.to_le_bytes();
        [a0, a1, a2, a3, b0, b1, b2, b3]
    }
}

impl Emitable for TcStatsRateEst {
    ghost bytes = { stats_rate_est.encode };

    fn check(&self) -> Result<usize, EmitError> {
        Ok(8)
    }

    fn emit(&self, out: &mut [u8]) {
        write_array(self.to_bytes(), out);
    }
}
