//! An estimated rate: `struct gnet_stats_rate_est64` of `linux/gen_stats.h`.

ghost use Rattle.std.specs.Prelude.{◌≡◌, IfOk, IfErr};
ghost use Rattle.{npr_base.specs.{Codec.{leading}, Refusal.{no_place}}, npr_tc_values.specs.StatsRateEst64.{stats_rate_est64}};

use npr_base::{DecodeError, EmitError, Emitable, leading_octets, octets_at, write_array};

/// An estimated rate, with room for a large one.
///
/// Layout (`struct gnet_stats_rate_est64` of `linux/gen_stats.h`), 16 bytes: two numbers of 8 bytes, little endian.
#[derive(Clone, Copy, Debug, Default, PartialEq, Eq)]
pub struct TcStatsRateEst64 {
    /// In bytes a second.
    pub bps: u64,
    /// In packets a second.
    pub pps: u64,
}

impl TcStatsRateEst64 {
    /// The values in the first 16 bytes; more are not looked at.
    ///
    /// # Errors
    /// `HeaderTooShort` below 16 bytes.
    pub fn parse(bytes: &[u8]) -> Result<Self, DecodeError>
        ensures ok { IfOk result (λ x. (leading stats_rate_est64).Reads bytes.now x) }
        ensures refused { IfErr result (λ e. (leading stats_rate_est64).Wrong no_place bytes.now e) }
    {
        let b = leading_octets(bytes, 16)?;
        Ok(TcStatsRateEst64 {
            bps: u64::from_le_bytes(octets_at(b, 0)),
            pps: u64::from_le_bytes(octets_at(b, 8)),
        })
    }

    /// The 16 bytes of the layout.
    pub fn to_bytes(&self) -> [u8; 16]
        ensures { result ≡ stats_rate_est64.encode self.now }
    {
        let mut out = [0; 16];
        write_array(self.bps.to_le_bytes(), &mut out);
        write_array(self.pps.to_le_bytes(), &mut out[8..]);
        out
    }
}

impl Emitable for TcStatsRateEst64 {
    ghost bytes = { stats_rate_est64.encode };

    fn check(&self) -> Result<usize, EmitError> {
        Ok(16)
    }

    fn emit(&self, out: &mut [u8]) {
        write_array(self.to_bytes(), out);
    }
}
