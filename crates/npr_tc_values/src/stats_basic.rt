//! How much went by: `struct gnet_stats_basic` of `linux/gen_stats.h`.

ghost use Rattle.std.specs.Prelude.{◌≡◌, IfOk, IfErr};
ghost use Rattle.{npr_base.specs.{Codec.{leading}, Refusal.{no_place}}, npr_tc_values.specs.StatsBasic.{stats_basic}};

use npr_base::{DecodeError, EmitError, Emitable, leading_octets, octets_at, write_array};

/// How much went by.
///
/// Layout (`struct gnet_stats_basic` of `linux/gen_stats.h`), 16 bytes: the bytes in 8 and the packets in 4, little
/// endian; four more are not looked at, and written 0.
#[derive(Clone, Copy, Debug, Default, PartialEq, Eq)]
pub struct TcStatsBasic {
    /// How many bytes.
    pub bytes: u64,
    /// How many packets, modulo 2 to the 32.
    pub packets: u32,
}

/// A [`TcStatsBasic`] is its own layout.
pub type TcStatsBasicBuffer = TcStatsBasic;

impl TcStatsBasic {
    /// The values in the first 16 bytes; more are not looked at.
    ///
    /// # Errors
    /// `HeaderTooShort` below 16 bytes.
    pub fn parse(bytes: &[u8]) -> Result<Self, DecodeError>
        ensures ok { IfOk result (λ x. (leading stats_basic).Reads bytes.now x) }
        ensures refused { IfErr result (λ e. (leading stats_basic).Wrong no_place bytes.now e) }
    {
        let b = leading_octets(bytes, 16)?;
        Ok(TcStatsBasic {
            bytes: u64::from_le_bytes(octets_at(b, 0)),
            packets: u32::from_le_bytes(octets_at(b, 8)),
        })
    }

    /// The 16 bytes of the layout.
    pub fn to_bytes(&self) -> [u8; 16]
        ensures { result ≡ stats_basic.encode self.now }
    {
        let mut out = [0; 16];
        write_array(self.bytes.to_le_bytes(), &mut out);
        write_array(self.packets.to_le_bytes(), &mut out[8..]);
        out
    }
}

impl Emitable for TcStatsBasic {
    ghost bytes = { stats_basic.encode };

    fn check(&self) -> Result<usize, EmitError> {
        Ok(16)
    }

    fn emit(&self, out: &mut [u8]) {
        write_array(self.to_bytes(), out);
    }
}
