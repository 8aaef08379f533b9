//! How much a multicast route forwarded: `struct rta_mfc_stats` of `linux/rtnetlink.h`.

ghost use Rattle.std.specs.Prelude.{◌≡◌, IfOk, IfErr};
ghost use Rattle.{npr_base.specs.{Codec.{leading}, Refusal.{no_place}}, npr_route_values.specs.RouteMfcStats.{route_mfc_stats}};

use npr_base::{DecodeError, EmitError, Emitable, leading_octets, octets_at, write_array};

/// How much a multicast route forwarded.
#[derive(Clone, Copy, Debug, Default, PartialEq, Eq)]
pub struct RouteMfcStats {
    /// The packets.
    pub packets: u64,
    /// The bytes.
    pub bytes: u64,
    /// The packets that came in by another interface.
    pub wrong_if: u64,
}

/// A [`RouteMfcStats`] is its own layout: 24 bytes, 3 numbers of 8 bytes, little endian.
pub type RouteMfcStatsBuffer = RouteMfcStats;

impl RouteMfcStats {
    /// The values in the first 24 bytes; more are not looked at.
    ///
    /// # Errors
    /// `HeaderTooShort` below 24 bytes.
    pub fn parse(bytes: &[u8]) -> Result<Self, DecodeError>
        ensures ok { IfOk result (λ x. (leading route_mfc_stats).Reads bytes.now x) }
        ensures refused { IfErr result (λ e. (leading route_mfc_stats).Wrong no_place bytes.now e) }
    {
        let b = leading_octets(bytes, 24)?;
        Ok(RouteMfcStats {
            packets: u64::from_le_bytes(octets_at(b, 0)),
            bytes: u64::from_le_bytes(octets_at(b, 8)),
            wrong_if: u64::from_le_bytes(octets_at(b, 16)),
        })
    }

    /// The 24 bytes of the layout.
    pub fn to_bytes(&self) -> [u8; 24]
        ensures { result ≡ route_mfc_stats.encode self.now }
    {
        let mut out = [0; 24];
        write_array(self.packets.to_le_bytes(), &mut out);
        write_array(self.bytes.to_le_bytes(), &mut out[8..]);
        write_array(self.wrong_if.to_le_bytes(), &mut out[16..]);
        out
    }
}

impl<'a> From<&'a RouteMfcStats> for RouteMfcStatsBuffer {
    ghost from_gives = { λ x b. b ≡ x.now };

    fn from(x: &'a RouteMfcStats) -> RouteMfcStatsBuffer {
        *x
    }
}

impl Emitable for RouteMfcStats {
    ghost bytes = { route_mfc_stats.encode };

    fn check(&self) -> Result<usize, EmitError> {
        Ok(24)
    }

    fn emit(&self, out: &mut [u8]) {
        write_array(self.to_bytes(), out);
    }
}
