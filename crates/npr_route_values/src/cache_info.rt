//! What the kernel remembers of a route: `struct rta_cacheinfo` of `linux/rtnetlink.h`.

ghost use Rattle.std.specs.Prelude.{◌≡◌, IfOk, IfErr};
ghost use Rattle.{npr_base.specs.{Codec.{leading}, Refusal.{no_place}}, npr_route_values.specs.RouteCacheInfo.{route_cache_info}};

use npr_base::{DecodeError, EmitError, Emitable, leading_octets, octets_at, write_array};

/// What the kernel remembers of a route.
#[derive(Clone, Copy, Debug, Default, PartialEq, Eq)]
pub struct RouteCacheInfo {
    /// How many hold the route.
    pub clntref: u32,
    /// When it was last used, in ticks.
    pub last_use: u32,
    /// When it expires, in ticks.
    pub expires: u32,
    /// The error that it answers.
    pub error: u32,
    /// How often it was used.
    pub used: u32,
    /// The identification of its packets.
    pub id: u32,
    /// A time stamp.
    pub ts: u32,
    /// The age of that.
    pub ts_age: u32,
}

/// A [`RouteCacheInfo`] is its own layout: 32 bytes, 8 numbers of 4 bytes, little endian.
pub type RouteCacheInfoBuffer = RouteCacheInfo;

impl RouteCacheInfo {
    /// The values in the first 32 bytes; more are not looked at.
    ///
    /// # Errors
    /// `HeaderTooShort` below 32 bytes.
    pub fn parse(bytes: &[u8]) -> Result<Self, DecodeError>
        ensures ok { IfOk result (λ x. (leading route_cache_info).Reads bytes.now x) }
        ensures refused { IfErr result (λ e. (leading route_cache_info).Wrong no_place bytes.now e) }
    {
        let b = leading_octets(bytes, 32)?;
        Ok(RouteCacheInfo {
            clntref: u32::from_le_bytes(octets_at(b, 0)),
            last_use: u32::from_le_bytes(octets_at(b, 4)),
            expires: u32::from_le_bytes(octets_at(b, 8)),
            error: u32::from_le_bytes(octets_at(b, 12)),
            used: u32::from_le_bytes(octets_at(b, 16)),
            id: u32::from_le_bytes(octets_at(b, 20)),
            ts: u32::from_le_bytes(octets_at(b, 24)),
            ts_age: u32::from_le_bytes(octets_at(b, 28)),
        })
    }

    /// The 32 bytes of the layout.
    pub fn to_bytes(&self) -> [u8; 32]
        ensures { result ≡ route_cache_info.encode self.now }
    {
        let mut out = [0; 32];
        write_array(self.clntref.to_le_bytes(), &mut out);
        write_array(self.last_use.to_le_bytes(), &mut out[4..]);
        write_array(self.expires.to_le_bytes(), &mut out[8..]);
        write_array(self.error.to_le_bytes(), &mut out[12..]);
        write_array(self.used.to_le_bytes(), &mut out[16..]);
        write_array(self.id.to_le_bytes(), &mut out[20..]);
        write_array(self.ts.to_le_bytes(), &mut out[24..]);
        write_array(self.ts_age.to_le_bytes(), &mut out[28..]);
        out
    }
}

impl<'a> From<&'a RouteCacheInfo> for RouteCacheInfoBuffer {
    ghost from_gives = { λ x b. b ≡ x.now };

    fn from(x: &'a RouteCacheInfo) -> RouteCacheInfoBuffer {
        *x
    }
}

impl Emitable for RouteCacheInfo {
    ghost bytes = { route_cache_info.encode };

    fn check(&self) -> Result<usize, EmitError> {
        Ok(32)
    }

    fn emit(&self, out: &mut [u8]) {
        write_array(self.to_bytes(), out);
    }
}
