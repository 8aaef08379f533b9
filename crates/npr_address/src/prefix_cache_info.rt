//! How long a prefix is preferred and valid: `struct prefix_cacheinfo` of `linux/rtnetlink.h`.

ghost use Rattle.std.specs.Prelude.{◌≡◌, ◌<◌, IfOk, IfErr};
ghost use Rattle.{npr_base.specs.{Codec.{leading}, Refusal.{no_place}}, npr_address.specs.PrefixCacheInfo.{cache_info}};

use npr_base::{DecodeError, EmitError, Emitable, leading_octets, octets_at, write_array};

/// How long a prefix is preferred and valid: 8 bytes, two numbers of 4, little endian.
#[derive(Clone, Copy, Debug, Default, PartialEq, Eq)]
pub struct CacheInfo {
    /// For how many seconds it is preferred; the greatest number is for ever.
    pub preferred_time: u32,
    /// For how many seconds it is valid; the greatest number is for ever.
    pub valid_time: u32,
}

impl CacheInfo {
    /// The values in the first 8 bytes; more are not looked at.
    ///
    /// # Errors
    /// `HeaderTooShort` below 8 bytes.
    pub fn parse(bytes: &[u8]) -> Result<Self, DecodeError>
        ensures ok { IfOk result (λ x. (leading cache_info).Reads bytes.now x) }
        ensures refused { IfErr result (λ e. (leading cache_info).Wrong no_place bytes.now e) }
    {
        let b = leading_octets(bytes, 8)?;
        Ok(CacheInfo {
            preferred_time: u32::from_le_bytes(octets_at(b, 0)),
            valid_time: u32::from_le_bytes(octets_at(b, 4)),
        })
    }

    /// The 8 bytes of the layout.
    pub fn to_bytes(&self) -> [u8; 8]
        ensures { result ≡ cache_info.encode self.now }
    {
        let [a, b, c, d] = self.preferred_time.to_le_bytes();
        let [e, f, g, h] = self.valid_time.to_le_bytes();
        [a, b, c, d, e, f, g, h]
    }
}

impl Emitable for CacheInfo {
    ghost bytes = { cache_info.encode };

    fn check(&self) -> Result<usize, EmitError> {
        Ok(8)
    }

    fn emit(&self, out: &mut [u8]) {
        write_array(self.to_bytes(), out);
    }
}
