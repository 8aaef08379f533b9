//! How long an address is preferred and valid: `struct ifa_cacheinfo` of `linux/if_addr.h`.

ghost use Rattle.std.specs.Prelude.{◌≡◌, ◌<◌, IfOk, IfErr};
ghost use Rattle.{npr_base.specs.{Codec.{leading}, Refusal.{no_place}}, npr_address.specs.CacheInfo.{cache_info}};

use npr_base::{DecodeError, EmitError, Emitable, leading_octets, octets_at, write_array};

/// How long an address is preferred and valid, in seconds, and when it was made and changed, in
/// hundredths of a second since the start of the system.
#[derive(Clone, Copy, Debug, Default, PartialEq, Eq)]
pub struct CacheInfo {
    /// For how many seconds it is preferred still; the greatest number is for ever.
    pub ifa_preferred: u32,
    /// For how many seconds it is valid still; the greatest number is for ever.
    pub ifa_valid: u32,
    /// When it was made.
    pub cstamp: u32,
    /// When it was changed.
    pub tstamp: u32,
}

/// A [`CacheInfo`] is its own layout: 16 bytes, four numbers of 4 bytes, little endian.
pub type CacheInfoBuffer = CacheInfo;

impl CacheInfo {
    /// The values in the first 16 bytes; more are not looked at.
    ///
    /// # Errors
    /// `HeaderTooShort` below 16 bytes.
    pub fn parse(bytes: &[u8]) -> Result<Self, DecodeError>
        ensures ok { IfOk result (λ info. (leading cache_info).Reads bytes.now info) }
        ensures refused { IfErr result (λ e. (leading cache_info).Wrong no_place bytes.now e) }
    {
        let b = leading_octets(bytes, 16)?;
        Ok(CacheInfo {
            ifa_preferred: u32::from_le_bytes(octets_at(b, 0)),
            ifa_valid: u32::from_le_bytes(octets_at(b, 4)),
            cstamp: u32::from_le_bytes(octets_at(b, 8)),
            tstamp: u32::from_le_bytes(octets_at(b, 12)),
        })
    }

    /// The 16 bytes of the layout.
    pub fn to_bytes(&self) -> [u8; 16]
        ensures { result ≡ cache_info.encode self.now }
    {
        let mut out = [0; 16];
        write_array(self.ifa_preferred.to_le_bytes(), &mut out);
        write_array(self.ifa_valid.to_le_bytes(), &mut out[4..]);
        write_array(self.cstamp.to_le_bytes(), &mut out[8..]);
        write_array(self.tstamp.to_le_bytes(), &mut out[12..]);
        out
    }
}

impl<'a> From<&'a CacheInfo> for CacheInfoBuffer {
    ghost from_gives = { λ info b. b ≡ info.now };

    fn from(info: &'a CacheInfo) -> CacheInfoBuffer {
        *info
    }
}

impl Emitable for CacheInfo {
    ghost bytes = { cache_info.encode };

    fn check(&self) -> Result<usize, EmitError> {
        Ok(16)
    }

    fn emit(&self, out: &mut [u8]) {
        write_array(self.to_bytes(), out);
    }
}
