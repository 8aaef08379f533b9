//! What the kernel remembers of a neighbour: `struct nda_cacheinfo` of `linux/neighbour.h`.

ghost use Rattle.std.specs.Prelude.{◌≡◌, ◌<◌, IfOk, IfErr};
ghost use Rattle.{npr_base.specs.{Codec.{leading}, Refusal.{no_place}}, npr_neighbour.specs.CacheInfo.{cache_info}};

use npr_base::{DecodeError, EmitError, Emitable, leading_octets, octets_at, write_array};

/// When a neighbour was last confirmed, used and changed, in hundredths of a second before now, and
/// how many hold it.
#[derive(Clone, Copy, Debug, Default, PartialEq, Eq)]
pub struct NeighbourCacheInfo {
    /// When it was last confirmed.
    pub confirmed: u32,
    /// When it was last used.
    pub used: u32,
    /// When it was last changed.
    pub updated: u32,
    /// How many hold it.
    pub refcnt: u32,
}

/// A [`NeighbourCacheInfo`] is its own layout: 16 bytes, four numbers of 4 bytes, little endian.
pub type NeighbourCacheInfoBuffer = NeighbourCacheInfo;

impl NeighbourCacheInfo {
    /// The values in the first 16 bytes; more are not looked at.
    ///
    /// # Errors
    /// `HeaderTooShort` below 16 bytes.
    pub fn parse(bytes: &[u8]) -> Result<Self, DecodeError>
        ensures ok { IfOk result (λ info. (leading cache_info).Reads bytes.now info) }
        ensures refused { IfErr result (λ e. (leading cache_info).Wrong no_place bytes.now e) }
    {
        let b = leading_octets(bytes, 16)?;
        Ok(NeighbourCacheInfo {
            confirmed: u32::from_le_bytes(octets_at(b, 0)),
            used: u32::from_le_bytes(octets_at(b, 4)),
            updated: u32::from_le_bytes(octets_at(b, 8)),
            refcnt: u32::from_le_bytes(octets_at(b, 12)),
        })
    }

    /// The 16 bytes of the layout.
    pub fn to_bytes(&self) -> [u8; 16]
        ensures { result ≡ cache_info.encode self.now }
    {
        let mut out = [0; 16];
        write_array(self.confirmed.to_le_bytes(), &mut out);
        write_array(self.used.to_le_bytes(), &mut out[4..]);
        write_array(self.updated.to_le_bytes(), &mut out[8..]);
        write_array(self.refcnt.to_le_bytes(), &mut out[12..]);
        out
    }
}

impl<'a> From<&'a NeighbourCacheInfo> for NeighbourCacheInfoBuffer {
    ghost from_gives = { λ info b. b ≡ info.now };

    fn from(info: &'a NeighbourCacheInfo) -> NeighbourCacheInfoBuffer {
        *info
    }
}

impl Emitable for NeighbourCacheInfo {
    ghost bytes = { cache_info.encode };

    fn check(&self) -> Result<usize, EmitError> {
        Ok(16)
    }

    fn emit(&self, out: &mut [u8]) {
        write_array(self.to_bytes(), out);
    }
}
