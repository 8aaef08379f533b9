//! Times of the neighbours of a link: `struct ifla_cacheinfo` of `linux/if_link.h`.

ghost use Rattle.std.specs.Prelude.{◌≡◌, ◌<◌, IfOk, IfErr};
ghost use Rattle.{npr_base.specs.{Codec.{leading}, Refusal.{no_place}}, npr_link.specs.Inet6CacheInfo.{inet6_cache_info}};

use npr_base::{DecodeError, EmitError, Emitable, leading_octets, write_array};

/// What IP version 6 says of the packets and neighbours of a link.
#[derive(Clone, Copy, Debug, Default, PartialEq, Eq)]
pub struct Inet6CacheInfo {
    /// The longest packet that is put together, in bytes.
    pub max_reasm_len: i32,
    /// When it was last changed, in hundredths of a second since the start of the system.
    pub tstamp: i32,
    /// For how long a neighbour is held to be reachable, in milliseconds.
    pub reachable_time: i32,
    /// Between questions for a neighbour, in milliseconds.
    pub retrans_time: i32,
}

/// An [`Inet6CacheInfo`] is its own layout: 16 bytes, four signed numbers of 4 bytes, little endian.
pub type Inet6CacheInfoBuffer = Inet6CacheInfo;

impl Inet6CacheInfo {
    /// The values in the first 16 bytes; more are not looked at.
    ///
    /// # Errors
    /// `HeaderTooShort` below 16 bytes.
    pub fn parse(bytes: &[u8]) -> Result<Self, DecodeError>
        ensures ok { IfOk result (λ x. (leading inet6_cache_info).Reads bytes.now x) }
        ensures refused { IfErr result (λ e. (leading inet6_cache_info).Wrong no_place bytes.now e) }
    {
        let b = leading_octets(bytes, 16)?;
        Ok(Inet6CacheInfo {
            max_reasm_len: i32::from_le_bytes([b[0], b[1], b[2], b[3]]),
            tstamp: i32::from_le_bytes([b[4], b[5], b[6], b[7]]),
            reachable_time: i32::from_le_bytes([b[8], b[9], b[10], b[11]]),
            retrans_time: i32::from_le_bytes([b[12], b[13], b[14], b[15]]),
        })
    }

    /// The 16 bytes of the layout.
    pub fn to_bytes(&self) -> [u8; 16]
        ensures { result ≡ inet6_cache_info.encode self.now }
    {
        let [a0, a1, a2, a3] = self.max_reasm_len.to_le_bytes();
        let [b0, b1, b2, b3] = self.tstamp.to_le_bytes();
        let [c0, c1, c2, c3] = self.reachable_time.to_le_bytes();
        let [d0, d1, d2, d3] = self.retrans_time.to_le_bytes();
        [
            a0, a1, a2, a3, b0, b1, b2, b3, c0, c1, c2, c3, d0, d1, d2, d3,
        ]
    }
}

impl Emitable for Inet6CacheInfo {
    ghost bytes = { inet6_cache_info.encode };

    fn check(&self) -> Result<usize, EmitError> {
        Ok(16)
    }

    fn emit(&self, out: &mut [u8]) {
        write_array(self.to_bytes(), out);
    }
}
