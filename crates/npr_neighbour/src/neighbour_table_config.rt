//! How a table of neighbours is made: `struct ndt_config` of `linux/neighbour.h`.

ghost use Rattle.std.specs.Prelude.{◌≡◌, ◌<◌, IfOk, IfErr};
ghost use Rattle.{npr_base.specs.{Codec.{leading}, Refusal.{no_place}}, npr_neighbour.specs.NeighbourTableConfig.{table_config}};

use npr_base::{DecodeError, EmitError, Emitable, leading_octets, octets_at, write_array};

/// How a table of neighbours is made. Times are in milliseconds before now.
#[derive(Clone, Copy, Debug, Default, PartialEq, Eq)]
pub struct NeighbourTableConfig {
    /// The length of an address, in bytes.
    pub key_len: u16,
    /// The size of a neighbour, in bytes.
    pub entry_size: u16,
    /// How many neighbours there are.
    pub entries: u32,
    /// When it was last cleared.
    pub last_flush: u32,
    /// When the times for which a neighbour is reachable were last drawn.
    pub last_rand: u32,
    /// The number that the hashes begin with.
    pub hash_rand: u32,
    /// The bits of a hash that count.
    pub hash_mask: u32,
    /// The chain of hashes that is cleared next.
    pub hash_chain_gc: u32,
    /// How many packets wait for an answer that this host gives for others.
    pub proxy_qlen: u32,
}

/// A [`NeighbourTableConfig`] is its own layout: 32 bytes, two numbers of 2 and seven of 4, little
/// endian.
pub type NeighbourTableConfigBuffer = NeighbourTableConfig;

impl NeighbourTableConfig {
    /// The values in the first 32 bytes; more are not looked at.
    ///
    /// # Errors
    /// `HeaderTooShort` below 32 bytes.
    pub fn parse(bytes: &[u8]) -> Result<Self, DecodeError>
        ensures ok { IfOk result (λ x. (leading table_config).Reads bytes.now x) }
        ensures refused { IfErr result (λ e. (leading table_config).Wrong no_place bytes.now e) }
    {
        let b = leading_octets(bytes, 32)?;
        Ok(NeighbourTableConfig {
            key_len: u16::from_le_bytes(octets_at(b, 0)),
            entry_size: u16::from_le_bytes(octets_at(b, 2)),
            entries: u32::from_le_bytes(octets_at(b, 4)),
            last_flush: u32::from_le_bytes(octets_at(b, 8)),
            last_rand: u32::from_le_bytes(octets_at(b, 12)),
            hash_rand: u32::from_le_bytes(octets_at(b, 16)),
            hash_mask: u32::from_le_bytes(octets_at(b, 20)),
            hash_chain_gc: u32::from_le_bytes(octets_at(b, 24)),
            proxy_qlen: u32::from_le_bytes(octets_at(b, 28)),
        })
    }

    /// The 32 bytes of the layout.
    pub fn to_bytes(&self) -> [u8; 32]
        ensures { result ≡ table_config.encode self.now }
    {
        let mut out = [0; 32];
        write_array(self.key_len.to_le_bytes(), &mut out);
        write_array(self.entry_size.to_le_bytes(), &mut out[2..]);
        write_array(self.entries.to_le_bytes(), &mut out[4..]);
        write_array(self.last_flush.to_le_bytes(), &mut out[8..]);
        write_array(self.last_rand.to_le_bytes(), &mut out[12..]);
        write_array(self.hash_rand.to_le_bytes(), &mut out[16..]);
        write_array(self.hash_mask.to_le_bytes(), &mut out[20..]);
        write_array(self.hash_chain_gc.to_le_bytes(), &mut out[24..]);
        write_array(self.proxy_qlen.to_le_bytes(), &mut out[28..]);
        out
    }
}

impl Emitable for NeighbourTableConfig {
    ghost bytes = { table_config.encode };

    fn check(&self) -> Result<usize, EmitError> {
        Ok(32)
    }

    fn emit(&self, out: &mut [u8]) {
        write_array(self.to_bytes(), out);
    }
}
