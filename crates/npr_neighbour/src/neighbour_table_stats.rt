//! What a table of neighbours has counted: `struct ndt_stats` of `linux/neighbour.h`.

ghost use Rattle.std.specs.Prelude.{◌≡◌, ◌<◌, IfOk, IfErr};
ghost use Rattle.{npr_base.specs.{Codec.{leading}, Refusal.{no_place}}, npr_neighbour.specs.NeighbourTableStats.{table_stats}};

use npr_base::{DecodeError, EmitError, Emitable, leading_octets, octets_at, write_array};

/// What a table of neighbours has counted.
#[derive(Clone, Copy, Debug, Default, PartialEq, Eq)]
pub struct NeighbourTableStats {
    /// Neighbours that were made.
    pub allocs: u64,
    /// Neighbours that were freed.
    pub destroys: u64,
    /// How often the table of hashes grew.
    pub hash_grows: u64,
    /// Addresses that were asked for in vain.
    pub res_failed: u64,
    /// Searches.
    pub lookups: u64,
    /// Searches that found one.
    pub hits: u64,
    /// Questions that were received by multicast.
    pub multicast_probes_received: u64,
    /// Questions that were received by unicast.
    pub unicast_probes_received: u64,
    /// How often it was cleared in its time.
    pub periodic_gc_runs: u64,
    /// How often it was cleared for want of room.
    pub forced_gc_runs: u64,
    /// How often it had no room for one more.
    pub table_fulls: u64,
}

/// A [`NeighbourTableStats`] is its own layout: 88 bytes, eleven numbers of 8, little endian.
pub type NeighbourTableStatsBuffer = NeighbourTableStats;

impl NeighbourTableStats {
    /// The values in the first 88 bytes; more are not looked at.
    ///
    /// # Errors
    /// `HeaderTooShort` below 88 bytes.
    pub fn parse(bytes: &[u8]) -> Result<Self, DecodeError>
        ensures ok { IfOk result (λ x. (leading table_stats).Reads bytes.now x) }
        ensures refused { IfErr result (λ e. (leading table_stats).Wrong no_place bytes.now e) }
    {
        let b = leading_octets(bytes, 88)?;
        Ok(NeighbourTableStats {
            allocs: u64::from_le_bytes(octets_at(b, 0)),
            destroys: u64::from_le_bytes(octets_at(b, 8)),
            hash_grows: u64::from_le_bytes(octets_at(b, 16)),
            res_failed: u64::from_le_bytes(octets_at(b, 24)),
            lookups: u64::from_le_bytes(octets_at(b, 32)),
            hits: u64::from_le_bytes(octets_at(b, 40)),
            multicast_probes_received: u64::from_le_bytes(octets_at(b, 48)),
            unicast_probes_received: u64::from_le_bytes(octets_at(b, 56)),
            periodic_gc_runs: u64::from_le_bytes(octets_at(b, 64)),
            forced_gc_runs: u64::from_le_bytes(octets_at(b, 72)),
            table_fulls: u64::from_le_bytes(octets_at(b, 80)),
        })
    }

    /// The 88 bytes of the layout.
    pub fn to_bytes(&self) -> [u8; 88]
        ensures { result ≡ table_stats.encode self.now }
    {
        let mut out = [0; 88];
        write_array(self.allocs.to_le_bytes(), &mut out);
        write_array(self.destroys.to_le_bytes(), &mut out[8..]);
        write_array(self.hash_grows.to_le_bytes(), &mut out[16..]);
        write_array(self.res_failed.to_le_bytes(), &mut out[24..]);
        write_array(self.lookups.to_le_bytes(), &mut out[32..]);
        write_array(self.hits.to_le_bytes(), &mut out[40..]);
        write_array(self.multicast_probes_received.to_le_bytes(), &mut out[48..]);
        write_array(self.unicast_probes_received.to_le_bytes(), &mut out[56..]);
        write_array(self.periodic_gc_runs.to_le_bytes(), &mut out[64..]);
        write_array(self.forced_gc_runs.to_le_bytes(), &mut out[72..]);
        write_array(self.table_fulls.to_le_bytes(), &mut out[80..]);
        out
    }
}

impl Emitable for NeighbourTableStats {
    ghost bytes = { table_stats.encode };

    fn check(&self) -> Result<usize, EmitError> {
        Ok(88)
    }

    fn emit(&self, out: &mut [u8]) {
        write_array(self.to_bytes(), out);
    }
}
