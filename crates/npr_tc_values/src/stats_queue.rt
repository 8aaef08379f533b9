//! What waits in a queue: `struct gnet_stats_queue` of `linux/gen_stats.h`.

ghost use Rattle.std.specs.Prelude.{◌≡◌, IfOk, IfErr};
ghost use Rattle.{npr_base.specs.{Codec.{leading}, Refusal.{no_place}}, npr_tc_values.specs.StatsQueue.{stats_queue}};

use npr_base::{DecodeError, EmitError, Emitable, leading_octets, octets_at, write_array};

/// What waits in a queue, and what was dropped.
///
/// Layout (`struct gnet_stats_queue` of `linux/gen_stats.h`), 20 bytes: five numbers of 4 bytes, little endian.
#[derive(Clone, Copy, Debug, Default, PartialEq, Eq)]
pub struct TcStatsQueue {
    /// How many packets wait.
    pub qlen: u32,
    /// How many bytes wait.
    pub backlog: u32,
    /// How many packets were dropped.
    pub drops: u32,
    /// How many went back into the queue.
    pub requeues: u32,
    /// How often what it may send was used up.
    pub overlimits: u32,
}

/// A [`TcStatsQueue`] is its own layout.
pub type TcStatsQueueBuffer = TcStatsQueue;

impl TcStatsQueue {
    /// The values in the first 20 bytes; more are not looked at.
    ///
    /// # Errors
    /// `HeaderTooShort` below 20 bytes.
    pub fn parse(bytes: &[u8]) -> Result<Self, DecodeError>
        ensures ok { IfOk result (λ x. (leading stats_queue).Reads bytes.now x) }
        ensures refused { IfErr result (λ e. (leading stats_queue).Wrong no_place bytes.now e) }
    {
        let b = leading_octets(bytes, 20)?;
        Ok(TcStatsQueue {
            qlen: u32::from_le_bytes(octets_at(b, 0)),
            backlog: u32::from_le_bytes(octets_at(b, 4)),
            drops: u32::from_le_bytes(octets_at(b, 8)),
            requeues: u32::from_le_bytes(octets_at(b, 12)),
            overlimits: u32::from_le_bytes(octets_at(b, 16)),
        })
    }

    /// The 20 bytes of the layout.
    pub fn to_bytes(&self) -> [u8; 20]
        ensures { result ≡ stats_queue.encode self.now }
    {
        let mut out = [0; 20];
        write_array(self.qlen.to_le_bytes(), &mut out);
        write_array(self.backlog.to_le_bytes(), &mut out[4..]);
        write_array(self.drops.to_le_bytes(), &mut out[8..]);
        write_array(self.requeues.to_le_bytes(), &mut out[12..]);
        write_array(self.overlimits.to_le_bytes(), &mut out[16..]);
        out
    }
}

impl Emitable for TcStatsQueue {
    ghost bytes = { stats_queue.encode };

    fn check(&self) -> Result<usize, EmitError> {
        Ok(20)
    }

    fn emit(&self, out: &mut [u8]) {
        write_array(self.to_bytes(), out);
    }
}
