//! What went by a queueing discipline or a class: `struct tc_stats` of `linux/pkt_sched.h`.

ghost use Rattle.std.specs.Prelude.{◌≡◌, IfOk, IfErr};
ghost use Rattle.{npr_base.specs.{Codec.{leading}, Refusal.{no_place}}, npr_tc_values.specs.Stats.{stats}};

use npr_base::{DecodeError, EmitError, Emitable, leading_octets, octets_at, write_array};

/// What went by a queueing discipline or a class, in the older layout.
///
/// Layout (`struct tc_stats` of `linux/pkt_sched.h`), 40 bytes: the bytes in 8, and seven numbers of 4, little endian; four
/// more are not looked at, and written 0.
#[derive(Clone, Copy, Debug, Default, PartialEq, Eq)]
pub struct TcStats {
    /// How many bytes.
    pub bytes: u64,
    /// How many packets.
    pub packets: u32,
    /// How many packets were dropped for lack of room.
    pub drops: u32,
    /// How often what it may send was used up.
    pub overlimits: u32,
    /// The rate of now, in bytes a second.
    pub bps: u32,
    /// The rate of now, in packets a second.
    pub pps: u32,
    /// How many packets wait.
    pub qlen: u32,
    /// How many bytes wait.
    pub backlog: u32,
}

/// A [`TcStats`] is its own layout.
pub type TcStatsBuffer = TcStats;

impl TcStats {
    /// The values in the first 40 bytes; more are not looked at.
    ///
    /// # Errors
    /// `HeaderTooShort` below 40 bytes.
    pub fn parse(bytes: &[u8]) -> Result<Self, DecodeError>
        ensures ok { IfOk result (λ x. (leading stats).Reads bytes.now x) }
        ensures refused { IfErr result (λ e. (leading stats).Wrong no_place bytes.now e) }
    {
        let b = leading_octets(bytes, 40)?;
        Ok(TcStats {
            bytes: u64::from_le_bytes(octets_at(b, 0)),
            packets: u32::from_le_bytes(octets_at(b, 8)),
            drops: u32::from_le_bytes(octets_at(b, 12)),
            overlimits: u32::from_le_bytes(octets_at(b, 16)),
            bps: u32::from_le_bytes(octets_at(b, 20)),
            pps: u32::from_le_bytes(octets_at(b, 24)),
            qlen: u32::from_le_bytes(octets_at(b, 28)),
            backlog: u32::from_le_bytes(octets_at(b, 32)),
        })
    }

    /// The 40 bytes of the layout.
    pub fn to_bytes(&self) -> [u8; 40]
        ensures { result ≡ stats.encode self.now }
    {
        let mut out = [0; 40];
        write_array(self.bytes.to_le_bytes(), &mut out);
        write_array(self.packets.to_le_bytes(), &mut out[8..]);
        write_array(self.drops.to_le_bytes(), &mut out[12..]);
        write_array(self.overlimits.to_le_bytes(), &mut out[16..]);
        write_array(self.bps.to_le_bytes(), &mut out[20..]);
        write_array(self.pps.to_le_bytes(), &mut out[24..]);
        write_array(self.qlen.to_le_bytes(), &mut out[28..]);
        write_array(self.backlog.to_le_bytes(), &mut out[32..]);
        out
    }
}

impl Emitable for TcStats {
    ghost bytes = { stats.encode };

    fn check(&self) -> Result<usize, EmitError> {
        Ok(40)
    }

    fn emit(&self, out: &mut [u8]) {
        write_array(self.to_bytes(), out);
    }
}
