//! What `netem` does to packets: `struct tc_netem_qopt` of `linux/pkt_sched.h`.

ghost use Rattle.std.specs.Prelude.{◌≡◌, IfOk, IfErr};
ghost use Rattle.{npr_base.specs.{Codec.{leading}, Refusal.{no_place}}, npr_tc_qdiscs.specs.NetemQopt.{netem_qopt}};

use npr_base::{DecodeError, EmitError, Emitable, leading_octets, octets_at, write_array};

/// What `netem` does to packets.
///
/// Layout (`struct tc_netem_qopt` of `linux/pkt_sched.h`), 24 bytes: six numbers of 4, little endian.
#[derive(Clone, Copy, Debug, Default, PartialEq, Eq)]
pub struct TcNetemQopt {
    /// By how much they are delayed, in ticks.
    pub latency: u32,
    /// How many may wait.
    pub limit: u32,
    /// How many are lost: the share of the greatest number.
    pub loss: u32,
    /// Each of so many is not delayed; 0 for none.
    pub gap: u32,
    /// How many are sent twice: the share of the greatest number.
    pub duplicate: u32,
    /// By how much the delay varies, in ticks.
    pub jitter: u32,
}

impl TcNetemQopt {
    /// The values in the first 24 bytes; more are not looked at.
    ///
    /// # Errors
    /// `HeaderTooShort` below 24 bytes.
    pub fn parse(bytes: &[u8]) -> Result<Self, DecodeError>
        ensures ok { IfOk result (λ x. (leading netem_qopt).Reads bytes.now x) }
        ensures refused { IfErr result (λ e. (leading netem_qopt).Wrong no_place bytes.now e) }
    {
        let b = leading_octets(bytes, 24)?;
        Ok(TcNetemQopt {
            latency: u32::from_le_bytes(octets_at(b, 0)),
            limit: u32::from_le_bytes(octets_at(b, 4)),
            loss: u32::from_le_bytes(octets_at(b, 8)),
            gap: u32::from_le_bytes(octets_at(b, 12)),
            duplicate: u32::from_le_bytes(octets_at(b, 16)),
            jitter: u32::from_le_bytes(octets_at(b, 20)),
        })
    }

    /// The 24 bytes of the layout.
    pub fn to_bytes(&self) -> [u8; 24]
        ensures { result ≡ netem_qopt.encode self.now }
    {
        let mut out = [0; 24];
        write_array(self.latency.to_le_bytes(), &mut out);
        write_array(self.limit.to_le_bytes(), &mut out[4..]);
        write_array(self.loss.to_le_bytes(), &mut out[8..]);
        write_array(self.gap.to_le_bytes(), &mut out[12..]);
        write_array(self.duplicate.to_le_bytes(), &mut out[16..]);
        write_array(self.jitter.to_le_bytes(), &mut out[20..]);
        out
    }
}

impl Emitable for TcNetemQopt {
    ghost bytes = { netem_qopt.encode };

    fn check(&self) -> Result<usize, EmitError> {
        Ok(24)
    }

    fn emit(&self, out: &mut [u8]) {
        write_array(self.to_bytes(), out);
    }
}
