//! In which slots of time packets go by `netem`: `struct tc_netem_slot` of `linux/pkt_sched.h`.

ghost use Rattle.std.specs.Prelude.{◌≡◌, IfOk, IfErr};
ghost use Rattle.{npr_base.specs.{Codec.{leading}, Refusal.{no_place}}, npr_tc_qdiscs.specs.NetemSlot.{netem_slot}};

use npr_base::{DecodeError, EmitError, Emitable, leading_octets, write_array};

/// In which slots of time packets go by `netem`.
///
/// Layout (`struct tc_netem_slot` of `linux/pkt_sched.h`), 40 bytes: signed numbers: two of 8, two of
/// 4, and two of 8, little endian.
#[derive(Clone, Copy, Debug, Default, PartialEq, Eq)]
pub struct TcNetemSlot {
    /// The least time to the next slot, in nanoseconds.
    pub min_delay: i64,
    /// The longest, in nanoseconds.
    pub max_delay: i64,
    /// How many packets a slot has; 0 for any number.
    pub max_packets: i32,
    /// How many bytes, likewise.
    pub max_bytes: i32,
    /// The mean time, where a table says how it varies, in nanoseconds.
    pub dist_delay: i64,
    /// By how much it varies then, in nanoseconds.
    pub dist_jitter: i64,
}

impl TcNetemSlot {
    /// The values in the first 40 bytes; more are not looked at.
    ///
    /// # Errors
    /// `HeaderTooShort` below 40 bytes.
    pub fn parse(bytes: &[u8]) -> Result<Self, DecodeError>
        ensures ok { IfOk result (λ x. (leading netem_slot).Reads bytes.now x) }
        ensures refused { IfErr result (λ e. (leading netem_slot).Wrong no_place bytes.now e) }
    {
        let b = leading_octets(bytes, 40)?;
        Ok(TcNetemSlot {
            min_delay: i64::from_le_bytes([b[0], b[1], b[2], b[3], b[4], b[5], b[6], b[7]]),
            max_delay: i64::from_le_bytes([b[8], b[9], b[10], b[11], b[12], b[13], b[14], b[15]]),
            max_packets: i32::from_le_bytes([b[16], b[17], b[18], b[19]]),
            max_bytes: i32::from_le_bytes([b[20], b[21], b[22], b[23]]),
            dist_delay: i64::from_le_bytes([
                b[24], b[25], b[26], b[27], b[28], b[29], b[30], b[31],
            ]),
            dist_jitter: i64::from_le_bytes([
                b[32], b[33], b[34], b[35], b[36], b[37], b[38], b[39],
            ]),
        })
    }

    /// The 40 bytes of the layout.
    pub fn to_bytes(&self) -> [u8; 40]
        ensures { result ≡ netem_slot.encode self.now }
    {
        let [a0, a1, a2, a3, a4, a5, a6, a7] = self.min_delay.to_le_bytes();
        let [b0, b1, b2, b3, b4, b5, b6, b7] = self.max_delay.to_le_bytes();
        let [c0, c1, c2, c3] = self.max_packets.to_le_bytes();
        let [d0, d1, d2, d3] = self.max_bytes.to_le_bytes();
        let [e0, e1, e2, e3, e4, e5, e6, e7] = self.dist_delay.to_le_bytes();
        let [f0, f1, f2, f3, f4, f5, f6, f7] = self.dist_jitter.to_le_bytes();
        [
            a0, a1, a2, a3, a4, a5, a6, a7, b0, b1, b2, b3, b4, b5, b6, b7, c0, c1, c2, c3, d0, d1,
            d2, d3, e0, e1, e2, e3, e4, e5, e6, e7, f0, f1, f2, f3, f4, f5, f6, f7,
        ]
    }
}

impl Emitable for TcNetemSlot {
    ghost bytes = { netem_slot.encode };

    fn check(&self) -> Result<usize, EmitError> {
        Ok(40)
    }

    fn emit(&self, out: &mut [u8]) {
        write_array(self.to_bytes(), out);
    }
}
