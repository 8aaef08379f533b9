//! What `tbf` lets through: `struct tc_tbf_qopt` of `linux/pkt_sched.h`.

ghost use Rattle.std.specs.Prelude.{◌≡◌, IfOk, IfErr};
ghost use Rattle.{npr_base.specs.{Codec.{leading}, Refusal.{no_place}}, npr_tc_qdiscs.specs.TbfQopt.{tbf_qopt}};

use npr_base::{DecodeError, EmitError, Emitable, leading_octets, write_array};
use npr_tc_values::TcRateSpec;

/// What `tbf` lets through.
///
/// Layout (`struct tc_tbf_qopt` of `linux/pkt_sched.h`), 36 bytes: two rates of 12, and three numbers
/// of 4, little endian.
#[derive(Clone, Copy, Debug, Default, PartialEq, Eq)]
pub struct TcTbfQopt {
    /// The rate.
    pub rate: TcRateSpec,
    /// The rate that is never passed; all 0 for none.
    pub peakrate: TcRateSpec,
    /// How many bytes may wait.
    pub limit: u32,
    /// How much may go at once, in ticks at the rate.
    pub buffer: u32,
    /// How much may go at once at the peak rate, in ticks at it.
    pub mtu: u32,
}

impl TcTbfQopt {
    /// The values in the first 36 bytes; more are not looked at.
    ///
    /// # Errors
    /// `HeaderTooShort` below 36 bytes.
    pub fn parse(bytes: &[u8]) -> Result<Self, DecodeError>
        ensures ok { IfOk result (λ x. (leading tbf_qopt).Reads bytes.now x) }
        ensures refused { IfErr result (λ e. (leading tbf_qopt).Wrong no_place bytes.now e) }
    {
        let b = leading_octets(bytes, 36)?;
        Ok(TcTbfQopt {
            rate: TcRateSpec::of([
                b[0], b[1], b[2], b[3], b[4], b[5], b[6], b[7], b[8], b[9], b[10], b[11],
            ]),
            peakrate: TcRateSpec::of([
                b[12], b[13], b[14], b[15], b[16], b[17], b[18], b[19], b[20], b[21], b[22], b[23],
            ]),
            limit: u32::from_le_bytes([b[24], b[25], b[26], b[27]]),
            buffer: u32::from_le_bytes([b[28], b[29], b[30], b[31]]),
            mtu: u32::from_le_bytes([b[32], b[33], b[34], b[35]]),
        })
    }

    /// The 36 bytes of the layout.
    pub fn to_bytes(&self) -> [u8; 36]
        ensures { result ≡ tbf_qopt.encode self.now }
    {
        let [a0, a1, a2, a3, a4, a5, a6, a7, a8, a9, a10, a11] = self.rate.to_bytes();
        let [b0, b1, b2, b3, b4, b5, b6, b7, b8, b9, b10, b11] = self.peakrate.to_bytes();
        let [c0, c1, c2, c3] = self.limit.to_le_bytes();
        let [d0, d1, d2, d3] = self.buffer.to_le_bytes();
        let [e0, e1, e2, e3] = self.mtu.to_le_bytes();
        [
            a0, a1, a2, a3, a4, a5, a6, a7, a8, a9, a10, a11, b0, b1, b2, b3, b4, b5, b6, b7, b8,
            b9, b10, b11, c0, c1, c2, c3, d0, d1, d2, d3, e0, e1, e2, e3,
        ]
    }
}

impl Emitable for TcTbfQopt {
    ghost bytes = { tbf_qopt.encode };

    fn check(&self) -> Result<usize, EmitError> {
        Ok(36)
    }

    fn emit(&self, out: &mut [u8]) {
        write_array(self.to_bytes(), out);
    }
}
