//! What a class of `htb` may send: `struct tc_htb_opt` of `linux/pkt_sched.h`.

ghost use Rattle.std.specs.Prelude.{◌≡◌, IfOk, IfErr};
ghost use Rattle.{npr_base.specs.{Codec.{leading}, Refusal.{no_place}}, npr_tc_qdiscs.specs.HtbOpt.{htb_opt}};

use npr_base::{DecodeError, EmitError, Emitable, leading_octets, write_array};
use npr_tc_values::TcRateSpec;

/// What a class of `htb` may send.
///
/// Layout (`struct tc_htb_opt` of `linux/pkt_sched.h`), 44 bytes: two rates of 12, and five numbers of
/// 4, little endian.
#[derive(Clone, Copy, Debug, Default, PartialEq, Eq)]
pub struct TcHtbOpt {
    /// The rate that it has by itself.
    pub rate: TcRateSpec,
    /// The rate up to which it may borrow.
    pub ceil: TcRateSpec,
    /// How much it may send at once, in ticks at its rate.
    pub buffer: u32,
    /// How much it may send at once, in ticks at the rate up to which it borrows.
    pub cbuffer: u32,
    /// How many bytes it may send in a turn.
    pub quantum: u32,
    /// Its height over the leaves; kernels alone write it.
    pub level: u32,
    /// Whose turn is first: the lowest number.
    pub prio: u32,
}

impl TcHtbOpt {
    /// The values in the first 44 bytes; more are not looked at.
    ///
    /// # Errors
    /// `HeaderTooShort` below 44 bytes.
    pub fn parse(bytes: &[u8]) -> Result<Self, DecodeError>
        ensures ok { IfOk result (λ x. (leading htb_opt).Reads bytes.now x) }
        ensures refused { IfErr result (λ e. (leading htb_opt).Wrong no_place bytes.now e) }
    {
        let b = leading_octets(bytes, 44)?;
        Ok(TcHtbOpt {
            rate: TcRateSpec::of([
                b[0], b[1], b[2], b[3], b[4], b[5], b[6], b[7], b[8], b[9], b[10], b[11],
            ]),
            ceil: TcRateSpec::of([
                b[12], b[13], b[14], b[15], b[16], b[17], b[18], b[19], b[20], b[21], b[22], b[23],
            ]),
            buffer: u32::from_le_bytes([b[24], b[25], b[26], b[27]]),
            cbuffer: u32::from_le_bytes([b[28], b[29], b[30], b[31]]),
            quantum: u32::from_le_bytes([b[32], b[33], b[34], b[35]]),
            level: u32::from_le_bytes([b[36], b[37], b[38], b[39]]),
            prio: u32::from_le_bytes([b[40], b[41], b[42], b[43]]),
        })
    }

    /// The 44 bytes of the layout.
    pub fn to_bytes(&self) -> [u8; 44]
        ensures { result ≡ htb_opt.encode self.now }
    {
        let [a0, a1, a2, a3, a4, a5, a6, a7, a8, a9, a10, a11] = self.rate.to_bytes();
        let [b0, b1, b2, b3, b4, b5, b6, b7, b8, b9, b10, b11] = self.ceil.to_bytes();
        let [c0, c1, c2, c3] = self.buffer.to_le_bytes();
        let [d0, d1, d2, d3] = self.cbuffer.to_le_bytes();
        let [e0, e1, e2, e3] = self.quantum.to_le_bytes();
        let [f0, f1, f2, f3] = self.level.to_le_bytes();
        let [g0, g1, g2, g3] = self.prio.to_le_bytes();
        [
            a0, a1, a2, a3, a4, a5, a6, a7, a8, a9, a10, a11, b0, b1, b2, b3, b4, b5, b6, b7, b8,
            b9, b10, b11, c0, c1, c2, c3, d0, d1, d2, d3, e0, e1, e2, e3, f0, f1, f2, f3, g0, g1,
            g2, g3,
        ]
    }
}

impl Emitable for TcHtbOpt {
    ghost bytes = { htb_opt.encode };

    fn check(&self) -> Result<usize, EmitError> {
        Ok(44)
    }

    fn emit(&self, out: &mut [u8]) {
        write_array(self.to_bytes(), out);
    }
}
