//! How much an action lets through: `struct tc_police` of `linux/pkt_cls.h`.

ghost use Rattle.std.specs.Prelude.{◌≡◌, IfOk, IfErr};
ghost use Rattle.{npr_base.specs.{Codec.{leading}, Refusal.{no_place}}, npr_tc_actions.specs.Police.{police}};

use crate::action_type::TcActionType;
use npr_base::{DecodeError, EmitError, Emitable, leading_octets, write_array};
use npr_tc_values::TcRateSpec;

/// How much an action lets through.
///
/// Layout (`struct tc_police` of `linux/pkt_cls.h`), 56 bytes: a number, a signed one and three of 4,
/// two rates of 12, and three numbers of 4, the first two of them signed, little endian.
#[derive(Clone, Copy, Debug, Default, PartialEq, Eq)]
pub struct TcPolice {
    /// Its index among the actions of its kind.
    pub index: u32,
    /// What becomes of a packet above the rate.
    pub action: TcActionType,
    /// Kernels do not look at it.
    pub limit: u32,
    /// How much may go at once, in ticks at the rate.
    pub burst: u32,
    /// The largest packet that goes, in bytes.
    pub mtu: u32,
    /// The rate.
    pub rate: TcRateSpec,
    /// The rate that is never passed; all 0 for none.
    pub peakrate: TcRateSpec,
    /// How many hold it.
    pub refcnt: i32,
    /// How many filters hold it.
    pub bindcnt: i32,
    /// What it can do; kernels do not look at it.
    pub capab: u32,
}

impl TcPolice {
    /// The values in the first 56 bytes; more are not looked at.
    ///
    /// # Errors
    /// `HeaderTooShort` below 56 bytes.
    pub fn parse(bytes: &[u8]) -> Result<Self, DecodeError>
        ensures ok { IfOk result (λ x. (leading police).Reads bytes.now x) }
        ensures refused { IfErr result (λ e. (leading police).Wrong no_place bytes.now e) }
    {
        let b = leading_octets(bytes, 56)?;
        Ok(TcPolice {
            index: u32::from_le_bytes([b[0], b[1], b[2], b[3]]),
            action: TcActionType::from(i32::from_le_bytes([b[4], b[5], b[6], b[7]])),
            limit: u32::from_le_bytes([b[8], b[9], b[10], b[11]]),
            burst: u32::from_le_bytes([b[12], b[13], b[14], b[15]]),
            mtu: u32::from_le_bytes([b[16], b[17], b[18], b[19]]),
            rate: TcRateSpec::of([
                b[20], b[21], b[22], b[23], b[24], b[25], b[26], b[27], b[28], b[29], b[30], b[31],
            ]),
            peakrate: TcRateSpec::of([
                b[32], b[33], b[34], b[35], b[36], b[37], b[38], b[39], b[40], b[41], b[42], b[43],
            ]),
            refcnt: i32::from_le_bytes([b[44], b[45], b[46], b[47]]),
            bindcnt: i32::from_le_bytes([b[48], b[49], b[50], b[51]]),
            capab: u32::from_le_bytes([b[52], b[53], b[54], b[55]]),
        })
    }

    /// The 56 bytes of the layout.
    pub fn to_bytes(&self) -> [u8; 56]
        ensures { result ≡ police.encode self.now }
    {
        let [a0, a1, a2, a3] = self.index.to_le_bytes();
        let [b0, b1, b2, b3] = i32::from(self.action).to_le_bytes();
        let [c0, c1, c2, c3] = self.limit.to_le_bytes();
        let [d0, d1, d2, d3] = self.burst.to_le_bytes();
        let [e0, e1, e2, e3] = self.mtu.to_le_bytes();
        let [f0, f1, f2, f3, f4, f5, f6, f7, f8, f9, f10, f11] = self.rate.to_bytes();
        let [g0, g1, g2, g3, g4, g5, g6, g7, g8, g9, g10, g11] = self.peakrate.to_bytes();
        let [h0, h1, h2, h3] = self.refcnt.to_le_bytes();
        let [i0, i1, i2, i3] = self.bindcnt.to_le_bytes();
        let [j0, j1, j2, j3] = self.capab.to_le_bytes();
        [
            a0, a1, a2, a3, b0, b1, b2, b3, c0, c1, c2, c3, d0, d1, d2, d3, e0, e1, e2, e3, f0, f1,
            f2, f3, f4, f5, f6, f7, f8, f9, f10, f11, g0, g1, g2, g3, g4, g5, g6, g7, g8, g9, g10,
            g11, h0, h1, h2, h3, i0, i1, i2, i3, j0, j1, j2, j3,
        ]
    }
}

impl Emitable for TcPolice {
    ghost bytes = { police.encode };

    fn check(&self) -> Result<usize, EmitError> {
        Ok(56)
    }

    fn emit(&self, out: &mut [u8]) {
        write_array(self.to_bytes(), out);
    }
}
