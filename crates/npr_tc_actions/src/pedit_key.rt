//! What an action changes in a packet: `struct tc_pedit_key` of `linux/tc_act/tc_pedit.h`.

ghost use Rattle.std.specs.Prelude.{◌≡◌, IfOk, IfErr};
ghost use Rattle.{npr_base.specs.{Codec.{leading}, Refusal.{no_place}}, npr_tc_actions.specs.PeditKey.{pedit_key, pedit_key_width}};

use npr_base::{Block, DecodeError, EmitError, Emitable, leading_octets, write_array};

/// What an action changes in a packet: of the four bytes at a place the bits of the mask stay, and then
/// those of the value are turned.
///
/// Layout (`struct tc_pedit_key` of `linux/tc_act/tc_pedit.h`), 24 bytes, six numbers of 4: the mask and
/// the value big endian, as they stand in packets, the four others little endian.
#[derive(Clone, Copy, Debug, Default, PartialEq, Eq)]
pub struct TcPeditKey {
    /// The bits that stay as they are.
    pub mask: u32,
    /// The bits that are turned then.
    pub val: u32,
    /// The place in the header, in bytes.
    pub off: u32,
    /// Where in the header a byte stands that moves the place, in bytes.
    pub at: u32,
    /// Which bits of it move the place; 0 for none.
    pub offmask: u32,
    /// By how many bits they are shifted to the right.
    pub shift: u32,
}

impl TcPeditKey {
    /// The key in the first 24 bytes; more are not looked at.
    ///
    /// # Errors
    /// `HeaderTooShort` below 24 bytes.
    pub fn parse(bytes: &[u8]) -> Result<Self, DecodeError>
        ensures ok { IfOk result (λ x. (leading pedit_key).Reads bytes.now x) }
        ensures refused { IfErr result (λ e. (leading pedit_key).Wrong no_place bytes.now e) }
    {
        Ok(Self::in_front(leading_octets(bytes, 24)?))
    }

    /// The 24 bytes of the layout.
    pub fn to_bytes(&self) -> [u8; 24]
        ensures { result ≡ pedit_key.encode self.now }
    {
        let [a0, a1, a2, a3] = self.mask.to_be_bytes();
        let [b0, b1, b2, b3] = self.val.to_be_bytes();
        let [c0, c1, c2, c3] = self.off.to_le_bytes();
        let [d0, d1, d2, d3] = self.at.to_le_bytes();
        let [e0, e1, e2, e3] = self.offmask.to_le_bytes();
        let [f0, f1, f2, f3] = self.shift.to_le_bytes();
        [
            a0, a1, a2, a3, b0, b1, b2, b3, c0, c1, c2, c3, d0, d1, d2, d3, e0, e1, e2, e3, f0, f1,
            f2, f3,
        ]
    }
}

impl Emitable for TcPeditKey {
    ghost bytes = { pedit_key.encode };

    fn check(&self) -> Result<usize, EmitError> {
        Ok(24)
    }

    fn emit(&self, out: &mut [u8]) {
        write_array(self.to_bytes(), out);
    }
}

impl Block for TcPeditKey {
    ghost width = { pedit_key_width };

    fn zero() -> Self {
        Self::default()
    }

    fn size() -> usize {
        24
    }

    fn in_front(b: &[u8]) -> Self {
        TcPeditKey {
            mask: u32::from_be_bytes([b[0], b[1], b[2], b[3]]),
            val: u32::from_be_bytes([b[4], b[5], b[6], b[7]]),
            off: u32::from_le_bytes([b[8], b[9], b[10], b[11]]),
            at: u32::from_le_bytes([b[12], b[13], b[14], b[15]]),
            offmask: u32::from_le_bytes([b[16], b[17], b[18], b[19]]),
            shift: u32::from_le_bytes([b[20], b[21], b[22], b[23]]),
        }
    }

    fn write(self, out: &mut [u8]) -> usize {
        write_array(self.to_bytes(), out)
    }
}
