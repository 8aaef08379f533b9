//! What mark of packets a u32 filter asks for: `struct tc_u32_mark` of `linux/pkt_cls.h`.

ghost use Rattle.std.specs.Prelude.{◌≡◌, IfOk, IfErr};
ghost use Rattle.{npr_base.specs.{Codec.{leading}, Refusal.{no_place}}, npr_tc_filters.specs.U32Mark.{u32_mark}};

use npr_base::{DecodeError, EmitError, Emitable, leading_octets, write_array};

/// The length of `struct tc_u32_mark` of `linux/pkt_cls.h`, in bytes.
const TC_U32_MARK_SIZE: usize = 12;

/// What mark of packets a u32 filter asks for.
///
/// Layout (`struct tc_u32_mark` of `linux/pkt_cls.h`), 12 bytes: three numbers of 4, little endian.
#[derive(Clone, Copy, Debug, Default, PartialEq, Eq)]
pub struct TcU32Mark {
    /// What the bits of the mask are.
    pub val: u32,
    /// The bits that are looked at.
    pub mask: u32,
    /// How many packets had such a mark.
    pub success: u32,
}

impl TcU32Mark {
    /// The values in the first 12 bytes; more are not looked at.
    ///
    /// # Errors
    /// `HeaderTooShort` below 12 bytes.
    pub fn parse(bytes: &[u8]) -> Result<Self, DecodeError>
        ensures ok { IfOk result (λ x. (leading u32_mark).Reads bytes.now x) }
        ensures refused { IfErr result (λ e. (leading u32_mark).Wrong no_place bytes.now e) }
    {
        let b = leading_octets(bytes, TC_U32_MARK_SIZE)?;
        Ok(TcU32Mark {
            val: u32::from_le_bytes([b[0], b[1], b[2], b[3]]),
            mask: u32::from_le_bytes([b[4], b[5], b[6], b[7]]),
            success: u32::from_le_bytes([b[8], b[9], b[10], b[11]]),
        })
    }

    /// The 12 bytes of the layout.
    pub fn to_bytes(&self) -> [u8; 12]
        ensures { result ≡ u32_mark.encode self.now }
    {
        let [a0, a1, a2, a3] = self.val.to_le_bytes();
        let [b0, b1, b2, b3] = self.mask.to_le_bytes();
        let [c0, c1, c2, c3] = self.success.to_le_bytes();
        [a0, a1, a2, a3, b0, b1, b2, b3, c0, c1, c2, c3]
    }
}

impl Emitable for TcU32Mark {
    ghost bytes = { u32_mark.encode };

    fn check(&self) -> Result<usize, EmitError> {
        Ok(TC_U32_MARK_SIZE)
    }

    fn emit(&self, out: &mut [u8]) {
        write_array(self.to_bytes(), out);
    }
}
