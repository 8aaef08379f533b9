//! The keys of a u32 filter: `struct tc_u32_key` of `linux/pkt_cls.h`.

ghost use Rattle.std.specs.Prelude.{◌≡◌, IfOk, IfErr};
ghost use Rattle.{npr_base.specs.{Codec.{leading}, Refusal.{no_place}}, npr_tc_filters.specs.U32Key.{u32_key, u32_key_width}};

use npr_base::{Block, DecodeError, EmitError, Emitable, leading_octets, write_array};

/// The length of `struct tc_u32_key` of `linux/pkt_cls.h`, in bytes.
const TC_U32_KEY_SIZE: usize = 16;

/// A key of a u32 filter: a packet matches where the four bytes at a place, and with the mask, are
/// the value.
///
/// Layout (`struct tc_u32_key` of `linux/pkt_cls.h`), 16 bytes, four numbers of 4: the mask and the
/// value big endian, as they stand in packets, the two others little endian.
#[derive(Clone, Copy, Debug, Default, PartialEq, Eq)]
pub struct TcU32Key {
    /// The bits that are looked at.
    pub mask: u32,
    /// What they are.
    pub val: u32,
    /// The place in the packet, in bytes.
    pub off: i32,
    /// Which bits of what the filter before it has found move the place.
    pub offmask: i32,
}

impl TcU32Key {
    /// The key in the first 16 bytes; more are not looked at.
    ///
    /// # Errors
    /// `HeaderTooShort` below 16 bytes.
    pub fn parse(bytes: &[u8]) -> Result<Self, DecodeError>
        ensures ok { IfOk result (λ x. (leading u32_key).Reads bytes.now x) }
        ensures refused { IfErr result (λ e. (leading u32_key).Wrong no_place bytes.now e) }
    {
        let octets = leading_octets(bytes, TC_U32_KEY_SIZE)?;
        Ok(Self::in_front(octets))
    }

    /// The 16 bytes of the layout.
    pub fn to_bytes(&self) -> [u8; 16]
        ensures { result ≡ u32_key.encode self.now }
    {
        let [a0, a1, a2, a3] = self.mask.to_be_bytes();
        let [b0, b1, b2, b3] = self.val.to_be_bytes();
        let [c0, c1, c2, c3] = self.off.to_le_bytes();
        let [d0, d1, d2, d3] = self.offmask.to_le_bytes();
        [
            a0, a1, a2, a3, b0, b1, b2, b3, c0, c1, c2, c3, d0, d1, d2, d3,
        ]
    }
}

impl Emitable for TcU32Key {
    ghost bytes = { u32_key.encode };

    fn check(&self) -> Result<usize, EmitError> {
        Ok(TC_U32_KEY_SIZE)
    }

    fn emit(&self, out: &mut [u8]) {
        write_array(self.to_bytes(), out);
    }
}

impl Block for TcU32Key {
    ghost width = { u32_key_width };

    fn zero() -> Self {
        Self::default()
    }

    fn size() -> usize {
        TC_U32_KEY_SIZE
    }

    fn in_front(b: &[u8]) -> Self {
        TcU32Key {
            mask: u32::from_be_bytes([b[0], b[1], b[2], b[3]]),
            val: u32::from_be_bytes([b[4], b[5], b[6], b[7]]),
            off: i32::from_le_bytes([b[8], b[9], b[10], b[11]]),
            offmask: i32::from_le_bytes([b[12], b[13], b[14], b[15]]),
        }
    }

    fn write(self, out: &mut [u8]) -> usize {
        write_array(self.to_bytes(), out)
    }
}
