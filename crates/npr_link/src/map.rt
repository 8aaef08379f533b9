//! The resources of a device: `struct rtnl_link_ifmap` of `linux/if_link.h`.

ghost use Rattle.std.specs.Prelude.{◌≡◌, ◌<◌, IfOk, IfErr};
ghost use Rattle.{npr_base.specs.{Codec.{leading}, Refusal.{no_place}}, npr_link.specs.Map.{device_map}};

use npr_base::{DecodeError, EmitError, Emitable, leading_octets, write_array};

/// The resources of a device.
#[derive(Clone, Copy, Debug, Default, PartialEq, Eq)]
pub struct Map {
    /// Where its memory begins.
    pub memory_start: u64,
    /// Where its memory ends.
    pub memory_end: u64,
    /// Where its ports begin.
    pub base_address: u64,
    /// The interrupt.
    pub irq: u16,
    /// The channel of direct memory access.
    pub dma: u8,
    /// The port.
    pub port: u8,
}

/// A [`Map`] is its own layout: 32 bytes, three numbers of 8, one of 2 and two of 1, little endian,
/// and four of padding, which are not looked at where one is read, and written 0.
pub type MapBuffer = Map;

impl Map {
    /// The values in the first 32 bytes; more are not looked at.
    ///
    /// # Errors
    /// `HeaderTooShort` below 32 bytes.
    pub fn parse(bytes: &[u8]) -> Result<Self, DecodeError>
        ensures ok { IfOk result (λ x. (leading device_map).Reads bytes.now x) }
        ensures refused { IfErr result (λ e. (leading device_map).Wrong no_place bytes.now e) }
    {
        let b = leading_octets(bytes, 32)?;
        Ok(Map {
            memory_start: u64::from_le_bytes([b[0], b[1], b[2], b[3], b[4], b[5], b[6], b[7]]),
            memory_end: u64::from_le_bytes([b[8], b[9], b[10], b[11], b[12], b[13], b[14], b[15]]),
            base_address: u64::from_le_bytes([
                b[16], b[17], b[18], b[19], b[20], b[21], b[22], b[23],
            ]),
            irq: u16::from_le_bytes([b[24], b[25]]),
            dma: b[26],
            port: b[27],
        })
    }

    /// The 32 bytes of the layout.
    pub fn to_bytes(&self) -> [u8; 32]
        ensures { result ≡ device_map.encode self.now }
    {
        let [a0, a1, a2, a3, a4, a5, a6, a7] = self.memory_start.to_le_bytes();
        let [b0, b1, b2, b3, b4, b5, b6, b7] = self.memory_end.to_le_bytes();
        let [c0, c1, c2, c3, c4, c5, c6, c7] = self.base_address.to_le_bytes();
        let [d0, d1] = self.irq.to_le_bytes();
        [
            a0, a1, a2, a3, a4, a5, a6, a7, b0, b1, b2, b3, b4, b5, b6, b7, c0, c1, c2, c3, c4, c5,
            c6, c7, d0, d1, self.dma, self.port, 0, 0, 0, 0,
        ]
    }
}

impl Emitable for Map {
    ghost bytes = { device_map.encode };

    fn check(&self) -> Result<usize, EmitError> {
        Ok(32)
    }

    fn emit(&self, out: &mut [u8]) {
        write_array(self.to_bytes(), out);
    }
}
