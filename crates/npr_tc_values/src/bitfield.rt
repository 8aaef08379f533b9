//! Bits, and which of them are meant: `struct nla_bitfield32` of `linux/netlink.h`.

ghost use Rattle.std.specs.Prelude.{◌≡◌, ◌<◌, IfOk, IfErr};
ghost use Rattle.{npr_base.specs.{Codec.{exactly}, Refusal.{no_place}}, npr_tc_values.specs.Bitfield.{bitfield}};

use npr_base::{At, DecodeError, EmitError, Emitable, read_octets, write_array};

/// Bits, and which of them are meant.
///
/// Layout (`struct nla_bitfield32` of `linux/netlink.h`), 8 bytes: value and selector, 4 bytes each,
/// little endian.
#[derive(Clone, Copy, Debug, Default, PartialEq, Eq)]
pub struct TcBitfield {
    /// The bits that are set.
    pub value: u32,
    /// Those that are meant.
    pub selector: u32,
}

impl TcBitfield {
    /// The bits of 8 bytes.
    ///
    /// # Errors
    /// `ValueLength` at another length.
    pub fn parse(bytes: &[u8]) -> Result<Self, DecodeError>
        ensures ok { IfOk result (λ x. (exactly bitfield).Reads bytes.now x) }
        ensures refused { IfErr result (λ e. (exactly bitfield).Wrong no_place bytes.now e) }
    {
        Self::read(bytes, At::NO_PLACE)
    }

    /// The bits of 8 bytes at a place.
    ///
    /// # Errors
    /// `ValueLength` at another length.
    pub fn read(bytes: &[u8], at: At) -> Result<Self, DecodeError>
        ensures ok { IfOk result (λ x. (exactly bitfield).Reads bytes.now x) }
        ensures refused { IfErr result (λ e. (exactly bitfield).Wrong at bytes.now e) }
    {
        let [a, b, c, d, e, f, g, h] = read_octets::<8>(bytes, at)?;
        Ok(TcBitfield {
            value: u32::from_le_bytes([a, b, c, d]),
            selector: u32::from_le_bytes([e, f, g, h]),
        })
    }

    /// The 8 bytes of the layout.
    pub fn to_bytes(&self) -> [u8; 8]
        ensures { result ≡ bitfield.encode self.now }
    {
        let [a, b, c, d] = self.value.to_le_bytes();
        let [e, f, g, h] = self.selector.to_le_bytes();
        [a, b, c, d, e, f, g, h]
    }
}

impl Emitable for TcBitfield {
    ghost bytes = { bitfield.encode };

    fn check(&self) -> Result<usize, EmitError> {
        Ok(8)
    }

    fn emit(&self, out: &mut [u8]) {
        write_array(self.to_bytes(), out);
    }
}
