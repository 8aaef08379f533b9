//! A globally unique identifier of a virtual function of InfiniBand: `struct ifla_vf_guid` of `linux/if_link.h`.

ghost use Rattle.std.specs.Prelude.{◌≡◌, IfOk, IfErr};
ghost use Rattle.{npr_base.specs.{Codec.{leading}, Refusal.{no_place}}, npr_link_functions.specs.VfGuid.{vf_guid}};

use npr_base::{DecodeError, EmitError, Emitable, leading_octets, write_array};

/// A globally unique identifier of a virtual function of InfiniBand.
///
/// Layout (`struct ifla_vf_guid` of `linux/if_link.h`), 16 bytes: a number of 4, four bytes of padding,
/// which are not looked at and written 0, and a number of 8, little endian.
#[derive(Clone, Copy, Debug, Default, PartialEq, Eq)]
pub struct VfInfoGuid {
    /// The number of the virtual function.
    pub vf_id: u32,
    /// The identifier.
    pub guid: u64,
}

/// Its own layout.
pub type VfInfoGuidBuffer = VfInfoGuid;

impl VfInfoGuid {
    /// The values in the first 16 bytes; more are not looked at.
    ///
    /// # Errors
    /// `HeaderTooShort` below 16 bytes.
    pub fn parse(bytes: &[u8]) -> Result<Self, DecodeError>
        ensures ok { IfOk result (λ x. (leading vf_guid).Reads bytes.now x) }
        ensures refused { IfErr result (λ e. (leading vf_guid).Wrong no_place bytes.now e) }
    {
        let b = leading_octets(bytes, 16)?;
        Ok(VfInfoGuid {
            vf_id: u32::from_le_bytes([b[0], b[1], b[2], b[3]]),
            guid: u64::from_le_bytes([b[8], b[9], b[10], b[11], b[12], b[13], b[14], b[15]]),
        })
    }

    /// The 16 bytes of the layout.
    pub fn to_bytes(&self) -> [u8; 16]
        ensures { result ≡ vf_guid.encode self.now }
    {
        let [a0, a1, a2, a3] = self.vf_id.to_le_bytes();
        let [b0, b1, b2, b3, b4, b5, b6, b7] = self.guid.to_le_bytes();
        [a0, a1, a2, a3, 0, 0, 0, 0, b0, b1, b2, b3, b4, b5, b6, b7]
    }
}

impl Emitable for VfInfoGuid {
    ghost bytes = { vf_guid.encode };

    fn check(&self) -> Result<usize, EmitError> {
        Ok(16)
    }

    fn emit(&self, out: &mut [u8]) {
        write_array(self.to_bytes(), out);
    }
}
