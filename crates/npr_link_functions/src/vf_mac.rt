//! The address of a virtual function: `struct ifla_vf_mac` of `linux/if_link.h`.

ghost use Rattle.std.specs.Prelude.{◌≡◌, IfOk, IfErr};
ghost use Rattle.{npr_base.specs.{Codec.{leading}, Refusal.{no_place}}, npr_link_functions.specs.VfMac.{vf_mac}};

use npr_base::{DecodeError, EmitError, Emitable, leading_octets, write_array};

/// The address of a virtual function.
///
/// Layout (`struct ifla_vf_mac` of `linux/if_link.h`), 36 bytes: a number of 4, and 32 bytes, little endian.
#[derive(Clone, Copy, Debug, Default, PartialEq, Eq)]
pub struct VfInfoMac {
    /// The number of the virtual function.
    pub vf_id: u32,
    /// The address on the link, and zeros behind it.
    pub mac: [u8; 32],
}

/// Its own layout.
pub type VfInfoMacBuffer = VfInfoMac;

impl VfInfoMac {
    /// The values in the first 36 bytes; more are not looked at.
    ///
    /// # Errors
    /// `HeaderTooShort` below 36 bytes.
    pub fn parse(bytes: &[u8]) -> Result<Self, DecodeError>
        ensures ok { IfOk result (λ x. (leading vf_mac).Reads bytes.now x) }
        ensures refused { IfErr result (λ e. (leading vf_mac).Wrong no_place bytes.now e) }
    {
        let b = leading_octets(bytes, 36)?;
        Ok(VfInfoMac {
            vf_id: u32::from_le_bytes([b[0], b[1], b[2], b[3]]),
            mac: [
                b[4], b[5], b[6], b[7], b[8], b[9], b[10], b[11], b[12], b[13], b[14], b[15],
                b[16], b[17], b[18], b[19], b[20], b[21], b[22], b[23], b[24], b[25], b[26], b[27],
                b[28], b[29], b[30], b[31], b[32], b[33], b[34], b[35],
            ],
        })
    }

    /// The 36 bytes of the layout.
    pub fn to_bytes(&self) -> [u8; 36]
        ensures { result ≡ vf_mac.encode self.now }
    {
        let [a0, a1, a2, a3] = self.vf_id.to_le_bytes();
        let [
            b0,
            b1,
            b2,
            b3,
            b4,
            b5,
            b6,
            b7,
            b8,
            b9,
            b10,
            b11,
            b12,
            b13,
            b14,
            b15,
            b16,
            b17,
            b18,
            b19,
            b20,
            b21,
            b22,
            b23,
            b24,
            b25,
            b26,
            b27,
            b28,
            b29,
            b30,
            b31,
        ] = self.mac;
        [
            a0, a1, a2, a3, b0, b1, b2, b3, b4, b5, b6, b7, b8, b9, b10, b11, b12, b13, b14, b15,
            b16, b17, b18, b19, b20, b21, b22, b23, b24, b25, b26, b27, b28, b29, b30, b31,
        ]
    }
}

impl Emitable for VfInfoMac {
    ghost bytes = { vf_mac.encode };

    fn check(&self) -> Result<usize, EmitError> {
        Ok(36)
    }

    fn emit(&self, out: &mut [u8]) {
        write_array(self.to_bytes(), out);
    }
}
