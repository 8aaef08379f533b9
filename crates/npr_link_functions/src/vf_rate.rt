//! Between which rates a virtual function sends: `struct ifla_vf_rate` of `linux/if_link.h`.

ghost use Rattle.std.specs.Prelude.{◌≡◌, IfOk, IfErr};
ghost use Rattle.{npr_base.specs.{Codec.{leading}, Refusal.{no_place}}, npr_link_functions.specs.VfRate.{vf_rate}};

use npr_base::{DecodeError, EmitError, Emitable, leading_octets, write_array};

/// Between which rates a virtual function sends.
///
/// Layout (`struct ifla_vf_rate` of `linux/if_link.h`), 12 bytes: three numbers of 4, little endian.
#[derive(Clone, Copy, Debug, Default, PartialEq, Eq)]
pub struct VfInfoRate {
    /// The number of the virtual function.
    pub vf_id: u32,
    /// In megabits each second at least.
    pub min_tx_rate: u32,
    /// At most, 0 for any.
    pub max_tx_rate: u32,
}

/// Its own layout.
pub type VfInfoRateBuffer = VfInfoRate;

impl VfInfoRate {
    /// The values in the first 12 bytes; more are not looked at.
    ///
    /// # Errors
    /// `HeaderTooShort` below 12 bytes.
    pub fn parse(bytes: &[u8]) -> Result<Self, DecodeError>
        ensures ok { IfOk result (λ x. (leading vf_rate).Reads bytes.now x) }
        ensures refused { IfErr result (λ e. (leading vf_rate).Wrong no_place bytes.now e) }
    {
        let b = leading_octets(bytes, 12)?;
        Ok(VfInfoRate {
            vf_id: u32::from_le_bytes([b[0], b[1], b[2], b[3]]),
            min_tx_rate: u32::from_le_bytes([b[4], b[5], b[6], b[7]]),
            max_tx_rate: u32::from_le_bytes([b[8], b[9], b[10], b[11]]),
        })
    }

    /// The 12 bytes of the layout.
    pub fn to_bytes(&self) -> [u8; 12]
        ensures { result ≡ vf_rate.encode self.now }
    {
        let [a0, a1, a2, a3] = self.vf_id.to_le_bytes();
        let [b0, b1, b2, b3] = self.min_tx_rate.to_le_bytes();
        let [c0, c1, c2, c3] = self.max_tx_rate.to_le_bytes();
        [a0, a1, a2, a3, b0, b1, b2, b3, c0, c1, c2, c3]
    }
}

impl Emitable for VfInfoRate {
    ghost bytes = { vf_rate.encode };

    fn check(&self) -> Result<usize, EmitError> {
        Ok(12)
    }

    fn emit(&self, out: &mut [u8]) {
        write_array(self.to_bytes(), out);
    }
}
