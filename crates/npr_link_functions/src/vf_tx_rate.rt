//! How fast a virtual function may send: `struct ifla_vf_tx_rate` of `linux/if_link.h`.

ghost use Rattle.std.specs.Prelude.{◌≡◌, IfOk, IfErr};
ghost use Rattle.{npr_base.specs.{Codec.{leading}, Refusal.{no_place}}, npr_link_functions.specs.VfTxRate.{vf_tx_rate}};

use npr_base::{DecodeError, EmitError, Emitable, leading_octets, write_array};

/// How fast a virtual function may send.
///
/// Layout (`struct ifla_vf_tx_rate` of `linux/if_link.h`), 8 bytes: two numbers of 4, little endian.
#[derive(Clone, Copy, Debug, Default, PartialEq, Eq)]
pub struct VfInfoTxRate {
    /// The number of the virtual function.
    pub vf_id: u32,
    /// In megabits each second at most, 0 for any.
    pub rate: u32,
}

/// Its own layout.
pub type VfInfoTxRateBuffer = VfInfoTxRate;

impl VfInfoTxRate {
    /// The values in the first 8 bytes; more are not looked at.
    ///
    /// # Errors
    /// `HeaderTooShort` below 8 bytes.
    pub fn parse(bytes: &[u8]) -> Result<Self, DecodeError>
        ensures ok { IfOk result (λ x. (leading vf_tx_rate).Reads bytes.now x) }
        ensures refused { IfErr result (λ e. (leading vf_tx_rate).Wrong no_place bytes.now e) }
    {
        let b = leading_octets(bytes, 8)?;
        Ok(VfInfoTxRate {
            vf_id: u32::from_le_bytes([b[0], b[1], b[2], b[3]]),
            rate: u32::from_le_bytes([b[4], b[5], b[6], b[7]]),
        })
    }

    /// The 8 bytes of the layout.
    pub fn to_bytes(&self) -> [u8; 8]
        ensures { result ≡ vf_tx_rate.encode self.now }
    {
        let [a0, a1, a2, a3] = self.vf_id.to_le_bytes();
        let [b0, b1, b2, b3] = self.rate.to_le_bytes();
        [a0, a1, a2, a3, b0, b1, b2, b3]
    }
}

impl Emitable for VfInfoTxRate {
    ghost bytes = { vf_tx_rate.encode };

    fn check(&self) -> Result<usize, EmitError> {
        Ok(8)
    }

    fn emit(&self, out: &mut [u8]) {
        write_array(self.to_bytes(), out);
    }
}
