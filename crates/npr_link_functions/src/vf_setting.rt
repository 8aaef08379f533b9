//! A setting of a virtual function that is on or off: `struct ifla_vf_spoofchk`, `struct ifla_vf_rss_query_en` and `struct ifla_vf_trust` of `linux/if_link.h`.

ghost use Rattle.std.specs.Prelude.{◌≡◌, IfOk, IfErr};
ghost use Rattle.{npr_base.specs.{Codec.{leading}, Refusal.{no_place}}, npr_link_functions.specs.VfSetting.{vf_setting, is_on}};

use npr_base::{DecodeError, EmitError, Emitable, leading_octets, write_array};

/// A setting of a virtual function that is on or off.
///
/// Layout (`struct ifla_vf_spoofchk`, `struct ifla_vf_rss_query_en` and `struct ifla_vf_trust` of
/// `linux/if_link.h`), 8 bytes: two numbers of 4, little endian.
#[derive(Clone, Copy, Debug, Default, PartialEq, Eq)]
pub struct VfInfoSetting {
    /// The number of the virtual function.
    pub vf_id: u32,
    /// Whether it is on; all ones where the driver says nothing.
    pub setting: u32,
}

/// Whether the source addresses of a virtual function are checked.
pub type VfInfoSpoofCheck = VfInfoSetting;

/// Whether a virtual function may ask how packets are spread over queues.
pub type VfInfoRssQueryEn = VfInfoSetting;

/// Whether a virtual function is trusted.
pub type VfInfoTrust = VfInfoSetting;

/// Its own layout.
pub type VfInfoSpoofCheckBuffer = VfInfoSetting;

/// Its own layout.
pub type VfInfoRssQueryEnBuffer = VfInfoSetting;

/// Its own layout.
pub type VfInfoTrustBuffer = VfInfoSetting;

impl VfInfoSetting {
    /// The values in the first 8 bytes; more are not looked at.
    ///
    /// # Errors
    /// `HeaderTooShort` below 8 bytes.
    pub fn parse(bytes: &[u8]) -> Result<Self, DecodeError>
        ensures ok { IfOk result (λ x. (leading vf_setting).Reads bytes.now x) }
        ensures refused { IfErr result (λ e. (leading vf_setting).Wrong no_place bytes.now e) }
    {
        let b = leading_octets(bytes, 8)?;
        Ok(VfInfoSetting {
            vf_id: u32::from_le_bytes([b[0], b[1], b[2], b[3]]),
            setting: u32::from_le_bytes([b[4], b[5], b[6], b[7]]),
        })
    }

    /// Whether it is on. It is not where the driver says nothing.
    pub const fn enabled(&self) -> bool
        ensures { result ≡ is_on self.now }
    {
        self.setting != 0 && self.setting != u32::MAX
    }

    /// The 8 bytes of the layout.
    pub fn to_bytes(&self) -> [u8; 8]
        ensures { result ≡ vf_setting.encode self.now }
    {
        let [a0, a1, a2, a3] = self.vf_id.to_le_bytes();
        let [b0, b1, b2, b3] = self.setting.to_le_bytes();
        [a0, a1, a2, a3, b0, b1, b2, b3]
    }
}

impl Emitable for VfInfoSetting {
    ghost bytes = { vf_setting.encode };

    fn check(&self) -> Result<usize, EmitError> {
        Ok(8)
    }

    fn emit(&self, out: &mut [u8]) {
        write_array(self.to_bytes(), out);
    }
}
