//! The state of the link of a virtual function: `struct ifla_vf_link_state` of `linux/if_link.h`.

ghost use Rattle.std.specs.Prelude.{◌≡◌, IfOk, IfErr};
ghost use Rattle.{npr_base.specs.{Codec.{leading}, Refusal.{no_place}}, npr_link_functions.specs.VfLinkState.{vf_state}};

use crate::link_state::VfLinkState;
use npr_base::{DecodeError, EmitError, Emitable, leading_octets, write_array};

/// The state of the link of a virtual function.
///
/// Layout (`struct ifla_vf_link_state` of `linux/if_link.h`), 8 bytes: two numbers of 4, little endian.
#[derive(Clone, Copy, Debug, Default, PartialEq, Eq)]
pub struct VfInfoLinkState {
    /// The number of the virtual function.
    pub vf_id: u32,
    /// The state.
    pub state: VfLinkState,
}

/// Its own layout.
pub type VfInfoLinkStateBuffer = VfInfoLinkState;

impl VfInfoLinkState {
    /// The values in the first 8 bytes; more are not looked at.
    ///
    /// # Errors
    /// `HeaderTooShort` below 8 bytes.
    pub fn parse(bytes: &[u8]) -> Result<Self, DecodeError>
        ensures ok { IfOk result (λ x. (leading vf_state).Reads bytes.now x) }
        ensures refused { IfErr result (λ e. (leading vf_state).Wrong no_place bytes.now e) }
    {
        let b = leading_octets(bytes, 8)?;
        Ok(VfInfoLinkState {
            vf_id: u32::from_le_bytes([b[0], b[1], b[2], b[3]]),
            state: VfLinkState::from(u32::from_le_bytes([b[4], b[5], b[6], b[7]])),
        })
    }

    /// The 8 bytes of the layout.
    pub fn to_bytes(&self) -> [u8; 8]
        ensures { result ≡ vf_state.encode self.now }
    {
        let [a0, a1, a2, a3] = self.vf_id.to_le_bytes();
        let [b0, b1, b2, b3] = u32::from(self.state).to_le_bytes();
        [a0, a1, a2, a3, b0, b1, b2, b3]
    }
}

impl Emitable for VfInfoLinkState {
    ghost bytes = { vf_state.encode };

    fn check(&self) -> Result<usize, EmitError> {
        Ok(8)
    }

    fn emit(&self, out: &mut [u8]) {
        write_array(self.to_bytes(), out);
    }
}
