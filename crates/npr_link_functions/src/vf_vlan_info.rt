//! One of the VLANs of a virtual function: `struct ifla_vf_vlan_info` of `linux/if_link.h`.

ghost use Rattle.std.specs.Prelude.{◌≡◌, IfOk, IfErr};
ghost use Rattle.{npr_base.specs.{Codec.{leading}, Refusal.{no_place}}, npr_link_functions.specs.VfVlanInfo.{vf_vlan_info}};

use npr_base::{DecodeError, EmitError, Emitable, leading_octets, write_array};
use npr_link_bridge::VlanProtocol;

/// One of the VLANs of a virtual function.
///
/// Layout (`struct ifla_vf_vlan_info` of `linux/if_link.h`), 16 bytes: three numbers of 4, little endian,
/// one of 2, big endian, and two bytes of padding, which are not looked at and written 0.
#[derive(Clone, Copy, Debug, Default, PartialEq, Eq)]
pub struct VfVlanInfo {
    /// The number of the virtual function.
    pub vf_id: u32,
    /// The VLAN, 0 for none.
    pub vlan_id: u32,
    /// The priority of what it sends.
    pub qos: u32,
    /// The protocol of its tags.
    pub protocol: VlanProtocol,
}

/// Its own layout.
pub type VfVlanInfoBuffer = VfVlanInfo;

impl VfVlanInfo {
    /// The values in the first 16 bytes; more are not looked at.
    ///
    /// # Errors
    /// `HeaderTooShort` below 16 bytes.
    pub fn parse(bytes: &[u8]) -> Result<Self, DecodeError>
        ensures ok { IfOk result (λ x. (leading vf_vlan_info).Reads bytes.now x) }
        ensures refused { IfErr result (λ e. (leading vf_vlan_info).Wrong no_place bytes.now e) }
    {
        let b = leading_octets(bytes, 16)?;
        Ok(VfVlanInfo {
            vf_id: u32::from_le_bytes([b[0], b[1], b[2], b[3]]),
            vlan_id: u32::from_le_bytes([b[4], b[5], b[6], b[7]]),
            qos: u32::from_le_bytes([b[8], b[9], b[10], b[11]]),
            protocol: VlanProtocol::from(u16::from_be_bytes([b[12], b[13]])),
        })
    }

    /// The 16 bytes of the layout.
    pub fn to_bytes(&self) -> [u8; 16]
        ensures { result ≡ vf_vlan_info.encode self.now }
    {
        let [a0, a1, a2, a3] = self.vf_id.to_le_bytes();
        let [b0, b1, b2, b3] = self.vlan_id.to_le_bytes();
        let [c0, c1, c2, c3] = self.qos.to_le_bytes();
        let [d0, d1] = u16::from(self.protocol).to_be_bytes();
        [a0, a1, a2, a3, b0, b1, b2, b3, c0, c1, c2, c3, d0, d1, 0, 0]
    }
}

impl Emitable for VfVlanInfo {
    ghost bytes = { vf_vlan_info.encode };

    fn check(&self) -> Result<usize, EmitError> {
        Ok(16)
    }

    fn emit(&self, out: &mut [u8]) {
        write_array(self.to_bytes(), out);
    }
}
