//! A VLAN of a port: `struct bridge_vlan_info` of `linux/if_bridge.h`.

ghost use Rattle.std.specs.Prelude.{◌≡◌, IfOk, IfErr};
ghost use Rattle.{npr_base.specs.{Codec.{exactly}, Refusal.{no_place}}, npr_link_bridge.specs.VlanInfo.{vlan_info}};

use crate::vlan_info_flags::BridgeVlanInfoFlags;
use bitflags::Flags;
use npr_base::{At, DecodeError, EmitError, Emitable, read_octets, write_array};

/// A VLAN of a port.
///
/// Layout (`struct bridge_vlan_info` of `linux/if_bridge.h`), 4 bytes: flags and id, 2 bytes each,
/// little endian.
#[derive(Clone, Copy, Debug, Default, PartialEq, Eq)]
pub struct BridgeVlanInfo {
    /// What is said of it.
    pub flags: BridgeVlanInfoFlags,
    /// Its id.
    pub vid: u16,
}

impl BridgeVlanInfo {
    /// The VLAN of 4 bytes.
    ///
    /// # Errors
    /// `ValueLength` at another length.
    pub fn parse(bytes: &[u8]) -> Result<Self, DecodeError>
        ensures ok { IfOk result (λ x. (exactly vlan_info).Reads bytes.now x) }
        ensures refused { IfErr result (λ e. (exactly vlan_info).Wrong no_place bytes.now e) }
    {
        Self::read(bytes, At::NO_PLACE)
    }

    /// The VLAN of 4 bytes at a place.
    pub(crate) fn read(bytes: &[u8], at: At) -> Result<Self, DecodeError>
        ensures ok { IfOk result (λ x. (exactly vlan_info).Reads bytes.now x) }
        ensures refused { IfErr result (λ e. (exactly vlan_info).Wrong at bytes.now e) }
    {
        let [a, b, c, d] = read_octets::<4>(bytes, at)?;
        Ok(BridgeVlanInfo {
            flags: BridgeVlanInfoFlags::from_bits_retain(u16::from_le_bytes([a, b])),
            vid: u16::from_le_bytes([c, d]),
        })
    }

    /// The 4 bytes of the layout.
    pub fn to_bytes(&self) -> [u8; 4]
        ensures { result ≡ vlan_info.encode self.now }
    {
        let [a, b] = self.flags.bits().to_le_bytes();
        let [c, d] = self.vid.to_le_bytes();
        [a, b, c, d]
    }
}

impl Emitable for BridgeVlanInfo {
    ghost bytes = { vlan_info.encode };

    fn check(&self) -> Result<usize, EmitError> {
        Ok(4)
    }

    fn emit(&self, out: &mut [u8]) {
        write_array(self.to_bytes(), out);
    }
}
