//! The protocol of the tags of a VLAN: `ETH_P_8021Q` and `ETH_P_8021AD` of `linux/if_ether.h`.

ghost use Rattle.std.specs.Prelude.{◌≡◌, Some};
ghost use Rattle.npr_link_bridge.specs.VlanProtocol.{vlan_protocols, vlan_protocol_text};

use std::fmt;

/// The protocol of the tags of a VLAN: `ETH_P_8021Q` and `ETH_P_8021AD` of `linux/if_ether.h`. It is written as 2 bytes, big endian.
#[derive(Clone, Copy, Debug, Default, PartialEq, Eq)]
pub enum VlanProtocol {
    /// Tags of customers.
    #[default]
    Ieee8021Q,
    /// Tags of providers.
    Ieee8021Ad,
    /// Any other number.
    Other(u16),
}

/// Their numbers and names.
macro_rules! numbers {
    ($body:ident ($($given:tt)*)) => {
        npr_base::$body!(($($given)*) VlanProtocol {
            0x8100 Ieee8021Q "802.1q";
            0x88a8 Ieee8021Ad "802.1ad";
        })
    };
}

impl From<u16> for VlanProtocol {
    ghost from_gives = { λ number value. value ≡ vlan_protocols.of number };

    fn from(number: u16) -> VlanProtocol {
        numbers!(variant_of_number(number))
    }
}

impl From<VlanProtocol> for u16 {
    ghost from_gives = { λ value number. number ≡ vlan_protocols.number value };

    fn from(value: VlanProtocol) -> u16 {
        numbers!(number_of_variant(value))
    }
}

/// The number of a protocol.
pub fn vlan_protocol_number(protocol: VlanProtocol) -> u16
    ensures { result ≡ vlan_protocols.number protocol }
{
    u16::from(protocol)
}

/// The name, and of any other its number.
impl fmt::Display for VlanProtocol {
    ghost output = { λ value. Some (vlan_protocol_text value) };

    fn fmt<W: fmt::Write>(&self, f: &mut fmt::Formatter<W>) -> fmt::Result {
        numbers!(write_variant(self, f, "{}"))
    }
}
