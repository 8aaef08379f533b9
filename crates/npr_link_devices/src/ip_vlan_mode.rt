//! At which layer an IPVLAN hands packets on: `IPVLAN_MODE_*` of `linux/if_link.h`.

ghost use Rattle.std.specs.Prelude.{◌≡◌};
ghost use Rattle.npr_link_devices.specs.IpVlanMode.{ip_vlan_modes};

/// At which layer an IPVLAN hands packets on: `IPVLAN_MODE_*` of `linux/if_link.h`. It is written as 2 bytes, little endian.
#[derive(Clone, Copy, Debug, PartialEq, Eq)]
pub enum IpVlanMode {
    /// At layer 2.
    L2,
    /// At layer 3.
    L3,
    /// At layer 3, where netfilter sees them.
    L3S,
    /// Any other number.
    Other(u16),
}

/// Their numbers.
macro_rules! numbers {
    ($body:ident ($($given:tt)*)) => {
        npr_base::$body!(($($given)*) IpVlanMode {
            0 L2;
            1 L3;
            2 L3S;
        })
    };
}

impl From<u16> for IpVlanMode {
    ghost from_gives = { λ number value. value ≡ ip_vlan_modes.of number };

    fn from(number: u16) -> IpVlanMode {
        numbers!(variant_of_number(number))
    }
}

impl From<IpVlanMode> for u16 {
    ghost from_gives = { λ value number. number ≡ ip_vlan_modes.number value };

    fn from(value: IpVlanMode) -> u16 {
        numbers!(number_of_variant(value))
    }
}

/// The same of an IPVTAP.
pub type IpVtapMode = IpVlanMode;
