//! What is done with the sources of a MACVLAN: `MACVLAN_MACADDR_*` of `linux/if_link.h`.

ghost use Rattle.std.specs.Prelude.{◌≡◌};
ghost use Rattle.npr_link_devices.specs.MacVlanAddressMode.{mac_vlan_address_modes};

/// What is done with the sources of a MACVLAN: `MACVLAN_MACADDR_*` of `linux/if_link.h`. It is written as 4 bytes, little endian.
#[derive(Clone, Copy, Debug, PartialEq, Eq)]
pub enum MacVlanMacAddressMode {
    /// One is added.
    Add,
    /// One is taken out.
    Del,
    /// All are taken out.
    Flush,
    /// Others are put in their place.
    Set,
    /// Any other number.
    Other(u32),
}

/// Their numbers.
macro_rules! numbers {
    ($body:ident ($($given:tt)*)) => {
        npr_base::$body!(($($given)*) MacVlanMacAddressMode {
            0 Add;
            1 Del;
            2 Flush;
            3 Set;
        })
    };
}

impl From<u32> for MacVlanMacAddressMode {
    ghost from_gives = { λ number value. value ≡ mac_vlan_address_modes.of number };

    fn from(number: u32) -> MacVlanMacAddressMode {
        numbers!(variant_of_number(number))
    }
}

impl From<MacVlanMacAddressMode> for u32 {
    ghost from_gives = { λ value number. number ≡ mac_vlan_address_modes.number value };

    fn from(value: MacVlanMacAddressMode) -> u32 {
        numbers!(number_of_variant(value))
    }
}

/// The same of a MACVTAP.
pub type MacVtapMacAddressMode = MacVlanMacAddressMode;
