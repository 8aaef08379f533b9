//! Whom a MACVLAN talks to: `MACVLAN_MODE_*` of `linux/if_link.h`.

ghost use Rattle.std.specs.Prelude.{◌≡◌};
ghost use Rattle.npr_link_devices.specs.MacVlanMode.{mac_vlan_modes};

/// Whom a MACVLAN talks to: `MACVLAN_MODE_*` of `linux/if_link.h`. It is written as 4 bytes, little endian.
#[derive(Clone, Copy, Debug, PartialEq, Eq)]
pub enum MacVlanMode {
    /// To no other on its link.
    Private,
    /// To others on its link, by a bridge outside.
    Vepa,
    /// To them at once.
    Bridge,
    /// It has its link to itself.
    Passthrough,
    /// It gets the packets of sources in a list.
    Source,
    /// Any other number.
    Other(u32),
}

/// Their numbers.
macro_rules! numbers {
    ($body:ident ($($given:tt)*)) => {
        npr_base::$body!(($($given)*) MacVlanMode {
            1 Private;
            2 Vepa;
            4 Bridge;
            8 Passthrough;
            16 Source;
        })
    };
}

impl From<u32> for MacVlanMode {
    ghost from_gives = { λ number value. value ≡ mac_vlan_modes.of number };

    fn from(number: u32) -> MacVlanMode {
        numbers!(variant_of_number(number))
    }
}

impl From<MacVlanMode> for u32 {
    ghost from_gives = { λ value number. number ≡ mac_vlan_modes.number value };

    fn from(value: MacVlanMode) -> u32 {
        numbers!(number_of_variant(value))
    }
}

/// The same of a MACVTAP.
pub type MacVtapMode = MacVlanMode;
