//! Which addresses the ports of a bond have: `BOND_FOM_*` of the kernel's `net/bonding.h`.

ghost use Rattle.std.specs.Prelude.{◌≡◌, Some};
ghost use Rattle.npr_link_devices.specs.FailOverMac.{fail_over_macs, fail_over_mac_text};

use std::fmt;

/// Which addresses the ports of a bond have: `BOND_FOM_*` of the kernel's `net/bonding.h`. It is written as 1 byte.
#[derive(Clone, Copy, Debug, Default, PartialEq, Eq)]
pub enum BondFailOverMac {
    /// That of the bond.
    #[default]
    None,
    /// Their own; the bond has that of the active one.
    Active,
    /// Their own; the active one has that of the bond.
    Follow,
    /// Any other number.
    Other(u8),
}

/// Their numbers and names.
macro_rules! numbers {
    ($body:ident ($($given:tt)*)) => {
        npr_base::$body!(($($given)*) BondFailOverMac {
            0 None "none";
            1 Active "active";
            2 Follow "follow";
        })
    };
}

impl From<u8> for BondFailOverMac {
    ghost from_gives = { λ number value. value ≡ fail_over_macs.of number };

    fn from(number: u8) -> BondFailOverMac {
        numbers!(variant_of_number(number))
    }
}

impl From<BondFailOverMac> for u8 {
    ghost from_gives = { λ value number. number ≡ fail_over_macs.number value };

    fn from(value: BondFailOverMac) -> u8 {
        numbers!(number_of_variant(value))
    }
}

/// The name, and of any other its number.
impl fmt::Display for BondFailOverMac {
    ghost output = { λ value. Some (fail_over_mac_text value) };

    fn fmt<W: fmt::Write>(&self, f: &mut fmt::Formatter<W>) -> fmt::Result {
        numbers!(write_variant(self, f, "unknown-variant ({})"))
    }
}
