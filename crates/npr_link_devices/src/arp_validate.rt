//! On which ports answers of ARP are looked at: `BOND_ARP_VALIDATE_*` and `BOND_ARP_FILTER*` of the kernel's `net/bonding.h`.

ghost use Rattle.std.specs.Prelude.{◌≡◌, Some};
ghost use Rattle.npr_link_devices.specs.ArpValidate.{arp_validations, arp_validation_text};

use std::fmt;

/// On which ports answers of ARP are looked at: `BOND_ARP_VALIDATE_*` and `BOND_ARP_FILTER*` of the kernel's `net/bonding.h`. It is written as 4 bytes, little endian.
#[derive(Clone, Copy, Debug, Default, PartialEq, Eq)]
pub enum BondArpValidate {
    /// On none.
    #[default]
    None,
    /// On the active one.
    Active,
    /// On the others.
    Backup,
    /// On each.
    All,
    /// On none; other packets than those of ARP do not count.
    Filter,
    /// On the active one; others do not count.
    FilterActive,
    /// On those that are not active; others do not count.
    FilterBackup,
    /// Any other number.
    Other(u32),
}

/// Their numbers and names.
macro_rules! numbers {
    ($body:ident ($($given:tt)*)) => {
        npr_base::$body!(($($given)*) BondArpValidate {
            0 None "none";
            1 Active "active";
            2 Backup "backup";
            3 All "all";
            4 Filter "filter";
            5 FilterActive "filter_active";
            6 FilterBackup "filter_backup";
        })
    };
}

impl From<u32> for BondArpValidate {
    ghost from_gives = { λ number value. value ≡ arp_validations.of number };

    fn from(number: u32) -> BondArpValidate {
        numbers!(variant_of_number(number))
    }
}

impl From<BondArpValidate> for u32 {
    ghost from_gives = { λ value number. number ≡ arp_validations.number value };

    fn from(value: BondArpValidate) -> u32 {
        numbers!(number_of_variant(value))
    }
}

/// The name, and of any other its number.
impl fmt::Display for BondArpValidate {
    ghost output = { λ value. Some (arp_validation_text value) };

    fn fmt<W: fmt::Write>(&self, f: &mut fmt::Formatter<W>) -> fmt::Result {
        numbers!(write_variant(self, f, "unknown-variant ({})"))
    }
}
