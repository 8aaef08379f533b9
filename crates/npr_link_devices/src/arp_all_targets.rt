//! How many targets of ARP have to answer: `BOND_ARP_TARGETS_*` of the kernel's `net/bonding.h`.

ghost use Rattle.std.specs.Prelude.{◌≡◌, Some};
ghost use Rattle.npr_link_devices.specs.ArpAllTargets.{arp_all_target_rules, arp_all_targets_text};

use std::fmt;

/// How many targets of ARP have to answer: `BOND_ARP_TARGETS_*` of the kernel's `net/bonding.h`. It is written as 4 bytes, little endian.
#[derive(Clone, Copy, Debug, Default, PartialEq, Eq)]
pub enum BondArpAllTargets {
    /// One of them.
    #[default]
    Any,
    /// Each.
    All,
    /// Any other number.
    Other(u32),
}

/// Their numbers and names.
macro_rules! numbers {
    ($body:ident ($($given:tt)*)) => {
        npr_base::$body!(($($given)*) BondArpAllTargets {
            0 Any "any";
            1 All "all";
        })
    };
}

impl From<u32> for BondArpAllTargets {
    ghost from_gives = { λ number value. value ≡ arp_all_target_rules.of number };

    fn from(number: u32) -> BondArpAllTargets {
        numbers!(variant_of_number(number))
    }
}

impl From<BondArpAllTargets> for u32 {
    ghost from_gives = { λ value number. number ≡ arp_all_target_rules.number value };

    fn from(value: BondArpAllTargets) -> u32 {
        numbers!(number_of_variant(value))
    }
}

/// The name, and of any other its number.
impl fmt::Display for BondArpAllTargets {
    ghost output = { λ value. Some (arp_all_targets_text value) };

    fn fmt<W: fmt::Write>(&self, f: &mut fmt::Formatter<W>) -> fmt::Result {
        numbers!(write_variant(self, f, "unknown-variant ({})"))
    }
}
