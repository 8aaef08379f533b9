//! When the primary port becomes the active one again: `BOND_PRI_RESELECT_*` of the kernel's `net/bonding.h`.

ghost use Rattle.std.specs.Prelude.{◌≡◌, Some};
ghost use Rattle.npr_link_devices.specs.PrimaryReselect.{primary_reselects, primary_reselect_text};

use std::fmt;

/// When the primary port becomes the active one again: `BOND_PRI_RESELECT_*` of the kernel's `net/bonding.h`. It is written as 1 byte.
#[derive(Clone, Copy, Debug, Default, PartialEq, Eq)]
pub enum BondPrimaryReselect {
    /// As soon as it is up.
    #[default]
    Always,
    /// Where it is faster than the active one.
    Better,
    /// Where the active one fails.
    Failure,
    /// Any other number.
    Other(u8),
}

/// Their numbers and names.
macro_rules! numbers {
    ($body:ident ($($given:tt)*)) => {
        npr_base::$body!(($($given)*) BondPrimaryReselect {
            0 Always "always";
            1 Better "better";
            2 Failure "failure";
        })
    };
}

impl From<u8> for BondPrimaryReselect {
    ghost from_gives = { λ number value. value ≡ primary_reselects.of number };

    fn from(number: u8) -> BondPrimaryReselect {
        numbers!(variant_of_number(number))
    }
}

impl From<BondPrimaryReselect> for u8 {
    ghost from_gives = { λ value number. number ≡ primary_reselects.number value };

    fn from(value: BondPrimaryReselect) -> u8 {
        numbers!(number_of_variant(value))
    }
}

/// The name, and of any other its number.
impl fmt::Display for BondPrimaryReselect {
    ghost output = { λ value. Some (primary_reselect_text value) };

    fn fmt<W: fmt::Write>(&self, f: &mut fmt::Formatter<W>) -> fmt::Result {
        numbers!(write_variant(self, f, "unknown-variant ({})"))
    }
}
