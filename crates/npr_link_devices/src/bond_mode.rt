//! By what rule a bond sends: `BOND_MODE_*` of `linux/if_bonding.h`.

ghost use Rattle.std.specs.Prelude.{◌≡◌, Some};
ghost use Rattle.npr_link_devices.specs.BondMode.{bond_modes, bond_mode_text};

use std::fmt;

/// By what rule a bond sends: `BOND_MODE_*` of `linux/if_bonding.h`. It is written as 1 byte.
#[derive(Clone, Copy, Debug, Default, PartialEq, Eq)]
pub enum BondMode {
    /// One port after the other.
    #[default]
    BalanceRr,
    /// By one port, and by another where it fails.
    ActiveBackup,
    /// By a hash of the packet.
    BalanceXor,
    /// By each port.
    Broadcast,
    /// By ports that were agreed on (IEEE 802.3ad).
    Ieee8023Ad,
    /// By load.
    BalanceTlb,
    /// By load, and so that it receives by load.
    BalanceAlb,
    /// Any other number.
    Other(u8),
}

/// Their numbers and names.
macro_rules! numbers {
    ($body:ident ($($given:tt)*)) => {
        npr_base::$body!(($($given)*) BondMode {
            0 BalanceRr "balance-rr";
            1 ActiveBackup "active-backup";
            2 BalanceXor "balance-xor";
            3 Broadcast "broadcast";
            4 Ieee8023Ad "802.3ad";
            5 BalanceTlb "balance-tlb";
            6 BalanceAlb "balance-alb";
        })
    };
}

impl From<u8> for BondMode {
    ghost from_gives = { λ number value. value ≡ bond_modes.of number };

    fn from(number: u8) -> BondMode {
        numbers!(variant_of_number(number))
    }
}

impl From<BondMode> for u8 {
    ghost from_gives = { λ value number. number ≡ bond_modes.number value };

    fn from(value: BondMode) -> u8 {
        numbers!(number_of_variant(value))
    }
}

/// The name, and of any other its number.
impl fmt::Display for BondMode {
    ghost output = { λ value. Some (bond_mode_text value) };

    fn fmt<W: fmt::Write>(&self, f: &mut fmt::Formatter<W>) -> fmt::Result {
        numbers!(write_variant(self, f, "unknown-variant ({})"))
    }
}
