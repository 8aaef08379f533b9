//! How often the partner is asked to send LACPDUs: `AD_LACP_*` of the kernel's `net/bond_3ad.h`.

ghost use Rattle.std.specs.Prelude.{◌≡◌};
ghost use Rattle.npr_link_devices.specs.LacpRate.{lacp_rates};

/// How often the partner is asked to send LACPDUs: `AD_LACP_*` of the kernel's `net/bond_3ad.h`. It is written as 1 byte.
#[derive(Clone, Copy, Debug, PartialEq, Eq)]
pub enum BondLacpRate {
    /// Each 30 seconds.
    Slow,
    /// Each second.
    Fast,
    /// Any other number.
    Other(u8),
}

/// Their numbers.
macro_rules! numbers {
    ($body:ident ($($given:tt)*)) => {
        npr_base::$body!(($($given)*) BondLacpRate {
            0 Slow;
            1 Fast;
        })
    };
}

impl From<u8> for BondLacpRate {
    ghost from_gives = { λ number value. value ≡ lacp_rates.of number };

    fn from(number: u8) -> BondLacpRate {
        numbers!(variant_of_number(number))
    }
}

impl From<BondLacpRate> for u8 {
    ghost from_gives = { λ value number. number ≡ lacp_rates.number value };

    fn from(value: BondLacpRate) -> u8 {
        numbers!(number_of_variant(value))
    }
}
