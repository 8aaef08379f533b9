//! How the link of a port of a bond is: `BOND_LINK_*` of `linux/if_bonding.h`.

ghost use Rattle.std.specs.Prelude.{◌≡◌};
ghost use Rattle.npr_link_devices.specs.MiiStatus.{mii_statuses};

/// How the link of a port of a bond is: `BOND_LINK_*` of `linux/if_bonding.h`. It is written as 1 byte.
#[derive(Clone, Copy, Debug, PartialEq, Eq)]
pub enum MiiStatus {
    /// Up.
    Up,
    /// It went down just now.
    GoingDown,
    /// Down.
    Down,
    /// It comes up again.
    GoingBack,
    /// Any other number.
    Other(u8),
}

/// Their numbers.
macro_rules! numbers {
    ($body:ident ($($given:tt)*)) => {
        npr_base::$body!(($($given)*) MiiStatus {
            0 Up;
            1 GoingDown;
            2 Down;
            3 GoingBack;
        })
    };
}

impl From<u8> for MiiStatus {
    ghost from_gives = { λ number value. value ≡ mii_statuses.of number };

    fn from(number: u8) -> MiiStatus {
        numbers!(variant_of_number(number))
    }
}

impl From<MiiStatus> for u8 {
    ghost from_gives = { λ value number. number ≡ mii_statuses.number value };

    fn from(value: MiiStatus) -> u8 {
        numbers!(number_of_variant(value))
    }
}
