//! What a port of a bond is: `BOND_STATE_*` of `linux/if_bonding.h`.

ghost use Rattle.std.specs.Prelude.{◌≡◌};
ghost use Rattle.npr_link_devices.specs.BondPortState.{bond_port_states};

/// What a port of a bond is: `BOND_STATE_*` of `linux/if_bonding.h`. It is written as 1 byte.
#[derive(Clone, Copy, Debug, PartialEq, Eq)]
pub enum BondPortState {
    /// It is active.
    Active,
    /// It stands by.
    Backup,
    /// Any other number.
    Other(u8),
}

/// Their numbers.
macro_rules! numbers {
    ($body:ident ($($given:tt)*)) => {
        npr_base::$body!(($($given)*) BondPortState {
            0 Active;
            1 Backup;
        })
    };
}

impl From<u8> for BondPortState {
    ghost from_gives = { λ number value. value ≡ bond_port_states.of number };

    fn from(number: u8) -> BondPortState {
        numbers!(variant_of_number(number))
    }
}

impl From<BondPortState> for u8 {
    ghost from_gives = { λ value number. number ≡ bond_port_states.number value };

    fn from(value: BondPortState) -> u8 {
        numbers!(number_of_variant(value))
    }
}
