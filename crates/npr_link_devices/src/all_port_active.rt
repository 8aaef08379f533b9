//! What becomes of a packet at a port that is not active: the option `all_slaves_active` of the kernel's `net/bond_options.h`.

ghost use Rattle.std.specs.Prelude.{◌≡◌};
ghost use Rattle.npr_link_devices.specs.AllPortActive.{all_port_actives};

/// What becomes of a packet at a port that is not active: the option `all_slaves_active` of the kernel's `net/bond_options.h`. It is written as 1 byte.
#[derive(Clone, Copy, Debug, PartialEq, Eq)]
pub enum BondAllPortActive {
    /// It is dropped.
    Dropped,
    /// It is delivered.
    Delivered,
    /// Any other number.
    Other(u8),
}

/// Their numbers.
macro_rules! numbers {
    ($body:ident ($($given:tt)*)) => {
        npr_base::$body!(($($given)*) BondAllPortActive {
            0 Dropped;
            1 Delivered;
        })
    };
}

impl From<u8> for BondAllPortActive {
    ghost from_gives = { λ number value. value ≡ all_port_actives.of number };

    fn from(number: u8) -> BondAllPortActive {
        numbers!(variant_of_number(number))
    }
}

impl From<BondAllPortActive> for u8 {
    ghost from_gives = { λ value number. number ≡ all_port_actives.number value };

    fn from(value: BondAllPortActive) -> u8 {
        numbers!(number_of_variant(value))
    }
}
