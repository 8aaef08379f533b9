//! How a network card bridges: `BRIDGE_MODE_*` of `linux/if_bridge.h`.

ghost use Rattle.std.specs.Prelude.{◌≡◌};
ghost use Rattle.npr_link_bridge.specs.BridgeMode.{bridge_modes};

/// How a network card bridges: `BRIDGE_MODE_*` of `linux/if_bridge.h`. It is written as 2 bytes.
#[derive(Clone, Copy, Debug, PartialEq, Eq)]
pub enum BridgeMode {
    /// It bridges by itself (`BRIDGE_MODE_VEB`).
    Veb,
    /// It hands all to the switch beside it (`BRIDGE_MODE_VEPA`).
    Vepa,
    /// Any other number.
    Other(u16),
}

/// Their numbers.
macro_rules! numbers {
    ($body:ident ($($given:tt)*)) => {
        npr_base::$body!(($($given)*) BridgeMode {
            0 Veb;
            1 Vepa;
        })
    };
}

impl From<u16> for BridgeMode {
    ghost from_gives = { λ number value. value ≡ bridge_modes.of number };

    fn from(number: u16) -> BridgeMode {
        numbers!(variant_of_number(number))
    }
}

impl From<BridgeMode> for u16 {
    ghost from_gives = { λ value number. number ≡ bridge_modes.number value };

    fn from(value: BridgeMode) -> u16 {
        numbers!(number_of_variant(value))
    }
}
