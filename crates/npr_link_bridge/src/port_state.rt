//! The state of a port of a bridge (IEEE 802.1D): `BR_STATE_*` of `linux/if_bridge.h`.

ghost use Rattle.std.specs.Prelude.{◌≡◌};
ghost use Rattle.npr_link_bridge.specs.PortState.{port_states};

/// The state of a port of a bridge (IEEE 802.1D): `BR_STATE_*` of `linux/if_bridge.h`. It is written as 1 byte.
#[derive(Clone, Copy, Debug, PartialEq, Eq)]
pub enum BridgePortState {
    /// It takes no part.
    Disabled,
    /// It listens to other bridges.
    Listening,
    /// It learns addresses.
    Learning,
    /// It forwards.
    Forwarding,
    /// It forwards nothing.
    Blocking,
    /// Any other number.
    Other(u8),
}

/// Their numbers.
macro_rules! numbers {
    ($body:ident ($($given:tt)*)) => {
        npr_base::$body!(($($given)*) BridgePortState {
            0 Disabled;
            1 Listening;
            2 Learning;
            3 Forwarding;
            4 Blocking;
        })
    };
}

impl From<u8> for BridgePortState {
    ghost from_gives = { λ number value. value ≡ port_states.of number };

    fn from(number: u8) -> BridgePortState {
        numbers!(variant_of_number(number))
    }
}

impl From<BridgePortState> for u8 {
    ghost from_gives = { λ value number. number ≡ port_states.number value };

    fn from(value: BridgePortState) -> u8 {
        numbers!(number_of_variant(value))
    }
}
