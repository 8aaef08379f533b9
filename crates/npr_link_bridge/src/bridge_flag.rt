//! Whom a request about a bridge is for: `BRIDGE_FLAGS_*` of `linux/if_bridge.h`.

ghost use Rattle.std.specs.Prelude.{◌≡◌};
ghost use Rattle.npr_link_bridge.specs.BridgeFlag.{bridge_flags};

/// Whom a request about a bridge is for: `BRIDGE_FLAGS_*` of `linux/if_bridge.h`. It is written as 2 bytes.
#[derive(Clone, Copy, Debug, PartialEq, Eq)]
pub enum BridgeFlag {
    /// The bridge that the link is a port of (`BRIDGE_FLAGS_MASTER`).
    Controller,
    /// The link itself (`BRIDGE_FLAGS_SELF`).
    LowerDev,
    /// Any other number.
    Other(u16),
}

/// Their numbers.
macro_rules! numbers {
    ($body:ident ($($given:tt)*)) => {
        npr_base::$body!(($($given)*) BridgeFlag {
            1 Controller;
            2 LowerDev;
        })
    };
}

impl From<u16> for BridgeFlag {
    ghost from_gives = { λ number value. value ≡ bridge_flags.of number };

    fn from(number: u16) -> BridgeFlag {
        numbers!(variant_of_number(number))
    }
}

impl From<BridgeFlag> for u16 {
    ghost from_gives = { λ value number. number ≡ bridge_flags.number value };

    fn from(value: BridgeFlag) -> u16 {
        numbers!(number_of_variant(value))
    }
}
