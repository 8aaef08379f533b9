//! Whether multicast routers are behind a port or a bridge: `MDB_RTR_TYPE_*` of `linux/if_bridge.h`.

ghost use Rattle.std.specs.Prelude.{◌≡◌};
ghost use Rattle.npr_link_bridge.specs.MulticastRouter.{router_types};

/// Whether multicast routers are behind a port or a bridge: `MDB_RTR_TYPE_*` of `linux/if_bridge.h`. It is written as 1 byte.
#[derive(Clone, Copy, Debug, PartialEq, Eq)]
pub enum BridgeMulticastRouterType {
    /// Never.
    Disabled,
    /// While a router asks.
    TempQuery,
    /// Always.
    Permanent,
    /// For a time.
    Temp,
    /// Any other number.
    Other(u8),
}

impl BridgeMulticastRouterType {
    /// Another name of [`BridgeMulticastRouterType::TempQuery`].
    pub const Auto: BridgeMulticastRouterType = BridgeMulticastRouterType::TempQuery;
}

/// Their numbers.
macro_rules! numbers {
    ($body:ident ($($given:tt)*)) => {
        npr_base::$body!(($($given)*) BridgeMulticastRouterType {
            0 Disabled;
            1 TempQuery;
            2 Permanent;
            3 Temp;
        })
    };
}

impl From<u8> for BridgeMulticastRouterType {
    ghost from_gives = { λ number value. value ≡ router_types.of number };

    fn from(number: u8) -> BridgeMulticastRouterType {
        numbers!(variant_of_number(number))
    }
}

impl From<BridgeMulticastRouterType> for u8 {
    ghost from_gives = { λ value number. number ≡ router_types.number value };

    fn from(value: BridgeMulticastRouterType) -> u8 {
        numbers!(number_of_variant(value))
    }
}
