//! What becomes of a packet on a route, and the numbers of that (`linux/rtnetlink.h`).

ghost use Rattle.std.specs.Prelude.{◌≡◌};
ghost use Rattle.npr_route_values.specs.RouteType.{route_types};

/// What becomes of a packet on a route: `RTN_*` of `linux/rtnetlink.h`.
#[derive(Clone, Copy, Debug, Default, PartialEq, Eq)]
pub enum RouteType {
    /// Unknown.
    #[default]
    Unspec,
    /// To a gateway, or straight to the destination.
    Unicast,
    /// Taken in by this host.
    Local,
    /// Taken in as a broadcast, and sent as one.
    Broadcast,
    /// Taken in as a broadcast, and sent to one host.
    Anycast,
    /// To many hosts.
    Multicast,
    /// Dropped.
    BlackHole,
    /// Refused as unreachable.
    Unreachable,
    /// Refused as prohibited.
    Prohibit,
    /// Not in this table.
    Throw,
    /// Translated.
    Nat,
    /// Left to another resolver.
    ExternalResolve,
    /// Any other number.
    Other(u8),
}

/// Their numbers.
macro_rules! numbers {
    ($body:ident ($($given:tt)*)) => {
        npr_base::$body!(($($given)*) RouteType {
            0 Unspec;
            1 Unicast;
            2 Local;
            3 Broadcast;
            4 Anycast;
            5 Multicast;
            6 BlackHole;
            7 Unreachable;
            8 Prohibit;
            9 Throw;
            10 Nat;
            11 ExternalResolve;
        })
    };
}

impl From<u8> for RouteType {
    ghost from_gives = { λ number kind. kind ≡ route_types.of number };

    fn from(number: u8) -> RouteType {
        numbers!(variant_of_number(number))
    }
}

impl From<RouteType> for u8 {
    ghost from_gives = { λ kind number. number ≡ route_types.number kind };

    fn from(kind: RouteType) -> u8 {
        numbers!(number_of_variant(kind))
    }
}
