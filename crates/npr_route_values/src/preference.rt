//! The preference of a router's route, and whether a TTL goes on through a label.

ghost use Rattle.std.specs.Prelude.{◌≡◌};
ghost use Rattle.npr_route_values.specs.{RoutePreference.{route_preferences}, TtlPropagation.{ttl_propagations}};

/// The preference of a router (RFC 4191, section 2.1):
/// `ICMPV6_ROUTER_PREF_*` of `linux/icmpv6.h`.
#[derive(Clone, Copy, Debug, Default, PartialEq, Eq)]
pub enum RoutePreference {
    /// The default.
    Medium,
    /// Above the default.
    High,
    /// Reserved: read as no preference.
    #[default]
    Invalid,
    /// Below the default.
    Low,
    /// Any other number.
    Other(u8),
}

impl From<u8> for RoutePreference {
    ghost from_gives = { λ number preference. preference ≡ route_preferences.of number };

    fn from(number: u8) -> RoutePreference {
        match number {
            0 => RoutePreference::Medium,
            1 => RoutePreference::High,
            2 => RoutePreference::Invalid,
            3 => RoutePreference::Low,
            _ => RoutePreference::Other(number),
        }
    }
}

impl From<RoutePreference> for u8 {
    ghost from_gives = { λ preference number. number ≡ route_preferences.number preference };

    fn from(preference: RoutePreference) -> u8 {
        match preference {
            RoutePreference::Medium => 0,
            RoutePreference::High => 1,
            RoutePreference::Invalid => 2,
            RoutePreference::Low => 3,
            RoutePreference::Other(number) => number,
        }
    }
}

/// Whether the TTL of a popped label goes on into the packet: the values of `RTA_TTL_PROPAGATE` of
/// `linux/rtnetlink.h`.
#[derive(Clone, Copy, Debug, PartialEq, Eq)]
pub enum RouteMplsTtlPropagation {
    /// The TTL of the packet stays as it was.
    Disabled,
    /// The TTL of the label goes on into the packet.
    Enabled,
    /// Any other number.
    Other(u8),
}

impl From<u8> for RouteMplsTtlPropagation {
    ghost from_gives = { λ number choice. choice ≡ ttl_propagations.of number };

    fn from(number: u8) -> RouteMplsTtlPropagation {
        match number {
            0 => RouteMplsTtlPropagation::Disabled,
            1 => RouteMplsTtlPropagation::Enabled,
            _ => RouteMplsTtlPropagation::Other(number),
        }
    }
}

impl From<RouteMplsTtlPropagation> for u8 {
    ghost from_gives = { λ choice number. number ≡ ttl_propagations.number choice };

    fn from(choice: RouteMplsTtlPropagation) -> u8 {
        match choice {
            RouteMplsTtlPropagation::Disabled => 0,
            RouteMplsTtlPropagation::Enabled => 1,
            RouteMplsTtlPropagation::Other(number) => number,
        }
    }
}
