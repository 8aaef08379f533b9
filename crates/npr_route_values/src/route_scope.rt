//! How far the destination of a route is, and the numbers of that (`linux/rtnetlink.h`).

ghost use Rattle.std.specs.Prelude.{◌≡◌, Some};
ghost use Rattle.npr_route_values.specs.RouteScope.{route_scopes, route_scope_text};

use std::fmt;

/// How far the destination of a route is: `RT_SCOPE_*` of `linux/rtnetlink.h`.
#[derive(Clone, Copy, Debug, Default, PartialEq, Eq)]
pub enum RouteScope {
    /// Everywhere.
    #[default]
    Universe,
    /// Inside the site.
    Site,
    /// On the link.
    Link,
    /// On the host.
    Host,
    /// Nowhere.
    NoWhere,
    /// Any other number.
    Other(u8),
}

/// Their numbers and names.
macro_rules! numbers {
    ($body:ident ($($given:tt)*)) => {
        npr_base::$body!(($($given)*) RouteScope {
            0 Universe "universe";
            200 Site "site";
            253 Link "link";
            254 Host "host";
            255 NoWhere "no_where";
        })
    };
}

impl From<u8> for RouteScope {
    ghost from_gives = { λ number scope. scope ≡ route_scopes.of number };

    fn from(number: u8) -> RouteScope {
        numbers!(variant_of_number(number))
    }
}

impl From<RouteScope> for u8 {
    ghost from_gives = { λ scope number. number ≡ route_scopes.number scope };

    fn from(scope: RouteScope) -> u8 {
        numbers!(number_of_variant(scope))
    }
}

/// The name, and of any other scope its number.
impl fmt::Display for RouteScope {
    ghost output = { λ scope. Some (route_scope_text scope) };

    fn fmt<W: fmt::Write>(&self, f: &mut fmt::Formatter<W>) -> fmt::Result {
        numbers!(write_variant(self, f, "other({})"))
    }
}
