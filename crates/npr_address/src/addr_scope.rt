//! The scope of an address: `RT_SCOPE_*` of `linux/rtnetlink.h`.

ghost use Rattle.std.specs.Prelude.{◌≡◌, Some};
ghost use Rattle.npr_address.specs.AddressScope.{scopes, scope_text};

use std::fmt;

/// The scope of an address: `RT_SCOPE_*` of `linux/rtnetlink.h`.
#[derive(Clone, Copy, Debug, Default, PartialEq, Eq)]
pub enum AddressScope {
    /// Everywhere.
    #[default]
    Universe,
    /// Inside the site.
    Site,
    /// On the link.
    Link,
    /// On the host.
    Host,
    /// Nowhere.
    Nowhere,
    /// Any other number.
    Other(u8),
}

/// Their numbers and names.
macro_rules! numbers {
    ($body:ident ($($given:tt)*)) => {
        npr_base::$body!(($($given)*) AddressScope {
            0 Universe "universe";
            200 Site "site";
            253 Link "link";
            254 Host "host";
            255 Nowhere "nowhere";
        })
    };
}

impl From<u8> for AddressScope {
    ghost from_gives = { λ number scope. scope ≡ scopes.of number };

    fn from(number: u8) -> AddressScope {
        numbers!(variant_of_number(number))
    }
}

impl From<AddressScope> for u8 {
    ghost from_gives = { λ scope number. number ≡ scopes.number scope };

    fn from(scope: AddressScope) -> u8 {
        numbers!(number_of_variant(scope))
    }
}

/// The name, and of any other scope its number.
impl fmt::Display for AddressScope {
    ghost output = { λ scope. Some (scope_text scope) };

    fn fmt<W: fmt::Write>(&self, f: &mut fmt::Formatter<W>) -> fmt::Result {
        numbers!(write_variant(self, f, "{}"))
    }
}
