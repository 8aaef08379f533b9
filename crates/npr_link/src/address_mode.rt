//! How a link makes its address of IP version 6: `IN6_ADDR_GEN_MODE_*` of `linux/if_link.h`.

ghost use Rattle.std.specs.Prelude.{◌≡◌, Some};
ghost use Rattle.npr_link.specs.AddressMode.{address_modes, address_mode_text};

use std::fmt;

/// How a link makes its address of IP version 6: `IN6_ADDR_GEN_MODE_*` of `linux/if_link.h`. It is written as 1 byte.
#[derive(Clone, Copy, Debug, Default, PartialEq, Eq)]
pub enum In6AddrGenMode {
    /// From its address.
    #[default]
    Eui64,
    /// Not at all.
    None,
    /// From a secret (RFC 7217).
    StablePrivacy,
    /// From a secret that is drawn.
    Random,
    /// Any other number.
    Other(u8),
}

/// Their numbers and names.
macro_rules! numbers {
    ($body:ident ($($given:tt)*)) => {
        npr_base::$body!(($($given)*) In6AddrGenMode {
            0 Eui64 "eui64";
            1 None "none";
            2 StablePrivacy "stable_secret";
            3 Random "random";
        })
    };
}

impl From<u8> for In6AddrGenMode {
    ghost from_gives = { λ number value. value ≡ address_modes.of number };

    fn from(number: u8) -> In6AddrGenMode {
        numbers!(variant_of_number(number))
    }
}

impl From<In6AddrGenMode> for u8 {
    ghost from_gives = { λ value number. number ≡ address_modes.number value };

    fn from(value: In6AddrGenMode) -> u8 {
        numbers!(number_of_variant(value))
    }
}

/// The name, and of any other its number.
impl fmt::Display for In6AddrGenMode {
    ghost output = { λ value. Some (address_mode_text value) };

    fn fmt<W: fmt::Write>(&self, f: &mut fmt::Formatter<W>) -> fmt::Result {
        numbers!(write_variant(self, f, "other({})"))
    }
}
