//! What a link is up for: `IF_LINK_MODE_*` of `linux/if.h`.

ghost use Rattle.std.specs.Prelude.{◌≡◌, Some};
ghost use Rattle.npr_link.specs.LinkMode.{link_modes, link_mode_text};

use std::fmt;

/// What a link is up for: `IF_LINK_MODE_*` of `linux/if.h`. It is written as 1 byte.
#[derive(Clone, Copy, Debug, Default, PartialEq, Eq)]
pub enum LinkMode {
    /// A carrier makes it up.
    #[default]
    Default,
    /// A carrier makes it dormant.
    Dormant,
    /// A carrier leaves it testing.
    Testing,
    /// Any other number.
    Other(u8),
}

/// Their numbers and names.
macro_rules! numbers {
    ($body:ident ($($given:tt)*)) => {
        npr_base::$body!(($($given)*) LinkMode {
            0 Default "DEFAULT";
            1 Dormant "DORMANT";
            2 Testing "TESTING";
        })
    };
}

impl From<u8> for LinkMode {
    ghost from_gives = { λ number value. value ≡ link_modes.of number };

    fn from(number: u8) -> LinkMode {
        numbers!(variant_of_number(number))
    }
}

impl From<LinkMode> for u8 {
    ghost from_gives = { λ value number. number ≡ link_modes.number value };

    fn from(value: LinkMode) -> u8 {
        numbers!(number_of_variant(value))
    }
}

/// The name, and of any other its number.
impl fmt::Display for LinkMode {
    ghost output = { λ value. Some (link_mode_text value) };

    fn fmt<W: fmt::Write>(&self, f: &mut fmt::Formatter<W>) -> fmt::Result {
        numbers!(write_variant(self, f, "UNKNOWN:{}"))
    }
}
