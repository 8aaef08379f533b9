//! The don't-fragment bit of what a tunnel of Geneve sends: `GENEVE_DF_*` of `linux/if_link.h`.

ghost use Rattle.std.specs.Prelude.{◌≡◌};
ghost use Rattle.npr_link_tunnels.specs.GeneveDf.{geneve_dfs};

/// The don't-fragment bit of what a tunnel of Geneve sends: `GENEVE_DF_*` of `linux/if_link.h`. It is written as 1 byte.
#[derive(Clone, Copy, Debug, PartialEq, Eq)]
pub enum GeneveDf {
    /// It is not set.
    Unset,
    /// It is set.
    Set,
    /// It is that of the packet inside.
    Inherit,
    /// Any other number.
    Other(u8),
}

/// Their numbers.
macro_rules! numbers {
    ($body:ident ($($given:tt)*)) => {
        npr_base::$body!(($($given)*) GeneveDf {
            0 Unset;
            1 Set;
            2 Inherit;
        })
    };
}

impl From<u8> for GeneveDf {
    ghost from_gives = { λ number value. value ≡ geneve_dfs.of number };

    fn from(number: u8) -> GeneveDf {
        numbers!(variant_of_number(number))
    }
}

impl From<GeneveDf> for u8 {
    ghost from_gives = { λ value number. number ≡ geneve_dfs.number value };

    fn from(value: GeneveDf) -> u8 {
        numbers!(number_of_variant(value))
    }
}
