//! The operational state of a link (RFC 2863): `IF_OPER_*` of `linux/if.h`.

ghost use Rattle.std.specs.Prelude.{◌≡◌};
ghost use Rattle.npr_link.specs.State.{states};

/// The operational state of a link (RFC 2863): `IF_OPER_*` of `linux/if.h`. It is written as 1 byte.
#[derive(Clone, Copy, Debug, PartialEq, Eq)]
pub enum State {
    /// It is not known.
    Unknown,
    /// A part of it is not there.
    NotPresent,
    /// It is down.
    Down,
    /// The link under it is down.
    LowerLayerDown,
    /// It is being tested.
    Testing,
    /// It waits for something.
    Dormant,
    /// It is up.
    Up,
    /// Any other number.
    Other(u8),
}

/// Their numbers.
macro_rules! numbers {
    ($body:ident ($($given:tt)*)) => {
        npr_base::$body!(($($given)*) State {
            0 Unknown;
            1 NotPresent;
            2 Down;
            3 LowerLayerDown;
            4 Testing;
            5 Dormant;
            6 Up;
        })
    };
}

impl From<u8> for State {
    ghost from_gives = { λ number value. value ≡ states.of number };

    fn from(number: u8) -> State {
        numbers!(variant_of_number(number))
    }
}

impl From<State> for u8 {
    ghost from_gives = { λ value number. number ≡ states.number value };

    fn from(value: State) -> u8 {
        numbers!(number_of_variant(value))
    }
}
