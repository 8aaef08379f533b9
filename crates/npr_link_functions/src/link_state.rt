//! What state the link of a virtual function has: `IFLA_VF_LINK_STATE_*` of `linux/if_link.h`.

ghost use Rattle.std.specs.Prelude.{◌≡◌};
ghost use Rattle.npr_link_functions.specs.LinkState.{vf_link_states};

/// What state the link of a virtual function has: `IFLA_VF_LINK_STATE_*` of `linux/if_link.h`. It is written as 4 bytes, little endian.
#[derive(Clone, Copy, Debug, Default, PartialEq, Eq)]
pub enum VfLinkState {
    /// That of the link itself.
    #[default]
    Auto,
    /// Always up.
    Enable,
    /// Always down.
    Disable,
    /// Any other number.
    Other(u32),
}

/// Their numbers.
macro_rules! numbers {
    ($body:ident ($($given:tt)*)) => {
        npr_base::$body!(($($given)*) VfLinkState {
            0 Auto;
            1 Enable;
            2 Disable;
        })
    };
}

impl From<u32> for VfLinkState {
    ghost from_gives = { λ number value. value ≡ vf_link_states.of number };

    fn from(number: u32) -> VfLinkState {
        numbers!(variant_of_number(number))
    }
}

impl From<VfLinkState> for u32 {
    ghost from_gives = { λ value number. number ≡ vf_link_states.number value };

    fn from(value: VfLinkState) -> u32 {
        numbers!(number_of_variant(value))
    }
}
