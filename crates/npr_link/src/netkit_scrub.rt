//! What becomes of what a packet carries besides its bytes: `enum netkit_scrub` of `linux/if_link.h`.

ghost use Rattle.std.specs.Prelude.{◌≡◌};
ghost use Rattle.npr_link.specs.NetkitScrub.{netkit_scrubs};

/// What becomes of what a packet carries besides its bytes: `enum netkit_scrub` of `linux/if_link.h`. It is written as 4 bytes.
#[derive(Clone, Copy, Debug, PartialEq, Eq)]
pub enum NetkitScrub {
    /// It stays (`NETKIT_SCRUB_NONE`).
    None,
    /// It is taken off (`NETKIT_SCRUB_DEFAULT`).
    Default,
    /// Any other number.
    Other(u32),
}

/// Their numbers.
macro_rules! numbers {
    ($body:ident ($($given:tt)*)) => {
        npr_base::$body!(($($given)*) NetkitScrub {
            0 None;
            1 Default;
        })
    };
}

impl From<u32> for NetkitScrub {
    ghost from_gives = { λ number value. value ≡ netkit_scrubs.of number };

    fn from(number: u32) -> NetkitScrub {
        numbers!(variant_of_number(number))
    }
}

impl From<NetkitScrub> for u32 {
    ghost from_gives = { λ value number. number ≡ netkit_scrubs.number value };

    fn from(value: NetkitScrub) -> u32 {
        numbers!(number_of_variant(value))
    }
}
