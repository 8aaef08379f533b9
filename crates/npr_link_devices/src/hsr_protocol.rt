//! How a ring sends each frame twice: `HSR_PROTOCOL_*` of `linux/if_link.h`.

ghost use Rattle.std.specs.Prelude.{◌≡◌};
ghost use Rattle.npr_link_devices.specs.HsrProtocol.{hsr_protocols};

/// How a ring sends each frame twice: `HSR_PROTOCOL_*` of `linux/if_link.h`. It is written as 1 byte.
#[derive(Clone, Copy, Debug, PartialEq, Eq)]
pub enum HsrProtocol {
    /// By high-availability seamless redundancy.
    Hsr,
    /// By the parallel redundancy protocol.
    Prp,
    /// Any other number.
    Other(u8),
}

/// Their numbers.
macro_rules! numbers {
    ($body:ident ($($given:tt)*)) => {
        npr_base::$body!(($($given)*) HsrProtocol {
            0 Hsr;
            1 Prp;
        })
    };
}

impl From<u8> for HsrProtocol {
    ghost from_gives = { λ number value. value ≡ hsr_protocols.of number };

    fn from(number: u8) -> HsrProtocol {
        numbers!(variant_of_number(number))
    }
}

impl From<HsrProtocol> for u8 {
    ghost from_gives = { λ value number. number ≡ hsr_protocols.number value };

    fn from(value: HsrProtocol) -> u8 {
        numbers!(number_of_variant(value))
    }
}
