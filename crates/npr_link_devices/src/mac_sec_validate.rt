//! What becomes of frames that are not valid: `MACSEC_VALIDATE_*` of `linux/if_link.h`.

ghost use Rattle.std.specs.Prelude.{◌≡◌};
ghost use Rattle.npr_link_devices.specs.MacSecValidate.{mac_sec_validations};

/// What becomes of frames that are not valid: `MACSEC_VALIDATE_*` of `linux/if_link.h`. It is written as 1 byte.
#[derive(Clone, Copy, Debug, PartialEq, Eq)]
pub enum MacSecValidate {
    /// They are not checked.
    Disabled,
    /// They are counted.
    Check,
    /// They are dropped.
    Strict,
    /// Any other number.
    Other(u8),
}

/// Their numbers.
macro_rules! numbers {
    ($body:ident ($($given:tt)*)) => {
        npr_base::$body!(($($given)*) MacSecValidate {
            0 Disabled;
            1 Check;
            2 Strict;
        })
    };
}

impl From<u8> for MacSecValidate {
    ghost from_gives = { λ number value. value ≡ mac_sec_validations.of number };

    fn from(number: u8) -> MacSecValidate {
        numbers!(variant_of_number(number))
    }
}

impl From<MacSecValidate> for u8 {
    ghost from_gives = { λ value number. number ≡ mac_sec_validations.number value };

    fn from(value: MacSecValidate) -> u8 {
        numbers!(number_of_variant(value))
    }
}
