//! What a TUN device carries: `IFF_TUN` and `IFF_TAP` of `linux/if_tun.h`.

ghost use Rattle.std.specs.Prelude.{◌≡◌};
ghost use Rattle.npr_link_devices.specs.TunType.{tun_types};

/// What a TUN device carries: `IFF_TUN` and `IFF_TAP` of `linux/if_tun.h`. It is written as 1 byte.
#[derive(Clone, Copy, Debug, PartialEq, Eq)]
pub enum TunType {
    /// Packets of IP.
    Tun,
    /// Frames of Ethernet.
    Tap,
    /// Any other number.
    Other(u8),
}

/// Their numbers.
macro_rules! numbers {
    ($body:ident ($($given:tt)*)) => {
        npr_base::$body!(($($given)*) TunType {
            1 Tun;
            2 Tap;
        })
    };
}

impl From<u8> for TunType {
    ghost from_gives = { λ number value. value ≡ tun_types.of number };

    fn from(number: u8) -> TunType {
        numbers!(variant_of_number(number))
    }
}

impl From<TunType> for u8 {
    ghost from_gives = { λ value number. number ≡ tun_types.number value };

    fn from(value: TunType) -> u8 {
        numbers!(number_of_variant(value))
    }
}
