//! How IP goes over InfiniBand: `IPOIB_MODE_*` of `linux/if_link.h`.

ghost use Rattle.std.specs.Prelude.{◌≡◌};
ghost use Rattle.npr_link_devices.specs.IpoibMode.{ipoib_modes};

/// How IP goes over InfiniBand: `IPOIB_MODE_*` of `linux/if_link.h`. It is written as 2 bytes, little endian.
#[derive(Clone, Copy, Debug, PartialEq, Eq)]
pub enum IpoibMode {
    /// By unreliable datagrams.
    Datagram,
    /// By connections.
    Connected,
    /// Any other number.
    Other(u16),
}

/// Their numbers.
macro_rules! numbers {
    ($body:ident ($($given:tt)*)) => {
        npr_base::$body!(($($given)*) IpoibMode {
            0 Datagram;
            1 Connected;
        })
    };
}

impl From<u16> for IpoibMode {
    ghost from_gives = { λ number value. value ≡ ipoib_modes.of number };

    fn from(number: u16) -> IpoibMode {
        numbers!(variant_of_number(number))
    }
}

impl From<IpoibMode> for u16 {
    ghost from_gives = { λ value number. number ≡ ipoib_modes.number value };

    fn from(value: IpoibMode) -> u16 {
        numbers!(number_of_variant(value))
    }
}
