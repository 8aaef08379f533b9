//! Where a program is attached: `XDP_ATTACHED_*` of `linux/if_link.h`.

ghost use Rattle.std.specs.Prelude.{◌≡◌};
ghost use Rattle.npr_link.specs.XdpAttached.{attachments};

/// Where a program is attached: `XDP_ATTACHED_*` of `linux/if_link.h`. It is written as 1 byte.
#[derive(Clone, Copy, Debug, PartialEq, Eq)]
pub enum XdpAttached {
    /// Nowhere.
    None,
    /// At the driver.
    Driver,
    /// Behind the driver.
    SocketBuffer,
    /// In the device.
    Hardware,
    /// At several places.
    Multiple,
    /// Any other number.
    Other(u8),
}

/// Their numbers.
macro_rules! numbers {
    ($body:ident ($($given:tt)*)) => {
        npr_base::$body!(($($given)*) XdpAttached {
            0 None;
            1 Driver;
            2 SocketBuffer;
            3 Hardware;
            4 Multiple;
        })
    };
}

impl From<u8> for XdpAttached {
    ghost from_gives = { λ number value. value ≡ attachments.of number };

    fn from(number: u8) -> XdpAttached {
        numbers!(variant_of_number(number))
    }
}

impl From<XdpAttached> for u8 {
    ghost from_gives = { λ value number. number ≡ attachments.number value };

    fn from(value: XdpAttached) -> u8 {
        numbers!(number_of_variant(value))
    }
}
