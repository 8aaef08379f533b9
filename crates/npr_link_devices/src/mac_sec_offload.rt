//! What part of a device does MACsec: `MACSEC_OFFLOAD_*` of `linux/if_link.h`.

ghost use Rattle.std.specs.Prelude.{◌≡◌};
ghost use Rattle.npr_link_devices.specs.MacSecOffload.{mac_sec_offloads};

/// What part of a device does MACsec: `MACSEC_OFFLOAD_*` of `linux/if_link.h`. It is written as 1 byte.
#[derive(Clone, Copy, Debug, PartialEq, Eq)]
pub enum MacSecOffload {
    /// None: the kernel does.
    Off,
    /// The one at the wire.
    Phy,
    /// The one in front of it.
    Mac,
    /// Any other number.
    Other(u8),
}

/// Their numbers.
macro_rules! numbers {
    ($body:ident ($($given:tt)*)) => {
        npr_base::$body!(($($given)*) MacSecOffload {
            0 Off;
            1 Phy;
            2 Mac;
        })
    };
}

impl From<u8> for MacSecOffload {
    ghost from_gives = { λ number value. value ≡ mac_sec_offloads.of number };

    fn from(number: u8) -> MacSecOffload {
        numbers!(variant_of_number(number))
    }
}

impl From<MacSecOffload> for u8 {
    ghost from_gives = { λ value number. number ≡ mac_sec_offloads.number value };

    fn from(value: MacSecOffload) -> u8 {
        numbers!(number_of_variant(value))
    }
}
