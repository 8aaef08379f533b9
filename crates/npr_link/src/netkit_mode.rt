//! What packets of a netkit begin with: `enum netkit_mode` of `linux/if_link.h`.

ghost use Rattle.std.specs.Prelude.{◌≡◌};
ghost use Rattle.npr_link.specs.NetkitMode.{netkit_modes};

/// What packets of a netkit begin with: `enum netkit_mode` of `linux/if_link.h`. It is written as 4 bytes.
#[derive(Clone, Copy, Debug, PartialEq, Eq)]
pub enum NetkitMode {
    /// Packets have a header of Ethernet (`NETKIT_L2`).
    L2,
    /// They have none (`NETKIT_L3`).
    L3,
    /// Any other number.
    Other(u32),
}

/// Their numbers.
macro_rules! numbers {
    ($body:ident ($($given:tt)*)) => {
        npr_base::$body!(($($given)*) NetkitMode {
            0 L2;
            1 L3;
        })
    };
}

impl From<u32> for NetkitMode {
    ghost from_gives = { λ number value. value ≡ netkit_modes.of number };

    fn from(number: u32) -> NetkitMode {
        numbers!(variant_of_number(number))
    }
}

impl From<NetkitMode> for u32 {
    ghost from_gives = { λ value number. number ≡ netkit_modes.number value };

    fn from(value: NetkitMode) -> u32 {
        numbers!(number_of_variant(value))
    }
}
