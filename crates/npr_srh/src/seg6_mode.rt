//! How a SEG6 header is put in, and its numbers (`linux/seg6_iptunnel.h`).

ghost use Rattle.std.specs.Prelude.{◌≡◌};
ghost use Rattle.npr_srh.specs.Seg6Mode.{seg6_modes};

/// How a SEG6 header is put in: `SEG6_IPTUN_MODE_*` of `linux/seg6_iptunnel.h`.
#[derive(Clone, Copy, Debug, Default, PartialEq, Eq)]
pub enum Seg6Mode {
    /// Into the packet itself.
    #[default]
    Inline,
    /// With a header of IP around the packet.
    Encap,
    /// With a header of IP around the frame of Ethernet.
    L2Encap,
    /// As `Encap`, without the first segment in the routing header.
    EncapRed,
    /// As `L2Encap`, without the first segment in the routing header.
    L2EncapRed,
    /// Any other number.
    Other(u32),
}

/// Their numbers.
macro_rules! numbers {
    ($body:ident ($($given:tt)*)) => {
        npr_base::$body!(($($given)*) Seg6Mode {
            0 Inline;
            1 Encap;
            2 L2Encap;
            3 EncapRed;
            4 L2EncapRed;
        })
    };
}

impl From<u32> for Seg6Mode {
    ghost from_gives = { λ number mode. mode ≡ seg6_modes.of number };

    fn from(number: u32) -> Seg6Mode {
        numbers!(variant_of_number(number))
    }
}

impl From<Seg6Mode> for u32 {
    ghost from_gives = { λ mode number. number ≡ seg6_modes.number mode };

    fn from(mode: Seg6Mode) -> u32 {
        numbers!(number_of_variant(mode))
    }
}
