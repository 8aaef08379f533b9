//! How many peers a tunnel of OpenVPN has: `OVPN_MODE_*` of `linux/if_link.h`.

ghost use Rattle.std.specs.Prelude.{◌≡◌};
ghost use Rattle.npr_link_tunnels.specs.OvpnMode.{ovpn_modes};

/// How many peers a tunnel of OpenVPN has: `OVPN_MODE_*` of `linux/if_link.h`. It is written as 1 byte.
#[derive(Clone, Copy, Debug, PartialEq, Eq)]
pub enum OvpnMode {
    /// One: `OVPN_MODE_P2P`.
    PointToPoint,
    /// Several: `OVPN_MODE_MP`.
    MultiPeer,
    /// Any other number.
    Other(u8),
}

/// Their numbers.
macro_rules! numbers {
    ($body:ident ($($given:tt)*)) => {
        npr_base::$body!(($($given)*) OvpnMode {
            0 PointToPoint;
            1 MultiPeer;
        })
    };
}

impl From<u8> for OvpnMode {
    ghost from_gives = { λ number value. value ≡ ovpn_modes.of number };

    fn from(number: u8) -> OvpnMode {
        numbers!(variant_of_number(number))
    }
}

impl From<OvpnMode> for u8 {
    ghost from_gives = { λ value number. number ≡ ovpn_modes.number value };

    fn from(value: OvpnMode) -> u8 {
        numbers!(number_of_variant(value))
    }
}
