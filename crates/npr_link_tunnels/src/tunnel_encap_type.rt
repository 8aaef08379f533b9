//! What stands between IP and a tunnel of IP: `TUNNEL_ENCAP_*` of `linux/if_tunnel.h`.

ghost use Rattle.std.specs.Prelude.{◌≡◌, Some};
ghost use Rattle.npr_link_tunnels.specs.TunnelEncapType.{tunnel_encap_types, tunnel_encap_type_text};

use std::fmt;

/// What stands between IP and a tunnel of IP: `TUNNEL_ENCAP_*` of `linux/if_tunnel.h`. It is written as 2 bytes, little endian.
#[derive(Clone, Copy, Debug, PartialEq, Eq)]
pub enum TunnelEncapType {
    /// Nothing.
    None,
    /// Foo over UDP: a header of UDP alone.
    Fou,
    /// Generic UDP encapsulation.
    Gue,
    /// A label of MPLS.
    Mpls,
    /// Any other number.
    Other(u16),
}

/// Their numbers and names.
macro_rules! numbers {
    ($body:ident ($($given:tt)*)) => {
        npr_base::$body!(($($given)*) TunnelEncapType {
            0 None "none";
            1 Fou "fou";
            2 Gue "gue";
            3 Mpls "mpls";
        })
    };
}

impl From<u16> for TunnelEncapType {
    ghost from_gives = { λ number value. value ≡ tunnel_encap_types.of number };

    fn from(number: u16) -> TunnelEncapType {
        numbers!(variant_of_number(number))
    }
}

impl From<TunnelEncapType> for u16 {
    ghost from_gives = { λ value number. number ≡ tunnel_encap_types.number value };

    fn from(value: TunnelEncapType) -> u16 {
        numbers!(number_of_variant(value))
    }
}

/// The name, and of any other its number.
impl fmt::Display for TunnelEncapType {
    ghost output = { λ value. Some (tunnel_encap_type_text value) };

    fn fmt<W: fmt::Write>(&self, f: &mut fmt::Formatter<W>) -> fmt::Result {
        numbers!(write_variant(self, f, "{}"))
    }
}
