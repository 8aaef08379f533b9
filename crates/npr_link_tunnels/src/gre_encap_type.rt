//! What stands between IP and a tunnel of GRE: `TUNNEL_ENCAP_*` of `linux/if_tunnel.h`.

ghost use Rattle.std.specs.Prelude.{◌≡◌, Some};
ghost use Rattle.npr_link_tunnels.specs.GreEncapType.{gre_encap_types, gre_encap_type_text};

use std::fmt;

/// What stands between IP and a tunnel of GRE: `TUNNEL_ENCAP_*` of `linux/if_tunnel.h`. It is written as 2 bytes, little endian.
#[derive(Clone, Copy, Debug, Default, PartialEq, Eq)]
pub enum GreEncapType {
    /// Nothing.
    #[default]
    None,
    /// Foo over UDP: a header of UDP alone.
    Fou,
    /// Generic UDP encapsulation.
    Gue,
    /// Any other number.
    Other(u16),
}

/// Their numbers and names.
macro_rules! numbers {
    ($body:ident ($($given:tt)*)) => {
        npr_base::$body!(($($given)*) GreEncapType {
            0 None "none";
            1 Fou "fou";
            2 Gue "gue";
        })
    };
}

impl From<u16> for GreEncapType {
    ghost from_gives = { λ number value. value ≡ gre_encap_types.of number };

    fn from(number: u16) -> GreEncapType {
        numbers!(variant_of_number(number))
    }
}

impl From<GreEncapType> for u16 {
    ghost from_gives = { λ value number. number ≡ gre_encap_types.number value };

    fn from(value: GreEncapType) -> u16 {
        numbers!(number_of_variant(value))
    }
}

/// The name, and of any other its number.
impl fmt::Display for GreEncapType {
    ghost output = { λ value. Some (gre_encap_type_text value) };

    fn fmt<W: fmt::Write>(&self, f: &mut fmt::Formatter<W>) -> fmt::Result {
        numbers!(write_variant(self, f, "other({})"))
    }
}
