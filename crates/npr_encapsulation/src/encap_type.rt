//! Types of encapsulation: `LWTUNNEL_ENCAP_*` of `linux/lwtunnel.h`.

ghost use Rattle.std.specs.Prelude.{◌≡◌, Some, None};
ghost use Rattle.npr_encapsulation.specs.EncapType.{encap_type, encap_types, encap_type_text};

use npr_base::{EmitError, Emitable, write_array};
use std::fmt;

/// The type of an encapsulation: `LWTUNNEL_ENCAP_*` of `linux/lwtunnel.h`. It is written as 2
/// bytes, little endian.
#[derive(Clone, Copy, Debug, Default, PartialEq, Eq)]
pub enum RouteLwEnCapType {
    /// No encapsulation.
    #[default]
    None,
    /// Labels of MPLS.
    Mpls,
    /// A tunnel over IP version 4.
    Ip,
    /// Identifier and locator.
    Ila,
    /// A tunnel over IP version 6.
    Ip6,
    /// A segment routing header.
    Seg6,
    /// A program.
    Bpf,
    /// An action on a segment.
    Seg6Local,
    /// A source routing header.
    Rpl,
    /// A trace of the path.
    Ioam6,
    /// An IPsec interface.
    Xfrm,
    /// Any other number.
    Other(u16),
}

/// Their numbers and names.
macro_rules! numbers {
    ($body:ident ($($given:tt)*)) => {
        npr_base::$body!(($($given)*) RouteLwEnCapType {
            0 None "none";
            1 Mpls "mpls";
            2 Ip "ip";
            3 Ila "ila";
            4 Ip6 "ip6";
            5 Seg6 "seg6";
            6 Bpf "bpf";
            7 Seg6Local "seg6local";
            8 Rpl "rpl";
            9 Ioam6 "ioam6";
            10 Xfrm "xfrm";
        })
    };
}

impl From<u16> for RouteLwEnCapType {
    ghost from_gives = { λ number kind. kind ≡ encap_types.of number };

    fn from(number: u16) -> RouteLwEnCapType {
        numbers!(variant_of_number(number))
    }
}

impl From<RouteLwEnCapType> for u16 {
    ghost from_gives = { λ kind number. number ≡ encap_types.number kind };

    fn from(kind: RouteLwEnCapType) -> u16 {
        numbers!(number_of_variant(kind))
    }
}

impl Emitable for RouteLwEnCapType {
    ghost bytes = { encap_type.encode };

    fn check(&self) -> Result<usize, EmitError> {
        Ok(2)
    }

    fn emit(&self, out: &mut [u8]) {
        write_array(u16::from(*self).to_le_bytes(), out);
    }
}

/// The name, and of any other type its number.
impl fmt::Display for RouteLwEnCapType {
    ghost output = { λ kind. Some (encap_type_text kind) };

    fn fmt<W: fmt::Write>(&self, f: &mut fmt::Formatter<W>) -> fmt::Result {
        numbers!(write_variant(self, f, "other({})"))
    }
}
