//! What made an address: `IFAPROT_*` of `linux/if_addr.h`.

ghost use Rattle.std.specs.Prelude.{◌≡◌, Some};
ghost use Rattle.npr_address.specs.AddressProtocol.{protocols, protocol_text};

use std::fmt;

/// What made an address: `IFAPROT_*` of `linux/if_addr.h`.
#[derive(Clone, Copy, Debug, PartialEq, Eq)]
pub enum AddressProtocol {
    /// The kernel, for the loopback interface.
    Loopback,
    /// The kernel, from a router advertisement.
    RouterAnnouncement,
    /// The kernel, for the link.
    LinkLocal,
    /// Any other number.
    Other(u8),
}

/// Their numbers and names.
macro_rules! numbers {
    ($body:ident ($($given:tt)*)) => {
        npr_base::$body!(($($given)*) AddressProtocol {
            1 Loopback "kernel_lo";
            2 RouterAnnouncement "kernel_ra";
            3 LinkLocal "kernel_ll";
        })
    };
}

impl From<u8> for AddressProtocol {
    ghost from_gives = { λ number protocol. protocol ≡ protocols.of number };

    fn from(number: u8) -> AddressProtocol {
        numbers!(variant_of_number(number))
    }
}

impl From<AddressProtocol> for u8 {
    ghost from_gives = { λ protocol number. number ≡ protocols.number protocol };

    fn from(protocol: AddressProtocol) -> u8 {
        numbers!(number_of_variant(protocol))
    }
}

/// The name, as `ip` prints it, and of any other protocol its number.
impl fmt::Display for AddressProtocol {
    ghost output = { λ protocol. Some (protocol_text protocol) };

    fn fmt<W: fmt::Write>(&self, f: &mut fmt::Formatter<W>) -> fmt::Result {
        numbers!(write_variant(self, f, "{}"))
    }
}
