//! The data of a ring of IEC 62439-3: `IFLA_HSR_*` of `linux/if_link.h`.

ghost use Rattle.std.specs.Prelude.{refl};
ghost use Rattle.{npr_base.specs.Family.{shaped}, npr_link_devices.specs.Hsr.{family}};

use crate::hsr_protocol::HsrProtocol;
use npr_base::{
    At, Attribute, DecodeError, DefaultNla, EmitError, Form, Looks, Nla, NlaBuffer, Place,
};
use std::alloc::{AllocError, Global};

/// The data of a ring of IEC 62439-3.
#[derive(Debug, Drop, PartialEq, Eq)]
pub enum InfoHsr {
    /// `IFLA_HSR_SLAVE1`: the index of its first port.
    Port1(u32),
    /// `IFLA_HSR_SLAVE2`: the index of its second.
    Port2(u32),
    /// `IFLA_HSR_MULTICAST_SPEC`: the last byte of the address to which supervision frames go.
    MulticastSpec(u8),
    /// `IFLA_HSR_SUPERVISION_ADDR`: that address.
    SupervisionAddr([u8; 6]),
    /// `IFLA_HSR_SEQ_NR`: the number of the next frame.
    SeqNr(u16),
    /// `IFLA_HSR_VERSION`: the version of the protocol.
    Version(u8),
    /// `IFLA_HSR_PROTOCOL`: how each frame is sent twice.
    Protocol(HsrProtocol),
    /// `IFLA_HSR_INTERLINK`: the index of the port to another ring.
    Interlink(u32),
    /// An attribute of another number, as it stands.
    Other(DefaultNla),
}

/// The rows of the table.
macro_rules! rows {
    ($body:ident ($($given:tt)*)) => {
        npr_base::$body!(($($given)*) InfoHsr of InfoHsr {
            1 Port1(le32);
            2 Port2(le32);
            3 MulticastSpec(byte);
            4 SupervisionAddr(octets 6);
            5 SeqNr(le16);
            6 Version(byte);
            7 Protocol(HsrProtocol as byte);
            8 Interlink(le32);
        })
    };
}

impl Nla for InfoHsr {
    ghost shape = { shaped family };

    fn kind(&self) -> u16 {
        rows!(kind_rows(self))
    }

    fn is_nested(&self) -> bool {
        false
    }

    fn check_value(&self) -> Result<usize, EmitError> {
        Ok(rows!(len_rows(self)))
    }

    fn write_value(&self, out: &mut [u8]) -> usize {
        rows!(write_rows(self, out))
    }
}

impl Attribute for InfoHsr {
    type Context = ();

    ghost family = { family };

    ghost shape_is = { λ a. refl };

    #[tactic(auto, unfolding(crate::specs::Hsr::attributes))]
    fn read_into<P: Place<Self>>(
        place: &mut P,
        alloc: Global,
        _context: (),
        item: &NlaBuffer<'_>,
        looks: &mut Looks,
    ) -> Result<(), DecodeError> {
        rows!(put_rows(place, alloc, item, looks))
    }

    #[tactic(auto, unfolding(crate::specs::Hsr::attributes))]
    fn form(_context: (), number: u16) -> (At, Form) {
        rows!(form_rows(number))
    }

    fn try_clone(&self, alloc: Global) -> Result<Self, AllocError> {
        rows!(clone_rows(self, alloc))
    }
}
