//! What a link says of a port: `IFLA_PORT_*` of `linux/if_link.h`.

ghost use Rattle.std.specs.Prelude.{refl};
ghost use Rattle.{npr_base.specs.Family.{shaped}, npr_link_functions.specs.VfPort.{family}};

use npr_base::{
    At, Attribute, DecodeError, DefaultNla, EmitError, Form, Looks, Nla, NlaBuffer, Place,
};
use std::alloc::{AllocError, Global};

/// What a link says of a port.
#[derive(Debug, Drop, PartialEq, Eq)]
pub enum VfPort {
    /// `IFLA_PORT_VF`: the number of the virtual function.
    Vf(u32),
    /// `IFLA_PORT_PROFILE`: the name of the profile that it is to have.
    Profile(String),
    /// `IFLA_PORT_INSTANCE_UUID`: the identifier of who uses it, as it stands.
    InstanceUuid([u8; 16]),
    /// `IFLA_PORT_HOST_UUID`: the identifier of the host, as it stands.
    HostUuid([u8; 16]),
    /// `IFLA_PORT_REQUEST`: what is asked of the switch (`PORT_REQUEST_*`).
    Request(u8),
    /// `IFLA_PORT_RESPONSE`: what the switch answered (`PORT_VDP_RESPONSE_*` and `PORT_PROFILE_RESPONSE_*`).
    Response(u16),
    /// An attribute of another number, as it stands.
    Other(DefaultNla),
}

/// The rows of the table.
macro_rules! rows {
    ($body:ident ($($given:tt)*)) => {
        npr_base::$body!(($($given)*) VfPort of VfPort {
            1 Vf(le32);
            2 Profile(name);
            4 InstanceUuid(octets 16);
            5 HostUuid(octets 16);
            6 Request(byte);
            7 Response(le16);
        })
    };
}

impl Nla for VfPort {
    ghost shape = { shaped family };

    fn kind(&self) -> u16 {
        rows!(kind_rows(self))
    }

    fn is_nested(&self) -> bool {
        false
    }

    fn check_value(&self) -> Result<usize, EmitError> {
        Ok(rows!(len_rows(self)))
    }

    fn write_value(&self, out: &mut [u8]) -> usize {
        rows!(write_rows(self, out))
    }
}

impl Attribute for VfPort {
    type Context = ();

    ghost family = { family };

    ghost shape_is = { λ a. refl };

    #[tactic(auto, unfolding(crate::specs::VfPort::attributes))]
    fn read_into<P: Place<Self>>(
        place: &mut P,
        alloc: Global,
        _context: (),
        item: &NlaBuffer<'_>,
        looks: &mut Looks,
    ) -> Result<(), DecodeError> {
        rows!(put_rows(place, alloc, item, looks))
    }

    #[tactic(auto, unfolding(crate::specs::VfPort::attributes))]
    fn form(_context: (), number: u16) -> (At, Form) {
        rows!(form_rows(number))
    }

    fn try_clone(&self, alloc: Global) -> Result<Self, AllocError> {
        rows!(clone_rows(self, alloc))
    }
}
