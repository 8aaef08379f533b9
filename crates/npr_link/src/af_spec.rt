//! What an address family says of a link: `AF_*` of `linux/socket.h`.

ghost use Rattle.std.specs.Prelude.{refl};
ghost use Rattle.{npr_base.specs.Family.{shaped}, npr_link.specs.AfSpec.{family}};

use crate::af_spec_inet::AfSpecInet;
use crate::af_spec_inet6::AfSpecInet6;
use crate::af_spec_mctp::AfSpecMctp;
use npr_base::{
    At, Attribute, DecodeError, DefaultNla, EmitError, Form, Looks, Nla, NlaBuffer, Place,
};
use std::alloc::{AllocError, Global};

/// What an address family says of a link.
#[derive(Debug, Drop, PartialEq, Eq)]
pub enum AfSpecUnspec {
    /// `AF_INET`: IP version 4.
    Inet(Vec<AfSpecInet>),
    /// `AF_INET6`: IP version 6.
    Inet6(Vec<AfSpecInet6>),
    /// `AF_MCTP`: the management component transport protocol.
    Mctp(Vec<AfSpecMctp>),
    /// An attribute of another number, as it stands.
    Other(DefaultNla),
}

/// The rows of the table.
macro_rules! rows {
    ($body:ident ($($given:tt)*)) => {
        npr_base::$body!(($($given)*) AfSpecUnspec of AfSpecUnspec {
            2 Inet(list AfSpecInet);
            10 Inet6(list AfSpecInet6);
            45 Mctp(list AfSpecMctp);
        })
    };
}

impl Nla for AfSpecUnspec {
    ghost shape = { shaped family };

    fn kind(&self) -> u16 {
        rows!(kind_rows(self))
    }

    fn is_nested(&self) -> bool {
        false
    }

    fn check_value(&self) -> Result<usize, EmitError> {
        Ok(rows!(len_rows(self)))
    }

    fn write_value(&self, out: &mut [u8]) -> usize {
        rows!(write_rows(self, out))
    }
}

impl Attribute for AfSpecUnspec {
    type Context = ();

    ghost family = { family };

    ghost shape_is = { λ a. refl };

    #[tactic(auto, unfolding(crate::specs::AfSpec::attributes))]
    fn read_into<P: Place<Self>>(
        place: &mut P,
        alloc: Global,
        _context: (),
        item: &NlaBuffer<'_>,
        looks: &mut Looks,
    ) -> Result<(), DecodeError> {
        rows!(put_rows(place, alloc, item, looks))
    }

    #[tactic(auto, unfolding(crate::specs::AfSpec::attributes))]
    fn form(_context: (), number: u16) -> (At, Form) {
        rows!(form_rows(number))
    }

    fn try_clone(&self, alloc: Global) -> Result<Self, AllocError> {
        rows!(clone_rows(self, alloc))
    }
}
