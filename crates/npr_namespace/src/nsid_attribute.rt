//! The attributes of a message of name spaces: `NETNSA_*` of `linux/net_namespace.h`.

ghost use Rattle.std.specs.Prelude.{refl};
ghost use Rattle.{npr_base.specs.Family.{shaped}, npr_namespace.specs.NsidAttribute.{family}};

use npr_base::{
    At, Attribute, DecodeError, DefaultNla, EmitError, Form, Looks, Nla, NlaBuffer, Place,
};
use std::alloc::{AllocError, Global};

/// An attribute of a message of name spaces.
#[derive(Debug, Drop, PartialEq, Eq)]
pub enum NsidAttribute {
    /// `NETNSA_NSID`: the id of the name space; -1 is none.
    Id(i32),
    /// `NETNSA_PID`: a process in it.
    Pid(u32),
    /// `NETNSA_FD`: an open file that stands for it.
    Fd(u32),
    /// `NETNSA_TARGET_NSID`: the id of the name space that is asked for its ids.
    TargetNsid(i32),
    /// `NETNSA_CURRENT_NSID`: the id that it has in the name space that asks.
    CurrentNsid(i32),
    /// An attribute of another number, as it stands.
    Other(DefaultNla),
}

/// The rows of the table.
macro_rules! rows {
    ($body:ident ($($given:tt)*)) => {
        npr_base::$body!(($($given)*) NsidAttribute of Nsid {
            1 Id(signed32);
            2 Pid(le32);
            3 Fd(le32);
            4 TargetNsid(signed32);
            5 CurrentNsid(signed32);
        })
    };
}

impl Nla for NsidAttribute {
    ghost shape = { shaped family };

    fn kind(&self) -> u16 {
        rows!(kind_rows(self))
    }

    fn is_nested(&self) -> bool {
        false
    }

    fn check_value(&self) -> Result<usize, EmitError> {
        Ok(rows!(len_rows(self)))
    }

    fn write_value(&self, out: &mut [u8]) -> usize {
        rows!(write_rows(self, out))
    }
}

impl Attribute for NsidAttribute {
    type Context = ();

    ghost family = { family };

    ghost shape_is = { λ a. refl };

    fn read_into<P: Place<Self>>(
        place: &mut P,
        alloc: Global,
        _context: (),
        item: &NlaBuffer<'_>,
        looks: &mut Looks,
    ) -> Result<(), DecodeError> {
        rows!(put_rows(place, alloc, item, looks))
    }

    fn form(_context: (), number: u16) -> (At, Form) {
        rows!(form_rows(number))
    }

    fn try_clone(&self, alloc: Global) -> Result<Self, AllocError> {
        rows!(clone_rows(self, alloc))
    }
}
