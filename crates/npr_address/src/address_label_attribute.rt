//! The attributes of a message of address labels: `IFAL_*` of `linux/if_addrlabel.h`.

ghost use Rattle.std.specs.Prelude.{refl};
ghost use Rattle.{npr_base.specs.Family.{shaped}, npr_address.specs.AddressLabelAttribute.{family}};

use npr_base::{
    At, Attribute, DecodeError, DefaultNla, EmitError, Form, Ipv6Addr, Looks, Nla, NlaBuffer, Place,
};
use std::alloc::{AllocError, Global};

/// An attribute of a message of address labels.
#[derive(Debug, Drop, PartialEq, Eq)]
pub enum AddressLabelAttribute {
    /// `IFAL_ADDRESS`: the prefix, an address of version 6.
    Address(Ipv6Addr),
    /// `IFAL_LABEL`: its label.
    Label(u32),
    /// An attribute of another number, as it stands.
    Other(DefaultNla),
}

/// The rows of the table.
macro_rules! rows {
    ($body:ident ($($given:tt)*)) => {
        npr_base::$body!(($($given)*) AddressLabelAttribute of AddressLabel {
            1 Address(octets16);
            2 Label(le32);
        })
    };
}

impl Nla for AddressLabelAttribute {
    ghost shape = { shaped family };

    fn kind(&self) -> u16 {
        rows!(kind_rows(self))
    }

    fn is_nested(&self) -> bool {
        false
    }

    fn check_value(&self) -> Result<usize, EmitError> {
        Ok(rows!(len_rows(self)))
    }

    fn write_value(&self, out: &mut [u8]) -> usize {
        rows!(write_rows(self, out))
    }
}

impl Attribute for AddressLabelAttribute {
    type Context = ();

    ghost family = { family };

    ghost shape_is = { λ a. refl };

    fn read_into<P: Place<Self>>(
        place: &mut P,
        alloc: Global,
        _context: (),
        item: &NlaBuffer<'_>,
        looks: &mut Looks,
    ) -> Result<(), DecodeError> {
        rows!(put_rows(place, alloc, item, looks))
    }

    fn form(_context: (), number: u16) -> (At, Form) {
        rows!(form_rows(number))
    }

    fn try_clone(&self, alloc: Global) -> Result<Self, AllocError> {
        rows!(clone_rows(self, alloc))
    }
}
