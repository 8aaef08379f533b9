//! The data of IP over InfiniBand: `IFLA_IPOIB_*` of `linux/if_link.h`.

ghost use Rattle.std.specs.Prelude.{refl};
ghost use Rattle.{npr_base.specs.Family.{shaped}, npr_link_devices.specs.Ipoib.{family}};

use crate::ipoib_mode::IpoibMode;
use npr_base::{
    At, Attribute, DecodeError, DefaultNla, EmitError, Form, Looks, Nla, NlaBuffer, Place,
};
use std::alloc::{AllocError, Global};

/// The data of IP over InfiniBand.
#[derive(Debug, Drop, PartialEq, Eq)]
pub enum InfoIpoib {
    /// `IFLA_IPOIB_PKEY`: the key of its partition.
    Pkey(u16),
    /// `IFLA_IPOIB_MODE`: how packets go.
    Mode(IpoibMode),
    /// `IFLA_IPOIB_UMCAST`: whether programs join multicast groups themselves.
    UmCast(u16),
    /// An attribute of another number, as it stands.
    Other(DefaultNla),
}

/// The rows of the table.
macro_rules! rows {
    ($body:ident ($($given:tt)*)) => {
        npr_base::$body!(($($given)*) InfoIpoib of InfoIpoib {
            1 Pkey(le16);
            2 Mode(IpoibMode as le16);
            3 UmCast(le16);
        })
    };
}

impl Nla for InfoIpoib {
    ghost shape = { shaped family };

    fn kind(&self) -> u16 {
        rows!(kind_rows(self))
    }

    fn is_nested(&self) -> bool {
        false
    }

    fn check_value(&self) -> Result<usize, EmitError> {
        Ok(rows!(len_rows(self)))
    }

    fn write_value(&self, out: &mut [u8]) -> usize {
        rows!(write_rows(self, out))
    }
}

impl Attribute for InfoIpoib {
    type Context = ();

    ghost family = { family };

    ghost shape_is = { λ a. refl };

    #[tactic(auto, unfolding(crate::specs::Ipoib::attributes))]
    fn read_into<P: Place<Self>>(
        place: &mut P,
        alloc: Global,
        _context: (),
        item: &NlaBuffer<'_>,
        looks: &mut Looks,
    ) -> Result<(), DecodeError> {
        rows!(put_rows(place, alloc, item, looks))
    }

    #[tactic(auto, unfolding(crate::specs::Ipoib::attributes))]
    fn form(_context: (), number: u16) -> (At, Form) {
        rows!(form_rows(number))
    }

    fn try_clone(&self, alloc: Global) -> Result<Self, AllocError> {
        rows!(clone_rows(self, alloc))
    }
}
