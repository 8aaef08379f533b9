//! The attributes of a message of prefixes: `PREFIX_*` of `linux/rtnetlink.h`.

ghost use Rattle.std.specs.Prelude.{refl};
ghost use Rattle.{npr_base.specs.Family.{shaped}, npr_address.specs.PrefixAttribute.{family}};

use crate::prefix_cache_info::CacheInfo;
use npr_base::{
    At, Attribute, DecodeError, DefaultNla, EmitError, Form, Ipv6Addr, Looks, Nla, NlaBuffer, Place,
};
use std::alloc::{AllocError, Global};

/// An attribute of a message of prefixes.
#[derive(Debug, Drop, PartialEq, Eq)]
pub enum PrefixAttribute {
    /// `PREFIX_ADDRESS`: the prefix, an address of version 6.
    Address(Ipv6Addr),
    /// `PREFIX_CACHEINFO`: how long it is preferred and valid.
    CacheInfo(CacheInfo),
    /// An attribute of another number, as it stands.
    Other(DefaultNla),
}

/// The rows of the table.
macro_rules! rows {
    ($body:ident ($($given:tt)*)) => {
        npr_base::$body!(($($given)*) PrefixAttribute of Prefix {
            1 Address(octets16);
            2 CacheInfo(CacheInfo leading 8);
        })
    };
}

impl Nla for PrefixAttribute {
    ghost shape = { shaped family };

    fn kind(&self) -> u16 {
        rows!(kind_rows(self))
    }

    fn is_nested(&self) -> bool {
        false
    }

    fn check_value(&self) -> Result<usize, EmitError> {
        Ok(rows!(len_rows(self)))
    }

    fn write_value(&self, out: &mut [u8]) -> usize {
        rows!(write_rows(self, out))
    }
}

impl Attribute for PrefixAttribute {
    type Context = ();

    ghost family = { family };

    ghost shape_is = { λ a. refl };

    fn read_into<P: Place<Self>>(
        place: &mut P,
        alloc: Global,
        _context: (),
        item: &NlaBuffer<'_>,
        looks: &mut Looks,
    ) -> Result<(), DecodeError> {
        rows!(put_rows(place, alloc, item, looks))
    }

    fn form(_context: (), number: u16) -> (At, Form) {
        rows!(form_rows(number))
    }

    fn try_clone(&self, alloc: Global) -> Result<Self, AllocError> {
        rows!(clone_rows(self, alloc))
    }
}
