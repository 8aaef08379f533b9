//! The data of a virtual tunnel interface: `IFLA_VTI_*` of `linux/if_tunnel.h`.

ghost use Rattle.std.specs.Prelude.{refl};
ghost use Rattle.{npr_base.specs.Family.{shaped}, npr_link_tunnels.specs.Vti.{family}};

use npr_base::{
    At, Attribute, DecodeError, DefaultNla, EmitError, Form, IpAddr, Looks, Nla, NlaBuffer, Place,
};
use std::alloc::{AllocError, Global};

/// The data of a virtual tunnel interface, over IP version 4 or 6.
#[derive(Debug, Drop, PartialEq, Eq)]
pub enum InfoVti {
    /// `IFLA_VTI_LINK`: the index of the link that it goes by.
    Link(u32),
    /// `IFLA_VTI_IKEY`: the key of what comes in.
    IKey(u32),
    /// `IFLA_VTI_OKEY`: the key of what goes out.
    OKey(u32),
    /// `IFLA_VTI_LOCAL`: the address of this end.
    Local(IpAddr),
    /// `IFLA_VTI_REMOTE`: the address of the other end.
    Remote(IpAddr),
    /// `IFLA_VTI_FWMARK`: the mark of what goes out.
    FwMark(u32),
    /// An attribute of another number, as it stands.
    Other(DefaultNla),
}

/// The rows of the table.
macro_rules! rows {
    ($body:ident ($($given:tt)*)) => {
        npr_base::$body!(($($given)*) InfoVti of InfoVti {
            1 Link(le32);
            2 IKey(be32);
            3 OKey(be32);
            4 Local(ip);
            5 Remote(ip);
            6 FwMark(le32);
        })
    };
}

impl Nla for InfoVti {
    ghost shape = { shaped family };

    fn kind(&self) -> u16 {
        rows!(kind_rows(self))
    }

    fn is_nested(&self) -> bool {
        false
    }

    fn check_value(&self) -> Result<usize, EmitError> {
        Ok(rows!(len_rows(self)))
    }

    fn write_value(&self, out: &mut [u8]) -> usize {
        rows!(write_rows(self, out))
    }
}

impl Attribute for InfoVti {
    type Context = ();

    ghost family = { family };

    ghost shape_is = { λ a. refl };

    #[tactic(auto, unfolding(crate::specs::Vti::attributes))]
    fn read_into<P: Place<Self>>(
        place: &mut P,
        alloc: Global,
        _context: (),
        item: &NlaBuffer<'_>,
        looks: &mut Looks,
    ) -> Result<(), DecodeError> {
        rows!(put_rows(place, alloc, item, looks))
    }

    #[tactic(auto, unfolding(crate::specs::Vti::attributes))]
    fn form(_context: (), number: u16) -> (At, Form) {
        rows!(form_rows(number))
    }

    fn try_clone(&self, alloc: Global) -> Result<Self, AllocError> {
        rows!(clone_rows(self, alloc))
    }
}
