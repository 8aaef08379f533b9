//! The tunnel of an IPsec interface: `LWT_XFRM_*` of `linux/lwtunnel.h`.

ghost use Rattle.std.specs.Prelude.{refl};
ghost use Rattle.{npr_base.specs.Family.{shaped}, npr_encapsulation.specs.XfrmTunnel.{family, xfrm_text}};

use npr_base::{
    At, Attribute, DecodeError, DefaultNla, EmitError, Form, Looks, Nla, NlaBuffer, Place,
};
use std::alloc::{AllocError, Global};
use std::fmt;

/// A member of the tunnel of an IPsec interface.
#[derive(Debug, Default, Drop, PartialEq, Eq)]
pub enum RouteXfrmTunnel {
    /// `LWT_XFRM_UNSPEC`: its value is dropped.
    #[default]
    Unspecified,
    /// `LWT_XFRM_IF_ID`: the id of the interface.
    IfId(u32),
    /// `LWT_XFRM_LINK`: the index of the interface under it.
    Link(u32),
    /// A member of another number, as it stands.
    Other(DefaultNla),
}

/// The rows of the table.
macro_rules! rows {
    ($body:ident ($($given:tt)*)) => {
        npr_base::$body!(($($given)*) RouteXfrmTunnel of Xfrm {
            0 Unspecified;
            1 IfId(le32);
            2 Link(le32);
        })
    };
}

impl Nla for RouteXfrmTunnel {
    ghost shape = { shaped family };

    fn kind(&self) -> u16 {
        rows!(kind_rows(self))
    }

    fn is_nested(&self) -> bool {
        false
    }

    fn check_value(&self) -> Result<usize, EmitError> {
        Ok(rows!(len_rows(self)))
    }

    fn write_value(&self, out: &mut [u8]) -> usize {
        rows!(write_rows(self, out))
    }
}

impl Attribute for RouteXfrmTunnel {
    type Context = ();

    ghost family = { family };

    ghost shape_is = { λ a. refl };

    #[tactic(auto, unfolding(crate::specs::XfrmTunnel::attributes))]
    fn read_into<P: Place<Self>>(
        place: &mut P,
        alloc: Global,
        _context: (),
        item: &NlaBuffer<'_>,
        looks: &mut Looks,
    ) -> Result<(), DecodeError> {
        rows!(put_rows(place, alloc, item, looks))
    }

    #[tactic(auto, unfolding(crate::specs::XfrmTunnel::attributes))]
    fn form(_context: (), number: u16) -> (At, Form) {
        rows!(form_rows(number))
    }

    fn try_clone(&self, alloc: Global) -> Result<Self, AllocError> {
        rows!(clone_rows(self, alloc))
    }
}

/// The name of what stands there, and its value.
impl fmt::Display for RouteXfrmTunnel {
    ghost output = { λ a. xfrm_text (family.meaning a) };

    fn fmt<W: fmt::Write>(&self, f: &mut fmt::Formatter<W>) -> fmt::Result {
        match self {
            RouteXfrmTunnel::Unspecified => f.write_str("unspecified"),
            RouteXfrmTunnel::IfId(id) => write!(f, "if_id {id}"),
            RouteXfrmTunnel::Link(index) => write!(f, "link_dev {index}"),
            RouteXfrmTunnel::Other(nla) => fmt::Debug::fmt(nla, f),
        }
    }
}
