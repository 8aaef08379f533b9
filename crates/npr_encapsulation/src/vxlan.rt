//! Options of VXLAN: `LWTUNNEL_IP_OPT_VXLAN_*` of `linux/lwtunnel.h`.

ghost use Rattle.std.specs.Prelude.{refl};
ghost use Rattle.{npr_base.specs.Family.{shaped}, npr_encapsulation.specs.VxlanOptions.{family, vxlan_text}};

use npr_base::{
    At, Attribute, DecodeError, DefaultNla, EmitError, Form, Looks, Nla, NlaBuffer, Place,
};
use std::alloc::{AllocError, Global};
use std::fmt;

/// An option of VXLAN.
#[derive(Debug, Drop, PartialEq, Eq)]
pub enum RouteVxlanOpt {
    /// `LWTUNNEL_IP_OPT_VXLAN_GBP`: the policy of a group.
    Gbp(u32),
    /// An option of another number, as it stands.
    Other(DefaultNla),
}

/// The rows of the table.
macro_rules! rows {
    ($body:ident ($($given:tt)*)) => {
        npr_base::$body!(($($given)*) RouteVxlanOpt of Vxlan {
            1 Gbp(le32);
        })
    };
}

impl Nla for RouteVxlanOpt {
    ghost shape = { shaped family };

    fn kind(&self) -> u16 {
        rows!(kind_rows(self))
    }

    fn is_nested(&self) -> bool {
        false
    }

    fn check_value(&self) -> Result<usize, EmitError> {
        Ok(rows!(len_rows(self)))
    }

    fn write_value(&self, out: &mut [u8]) -> usize {
        rows!(write_rows(self, out))
    }
}

impl Attribute for RouteVxlanOpt {
    type Context = ();

    ghost family = { family };

    ghost shape_is = { λ a. refl };

    #[tactic(auto, unfolding(crate::specs::VxlanOptions::attributes))]
    fn read_into<P: Place<Self>>(
        place: &mut P,
        alloc: Global,
        _context: (),
        item: &NlaBuffer<'_>,
        looks: &mut Looks,
    ) -> Result<(), DecodeError> {
        rows!(put_rows(place, alloc, item, looks))
    }

    #[tactic(auto, unfolding(crate::specs::VxlanOptions::attributes))]
    fn form(_context: (), number: u16) -> (At, Form) {
        rows!(form_rows(number))
    }

    fn try_clone(&self, alloc: Global) -> Result<Self, AllocError> {
        rows!(clone_rows(self, alloc))
    }
}

/// The name of the options of VXLAN, and the value of this one.
impl fmt::Display for RouteVxlanOpt {
    ghost output = { λ a. vxlan_text (family.meaning a) };

    fn fmt<W: fmt::Write>(&self, f: &mut fmt::Formatter<W>) -> fmt::Result {
        match self {
            RouteVxlanOpt::Gbp(policy) => write!(f, "vxlan_opts {policy}"),
            RouteVxlanOpt::Other(nla) => fmt::Debug::fmt(nla, f),
        }
    }
}
