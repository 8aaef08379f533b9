//! The tunnel of MPLS: `MPLS_IPTUNNEL_*` of `linux/mpls_iptunnel.h`.

ghost use Rattle.std.specs.Prelude.{refl};
ghost use Rattle.{npr_base.specs.Family.{shaped}, npr_encapsulation.specs.MplsTunnel.{family}};

use npr_base::{
    At, Attribute, DecodeError, DefaultNla, EmitError, Form, Looks, Nla, NlaBuffer, Place, put_read,
};
use npr_route_values::{MplsLabel, labels_len, read_labels, write_labels};
use std::alloc::{AllocError, Global};

/// A member of the tunnel of MPLS.
#[derive(Debug, Drop, PartialEq, Eq)]
pub enum RouteMplsIpTunnel {
    /// `MPLS_IPTUNNEL_DST`: the labels that are put on.
    Destination(Vec<MplsLabel>),
    /// `MPLS_IPTUNNEL_TTL`: how many hops are left.
    Ttl(u8),
    /// A member of another number, as it stands.
    Other(DefaultNla),
}

/// The rows of the table.
macro_rules! rows {
    ($body:ident ($($given:tt)*)) => {
        npr_base::$body!(($($given)*) RouteMplsIpTunnel of Mpls {
            2 Ttl(byte);
        })
    };
}

impl Nla for RouteMplsIpTunnel {
    ghost shape = { shaped family };

    fn kind(&self) -> u16 {
        rows!(kind_rows(self; RouteMplsIpTunnel::Destination(_) => 1,))
    }

    fn is_nested(&self) -> bool {
        false
    }

    fn check_value(&self) -> Result<usize, EmitError> {
        Ok(rows!(len_rows(self; RouteMplsIpTunnel::Destination(x) => labels_len(x.as_slice()),)))
    }

    fn write_value(&self, out: &mut [u8]) -> usize {
        rows!(write_rows(self, out; RouteMplsIpTunnel::Destination(x) => write_labels(x.as_slice(), out),))
    }
}

impl Attribute for RouteMplsIpTunnel {
    type Context = ();

    ghost family = { family };

    ghost shape_is = { λ a. refl };

    #[tactic(auto, unfolding(crate::specs::MplsTunnel::attributes))]
    fn read_into<P: Place<Self>>(
        place: &mut P,
        alloc: Global,
        _context: (),
        item: &NlaBuffer<'_>,
        looks: &mut Looks,
    ) -> Result<(), DecodeError> {
        rows!(put_rows(place, alloc, item, looks; 1 => put_read(place, read_labels(alloc, item.value()), RouteMplsIpTunnel::Destination),))
    }

    #[tactic(auto, unfolding(crate::specs::MplsTunnel::attributes))]
    fn form(_context: (), number: u16) -> (At, Form) {
        rows!(form_rows(number; 1 => Form::Raw,))
    }

    fn try_clone(&self, alloc: Global) -> Result<Self, AllocError> {
        rows!(clone_rows(self, alloc; RouteMplsIpTunnel::Destination(x) => Vec::from_slice(alloc, x.as_slice()).map(RouteMplsIpTunnel::Destination),))
    }
}
