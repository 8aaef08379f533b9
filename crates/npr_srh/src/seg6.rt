//! SEG6: members of its tunnel (RFC 8754; `linux/seg6_iptunnel.h`).

ghost use Rattle.std.specs.Prelude.{◌≡◌, ◌≢◌, IfSome, IfNone, IfOk, IfErr, refl};
ghost use Rattle.{npr_base.specs.{Family.{shaped}, Framing.{number_of}}, npr_srh.specs.Seg6Tunnel.{family, attributes}};

use crate::seg6_header::{SEG6_IPTUNNEL_SRH, Seg6Header};
use npr_base::{
    At, Attribute, DecodeError, DefaultNla, EmitError, Form, Ipv6Addr, Looks, Nla, NlaBuffer,
    Place, put_read,
};
use std::alloc::{AllocError, Global};

/// A member of a SEG6 tunnel: `SEG6_IPTUNNEL_*` of `linux/seg6_iptunnel.h`.
#[derive(Debug, Drop, PartialEq, Eq)]
pub enum RouteSeg6IpTunnel {
    /// `SEG6_IPTUNNEL_SRH`: the routing header.
    Seg6(Seg6Header),
    /// `SEG6_IPTUNNEL_SRC`: the address that packets are sent from.
    Src(Ipv6Addr),
    /// `SEG6_IPTUNNEL_TABLE`: the table of routes that the first segment is looked up in.
    Table(u32),
    /// A member of another number, as it stands.
    Other(DefaultNla),
}

/// The rows of the table.
macro_rules! rows {
    ($body:ident ($($given:tt)*)) => {
        npr_base::$body!(($($given)*) RouteSeg6IpTunnel of Seg6 {
            2 Src(octets16);
            3 Table(le32);
        })
    };
}

impl Nla for RouteSeg6IpTunnel {
    ghost shape = { shaped family };

    fn kind(&self) -> u16 {
        rows!(kind_rows(self; RouteSeg6IpTunnel::Seg6(header) => header.kind(),))
    }

    fn is_nested(&self) -> bool {
        false
    }

    fn check_value(&self) -> Result<usize, EmitError> {
        Ok(rows!(len_rows(self; RouteSeg6IpTunnel::Seg6(header) => header.check_value()?,)))
    }

    fn write_value(&self, out: &mut [u8]) -> usize {
        rows!(write_rows(self, out; RouteSeg6IpTunnel::Seg6(header) => header.write_value(out),))
    }
}

impl Attribute for RouteSeg6IpTunnel {
    type Context = ();

    ghost family = { family };

    ghost shape_is = { λ a. refl };

    #[tactic(auto, unfolding(crate::specs::Seg6Tunnel::attributes_by))]
    fn read_into<P: Place<Self>>(
        place: &mut P,
        alloc: Global,
        _context: (),
        item: &NlaBuffer<'_>,
        looks: &mut Looks,
    ) -> Result<(), DecodeError> {
        rows!(put_rows(place, alloc, item, looks; 1 => put_read(place, Seg6Header::read(alloc, item.value()), RouteSeg6IpTunnel::Seg6),))
    }

    #[tactic(auto, unfolding(crate::specs::Seg6Tunnel::attributes_by))]
    fn form(_context: (), number: u16) -> (At, Form) {
        rows!(form_rows(number; 1 => Form::Inside,))
    }

    fn try_clone(&self, alloc: Global) -> Result<Self, AllocError> {
        rows!(clone_rows(self, alloc; RouteSeg6IpTunnel::Seg6(header) => header.try_clone(alloc).map(RouteSeg6IpTunnel::Seg6),))
    }
}

impl RouteSeg6IpTunnel {
    /// Whether the routing header is read, which has a reader of its own, or `None` for an attribute
    /// of another number. It takes no memory.
    ///
    /// # Errors
    /// `Seg6Header` with the first fault.
    pub fn check_apart(item: &NlaBuffer<'_>) -> Option<Result<(), DecodeError>>
        ensures apart { IfSome result (λ _. number_of (item.now).kind ≡ 1) }
        ensures other { IfNone result (number_of (item.now).kind ≢ 1) }
        ensures ok { IfSome result (λ r. IfOk r (λ _. (m : family.Meaning) × attributes.Reads item.now m)) }
        ensures refused { IfSome result (λ r. IfErr r (λ e. attributes.Faulty item.now e)) }
    {
        if item.kind() != SEG6_IPTUNNEL_SRH {
            return None;
        }
        Some(Seg6Header::check_value(item.value()))
    }
}
