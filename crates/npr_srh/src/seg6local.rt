//! SEG6 local: members of its tunnel (RFC 8986; `linux/seg6_local.h`).

ghost use Rattle.std.specs.Prelude.{◌≡◌, ◌≢◌, IfSome, IfNone, IfOk, IfErr, refl};
ghost use Rattle.{npr_base.specs.{Family.{shaped}, Framing.{number_of}}, npr_srh.specs.Seg6LocalTunnel.{family, attributes, local_text}};

use crate::seg6local_action::Seg6LocalAction;
use crate::seg6local_srh::{SEG6_LOCAL_SRH, Seg6LocalSrh};
use crate::segments::write_header;
use npr_base::{
    At, Attribute, DecodeError, DefaultNla, EmitError, Form, Ipv4Addr, Ipv6Addr, Looks, Nla,
    NlaBuffer, Place, put_read,
};
use std::alloc::{AllocError, Global};
use std::fmt;

/// A member of a SEG6 local tunnel: `SEG6_LOCAL_*` of `linux/seg6_local.h`.
#[derive(Debug, Default, Drop, PartialEq, Eq)]
pub enum RouteSeg6LocalTunnel {
    /// `SEG6_LOCAL_UNSPEC`: nothing; what stood in its value is dropped.
    #[default]
    Unspecified,
    /// `SEG6_LOCAL_ACTION`: what is done.
    Action(Seg6LocalAction),
    /// `SEG6_LOCAL_SRH`: the routing header that is put in.
    Srh(Seg6LocalSrh),
    /// `SEG6_LOCAL_TABLE`: the table of routes that is looked in.
    Table(u32),
    /// `SEG6_LOCAL_NH4`: the next hop of version 4.
    Nh4(Ipv4Addr),
    /// `SEG6_LOCAL_NH6`: the next hop of version 6.
    Nh6(Ipv6Addr),
    /// `SEG6_LOCAL_IIF`: the number of the interface that packets come from.
    Iif(u32),
    /// `SEG6_LOCAL_OIF`: the number of the interface that packets go out by.
    Oif(u32),
    /// `SEG6_LOCAL_VRFTABLE`: the table of routes of a virtual router.
    VrfTable(u32),
    /// A member of another number, or a header that can't be read, as it stands.
    Other(DefaultNla),
}

/// The rows of the table.
macro_rules! rows {
    ($body:ident ($($given:tt)*)) => {
        npr_base::$body!(($($given)*) RouteSeg6LocalTunnel of Seg6Local {
            0 Unspecified;
            1 Action(Seg6LocalAction as le32);
            3 Table(le32);
            4 Nh4(octets4);
            5 Nh6(octets16);
            6 Iif(le32);
            7 Oif(le32);
            9 VrfTable(le32);
        })
    };
}

impl Nla for RouteSeg6LocalTunnel {
    ghost shape = { shaped family };

    fn kind(&self) -> u16 {
        rows!(kind_rows(self; RouteSeg6LocalTunnel::Srh(header) => header.kind(),))
    }

    fn is_nested(&self) -> bool {
        false
    }

    fn check_value(&self) -> Result<usize, EmitError> {
        Ok(rows!(len_rows(self; RouteSeg6LocalTunnel::Srh(header) => header.check_value()?,)))
    }

    fn write_value(&self, out: &mut [u8]) -> usize {
        rows!(write_rows(self, out; RouteSeg6LocalTunnel::Srh(header) => header.write_value(out),))
    }
}

impl Attribute for RouteSeg6LocalTunnel {
    type Context = ();

    ghost family = { family };

    ghost shape_is = { λ a. refl };

    #[tactic(auto, unfolding(crate::specs::Seg6LocalTunnel::attributes))]
    fn read_into<P: Place<Self>>(
        place: &mut P,
        alloc: Global,
        _context: (),
        item: &NlaBuffer<'_>,
        looks: &mut Looks,
    ) -> Result<(), DecodeError> {
        rows!(put_rows(place, alloc, item, looks;
            2 => match Seg6LocalSrh::read(alloc, item.value()) {
                Some(header) => put_read(place, header, RouteSeg6LocalTunnel::Srh),
                None => put_read(place, DefaultNla::read(alloc, item), RouteSeg6LocalTunnel::Other),
            },
        ))
    }

    #[tactic(auto, unfolding(crate::specs::Seg6LocalTunnel::attributes))]
    fn form(_context: (), number: u16) -> (At, Form) {
        rows!(form_rows(number; 2 => Form::Inside,))
    }

    fn try_clone(&self, alloc: Global) -> Result<Self, AllocError> {
        rows!(clone_rows(self, alloc; RouteSeg6LocalTunnel::Srh(header) => header.try_clone(alloc).map(RouteSeg6LocalTunnel::Srh),))
    }
}

impl RouteSeg6LocalTunnel {
    /// Whether the routing header is read, which has a reader of its own, or `None` for an attribute
    /// of another number. It is read of any bytes: what is none is kept as it stands.
    pub fn check_apart(item: &NlaBuffer<'_>) -> Option<Result<(), DecodeError>>
        ensures apart { IfSome result (λ _. number_of (item.now).kind ≡ 2) }
        ensures other { IfNone result (number_of (item.now).kind ≢ 2) }
        ensures ok { IfSome result (λ r. IfOk r (λ _. (m : family.Meaning) × attributes.Reads item.now m)) }
        ensures refused { IfSome result (λ r. IfErr r (λ e. attributes.Faulty item.now e)) }
    {
        if item.kind() != SEG6_LOCAL_SRH {
            return None;
        }
        Some(Ok(()))
    }
}

/// The words of `ip`: of a routing header the number of its segments, and these, the last one first.
impl fmt::Display for RouteSeg6LocalTunnel {
    ghost output = { λ member. local_text (family.meaning member) };

    fn fmt<W: fmt::Write>(&self, f: &mut fmt::Formatter<W>) -> fmt::Result {
        match self {
            RouteSeg6LocalTunnel::Unspecified => f.write_str("unspecified"),
            RouteSeg6LocalTunnel::Action(action) => write!(f, "action {action}"),
            RouteSeg6LocalTunnel::Srh(header) => {
                let count = u16::from(header.first_segment) + 1;
                write_header(f, count, header.segments.as_slice())
            }
            RouteSeg6LocalTunnel::Table(table) => write!(f, "table {table}"),
            RouteSeg6LocalTunnel::Nh4(address) => write!(f, "nh4 {address}"),
            RouteSeg6LocalTunnel::Nh6(address) => write!(f, "nh6 {address}"),
            RouteSeg6LocalTunnel::Iif(index) => write!(f, "iif {index}"),
            RouteSeg6LocalTunnel::Oif(index) => write!(f, "oif {index}"),
            RouteSeg6LocalTunnel::VrfTable(table) => write!(f, "vrftable {table}"),
            RouteSeg6LocalTunnel::Other(nla) => fmt::Debug::fmt(nla, f),
        }
    }
}
