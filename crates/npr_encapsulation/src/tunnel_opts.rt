//! Options of tunnels over IP: `LWTUNNEL_IP_OPTS_*` of `linux/lwtunnel.h`.

ghost use Rattle.std.specs.Prelude.{◌≡◌, ◌≢◌, IfSome, IfNone, IfOk, IfErr, refl};
ghost use Rattle.{
  npr_base.specs.{Family.{shaped}, Framing.{number_of}},
  npr_encapsulation.specs.TunnelOptions.{family, attributes, tunnel_option_text},
};

use crate::erspan::{RouteErspanOpt, write_erspan};
use crate::geneve::{
    RouteGeneveOpt, check_options, check_options_value, clone_options, read_options, write_options,
};
use crate::vxlan::RouteVxlanOpt;
use npr_base::{
    At, Attribute, DecodeError, DefaultNla, EmitError, Form, Looks, NLA_F_NESTED, Nla, NlaBuffer,
    Place, put_read, write_joined,
};
use std::alloc::{AllocError, Global};
use std::fmt;

/// An option of a tunnel over IP. Each is written with NESTED.
#[derive(Debug, Drop, PartialEq, Eq)]
pub enum RouteLwTunnelOpt {
    /// `LWTUNNEL_IP_OPTS_GENEVE`: options of Geneve.
    Geneve(Vec<RouteGeneveOpt>),
    /// `LWTUNNEL_IP_OPTS_VXLAN`: options of VXLAN.
    Vxlan(Vec<RouteVxlanOpt>),
    /// `LWTUNNEL_IP_OPTS_ERSPAN`: options of ERSPAN.
    Erspan(Vec<RouteErspanOpt>),
    /// An option of another number, as it stands.
    Other(DefaultNla),
}

/// The rows of the table.
macro_rules! rows {
    ($body:ident ($($given:tt)*)) => {
        npr_base::$body!(($($given)*) RouteLwTunnelOpt of Opt {
            2 Vxlan(list Vxlan) as NLA_F_NESTED + 2;
            3 Erspan(list Erspan) as NLA_F_NESTED + 3;
        })
    };
}

impl Nla for RouteLwTunnelOpt {
    ghost shape = { shaped family };

    fn kind(&self) -> u16 {
        rows!(kind_rows(self; RouteLwTunnelOpt::Geneve(_) => NLA_F_NESTED + 1,))
    }

    fn is_nested(&self) -> bool {
        false
    }

    fn check_value(&self) -> Result<usize, EmitError> {
        Ok(rows!(len_rows(self; RouteLwTunnelOpt::Geneve(v) => check_options(v.as_slice())?,)))
    }

    fn write_value(&self, out: &mut [u8]) -> usize {
        rows!(write_rows(self, out; RouteLwTunnelOpt::Geneve(v) => write_options(v.as_slice(), out),))
    }
}

impl Attribute for RouteLwTunnelOpt {
    type Context = ();

    ghost family = { family };

    ghost shape_is = { λ a. refl };

    #[tactic(auto, unfolding(crate::specs::TunnelOptions::attributes))]
    fn read_into<P: Place<Self>>(
        place: &mut P,
        alloc: Global,
        _context: (),
        item: &NlaBuffer<'_>,
        looks: &mut Looks,
    ) -> Result<(), DecodeError> {
        rows!(put_rows(place, alloc, item, looks; 1 => put_read(place, read_options(alloc, item.value(), looks), RouteLwTunnelOpt::Geneve),))
    }

    #[tactic(auto, unfolding(crate::specs::TunnelOptions::attributes))]
    fn form(_context: (), number: u16) -> (At, Form) {
        rows!(form_rows(number; 1 => Form::Inside,))
    }

    fn try_clone(&self, alloc: Global) -> Result<Self, AllocError> {
        rows!(clone_rows(self, alloc; RouteLwTunnelOpt::Geneve(v) => clone_options(alloc, v.as_slice()).map(RouteLwTunnelOpt::Geneve),))
    }
}

impl RouteLwTunnelOpt {
    /// Whether options of Geneve are read, which have a reader of their own, or `None` for an
    /// attribute of another number. It takes no memory.
    ///
    /// # Errors
    /// The first fault of the options in reading order.
    pub fn check_apart(item: &NlaBuffer<'_>) -> Option<Result<(), DecodeError>>
        ensures apart { IfSome result (λ _. number_of (item.now).kind ≡ 1) }
        ensures other { IfNone result (number_of (item.now).kind ≢ 1) }
        ensures ok { IfSome result (λ r. IfOk r (λ _. (m : family.Meaning) × attributes.Reads item.now m)) }
        ensures refused { IfSome result (λ r. IfErr r (λ e. attributes.Faulty item.now e)) }
    {
        if item.kind() != 1 {
            return None;
        }
        Some(check_options_value(item.value()))
    }
}

/// The options of Geneve or of VXLAN with a comma between them, and those of ERSPAN as one.
impl fmt::Display for RouteLwTunnelOpt {
    ghost output = { λ a. tunnel_option_text (family.meaning a) };

    fn fmt<W: fmt::Write>(&self, f: &mut fmt::Formatter<W>) -> fmt::Result {
        match self {
            RouteLwTunnelOpt::Geneve(options) => write_joined(f, options.as_slice(), ","),
            RouteLwTunnelOpt::Vxlan(options) => write_joined(f, options.as_slice(), ","),
            RouteLwTunnelOpt::Erspan(options) => write_erspan(f, options.as_slice()),
            RouteLwTunnelOpt::Other(nla) => fmt::Debug::fmt(nla, f),
        }
    }
}
