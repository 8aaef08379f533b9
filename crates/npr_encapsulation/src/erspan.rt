//! Options of ERSPAN: `LWTUNNEL_IP_OPT_ERSPAN_*` of `linux/lwtunnel.h`.

ghost use Rattle.std.specs.{Prelude.{map, refl}, Fmt.{WritesOnOk}};
ghost use Rattle.{npr_base.specs.Family.{shaped}, npr_encapsulation.specs.ErspanOptions.{family, erspan_text}};

use npr_base::{
    At, Attribute, DecodeError, DefaultNla, EmitError, Form, Looks, Nla, NlaBuffer, Place,
};
use std::alloc::{AllocError, Global};
use std::fmt;

/// An option of ERSPAN.
#[derive(Debug, Drop, PartialEq, Eq)]
pub enum RouteErspanOpt {
    /// `LWTUNNEL_IP_OPT_ERSPAN_VER`: the version.
    Ver(u8),
    /// `LWTUNNEL_IP_OPT_ERSPAN_INDEX`: the port, of version 1; big endian.
    Index(u32),
    /// `LWTUNNEL_IP_OPT_ERSPAN_DIR`: the direction, of version 2.
    Dir(u8),
    /// `LWTUNNEL_IP_OPT_ERSPAN_HWID`: the id of the hardware, of version 2.
    Hwid(u8),
    /// An option of another number, as it stands.
    Other(DefaultNla),
}

/// The rows of the table.
macro_rules! rows {
    ($body:ident ($($given:tt)*)) => {
        npr_base::$body!(($($given)*) RouteErspanOpt of Erspan {
            1 Ver(byte);
            2 Index(be32);
            3 Dir(byte);
            4 Hwid(byte);
        })
    };
}

impl Nla for RouteErspanOpt {
    ghost shape = { shaped family };

    fn kind(&self) -> u16 {
        rows!(kind_rows(self))
    }

    fn is_nested(&self) -> bool {
        false
    }

    fn check_value(&self) -> Result<usize, EmitError> {
        Ok(rows!(len_rows(self)))
    }

    fn write_value(&self, out: &mut [u8]) -> usize {
        rows!(write_rows(self, out))
    }
}

impl Attribute for RouteErspanOpt {
    type Context = ();

    ghost family = { family };

    ghost shape_is = { λ a. refl };

    #[tactic(auto, unfolding(crate::specs::ErspanOptions::attributes))]
    fn read_into<P: Place<Self>>(
        place: &mut P,
        alloc: Global,
        _context: (),
        item: &NlaBuffer<'_>,
        looks: &mut Looks,
    ) -> Result<(), DecodeError> {
        rows!(put_rows(place, alloc, item, looks))
    }

    #[tactic(auto, unfolding(crate::specs::ErspanOptions::attributes))]
    fn form(_context: (), number: u16) -> (At, Form) {
        rows!(form_rows(number))
    }

    fn try_clone(&self, alloc: Global) -> Result<Self, AllocError> {
        rows!(clone_rows(self, alloc))
    }
}

/// Writes a list of options: the last value of each kind, or 0 where there is none. Version 1 has
/// an index, and every other a direction and an id of the hardware.
pub(crate) fn write_erspan<W: fmt::Write>(
    f: &mut fmt::Formatter<W>,
    options: &[RouteErspanOpt],
) -> fmt::Result
    ensures { WritesOnOk W.write_str_gives f.old result (erspan_text (map family.meaning options.now)) f.new }
{
    let mut version = 0;
    let mut index = 0;
    let mut direction = 0;
    let mut hardware_id = 0;
    for option in options {
        match option {
            RouteErspanOpt::Ver(x) => version = *x,
            RouteErspanOpt::Index(x) => index = *x,
            RouteErspanOpt::Dir(x) => direction = *x,
            RouteErspanOpt::Hwid(x) => hardware_id = *x,
            RouteErspanOpt::Other(_) => {}
        }
    }
    if version == 1 {
        write!(f, "erspan_opts 1:{index}:0:0")
    } else {
        write!(f, "erspan_opts {version}:0:{direction}:{hardware_id}")
    }
}
