//! What is said of the options of ERSPAN: `TCA_FLOWER_KEY_ENC_OPT_ERSPAN_*` of
//! `linux/pkt_cls.h`.

ghost use Rattle.std.specs.Prelude.{refl};
ghost use Rattle.{npr_base.specs.Family.{shaped}, npr_tc_actions.specs.EncErspan.{family}};

use npr_base::{
    At, Attribute, DecodeError, DefaultNla, EmitError, Form, Looks, Nla, NlaBuffer, Place,
};
use std::alloc::{AllocError, Global};

/// What is said of the options of ERSPAN: `TCA_FLOWER_KEY_ENC_OPT_ERSPAN_*` of
/// `linux/pkt_cls.h`, and `TCA_TUNNEL_KEY_ENC_OPT_ERSPAN_*` of
/// `linux/tc_act/tc_tunnel_key.h`.
#[derive(Debug, Drop, PartialEq, Eq)]
pub enum TcEncErspan {
    /// `TCA_FLOWER_KEY_ENC_OPT_ERSPAN_VER`: the version.
    Ver(u8),
    /// `TCA_FLOWER_KEY_ENC_OPT_ERSPAN_INDEX`: the port, of version 1; big endian.
    Index(u32),
    /// `TCA_FLOWER_KEY_ENC_OPT_ERSPAN_DIR`: the direction, of version 2.
    Dir(u8),
    /// `TCA_FLOWER_KEY_ENC_OPT_ERSPAN_HWID`: the id of the hardware, of version 2.
    Hwid(u8),
    /// An attribute of another number, as it stands.
    Other(DefaultNla),
}

/// The rows of the table.
macro_rules! rows {
    ($body:ident ($($given:tt)*)) => {
        npr_base::$body!(($($given)*) TcEncErspan of TcEncErspan {
            1 Ver(byte);
            2 Index(be32);
            3 Dir(byte);
            4 Hwid(byte);
        })
    };
}

impl Nla for TcEncErspan {
    ghost shape = { shaped family };

    fn kind(&self) -> u16 {
        rows!(kind_rows(self))
    }

    fn is_nested(&self) -> bool {
        false
    }

    fn check_value(&self) -> Result<usize, EmitError> {
        Ok(rows!(len_rows(self)))
    }

    fn write_value(&self, out: &mut [u8]) -> usize {
        rows!(write_rows(self, out))
    }
}

impl Attribute for TcEncErspan {
    type Context = ();

    ghost family = { family };

    ghost shape_is = { λ a. refl };

    #[tactic(auto, unfolding(crate::specs::EncErspan::attributes))]
    fn read_into<P: Place<Self>>(
        place: &mut P,
        alloc: Global,
        _context: (),
        item: &NlaBuffer<'_>,
        looks: &mut Looks,
    ) -> Result<(), DecodeError> {
        rows!(put_rows(place, alloc, item, looks))
    }

    #[tactic(auto, unfolding(crate::specs::EncErspan::attributes))]
    fn form(_context: (), number: u16) -> (At, Form) {
        rows!(form_rows(number))
    }

    fn try_clone(&self, alloc: Global) -> Result<Self, AllocError> {
        rows!(clone_rows(self, alloc))
    }
}
