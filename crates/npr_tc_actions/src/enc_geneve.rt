//! What is said of an option of Geneve: `TCA_FLOWER_KEY_ENC_OPT_GENEVE_*` of
//! `linux/pkt_cls.h`.

ghost use Rattle.std.specs.Prelude.{refl};
ghost use Rattle.{npr_base.specs.Family.{shaped}, npr_tc_actions.specs.EncGeneve.{family}};

use npr_base::{
    At, Attribute, DecodeError, DefaultNla, EmitError, Form, Looks, Nla, NlaBuffer, Place,
};
use std::alloc::{AllocError, Global};

/// What is said of an option of Geneve: `TCA_FLOWER_KEY_ENC_OPT_GENEVE_*` of
/// `linux/pkt_cls.h`, and `TCA_TUNNEL_KEY_ENC_OPT_GENEVE_*` of
/// `linux/tc_act/tc_tunnel_key.h`.
#[derive(Debug, Drop, PartialEq, Eq)]
pub enum TcEncGeneve {
    /// `TCA_FLOWER_KEY_ENC_OPT_GENEVE_CLASS`: its class.
    Class(u16),
    /// `TCA_FLOWER_KEY_ENC_OPT_GENEVE_TYPE`: its type.
    Type(u8),
    /// `TCA_FLOWER_KEY_ENC_OPT_GENEVE_DATA`: its data, 4 to 128 bytes.
    Data(Vec<u8>),
    /// An attribute of another number, as it stands.
    Other(DefaultNla),
}

/// The rows of the table.
macro_rules! rows {
    ($body:ident ($($given:tt)*)) => {
        npr_base::$body!(($($given)*) TcEncGeneve of TcEncGeneve {
            1 Class(be16);
            2 Type(byte);
            3 Data(raw);
        })
    };
}

impl Nla for TcEncGeneve {
    ghost shape = { shaped family };

    fn kind(&self) -> u16 {
        rows!(kind_rows(self))
    }

    fn is_nested(&self) -> bool {
        false
    }

    fn check_value(&self) -> Result<usize, EmitError> {
        Ok(rows!(len_rows(self)))
    }

    fn write_value(&self, out: &mut [u8]) -> usize {
        rows!(write_rows(self, out))
    }
}

impl Attribute for TcEncGeneve {
    type Context = ();

    ghost family = { family };

    ghost shape_is = { λ a. refl };

    #[tactic(auto, unfolding(crate::specs::EncGeneve::attributes))]
    fn read_into<P: Place<Self>>(
        place: &mut P,
        alloc: Global,
        _context: (),
        item: &NlaBuffer<'_>,
        looks: &mut Looks,
    ) -> Result<(), DecodeError> {
        rows!(put_rows(place, alloc, item, looks))
    }

    #[tactic(auto, unfolding(crate::specs::EncGeneve::attributes))]
    fn form(_context: (), number: u16) -> (At, Form) {
        rows!(form_rows(number))
    }

    fn try_clone(&self, alloc: Global) -> Result<Self, AllocError> {
        rows!(clone_rows(self, alloc))
    }
}
