//! The options of a tunnel: `TCA_FLOWER_KEY_ENC_OPTS_*` of `linux/pkt_cls.h`.

ghost use Rattle.std.specs.Prelude.{refl};
ghost use Rattle.{npr_base.specs.Family.{shaped}, npr_tc_actions.specs.EncOption.{family}};

use crate::enc_erspan::TcEncErspan;
use crate::enc_geneve::TcEncGeneve;
use crate::enc_gtp::TcEncGtp;
use crate::enc_pfcp::TcEncPfcp;
use crate::enc_vxlan::TcEncVxlan;
use npr_base::{
    At, Attribute, DecodeError, DefaultNla, EmitError, Form, Looks, NLA_F_NESTED, Nla, NlaBuffer,
    Place,
};
use std::alloc::{AllocError, Global};

/// The options of a tunnel, of one kind each: `TCA_FLOWER_KEY_ENC_OPTS_*` of `linux/pkt_cls.h`,
/// and `TCA_TUNNEL_KEY_ENC_OPTS_*` of `linux/tc_act/tc_tunnel_key.h`.
#[derive(Debug, Drop, PartialEq, Eq)]
pub enum TcEncOption {
    /// `TCA_FLOWER_KEY_ENC_OPTS_GENEVE`: an option of Geneve.
    Geneve(Vec<TcEncGeneve>),
    /// `TCA_FLOWER_KEY_ENC_OPTS_VXLAN`: those of VXLAN. It is written with NESTED.
    Vxlan(Vec<TcEncVxlan>),
    /// `TCA_FLOWER_KEY_ENC_OPTS_ERSPAN`: those of ERSPAN. It is written with NESTED.
    Erspan(Vec<TcEncErspan>),
    /// `TCA_FLOWER_KEY_ENC_OPTS_GTP`: those of GTP. It is written with NESTED.
    Gtp(Vec<TcEncGtp>),
    /// `TCA_FLOWER_KEY_ENC_OPTS_PFCP`: those of PFCP. It is written with NESTED.
    Pfcp(Vec<TcEncPfcp>),
    /// An attribute of another number, as it stands.
    Other(DefaultNla),
}

/// The rows of the table.
macro_rules! rows {
    ($body:ident ($($given:tt)*)) => {
        npr_base::$body!(($($given)*) TcEncOption of TcEnc {
            1 Geneve(list TcEncGeneve);
            2 Vxlan(list TcEncVxlan) as NLA_F_NESTED + 2;
            3 Erspan(list TcEncErspan) as NLA_F_NESTED + 3;
            4 Gtp(list TcEncGtp) as NLA_F_NESTED + 4;
            5 Pfcp(list TcEncPfcp) as NLA_F_NESTED + 5;
        })
    };
}

impl Nla for TcEncOption {
    ghost shape = { shaped family };

    fn kind(&self) -> u16 {
        rows!(kind_rows(self))
    }

    fn is_nested(&self) -> bool {
        false
    }

    fn check_value(&self) -> Result<usize, EmitError> {
        Ok(rows!(len_rows(self)))
    }

    fn write_value(&self, out: &mut [u8]) -> usize {
        rows!(write_rows(self, out))
    }
}

impl Attribute for TcEncOption {
    type Context = ();

    ghost family = { family };

    ghost shape_is = { λ a. refl };

    #[tactic(auto, unfolding(crate::specs::EncOption::attributes))]
    fn read_into<P: Place<Self>>(
        place: &mut P,
        alloc: Global,
        _context: (),
        item: &NlaBuffer<'_>,
        looks: &mut Looks,
    ) -> Result<(), DecodeError> {
        rows!(put_rows(place, alloc, item, looks))
    }

    #[tactic(auto, unfolding(crate::specs::EncOption::attributes))]
    fn form(_context: (), number: u16) -> (At, Form) {
        rows!(form_rows(number))
    }

    fn try_clone(&self, alloc: Global) -> Result<Self, AllocError> {
        rows!(clone_rows(self, alloc))
    }
}
