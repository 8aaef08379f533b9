//! The data of a filter that matches each packet: `TCA_MATCHALL_*` of `linux/pkt_cls.h`.

ghost use Rattle.std.specs.Prelude.{refl};
ghost use Rattle.{npr_base.specs.Family.{shaped}, npr_tc_filters.specs.MatchAll.{family}};

use crate::match_all_pcnt::TcMatchAllPcnt;
use npr_base::{
    At, Attribute, DecodeError, DefaultNla, EmitError, Form, Looks, Nla, NlaBuffer, Place,
};
use npr_tc_actions::TcAction;
use npr_tc_values::TcHandle;
use std::alloc::{AllocError, Global};

/// The data of a filter that matches each packet: `TCA_MATCHALL_*` of `linux/pkt_cls.h`.
#[derive(Debug, Drop, PartialEq, Eq)]
pub enum TcFilterMatchAllOption {
    /// `TCA_MATCHALL_CLASSID`: the class of a packet.
    ClassId(TcHandle),
    /// `TCA_MATCHALL_ACT`: what is done with a packet.
    Action(Vec<TcAction>),
    /// `TCA_MATCHALL_FLAGS`: what devices do with it (`TCA_CLS_FLAGS_*`).
    Flags(u32),
    /// `TCA_MATCHALL_PCNT`: how often it matched.
    Pnct(TcMatchAllPcnt),
    /// An attribute of another number, as it stands.
    Other(DefaultNla),
}

/// The rows of the table.
macro_rules! rows {
    ($body:ident ($($given:tt)*)) => {
        npr_base::$body!(($($given)*) TcFilterMatchAllOption of TcFilterMatchAll {
            1 ClassId(TcHandle exactly 4);
            2 Action(list TcActions);
            3 Flags(le32);
            4 Pnct(TcMatchAllPcnt value raw);
        })
    };
}

impl Nla for TcFilterMatchAllOption {
    ghost shape = { shaped family };

    fn kind(&self) -> u16 {
        rows!(kind_rows(self))
    }

    fn is_nested(&self) -> bool {
        false
    }

    fn check_value(&self) -> Result<usize, EmitError> {
        Ok(rows!(len_rows(self)))
    }

    fn write_value(&self, out: &mut [u8]) -> usize {
        rows!(write_rows(self, out))
    }
}

impl Attribute for TcFilterMatchAllOption {
    type Context = ();

    ghost family = { family };

    ghost shape_is = { λ a. refl };

    #[tactic(auto, unfolding(crate::specs::MatchAll::attributes))]
    fn read_into<P: Place<Self>>(
        place: &mut P,
        alloc: Global,
        _context: (),
        item: &NlaBuffer<'_>,
        looks: &mut Looks,
    ) -> Result<(), DecodeError> {
        rows!(put_rows(place, alloc, item, looks))
    }

    #[tactic(auto, unfolding(crate::specs::MatchAll::attributes))]
    fn form(_context: (), number: u16) -> (At, Form) {
        rows!(form_rows(number))
    }

    fn try_clone(&self, alloc: Global) -> Result<Self, AllocError> {
        rows!(clone_rows(self, alloc))
    }
}
