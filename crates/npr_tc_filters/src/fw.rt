//! The data of the filter `fw`: `TCA_FW_*` of `linux/pkt_cls.h`.

ghost use Rattle.std.specs.Prelude.{refl};
ghost use Rattle.{npr_base.specs.Family.{shaped}, npr_tc_filters.specs.Fw.{family}};

use npr_base::{
    At, Attribute, DecodeError, DefaultNla, EmitError, Form, Looks, Nla, NlaBuffer, Place,
};
use npr_tc_actions::{TcAction, TcActionPoliceOption};
use npr_tc_values::TcHandle;
use std::alloc::{AllocError, Global};

/// The data of the filter `fw`: `TCA_FW_*` of `linux/pkt_cls.h`.
#[derive(Debug, Drop, PartialEq, Eq)]
pub enum TcFilterFwOption {
    /// `TCA_FW_CLASSID`: the class of a packet that matches.
    ClassId(TcHandle),
    /// `TCA_FW_POLICE`: what goes, and what becomes of the rest.
    Police(Vec<TcActionPoliceOption>),
    /// `TCA_FW_INDEV`: the name of the interface that packets came in by.
    Indev(String),
    /// `TCA_FW_ACT`: what is done with a packet that matches.
    Action(Vec<TcAction>),
    /// `TCA_FW_MASK`: the mask of the mark that it looks for.
    Mask(u32),
    /// An attribute of another number, as it stands.
    Other(DefaultNla),
}

/// The rows of the table.
macro_rules! rows {
    ($body:ident ($($given:tt)*)) => {
        npr_base::$body!(($($given)*) TcFilterFwOption of TcFilterFw {
            1 ClassId(TcHandle exactly 4);
            2 Police(list TcActionPolice);
            3 Indev(name);
            4 Action(list TcActions);
            5 Mask(le32);
        })
    };
}

impl Nla for TcFilterFwOption {
    ghost shape = { shaped family };

    fn kind(&self) -> u16 {
        rows!(kind_rows(self))
    }

    fn is_nested(&self) -> bool {
        false
    }

    fn check_value(&self) -> Result<usize, EmitError> {
        Ok(rows!(len_rows(self)))
    }

    fn write_value(&self, out: &mut [u8]) -> usize {
        rows!(write_rows(self, out))
    }
}

impl Attribute for TcFilterFwOption {
    type Context = ();

    ghost family = { family };

    ghost shape_is = { λ a. refl };

    #[tactic(auto, unfolding(crate::specs::Fw::attributes))]
    fn read_into<P: Place<Self>>(
        place: &mut P,
        alloc: Global,
        _context: (),
        item: &NlaBuffer<'_>,
        looks: &mut Looks,
    ) -> Result<(), DecodeError> {
        rows!(put_rows(place, alloc, item, looks))
    }

    #[tactic(auto, unfolding(crate::specs::Fw::attributes))]
    fn form(_context: (), number: u16) -> (At, Form) {
        rows!(form_rows(number))
    }

    fn try_clone(&self, alloc: Global) -> Result<Self, AllocError> {
        rows!(clone_rows(self, alloc))
    }
}
