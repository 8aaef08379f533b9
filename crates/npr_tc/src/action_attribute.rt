//! The attributes of a message of actions: `TCA_ROOT_*` of `linux/rtnetlink.h`.

ghost use Rattle.std.specs.Prelude.{refl};
ghost use Rattle.{npr_base.specs.Family.{shaped}, npr_tc.specs.ActionAttribute.{family}};

use crate::action_flags::TcActionMessageFlagsWithSelector;
use npr_base::{
    At, Attribute, DecodeError, DefaultNla, EmitError, Form, Looks, Nla, NlaBuffer, Place,
};
use npr_tc_actions::TcAction;
use std::alloc::{AllocError, Global};

/// An attribute of a message of actions.
#[derive(Debug, Drop, PartialEq, Eq)]
pub enum TcActionMessageAttribute {
    /// `TCA_ROOT_TAB`: the actions.
    Actions(Vec<TcAction>),
    /// `TCA_ROOT_FLAGS`: what is asked of a dump.
    Flags(TcActionMessageFlagsWithSelector),
    /// `TCA_ROOT_COUNT`: how many actions the message has.
    RootCount(u32),
    /// `TCA_ROOT_TIME_DELTA`: those alone that were used in so many milliseconds.
    RootTimeDelta(u32),
    /// `TCA_ROOT_EXT_WARN_MSG`: a warning of the kernel.
    RootExtWarnMsg(String),
    /// An attribute of another number, as it stands.
    Other(DefaultNla),
}

/// The rows of the table.
macro_rules! rows {
    ($body:ident ($($given:tt)*)) => {
        npr_base::$body!(($($given)*) TcActionMessageAttribute of TcActionMessage {
            1 Actions(list TcActions);
            2 Flags(TcActionMessageFlagsWithSelector exactly 8);
            3 RootCount(le32);
            4 RootTimeDelta(le32);
            5 RootExtWarnMsg(name);
        })
    };
}

impl Nla for TcActionMessageAttribute {
    ghost shape = { shaped family };

    fn kind(&self) -> u16 {
        rows!(kind_rows(self))
    }

    fn is_nested(&self) -> bool {
        false
    }

    fn check_value(&self) -> Result<usize, EmitError> {
        Ok(rows!(len_rows(self)))
    }

    fn write_value(&self, out: &mut [u8]) -> usize {
        rows!(write_rows(self, out))
    }
}

impl Attribute for TcActionMessageAttribute {
    type Context = ();

    ghost family = { family };

    ghost shape_is = { λ a. refl };

    #[tactic(auto, unfolding(crate::specs::ActionAttribute::attributes))]
    fn read_into<P: Place<Self>>(
        place: &mut P,
        alloc: Global,
        _context: (),
        item: &NlaBuffer<'_>,
        looks: &mut Looks,
    ) -> Result<(), DecodeError> {
        rows!(put_rows(place, alloc, item, looks))
    }

    #[tactic(auto, unfolding(crate::specs::ActionAttribute::attributes))]
    fn form(_context: (), number: u16) -> (At, Form) {
        rows!(form_rows(number))
    }

    fn try_clone(&self, alloc: Global) -> Result<Self, AllocError> {
        rows!(clone_rows(self, alloc))
    }
}
