//! What is said of an action that edits packets: `TCA_PEDIT_*` of `linux/tc_act/tc_pedit.h`.

ghost use Rattle.std.specs.Prelude.{refl};
ghost use Rattle.{npr_base.specs.Family.{shaped}, npr_tc_actions.specs.PeditOption.{family}};

use crate::pedit_keys_ex::TcPeditKeysEx;
use crate::pedit_selector::TcPeditSelector;
use crate::tcf::Tcf;
use npr_base::{
    At, Attribute, DecodeError, DefaultNla, EmitError, Form, Looks, Nla, NlaBuffer, Place, put_read,
};
use std::alloc::{AllocError, Global};

/// An action that edits packets, by its name.
pub struct TcActionPedit {}

impl TcActionPedit {
    /// The name of its kind.
    pub const KIND: &'static str = "pedit";
}

/// What is said of an action that edits packets: `TCA_PEDIT_*` of `linux/tc_act/tc_pedit.h`.
#[derive(Debug, Drop, PartialEq, Eq)]
pub enum TcActionPeditOption {
    /// `TCA_PEDIT_TM`: when it was made and used.
    Tm(Tcf),
    /// `TCA_PEDIT_PARMS`: what it changes, where nothing more is said of the keys.
    Parms(TcPeditSelector),
    /// `TCA_PEDIT_PARMS_EX`: what it changes, where more is said of the keys.
    ParmsEx(TcPeditSelector),
    /// `TCA_PEDIT_KEYS_EX`: what more is said of the keys, in their order.
    KeysEx(Vec<TcPeditKeysEx>),
    /// An attribute of another number, as it stands.
    Other(DefaultNla),
}

/// The rows of the table.
macro_rules! rows {
    ($body:ident ($($given:tt)*)) => {
        npr_base::$body!(($($given)*) TcActionPeditOption of TcActionPedit {
            1 Tm(Tcf leading 32);
            5 KeysEx(list TcPeditKeysEx);
        })
    };
}

impl Nla for TcActionPeditOption {
    ghost shape = { shaped family };

    fn kind(&self) -> u16 {
        rows!(kind_rows(self;
            TcActionPeditOption::Parms(_) => 2,
            TcActionPeditOption::ParmsEx(_) => 4,
        ))
    }

    fn is_nested(&self) -> bool {
        false
    }

    fn check_value(&self) -> Result<usize, EmitError> {
        Ok(rows!(len_rows(self;
            TcActionPeditOption::Parms(x) => x.len(),
            TcActionPeditOption::ParmsEx(x) => x.len(),
        )))
    }

    fn write_value(&self, out: &mut [u8]) -> usize {
        rows!(write_rows(self, out;
            TcActionPeditOption::Parms(x) => x.write(out),
            TcActionPeditOption::ParmsEx(x) => x.write(out),
        ))
    }
}

impl Attribute for TcActionPeditOption {
    type Context = ();

    ghost family = { family };

    ghost shape_is = { λ a. refl };

    #[tactic(auto, unfolding(crate::specs::PeditOption::attributes))]
    fn read_into<P: Place<Self>>(
        place: &mut P,
        alloc: Global,
        _context: (),
        item: &NlaBuffer<'_>,
        looks: &mut Looks,
    ) -> Result<(), DecodeError> {
        rows!(put_rows(place, alloc, item, looks;
            2 => put_read(place, TcPeditSelector::parse(alloc, item.value()), TcActionPeditOption::Parms),
            4 => put_read(place, TcPeditSelector::parse(alloc, item.value()), TcActionPeditOption::ParmsEx),
        ))
    }

    #[tactic(auto, unfolding(crate::specs::PeditOption::attributes))]
    fn form(_context: (), number: u16) -> (At, Form) {
        rows!(form_rows(number; 2 => Form::Leading(24), 4 => Form::Leading(24),))
    }

    fn try_clone(&self, alloc: Global) -> Result<Self, AllocError> {
        rows!(clone_rows(self, alloc;
            TcActionPeditOption::Parms(x) => x.try_clone(alloc).map(TcActionPeditOption::Parms),
            TcActionPeditOption::ParmsEx(x) => x.try_clone(alloc).map(TcActionPeditOption::ParmsEx),
        ))
    }
}
