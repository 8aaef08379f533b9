//! The data of a u32 filter: `TCA_U32_*` of `linux/pkt_cls.h`.

ghost use Rattle.std.specs.Prelude.{refl};
ghost use Rattle.{npr_base.specs.Family.{shaped}, npr_tc_filters.specs.U32Option.{family}};

use crate::u32_mark::TcU32Mark;
use crate::u32_option_flags::TcU32OptionFlags;
use crate::u32_pcnt::TcU32Pcnt;
use crate::u32_selector::TcU32Selector;
use bitflags::Flags;
use npr_base::{
    At, Attribute, DecodeError, DefaultNla, EmitError, Form, Looks, Nla, NlaBuffer, Place, put_read,
};
use npr_tc_actions::{TcAction, TcActionPoliceOption};
use npr_tc_values::TcHandle;
use std::alloc::{AllocError, Global};

/// The data of a u32 filter: `TCA_U32_*` of `linux/pkt_cls.h`.
#[derive(Debug, Drop, PartialEq, Eq)]
pub enum TcFilterU32Option {
    /// `TCA_U32_CLASSID`: the class of a packet that matches.
    ClassId(TcHandle),
    /// `TCA_U32_HASH`: the table that it stands in.
    Hash(u32),
    /// `TCA_U32_LINK`: the table that is asked next.
    Link(u32),
    /// `TCA_U32_DIVISOR`: how many lists a table has.
    Divisor(u32),
    /// `TCA_U32_SEL`: what it looks for.
    Selector(TcU32Selector),
    /// `TCA_U32_POLICE`: what goes, and what becomes of the rest, as older kernels have it.
    Police(Vec<TcActionPoliceOption>),
    /// `TCA_U32_ACT`: what is done with a packet that matches.
    Action(Vec<TcAction>),
    /// `TCA_U32_INDEV`: the name of the interface that packets came in by.
    Indev(String),
    /// `TCA_U32_PCNT`: how often it matched.
    Pnct(TcU32Pcnt),
    /// `TCA_U32_MARK`: the mark of packets that it asks for.
    Mark(TcU32Mark),
    /// `TCA_U32_FLAGS`: what devices do with it.
    Flags(TcU32OptionFlags),
    /// An attribute of another number, as it stands.
    Other(DefaultNla),
}

/// The rows of the table.
macro_rules! rows {
    ($body:ident ($($given:tt)*)) => {
        npr_base::$body!(($($given)*) TcFilterU32Option of TcFilterU32 {
            1 ClassId(TcHandle exactly 4);
            2 Hash(le32);
            3 Link(le32);
            4 Divisor(le32);
            6 Police(list TcActionPolice);
            7 Action(list TcActions);
            8 Indev(name);
            9 Pnct(TcU32Pcnt value raw);
            10 Mark(TcU32Mark leading 12);
            11 Flags(TcU32OptionFlags flags le32);
        })
    };
}

impl Nla for TcFilterU32Option {
    ghost shape = { shaped family };

    fn kind(&self) -> u16 {
        rows!(kind_rows(self; TcFilterU32Option::Selector(_) => 5,))
    }

    fn is_nested(&self) -> bool {
        false
    }

    fn check_value(&self) -> Result<usize, EmitError> {
        Ok(rows!(len_rows(self; TcFilterU32Option::Selector(x) => x.len(),)))
    }

    fn write_value(&self, out: &mut [u8]) -> usize {
        rows!(write_rows(self, out; TcFilterU32Option::Selector(x) => x.write(out),))
    }
}

impl Attribute for TcFilterU32Option {
    type Context = ();

    ghost family = { family };

    ghost shape_is = { λ a. refl };

    #[tactic(auto, unfolding(crate::specs::U32Option::attributes))]
    fn read_into<P: Place<Self>>(
        place: &mut P,
        alloc: Global,
        _context: (),
        item: &NlaBuffer<'_>,
        looks: &mut Looks,
    ) -> Result<(), DecodeError> {
        rows!(put_rows(place, alloc, item, looks; 5 => put_read(place, TcU32Selector::parse(alloc, item.value()), TcFilterU32Option::Selector),))
    }

    #[tactic(auto, unfolding(crate::specs::U32Option::attributes))]
    fn form(_context: (), number: u16) -> (At, Form) {
        rows!(form_rows(number; 5 => Form::Leading(16),))
    }

    fn try_clone(&self, alloc: Global) -> Result<Self, AllocError> {
        rows!(clone_rows(self, alloc; TcFilterU32Option::Selector(x) => x.try_clone(alloc).map(TcFilterU32Option::Selector),))
    }
}
