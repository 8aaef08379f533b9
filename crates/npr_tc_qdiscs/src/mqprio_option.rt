//! The attributes of `mqprio`: `TCA_MQPRIO_*` of `linux/pkt_sched.h`.

ghost use Rattle.std.specs.Prelude.{refl};
ghost use Rattle.{npr_base.specs.Family.{shaped}, npr_tc_qdiscs.specs.MqprioOption.{family}};

use crate::mqprio_entry::TcMqprioEntry;
use npr_base::{
    At, Attribute, DecodeError, DefaultNla, EmitError, Form, Looks, NLA_F_NESTED, Nla, NlaBuffer,
    Place,
};
use std::alloc::{AllocError, Global};

/// The attributes of `mqprio`: `TCA_MQPRIO_*` of `linux/pkt_sched.h`.
#[derive(Debug, Drop, PartialEq, Eq)]
pub enum TcQdiscMqprioOption {
    /// `TCA_MQPRIO_MODE`: who gives queues to packets: `TC_MQPRIO_MODE_*`.
    Mode(u16),
    /// `TCA_MQPRIO_SHAPER`: how rates are kept: `TC_MQPRIO_SHAPER_*`.
    Shaper(u16),
    /// `TCA_MQPRIO_MIN_RATE64`: the rate of each class of traffic at least: attributes of 8 bytes.
    MinRate64(Vec<u8>),
    /// `TCA_MQPRIO_MAX_RATE64`: and at most.
    MaxRate64(Vec<u8>),
    /// `TCA_MQPRIO_TC_ENTRY`: what one class of traffic has. It is written with NESTED.
    TcEntry(Vec<TcMqprioEntry>),
    /// An attribute of another number, as it stands.
    Other(DefaultNla),
}

/// The rows of the table.
macro_rules! rows {
    ($body:ident ($($given:tt)*)) => {
        npr_base::$body!(($($given)*) TcQdiscMqprioOption of TcQdiscMqprio {
            1 Mode(le16);
            2 Shaper(le16);
            3 MinRate64(raw);
            4 MaxRate64(raw);
            5 TcEntry(list TcMqprioEntry) as NLA_F_NESTED + 5;
        })
    };
}

impl Nla for TcQdiscMqprioOption {
    ghost shape = { shaped family };

    fn kind(&self) -> u16 {
        rows!(kind_rows(self))
    }

    fn is_nested(&self) -> bool {
        false
    }

    fn check_value(&self) -> Result<usize, EmitError> {
        Ok(rows!(len_rows(self)))
    }

    fn write_value(&self, out: &mut [u8]) -> usize {
        rows!(write_rows(self, out))
    }
}

impl Attribute for TcQdiscMqprioOption {
    type Context = ();

    ghost family = { family };

    ghost shape_is = { λ a. refl };

    #[tactic(auto, unfolding(crate::specs::MqprioOption::attributes))]
    fn read_into<P: Place<Self>>(
        place: &mut P,
        alloc: Global,
        _context: (),
        item: &NlaBuffer<'_>,
        looks: &mut Looks,
    ) -> Result<(), DecodeError> {
        rows!(put_rows(place, alloc, item, looks))
    }

    #[tactic(auto, unfolding(crate::specs::MqprioOption::attributes))]
    fn form(_context: (), number: u16) -> (At, Form) {
        rows!(form_rows(number))
    }

    fn try_clone(&self, alloc: Global) -> Result<Self, AllocError> {
        rows!(clone_rows(self, alloc))
    }
}
