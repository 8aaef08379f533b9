//! What is said of an action that changes what is kept of a packet: `TCA_SKBEDIT_*` of `linux/tc_act/tc_skbedit.h`.

ghost use Rattle.std.specs.Prelude.{refl};
ghost use Rattle.{npr_base.specs.Family.{shaped}, npr_tc_actions.specs.SkbeditOption.{family}};

use crate::generic::TcActionGeneric;
use crate::tcf::Tcf;
use npr_base::{
    At, Attribute, DecodeError, DefaultNla, EmitError, Form, Looks, Nla, NlaBuffer, Place,
};
use npr_tc_values::TcHandle;
use std::alloc::{AllocError, Global};

/// An action that changes what is kept of a packet, by its name.
pub struct TcActionSkbedit {}

impl TcActionSkbedit {
    /// The name of its kind.
    pub const KIND: &'static str = "skbedit";
}

/// What is said of an action that changes what is kept of a packet: `TCA_SKBEDIT_*` of `linux/tc_act/tc_skbedit.h`.
#[derive(Debug, Drop, PartialEq, Eq)]
pub enum TcActionSkbeditOption {
    /// `TCA_SKBEDIT_TM`: when it was made and used.
    Tm(Tcf),
    /// `TCA_SKBEDIT_PARMS`: what every action has.
    Parms(TcActionGeneric),
    /// `TCA_SKBEDIT_PRIORITY`: its priority, or the class that it goes to.
    Priority(TcHandle),
    /// `TCA_SKBEDIT_QUEUE_MAPPING`: the queue.
    QueueMapping(u16),
    /// `TCA_SKBEDIT_MARK`: its mark.
    Mark(u32),
    /// `TCA_SKBEDIT_PTYPE`: whom it is for: `PACKET_*` of `linux/if_packet.h`.
    Ptype(u16),
    /// `TCA_SKBEDIT_MASK`: the mask of the mark.
    Mask(u32),
    /// `TCA_SKBEDIT_FLAGS`: `SKBEDIT_F_*`.
    Flags(u64),
    /// `TCA_SKBEDIT_QUEUE_MAPPING_MAX`: the last of the queues.
    QueueMappingMax(u16),
    /// An attribute of another number, as it stands.
    Other(DefaultNla),
}

/// The rows of the table.
macro_rules! rows {
    ($body:ident ($($given:tt)*)) => {
        npr_base::$body!(($($given)*) TcActionSkbeditOption of TcActionSkbedit {
            1 Tm(Tcf leading 32);
            2 Parms(TcActionGeneric leading 20);
            3 Priority(TcHandle exactly 4);
            4 QueueMapping(le16);
            5 Mark(le32);
            7 Ptype(le16);
            8 Mask(le32);
            9 Flags(le64);
            10 QueueMappingMax(le16);
        })
    };
}

impl Nla for TcActionSkbeditOption {
    ghost shape = { shaped family };

    fn kind(&self) -> u16 {
        rows!(kind_rows(self))
    }

    fn is_nested(&self) -> bool {
        false
    }

    fn check_value(&self) -> Result<usize, EmitError> {
        Ok(rows!(len_rows(self)))
    }

    fn write_value(&self, out: &mut [u8]) -> usize {
        rows!(write_rows(self, out))
    }
}

impl Attribute for TcActionSkbeditOption {
    type Context = ();

    ghost family = { family };

    ghost shape_is = { λ a. refl };

    #[tactic(auto, unfolding(crate::specs::SkbeditOption::attributes))]
    fn read_into<P: Place<Self>>(
        place: &mut P,
        alloc: Global,
        _context: (),
        item: &NlaBuffer<'_>,
        looks: &mut Looks,
    ) -> Result<(), DecodeError> {
        rows!(put_rows(place, alloc, item, looks))
    }

    #[tactic(auto, unfolding(crate::specs::SkbeditOption::attributes))]
    fn form(_context: (), number: u16) -> (At, Form) {
        rows!(form_rows(number))
    }

    fn try_clone(&self, alloc: Global) -> Result<Self, AllocError> {
        rows!(clone_rows(self, alloc))
    }
}
