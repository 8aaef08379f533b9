//! What is said of an action that holds packets to a rate: `TCA_POLICE_*` of `linux/pkt_cls.h`.

ghost use Rattle.std.specs.Prelude.{refl};
ghost use Rattle.{npr_base.specs.Family.{shaped}, npr_tc_actions.specs.PoliceOption.{family}};

use crate::action_type::TcActionType;
use crate::police::TcPolice;
use crate::tcf::Tcf;
use npr_base::{
    At, Attribute, DecodeError, DefaultNla, EmitError, Form, Looks, Nla, NlaBuffer, Place,
};
use std::alloc::{AllocError, Global};

/// An action that holds packets to a rate, by its name.
pub struct TcActionPolice {}

impl TcActionPolice {
    /// The name of its kind.
    pub const KIND: &'static str = "police";
}

/// What is said of an action that holds packets to a rate: `TCA_POLICE_*` of `linux/pkt_cls.h`.
#[derive(Debug, Drop, PartialEq, Eq)]
pub enum TcActionPoliceOption {
    /// `TCA_POLICE_TBF`: how much it lets through.
    Tbf(TcPolice),
    /// `TCA_POLICE_RATE`: the times of sizes at the rate, 256 numbers of 4 bytes; kernels have their
    /// own.
    Rate(Vec<u8>),
    /// `TCA_POLICE_PEAKRATE`: those at the peak rate.
    Peakrate(Vec<u8>),
    /// `TCA_POLICE_AVRATE`: the mean rate above which packets do not go, in bytes a second.
    Avrate(u32),
    /// `TCA_POLICE_RESULT`: what becomes of a packet that goes.
    Result(TcActionType),
    /// `TCA_POLICE_TM`: when it was made and used.
    Tm(Tcf),
    /// `TCA_POLICE_RATE64`: the rate, in bytes a second, where 4 bytes do not hold it.
    Rate64(u64),
    /// `TCA_POLICE_PEAKRATE64`: the peak rate, likewise.
    Peakrate64(u64),
    /// `TCA_POLICE_PKTRATE64`: how many packets go in a second.
    Pktrate64(u64),
    /// `TCA_POLICE_PKTBURST64`: for how long packets may go at once, in ticks.
    Pktburst64(u64),
    /// An attribute of another number, as it stands.
    Other(DefaultNla),
}

/// The rows of the table.
macro_rules! rows {
    ($body:ident ($($given:tt)*)) => {
        npr_base::$body!(($($given)*) TcActionPoliceOption of TcActionPolice {
            1 Tbf(TcPolice leading 56);
            2 Rate(raw);
            3 Peakrate(raw);
            4 Avrate(le32);
            5 Result(TcActionType as signed32);
            6 Tm(Tcf leading 32);
            8 Rate64(le64);
            9 Peakrate64(le64);
            10 Pktrate64(le64);
            11 Pktburst64(le64);
        })
    };
}

impl Nla for TcActionPoliceOption {
    ghost shape = { shaped family };

    fn kind(&self) -> u16 {
        rows!(kind_rows(self))
    }

    fn is_nested(&self) -> bool {
        false
    }

    fn check_value(&self) -> Result<usize, EmitError> {
        Ok(rows!(len_rows(self)))
    }

    fn write_value(&self, out: &mut [u8]) -> usize {
        rows!(write_rows(self, out))
    }
}

impl Attribute for TcActionPoliceOption {
    type Context = ();

    ghost family = { family };

    ghost shape_is = { λ a. refl };

    #[tactic(auto, unfolding(crate::specs::PoliceOption::attributes))]
    fn read_into<P: Place<Self>>(
        place: &mut P,
        alloc: Global,
        _context: (),
        item: &NlaBuffer<'_>,
        looks: &mut Looks,
    ) -> Result<(), DecodeError> {
        rows!(put_rows(place, alloc, item, looks))
    }

    #[tactic(auto, unfolding(crate::specs::PoliceOption::attributes))]
    fn form(_context: (), number: u16) -> (At, Form) {
        rows!(form_rows(number))
    }

    fn try_clone(&self, alloc: Global) -> Result<Self, AllocError> {
        rows!(clone_rows(self, alloc))
    }
}
