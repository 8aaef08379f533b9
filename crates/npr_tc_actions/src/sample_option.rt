//! What is said of an action that samples packets: `TCA_SAMPLE_*` of `linux/tc_act/tc_sample.h`.

ghost use Rattle.std.specs.Prelude.{refl};
ghost use Rattle.{npr_base.specs.Family.{shaped}, npr_tc_actions.specs.SampleOption.{family}};

use crate::generic::TcActionGeneric;
use crate::tcf::Tcf;
use npr_base::{
    At, Attribute, DecodeError, DefaultNla, EmitError, Form, Looks, Nla, NlaBuffer, Place,
};
use std::alloc::{AllocError, Global};

/// An action that samples packets, by its name.
pub struct TcActionSample {}

impl TcActionSample {
    /// The name of its kind.
    pub const KIND: &'static str = "sample";
}

/// What is said of an action that samples packets: `TCA_SAMPLE_*` of `linux/tc_act/tc_sample.h`.
#[derive(Debug, Drop, PartialEq, Eq)]
pub enum TcActionSampleOption {
    /// `TCA_SAMPLE_TM`: when it was made and used.
    Tm(Tcf),
    /// `TCA_SAMPLE_PARMS`: what every action has.
    Parms(TcActionGeneric),
    /// `TCA_SAMPLE_RATE`: one in so many.
    Rate(u32),
    /// `TCA_SAMPLE_TRUNC_SIZE`: how many bytes of it are told at most.
    TruncSize(u32),
    /// `TCA_SAMPLE_PSAMPLE_GROUP`: the group of listeners.
    PsampleGroup(u32),
    /// An attribute of another number, as it stands.
    Other(DefaultNla),
}

/// The rows of the table.
macro_rules! rows {
    ($body:ident ($($given:tt)*)) => {
        npr_base::$body!(($($given)*) TcActionSampleOption of TcActionSample {
            1 Tm(Tcf leading 32);
            2 Parms(TcActionGeneric leading 20);
            3 Rate(le32);
            4 TruncSize(le32);
            5 PsampleGroup(le32);
        })
    };
}

impl Nla for TcActionSampleOption {
    ghost shape = { shaped family };

    fn kind(&self) -> u16 {
        rows!(kind_rows(self))
    }

    fn is_nested(&self) -> bool {
        false
    }

    fn check_value(&self) -> Result<usize, EmitError> {
        Ok(rows!(len_rows(self)))
    }

    fn write_value(&self, out: &mut [u8]) -> usize {
        rows!(write_rows(self, out))
    }
}

impl Attribute for TcActionSampleOption {
    type Context = ();

    ghost family = { family };

    ghost shape_is = { λ a. refl };

    #[tactic(auto, unfolding(crate::specs::SampleOption::attributes))]
    fn read_into<P: Place<Self>>(
        place: &mut P,
        alloc: Global,
        _context: (),
        item: &NlaBuffer<'_>,
        looks: &mut Looks,
    ) -> Result<(), DecodeError> {
        rows!(put_rows(place, alloc, item, looks))
    }

    #[tactic(auto, unfolding(crate::specs::SampleOption::attributes))]
    fn form(_context: (), number: u16) -> (At, Form) {
        rows!(form_rows(number))
    }

    fn try_clone(&self, alloc: Global) -> Result<Self, AllocError> {
        rows!(clone_rows(self, alloc))
    }
}
