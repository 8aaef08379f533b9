//! The data of `tbf`: `TCA_TBF_*` of `linux/pkt_sched.h`.

ghost use Rattle.std.specs.Prelude.{refl};
ghost use Rattle.{npr_base.specs.Family.{shaped}, npr_tc_qdiscs.specs.Tbf.{family}};

use crate::tbf_qopt::TcTbfQopt;
use npr_base::{
    At, Attribute, DecodeError, DefaultNla, EmitError, Form, Looks, Nla, NlaBuffer, Place,
};
use std::alloc::{AllocError, Global};

/// The data of `tbf`: `TCA_TBF_*` of `linux/pkt_sched.h`.
#[derive(Debug, Drop, PartialEq, Eq)]
pub enum TcQdiscTbfOption {
    /// `TCA_TBF_PARMS`: what it lets through.
    Parms(TcTbfQopt),
    /// `TCA_TBF_RTAB`: the times of sizes at the rate, 256 numbers of 4 bytes; kernels have their own.
    Rtab(Vec<u8>),
    /// `TCA_TBF_PTAB`: those at the peak rate.
    Ptab(Vec<u8>),
    /// `TCA_TBF_RATE64`: the rate, in bytes a second, where 4 bytes do not hold it.
    Rate64(u64),
    /// `TCA_TBF_PRATE64`: the peak rate, likewise.
    Prate64(u64),
    /// `TCA_TBF_BURST`: how many bytes may go at once.
    Burst(u32),
    /// `TCA_TBF_PBURST`: how many may at the peak rate.
    Pburst(u32),
    /// An attribute of another number, as it stands.
    Other(DefaultNla),
}

/// The rows of the table.
macro_rules! rows {
    ($body:ident ($($given:tt)*)) => {
        npr_base::$body!(($($given)*) TcQdiscTbfOption of TcQdiscTbf {
            1 Parms(TcTbfQopt leading 36);
            2 Rtab(raw);
            3 Ptab(raw);
            4 Rate64(le64);
            5 Prate64(le64);
            6 Burst(le32);
            7 Pburst(le32);
        })
    };
}

impl Nla for TcQdiscTbfOption {
    ghost shape = { shaped family };

    fn kind(&self) -> u16 {
        rows!(kind_rows(self))
    }

    fn is_nested(&self) -> bool {
        false
    }

    fn check_value(&self) -> Result<usize, EmitError> {
        Ok(rows!(len_rows(self)))
    }

    fn write_value(&self, out: &mut [u8]) -> usize {
        rows!(write_rows(self, out))
    }
}

impl Attribute for TcQdiscTbfOption {
    type Context = ();

    ghost family = { family };

    ghost shape_is = { λ a. refl };

    #[tactic(auto, unfolding(crate::specs::Tbf::attributes))]
    fn read_into<P: Place<Self>>(
        place: &mut P,
        alloc: Global,
        _context: (),
        item: &NlaBuffer<'_>,
        looks: &mut Looks,
    ) -> Result<(), DecodeError> {
        rows!(put_rows(place, alloc, item, looks))
    }

    #[tactic(auto, unfolding(crate::specs::Tbf::attributes))]
    fn form(_context: (), number: u16) -> (At, Form) {
        rows!(form_rows(number))
    }

    fn try_clone(&self, alloc: Global) -> Result<Self, AllocError> {
        rows!(clone_rows(self, alloc))
    }
}
