//! The data of `htb`: `TCA_HTB_*` of `linux/pkt_sched.h`.

ghost use Rattle.std.specs.Prelude.{refl};
ghost use Rattle.{npr_base.specs.Family.{shaped}, npr_tc_qdiscs.specs.Htb.{family}};

use crate::htb_glob::TcHtbGlob;
use crate::htb_opt::TcHtbOpt;
use npr_base::{
    At, Attribute, DecodeError, DefaultNla, EmitError, Form, Looks, Nla, NlaBuffer, Place,
};
use std::alloc::{AllocError, Global};

/// The data of `htb`: `TCA_HTB_*` of `linux/pkt_sched.h`.
#[derive(Debug, Drop, PartialEq, Eq)]
pub enum TcQdiscHtbOption {
    /// `TCA_HTB_PARMS`: what a class may send.
    Parms(TcHtbOpt),
    /// `TCA_HTB_INIT`: what holds for all classes.
    Init(TcHtbGlob),
    /// `TCA_HTB_CTAB`: the times of sizes at the rate up to which it borrows, 256 numbers of 4 bytes;
    /// kernels have their own.
    Ctab(Vec<u8>),
    /// `TCA_HTB_RTAB`: those at its rate.
    Rtab(Vec<u8>),
    /// `TCA_HTB_DIRECT_QLEN`: how many packets without a class may wait.
    DirectQlen(u32),
    /// `TCA_HTB_RATE64`: the rate, in bytes a second, where 4 bytes do not hold it.
    Rate64(u64),
    /// `TCA_HTB_CEIL64`: the rate up to which it borrows, likewise.
    Ceil64(u64),
    /// `TCA_HTB_OFFLOAD`: a device does it.
    Offload,
    /// An attribute of another number, as it stands.
    Other(DefaultNla),
}

/// The rows of the table.
macro_rules! rows {
    ($body:ident ($($given:tt)*)) => {
        npr_base::$body!(($($given)*) TcQdiscHtbOption of TcQdiscHtb {
            1 Parms(TcHtbOpt leading 44);
            2 Init(TcHtbGlob leading 20);
            3 Ctab(raw);
            4 Rtab(raw);
            5 DirectQlen(le32);
            6 Rate64(le64);
            7 Ceil64(le64);
            9 Offload;
        })
    };
}

impl Nla for TcQdiscHtbOption {
    ghost shape = { shaped family };

    fn kind(&self) -> u16 {
        rows!(kind_rows(self))
    }

    fn is_nested(&self) -> bool {
        false
    }

    fn check_value(&self) -> Result<usize, EmitError> {
        Ok(rows!(len_rows(self)))
    }

    fn write_value(&self, out: &mut [u8]) -> usize {
        rows!(write_rows(self, out))
    }
}

impl Attribute for TcQdiscHtbOption {
    type Context = ();

    ghost family = { family };

    ghost shape_is = { λ a. refl };

    #[tactic(auto, unfolding(crate::specs::Htb::attributes))]
    fn read_into<P: Place<Self>>(
        place: &mut P,
        alloc: Global,
        _context: (),
        item: &NlaBuffer<'_>,
        looks: &mut Looks,
    ) -> Result<(), DecodeError> {
        rows!(put_rows(place, alloc, item, looks))
    }

    #[tactic(auto, unfolding(crate::specs::Htb::attributes))]
    fn form(_context: (), number: u16) -> (At, Form) {
        rows!(form_rows(number))
    }

    fn try_clone(&self, alloc: Global) -> Result<Self, AllocError> {
        rows!(clone_rows(self, alloc))
    }
}
