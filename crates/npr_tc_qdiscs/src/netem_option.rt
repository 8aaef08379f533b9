//! The attributes of `netem`: `TCA_NETEM_*` of `linux/pkt_sched.h`.

ghost use Rattle.{npr_base.specs.Tables.{shape_by, shape-by}, npr_tc_qdiscs.specs.NetemOption.{family, table}};

use crate::netem_corr::TcNetemCorr;
use crate::netem_corrupt::TcNetemCorrupt;
use crate::netem_loss::TcNetemLoss;
use crate::netem_rate::TcNetemRate;
use crate::netem_reorder::TcNetemReorder;
use crate::netem_slot::TcNetemSlot;
use npr_base::{
    At, Attribute, DecodeError, DefaultNla, EmitError, Form, Looks, Nla, NlaBuffer, Place,
};
use std::alloc::{AllocError, Global};

/// The attributes of `netem`: `TCA_NETEM_*` of `linux/pkt_sched.h`.
#[derive(Debug, Drop, PartialEq, Eq)]
pub enum TcQdiscNetemOption {
    /// `TCA_NETEM_CORR`: how far one packet is as the last.
    Corr(TcNetemCorr),
    /// `TCA_NETEM_DELAY_DIST`: a table of how the delay varies, signed numbers of 2 bytes.
    DelayDist(Vec<u8>),
    /// `TCA_NETEM_REORDER`: how many go before others.
    Reorder(TcNetemReorder),
    /// `TCA_NETEM_CORRUPT`: how many are damaged.
    Corrupt(TcNetemCorrupt),
    /// `TCA_NETEM_LOSS`: their loss by states.
    Loss(Vec<TcNetemLoss>),
    /// `TCA_NETEM_RATE`: at which rate they go.
    Rate(TcNetemRate),
    /// `TCA_NETEM_ECN`: whether packets are marked where they would be lost: 1 or 0.
    Ecn(u32),
    /// `TCA_NETEM_RATE64`: the rate, in bytes a second, where 4 bytes do not hold it.
    Rate64(u64),
    /// `TCA_NETEM_LATENCY64`: by how much they are delayed, in nanoseconds.
    Latency64(i64),
    /// `TCA_NETEM_JITTER64`: by how much the delay varies, in nanoseconds.
    Jitter64(i64),
    /// `TCA_NETEM_SLOT`: in which slots of time they go.
    Slot(TcNetemSlot),
    /// `TCA_NETEM_SLOT_DIST`: a table of how the time to a slot varies, signed numbers of 2 bytes.
    SlotDist(Vec<u8>),
    /// `TCA_NETEM_PRNG_SEED`: what chance begins with.
    PrngSeed(u64),
    /// An attribute of another number, as it stands.
    Other(DefaultNla),
}

/// The rows of the table.
macro_rules! rows {
    ($body:ident ($($given:tt)*)) => {
        npr_base::$body!(($($given)*) TcQdiscNetemOption of TcQdiscNetem {
            1 Corr(TcNetemCorr leading 12);
            2 DelayDist(raw);
            3 Reorder(TcNetemReorder leading 8);
            4 Corrupt(TcNetemCorrupt leading 8);
            5 Loss(list TcNetemLoss);
            6 Rate(TcNetemRate leading 16);
            7 Ecn(le32);
            8 Rate64(le64);
            10 Latency64(signed64);
            11 Jitter64(signed64);
            12 Slot(TcNetemSlot leading 40);
            13 SlotDist(raw);
            14 PrngSeed(le64);
        })
    };
}

impl Nla for TcQdiscNetemOption {
    ghost shape = { shape_by table };

    fn kind(&self) -> u16 {
        rows!(kind_rows(self))
    }

    fn is_nested(&self) -> bool {
        false
    }

    fn check_value(&self) -> Result<usize, EmitError> {
        Ok(rows!(len_rows(self)))
    }

    fn write_value(&self, out: &mut [u8]) -> usize {
        rows!(write_rows(self, out))
    }
}

impl Attribute for TcQdiscNetemOption {
    type Context = ();

    ghost family = { family };

    ghost shape_is = { shape-by table };

    #[tactic(auto, unfolding(crate::specs::NetemOption::attributes))]
    fn read_into<P: Place<Self>>(
        place: &mut P,
        alloc: Global,
        _context: (),
        item: &NlaBuffer<'_>,
        looks: &mut Looks,
    ) -> Result<(), DecodeError> {
        rows!(put_rows(place, alloc, item, looks))
    }

    #[tactic(auto, unfolding(crate::specs::NetemOption::attributes))]
    fn form(_context: (), number: u16) -> (At, Form) {
        rows!(form_rows(number))
    }

    fn try_clone(&self, alloc: Global) -> Result<Self, AllocError> {
        rows!(clone_rows(self, alloc))
    }
}
