//! The data of `fq_codel`: `TCA_FQ_CODEL_*` of `linux/pkt_sched.h`.

ghost use Rattle.std.specs.Prelude.{refl};
ghost use Rattle.{npr_base.specs.Family.{shaped}, npr_tc_qdiscs.specs.FqCodel.{family}};

use npr_base::{
    At, Attribute, DecodeError, DefaultNla, EmitError, Form, Looks, Nla, NlaBuffer, Place,
};
use std::alloc::{AllocError, Global};

/// The data of `fq_codel`: `TCA_FQ_CODEL_*` of `linux/pkt_sched.h`.
#[derive(Debug, Drop, PartialEq, Eq)]
pub enum TcQdiscFqCodelOption {
    /// `TCA_FQ_CODEL_TARGET`: how long a packet may wait, in microseconds.
    Target(u32),
    /// `TCA_FQ_CODEL_LIMIT`: how many packets may wait.
    Limit(u32),
    /// `TCA_FQ_CODEL_INTERVAL`: over how long the shortest wait is looked for, in microseconds.
    Interval(u32),
    /// `TCA_FQ_CODEL_ECN`: whether packets are marked where they would be dropped; 1 or 0.
    Ecn(u32),
    /// `TCA_FQ_CODEL_FLOWS`: how many flows are told apart.
    Flows(u32),
    /// `TCA_FQ_CODEL_QUANTUM`: how many bytes a flow may send in a turn.
    Quantum(u32),
    /// `TCA_FQ_CODEL_CE_THRESHOLD`: packets that waited longer are marked, in microseconds.
    CeThreshold(u32),
    /// `TCA_FQ_CODEL_DROP_BATCH_SIZE`: how many packets are dropped at once.
    DropBatchSize(u32),
    /// `TCA_FQ_CODEL_MEMORY_LIMIT`: how much memory the packets may take, in bytes.
    MemoryLimit(u32),
    /// `TCA_FQ_CODEL_CE_THRESHOLD_SELECTOR`: what the masked field of a packet is to be, for the threshold to hold for it.
    CeThresholdSelector(u8),
    /// `TCA_FQ_CODEL_CE_THRESHOLD_MASK`: the mask of that field.
    CeThresholdMask(u8),
    /// An attribute of another number, as it stands.
    Other(DefaultNla),
}

/// The rows of the table.
macro_rules! rows {
    ($body:ident ($($given:tt)*)) => {
        npr_base::$body!(($($given)*) TcQdiscFqCodelOption of TcQdiscFqCodel {
            1 Target(le32);
            2 Limit(le32);
            3 Interval(le32);
            4 Ecn(le32);
            5 Flows(le32);
            6 Quantum(le32);
            7 CeThreshold(le32);
            8 DropBatchSize(le32);
            9 MemoryLimit(le32);
            10 CeThresholdSelector(byte);
            11 CeThresholdMask(byte);
        })
    };
}

impl Nla for TcQdiscFqCodelOption {
    ghost shape = { shaped family };

    fn kind(&self) -> u16 {
        rows!(kind_rows(self))
    }

    fn is_nested(&self) -> bool {
        false
    }

    fn check_value(&self) -> Result<usize, EmitError> {
        Ok(rows!(len_rows(self)))
    }

    fn write_value(&self, out: &mut [u8]) -> usize {
        rows!(write_rows(self, out))
    }
}

impl Attribute for TcQdiscFqCodelOption {
    type Context = ();

    ghost family = { family };

    ghost shape_is = { λ a. refl };

    #[tactic(auto, unfolding(crate::specs::FqCodel::attributes))]
    fn read_into<P: Place<Self>>(
        place: &mut P,
        alloc: Global,
        _context: (),
        item: &NlaBuffer<'_>,
        looks: &mut Looks,
    ) -> Result<(), DecodeError> {
        rows!(put_rows(place, alloc, item, looks))
    }

    #[tactic(auto, unfolding(crate::specs::FqCodel::attributes))]
    fn form(_context: (), number: u16) -> (At, Form) {
        rows!(form_rows(number))
    }

    fn try_clone(&self, alloc: Global) -> Result<Self, AllocError> {
        rows!(clone_rows(self, alloc))
    }
}
