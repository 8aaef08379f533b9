//! The data of `fq`: `TCA_FQ_*` of `linux/pkt_sched.h`.

ghost use Rattle.{npr_base.specs.Tables.{shape_by, shape-by}, npr_tc_qdiscs.specs.Fq.{family, table}};

use crate::fq_weights::TcFqWeights;
use crate::prio_qopt::TcPrioQopt;
use npr_base::{
    At, Attribute, DecodeError, DefaultNla, EmitError, Form, Looks, Nla, NlaBuffer, Place,
};
use std::alloc::{AllocError, Global};

/// The data of `fq`: `TCA_FQ_*` of `linux/pkt_sched.h`.
#[derive(Debug, Drop, PartialEq, Eq)]
pub enum TcQdiscFqOption {
    /// `TCA_FQ_PLIMIT`: how many packets may wait.
    Plimit(u32),
    /// `TCA_FQ_FLOW_PLIMIT`: how many of one flow may.
    FlowPlimit(u32),
    /// `TCA_FQ_QUANTUM`: how many bytes a flow may send in a turn.
    Quantum(u32),
    /// `TCA_FQ_INITIAL_QUANTUM`: how many a new one may.
    InitialQuantum(u32),
    /// `TCA_FQ_RATE_ENABLE`: whether flows keep to their rates: 1 or 0.
    RateEnable(u32),
    /// `TCA_FQ_FLOW_DEFAULT_RATE`: the rate of a flow without one; kernels do not look at it.
    FlowDefaultRate(u32),
    /// `TCA_FQ_FLOW_MAX_RATE`: the rate that no flow passes, in bytes a second; the greatest number for
    /// none.
    FlowMaxRate(u32),
    /// `TCA_FQ_BUCKETS_LOG`: how many lists of flows there are: the logarithm.
    BucketsLog(u32),
    /// `TCA_FQ_FLOW_REFILL_DELAY`: after how long a flow has its first quantum again, in microseconds.
    FlowRefillDelay(u32),
    /// `TCA_FQ_ORPHAN_MASK`: which bits of their hash tell packets without a socket apart.
    OrphanMask(u32),
    /// `TCA_FQ_LOW_RATE_THRESHOLD`: below which rate a packet waits for its time alone, in bytes a
    /// second.
    LowRateThreshold(u32),
    /// `TCA_FQ_CE_THRESHOLD`: packets that waited longer are marked, in microseconds.
    CeThreshold(u32),
    /// `TCA_FQ_TIMER_SLACK`: by how much a timer may be late, in nanoseconds.
    TimerSlack(u32),
    /// `TCA_FQ_HORIZON`: how far ahead the time of a packet may lie, in microseconds.
    Horizon(u32),
    /// `TCA_FQ_HORIZON_DROP`: whether one whose time lies further is dropped: 1, or sent at the
    /// farthest: 0.
    HorizonDrop(u8),
    /// `TCA_FQ_PRIOMAP`: the bands of priorities.
    Priomap(TcPrioQopt),
    /// `TCA_FQ_WEIGHTS`: the weights of three bands.
    Weights(TcFqWeights),
    /// `TCA_FQ_OFFLOAD_HORIZON`: how far ahead a device takes a packet, in microseconds.
    OffloadHorizon(u32),
    /// An attribute of another number, as it stands.
    Other(DefaultNla),
}

/// The rows of the table.
macro_rules! rows {
    ($body:ident ($($given:tt)*)) => {
        npr_base::$body!(($($given)*) TcQdiscFqOption of TcQdiscFq {
            1 Plimit(le32);
            2 FlowPlimit(le32);
            3 Quantum(le32);
            4 InitialQuantum(le32);
            5 RateEnable(le32);
            6 FlowDefaultRate(le32);
            7 FlowMaxRate(le32);
            8 BucketsLog(le32);
            9 FlowRefillDelay(le32);
            10 OrphanMask(le32);
            11 LowRateThreshold(le32);
            12 CeThreshold(le32);
            13 TimerSlack(le32);
            14 Horizon(le32);
            15 HorizonDrop(byte);
            16 Priomap(TcPrioQopt leading 20);
            17 Weights(TcFqWeights value raw);
            18 OffloadHorizon(le32);
        })
    };
}

impl Nla for TcQdiscFqOption {
    ghost shape = { shape_by table };

    fn kind(&self) -> u16 {
        rows!(kind_rows(self))
    }

    fn is_nested(&self) -> bool {
        false
    }

    fn check_value(&self) -> Result<usize, EmitError> {
        Ok(rows!(len_rows(self)))
    }

    fn write_value(&self, out: &mut [u8]) -> usize {
        rows!(write_rows(self, out))
    }
}

impl Attribute for TcQdiscFqOption {
    type Context = ();

    ghost family = { family };

    ghost shape_is = { shape-by table };

    #[tactic(auto, unfolding(crate::specs::Fq::attributes))]
    fn read_into<P: Place<Self>>(
        place: &mut P,
        alloc: Global,
        _context: (),
        item: &NlaBuffer<'_>,
        looks: &mut Looks,
    ) -> Result<(), DecodeError> {
        rows!(put_rows(place, alloc, item, looks))
    }

    #[tactic(auto, unfolding(crate::specs::Fq::attributes))]
    fn form(_context: (), number: u16) -> (At, Form) {
        rows!(form_rows(number))
    }

    fn try_clone(&self, alloc: Global) -> Result<Self, AllocError> {
        rows!(clone_rows(self, alloc))
    }
}
