//! Counters of a tin of `cake`: `TCA_CAKE_TIN_STATS_*` of `linux/pkt_sched.h`.

ghost use Rattle.std.specs.Prelude.{◌≢◌, IfOk, IfErr};
ghost use Rattle.{
  npr_base.specs.{
    declared.refusal.DecodeError.TheVariants.{OutOfMemory},
    RowReading.{reads_at, wrong_at},
    Tables.{shape_by, shape-by},
  },
  npr_tc_values.specs.CakeTinStat.{attributes, family, table},
};

use npr_base::{
    At, Attribute, DecodeError, DefaultNla, EmitError, Form, Looks, Nla, NlaBuffer, Place, Rowed,
};
use std::alloc::{AllocError, Global};

/// Counters of a tin of `cake`: `TCA_CAKE_TIN_STATS_*` of `linux/pkt_sched.h`.
#[derive(Debug, Drop, PartialEq, Eq)]
pub enum TcCakeTinStat {
    /// `TCA_CAKE_TIN_STATS_SENT_PACKETS`: how many packets were sent.
    SentPackets(u32),
    /// `TCA_CAKE_TIN_STATS_SENT_BYTES64`: how many bytes.
    SentBytes64(u64),
    /// `TCA_CAKE_TIN_STATS_DROPPED_PACKETS`: how many packets were dropped.
    DroppedPackets(u32),
    /// `TCA_CAKE_TIN_STATS_DROPPED_BYTES64`: how many bytes.
    DroppedBytes64(u64),
    /// `TCA_CAKE_TIN_STATS_ACKS_DROPPED_PACKETS`: how many acknowledgements were dropped.
    AcksDroppedPackets(u32),
    /// `TCA_CAKE_TIN_STATS_ACKS_DROPPED_BYTES64`: how many bytes of them.
    AcksDroppedBytes64(u64),
    /// `TCA_CAKE_TIN_STATS_ECN_MARKED_PACKETS`: how many packets were marked, and not dropped.
    EcnMarkedPackets(u32),
    /// `TCA_CAKE_TIN_STATS_ECN_MARKED_BYTES64`: how many bytes.
    EcnMarkedBytes64(u64),
    /// `TCA_CAKE_TIN_STATS_BACKLOG_PACKETS`: how many packets wait.
    BacklogPackets(u32),
    /// `TCA_CAKE_TIN_STATS_BACKLOG_BYTES`: how many bytes.
    BacklogBytes(u32),
    /// `TCA_CAKE_TIN_STATS_THRESHOLD_RATE64`: the rate up to which it goes first, in bytes a second.
    ThresholdRate64(u64),
    /// `TCA_CAKE_TIN_STATS_TARGET_US`: how long packets may wait, in microseconds.
    TargetUs(u32),
    /// `TCA_CAKE_TIN_STATS_INTERVAL_US`: for how long at least before packets are dropped, in microseconds.
    IntervalUs(u32),
    /// `TCA_CAKE_TIN_STATS_WAY_INDIRECT_HITS`: how many packets found their flow beside its first place.
    WayIndirectHits(u32),
    /// `TCA_CAKE_TIN_STATS_WAY_MISSES`: how many began a flow.
    WayMisses(u32),
    /// `TCA_CAKE_TIN_STATS_WAY_COLLISIONS`: how many share the flow of others.
    WayCollisions(u32),
    /// `TCA_CAKE_TIN_STATS_PEAK_DELAY_US`: how long packets waited at most, in microseconds.
    PeakDelayUs(u32),
    /// `TCA_CAKE_TIN_STATS_AVG_DELAY_US`: on the average.
    AvgDelayUs(u32),
    /// `TCA_CAKE_TIN_STATS_BASE_DELAY_US`: and at least.
    BaseDelayUs(u32),
    /// `TCA_CAKE_TIN_STATS_SPARSE_FLOWS`: how many flows are sparse.
    SparseFlows(u32),
    /// `TCA_CAKE_TIN_STATS_BULK_FLOWS`: how many are not.
    BulkFlows(u32),
    /// `TCA_CAKE_TIN_STATS_UNRESPONSIVE_FLOWS`: how many do not slow down.
    UnresponsiveFlows(u32),
    /// `TCA_CAKE_TIN_STATS_MAX_SKBLEN`: the greatest length of a packet, in bytes.
    MaxSkblen(u32),
    /// `TCA_CAKE_TIN_STATS_FLOW_QUANTUM`: how many bytes a flow may send in a turn.
    FlowQuantum(u32),
    /// An attribute of another number, as it stands.
    Other(DefaultNla),
}

/// The rows of the table.
macro_rules! rows {
    ($body:ident ($($given:tt)*)) => {
        npr_base::$body!(($($given)*) TcCakeTinStat of TcCakeTinStat {
            2 SentPackets(le32);
            3 SentBytes64(le64);
            4 DroppedPackets(le32);
            5 DroppedBytes64(le64);
            6 AcksDroppedPackets(le32);
            7 AcksDroppedBytes64(le64);
            8 EcnMarkedPackets(le32);
            9 EcnMarkedBytes64(le64);
            10 BacklogPackets(le32);
            11 BacklogBytes(le32);
            12 ThresholdRate64(le64);
            13 TargetUs(le32);
            14 IntervalUs(le32);
            15 WayIndirectHits(le32);
            16 WayMisses(le32);
            17 WayCollisions(le32);
            18 PeakDelayUs(le32);
            19 AvgDelayUs(le32);
            20 BaseDelayUs(le32);
            21 SparseFlows(le32);
            22 BulkFlows(le32);
            23 UnresponsiveFlows(le32);
            24 MaxSkblen(le32);
            25 FlowQuantum(le32);
        })
    };
}

impl Nla for TcCakeTinStat {
    ghost shape = { shape_by table };

    fn kind(&self) -> u16 {
        rows!(kind_rows(self))
    }

    fn is_nested(&self) -> bool {
        false
    }

    fn check_value(&self) -> Result<usize, EmitError> {
        Ok(rows!(len_rows(self)))
    }

    fn write_value(&self, out: &mut [u8]) -> usize {
        rows!(write_rows(self, out))
    }
}

impl Rowed for TcCakeTinStat {
    ghost reads = { reads_at table };

    ghost wrong = { wrong_at table };
}

/// Puts an attribute; none has others inside.
///
/// # Errors
/// `OutOfMemory` where memory is refused, and else what is wrong with the value.
#[tactic(auto, unfolding(crate::specs::CakeTinStat::attributes))]
fn put_flat<P: Place<TcCakeTinStat>>(
    place: &mut P,
    alloc: Global,
    item: &NlaBuffer<'_>,
) -> Result<(), DecodeError>
    requires { P.ready place.old }
    ensures ok { IfOk result (λ _. (a : TcCakeTinStat) × P.puts place.old a place.new × attributes.Reads item.now (family.meaning a)) }
    ensures refused { IfErr result (λ e. e ≢ OutOfMemory → attributes.Faulty item.now e) }
{
    rows!(flat_rows(place, alloc, item))
}

impl Attribute for TcCakeTinStat {
    type Context = ();

    ghost family = { family };

    ghost shape_is = { shape-by table };

    #[tactic(auto, using(crate::specs::CakeTinStat::no_looks))]
    fn read_into<P: Place<Self>>(
        place: &mut P,
        alloc: Global,
        _context: (),
        item: &NlaBuffer<'_>,
        looks: &mut Looks,
    ) -> Result<(), DecodeError> {
        put_flat(place, alloc, item)
    }

    #[tactic(auto, unfolding(crate::specs::CakeTinStat::attributes))]
    fn form(_context: (), number: u16) -> (At, Form) {
        rows!(form_rows(number))
    }

    fn try_clone(&self, alloc: Global) -> Result<Self, AllocError> {
        rows!(clone_rows(self, alloc))
    }
}
