//! Counters of `cake`: `TCA_CAKE_STATS_*` of `linux/pkt_sched.h`.

ghost use Rattle.std.specs.Prelude.{◌≢◌, IfOk, IfErr};
ghost use Rattle.{
  npr_base.specs.{
    declared.refusal.DecodeError.TheVariants.{OutOfMemory},
    Framing.{number_of},
    RowReading.{reads_at, wrong_at},
    Tables.{shape_by, shape-by},
  },
  npr_tc_values.specs.CakeStat.{attributes, family, table},
};

use crate::cake_tin::TcCakeTin;
use npr_base::{
    At, Attribute, DecodeError, DefaultNla, EmitError, Form, Looks, Nla, NlaBuffer, Place, Rowed,
    parse_list, put_read,
};
use std::alloc::{AllocError, Global};

/// The number of the tins, `TCA_CAKE_STATS_TIN_STATS`.
const TCA_CAKE_STATS_TIN_STATS: u16 = 10;

/// Counters of `cake`, or of one of its flows: `TCA_CAKE_STATS_*` of `linux/pkt_sched.h`.
#[derive(Debug, Drop, PartialEq, Eq)]
pub enum TcCakeStat {
    /// `TCA_CAKE_STATS_CAPACITY_ESTIMATE64`: the rate that comes in, as estimated, in bytes a second.
    CapacityEstimate64(u64),
    /// `TCA_CAKE_STATS_MEMORY_LIMIT`: how much memory packets may take, in bytes.
    MemoryLimit(u32),
    /// `TCA_CAKE_STATS_MEMORY_USED`: how much they took at most.
    MemoryUsed(u32),
    /// `TCA_CAKE_STATS_AVG_NETOFF`: the mean length of what stands in front of the network header, in
    /// bytes.
    AvgNetoff(u32),
    /// `TCA_CAKE_STATS_MIN_NETLEN`: the least length of a packet behind it.
    MinNetlen(u32),
    /// `TCA_CAKE_STATS_MAX_NETLEN`: the greatest.
    MaxNetlen(u32),
    /// `TCA_CAKE_STATS_MIN_ADJLEN`: the least with what the link adds.
    MinAdjlen(u32),
    /// `TCA_CAKE_STATS_MAX_ADJLEN`: the greatest with that.
    MaxAdjlen(u32),
    /// `TCA_CAKE_STATS_TIN_STATS`: those of each tin.
    TinStats(Vec<TcCakeTin>),
    /// `TCA_CAKE_STATS_DEFICIT`: of a flow: how many bytes it may still send in this turn.
    Deficit(i32),
    /// `TCA_CAKE_STATS_COBALT_COUNT`: how fast packets of the flow are dropped.
    CobaltCount(u32),
    /// `TCA_CAKE_STATS_DROPPING`: whether they are: 1 or 0.
    Dropping(u32),
    /// `TCA_CAKE_STATS_DROP_NEXT_US`: when the next is, in microseconds from now.
    DropNextUs(i32),
    /// `TCA_CAKE_STATS_P_DROP`: how likely one is: the share of the greatest number.
    PDrop(u32),
    /// `TCA_CAKE_STATS_BLUE_TIMER_US`: when that changes next, in microseconds from now.
    BlueTimerUs(i32),
    /// `TCA_CAKE_STATS_ACTIVE_QUEUES`: how many queues share the rate.
    ActiveQueues(u32),
    /// An attribute of another number, as it stands.
    Other(DefaultNla),
}

/// The rows of the table.
macro_rules! rows {
    ($body:ident ($($given:tt)*)) => {
        npr_base::$body!(($($given)*) TcCakeStat of TcCakeStat {
            2 CapacityEstimate64(le64);
            3 MemoryLimit(le32);
            4 MemoryUsed(le32);
            5 AvgNetoff(le32);
            6 MinNetlen(le32);
            7 MaxNetlen(le32);
            8 MinAdjlen(le32);
            9 MaxAdjlen(le32);
            10 TinStats(list TcCakeTins);
            11 Deficit(signed32);
            12 CobaltCount(le32);
            13 Dropping(le32);
            14 DropNextUs(signed32);
            15 PDrop(le32);
            16 BlueTimerUs(signed32);
            17 ActiveQueues(le32);
        })
    };
}

impl Nla for TcCakeStat {
    ghost shape = { shape_by table };

    fn kind(&self) -> u16 {
        rows!(kind_rows(self))
    }

    fn is_nested(&self) -> bool {
        false
    }

    fn check_value(&self) -> Result<usize, EmitError> {
        Ok(rows!(len_rows(self)))
    }

    fn write_value(&self, out: &mut [u8]) -> usize {
        rows!(write_rows(self, out))
    }
}

impl Rowed for TcCakeStat {
    ghost reads = { reads_at table };

    ghost wrong = { wrong_at table };
}

/// Puts an attribute without others inside. Asks that its number is not that of a list.
///
/// # Errors
/// `OutOfMemory` where memory is refused, and else what is wrong with the value.
#[tactic(auto, unfolding(crate::specs::CakeStat::attributes))]
fn put_flat<P: Place<TcCakeStat>>(
    place: &mut P,
    alloc: Global,
    item: &NlaBuffer<'_>,
) -> Result<(), DecodeError>
    requires ready { P.ready place.old }
    requires flat { number_of (item.now).kind ≢ 10 }
    ensures ok { IfOk result (λ _. (a : TcCakeStat) × P.puts place.old a place.new × attributes.Reads item.now (family.meaning a)) }
    ensures refused { IfErr result (λ e. e ≢ OutOfMemory → attributes.Faulty item.now e) }
{
    rows!(flat_rows(place, alloc, item))
}

impl Attribute for TcCakeStat {
    type Context = ();

    ghost family = { family };

    ghost shape_is = { shape-by table };

    #[tactic(auto, using(crate::specs::CakeStat::no_looks), unfolding(crate::specs::CakeStat::attributes))]
    fn read_into<P: Place<Self>>(
        place: &mut P,
        alloc: Global,
        _context: (),
        item: &NlaBuffer<'_>,
        looks: &mut Looks,
    ) -> Result<(), DecodeError> {
        match item.kind() {
            TCA_CAKE_STATS_TIN_STATS => put_read(
                place,
                parse_list(alloc, (), item.value(), looks),
                TcCakeStat::TinStats,
            ),
            _ => put_flat(place, alloc, item),
        }
    }

    #[tactic(auto, unfolding(crate::specs::CakeStat::attributes))]
    fn form(_context: (), number: u16) -> (At, Form) {
        rows!(form_rows(number))
    }

    fn try_clone(&self, alloc: Global) -> Result<Self, AllocError> {
        rows!(clone_rows(self, alloc))
    }
}
