//! The parameters of a table of neighbours: `NDTPA_*` of `linux/neighbour.h`.

ghost use Rattle.{npr_base.specs.Tables.{shape_by, shape-by}, npr_neighbour.specs.NeighbourTableParameter.{table, family}};

use npr_base::{
    At, Attribute, DecodeError, DefaultNla, EmitError, Form, Looks, Nla, NlaBuffer, Place,
};
use std::alloc::{AllocError, Global};

/// A parameter of a table of neighbours.
#[derive(Debug, Drop, PartialEq, Eq)]
pub enum NeighbourTableParameter {
    /// `NDTPA_IFINDEX`: the index of the interface; without it the parameters are the default.
    Ifindex(u32),
    /// `NDTPA_REFCNT`: how many hold them.
    ReferenceCount(u32),
    /// `NDTPA_REACHABLE_TIME`: for how long a neighbour counts as reachable, in milliseconds.
    ReachableTime(u64),
    /// `NDTPA_BASE_REACHABLE_TIME`: the time about which that one is drawn, in milliseconds.
    BaseReachableTime(u64),
    /// `NDTPA_RETRANS_TIME`: the time between questions, in milliseconds.
    RetransTime(u64),
    /// `NDTPA_GC_STALETIME`: for how long a neighbour that is not used is kept, in milliseconds.
    GcStaletime(u64),
    /// `NDTPA_DELAY_PROBE_TIME`: the time before the first question, in milliseconds.
    DelayProbeTime(u64),
    /// `NDTPA_QUEUE_LEN`: how many packets wait for an answer.
    QueueLen(u32),
    /// `NDTPA_APP_PROBES`: how often a program is asked.
    AppProbes(u32),
    /// `NDTPA_UCAST_PROBES`: how often is asked by unicast.
    UcastProbes(u32),
    /// `NDTPA_MCAST_PROBES`: how often is asked by multicast.
    McastProbes(u32),
    /// `NDTPA_ANYCAST_DELAY`: the greatest delay of an answer for an anycast address, in
    /// milliseconds.
    AnycastDelay(u64),
    /// `NDTPA_PROXY_DELAY`: the greatest delay of an answer for others, in milliseconds.
    ProxyDelay(u64),
    /// `NDTPA_PROXY_QLEN`: how many questions wait for an answer for others.
    ProxyQlen(u32),
    /// `NDTPA_LOCKTIME`: for how long a new answer does not replace one, in milliseconds.
    Locktime(u64),
    /// `NDTPA_QUEUE_LENBYTES`: how many bytes of packets wait for an answer.
    QueueLenbytes(u32),
    /// `NDTPA_MCAST_REPROBES`: how often is asked by multicast once more, after unicast.
    McastReprobes(u32),
    /// `NDTPA_INTERVAL_PROBE_TIME_MS`: the time between questions for a neighbour that is kept, in
    /// milliseconds.
    IntervalProbeTimeMs(u64),
    /// An attribute of another number, as it stands.
    Other(DefaultNla),
}

/// The rows of the table.
macro_rules! rows {
    ($body:ident ($($given:tt)*)) => {
        npr_base::$body!(($($given)*) NeighbourTableParameter of NeighbourTableParameter {
            1 Ifindex(le32);
            2 ReferenceCount(le32);
            3 ReachableTime(le64);
            4 BaseReachableTime(le64);
            5 RetransTime(le64);
            6 GcStaletime(le64);
            7 DelayProbeTime(le64);
            8 QueueLen(le32);
            9 AppProbes(le32);
            10 UcastProbes(le32);
            11 McastProbes(le32);
            12 AnycastDelay(le64);
            13 ProxyDelay(le64);
            14 ProxyQlen(le32);
            15 Locktime(le64);
            16 QueueLenbytes(le32);
            17 McastReprobes(le32);
            19 IntervalProbeTimeMs(le64);
        })
    };
}

impl Nla for NeighbourTableParameter {
    ghost shape = { shape_by table };

    fn kind(&self) -> u16 {
        rows!(kind_rows(self))
    }

    fn is_nested(&self) -> bool {
        false
    }

    fn check_value(&self) -> Result<usize, EmitError> {
        Ok(rows!(len_rows(self)))
    }

    fn write_value(&self, out: &mut [u8]) -> usize {
        rows!(write_rows(self, out))
    }
}

impl Attribute for NeighbourTableParameter {
    type Context = ();

    ghost family = { family };

    ghost shape_is = { shape-by table };

    #[tactic(auto, unfolding(crate::specs::NeighbourTableParameter::attributes))]
    fn read_into<P: Place<Self>>(
        place: &mut P,
        alloc: Global,
        _context: (),
        item: &NlaBuffer<'_>,
        looks: &mut Looks,
    ) -> Result<(), DecodeError> {
        rows!(put_rows(place, alloc, item, looks))
    }

    #[tactic(auto, unfolding(crate::specs::NeighbourTableParameter::attributes))]
    fn form(_context: (), number: u16) -> (At, Form) {
        rows!(form_rows(number))
    }

    fn try_clone(&self, alloc: Global) -> Result<Self, AllocError> {
        rows!(clone_rows(self, alloc))
    }
}
