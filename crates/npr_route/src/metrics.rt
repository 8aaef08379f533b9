//! The metrics of a route: `RTAX_*` of `linux/rtnetlink.h`.

ghost use Rattle.{npr_base.specs.Tables.{shape_by, shape-by}, npr_route.specs.Metric.{table, family}};

use npr_base::{
    At, Attribute, DecodeError, DefaultNla, EmitError, Form, Looks, Nla, NlaBuffer, Place,
};
use std::alloc::{AllocError, Global};

/// A metric of a route.
#[derive(Debug, Drop, PartialEq, Eq)]
pub enum RouteMetric {
    /// Which metrics are locked.
    Lock(u32),
    /// The greatest packet.
    Mtu(u32),
    /// The greatest window.
    Window(u32),
    /// The round trip time.
    Rtt(u32),
    /// Its variance.
    RttVar(u32),
    /// The threshold of slow start.
    SsThresh(u32),
    /// The greatest congestion window.
    Cwnd(u32),
    /// The segment size to advertise.
    Advmss(u32),
    /// How far packets are reordered.
    Reordering(u32),
    /// The hop limit.
    Hoplimit(u32),
    /// The first congestion window.
    InitCwnd(u32),
    /// The features.
    Features(u32),
    /// The least time before a retransmission.
    RtoMin(u32),
    /// The first receive window.
    InitRwnd(u32),
    /// Acknowledge at once.
    QuickAck(u32),
    /// The congestion control, by its name.
    CcAlgo(String),
    /// Open fast without a cookie.
    FastopenNoCookie(u32),
    /// A metric of another number, as it stands.
    Other(DefaultNla),
}

/// The rows of the table.
macro_rules! rows {
    ($body:ident ($($given:tt)*)) => {
        npr_base::$body!(($($given)*) RouteMetric of Metric {
            1 Lock(le32);
            2 Mtu(le32);
            3 Window(le32);
            4 Rtt(le32);
            5 RttVar(le32);
            6 SsThresh(le32);
            7 Cwnd(le32);
            8 Advmss(le32);
            9 Reordering(le32);
            10 Hoplimit(le32);
            11 InitCwnd(le32);
            12 Features(le32);
            13 RtoMin(le32);
            14 InitRwnd(le32);
            15 QuickAck(le32);
            16 CcAlgo(name);
            17 FastopenNoCookie(le32);
        })
    };
}

impl Nla for RouteMetric {
    ghost shape = { shape_by table };

    fn kind(&self) -> u16 {
        rows!(kind_rows(self))
    }

    fn is_nested(&self) -> bool {
        false
    }

    fn check_value(&self) -> Result<usize, EmitError> {
        Ok(rows!(len_rows(self)))
    }

    fn write_value(&self, out: &mut [u8]) -> usize {
        rows!(write_rows(self, out))
    }
}

impl Attribute for RouteMetric {
    type Context = ();

    ghost family = { family };

    ghost shape_is = { shape-by table };

    #[tactic(auto, unfolding(crate::specs::Metric::attributes))]
    fn read_into<P: Place<Self>>(
        place: &mut P,
        alloc: Global,
        _context: (),
        item: &NlaBuffer<'_>,
        looks: &mut Looks,
    ) -> Result<(), DecodeError> {
        rows!(put_rows(place, alloc, item, looks))
    }

    #[tactic(auto, unfolding(crate::specs::Metric::attributes))]
    fn form(_context: (), number: u16) -> (At, Form) {
        rows!(form_rows(number))
    }

    fn try_clone(&self, alloc: Global) -> Result<Self, AllocError> {
        rows!(clone_rows(self, alloc))
    }
}
