//! What went by, attribute by attribute: `TCA_STATS_*` of `linux/gen_stats.h`.

ghost use Rattle.std.specs.Prelude.{refl};
ghost use Rattle.{npr_base.specs.Family.{shaped}, npr_tc_values.specs.Stats2.{family}};

use crate::form::TcForm;
use crate::stats_basic::TcStatsBasic;
use crate::stats_queue::TcStatsQueue;
use crate::stats_rate_est::TcStatsRateEst;
use crate::stats_rate_est64::TcStatsRateEst64;
use crate::xstats::TcXstats;
use npr_base::{
    At, Attribute, DecodeError, DefaultNla, EmitError, Form, Looks, Nla, NlaBuffer, Place, put_read,
};
use std::alloc::{AllocError, Global};

/// What went by, attribute by attribute: `TCA_STATS_*` of `linux/gen_stats.h`. What the counters of a kind
/// mean rests on the kind that governs the message.
#[derive(Debug, Drop, PartialEq, Eq)]
pub enum TcStats2 {
    /// `TCA_STATS_BASIC`: how much went by.
    Basic(TcStatsBasic),
    /// `TCA_STATS_RATE_EST`: the estimated rate.
    RateEst(TcStatsRateEst),
    /// `TCA_STATS_QUEUE`: what waits.
    Queue(TcStatsQueue),
    /// `TCA_STATS_APP`: the counters of the kind.
    App(TcXstats),
    /// `TCA_STATS_RATE_EST64`: the estimated rate, with room for a large one.
    RateEst64(TcStatsRateEst64),
    /// `TCA_STATS_BASIC_HW`: how much went by in a device.
    BasicHw(TcStatsBasic),
    /// `TCA_STATS_PKT64`: how many packets went by.
    Pkt64(u64),
    /// An attribute of another number, as it stands.
    Other(DefaultNla),
}

/// The number of the counters of a kind, `TCA_STATS_APP`.
const TCA_STATS_APP: u16 = 4;

/// The rows of the table that stand for themselves. Number 4 stands beside them in each match.
macro_rules! rows {
    ($body:ident ($($given:tt)*)) => {
        npr_base::$body!(($($given)*) TcStats2 of TcStats2 {
            1 Basic(TcStatsBasic leading 16);
            2 RateEst(TcStatsRateEst leading 8);
            3 Queue(TcStatsQueue leading 20);
            5 RateEst64(TcStatsRateEst64 leading 16);
            7 BasicHw(TcStatsBasic leading 16);
            8 Pkt64(le64);
        })
    };
}

impl Nla for TcStats2 {
    ghost shape = { shaped family };

    fn kind(&self) -> u16 {
        rows!(kind_rows(self; TcStats2::App(_) => TCA_STATS_APP,))
    }

    fn is_nested(&self) -> bool {
        false
    }

    fn check_value(&self) -> Result<usize, EmitError> {
        Ok(rows!(len_rows(self; TcStats2::App(x) => x.check()?,)))
    }

    fn write_value(&self, out: &mut [u8]) -> usize {
        rows!(write_rows(self, out; TcStats2::App(x) => x.write(out),))
    }
}

impl Attribute for TcStats2 {
    type Context = TcForm;

    ghost family = { family };

    ghost shape_is = { λ a. refl };

    #[tactic(auto, unfolding(crate::specs::Stats2::attributes))]
    fn read_into<P: Place<Self>>(
        place: &mut P,
        alloc: Global,
        form: TcForm,
        item: &NlaBuffer<'_>,
        looks: &mut Looks,
    ) -> Result<(), DecodeError> {
        rows!(put_rows(place, alloc, item, looks;
            TCA_STATS_APP => put_read(
                place,
                TcXstats::read(alloc, form, item.value(), looks),
                TcStats2::App,
            ),
        ))
    }

    #[tactic(auto, unfolding(crate::specs::Stats2::attributes))]
    fn form(form: TcForm, number: u16) -> (At, Form) {
        rows!(form_rows(number; TCA_STATS_APP => TcXstats::form(form),))
    }

    fn try_clone(&self, alloc: Global) -> Result<Self, AllocError> {
        rows!(clone_rows(self, alloc;
            TcStats2::App(x) => x.try_clone(alloc).map(TcStats2::App),
        ))
    }
}
