//! The laws of handles, kinds and counters, over their definitions alone. Each function does nothing, and its
//! contract is the law.

ghost use Rattle.std.specs.Prelude.{◌≡◌, ◌<◌, ◌^◌, ◌++◌, ℕ, List, pos, false};
ghost use Rattle.{
  npr_base.specs.{Equality.{IsEquality, IsEqualityOf}},
  npr_tc_values.specs.{
    CakeStat.{family as cake_stat_family},
    CakeTin.{family as cake_tin_family},
    CakeTinStat.{family as cake_tin_stat_family},
    FqCodelXstats.{class, class_mark, counter_bytes, counters_in, fq_codel_xstats_of, has_mark, other, qdisc, qdisc_mark},
    Handle.{handles},
    Stats2.{family as stats2_family},
    Xstats.{xstats_of},
    declared.handle.TcHandle.{TcHandle as Handle},
  },
};

use crate::bitfield::TcBitfield;
use crate::cake_stat::TcCakeStat;
use crate::cake_tin::TcCakeTin;
use crate::cake_tin_stat::TcCakeTinStat;
use crate::estimator::TcEstimator;
use crate::form::TcForm;
use crate::fq_codel_cl_stats::TcFqCodelClStats;
use crate::fq_codel_qd_stats::TcFqCodelQdStats;
use crate::fq_codel_xstats::TcFqCodelXstats;
use crate::fq_qd_stats::TcFqQdStats;
use crate::handle::TcHandle;
use crate::htb_xstats::TcHtbXstats;
use crate::netem_xstats::TcNetemXstats;
use crate::rate_spec::TcRateSpec;
use crate::red_xstats::TcRedXstats;
use crate::sfq_xstats::TcSfqXstats;
use crate::stats::TcStats;
use crate::stats_basic::TcStatsBasic;
use crate::stats_queue::TcStatsQueue;
use crate::stats_rate_est::TcStatsRateEst;
use crate::stats_rate_est64::TcStatsRateEst64;
use crate::stats2::TcStats2;
use crate::xstats::TcXstats;

/// What a number reads as is written as that number, and a handle is read again from its number.
pub fn law_handles()
    ensures number { (d : ℕ) → handles.number (handles.of d) ≡ d }
    ensures back { (h : Handle) → h.minor < 2 ^ 16 → handles.of (handles.number h) ≡ h }
{}

/// The named handles and minor numbers (`linux/pkt_sched.h`).
pub fn law_named_handles()
    ensures unspec { TcHandle.UNSPEC ≡ handles.of 0 }
    ensures root { TcHandle.ROOT ≡ handles.of 0xffffffff }
    ensures ingress { TcHandle.INGRESS ≡ handles.of 0xfffffff1 }
    ensures clsact { TcHandle.CLSACT ≡ handles.of 0xfffffff1 }
    ensures min_priority { TcHandle.MIN_PRIORITY ≡ 0xffe0 }
    ensures min_ingress { TcHandle.MIN_INGRESS ≡ 0xfff2 }
    ensures min_egress { TcHandle.MIN_EGRESS ≡ 0xfff3 }
{}

/// The counters of `fq_codel` are written as the bytes that they are read from; and they are read again
/// from what they are written as, unless other bytes begin with a mark.
pub fn law_counters()
    ensures bytes { (bytes : List ℕ) → counter_bytes (counters_in bytes) ≡ bytes }
    ensures qdisc { (bytes : List ℕ) → counters_in (qdisc_mark ++ bytes) ≡ qdisc bytes }
    ensures class { (bytes : List ℕ) → counters_in (class_mark ++ bytes) ≡ class bytes }
    ensures other { (bytes : List ℕ) → has_mark qdisc_mark bytes ≡ false → has_mark class_mark bytes ≡ false → counters_in bytes ≡ other bytes }
{}

/// Which value is the default.
pub fn law_default()
    ensures handle { (x : TcHandle) → ⟦<TcHandle as Default>⟧.is_default x → x ≡ handles.of 0 }
    ensures bitfield { (x : TcBitfield) → ⟦<TcBitfield as Default>⟧.is_default x → x ≡ record { value = 0; selector = 0 } }
    ensures form { (x : TcForm) → ⟦<TcForm as Default>⟧.is_default x → x ≡ TcForm.Kept }
    ensures stats { (x : TcStats) → ⟦<TcStats as Default>⟧.is_default x
        → x ≡ record { bytes = 0; packets = 0; drops = 0; overlimits = 0; bps = 0; pps = 0; qlen = 0; backlog = 0 } }
    ensures basic { (x : TcStatsBasic) → ⟦<TcStatsBasic as Default>⟧.is_default x → x ≡ record { bytes = 0; packets = 0 } }
    ensures queue { (x : TcStatsQueue) → ⟦<TcStatsQueue as Default>⟧.is_default x
        → x ≡ record { qlen = 0; backlog = 0; drops = 0; requeues = 0; overlimits = 0 } }
    ensures rate_est { (x : TcStatsRateEst) → ⟦<TcStatsRateEst as Default>⟧.is_default x → x ≡ record { bps = 0; pps = 0 } }
    ensures rate_est64 { (x : TcStatsRateEst64) → ⟦<TcStatsRateEst64 as Default>⟧.is_default x → x ≡ record { bps = 0; pps = 0 } }
    ensures estimator { (x : TcEstimator) → ⟦<TcEstimator as Default>⟧.is_default x → x ≡ record { interval = pos 0; ewma_log = 0 } }
    ensures rate_spec { (x : TcRateSpec) → ⟦<TcRateSpec as Default>⟧.is_default x
        → x ≡ record { cell_log = 0; linklayer = 0; overhead = 0; cell_align = pos 0; mpu = 0; rate = 0 } }
{}

/// `==` answers whether two values are equal.
pub fn law_equality()
    ensures handle { IsEquality ⟦<TcHandle as PartialEq>⟧.eq }
    ensures bitfield { IsEquality ⟦<TcBitfield as PartialEq>⟧.eq }
    ensures form { IsEquality ⟦<TcForm as PartialEq>⟧.eq }
    ensures stats { IsEquality ⟦<TcStats as PartialEq>⟧.eq }
    ensures basic { IsEquality ⟦<TcStatsBasic as PartialEq>⟧.eq }
    ensures queue { IsEquality ⟦<TcStatsQueue as PartialEq>⟧.eq }
    ensures rate_est { IsEquality ⟦<TcStatsRateEst as PartialEq>⟧.eq }
    ensures rate_est64 { IsEquality ⟦<TcStatsRateEst64 as PartialEq>⟧.eq }
    ensures estimator { IsEquality ⟦<TcEstimator as PartialEq>⟧.eq }
    ensures rate_spec { IsEquality ⟦<TcRateSpec as PartialEq>⟧.eq }
{}

/// `==` answers whether two values mean the same, where they hold a vector.
pub fn law_equality_of_meanings()
    ensures qd_stats { IsEqualityOf (λ x. x.bytes.items) ⟦<TcFqCodelQdStats as PartialEq>⟧.eq }
    ensures cl_stats { IsEqualityOf (λ x. x.bytes.items) ⟦<TcFqCodelClStats as PartialEq>⟧.eq }
    ensures fq_codel_xstats { IsEqualityOf fq_codel_xstats_of ⟦<TcFqCodelXstats as PartialEq>⟧.eq }
    ensures xstats { IsEqualityOf xstats_of ⟦<TcXstats as PartialEq>⟧.eq }
    ensures htb_xstats { IsEqualityOf (λ x. x.bytes.items) ⟦<TcHtbXstats as PartialEq>⟧.eq }
    ensures fq_qd_stats { IsEqualityOf (λ x. x.bytes.items) ⟦<TcFqQdStats as PartialEq>⟧.eq }
    ensures red_xstats { IsEqualityOf (λ x. x.bytes.items) ⟦<TcRedXstats as PartialEq>⟧.eq }
    ensures netem_xstats { IsEqualityOf (λ x. x.bytes.items) ⟦<TcNetemXstats as PartialEq>⟧.eq }
    ensures sfq_xstats { IsEqualityOf (λ x. x.bytes.items) ⟦<TcSfqXstats as PartialEq>⟧.eq }
    ensures cake_tin_stat { IsEqualityOf cake_tin_stat_family.meaning ⟦<TcCakeTinStat as PartialEq>⟧.eq }
    ensures cake_tin { IsEqualityOf cake_tin_family.meaning ⟦<TcCakeTin as PartialEq>⟧.eq }
    ensures cake_stat { IsEqualityOf cake_stat_family.meaning ⟦<TcCakeStat as PartialEq>⟧.eq }
    ensures stats2 { IsEqualityOf stats2_family.meaning ⟦<TcStats2 as PartialEq>⟧.eq }
{}
