//! The laws of queueing disciplines, over their definitions alone. Each function does nothing, and its contract
//! is the law.

ghost use Rattle.std.specs.Prelude.{◌≡◌, ◌∷◌, [], ℕ, pos, codes};
ghost use Rattle.{
  npr_base.specs.{Equality.{IsEquality, IsEqualityOf}},
  npr_tc_qdiscs.specs.{
    Cake.{family as cake_family},
    CakeAckFilter.{cake_ack_filters},
    CakeAtm.{cake_atms},
    CakeDiffservMode.{cake_diffserv_modes},
    CakeFlowMode.{cake_flow_modes},
    FqCodel.{family as fq_codel_family},
    Fq.{family as fq_family},
    FqWeights.{fq_weights_of},
    Htb.{family as htb_family},
    Mqprio.{mqprio_of},
    MqprioEntry.{family as mqprio_entry_family},
    MqprioOption.{family as mqprio_option_family},
    Netem.{netem_of},
    NetemLoss.{family as netem_loss_family},
    NetemOption.{family as netem_option_family},
    Red.{family as red_family},
    Tbf.{family as tbf_family},
    Ingress.{family as ingress_family},
    Stab.{family as stab_family},
    StabData.{stab_data_of},
  },
  npr_tc_values.specs.{
    Form.{form_named},
  },
};

use crate::cake::TcQdiscCakeOption;
use crate::cake_ack_filter::TcCakeAckFilter;
use crate::cake_atm::TcCakeAtm;
use crate::cake_diffserv_mode::TcCakeDiffservMode;
use crate::cake_flow_mode::TcCakeFlowMode;
use crate::fifo_qopt::TcFifoQopt;
use crate::fq::TcQdiscFqOption;
use crate::fq_codel::TcQdiscFqCodelOption;
use crate::fq_weights::TcFqWeights;
use crate::htb::TcQdiscHtbOption;
use crate::htb_glob::TcHtbGlob;
use crate::htb_opt::TcHtbOpt;
use crate::ingress::TcQdiscIngressOption;
use crate::kinds::{
    TcQdiscCake, TcQdiscFq, TcQdiscFqCodel, TcQdiscHtb, TcQdiscIngress, TcQdiscMqprio,
    TcQdiscNetem, TcQdiscPrio, TcQdiscRed, TcQdiscSfq, TcQdiscTbf,
};
use crate::mqprio::TcMqprio;
use crate::mqprio_entry::TcMqprioEntry;
use crate::mqprio_option::TcQdiscMqprioOption;
use crate::mqprio_qopt::TcMqprioQopt;
use crate::netem::TcNetem;
use crate::netem_corr::TcNetemCorr;
use crate::netem_corrupt::TcNetemCorrupt;
use crate::netem_ge_model::TcNetemGeModel;
use crate::netem_gi_model::TcNetemGiModel;
use crate::netem_loss::TcNetemLoss;
use crate::netem_option::TcQdiscNetemOption;
use crate::netem_qopt::TcNetemQopt;
use crate::netem_rate::TcNetemRate;
use crate::netem_reorder::TcNetemReorder;
use crate::netem_slot::TcNetemSlot;
use crate::prio_qopt::TcPrioQopt;
use crate::red::TcQdiscRedOption;
use crate::red_qopt::TcRedQopt;
use crate::sfq_qopt::TcSfqQopt;
use crate::size_spec::TcSizeSpec;
use crate::stab::TcStab;
use crate::stab_data::TcStabData;
use crate::tbf::TcQdiscTbfOption;
use crate::tbf_qopt::TcTbfQopt;
use npr_tc_values::TcForm;

/// What a number reads as is written as that number.
pub fn law_numbers()
    ensures diffserv { (d : ℕ) → cake_diffserv_modes.number (cake_diffserv_modes.of d) ≡ d }
    ensures atm { (d : ℕ) → cake_atms.number (cake_atms.of d) ≡ d }
    ensures flow { (d : ℕ) → cake_flow_modes.number (cake_flow_modes.of d) ≡ d }
    ensures ack_filter { (d : ℕ) → cake_ack_filters.number (cake_ack_filters.of d) ≡ d }
{}

/// What governs data under the kernel's names of the kinds.
pub fn law_forms()
    ensures fq_codel { form_named (TcQdiscFqCodel.KIND).now ≡ TcForm.FqCodel }
    ensures ingress { form_named (TcQdiscIngress.KIND).now ≡ TcForm.Ingress }
    ensures clsact { form_named (codes "clsact") ≡ TcForm.Clsact }
    ensures u32 { form_named (codes "u32") ≡ TcForm.U32 }
    ensures flower { form_named (codes "flower") ≡ TcForm.Flower }
    ensures matchall { form_named (codes "matchall") ≡ TcForm.MatchAll }
    ensures htb { form_named (TcQdiscHtb.KIND).now ≡ TcForm.Htb }
    ensures tbf { form_named (TcQdiscTbf.KIND).now ≡ TcForm.Tbf }
    ensures red { form_named (TcQdiscRed.KIND).now ≡ TcForm.Red }
    ensures fq { form_named (TcQdiscFq.KIND).now ≡ TcForm.Fq }
    ensures netem { form_named (TcQdiscNetem.KIND).now ≡ TcForm.Netem }
    ensures prio { form_named (TcQdiscPrio.KIND).now ≡ TcForm.Prio }
    ensures pfifo_fast { form_named (codes "pfifo_fast") ≡ TcForm.Prio }
    ensures pfifo { form_named (codes "pfifo") ≡ TcForm.Fifo }
    ensures bfifo { form_named (codes "bfifo") ≡ TcForm.Fifo }
    ensures pfifo_head_drop { form_named (codes "pfifo_head_drop") ≡ TcForm.Fifo }
    ensures fw { form_named (codes "fw") ≡ TcForm.Fw }
    ensures bpf { form_named (codes "bpf") ≡ TcForm.Bpf }
    ensures cake { form_named (TcQdiscCake.KIND).now ≡ TcForm.Cake }
    ensures sfq { form_named (TcQdiscSfq.KIND).now ≡ TcForm.Sfq }
    ensures basic { form_named (codes "basic") ≡ TcForm.Basic }
    ensures mqprio { form_named (TcQdiscMqprio.KIND).now ≡ TcForm.Kept }
    ensures unknown { form_named (codes "noqueue") ≡ TcForm.Kept }
{}

/// Which value is the default.
pub fn law_default()
    ensures size_spec { (x : TcSizeSpec) → ⟦<TcSizeSpec as Default>⟧.is_default x → x ≡ record {
      cell_log = 0;
      size_log = 0;
      cell_align = pos 0;
      overhead = pos 0;
      linklayer = 0;
      mpu = 0;
      mtu = 0;
      tsize = 0;
    } }
    ensures htb_opt { (x : TcHtbOpt) → ⟦<TcHtbOpt as Default>⟧.is_default x
        → x ≡ record { rate = record { cell_log = 0; linklayer = 0; overhead = 0; cell_align = pos 0; mpu = 0; rate = 0 }; ceil = record { cell_log = 0; linklayer = 0; overhead = 0; cell_align = pos 0; mpu = 0; rate = 0 }; buffer = 0; cbuffer = 0; quantum = 0; level = 0; prio = 0 } }
    ensures htb_glob { (x : TcHtbGlob) → ⟦<TcHtbGlob as Default>⟧.is_default x
        → x ≡ record { version = 0; rate2quantum = 0; defcls = 0; debug = 0; direct_pkts = 0 } }
    ensures tbf_qopt { (x : TcTbfQopt) → ⟦<TcTbfQopt as Default>⟧.is_default x
        → x ≡ record { rate = record { cell_log = 0; linklayer = 0; overhead = 0; cell_align = pos 0; mpu = 0; rate = 0 }; peakrate = record { cell_log = 0; linklayer = 0; overhead = 0; cell_align = pos 0; mpu = 0; rate = 0 }; limit = 0; buffer = 0; mtu = 0 } }
    ensures red_qopt { (x : TcRedQopt) → ⟦<TcRedQopt as Default>⟧.is_default x
        → x ≡ record { limit = 0; qth_min = 0; qth_max = 0; wlog = 0; plog = 0; scell_log = 0; flags = 0 } }
    ensures prio_qopt { (x : TcPrioQopt) → ⟦<TcPrioQopt as Default>⟧.is_default x
        → x ≡ record { bands = pos 0; priomap = 0 ∷ 0 ∷ 0 ∷ 0 ∷ 0 ∷ 0 ∷ 0 ∷ 0 ∷ 0 ∷ 0 ∷ 0 ∷ 0 ∷ 0 ∷ 0 ∷ 0 ∷ 0 ∷ [] } }
    ensures fifo_qopt { (x : TcFifoQopt) → ⟦<TcFifoQopt as Default>⟧.is_default x
        → x ≡ record { limit = 0 } }
    ensures netem_qopt { (x : TcNetemQopt) → ⟦<TcNetemQopt as Default>⟧.is_default x
        → x ≡ record { latency = 0; limit = 0; loss = 0; gap = 0; duplicate = 0; jitter = 0 } }
    ensures netem_corr { (x : TcNetemCorr) → ⟦<TcNetemCorr as Default>⟧.is_default x
        → x ≡ record { delay_corr = 0; loss_corr = 0; dup_corr = 0 } }
    ensures netem_reorder { (x : TcNetemReorder) → ⟦<TcNetemReorder as Default>⟧.is_default x
        → x ≡ record { probability = 0; correlation = 0 } }
    ensures netem_corrupt { (x : TcNetemCorrupt) → ⟦<TcNetemCorrupt as Default>⟧.is_default x
        → x ≡ record { probability = 0; correlation = 0 } }
    ensures netem_rate { (x : TcNetemRate) → ⟦<TcNetemRate as Default>⟧.is_default x
        → x ≡ record { rate = 0; packet_overhead = pos 0; cell_size = 0; cell_overhead = pos 0 } }
    ensures netem_slot { (x : TcNetemSlot) → ⟦<TcNetemSlot as Default>⟧.is_default x
        → x ≡ record { min_delay = pos 0; max_delay = pos 0; max_packets = pos 0; max_bytes = pos 0; dist_delay = pos 0; dist_jitter = pos 0 } }
    ensures netem_gi_model { (x : TcNetemGiModel) → ⟦<TcNetemGiModel as Default>⟧.is_default x
        → x ≡ record { p13 = 0; p31 = 0; p32 = 0; p14 = 0; p23 = 0 } }
    ensures netem_ge_model { (x : TcNetemGeModel) → ⟦<TcNetemGeModel as Default>⟧.is_default x
        → x ≡ record { p = 0; r = 0; h = 0; k1 = 0 } }
    ensures mqprio_qopt { (x : TcMqprioQopt) → ⟦<TcMqprioQopt as Default>⟧.is_default x → x ≡ record {
      num_tc = 0;
      prio_tc_map = 0 ∷ 0 ∷ 0 ∷ 0 ∷ 0 ∷ 0 ∷ 0 ∷ 0 ∷ 0 ∷ 0 ∷ 0 ∷ 0 ∷ 0 ∷ 0 ∷ 0 ∷ 0 ∷ [];
      hw = 0;
      count = 0 ∷ 0 ∷ 0 ∷ 0 ∷ 0 ∷ 0 ∷ 0 ∷ 0 ∷ 0 ∷ 0 ∷ 0 ∷ 0 ∷ 0 ∷ 0 ∷ 0 ∷ 0 ∷ [];
      offset = 0 ∷ 0 ∷ 0 ∷ 0 ∷ 0 ∷ 0 ∷ 0 ∷ 0 ∷ 0 ∷ 0 ∷ 0 ∷ 0 ∷ 0 ∷ 0 ∷ 0 ∷ 0 ∷ [];
    } }
{}

/// `==` answers whether two values are equal.
pub fn law_equality()
    ensures size_spec { IsEquality ⟦<TcSizeSpec as PartialEq>⟧.eq }
    ensures htb_opt { IsEquality ⟦<TcHtbOpt as PartialEq>⟧.eq }
    ensures htb_glob { IsEquality ⟦<TcHtbGlob as PartialEq>⟧.eq }
    ensures tbf_qopt { IsEquality ⟦<TcTbfQopt as PartialEq>⟧.eq }
    ensures red_qopt { IsEquality ⟦<TcRedQopt as PartialEq>⟧.eq }
    ensures prio_qopt { IsEquality ⟦<TcPrioQopt as PartialEq>⟧.eq }
    ensures fifo_qopt { IsEquality ⟦<TcFifoQopt as PartialEq>⟧.eq }
    ensures netem_qopt { IsEquality ⟦<TcNetemQopt as PartialEq>⟧.eq }
    ensures netem_corr { IsEquality ⟦<TcNetemCorr as PartialEq>⟧.eq }
    ensures netem_reorder { IsEquality ⟦<TcNetemReorder as PartialEq>⟧.eq }
    ensures netem_corrupt { IsEquality ⟦<TcNetemCorrupt as PartialEq>⟧.eq }
    ensures netem_rate { IsEquality ⟦<TcNetemRate as PartialEq>⟧.eq }
    ensures netem_slot { IsEquality ⟦<TcNetemSlot as PartialEq>⟧.eq }
    ensures netem_gi_model { IsEquality ⟦<TcNetemGiModel as PartialEq>⟧.eq }
    ensures netem_ge_model { IsEquality ⟦<TcNetemGeModel as PartialEq>⟧.eq }
    ensures mqprio_qopt { IsEquality ⟦<TcMqprioQopt as PartialEq>⟧.eq }
    ensures cake_diffserv_mode { IsEquality ⟦<TcCakeDiffservMode as PartialEq>⟧.eq }
    ensures cake_atm { IsEquality ⟦<TcCakeAtm as PartialEq>⟧.eq }
    ensures cake_flow_mode { IsEquality ⟦<TcCakeFlowMode as PartialEq>⟧.eq }
    ensures cake_ack_filter { IsEquality ⟦<TcCakeAckFilter as PartialEq>⟧.eq }
{}

/// `==` answers whether two values mean the same, where they hold a vector.
pub fn law_equality_of_meanings()
    ensures stab_data { IsEqualityOf stab_data_of ⟦<TcStabData as PartialEq>⟧.eq }
    ensures fq_codel { IsEqualityOf fq_codel_family.meaning ⟦<TcQdiscFqCodelOption as PartialEq>⟧.eq }
    ensures ingress { IsEqualityOf ingress_family.meaning ⟦<TcQdiscIngressOption as PartialEq>⟧.eq }
    ensures stab { IsEqualityOf stab_family.meaning ⟦<TcStab as PartialEq>⟧.eq }
    ensures sfq_qopt { IsEqualityOf (λ x. x.bytes.items) ⟦<TcSfqQopt as PartialEq>⟧.eq }
    ensures fq_weights { IsEqualityOf fq_weights_of ⟦<TcFqWeights as PartialEq>⟧.eq }
    ensures htb { IsEqualityOf htb_family.meaning ⟦<TcQdiscHtbOption as PartialEq>⟧.eq }
    ensures tbf { IsEqualityOf tbf_family.meaning ⟦<TcQdiscTbfOption as PartialEq>⟧.eq }
    ensures red { IsEqualityOf red_family.meaning ⟦<TcQdiscRedOption as PartialEq>⟧.eq }
    ensures fq { IsEqualityOf fq_family.meaning ⟦<TcQdiscFqOption as PartialEq>⟧.eq }
    ensures netem_loss { IsEqualityOf netem_loss_family.meaning ⟦<TcNetemLoss as PartialEq>⟧.eq }
    ensures netem_option { IsEqualityOf netem_option_family.meaning ⟦<TcQdiscNetemOption as PartialEq>⟧.eq }
    ensures netem { IsEqualityOf netem_of ⟦<TcNetem as PartialEq>⟧.eq }
    ensures cake { IsEqualityOf cake_family.meaning ⟦<TcQdiscCakeOption as PartialEq>⟧.eq }
    ensures mqprio_entry { IsEqualityOf mqprio_entry_family.meaning ⟦<TcMqprioEntry as PartialEq>⟧.eq }
    ensures mqprio_option { IsEqualityOf mqprio_option_family.meaning ⟦<TcQdiscMqprioOption as PartialEq>⟧.eq }
    ensures mqprio { IsEqualityOf mqprio_of ⟦<TcMqprio as PartialEq>⟧.eq }
{}
