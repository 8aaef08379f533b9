//! The laws of filters, over their definitions alone. Each function does nothing, and its contract is the
//! law.

ghost use Rattle.std.specs.Prelude.{◌≡◌, ◌^◌, ◌∷◌, [], true, pos};
ghost use Rattle.{
  npr_base.specs.{Equality.{IsEquality, IsEqualityOf}, Rows.{agrees}},
  npr_tc_filters.specs.{
    Basic.{family as basic_family},
    Bpf.{family as bpf_family},
    Ematch.{family as ematch_family},
    EmatchTree.{family as ematch_tree_family},
    Flower.{family as flower_family},
    FlowerCfm.{family as flower_cfm_family},
    FlowerMpls.{family as flower_mpls_family},
    FlowerMplsLse.{family as flower_mpls_lse_family},
    Fw.{family as fw_family},
    Hits.{u32_hits, match_all_hits, basic_hits},
    MatchAll.{family as match_all_family},
    U32Option.{family as u32_family},
    U32OptionFlags.{u32_option_flag_bits},
    U32Selector.{u32_parts},
    U32SelectorFlags.{u32_selector_flag_bits},
  },
};

use crate::basic::TcFilterBasicOption;
use crate::basic_pcnt::TcBasicPcnt;
use crate::bpf::TcFilterBpfOption;
use crate::ematch::TcEmatch;
use crate::ematch_header::TcEmatchHeader;
use crate::ematch_tree::TcEmatchTree;
use crate::ematch_tree_header::TcEmatchTreeHeader;
use crate::flower_cfm::TcFlowerCfmOption;
use crate::flower_mpls::TcFilterFlowerMplsOption;
use crate::flower_mpls_lse::TcFilterFlowerMplsLseOption;
use crate::flower_option::TcFilterFlowerOption;
use crate::fw::TcFilterFwOption;
use crate::match_all::TcFilterMatchAllOption;
use crate::match_all_pcnt::TcMatchAllPcnt;
use crate::u32_key::TcU32Key;
use crate::u32_mark::TcU32Mark;
use crate::u32_option::TcFilterU32Option;
use crate::u32_option_flags::TcU32OptionFlags;
use crate::u32_pcnt::TcU32Pcnt;
use crate::u32_selector::TcU32Selector;
use crate::u32_selector_flags::TcU32SelectorFlags;

/// The named flags, by their bits (`linux/pkt_cls.h`).
pub fn law_flags()
    ensures selector { agrees u32_selector_flag_bits.number ((2 ^ 0, TcU32SelectorFlags.Terminal) ∷ (2 ^ 1, TcU32SelectorFlags.Offset)
        ∷ (2 ^ 2, TcU32SelectorFlags.VarOffset) ∷ (2 ^ 3, TcU32SelectorFlags.Eat) ∷ []) ≡ true }
    ensures option { agrees u32_option_flag_bits.number ((2 ^ 0, TcU32OptionFlags.SkipHw) ∷ (2 ^ 1, TcU32OptionFlags.SkipSw)
        ∷ (2 ^ 2, TcU32OptionFlags.InHw) ∷ (2 ^ 3, TcU32OptionFlags.NotInHw) ∷ (2 ^ 4, TcU32OptionFlags.Verbose) ∷ []) ≡ true }
{}

/// Which value is the default.
pub fn law_default()
    ensures selector_flags { (x : TcU32SelectorFlags) → ⟦<TcU32SelectorFlags as Default>⟧.is_default x → x ≡ u32_selector_flag_bits.of 0 }
    ensures option_flags { (x : TcU32OptionFlags) → ⟦<TcU32OptionFlags as Default>⟧.is_default x → x ≡ u32_option_flag_bits.of 0 }
    ensures key { (x : TcU32Key) → ⟦<TcU32Key as Default>⟧.is_default x → x ≡ record { mask = 0; val = 0; off = pos 0; offmask = pos 0 } }
    ensures mark { (x : TcU32Mark) → ⟦<TcU32Mark as Default>⟧.is_default x → x ≡ record { val = 0; mask = 0; success = 0 } }
    ensures ematch_header { (x : TcEmatchHeader) → ⟦<TcEmatchHeader as Default>⟧.is_default x → x ≡ record { matchid = 0; kind = 0; flags = 0 } }
    ensures ematch_tree_header { (x : TcEmatchTreeHeader) → ⟦<TcEmatchTreeHeader as Default>⟧.is_default x → x ≡ record { nmatches = 0; progid = 0 } }
{}

/// `==` answers whether two values are equal.
pub fn law_equality()
    ensures selector_flags { IsEquality ⟦<TcU32SelectorFlags as PartialEq>⟧.eq }
    ensures option_flags { IsEquality ⟦<TcU32OptionFlags as PartialEq>⟧.eq }
    ensures key { IsEquality ⟦<TcU32Key as PartialEq>⟧.eq }
    ensures mark { IsEquality ⟦<TcU32Mark as PartialEq>⟧.eq }
    ensures ematch_header { IsEquality ⟦<TcEmatchHeader as PartialEq>⟧.eq }
    ensures ematch_tree_header { IsEquality ⟦<TcEmatchTreeHeader as PartialEq>⟧.eq }
{}

/// `==` answers whether two values mean the same, where they hold a vector.
pub fn law_equality_of_meanings()
    ensures u32_pcnt { IsEqualityOf u32_hits ⟦<TcU32Pcnt as PartialEq>⟧.eq }
    ensures match_all_pcnt { IsEqualityOf match_all_hits ⟦<TcMatchAllPcnt as PartialEq>⟧.eq }
    ensures basic_pcnt { IsEqualityOf basic_hits ⟦<TcBasicPcnt as PartialEq>⟧.eq }
    ensures selector { IsEqualityOf u32_parts ⟦<TcU32Selector as PartialEq>⟧.eq }
    ensures u32 { IsEqualityOf u32_family.meaning ⟦<TcFilterU32Option as PartialEq>⟧.eq }
    ensures match_all { IsEqualityOf match_all_family.meaning ⟦<TcFilterMatchAllOption as PartialEq>⟧.eq }
    ensures fw { IsEqualityOf fw_family.meaning ⟦<TcFilterFwOption as PartialEq>⟧.eq }
    ensures bpf { IsEqualityOf bpf_family.meaning ⟦<TcFilterBpfOption as PartialEq>⟧.eq }
    ensures ematch { IsEqualityOf ematch_family.meaning ⟦<TcEmatch as PartialEq>⟧.eq }
    ensures ematch_tree { IsEqualityOf ematch_tree_family.meaning ⟦<TcEmatchTree as PartialEq>⟧.eq }
    ensures basic { IsEqualityOf basic_family.meaning ⟦<TcFilterBasicOption as PartialEq>⟧.eq }
    ensures flower_cfm { IsEqualityOf flower_cfm_family.meaning ⟦<TcFlowerCfmOption as PartialEq>⟧.eq }
    ensures flower_mpls_lse { IsEqualityOf flower_mpls_lse_family.meaning ⟦<TcFilterFlowerMplsLseOption as PartialEq>⟧.eq }
    ensures flower_mpls { IsEqualityOf flower_mpls_family.meaning ⟦<TcFilterFlowerMplsOption as PartialEq>⟧.eq }
    ensures flower { IsEqualityOf flower_family.meaning ⟦<TcFilterFlowerOption as PartialEq>⟧.eq }
{}
