//! The laws of next hop messages, over their definitions alone. Each function does nothing, and its
//! contract is the law.

ghost use Rattle.std.specs.Prelude.{◌≡◌, ◌^◌, ◌∷◌, [], ℕ, List, true};
ghost use Rattle.{
  npr_base.specs.{Equality.{IsEquality, IsEqualityOf}, Message.{view}, Rows.{agrees}},
  npr_encapsulation.specs.declared.encap_type.RouteLwEnCapType.{RouteLwEnCapType},
  npr_nexthop.specs.{
    Attribute.{Meaning, family},
    Governing.{Governs, first_type},
    GroupStats.{family as group_stats_family},
    GroupStatsEntry.{family as group_stats_entry_family},
    GroupType.{group_types},
    Header.{default_header},
    Message.{IsNextHopList, next_hops},
    OpFlags.{op_flag_bits},
    ResBucket.{family as res_bucket_family},
    ResGroup.{family as res_group_family},
  },
};

use crate::attribute::NextHopAttribute;
use crate::group::NextHopGroupEntry;
use crate::group_stats::NextHopGroupStats;
use crate::group_stats_entry::NextHopGroupStatsEntry;
use crate::group_type::NextHopGroupType;
use crate::header::{NextHopHeader, NextHopMessageBuffer};
use crate::message::NextHopMessage;
use crate::op_flags::NextHopOpFlags;
use crate::res_bucket::NextHopResBucket;
use crate::res_group::NextHopResGroup;

/// What a number reads as is written as that number.
pub fn law_numbers()
    ensures { (d : ℕ) → group_types.number (group_types.of d) ≡ d }
{}

/// The named flags, by their bits (`linux/nexthop.h`).
pub fn law_flags()
    ensures { agrees op_flag_bits.number ((2 ^ 0, NextHopOpFlags.DumpStats) ∷ (2 ^ 1, NextHopOpFlags.DumpHwStats)
        ∷ (2 ^ 31, NextHopOpFlags.RespGrpResvd0) ∷ []) ≡ true }
{}

/// Which value is the default.
pub fn law_default()
    ensures op_flags { (x : NextHopOpFlags) → ⟦<NextHopOpFlags as Default>⟧.is_default x → x ≡ op_flag_bits.of 0 }
    ensures group_entry { (x : NextHopGroupEntry) → ⟦<NextHopGroupEntry as Default>⟧.is_default x → x ≡ record { id = 0; weight = 0 } }
    ensures header { (x : NextHopHeader) → ⟦<NextHopHeader as Default>⟧.is_default x → x ≡ default_header }
{}

/// One type of encapsulation governs a list, whatever its bytes are; and where the bytes are a list,
/// that is the first type that its attributes hold, or `None`.
pub fn law_governing_type()
    ensures one { (a b : RouteLwEnCapType) (bytes : List ℕ) → Governs bytes a → Governs bytes b → a ≡ b }
    ensures first { (h : NextHopHeader) (bytes : List ℕ) (xs : List Meaning) → IsNextHopList h bytes xs → Governs bytes (first_type xs) }
{}

/// `==` answers whether two values are equal.
pub fn law_equality()
    ensures group_type { IsEquality ⟦<NextHopGroupType as PartialEq>⟧.eq }
    ensures op_flags { IsEquality ⟦<NextHopOpFlags as PartialEq>⟧.eq }
    ensures group_entry { IsEquality ⟦<NextHopGroupEntry as PartialEq>⟧.eq }
    ensures header { IsEquality ⟦<NextHopHeader as PartialEq>⟧.eq }
    ensures header_buffer { IsEquality ⟦<NextHopMessageBuffer as PartialEq>⟧.eq }
{}

/// `==` answers whether two values mean the same, where they hold a vector.
pub fn law_equality_of_meanings()
    ensures res_group { IsEqualityOf res_group_family.meaning ⟦<NextHopResGroup as PartialEq>⟧.eq }
    ensures res_bucket { IsEqualityOf res_bucket_family.meaning ⟦<NextHopResBucket as PartialEq>⟧.eq }
    ensures group_stats_entry { IsEqualityOf group_stats_entry_family.meaning ⟦<NextHopGroupStatsEntry as PartialEq>⟧.eq }
    ensures group_stats { IsEqualityOf group_stats_family.meaning ⟦<NextHopGroupStats as PartialEq>⟧.eq }
    ensures attribute { IsEqualityOf family.meaning ⟦<NextHopAttribute as PartialEq>⟧.eq }
    ensures message { IsEqualityOf (view next_hops) ⟦<NextHopMessage as PartialEq>⟧.eq }
{}
