//! The laws of neighbour messages, over their definitions alone. Each function does nothing, and its
//! contract is the law.

ghost use Rattle.std.specs.Prelude.{◌≡◌, ◌^◌, ◌∷◌, [], true};
ghost use Rattle.{
  npr_base.specs.{Equality.{IsEquality, IsEqualityOf}, Message.{view}, Rows.{agrees}},
  npr_neighbour.specs.{
    NeighbourTableAttribute.{family as neighbour_table_attribute_family},
    NeighbourTableHeader.{default_header as default_neighbour_table_header},
    NeighbourTableMessage.{neighbour_tables},
    NeighbourTableParameter.{family as neighbour_table_parameter_family},
    Attribute.{family},
    Fdb.{family as fdb_family},
    Flags.{flag_bits, ext_flag_bits, fdb_notify_bits},
    Header.{default_header, header},
    Message.{neighbours},
    NeighbourAddress.{Address, address_of, neighbour_address},
    State.{state_bits},
  },
};

use crate::address::NeighbourAddress;
use crate::attribute::NeighbourAttribute;
use crate::cache_info::NeighbourCacheInfo;
use crate::fdb::NeighbourFdbAttribute;
use crate::flags::{NeighbourExtFlags, NeighbourFdbNotify, NeighbourFlags};
use crate::header::{NeighbourHeader, NeighbourMessageBuffer};
use crate::message::NeighbourMessage;
use crate::neighbour_table::{
    NeighbourTableHeader, NeighbourTableMessage, NeighbourTableMessageBuffer,
};
use crate::neighbour_table_attribute::NeighbourTableAttribute;
use crate::neighbour_table_config::NeighbourTableConfig;
use crate::neighbour_table_parameter::NeighbourTableParameter;
use crate::neighbour_table_stats::NeighbourTableStats;
use crate::state::NeighbourState;
use npr_base::AddressFamily;

/// The named states of a neighbour, by their bits (`linux/neighbour.h`).
pub fn law_neighbour_states()
    ensures { agrees state_bits.number ((0, NeighbourState.None) ∷ (2 ^ 0, NeighbourState.Incomplete) ∷ (2 ^ 1, NeighbourState.Reachable)
        ∷ (2 ^ 2, NeighbourState.Stale) ∷ (2 ^ 3, NeighbourState.Delay) ∷ (2 ^ 4, NeighbourState.Probe) ∷ (2 ^ 5, NeighbourState.Failed)
        ∷ (2 ^ 6, NeighbourState.Noarp) ∷ (2 ^ 7, NeighbourState.Permanent) ∷ []) ≡ true }
{}

/// The named flags of a neighbour, by their bits (`linux/neighbour.h`).
pub fn law_neighbour_flags()
    ensures flags { agrees flag_bits.number ((2 ^ 0, NeighbourFlags.Use) ∷ (2 ^ 1, NeighbourFlags.Own) ∷ (2 ^ 2, NeighbourFlags.Controller)
        ∷ (2 ^ 3, NeighbourFlags.Proxy) ∷ (2 ^ 4, NeighbourFlags.ExtLearned) ∷ (2 ^ 5, NeighbourFlags.Offloaded) ∷ (2 ^ 6, NeighbourFlags.Sticky)
        ∷ (2 ^ 7, NeighbourFlags.Router) ∷ []) ≡ true }
    ensures ext_flags { agrees ext_flag_bits.number ((2 ^ 0, NeighbourExtFlags.Managed) ∷ (2 ^ 1, NeighbourExtFlags.Locked) ∷ (2 ^ 2, NeighbourExtFlags.ExtValidated) ∷ []) ≡ true }
    ensures fdb_notify { agrees fdb_notify_bits.number ((2 ^ 0, NeighbourFdbNotify.Notify) ∷ (2 ^ 1, NeighbourFdbNotify.Inactive) ∷ []) ≡ true }
{}

/// An address that its family can hold is read again from its bytes.
pub fn law_read_back()
    ensures { (family : AddressFamily) (a : Address) → (neighbour_address family).Holds a → (neighbour_address family).Reads ((neighbour_address family).encode a) a }
{}

/// Which value is the default.
pub fn law_default()
    ensures state { (x : NeighbourState) → ⟦<NeighbourState as Default>⟧.is_default x → x ≡ state_bits.of 0 }
    ensures flags { (x : NeighbourFlags) → ⟦<NeighbourFlags as Default>⟧.is_default x → x ≡ flag_bits.of 0 }
    ensures ext_flags { (x : NeighbourExtFlags) → ⟦<NeighbourExtFlags as Default>⟧.is_default x → x ≡ ext_flag_bits.of 0 }
    ensures fdb_notify { (x : NeighbourFdbNotify) → ⟦<NeighbourFdbNotify as Default>⟧.is_default x → x ≡ fdb_notify_bits.of 0 }
    ensures cache_info { (x : NeighbourCacheInfo) → ⟦<NeighbourCacheInfo as Default>⟧.is_default x → x ≡ record { confirmed = 0; used = 0; updated = 0; refcnt = 0 } }
    ensures header { (x : NeighbourHeader) → ⟦<NeighbourHeader as Default>⟧.is_default x → x ≡ default_header }
{}

/// `==` answers whether two values are equal, or mean the same where they hold a vector.
pub fn law_equality()
    ensures state { IsEquality ⟦<NeighbourState as PartialEq>⟧.eq }
    ensures flags { IsEquality ⟦<NeighbourFlags as PartialEq>⟧.eq }
    ensures ext_flags { IsEquality ⟦<NeighbourExtFlags as PartialEq>⟧.eq }
    ensures fdb_notify { IsEquality ⟦<NeighbourFdbNotify as PartialEq>⟧.eq }
    ensures cache_info { IsEquality ⟦<NeighbourCacheInfo as PartialEq>⟧.eq }
    ensures header { IsEquality ⟦<NeighbourHeader as PartialEq>⟧.eq }
    ensures header_buffer { IsEquality ⟦<NeighbourMessageBuffer as PartialEq>⟧.eq }
    ensures address { IsEqualityOf address_of ⟦<NeighbourAddress as PartialEq>⟧.eq }
    ensures fdb { IsEqualityOf fdb_family.meaning ⟦<NeighbourFdbAttribute as PartialEq>⟧.eq }
    ensures attribute { IsEqualityOf family.meaning ⟦<NeighbourAttribute as PartialEq>⟧.eq }
    ensures message { IsEqualityOf (view neighbours) ⟦<NeighbourMessage as PartialEq>⟧.eq }
{}

/// Which value is the default: each number is 0.
pub fn law_table_default()
    ensures neighbour_table_config { (x : NeighbourTableConfig) → ⟦<NeighbourTableConfig as Default>⟧.is_default x → x ≡ record { key_len = 0; entry_size = 0; entries = 0; last_flush = 0; last_rand = 0; hash_rand = 0; hash_mask = 0; hash_chain_gc = 0; proxy_qlen = 0 } }
    ensures neighbour_table_stats { (x : NeighbourTableStats) → ⟦<NeighbourTableStats as Default>⟧.is_default x → x ≡ record { allocs = 0; destroys = 0; hash_grows = 0; res_failed = 0; lookups = 0; hits = 0; multicast_probes_received = 0; unicast_probes_received = 0; periodic_gc_runs = 0; forced_gc_runs = 0; table_fulls = 0 } }
    ensures neighbour_table_header { (x : NeighbourTableHeader) → ⟦<NeighbourTableHeader as Default>⟧.is_default x → x ≡ default_neighbour_table_header }
{}

/// `==` of headers, layouts and structures answers whether two values are equal.
pub fn law_table_equality()
    ensures neighbour_table_config { IsEquality ⟦<NeighbourTableConfig as PartialEq>⟧.eq }
    ensures neighbour_table_stats { IsEquality ⟦<NeighbourTableStats as PartialEq>⟧.eq }
    ensures neighbour_table_header { IsEquality ⟦<NeighbourTableHeader as PartialEq>⟧.eq }
    ensures neighbour_table_buffer { IsEquality ⟦<NeighbourTableMessageBuffer as PartialEq>⟧.eq }
{}

/// `==` of attributes and messages answers whether two values mean the same.
pub fn law_table_equality_of_meanings()
    ensures neighbour_table_parameter { IsEqualityOf neighbour_table_parameter_family.meaning ⟦<NeighbourTableParameter as PartialEq>⟧.eq }
    ensures neighbour_table_attribute { IsEqualityOf neighbour_table_attribute_family.meaning ⟦<NeighbourTableAttribute as PartialEq>⟧.eq }
    ensures neighbour_table_message { IsEqualityOf (view neighbour_tables) ⟦<NeighbourTableMessage as PartialEq>⟧.eq }
{}
