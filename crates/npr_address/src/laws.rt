//! The laws of address messages, over their definitions alone. Each function does nothing, and its
//! contract is the law.

ghost use Rattle.std.specs.Prelude.{◌≡◌, ◌^◌, ℕ, ◌∷◌, [], true};
ghost use Rattle.{
  npr_base.specs.{Equality.{IsEquality, IsEqualityOf}, Message.{view}, Rows.{agrees}},
  npr_address.specs.{
    AddressLabelAttribute.{family as address_label_attribute_family},
    AddressLabelHeader.{default_header as default_address_label_header},
    AddressLabelMessage.{address_labels},
    PrefixAttribute.{family as prefix_attribute_family},
    PrefixHeader.{default_header as default_prefix_header},
    PrefixMessage.{prefixes},
    AddressFlags.{address_flag_bits, header_flag_bits},
    AddressProtocol.{protocols},
    AddressScope.{scopes},
    Attribute.{family},
    Header.{default_header, header},
    Message.{addresses},
  },
};

use crate::addr_flags::{AddressFlags, AddressHeaderFlags};
use crate::addr_protocol::AddressProtocol;
use crate::addr_scope::AddressScope;
use crate::address_label::{AddressLabelHeader, AddressLabelMessage, AddressLabelMessageBuffer};
use crate::address_label_attribute::AddressLabelAttribute;
use crate::attribute::AddressAttribute;
use crate::cache_info::{CacheInfo, CacheInfoBuffer};
use crate::header::{AddressHeader, AddressMessageBuffer};
use crate::message::AddressMessage;
use crate::prefix::{PrefixHeader, PrefixMessage, PrefixMessageBuffer};
use crate::prefix_attribute::PrefixAttribute;
use crate::prefix_cache_info::CacheInfo as PrefixCacheInfo;

/// What a number reads as is written as that number.
pub fn law_numbers()
    ensures protocol { (d : ℕ) → protocols.number (protocols.of d) ≡ d }
    ensures scope { (d : ℕ) → scopes.number (scopes.of d) ≡ d }
{}

/// The named flags of an address, by their bits (`linux/if_addr.h`); those of a header are the first
/// eight.
pub fn law_address_flags()
    ensures flags { agrees address_flag_bits.number ((2 ^ 0, AddressFlags.Secondary) ∷ (2 ^ 1, AddressFlags.Nodad) ∷ (2 ^ 2, AddressFlags.Optimistic)
        ∷ (2 ^ 3, AddressFlags.Dadfailed) ∷ (2 ^ 4, AddressFlags.Homeaddress) ∷ (2 ^ 5, AddressFlags.Deprecated) ∷ (2 ^ 6, AddressFlags.Tentative)
        ∷ (2 ^ 7, AddressFlags.Permanent) ∷ (2 ^ 8, AddressFlags.Managetempaddr) ∷ (2 ^ 9, AddressFlags.Noprefixroute)
        ∷ (2 ^ 10, AddressFlags.Mcautojoin) ∷ (2 ^ 11, AddressFlags.StablePrivacy) ∷ []) ≡ true }
    ensures header_flags { agrees header_flag_bits.number ((2 ^ 0, AddressHeaderFlags.Secondary) ∷ (2 ^ 1, AddressHeaderFlags.Nodad)
        ∷ (2 ^ 2, AddressHeaderFlags.Optimistic) ∷ (2 ^ 3, AddressHeaderFlags.Dadfailed) ∷ (2 ^ 4, AddressHeaderFlags.Homeaddress)
        ∷ (2 ^ 5, AddressHeaderFlags.Deprecated) ∷ (2 ^ 6, AddressHeaderFlags.Tentative) ∷ (2 ^ 7, AddressHeaderFlags.Permanent) ∷ []) ≡ true }
{}

/// Which value is the default.
pub fn law_default()
    ensures scope { (x : AddressScope) → ⟦<AddressScope as Default>⟧.is_default x → x ≡ AddressScope.Universe }
    ensures header_flags { (x : AddressHeaderFlags) → ⟦<AddressHeaderFlags as Default>⟧.is_default x → x ≡ header_flag_bits.of 0 }
    ensures cache_info { (x : CacheInfo) → ⟦<CacheInfo as Default>⟧.is_default x → x ≡ record { ifa_preferred = 0; ifa_valid = 0; cstamp = 0; tstamp = 0 } }
    ensures header { (x : AddressHeader) → ⟦<AddressHeader as Default>⟧.is_default x → x ≡ default_header }
{}

/// `==` answers whether two values are equal, or mean the same where they hold a vector or a text.
pub fn law_equality()
    ensures address_flags { IsEquality ⟦<AddressFlags as PartialEq>⟧.eq }
    ensures header_flags { IsEquality ⟦<AddressHeaderFlags as PartialEq>⟧.eq }
    ensures protocol { IsEquality ⟦<AddressProtocol as PartialEq>⟧.eq }
    ensures scope { IsEquality ⟦<AddressScope as PartialEq>⟧.eq }
    ensures cache_info { IsEquality ⟦<CacheInfo as PartialEq>⟧.eq }
    ensures cache_info_buffer { IsEquality ⟦<CacheInfoBuffer as PartialEq>⟧.eq }
    ensures header { IsEquality ⟦<AddressHeader as PartialEq>⟧.eq }
    ensures header_buffer { IsEquality ⟦<AddressMessageBuffer as PartialEq>⟧.eq }
    ensures attribute { IsEqualityOf family.meaning ⟦<AddressAttribute as PartialEq>⟧.eq }
    ensures message { IsEqualityOf (view addresses) ⟦<AddressMessage as PartialEq>⟧.eq }
{}

/// Which value is the default: each number is 0.
pub fn law_label_default()
    ensures address_label_header { (x : AddressLabelHeader) → ⟦<AddressLabelHeader as Default>⟧.is_default x → x ≡ default_address_label_header }
    ensures prefix_cache_info { (x : PrefixCacheInfo) → ⟦<PrefixCacheInfo as Default>⟧.is_default x → x ≡ record { preferred_time = 0; valid_time = 0 } }
    ensures prefix_header { (x : PrefixHeader) → ⟦<PrefixHeader as Default>⟧.is_default x → x ≡ default_prefix_header }
{}

/// `==` of headers, layouts and structures answers whether two values are equal.
pub fn law_label_equality()
    ensures address_label_header { IsEquality ⟦<AddressLabelHeader as PartialEq>⟧.eq }
    ensures address_label_buffer { IsEquality ⟦<AddressLabelMessageBuffer as PartialEq>⟧.eq }
    ensures prefix_cache_info { IsEquality ⟦<PrefixCacheInfo as PartialEq>⟧.eq }
    ensures prefix_header { IsEquality ⟦<PrefixHeader as PartialEq>⟧.eq }
    ensures prefix_buffer { IsEquality ⟦<PrefixMessageBuffer as PartialEq>⟧.eq }
{}

/// `==` of attributes and messages answers whether two values mean the same.
pub fn law_label_equality_of_meanings()
    ensures address_label_attribute { IsEqualityOf address_label_attribute_family.meaning ⟦<AddressLabelAttribute as PartialEq>⟧.eq }
    ensures prefix_attribute { IsEqualityOf prefix_attribute_family.meaning ⟦<PrefixAttribute as PartialEq>⟧.eq }
    ensures address_label_message { IsEqualityOf (view address_labels) ⟦<AddressLabelMessage as PartialEq>⟧.eq }
    ensures prefix_message { IsEqualityOf (view prefixes) ⟦<PrefixMessage as PartialEq>⟧.eq }
{}
