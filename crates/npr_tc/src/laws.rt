//! The laws of messages of traffic control, over their definitions alone. Each function does nothing, and
//! its contract is the law.

ghost use Rattle.std.specs.Prelude.{◌≡◌, ◌^◌, ◌∷◌, [], ℕ, List, true};
ghost use Rattle.{
  npr_base.specs.{Equality.{IsEquality, IsEqualityOf}, FirstTold.{Governs, first_told}, Message.{view}, Rows.{agrees}},
  npr_tc_values.specs.declared.form.TcForm.{TcForm, TheVariants.{Kept}},
  npr_tc.specs.{
    ActionAttribute.{family as action_family},
    ActionFlags.{action_flag_bits},
    ActionHeader.{default_header as default_action_header},
    ActionMessage.{messages as action_messages},
    Attribute.{Meaning, meaning, tells, told},
    Header.{default_header},
    Message.{body, messages},
    Options.{options_of},
  },
};

use crate::action_attribute::TcActionMessageAttribute;
use crate::action_flags::{TcActionMessageFlags, TcActionMessageFlagsWithSelector};
use crate::action_header::{TcActionMessage, TcActionMessageBuffer, TcActionMessageHeader};
use crate::attribute::TcAttribute;
use crate::header::{TcHeader, TcMessageBuffer};
use crate::message::TcMessage;
use crate::option::TcOption;

/// The named flags, by their bits (`linux/rtnetlink.h`).
pub fn law_flags()
    ensures { agrees action_flag_bits.number ((2 ^ 0, TcActionMessageFlags.LargeDump) ∷ (2 ^ 1, TcActionMessageFlags.TerseDump) ∷ []) ≡ true }
{}

/// Which value is the default.
pub fn law_default()
    ensures flags { (x : TcActionMessageFlags) → ⟦<TcActionMessageFlags as Default>⟧.is_default x → x ≡ action_flag_bits.of 0 }
    ensures header { (x : TcHeader) → ⟦<TcHeader as Default>⟧.is_default x → x ≡ default_header }
    ensures action_header { (x : TcActionMessageHeader) → ⟦<TcActionMessageHeader as Default>⟧.is_default x → x ≡ default_action_header }
{}

/// One form governs a message, whatever its bytes are; and where the bytes are a message, that is the form
/// of the first kind among its attributes.
pub fn law_governing_form()
    ensures one { (a b : TcForm) (bytes : List ℕ) → Governs tells Kept bytes a → Governs tells Kept bytes b → a ≡ b }
    ensures first { (h : TcHeader) (bytes : List ℕ) (xs : List Meaning) → body.Reads h bytes xs → Governs tells Kept bytes (first_told told Kept xs) }
{}

/// `==` answers whether two values are equal.
pub fn law_equality()
    ensures flags { IsEquality ⟦<TcActionMessageFlags as PartialEq>⟧.eq }
    ensures with_selector { IsEquality ⟦<TcActionMessageFlagsWithSelector as PartialEq>⟧.eq }
    ensures header { IsEquality ⟦<TcHeader as PartialEq>⟧.eq }
    ensures header_buffer { IsEquality ⟦<TcMessageBuffer as PartialEq>⟧.eq }
    ensures action_header { IsEquality ⟦<TcActionMessageHeader as PartialEq>⟧.eq }
    ensures action_header_buffer { IsEquality ⟦<TcActionMessageBuffer as PartialEq>⟧.eq }
{}

/// `==` answers whether two values mean the same, where they hold a vector.
pub fn law_equality_of_meanings()
    ensures option { IsEqualityOf options_of ⟦<TcOption as PartialEq>⟧.eq }
    ensures attribute { IsEqualityOf meaning ⟦<TcAttribute as PartialEq>⟧.eq }
    ensures message { IsEqualityOf (view messages) ⟦<TcMessage as PartialEq>⟧.eq }
    ensures action_attribute { IsEqualityOf action_family.meaning ⟦<TcActionMessageAttribute as PartialEq>⟧.eq }
    ensures action_message { IsEqualityOf (view action_messages) ⟦<TcActionMessage as PartialEq>⟧.eq }
{}
