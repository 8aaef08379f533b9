//! The laws of rule messages, over their definitions alone. Each function does nothing, and its
//! contract is the law.

ghost use Rattle.std.specs.Prelude.{◌≡◌, ◌^◌, ℕ, ◌∷◌, [], true};
ghost use Rattle.{
  npr_base.specs.{Equality.{IsEquality, IsEqualityOf}, Message.{view}, Rows.{agrees}},
  npr_rule.specs.{
    Action.{actions},
    Attribute.{family},
    Flags.{rule_flag_bits},
    Header.{default_header, header},
    Message.{rules},
  },
};

use crate::action::RuleAction;
use crate::attribute::RuleAttribute;
use crate::flags::RuleFlags;
use crate::header::{RuleHeader, RuleMessageBuffer};
use crate::message::RuleMessage;
use crate::port_range::RulePortRange;
use crate::uid_range::RuleUidRange;

/// What a number reads as is written as that number.
pub fn law_numbers()
    ensures { (d : ℕ) → actions.number (actions.of d) ≡ d }
{}

/// The named flags of a rule, by their bits (`linux/fib_rules.h`).
pub fn law_rule_flags()
    ensures { agrees rule_flag_bits.number ((2 ^ 0, RuleFlags.Permanent) ∷ (2 ^ 1, RuleFlags.Invert) ∷ (2 ^ 2, RuleFlags.Unresolved)
        ∷ (2 ^ 3, RuleFlags.IifDetached) ∷ (2 ^ 3, RuleFlags.DevDetached) ∷ (2 ^ 4, RuleFlags.OifDetached) ∷ []) ≡ true }
{}

/// Which value is the default.
pub fn law_default()
    ensures action { (x : RuleAction) → ⟦<RuleAction as Default>⟧.is_default x → x ≡ RuleAction.Unspec }
    ensures flags { (x : RuleFlags) → ⟦<RuleFlags as Default>⟧.is_default x → x ≡ rule_flag_bits.of 0 }
    ensures header { (x : RuleHeader) → ⟦<RuleHeader as Default>⟧.is_default x → x ≡ default_header }
{}

/// `==` answers whether two values are equal, or mean the same where they hold a vector or a text.
pub fn law_equality()
    ensures flags { IsEquality ⟦<RuleFlags as PartialEq>⟧.eq }
    ensures action { IsEquality ⟦<RuleAction as PartialEq>⟧.eq }
    ensures port_range { IsEquality ⟦<RulePortRange as PartialEq>⟧.eq }
    ensures uid_range { IsEquality ⟦<RuleUidRange as PartialEq>⟧.eq }
    ensures header { IsEquality ⟦<RuleHeader as PartialEq>⟧.eq }
    ensures header_buffer { IsEquality ⟦<RuleMessageBuffer as PartialEq>⟧.eq }
    ensures attribute { IsEqualityOf family.meaning ⟦<RuleAttribute as PartialEq>⟧.eq }
    ensures message { IsEqualityOf (view rules) ⟦<RuleMessage as PartialEq>⟧.eq }
{}
