//! What a rule does: `FR_ACT_*` of `linux/fib_rules.h`.

ghost use Rattle.std.specs.Prelude.{◌≡◌};
ghost use Rattle.npr_rule.specs.Action.{actions};

/// What a rule does: `FR_ACT_*` of `linux/fib_rules.h`.
#[derive(Clone, Copy, Debug, Default, PartialEq, Eq)]
pub enum RuleAction {
    /// Nothing.
    #[default]
    Unspec,
    /// Look the route up in the table.
    ToTable,
    /// Go on at another rule.
    Goto,
    /// Go on at the next rule.
    Nop,
    /// Drop the packet.
    Blackhole,
    /// Drop it, and say that the host can't be reached.
    Unreachable,
    /// Drop it, and say that it is not allowed.
    Prohibit,
    /// Any other number.
    Other(u8),
}

/// Their numbers.
macro_rules! numbers {
    ($body:ident ($($given:tt)*)) => {
        npr_base::$body!(($($given)*) RuleAction {
            0 Unspec;
            1 ToTable;
            2 Goto;
            3 Nop;
            6 Blackhole;
            7 Unreachable;
            8 Prohibit;
        })
    };
}

impl From<u8> for RuleAction {
    ghost from_gives = { λ number action. action ≡ actions.of number };

    fn from(number: u8) -> RuleAction {
        numbers!(variant_of_number(number))
    }
}

impl From<RuleAction> for u8 {
    ghost from_gives = { λ action number. number ≡ actions.number action };

    fn from(action: RuleAction) -> u8 {
        numbers!(number_of_variant(action))
    }
}
