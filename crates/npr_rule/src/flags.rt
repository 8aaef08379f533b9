//! The flags of a rule: `FIB_RULE_*` of `linux/fib_rules.h`. Every bit is kept.

ghost use Rattle.std.specs.Prelude.{⊤, [], ◌∷◌, codes};
ghost use Rattle.npr_rule.specs.Flags.{rule_flag_bits};

use bitflags::{Flag, Flags};
use npr_base::named_flags;

/// The flags of a rule.
#[derive(Clone, Copy, Debug, Default, PartialEq, Eq)]
pub struct RuleFlags(u32);

impl RuleFlags {
    /// `FIB_RULE_PERMANENT`.
    pub const Permanent: RuleFlags = RuleFlags(0x1);

    /// `FIB_RULE_INVERT`.
    pub const Invert: RuleFlags = RuleFlags(0x2);

    /// `FIB_RULE_UNRESOLVED`.
    pub const Unresolved: RuleFlags = RuleFlags(0x4);

    /// `FIB_RULE_IIF_DETACHED`.
    pub const IifDetached: RuleFlags = RuleFlags(0x8);

    /// `FIB_RULE_DEV_DETACHED`.
    pub const DevDetached: RuleFlags = RuleFlags(0x8);

    /// `FIB_RULE_OIF_DETACHED`.
    pub const OifDetached: RuleFlags = RuleFlags(0x10);

    const FLAGS: &'static [Flag<RuleFlags>] = named_flags![RuleFlags:
        Permanent, Invert, Unresolved, IifDetached, DevDetached, OifDetached;
        u32::MAX
    ];
}

impl Flags for RuleFlags {
    type Bits = u32;

    ghost exact = { ⊤ };

    ghost table = { (codes "Permanent", 1) ∷ (codes "Invert", 2) ∷ (codes "Unresolved", 4) ∷ (codes "IifDetached", 8) ∷ (codes "DevDetached", 8) ∷ (codes "OifDetached", 16) ∷ ([], 4294967295) ∷ [] };

    ghost set_of = { rule_flag_bits.number };

    fn flags<'a>() -> &'a [Flag<RuleFlags>] {
        RuleFlags::FLAGS
    }

    fn bits(&self) -> u32 {
        self.0
    }

    fn from_bits_retain(bits: u32) -> RuleFlags {
        RuleFlags(bits)
    }
}
