//! What an action does with the connection of a packet: `linux/tc_act/tc_ct.h`. Every bit is kept.

ghost use Rattle.std.specs.Prelude.{⊤, [], ◌∷◌, codes};
ghost use Rattle.npr_tc_actions.specs.CtFlags.{ct_flag_bits};

use bitflags::{Flag, Flags};
use npr_base::named_flags;

/// What an action does with the connection of a packet (`linux/tc_act/tc_ct.h`). They are written as 2 bytes, little endian.
#[derive(Clone, Copy, Debug, Default, PartialEq, Eq)]
pub struct TcCtFlags(u16);

impl TcCtFlags {
    /// `TCA_CT_ACT_COMMIT`: it is kept.
    pub const Commit: TcCtFlags = TcCtFlags(0x1);

    /// `TCA_CT_ACT_FORCE`: one of the other direction is made anew.
    pub const Force: TcCtFlags = TcCtFlags(0x2);

    /// `TCA_CT_ACT_CLEAR`: it is forgotten.
    pub const Clear: TcCtFlags = TcCtFlags(0x4);

    /// `TCA_CT_ACT_NAT`: addresses are changed.
    pub const Nat: TcCtFlags = TcCtFlags(0x8);

    /// `TCA_CT_ACT_NAT_SRC`: those of the source.
    pub const NatSrc: TcCtFlags = TcCtFlags(0x10);

    /// `TCA_CT_ACT_NAT_DST`: those of the destination.
    pub const NatDst: TcCtFlags = TcCtFlags(0x20);

    const FLAGS: &'static [Flag<TcCtFlags>] = named_flags![TcCtFlags:
        Commit, Force, Clear, Nat, NatSrc, NatDst;
        u16::MAX
    ];
}

impl Flags for TcCtFlags {
    type Bits = u16;

    ghost exact = { ⊤ };

    ghost table = { (codes "Commit", 1) ∷ (codes "Force", 2) ∷ (codes "Clear", 4) ∷ (codes "Nat", 8) ∷ (codes "NatSrc", 16) ∷ (codes "NatDst", 32) ∷ ([], 65535) ∷ [] };

    ghost set_of = { ct_flag_bits.number };

    fn flags<'a>() -> &'a [Flag<TcCtFlags>] {
        TcCtFlags::FLAGS
    }

    fn bits(&self) -> u16 {
        self.0
    }

    fn from_bits_retain(bits: u16) -> TcCtFlags {
        TcCtFlags(bits)
    }
}
