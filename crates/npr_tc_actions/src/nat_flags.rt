//! How an action changes addresses: `TCA_NAT_FLAG_*` of `linux/tc_act/tc_nat.h`, and those of actions of
//! `linux/pkt_cls.h`. Every bit is kept.

ghost use Rattle.std.specs.Prelude.{⊤, [], ◌∷◌, codes};
ghost use Rattle.npr_tc_actions.specs.NatFlags.{nat_flag_bits};

use bitflags::{Flag, Flags};
use npr_base::named_flags;

/// How an action changes addresses: `TCA_NAT_FLAG_EGRESS` of `linux/tc_act/tc_nat.h`, and
/// `TCA_ACT_FLAGS_*` as kernels have them. They are written as 4 bytes, little endian.
#[derive(Clone, Copy, Debug, Default, PartialEq, Eq)]
pub struct TcNatFlags(u32);

impl TcNatFlags {
    /// `TCA_NAT_FLAG_EGRESS`: that of the source, on the way out.
    pub const Egress: TcNatFlags = TcNatFlags(0x1);

    /// `TCA_ACT_FLAGS_POLICE`: it was made as a police.
    pub const Police: TcNatFlags = TcNatFlags(0x1_0000);

    /// `TCA_ACT_FLAGS_BIND`: a filter holds it.
    pub const Bind: TcNatFlags = TcNatFlags(0x2_0000);

    /// `TCA_ACT_FLAGS_REPLACE`: it takes the place of another.
    pub const Replace: TcNatFlags = TcNatFlags(0x4_0000);

    /// `TCA_ACT_FLAGS_NO_RTNL`: it was made without the lock of rtnetlink.
    pub const NoRtnl: TcNatFlags = TcNatFlags(0x8_0000);

    /// `TCA_ACT_FLAGS_AT_INGRESS`: it stands on the way in.
    pub const AtIngress: TcNatFlags = TcNatFlags(0x10_0000);

    const FLAGS: &'static [Flag<TcNatFlags>] = named_flags![TcNatFlags:
        Egress, Police, Bind, Replace, NoRtnl, AtIngress;
        u32::MAX
    ];
}

impl Flags for TcNatFlags {
    type Bits = u32;

    ghost exact = { ⊤ };

    ghost table = { (codes "Egress", 1) ∷ (codes "Police", 65536) ∷ (codes "Bind", 131072) ∷ (codes "Replace", 262144) ∷ (codes "NoRtnl", 524288)
        ∷ (codes "AtIngress", 1048576) ∷ ([], 4294967295) ∷ [] };

    ghost set_of = { nat_flag_bits.number };

    fn flags<'a>() -> &'a [Flag<TcNatFlags>] {
        TcNatFlags::FLAGS
    }

    fn bits(&self) -> u32 {
        self.0
    }

    fn from_bits_retain(bits: u32) -> TcNatFlags {
        TcNatFlags(bits)
    }
}
