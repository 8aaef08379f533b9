//! What a u32 filter does where it matches: `TC_U32_*` of `linux/pkt_cls.h`. Every bit is kept.

ghost use Rattle.std.specs.Prelude.{⊤, [], ◌∷◌, codes};
ghost use Rattle.npr_tc_filters.specs.U32SelectorFlags.{u32_selector_flag_bits};

use bitflags::{Flag, Flags};
use npr_base::named_flags;

/// What a u32 filter does where it matches: `TC_U32_*` of `linux/pkt_cls.h`. They are written as a
/// byte.
#[derive(Clone, Copy, Debug, Default, PartialEq, Eq)]
pub struct TcU32SelectorFlags(u8);

impl TcU32SelectorFlags {
    /// `TC_U32_TERMINAL`: it says the class, and no other filter is asked.
    pub const Terminal: TcU32SelectorFlags = TcU32SelectorFlags(0x1);

    /// `TC_U32_OFFSET`: the next filter begins behind a fixed number of bytes.
    pub const Offset: TcU32SelectorFlags = TcU32SelectorFlags(0x2);

    /// `TC_U32_VAROFFSET`: it begins behind a number of bytes that stands in the packet.
    pub const VarOffset: TcU32SelectorFlags = TcU32SelectorFlags(0x4);

    /// `TC_U32_EAT`: the places of the next filter are counted from there.
    pub const Eat: TcU32SelectorFlags = TcU32SelectorFlags(0x8);

    const FLAGS: &'static [Flag<TcU32SelectorFlags>] = named_flags![TcU32SelectorFlags:
        Terminal, Offset, VarOffset, Eat;
        u8::MAX
    ];
}

impl Flags for TcU32SelectorFlags {
    type Bits = u8;

    ghost exact = { ⊤ };

    ghost table = { (codes "Terminal", 1) ∷ (codes "Offset", 2) ∷ (codes "VarOffset", 4) ∷ (codes "Eat", 8) ∷ ([], 255) ∷ [] };

    ghost set_of = { u32_selector_flag_bits.number };

    fn flags<'a>() -> &'a [Flag<TcU32SelectorFlags>] {
        TcU32SelectorFlags::FLAGS
    }

    fn bits(&self) -> u8 {
        self.0
    }

    fn from_bits_retain(bits: u8) -> TcU32SelectorFlags {
        TcU32SelectorFlags(bits)
    }
}
