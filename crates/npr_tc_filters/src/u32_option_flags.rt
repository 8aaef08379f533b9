//! What devices do with a filter: `TCA_CLS_FLAGS_*` of `linux/pkt_cls.h`. Every bit is kept.

ghost use Rattle.std.specs.Prelude.{⊤, [], ◌∷◌, codes};
ghost use Rattle.npr_tc_filters.specs.U32OptionFlags.{u32_option_flag_bits};

use bitflags::{Flag, Flags};
use npr_base::named_flags;

/// What devices do with a filter: `TCA_CLS_FLAGS_*` of `linux/pkt_cls.h`. They are written as 4
/// bytes, little endian.
#[derive(Clone, Copy, Debug, Default, PartialEq, Eq)]
pub struct TcU32OptionFlags(u32);

impl TcU32OptionFlags {
    /// `TCA_CLS_FLAGS_SKIP_HW`: it is not handed to the device.
    pub const SkipHw: TcU32OptionFlags = TcU32OptionFlags(0x1);

    /// `TCA_CLS_FLAGS_SKIP_SW`: the kernel itself does not use it.
    pub const SkipSw: TcU32OptionFlags = TcU32OptionFlags(0x2);

    /// `TCA_CLS_FLAGS_IN_HW`: the device has it.
    pub const InHw: TcU32OptionFlags = TcU32OptionFlags(0x4);

    /// `TCA_CLS_FLAGS_NOT_IN_HW`: the device does not have it.
    pub const NotInHw: TcU32OptionFlags = TcU32OptionFlags(0x8);

    /// `TCA_CLS_FLAGS_VERBOSE`: what a device has against it is told.
    pub const Verbose: TcU32OptionFlags = TcU32OptionFlags(0x10);

    const FLAGS: &'static [Flag<TcU32OptionFlags>] = named_flags![TcU32OptionFlags:
        SkipHw, SkipSw, InHw, NotInHw, Verbose;
        u32::MAX
    ];
}

impl Flags for TcU32OptionFlags {
    type Bits = u32;

    ghost exact = { ⊤ };

    ghost table = { (codes "SkipHw", 1) ∷ (codes "SkipSw", 2) ∷ (codes "InHw", 4) ∷ (codes "NotInHw", 8) ∷ (codes "Verbose", 16)
        ∷ ([], 4294967295) ∷ [] };

    ghost set_of = { u32_option_flag_bits.number };

    fn flags<'a>() -> &'a [Flag<TcU32OptionFlags>] {
        TcU32OptionFlags::FLAGS
    }

    fn bits(&self) -> u32 {
        self.0
    }

    fn from_bits_retain(bits: u32) -> TcU32OptionFlags {
        TcU32OptionFlags(bits)
    }
}
