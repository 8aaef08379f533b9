//! What is asked of a dump of actions: `TCA_ACT_FLAG_*` of `linux/rtnetlink.h`. Every bit is kept.

ghost use Rattle.std.specs.Prelude.{◌≡◌, ⊤, [], ◌∷◌, codes, IfOk, IfErr};
ghost use Rattle.{
  npr_base.specs.Codec.{exactly},
  npr_base.specs.Refusal.{no_place},
  npr_tc.specs.ActionFlags.{action_flag_bits, with_selector},
};

use bitflags::{Flag, Flags};
use npr_base::{At, DecodeError, EmitError, Emitable, named_flags, read_octets, write_array};

/// What is asked of a dump of actions: `TCA_ACT_FLAG_*` of `linux/rtnetlink.h`. They are written as 4
/// bytes, little endian.
#[derive(Clone, Copy, Debug, Default, PartialEq, Eq)]
pub struct TcActionMessageFlags(u32);

impl TcActionMessageFlags {
    /// `TCA_ACT_FLAG_LARGE_DUMP_ON`: more than 32 in one message.
    pub const LargeDump: TcActionMessageFlags = TcActionMessageFlags(0x1);

    /// `TCA_ACT_FLAG_TERSE_DUMP`: without the data of their kinds.
    pub const TerseDump: TcActionMessageFlags = TcActionMessageFlags(0x2);

    const FLAGS: &'static [Flag<TcActionMessageFlags>] = named_flags![TcActionMessageFlags:
        LargeDump, TerseDump;
        u32::MAX
    ];
}

impl Flags for TcActionMessageFlags {
    type Bits = u32;

    ghost exact = { ⊤ };

    ghost table = { (codes "LargeDump", 1) ∷ (codes "TerseDump", 2) ∷ ([], 4294967295) ∷ [] };

    ghost set_of = { action_flag_bits.number };

    fn flags<'a>() -> &'a [Flag<TcActionMessageFlags>] {
        TcActionMessageFlags::FLAGS
    }

    fn bits(&self) -> u32 {
        self.0
    }

    fn from_bits_retain(bits: u32) -> TcActionMessageFlags {
        TcActionMessageFlags(bits)
    }
}

/// Flags, and which of them are said: `struct nla_bitfield32` of `linux/netlink.h`, 8 bytes, each in 4,
/// little endian.
#[derive(Clone, Copy, Debug, Default, PartialEq, Eq)]
pub struct TcActionMessageFlagsWithSelector {
    /// The flags.
    pub flags: TcActionMessageFlags,
    /// Those that are said.
    pub selector: TcActionMessageFlags,
}

impl TcActionMessageFlagsWithSelector {
    /// Flags that are set, and say so of themselves alone.
    pub fn new(flags: TcActionMessageFlags) -> Self
        ensures { result ≡ record { flags = flags; selector = flags } }
    {
        TcActionMessageFlagsWithSelector {
            flags,
            selector: flags,
        }
    }

    /// Flags, and which of them are said.
    pub fn new_with_selector(flags: TcActionMessageFlags, selector: TcActionMessageFlags) -> Self
        ensures { result ≡ record { flags = flags; selector = selector } }
    {
        TcActionMessageFlagsWithSelector { flags, selector }
    }

    /// The value of these 8 bytes.
    ///
    /// # Errors
    /// `ValueLength` at another length.
    pub fn parse(bytes: &[u8]) -> Result<Self, DecodeError>
        ensures ok { IfOk result (λ x. (exactly with_selector).Reads bytes.now x) }
        ensures refused { IfErr result (λ e. (exactly with_selector).Wrong no_place bytes.now e) }
    {
        Self::read(bytes, At::NO_PLACE)
    }

    /// The value of 8 bytes at a place.
    pub(crate) fn read(value: &[u8], at: At) -> Result<Self, DecodeError>
        ensures ok { IfOk result (λ x. (exactly with_selector).Reads value.now x) }
        ensures refused { IfErr result (λ e. (exactly with_selector).Wrong at value.now e) }
    {
        let [a, b, c, d, e, f, g, h] = read_octets::<8>(value, at)?;
        Ok(TcActionMessageFlagsWithSelector {
            flags: TcActionMessageFlags(u32::from_le_bytes([a, b, c, d])),
            selector: TcActionMessageFlags(u32::from_le_bytes([e, f, g, h])),
        })
    }

    /// The 8 bytes of the layout.
    pub fn to_bytes(&self) -> [u8; 8]
        ensures { result ≡ with_selector.encode self.now }
    {
        let [a, b, c, d] = self.flags.bits().to_le_bytes();
        let [e, f, g, h] = self.selector.bits().to_le_bytes();
        [a, b, c, d, e, f, g, h]
    }
}

impl Emitable for TcActionMessageFlagsWithSelector {
    ghost bytes = { with_selector.encode };

    fn check(&self) -> Result<usize, EmitError> {
        Ok(8)
    }

    fn emit(&self, out: &mut [u8]) {
        write_array(self.to_bytes(), out);
    }
}
