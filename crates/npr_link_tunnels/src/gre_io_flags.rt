//! What stands in the headers of GRE: `GRE_*` of `linux/if_tunnel.h`. Every bit is kept.

ghost use Rattle.std.specs.Prelude.{⊤, [], ◌∷◌, codes};
ghost use Rattle.npr_link_tunnels.specs.GreIoFlags.{gre_io_flag_bits};

use bitflags::{Flag, Flags};
use npr_base::named_flags;

/// What stands in a header of GRE, by its first 2 bytes. It is written as 2 bytes, big endian.
#[derive(Clone, Copy, Debug, Default, PartialEq, Eq)]
pub struct GreIOFlags(u16);

impl GreIOFlags {
    /// `GRE_CSUM`: a checksum.
    pub const Checksum: GreIOFlags = GreIOFlags(0x8000);

    /// `GRE_ROUTING`: routes.
    pub const Routing: GreIOFlags = GreIOFlags(0x4000);

    /// `GRE_KEY`: a key.
    pub const Key: GreIOFlags = GreIOFlags(0x2000);

    /// `GRE_SEQ`: a number in sequence.
    pub const Seq: GreIOFlags = GreIOFlags(0x1000);

    /// `GRE_STRICT`: the routes are strict.
    pub const Strict0: GreIOFlags = GreIOFlags(0x800);

    /// `GRE_REC`: the bits that count recursion.
    pub const Rec: GreIOFlags = GreIOFlags(0x700);

    /// `GRE_ACK`: an acknowledgement.
    pub const Ack: GreIOFlags = GreIOFlags(0x80);

    /// `GRE_FLAGS`: bits that are reserved.
    pub const Flags: GreIOFlags = GreIOFlags(0x78);

    /// `GRE_VERSION`: the bits of the version.
    pub const Version: GreIOFlags = GreIOFlags(0x7);

    const FLAGS: &'static [Flag<GreIOFlags>] = named_flags![GreIOFlags:
        Checksum, Routing, Key, Seq, Strict0, Rec, Ack, Flags, Version;
        u16::MAX
    ];
}

impl Flags for GreIOFlags {
    type Bits = u16;

    ghost exact = { ⊤ };

    ghost table = { (codes "Checksum", 32768) ∷ (codes "Routing", 16384) ∷ (codes "Key", 8192) ∷ (codes "Seq", 4096)
        ∷ (codes "Strict0", 2048) ∷ (codes "Rec", 1792) ∷ (codes "Ack", 128) ∷ (codes "Flags", 120)
        ∷ (codes "Version", 7)
        ∷ ([], 65535) ∷ [] };

    ghost set_of = { gre_io_flag_bits.number };

    fn flags<'a>() -> &'a [Flag<GreIOFlags>] {
        GreIOFlags::FLAGS
    }

    fn bits(&self) -> u16 {
        self.0
    }

    fn from_bits_retain(bits: u16) -> GreIOFlags {
        GreIOFlags(bits)
    }
}
