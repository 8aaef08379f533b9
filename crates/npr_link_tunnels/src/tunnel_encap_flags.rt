//! The checksums of what stands between IP and a tunnel of IP: `TUNNEL_ENCAP_FLAG_*` of `linux/if_tunnel.h`. Every bit is kept.

ghost use Rattle.std.specs.Prelude.{⊤, [], ◌∷◌, codes};
ghost use Rattle.npr_link_tunnels.specs.TunnelEncapFlags.{tunnel_encap_flag_bits};

use bitflags::{Flag, Flags};
use npr_base::named_flags;

/// The checksums of what stands between IP and a tunnel of IP. It is written as 2 bytes, little endian.
#[derive(Clone, Copy, Debug, Default, PartialEq, Eq)]
pub struct TunnelEncapFlags(u16);

impl TunnelEncapFlags {
    /// `TUNNEL_ENCAP_FLAG_CSUM`: over IP version 4.
    pub const CSum: TunnelEncapFlags = TunnelEncapFlags(0x1);

    /// `TUNNEL_ENCAP_FLAG_CSUM6`: over IP version 6.
    pub const CSum6: TunnelEncapFlags = TunnelEncapFlags(0x2);

    /// `TUNNEL_ENCAP_FLAG_REMCSUM`: that inside is left to the other end.
    pub const RemCSum: TunnelEncapFlags = TunnelEncapFlags(0x4);

    const FLAGS: &'static [Flag<TunnelEncapFlags>] = named_flags![TunnelEncapFlags:
        CSum, CSum6, RemCSum;
        u16::MAX
    ];
}

impl Flags for TunnelEncapFlags {
    type Bits = u16;

    ghost exact = { ⊤ };

    ghost table = { (codes "CSum", 1) ∷ (codes "CSum6", 2) ∷ (codes "RemCSum", 4)
        ∷ ([], 65535) ∷ [] };

    ghost set_of = { tunnel_encap_flag_bits.number };

    fn flags<'a>() -> &'a [Flag<TunnelEncapFlags>] {
        TunnelEncapFlags::FLAGS
    }

    fn bits(&self) -> u16 {
        self.0
    }

    fn from_bits_retain(bits: u16) -> TunnelEncapFlags {
        TunnelEncapFlags(bits)
    }
}
