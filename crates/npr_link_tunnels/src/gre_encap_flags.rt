//! The checksums of what stands between IP and a tunnel of GRE: `TUNNEL_ENCAP_FLAG_*` of `linux/if_tunnel.h`. Every bit is kept.

ghost use Rattle.std.specs.Prelude.{⊤, [], ◌∷◌, codes};
ghost use Rattle.npr_link_tunnels.specs.GreEncapFlags.{gre_encap_flag_bits};

use bitflags::{Flag, Flags};
use npr_base::named_flags;

/// The checksums of what stands between IP and a tunnel of GRE. It is written as 2 bytes, little endian.
#[derive(Clone, Copy, Debug, Default, PartialEq, Eq)]
pub struct GreEncapFlags(u16);

impl GreEncapFlags {
    /// `TUNNEL_ENCAP_FLAG_CSUM`: over IP version 4.
    pub const Checksum: GreEncapFlags = GreEncapFlags(0x1);

    /// `TUNNEL_ENCAP_FLAG_CSUM6`: over IP version 6.
    pub const Checksum6: GreEncapFlags = GreEncapFlags(0x2);

    /// `TUNNEL_ENCAP_FLAG_REMCSUM`: that inside is left to the other end.
    pub const RemoteChecksum: GreEncapFlags = GreEncapFlags(0x4);

    const FLAGS: &'static [Flag<GreEncapFlags>] = named_flags![GreEncapFlags:
        Checksum, Checksum6, RemoteChecksum;
        u16::MAX
    ];
}

impl Flags for GreEncapFlags {
    type Bits = u16;

    ghost exact = { ⊤ };

    ghost table = { (codes "Checksum", 1) ∷ (codes "Checksum6", 2) ∷ (codes "RemoteChecksum", 4)
        ∷ ([], 65535) ∷ [] };

    ghost set_of = { gre_encap_flag_bits.number };

    fn flags<'a>() -> &'a [Flag<GreEncapFlags>] {
        GreEncapFlags::FLAGS
    }

    fn bits(&self) -> u16 {
        self.0
    }

    fn from_bits_retain(bits: u16) -> GreEncapFlags {
        GreEncapFlags(bits)
    }
}
