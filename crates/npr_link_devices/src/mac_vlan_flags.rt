//! The flags of a MACVLAN: `MACVLAN_FLAG_*` of `linux/if_link.h`. Every bit is kept.

ghost use Rattle.std.specs.Prelude.{⊤, [], ◌∷◌, codes};
ghost use Rattle.npr_link_devices.specs.MacVlanFlags.{mac_vlan_flag_bits};

use bitflags::{Flag, Flags};
use npr_base::named_flags;

/// The flags of a MACVLAN: `MACVLAN_FLAG_*` of `linux/if_link.h`. They are written as 2 bytes, little endian.
#[derive(Clone, Copy, Debug, Default, PartialEq, Eq)]
pub struct MacVlanFlags(u16);

impl MacVlanFlags {
    /// `MACVLAN_FLAG_NOPROMISC`: its link is not made promiscuous.
    pub const NoPromisc: MacVlanFlags = MacVlanFlags(0x1);

    /// `MACVLAN_FLAG_NODST`: a packet of a source that is in its list goes to no other.
    pub const NoDst: MacVlanFlags = MacVlanFlags(0x2);

    const FLAGS: &'static [Flag<MacVlanFlags>] = named_flags![MacVlanFlags:
        NoPromisc, NoDst;
        u16::MAX
    ];
}

impl Flags for MacVlanFlags {
    type Bits = u16;

    ghost exact = { ⊤ };

    ghost table = { (codes "NoPromisc", 1) ∷ (codes "NoDst", 2) ∷ ([], 65535) ∷ [] };

    ghost set_of = { mac_vlan_flag_bits.number };

    fn flags<'a>() -> &'a [Flag<MacVlanFlags>] {
        MacVlanFlags::FLAGS
    }

    fn bits(&self) -> u16 {
        self.0
    }

    fn from_bits_retain(bits: u16) -> MacVlanFlags {
        MacVlanFlags(bits)
    }
}

/// The same of a MACVTAP.
pub type MacVtapFlags = MacVlanFlags;
