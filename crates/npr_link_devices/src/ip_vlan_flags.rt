//! The flags of an IPVLAN: `IPVLAN_F_*` of `linux/if_link.h`. Every bit is kept.

ghost use Rattle.std.specs.Prelude.{⊤, [], ◌∷◌, codes};
ghost use Rattle.npr_link_devices.specs.IpVlanFlags.{ip_vlan_flag_bits};

use bitflags::{Flag, Flags};
use npr_base::named_flags;

/// The flags of an IPVLAN: `IPVLAN_F_*` of `linux/if_link.h`. They are written as 2 bytes, little endian.
#[derive(Clone, Copy, Debug, Default, PartialEq, Eq)]
pub struct IpVlanFlags(u16);

impl IpVlanFlags {
    /// `IPVLAN_F_PRIVATE`: it talks to no other on its link.
    pub const Private: IpVlanFlags = IpVlanFlags(0x1);

    /// `IPVLAN_F_VEPA`: it talks to others by a bridge outside.
    pub const Vepa: IpVlanFlags = IpVlanFlags(0x2);

    const FLAGS: &'static [Flag<IpVlanFlags>] = named_flags![IpVlanFlags:
        Private, Vepa;
        u16::MAX
    ];
}

impl Flags for IpVlanFlags {
    type Bits = u16;

    ghost exact = { ⊤ };

    ghost table = { (codes "Private", 1) ∷ (codes "Vepa", 2) ∷ ([], 65535) ∷ [] };

    ghost set_of = { ip_vlan_flag_bits.number };

    fn flags<'a>() -> &'a [Flag<IpVlanFlags>] {
        IpVlanFlags::FLAGS
    }

    fn bits(&self) -> u16 {
        self.0
    }

    fn from_bits_retain(bits: u16) -> IpVlanFlags {
        IpVlanFlags(bits)
    }
}

/// The same of an IPVTAP.
pub type IpVtapFlags = IpVlanFlags;
