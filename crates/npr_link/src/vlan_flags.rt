//! The flags of a VLAN: `VLAN_FLAG_*` of `linux/if_vlan.h`. Every bit is kept.

ghost use Rattle.std.specs.Prelude.{⊤, [], ◌∷◌, codes};
ghost use Rattle.npr_link.specs.VlanFlags.{vlan_flag_bits};

use bitflags::{Flag, Flags};
use npr_base::named_flags;

/// The flags of a VLAN.
#[derive(Clone, Copy, Debug, Default, PartialEq, Eq)]
pub struct VlanFlags(u32);

impl VlanFlags {
    /// `VLAN_FLAG_REORDER_HDR`: headers are put in order.
    pub const ReorderHdr: VlanFlags = VlanFlags(0x1);

    /// `VLAN_FLAG_GVRP`: it is told by GVRP.
    pub const Gvrp: VlanFlags = VlanFlags(0x2);

    /// `VLAN_FLAG_LOOSE_BINDING`: it does not follow the state of the link under it.
    pub const LooseBinding: VlanFlags = VlanFlags(0x4);

    /// `VLAN_FLAG_MVRP`: it is told by MVRP.
    pub const Mvrp: VlanFlags = VlanFlags(0x8);

    /// `VLAN_FLAG_BRIDGE_BINDING`: it follows the state of the ports of its bridge.
    pub const BridgeBinding: VlanFlags = VlanFlags(0x10);

    const FLAGS: &'static [Flag<VlanFlags>] = named_flags![VlanFlags:
        ReorderHdr, Gvrp, LooseBinding, Mvrp, BridgeBinding;
        u32::MAX
    ];
}

impl Flags for VlanFlags {
    type Bits = u32;

    ghost exact = { ⊤ };

    ghost table = { (codes "ReorderHdr", 1) ∷ (codes "Gvrp", 2) ∷ (codes "LooseBinding", 4) ∷ (codes "Mvrp", 8)
        ∷ (codes "BridgeBinding", 16) ∷ ([], 4294967295) ∷ [] };

    ghost set_of = { vlan_flag_bits.number };

    fn flags<'a>() -> &'a [Flag<VlanFlags>] {
        VlanFlags::FLAGS
    }

    fn bits(&self) -> u32 {
        self.0
    }

    fn from_bits_retain(bits: u32) -> VlanFlags {
        VlanFlags(bits)
    }
}
