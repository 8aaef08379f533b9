//! What is said of a VLAN of a port: `BRIDGE_VLAN_INFO_*` of `linux/if_bridge.h`. Every bit is kept.

ghost use Rattle.std.specs.Prelude.{⊤, [], ◌∷◌, codes};
ghost use Rattle.npr_link_bridge.specs.VlanInfoFlags.{vlan_info_flag_bits};

use bitflags::{Flag, Flags};
use npr_base::named_flags;

/// What is said of a VLAN of a port.
#[derive(Clone, Copy, Debug, Default, PartialEq, Eq)]
pub struct BridgeVlanInfoFlags(u16);

impl BridgeVlanInfoFlags {
    /// `BRIDGE_VLAN_INFO_MASTER`: it is meant for the bridge.
    pub const Controller: BridgeVlanInfoFlags = BridgeVlanInfoFlags(0x1);

    /// `BRIDGE_VLAN_INFO_PVID`: packets without a tag belong to it.
    pub const Pvid: BridgeVlanInfoFlags = BridgeVlanInfoFlags(0x2);

    /// `BRIDGE_VLAN_INFO_UNTAGGED`: packets leave without a tag.
    pub const Untagged: BridgeVlanInfoFlags = BridgeVlanInfoFlags(0x4);

    /// `BRIDGE_VLAN_INFO_RANGE_BEGIN`: the first of a range.
    pub const RangeBegin: BridgeVlanInfoFlags = BridgeVlanInfoFlags(0x8);

    /// `BRIDGE_VLAN_INFO_RANGE_END`: the last of a range.
    pub const RangeEnd: BridgeVlanInfoFlags = BridgeVlanInfoFlags(0x10);

    /// `BRIDGE_VLAN_INFO_BRENTRY`: the bridge itself is in it.
    pub const Brentry: BridgeVlanInfoFlags = BridgeVlanInfoFlags(0x20);

    /// `BRIDGE_VLAN_INFO_ONLY_OPTS`: only its options are told.
    pub const OnlyOpts: BridgeVlanInfoFlags = BridgeVlanInfoFlags(0x40);

    const FLAGS: &'static [Flag<BridgeVlanInfoFlags>] = named_flags![BridgeVlanInfoFlags:
        Controller, Pvid, Untagged, RangeBegin, RangeEnd, Brentry, OnlyOpts;
        u16::MAX
    ];
}

impl Flags for BridgeVlanInfoFlags {
    type Bits = u16;

    ghost exact = { ⊤ };

    ghost table = { (codes "Controller", 1) ∷ (codes "Pvid", 2) ∷ (codes "Untagged", 4) ∷ (codes "RangeBegin", 8)
        ∷ (codes "RangeEnd", 16) ∷ (codes "Brentry", 32) ∷ (codes "OnlyOpts", 64) ∷ ([], 65535) ∷ [] };

    ghost set_of = { vlan_info_flag_bits.number };

    fn flags<'a>() -> &'a [Flag<BridgeVlanInfoFlags>] {
        BridgeVlanInfoFlags::FLAGS
    }

    fn bits(&self) -> u16 {
        self.0
    }

    fn from_bits_retain(bits: u16) -> BridgeVlanInfoFlags {
        BridgeVlanInfoFlags(bits)
    }
}
