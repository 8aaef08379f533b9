//! What a neighbour is besides: `NTF_*` of `linux/neighbour.h`. Every bit is kept.

ghost use Rattle.std.specs.Prelude.{⊤, [], ◌∷◌, codes};
ghost use Rattle.npr_neighbour.specs.Flags.{flag_bits, ext_flag_bits, fdb_notify_bits};

use bitflags::{Flag, Flags};
use npr_base::named_flags;

/// The flags of a neighbour, as the header has them.
#[derive(Clone, Copy, Debug, Default, PartialEq, Eq)]
pub struct NeighbourFlags(u8);

impl NeighbourFlags {
    /// `NTF_USE`: it is in use.
    pub const Use: NeighbourFlags = NeighbourFlags(0x1);

    /// `NTF_SELF`: it belongs to the device itself.
    pub const Own: NeighbourFlags = NeighbourFlags(0x2);

    /// `NTF_MASTER`: it belongs to the controller of the device.
    pub const Controller: NeighbourFlags = NeighbourFlags(0x4);

    /// `NTF_PROXY`: this host answers for it.
    pub const Proxy: NeighbourFlags = NeighbourFlags(0x8);

    /// `NTF_EXT_LEARNED`: a program learned it.
    pub const ExtLearned: NeighbourFlags = NeighbourFlags(0x10);

    /// `NTF_OFFLOADED`: the device forwards to it by itself.
    pub const Offloaded: NeighbourFlags = NeighbourFlags(0x20);

    /// `NTF_STICKY`: it doesn't move to another port.
    pub const Sticky: NeighbourFlags = NeighbourFlags(0x40);

    /// `NTF_ROUTER`: it is a router.
    pub const Router: NeighbourFlags = NeighbourFlags(0x80);

    const FLAGS: &'static [Flag<NeighbourFlags>] = named_flags![NeighbourFlags:
        Use, Own, Controller, Proxy, ExtLearned, Offloaded, Sticky, Router;
        u8::MAX
    ];
}

impl Flags for NeighbourFlags {
    type Bits = u8;

    ghost exact = { ⊤ };

    ghost table = { (codes "Use", 1) ∷ (codes "Own", 2) ∷ (codes "Controller", 4) ∷ (codes "Proxy", 8) ∷ (codes "ExtLearned", 16) ∷ (codes "Offloaded", 32) ∷ (codes "Sticky", 64) ∷ (codes "Router", 128) ∷ ([], 255) ∷ [] };

    ghost set_of = { flag_bits.number };

    fn flags<'a>() -> &'a [Flag<NeighbourFlags>] {
        NeighbourFlags::FLAGS
    }

    fn bits(&self) -> u8 {
        self.0
    }

    fn from_bits_retain(bits: u8) -> NeighbourFlags {
        NeighbourFlags(bits)
    }
}

/// Those for which the header has no room, as the attribute `NDA_FLAGS_EXT` has them.
#[derive(Clone, Copy, Debug, Default, PartialEq, Eq)]
pub struct NeighbourExtFlags(u32);

impl NeighbourExtFlags {
    /// `NTF_EXT_MANAGED`: the kernel keeps it confirmed by itself.
    pub const Managed: NeighbourExtFlags = NeighbourExtFlags(0x1);

    /// `NTF_EXT_LOCKED`: learned on a locked port.
    pub const Locked: NeighbourExtFlags = NeighbourExtFlags(0x2);

    /// `NTF_EXT_EXT_VALIDATED`: a program confirms it.
    pub const ExtValidated: NeighbourExtFlags = NeighbourExtFlags(0x4);

    const FLAGS: &'static [Flag<NeighbourExtFlags>] = named_flags![NeighbourExtFlags:
        Managed, Locked, ExtValidated;
        u32::MAX
    ];
}

impl Flags for NeighbourExtFlags {
    type Bits = u32;

    ghost exact = { ⊤ };

    ghost table = { (codes "Managed", 1) ∷ (codes "Locked", 2) ∷ (codes "ExtValidated", 4) ∷ ([], 4294967295) ∷ [] };

    ghost set_of = { ext_flag_bits.number };

    fn flags<'a>() -> &'a [Flag<NeighbourExtFlags>] {
        NeighbourExtFlags::FLAGS
    }

    fn bits(&self) -> u32 {
        self.0
    }

    fn from_bits_retain(bits: u32) -> NeighbourExtFlags {
        NeighbourExtFlags(bits)
    }
}

/// Of what a bridge tells about an entry that it learned: `FDB_NOTIFY_*` of `linux/neighbour.h`.
#[derive(Clone, Copy, Debug, Default, PartialEq, Eq)]
pub struct NeighbourFdbNotify(u8);

impl NeighbourFdbNotify {
    /// `FDB_NOTIFY_BIT`: that it is used, and that it is no more.
    pub const Notify: NeighbourFdbNotify = NeighbourFdbNotify(0x1);

    /// `FDB_NOTIFY_INACTIVE_BIT`: that it is not used has been told.
    pub const Inactive: NeighbourFdbNotify = NeighbourFdbNotify(0x2);

    const FLAGS: &'static [Flag<NeighbourFdbNotify>] = named_flags![NeighbourFdbNotify:
        Notify, Inactive;
        u8::MAX
    ];
}

impl Flags for NeighbourFdbNotify {
    type Bits = u8;

    ghost exact = { ⊤ };

    ghost table = { (codes "Notify", 1) ∷ (codes "Inactive", 2) ∷ ([], 255) ∷ [] };

    ghost set_of = { fdb_notify_bits.number };

    fn flags<'a>() -> &'a [Flag<NeighbourFdbNotify>] {
        NeighbourFdbNotify::FLAGS
    }

    fn bits(&self) -> u8 {
        self.0
    }

    fn from_bits_retain(bits: u8) -> NeighbourFdbNotify {
        NeighbourFdbNotify(bits)
    }
}
