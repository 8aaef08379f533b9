//! The flags of an address: `IFA_F_*` of `linux/if_addr.h`. Every bit is kept.

ghost use Rattle.std.specs.Prelude.{⊤, [], ◌∷◌, codes};
ghost use Rattle.npr_address.specs.AddressFlags.{address_flag_bits, header_flag_bits};

use bitflags::{Flag, Flags};
use npr_base::named_flags;

/// The flags of an address, as the attribute `IFA_FLAGS` has them.
#[derive(Clone, Copy, Debug, PartialEq, Eq)]
pub struct AddressFlags(u32);

impl AddressFlags {
    /// `IFA_F_SECONDARY`, and `IFA_F_TEMPORARY`.
    pub const Secondary: AddressFlags = AddressFlags(0x1);

    /// `IFA_F_NODAD`.
    pub const Nodad: AddressFlags = AddressFlags(0x2);

    /// `IFA_F_OPTIMISTIC`.
    pub const Optimistic: AddressFlags = AddressFlags(0x4);

    /// `IFA_F_DADFAILED`.
    pub const Dadfailed: AddressFlags = AddressFlags(0x8);

    /// `IFA_F_HOMEADDRESS`.
    pub const Homeaddress: AddressFlags = AddressFlags(0x10);

    /// `IFA_F_DEPRECATED`.
    pub const Deprecated: AddressFlags = AddressFlags(0x20);

    /// `IFA_F_TENTATIVE`.
    pub const Tentative: AddressFlags = AddressFlags(0x40);

    /// `IFA_F_PERMANENT`.
    pub const Permanent: AddressFlags = AddressFlags(0x80);

    /// `IFA_F_MANAGETEMPADDR`.
    pub const Managetempaddr: AddressFlags = AddressFlags(0x100);

    /// `IFA_F_NOPREFIXROUTE`.
    pub const Noprefixroute: AddressFlags = AddressFlags(0x200);

    /// `IFA_F_MCAUTOJOIN`.
    pub const Mcautojoin: AddressFlags = AddressFlags(0x400);

    /// `IFA_F_STABLE_PRIVACY`.
    pub const StablePrivacy: AddressFlags = AddressFlags(0x800);

    const FLAGS: &'static [Flag<AddressFlags>] = named_flags![AddressFlags:
        Secondary, Nodad, Optimistic, Dadfailed, Homeaddress, Deprecated, Tentative, Permanent,
        Managetempaddr, Noprefixroute, Mcautojoin, StablePrivacy;
        u32::MAX
    ];
}

impl Flags for AddressFlags {
    type Bits = u32;

    ghost exact = { ⊤ };

    ghost table = { (codes "Secondary", 1) ∷ (codes "Nodad", 2) ∷ (codes "Optimistic", 4) ∷ (codes "Dadfailed", 8) ∷ (codes "Homeaddress", 16) ∷ (codes "Deprecated", 32) ∷ (codes "Tentative", 64) ∷ (codes "Permanent", 128) ∷ (codes "Managetempaddr", 256) ∷ (codes "Noprefixroute", 512) ∷ (codes "Mcautojoin", 1024) ∷ (codes "StablePrivacy", 2048) ∷ ([], 4294967295) ∷ [] };

    ghost set_of = { address_flag_bits.number };

    fn flags<'a>() -> &'a [Flag<AddressFlags>] {
        AddressFlags::FLAGS
    }

    fn bits(&self) -> u32 {
        self.0
    }

    fn from_bits_retain(bits: u32) -> AddressFlags {
        AddressFlags(bits)
    }
}

/// The flags of an address, as the header has them.
#[derive(Clone, Copy, Debug, PartialEq, Eq, Default)]
pub struct AddressHeaderFlags(u8);

impl AddressHeaderFlags {
    /// `IFA_F_SECONDARY`, and `IFA_F_TEMPORARY`.
    pub const Secondary: AddressHeaderFlags = AddressHeaderFlags(0x1);

    /// `IFA_F_NODAD`.
    pub const Nodad: AddressHeaderFlags = AddressHeaderFlags(0x2);

    /// `IFA_F_OPTIMISTIC`.
    pub const Optimistic: AddressHeaderFlags = AddressHeaderFlags(0x4);

    /// `IFA_F_DADFAILED`.
    pub const Dadfailed: AddressHeaderFlags = AddressHeaderFlags(0x8);

    /// `IFA_F_HOMEADDRESS`.
    pub const Homeaddress: AddressHeaderFlags = AddressHeaderFlags(0x10);

    /// `IFA_F_DEPRECATED`.
    pub const Deprecated: AddressHeaderFlags = AddressHeaderFlags(0x20);

    /// `IFA_F_TENTATIVE`.
    pub const Tentative: AddressHeaderFlags = AddressHeaderFlags(0x40);

    /// `IFA_F_PERMANENT`.
    pub const Permanent: AddressHeaderFlags = AddressHeaderFlags(0x80);

    const FLAGS: &'static [Flag<AddressHeaderFlags>] = named_flags![AddressHeaderFlags:
        Secondary, Nodad, Optimistic, Dadfailed, Homeaddress, Deprecated, Tentative, Permanent;
        u8::MAX
    ];
}

impl Flags for AddressHeaderFlags {
    type Bits = u8;

    ghost exact = { ⊤ };

    ghost table = { (codes "Secondary", 1) ∷ (codes "Nodad", 2) ∷ (codes "Optimistic", 4) ∷ (codes "Dadfailed", 8) ∷ (codes "Homeaddress", 16) ∷ (codes "Deprecated", 32) ∷ (codes "Tentative", 64) ∷ (codes "Permanent", 128) ∷ ([], 255) ∷ [] };

    ghost set_of = { header_flag_bits.number };

    fn flags<'a>() -> &'a [Flag<AddressHeaderFlags>] {
        AddressHeaderFlags::FLAGS
    }

    fn bits(&self) -> u8 {
        self.0
    }

    fn from_bits_retain(bits: u8) -> AddressHeaderFlags {
        AddressHeaderFlags(bits)
    }
}
