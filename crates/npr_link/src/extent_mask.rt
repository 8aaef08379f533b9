//! What an answer is to say of a link besides: `RTEXT_FILTER_*` of `linux/rtnetlink.h`. Every bit is kept.

ghost use Rattle.std.specs.Prelude.{⊤, [], ◌∷◌, codes};
ghost use Rattle.npr_link.specs.ExtentMask.{extent_mask_bits};

use bitflags::{Flag, Flags};
use npr_base::named_flags;

/// What an answer is to say of a link besides.
#[derive(Clone, Copy, Debug, Default, PartialEq, Eq)]
pub struct LinkExtentMask(u32);

impl LinkExtentMask {
    /// `RTEXT_FILTER_VF`: virtual functions.
    pub const Vf: LinkExtentMask = LinkExtentMask(0x1);

    /// `RTEXT_FILTER_BRVLAN`: VLANs of a bridge.
    pub const Brvlan: LinkExtentMask = LinkExtentMask(0x2);

    /// `RTEXT_FILTER_BRVLAN_COMPRESSED`: VLANs of a bridge, in ranges.
    pub const BrvlanCompressed: LinkExtentMask = LinkExtentMask(0x4);

    /// `RTEXT_FILTER_SKIP_STATS`: no statistics.
    pub const SkipStats: LinkExtentMask = LinkExtentMask(0x8);

    /// `RTEXT_FILTER_MRP`: the ring protocol of a bridge.
    pub const Mrp: LinkExtentMask = LinkExtentMask(0x10);

    /// `RTEXT_FILTER_CFM_CONFIG`: how faults of connectivity are looked for.
    pub const CfmConfig: LinkExtentMask = LinkExtentMask(0x20);

    /// `RTEXT_FILTER_CFM_STATUS`: what faults were found.
    pub const CfmStatus: LinkExtentMask = LinkExtentMask(0x40);

    /// `RTEXT_FILTER_MST`: spanning trees of a bridge.
    pub const Mst: LinkExtentMask = LinkExtentMask(0x80);

    /// `RTEXT_FILTER_NAME_ONLY`: the name alone.
    pub const NameOnly: LinkExtentMask = LinkExtentMask(0x100);

    const FLAGS: &'static [Flag<LinkExtentMask>] = named_flags![LinkExtentMask:
        Vf, Brvlan, BrvlanCompressed, SkipStats, Mrp, CfmConfig, CfmStatus, Mst, NameOnly;
        u32::MAX
    ];
}

impl Flags for LinkExtentMask {
    type Bits = u32;

    ghost exact = { ⊤ };

    ghost table = { (codes "Vf", 1) ∷ (codes "Brvlan", 2) ∷ (codes "BrvlanCompressed", 4) ∷ (codes "SkipStats", 8) ∷ (codes "Mrp", 16)
        ∷ (codes "CfmConfig", 32) ∷ (codes "CfmStatus", 64) ∷ (codes "Mst", 128) ∷ (codes "NameOnly", 256) ∷ ([], 4294967295) ∷ [] };

    ghost set_of = { extent_mask_bits.number };

    fn flags<'a>() -> &'a [Flag<LinkExtentMask>] {
        LinkExtentMask::FLAGS
    }

    fn bits(&self) -> u32 {
        self.0
    }

    fn from_bits_retain(bits: u32) -> LinkExtentMask {
        LinkExtentMask(bits)
    }
}
