//! Options of a bridge: `BR_BOOLOPT_*` of `linux/if_bridge.h`, each by the bit of its number. Every bit is kept.

ghost use Rattle.std.specs.Prelude.{◌≡◌, ⊤, [], ◌∷◌, codes, IfOk, IfErr};
ghost use Rattle.{npr_base.specs.{Codec.{exactly}, Refusal.{no_place}}, npr_link_bridge.specs.BooleanOptions.{boolean_option_bits, boolean_options}};

use bitflags::{Flag, Flags};
use npr_base::{At, DecodeError, EmitError, Emitable, named_flags, read_octets, write_array};

/// Options of a bridge.
#[derive(Clone, Copy, Debug, Default, PartialEq, Eq)]
pub struct BridgeBooleanOptionFlags(u32);

impl BridgeBooleanOptionFlags {
    /// `BR_BOOLOPT_NO_LL_LEARN`: it learns nothing from packets to a link's own addresses.
    pub const NoLinkLocalLearn: BridgeBooleanOptionFlags = BridgeBooleanOptionFlags(0x1);

    /// `BR_BOOLOPT_MCAST_VLAN_SNOOPING`: it follows multicast groups in each VLAN.
    pub const VlanMulticastSnooping: BridgeBooleanOptionFlags = BridgeBooleanOptionFlags(0x2);

    /// `BR_BOOLOPT_MST_ENABLE`: it has several spanning trees.
    pub const MstEnable: BridgeBooleanOptionFlags = BridgeBooleanOptionFlags(0x4);

    /// `BR_BOOLOPT_MDB_OFFLOAD_FAIL_NOTIFICATION`: it tells of groups that the device did not take.
    pub const MdbOffloadFailNotif: BridgeBooleanOptionFlags = BridgeBooleanOptionFlags(0x8);

    /// `BR_BOOLOPT_FDB_LOCAL_VLAN_0`: its own addresses stand in VLAN 0 alone.
    pub const FdbLocalVlan0: BridgeBooleanOptionFlags = BridgeBooleanOptionFlags(0x10);

    const FLAGS: &'static [Flag<BridgeBooleanOptionFlags>] = named_flags![BridgeBooleanOptionFlags:
        NoLinkLocalLearn, VlanMulticastSnooping, MstEnable, MdbOffloadFailNotif, FdbLocalVlan0;
        u32::MAX
    ];
}

impl Flags for BridgeBooleanOptionFlags {
    type Bits = u32;

    ghost exact = { ⊤ };

    ghost table = { (codes "NoLinkLocalLearn", 1) ∷ (codes "VlanMulticastSnooping", 2) ∷ (codes "MstEnable", 4)
        ∷ (codes "MdbOffloadFailNotif", 8) ∷ (codes "FdbLocalVlan0", 16) ∷ ([], 4294967295) ∷ [] };

    ghost set_of = { boolean_option_bits.number };

    fn flags<'a>() -> &'a [Flag<BridgeBooleanOptionFlags>] {
        BridgeBooleanOptionFlags::FLAGS
    }

    fn bits(&self) -> u32 {
        self.0
    }

    fn from_bits_retain(bits: u32) -> BridgeBooleanOptionFlags {
        BridgeBooleanOptionFlags(bits)
    }
}

/// Options of a bridge, and which of them are meant.
///
/// Layout (`struct br_boolopt_multi` of `linux/if_bridge.h`), 8 bytes: value and mask, 4 bytes each,
/// little endian.
#[derive(Clone, Copy, Debug, Default, PartialEq, Eq)]
pub struct BridgeBooleanOptions {
    /// The options that are on.
    pub value: BridgeBooleanOptionFlags,
    /// Those that are meant.
    pub mask: BridgeBooleanOptionFlags,
}

impl BridgeBooleanOptions {
    /// The options of 8 bytes.
    ///
    /// # Errors
    /// `ValueLength` at another length.
    pub fn parse(bytes: &[u8]) -> Result<Self, DecodeError>
        ensures ok { IfOk result (λ x. (exactly boolean_options).Reads bytes.now x) }
        ensures refused { IfErr result (λ e. (exactly boolean_options).Wrong no_place bytes.now e) }
    {
        Self::read(bytes, At::NO_PLACE)
    }

    /// The options of 8 bytes at a place.
    pub(crate) fn read(bytes: &[u8], at: At) -> Result<Self, DecodeError>
        ensures ok { IfOk result (λ x. (exactly boolean_options).Reads bytes.now x) }
        ensures refused { IfErr result (λ e. (exactly boolean_options).Wrong at bytes.now e) }
    {
        let [a, b, c, d, e, f, g, h] = read_octets::<8>(bytes, at)?;
        Ok(BridgeBooleanOptions {
            value: BridgeBooleanOptionFlags(u32::from_le_bytes([a, b, c, d])),
            mask: BridgeBooleanOptionFlags(u32::from_le_bytes([e, f, g, h])),
        })
    }

    /// The 8 bytes of the layout.
    pub fn to_bytes(&self) -> [u8; 8]
        ensures { result ≡ boolean_options.encode self.now }
    {
        let [a, b, c, d] = self.value.bits().to_le_bytes();
        let [e, f, g, h] = self.mask.bits().to_le_bytes();
        [a, b, c, d, e, f, g, h]
    }
}

impl Emitable for BridgeBooleanOptions {
    ghost bytes = { boolean_options.encode };

    fn check(&self) -> Result<usize, EmitError> {
        Ok(8)
    }

    fn emit(&self, out: &mut [u8]) {
        write_array(self.to_bytes(), out);
    }
}
