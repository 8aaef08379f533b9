//! The members of a group: `struct nexthop_grp` of `linux/nexthop.h`.

ghost use Rattle.std.specs.Prelude.{◌≡◌, IfOk, IfErr};
ghost use Rattle.{
  npr_base.specs.{declared.refusal.DecodeError.TheVariants.{OutOfMemory}, Codec.{leading}, Refusal.{no_place}},
  npr_nexthop.specs.Group.{group_entry, group_entry_width},
};

use npr_base::{Block, DecodeError, EmitError, Emitable, leading_octets, write_array};

/// The length of `struct nexthop_grp` of `linux/nexthop.h`, in bytes.
const NEXTHOP_GRP_SIZE: usize = 8;

/// A member of a group.
///
/// Layout (`struct nexthop_grp` of `linux/nexthop.h`), 8 bytes: the id in 4 and the weight in 2,
/// little endian, and two that are not looked at, and written 0.
#[derive(Clone, Copy, Debug, Default, PartialEq, Eq)]
pub struct NextHopGroupEntry {
    /// The id of its next hop.
    pub id: u32,
    /// Its weight less one. Kernels before 6.12 leave the high byte unused.
    pub weight: u16,
}

impl NextHopGroupEntry {
    /// The member in the first 8 bytes; more are not looked at.
    ///
    /// # Errors
    /// `HeaderTooShort` below 8 bytes.
    pub fn parse(bytes: &[u8]) -> Result<Self, DecodeError>
        ensures ok { IfOk result (λ x. (leading group_entry).Reads bytes.now x) }
        ensures refused { IfErr result (λ e. (leading group_entry).Wrong no_place bytes.now e) }
    {
        let octets = leading_octets(bytes, NEXTHOP_GRP_SIZE)?;
        Ok(Self::in_front(octets))
    }

    /// The 8 bytes of the layout.
    pub fn to_bytes(&self) -> [u8; 8]
        ensures { result ≡ group_entry.encode self.now }
    {
        let [a, b, c, d] = self.id.to_le_bytes();
        let [e, f] = self.weight.to_le_bytes();
        [a, b, c, d, e, f, 0, 0]
    }
}

impl Emitable for NextHopGroupEntry {
    ghost bytes = { group_entry.encode };

    fn check(&self) -> Result<usize, EmitError> {
        Ok(NEXTHOP_GRP_SIZE)
    }

    fn emit(&self, out: &mut [u8]) {
        write_array(self.to_bytes(), out);
    }
}

impl Block for NextHopGroupEntry {
    ghost width = { group_entry_width };

    fn zero() -> Self {
        Self::default()
    }

    fn size() -> usize {
        NEXTHOP_GRP_SIZE
    }

    fn in_front(bytes: &[u8]) -> Self {
        NextHopGroupEntry {
            id: u32::from_le_bytes([bytes[0], bytes[1], bytes[2], bytes[3]]),
            weight: u16::from_le_bytes([bytes[4], bytes[5]]),
        }
    }

    fn write(self, out: &mut [u8]) -> usize {
        write_array(self.to_bytes(), out)
    }
}
