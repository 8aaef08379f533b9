//! A family of one's own: attributes of a neighbour message, `NDA_*` of `linux/neighbour.h`.

ghost use Rattle.std.specs.Prelude.{◌≡◌, IfOk, IfErr, refl};
ghost use Rattle.{
  template.specs.Neighbours.{family, cache_info},
  netlink_packet_route.specs.{Codec.{leading}, Refusal.{no_place}, Family.{shaped}},
};

use netlink_packet_route::family::{Place, leading_octets};
use netlink_packet_route::framing::{
    At, Attribute, DecodeError, DefaultNla, EmitError, Form, Looks, Nla, NlaBuffer,
};
use netlink_packet_route::net::IpAddr;
use std::alloc::{AllocError, Global};

/// When a neighbour was last confirmed, used and changed, in hundredths of a second before now, and
/// how many hold it: `struct nda_cacheinfo`, 16 bytes, little endian.
#[derive(Clone, Copy, Debug, Default, PartialEq, Eq)]
pub struct NeighbourCacheInfo {
    /// When it was last confirmed.
    pub confirmed: u32,
    /// When it was last used.
    pub used: u32,
    /// When it was last changed.
    pub updated: u32,
    /// How many hold it.
    pub references: u32,
}

impl NeighbourCacheInfo {
    /// The values in the first 16 bytes; more are not looked at.
    ///
    /// # Errors
    /// `HeaderTooShort` below 16 bytes.
    pub fn parse(bytes: &[u8]) -> Result<Self, DecodeError>
        ensures ok { IfOk result (λ x. (leading cache_info).Reads bytes.now x) }
        ensures refused { IfErr result (λ e. (leading cache_info).Wrong no_place bytes.now e) }
    {
        let b = leading_octets(bytes, 16)?;
        Ok(NeighbourCacheInfo {
            confirmed: u32::from_le_bytes([b[0], b[1], b[2], b[3]]),
            used: u32::from_le_bytes([b[4], b[5], b[6], b[7]]),
            updated: u32::from_le_bytes([b[8], b[9], b[10], b[11]]),
            references: u32::from_le_bytes([b[12], b[13], b[14], b[15]]),
        })
    }

    /// The 16 bytes.
    pub fn to_bytes(&self) -> [u8; 16]
        ensures { result ≡ cache_info.encode self.now }
    {
        let [a0, a1, a2, a3] = self.confirmed.to_le_bytes();
        let [b0, b1, b2, b3] = self.used.to_le_bytes();
        let [c0, c1, c2, c3] = self.updated.to_le_bytes();
        let [d0, d1, d2, d3] = self.references.to_le_bytes();
        [
            a0, a1, a2, a3, b0, b1, b2, b3, c0, c1, c2, c3, d0, d1, d2, d3,
        ]
    }
}

/// An attribute of a neighbour message.
#[derive(Debug, Drop, PartialEq, Eq)]
pub enum NeighbourAttribute {
    /// `NDA_DST`: the address of the neighbour.
    Destination(IpAddr),
    /// `NDA_LLADDR`: its link-layer address, as it stands.
    LinkLocalAddress(Vec<u8>),
    /// `NDA_CACHEINFO`: when it was confirmed, used and changed.
    CacheInfo(NeighbourCacheInfo),
    /// `NDA_PROBES`: how often it was asked.
    Probes(u32),
    /// An attribute of another number, as it stands.
    Other(DefaultNla),
}

/// The rows of the table. Refusals name no family of the library.
macro_rules! rows {
    ($body:ident ($($given:tt)*)) => {
        npr_base::$body!(($($given)*) NeighbourAttribute of Value {
            1 Destination(ip);
            2 LinkLocalAddress(raw);
            3 CacheInfo(NeighbourCacheInfo leading 16);
            4 Probes(le32);
        })
    };
}

impl Nla for NeighbourAttribute {
    ghost shape = { shaped family };

    fn kind(&self) -> u16 {
        rows!(kind_rows(self))
    }

    fn is_nested(&self) -> bool {
        false
    }

    fn check_value(&self) -> Result<usize, EmitError> {
        Ok(rows!(len_rows(self)))
    }

    fn write_value(&self, out: &mut [u8]) -> usize {
        rows!(write_rows(self, out))
    }
}

impl Attribute for NeighbourAttribute {
    type Context = ();

    ghost family = { family };

    ghost shape_is = { λ a. refl };

    fn read_into<P: Place<Self>>(
        place: &mut P,
        alloc: Global,
        _context: (),
        item: &NlaBuffer<'_>,
        looks: &mut Looks,
    ) -> Result<(), DecodeError> {
        rows!(put_rows(place, alloc, item, looks))
    }

    fn form(_context: (), number: u16) -> (At, Form) {
        rows!(form_rows(number))
    }

    fn try_clone(&self, alloc: Global) -> Result<Self, AllocError> {
        rows!(clone_rows(self, alloc))
    }
}
