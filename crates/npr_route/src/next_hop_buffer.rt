//! The header of a next hop: `struct rtnexthop` of `linux/rtnetlink.h`.

ghost use Rattle.std.specs.Prelude.{◌≡◌, ◌≤◌, None, length, IfOk, IfErr};
ghost use Rattle.{
  npr_base.specs.{Codec.{leading}, Refusal.{no_place}},
  npr_route.specs.{
    Attribute.{HopFault},
    AttributeView.{hop_of, next_hop_bytes, next_hop_unfit},
    NextHopHeader.{next_hop_buffer, head_in, IsChecked},
  },
};

use crate::next_hops::RouteNextHop;
use bitflags::Flags;
use npr_base::{DecodeError, Emitable, leading_octets};

/// The bytes of a next hop's header (`linux/rtnetlink.h`, `sizeof(struct rtnexthop)`).
pub const NEXT_HOP_HEADER_SIZE: usize = 8;

/// The next hop behind one begins at a multiple of so many bytes (`linux/rtnetlink.h`).
pub const RTNH_ALIGNTO: usize = 4;

/// The layout of a next hop's header: 8 bytes, little endian.
#[derive(Clone, Copy, Debug, PartialEq, Eq)]
pub struct RouteNextHopBuffer {
    /// The length of the next hop in bytes: these 8 and its attributes.
    pub length: u16,
    /// `RTNH_F_*`.
    pub flags: u8,
    /// Its weight less one.
    pub hops: u8,
    /// The index of its interface.
    pub interface_index: u32,
}

impl RouteNextHopBuffer {
    /// The header of a next hop, with the length that it is written with. Asks that `check`
    /// accepts.
    ///
    /// # Panics
    /// May panic where it is not as asked.
    pub fn of(hop: &RouteNextHop) -> Self
        requires { next_hop_unfit hop.now ≡ None }
        ensures length { result.length ≡ length (next_hop_bytes hop.now) }
        ensures head { head_in result ≡ (hop_of hop.now).head }
    {
        RouteNextHopBuffer {
            length: hop.buffer_len() as u16,
            flags: hop.flags.bits(),
            hops: hop.hops,
            interface_index: hop.interface_index,
        }
    }

    /// The header in the first 8 bytes, where its length lies within the bytes that are there.
    ///
    /// # Errors
    /// `NextHopTooShort` below 8 bytes, and else `NextHopLength` where the length is below 8 or
    /// above what is there.
    pub fn new_checked(bytes: &[u8]) -> Result<Self, DecodeError>
        ensures ok { IfOk result (λ b. IsChecked bytes.now b) }
        ensures refused { IfErr result (λ e. HopFault bytes.now e) }
    {
        let left = bytes.len();
        if left < NEXT_HOP_HEADER_SIZE {
            return Err(DecodeError::NextHopTooShort { got: left });
        }
        let header = Self::in_front(bytes);
        let length = header.length;
        if (length as usize) < NEXT_HOP_HEADER_SIZE || (length as usize) > left {
            Err(DecodeError::NextHopLength { length, left })
        } else {
            Ok(header)
        }
    }

    /// The layout in the first 8 bytes. Asks for so many.
    pub(crate) fn in_front(bytes: &[u8]) -> Self
        requires { 8 ≤ length bytes.now }
        ensures { (leading next_hop_buffer).Reads bytes.now result }
    {
        let b = &bytes[..NEXT_HOP_HEADER_SIZE];
        RouteNextHopBuffer {
            length: u16::from_le_bytes([b[0], b[1]]),
            flags: b[2],
            hops: b[3],
            interface_index: u32::from_le_bytes([b[4], b[5], b[6], b[7]]),
        }
    }

    /// The layout in the first 8 bytes; more are not looked at, nor is the length.
    ///
    /// # Errors
    /// `HeaderTooShort` below 8 bytes.
    pub fn parse(bytes: &[u8]) -> Result<Self, DecodeError>
        ensures ok { IfOk result (λ b. (leading next_hop_buffer).Reads bytes.now b) }
        ensures refused { IfErr result (λ e. (leading next_hop_buffer).Wrong no_place bytes.now e) }
    {
        Ok(Self::in_front(leading_octets(bytes, NEXT_HOP_HEADER_SIZE)?))
    }

    /// The 8 bytes of the layout.
    pub fn to_bytes(&self) -> [u8; 8]
        ensures { result ≡ next_hop_buffer.encode self.now }
    {
        let [a, b] = self.length.to_le_bytes();
        let [c, d, e, f] = self.interface_index.to_le_bytes();
        [a, b, self.flags, self.hops, c, d, e, f]
    }
}
