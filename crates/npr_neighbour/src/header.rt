//! The header of a neighbour message: `struct ndmsg` of `linux/neighbour.h`.

ghost use Rattle.std.{specs.Prelude.{◌≡◌, ◌<◌, IfOk, IfErr, refl, codes}, proofs.Common.{rules}};
ghost use Rattle.{
  npr_base.specs.{Codec.{leading}, Message.{governs_by, none_searched}, lemmas.Message.{of_family, under_by}, Refusal.{no_place}},
  npr_neighbour.specs.{Attribute.{family}, Header.{buffer_of, default_header, header, header_buffer}, Message.{neighbours}},
};

use crate::attribute::NeighbourAttribute;
use crate::flags::NeighbourFlags;
use crate::state::NeighbourState;
use bitflags::Flags;
use npr_base::{
    AddressFamily, DecodeError, EmitError, Emitable, Header, Looks, leading_octets, write_array,
};
use npr_route_values::RouteType;

/// The length of `struct ndmsg` of `linux/neighbour.h`, in bytes.
const NDMSG_SIZE: usize = 12;

/// The header of a neighbour message.
#[derive(Clone, Copy, Debug, Default, PartialEq, Eq)]
pub struct NeighbourHeader {
    /// The family of the address.
    pub family: AddressFamily,
    /// The index of the interface; 0 is none.
    pub ifindex: u32,
    /// How far the neighbour is known.
    pub state: NeighbourState,
    /// The flags, as far as they have room here.
    pub flags: NeighbourFlags,
    /// What becomes of a packet to it.
    pub kind: RouteType,
}

/// The layout of a [`NeighbourHeader`]: 12 bytes, the family, three of padding, the index in 4 and
/// the state in 2, little endian, the flags, and the kind. The padding is not looked at where a
/// header is read, and written 0.
#[derive(Clone, Copy, Debug, PartialEq, Eq)]
pub struct NeighbourMessageBuffer {
    /// `AF_*` of `linux/socket.h`.
    pub family: u8,
    /// The number of the interface.
    pub ifindex: u32,
    /// `NUD_*` of `linux/neighbour.h`.
    pub state: u16,
    /// `NTF_*` of `linux/neighbour.h`.
    pub flags: u8,
    /// `RTN_*` of `linux/rtnetlink.h`.
    pub kind: u8,
}

impl NeighbourMessageBuffer {
    /// The layout in the first 12 bytes; more are not looked at.
    ///
    /// # Errors
    /// `HeaderTooShort` below 12 bytes.
    pub fn parse(bytes: &[u8]) -> Result<Self, DecodeError>
        ensures ok { IfOk result (λ b. (leading header_buffer).Reads bytes.now b) }
        ensures refused { IfErr result (λ e. (leading header_buffer).Wrong no_place bytes.now e) }
    {
        let b = leading_octets(bytes, NDMSG_SIZE)?;
        Ok(NeighbourMessageBuffer {
            family: b[0],
            ifindex: u32::from_le_bytes([b[4], b[5], b[6], b[7]]),
            state: u16::from_le_bytes([b[8], b[9]]),
            flags: b[10],
            kind: b[11],
        })
    }

    /// The 12 bytes of the layout.
    pub fn to_bytes(&self) -> [u8; 12]
        ensures { result ≡ header_buffer.encode self.now }
    {
        let [a, b, c, d] = self.ifindex.to_le_bytes();
        let [e, f] = self.state.to_le_bytes();
        [
            self.family,
            0,
            0,
            0,
            a,
            b,
            c,
            d,
            e,
            f,
            self.flags,
            self.kind,
        ]
    }
}

impl<'a> From<&'a NeighbourHeader> for NeighbourMessageBuffer {
    ghost from_gives = { λ h b. b ≡ buffer_of h.now };

    fn from(header: &'a NeighbourHeader) -> NeighbourMessageBuffer {
        NeighbourMessageBuffer {
            family: u8::from(header.family),
            ifindex: header.ifindex,
            state: header.state.bits(),
            flags: header.flags.bits(),
            kind: u8::from(header.kind),
        }
    }
}

impl Emitable for NeighbourHeader {
    ghost bytes = { header.encode };

    fn check(&self) -> Result<usize, EmitError> {
        Ok(NDMSG_SIZE)
    }

    #[inline(never)]
    fn emit(&self, out: &mut [u8]) {
        write_array(NeighbourMessageBuffer::from(self).to_bytes(), out);
    }
}

impl Header for NeighbourHeader {
    type Attribute = NeighbourAttribute;

    ghost grammar = { neighbours };

    ghost governs = { governs_by (λ h. h.family) };

    ghost searches = { λ h bytes context. none_searched };

    ghost by_layout = { λ h. (refl, refl, refl, Prim.search rules) };

    ghost by_family = { of_family family header default_header neighbours.body };

    ghost under = { under_by family header default_header (λ h. h.family) };

    ghost message_text = { codes "NeighbourMessage" };

    fn message_name() -> &'static str {
        "NeighbourMessage"
    }

    fn size() -> usize {
        NDMSG_SIZE
    }

    #[inline]
    fn in_front(bytes: &[u8]) -> Self {
        let b = &bytes[..NDMSG_SIZE];
        NeighbourHeader {
            family: AddressFamily::from(b[0]),
            ifindex: u32::from_le_bytes([b[4], b[5], b[6], b[7]]),
            state: NeighbourState::from_bits_retain(u16::from_le_bytes([b[8], b[9]])),
            flags: NeighbourFlags::from_bits_retain(b[10]),
            kind: RouteType::from(b[11]),
        }
    }

    fn context(&self, _bytes: &[u8], _looks: &mut Looks) -> AddressFamily {
        self.family
    }
}
