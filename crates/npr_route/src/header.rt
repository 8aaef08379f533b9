//! The header of a route message: `struct rtmsg` of `linux/rtnetlink.h`.

ghost use Rattle.std.{specs.Prelude.{◌≡◌, ◌<◌, IfOk, IfErr, refl, codes}, proofs.Common.{rules}};
ghost use Rattle.{
  npr_base.specs.{Codec.{leading}, lemmas.Message.{of_family}, Refusal.{no_place}},
  npr_route.specs.{
    AttributeView.{family},
    Header.{buffer_of, default_header, header, header_buffer},
    Message.{routes},
    lemmas.Message.{under_context},
    Message.{IsContext, SearchesIt},
  },
};

use crate::attribute::{Context, RouteAttribute};
use crate::list::governing_type;
use bitflags::Flags;
use npr_base::{
    AddressFamily, DecodeError, EmitError, Emitable, Header, Looks, leading_octets, write_array,
};
use npr_encapsulation::RouteLwEnCapType;
use npr_route_values::{RouteFlags, RouteProtocol, RouteScope, RouteType};

/// The length of `struct rtmsg` of `linux/rtnetlink.h`, in bytes.
const RTMSG_SIZE: usize = 12;

/// The header of a route message.
#[derive(Clone, Copy, Debug, Default, PartialEq, Eq)]
pub struct RouteHeader {
    /// The family of the addresses.
    pub address_family: AddressFamily,
    /// The length of the destination's prefix, in bits.
    pub destination_prefix_length: u8,
    /// The length of the source's prefix, in bits.
    pub source_prefix_length: u8,
    /// The type of service.
    pub tos: u8,
    /// The table, where it has room here.
    pub table: u8,
    /// Who made the route.
    pub protocol: RouteProtocol,
    /// How far the destination is.
    pub scope: RouteScope,
    /// What the route does.
    pub kind: RouteType,
    /// The flags.
    pub flags: RouteFlags,
}

/// The layout of a [`RouteHeader`]: 12 bytes, each field of 1 byte but the flags, which have 4,
/// little endian.
#[derive(Clone, Copy, Debug, PartialEq, Eq)]
pub struct RouteMessageBuffer {
    /// `AF_*` of `linux/socket.h`.
    pub address_family: u8,
    /// The length of the destination's prefix, in bits.
    pub destination_prefix_length: u8,
    /// The length of the source's prefix, in bits.
    pub source_prefix_length: u8,
    /// The type of service.
    pub tos: u8,
    /// `RT_TABLE_*` of `linux/rtnetlink.h`.
    pub table: u8,
    /// `RTPROT_*` of `linux/rtnetlink.h`.
    pub protocol: u8,
    /// `RT_SCOPE_*` of `linux/rtnetlink.h`.
    pub scope: u8,
    /// `RTN_*` of `linux/rtnetlink.h`.
    pub kind: u8,
    /// `RTM_F_*` and `RTNH_F_*` of `linux/rtnetlink.h`.
    pub flags: u32,
}

impl RouteMessageBuffer {
    /// The layout in the first 12 bytes; more are not looked at.
    ///
    /// # Errors
    /// `HeaderTooShort` below 12 bytes.
    pub fn parse(bytes: &[u8]) -> Result<Self, DecodeError>
        ensures ok { IfOk result (λ b. (leading header_buffer).Reads bytes.now b) }
        ensures refused { IfErr result (λ e. (leading header_buffer).Wrong no_place bytes.now e) }
    {
        let b = leading_octets(bytes, RTMSG_SIZE)?;
        Ok(RouteMessageBuffer {
            address_family: b[0],
            destination_prefix_length: b[1],
            source_prefix_length: b[2],
            tos: b[3],
            table: b[4],
            protocol: b[5],
            scope: b[6],
            kind: b[7],
            flags: u32::from_le_bytes([b[8], b[9], b[10], b[11]]),
        })
    }

    /// The 12 bytes of the layout.
    pub fn to_bytes(&self) -> [u8; 12]
        ensures { result ≡ header_buffer.encode self.now }
    {
        let [a, b, c, d] = self.flags.to_le_bytes();
        [
            self.address_family,
            self.destination_prefix_length,
            self.source_prefix_length,
            self.tos,
            self.table,
            self.protocol,
            self.scope,
            self.kind,
            a,
            b,
            c,
            d,
        ]
    }
}

impl<'a> From<&'a RouteHeader> for RouteMessageBuffer {
    ghost from_gives = { λ h b. b ≡ buffer_of h.now };

    fn from(header: &'a RouteHeader) -> RouteMessageBuffer {
        RouteMessageBuffer {
            address_family: u8::from(header.address_family),
            destination_prefix_length: header.destination_prefix_length,
            source_prefix_length: header.source_prefix_length,
            tos: header.tos,
            table: header.table,
            protocol: u8::from(header.protocol),
            scope: u8::from(header.scope),
            kind: u8::from(header.kind),
            flags: header.flags.bits(),
        }
    }
}

impl RouteHeader {
    /// The table main, `RT_TABLE_MAIN` of `linux/rtnetlink.h`.
    pub const RT_TABLE_MAIN: u8 = 254;

    /// No table, `RT_TABLE_UNSPEC` of `linux/rtnetlink.h`.
    pub const RT_TABLE_UNSPEC: u8 = 0;
}

impl Emitable for RouteHeader {
    ghost bytes = { header.encode };

    fn check(&self) -> Result<usize, EmitError> {
        Ok(RTMSG_SIZE)
    }

    #[inline(never)]
    fn emit(&self, out: &mut [u8]) {
        write_array(RouteMessageBuffer::from(self).to_bytes(), out);
    }
}

impl Header for RouteHeader {
    type Attribute = RouteAttribute;

    ghost grammar = { routes };

    ghost governs = { IsContext };

    ghost searches = { SearchesIt };

    ghost by_layout = { λ h. (refl, refl, refl, Prim.search rules) };

    ghost by_family = { of_family family header default_header routes.body };

    ghost under = { under_context };

    ghost message_text = { codes "RouteMessage" };

    fn message_name() -> &'static str {
        "RouteMessage"
    }

    fn size() -> usize {
        RTMSG_SIZE
    }

    #[inline]
    fn in_front(bytes: &[u8]) -> Self {
        let b = &bytes[..RTMSG_SIZE];
        RouteHeader {
            address_family: AddressFamily::from(b[0]),
            destination_prefix_length: b[1],
            source_prefix_length: b[2],
            tos: b[3],
            table: b[4],
            protocol: RouteProtocol::from(b[5]),
            scope: RouteScope::from(b[6]),
            kind: RouteType::from(b[7]),
            flags: RouteFlags::from_bits_retain(u32::from_le_bytes([b[8], b[9], b[10], b[11]])),
        }
    }

    fn context(&self, bytes: &[u8], looks: &mut Looks) -> Context {
        let encap_type = governing_type(bytes, RouteLwEnCapType::None, looks);
        (self.address_family, self.kind, encap_type)
    }
}
