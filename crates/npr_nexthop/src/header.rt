//! The header of a next hop message: `struct nhmsg` of `linux/nexthop.h`.

ghost use Rattle.std.{specs.Prelude.{◌≡◌, IfOk, IfErr, refl, codes}, proofs.Common.{rules}};
ghost use Rattle.{
  npr_base.specs.{Codec.{leading}, lemmas.Message.{of_family}, Refusal.{no_place}},
  npr_nexthop.specs.{
    Attribute.{family},
    Header.{buffer_of, default_header, header, header_buffer},
    Message.{IsContext, SearchesIt, next_hops, under_context},
  },
};

use crate::attribute::{Context, NextHopAttribute};
use crate::governing::governing_type;
use bitflags::Flags;
use npr_base::{
    AddressFamily, DecodeError, EmitError, Emitable, Header, Looks, leading_octets, write_array,
};
use npr_route_values::{RouteFlags, RouteProtocol, RouteScope};

/// The length of `struct nhmsg` of `linux/nexthop.h`, in bytes.
const NHMSG_SIZE: usize = 8;

/// The header of a next hop message.
#[derive(Clone, Copy, Debug, Default, PartialEq, Eq)]
pub struct NextHopHeader {
    /// The family of the gateway.
    pub family: AddressFamily,
    /// How far the next hop is. Kernels say it, and refuse it in a request.
    pub scope: RouteScope,
    /// Who made it.
    pub protocol: RouteProtocol,
    /// The flags, as those of a route.
    pub flags: RouteFlags,
}

/// The layout of a [`NextHopHeader`]: 8 bytes, family, scope, protocol and a byte that is unused, and
/// the flags in 4, little endian. The byte is not looked at where a header is read, and written 0.
#[derive(Clone, Copy, Debug, PartialEq, Eq)]
pub struct NextHopMessageBuffer {
    /// `AF_*` of `linux/socket.h`.
    pub family: u8,
    /// `RT_SCOPE_*` of `linux/rtnetlink.h`.
    pub scope: u8,
    /// `RTPROT_*` of `linux/rtnetlink.h`.
    pub protocol: u8,
    /// `RTNH_F_*` of `linux/rtnetlink.h`.
    pub flags: u32,
}

impl NextHopMessageBuffer {
    /// The layout in the first 8 bytes; more are not looked at.
    ///
    /// # Errors
    /// `HeaderTooShort` below 8 bytes.
    pub fn parse(bytes: &[u8]) -> Result<Self, DecodeError>
        ensures ok { IfOk result (λ b. (leading header_buffer).Reads bytes.now b) }
        ensures refused { IfErr result (λ e. (leading header_buffer).Wrong no_place bytes.now e) }
    {
        let b = leading_octets(bytes, NHMSG_SIZE)?;
        Ok(NextHopMessageBuffer {
            family: b[0],
            scope: b[1],
            protocol: b[2],
            flags: u32::from_le_bytes([b[4], b[5], b[6], b[7]]),
        })
    }

    /// The 8 bytes of the layout.
    pub fn to_bytes(&self) -> [u8; 8]
        ensures { result ≡ header_buffer.encode self.now }
    {
        let [a, b, c, d] = self.flags.to_le_bytes();
        [self.family, self.scope, self.protocol, 0, a, b, c, d]
    }
}

impl<'a> From<&'a NextHopHeader> for NextHopMessageBuffer {
    ghost from_gives = { λ h b. b ≡ buffer_of h.now };

    fn from(header: &'a NextHopHeader) -> NextHopMessageBuffer {
        NextHopMessageBuffer {
            family: u8::from(header.family),
            scope: u8::from(header.scope),
            protocol: u8::from(header.protocol),
            flags: header.flags.bits(),
        }
    }
}

impl Emitable for NextHopHeader {
    ghost bytes = { header.encode };

    fn check(&self) -> Result<usize, EmitError> {
        Ok(NHMSG_SIZE)
    }

    #[inline(never)]
    fn emit(&self, out: &mut [u8]) {
        write_array(NextHopMessageBuffer::from(self).to_bytes(), out);
    }
}

impl Header for NextHopHeader {
    type Attribute = NextHopAttribute;

    ghost grammar = { next_hops };

    ghost governs = { IsContext };

    ghost searches = { SearchesIt };

    ghost by_layout = { λ h. (refl, refl, refl, Prim.search rules) };

    ghost by_family = { of_family family header default_header next_hops.body };

    ghost under = { under_context };

    ghost message_text = { codes "NextHopMessage" };

    fn message_name() -> &'static str {
        "NextHopMessage"
    }

    fn size() -> usize {
        NHMSG_SIZE
    }

    #[inline]
    fn in_front(bytes: &[u8]) -> Self {
        let b = &bytes[..NHMSG_SIZE];
        NextHopHeader {
            family: AddressFamily::from(b[0]),
            scope: RouteScope::from(b[1]),
            protocol: RouteProtocol::from(b[2]),
            flags: RouteFlags::from_bits_retain(u32::from_le_bytes([b[4], b[5], b[6], b[7]])),
        }
    }

    fn context(&self, bytes: &[u8], looks: &mut Looks) -> Context {
        (self.family, governing_type(bytes, looks))
    }
}
