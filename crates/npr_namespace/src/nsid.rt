//! The header of a message of name spaces, and the message: `RTM_NEWNSID`, `RTM_DELNSID` and
//! `RTM_GETNSID`, without the envelope.

ghost use Rattle.std.{specs.Prelude.{◌≡◌, ◌<◌, IfOk, IfErr, refl, codes}, proofs.Common.{rules}};
ghost use Rattle.{
  npr_base.specs.{Codec.{leading}, Message.{governs_by, none_searched}, lemmas.Message.{of_family, under_by}, Refusal.{no_place}},
  npr_namespace.specs.{NsidAttribute.{family}, NsidHeader.{buffer_of, default_header, header, header_buffer}, NsidMessage.{nsids}},
};

use crate::nsid_attribute::NsidAttribute;
use npr_base::{
    AddressFamily, DecodeError, EmitError, Emitable, Header, Looks, Message, leading_octets,
    write_array,
};

/// The length of `struct rtgenmsg` of `linux/rtnetlink.h` with its padding, in bytes.
const RTGENMSG_SIZE: usize = 4;

/// The header of a message of name spaces.
#[derive(Clone, Copy, Debug, Default, PartialEq, Eq)]
pub struct NsidHeader {
    /// The address family, which kernels do not look at.
    pub family: AddressFamily,
}

/// The layout of a [`NsidHeader`]: 4 bytes, the family, and three of padding. The padding is not
/// looked at where a header is read, and written 0.
#[derive(Clone, Copy, Debug, PartialEq, Eq)]
pub struct NsidMessageBuffer {
    /// `AF_*` of `linux/socket.h`.
    pub family: u8,
}

impl NsidMessageBuffer {
    /// The layout in the first 4 bytes; more are not looked at.
    ///
    /// # Errors
    /// `HeaderTooShort` below 4 bytes.
    pub fn parse(bytes: &[u8]) -> Result<Self, DecodeError>
        ensures ok { IfOk result (λ b. (leading header_buffer).Reads bytes.now b) }
        ensures refused { IfErr result (λ e. (leading header_buffer).Wrong no_place bytes.now e) }
    {
        let b = leading_octets(bytes, RTGENMSG_SIZE)?;
        Ok(NsidMessageBuffer { family: b[0] })
    }

    /// The 4 bytes of the layout.
    pub fn to_bytes(&self) -> [u8; 4]
        ensures { result ≡ header_buffer.encode self.now }
    {
        [self.family, 0, 0, 0]
    }
}

impl<'a> From<&'a NsidHeader> for NsidMessageBuffer {
    ghost from_gives = { λ h b. b ≡ buffer_of h.now };

    fn from(header: &'a NsidHeader) -> NsidMessageBuffer {
        NsidMessageBuffer {
            family: u8::from(header.family),
        }
    }
}

impl Emitable for NsidHeader {
    ghost bytes = { header.encode };

    fn check(&self) -> Result<usize, EmitError> {
        Ok(RTGENMSG_SIZE)
    }

    #[inline(never)]
    fn emit(&self, out: &mut [u8]) {
        write_array(NsidMessageBuffer::from(self).to_bytes(), out);
    }
}

/// A message of name spaces: a header of 4 bytes, and attributes to the end.
pub type NsidMessage = Message<NsidHeader, NsidAttribute>;

impl Header for NsidHeader {
    type Attribute = NsidAttribute;

    ghost grammar = { nsids };

    ghost governs = { governs_by (λ h. tt) };

    ghost searches = { λ h bytes context. none_searched };

    ghost by_layout = { λ h. (refl, refl, refl, Prim.search rules) };

    ghost by_family = { of_family family header default_header nsids.body };

    ghost under = { under_by family header default_header (λ h. tt) };

    ghost message_text = { codes "NsidMessage" };

    fn message_name() -> &'static str {
        "NsidMessage"
    }

    fn size() -> usize {
        RTGENMSG_SIZE
    }

    #[inline]
    fn in_front(bytes: &[u8]) -> Self {
        let b = &bytes[..RTGENMSG_SIZE];
        NsidHeader {
            family: AddressFamily::from(b[0]),
        }
    }

    fn context(&self, _bytes: &[u8], _looks: &mut Looks) {}
}
