//! The header of a message of settings, and the message: `RTM_NEWNETCONF`, `RTM_DELNETCONF` and
//! `RTM_GETNETCONF`, without the envelope.

ghost use Rattle.std.{specs.Prelude.{◌≡◌, ◌<◌, IfOk, IfErr, refl, codes}, proofs.Common.{rules}};
ghost use Rattle.{
  npr_base.specs.{Codec.{leading}, Message.{governs_by, none_searched}, lemmas.Message.{of_family, under_by}, Refusal.{no_place}},
  npr_namespace.specs.{NetconfAttribute.{family}, NetconfHeader.{buffer_of, default_header, header, header_buffer}, NetconfMessage.{netconfs}},
};

use crate::netconf_attribute::NetconfAttribute;
use npr_base::{
    AddressFamily, DecodeError, EmitError, Emitable, Header, Looks, Message, leading_octets,
    write_array,
};

/// The length of `struct netconfmsg` of `linux/netconf.h` with its padding, in bytes.
const NETCONFMSG_SIZE: usize = 4;

/// The header of a message of settings.
#[derive(Clone, Copy, Debug, Default, PartialEq, Eq)]
pub struct NetconfHeader {
    /// The address family whose settings these are.
    pub family: AddressFamily,
}

/// The layout of a [`NetconfHeader`]: 4 bytes, the family, and three of padding. The padding is not
/// looked at where a header is read, and written 0.
#[derive(Clone, Copy, Debug, PartialEq, Eq)]
pub struct NetconfMessageBuffer {
    /// `AF_*` of `linux/socket.h`.
    pub family: u8,
}

impl NetconfMessageBuffer {
    /// The layout in the first 4 bytes; more are not looked at.
    ///
    /// # Errors
    /// `HeaderTooShort` below 4 bytes.
    pub fn parse(bytes: &[u8]) -> Result<Self, DecodeError>
        ensures ok { IfOk result (λ b. (leading header_buffer).Reads bytes.now b) }
        ensures refused { IfErr result (λ e. (leading header_buffer).Wrong no_place bytes.now e) }
    {
        let b = leading_octets(bytes, NETCONFMSG_SIZE)?;
        Ok(NetconfMessageBuffer { family: b[0] })
    }

    /// The 4 bytes of the layout.
    pub fn to_bytes(&self) -> [u8; 4]
        ensures { result ≡ header_buffer.encode self.now }
    {
        [self.family, 0, 0, 0]
    }
}

impl<'a> From<&'a NetconfHeader> for NetconfMessageBuffer {
    ghost from_gives = { λ h b. b ≡ buffer_of h.now };

    fn from(header: &'a NetconfHeader) -> NetconfMessageBuffer {
        NetconfMessageBuffer {
            family: u8::from(header.family),
        }
    }
}

impl Emitable for NetconfHeader {
    ghost bytes = { header.encode };

    fn check(&self) -> Result<usize, EmitError> {
        Ok(NETCONFMSG_SIZE)
    }

    #[inline(never)]
    fn emit(&self, out: &mut [u8]) {
        write_array(NetconfMessageBuffer::from(self).to_bytes(), out);
    }
}

/// A message of settings: a header of 4 bytes, and attributes to the end.
pub type NetconfMessage = Message<NetconfHeader, NetconfAttribute>;

impl Header for NetconfHeader {
    type Attribute = NetconfAttribute;

    ghost grammar = { netconfs };

    ghost governs = { governs_by (λ h. tt) };

    ghost searches = { λ h bytes context. none_searched };

    ghost by_layout = { λ h. (refl, refl, refl, Prim.search rules) };

    ghost by_family = { of_family family header default_header netconfs.body };

    ghost under = { under_by family header default_header (λ h. tt) };

    ghost message_text = { codes "NetconfMessage" };

    fn message_name() -> &'static str {
        "NetconfMessage"
    }

    fn size() -> usize {
        NETCONFMSG_SIZE
    }

    #[inline]
    fn in_front(bytes: &[u8]) -> Self {
        let b = &bytes[..NETCONFMSG_SIZE];
        NetconfHeader {
            family: AddressFamily::from(b[0]),
        }
    }

    fn context(&self, _bytes: &[u8], _looks: &mut Looks) {}
}
