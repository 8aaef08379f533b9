//! The header of a message of prefixes, and the message: `RTM_NEWPREFIX`, without the envelope.

ghost use Rattle.std.{specs.Prelude.{◌≡◌, ◌<◌, IfOk, IfErr, refl, codes}, proofs.Common.{rules}};
ghost use Rattle.{
  npr_base.specs.{Codec.{leading}, Message.{governs_by, none_searched}, lemmas.Message.{of_family, under_by}, Refusal.{no_place}},
  npr_address.specs.{PrefixAttribute.{family}, PrefixHeader.{buffer_of, default_header, header, header_buffer}, PrefixMessage.{prefixes}},
};

use crate::prefix_attribute::PrefixAttribute;
use npr_base::{
    DecodeError, EmitError, Emitable, Header, Looks, Message, leading_octets, octets_at,
    write_array,
};

/// The length of `struct prefixmsg` of `linux/rtnetlink.h`, in bytes.
const PREFIXMSG_SIZE: usize = 12;

/// The header of a message of prefixes.
#[derive(Clone, Copy, Debug, Default, PartialEq, Eq)]
pub struct PrefixHeader {
    /// The family of the prefix, by its number.
    pub prefix_family: u8,
    /// The index of the interface on which it was announced.
    pub ifindex: i32,
    /// The type of the option that announced it (RFC 4861, section 4.6): 3 for a prefix.
    pub prefix_type: u8,
    /// How many bits of the address count.
    pub prefix_len: u8,
    /// The flags of the option (RFC 4861, section 4.6.2).
    pub flags: u8,
}

/// The layout of a [`PrefixHeader`]: 12 bytes, the family, three of padding, the index in 4 with a
/// sign, little endian, the type, the length, the flags, and one of padding. The padding is dropped
/// where a header is read, and written 0.
#[derive(Clone, Copy, Debug, PartialEq, Eq)]
pub struct PrefixMessageBuffer {
    /// `AF_*` of `linux/socket.h`.
    pub prefix_family: u8,
    /// Padding.
    pub pad1: u8,
    /// Padding.
    pub pad2: u16,
    /// The number of the interface.
    pub ifindex: i32,
    /// The type of the option (RFC 4861, section 4.6).
    pub prefix_type: u8,
    /// How many bits of the address count.
    pub prefix_len: u8,
    /// The flags of the option (RFC 4861, section 4.6.2).
    pub flags: u8,
    /// Padding.
    pub pad3: u8,
}

impl PrefixMessageBuffer {
    /// The layout in the first 12 bytes; more are not looked at.
    ///
    /// # Errors
    /// `HeaderTooShort` below 12 bytes.
    pub fn parse(bytes: &[u8]) -> Result<Self, DecodeError>
        ensures ok { IfOk result (λ b. (leading header_buffer).Reads bytes.now b) }
        ensures refused { IfErr result (λ e. (leading header_buffer).Wrong no_place bytes.now e) }
    {
        let b = leading_octets(bytes, PREFIXMSG_SIZE)?;
        Ok(PrefixMessageBuffer {
            prefix_family: b[0],
            pad1: b[1],
            pad2: u16::from_le_bytes(octets_at(b, 2)),
            ifindex: i32::from_le_bytes(octets_at(b, 4)),
            prefix_type: b[8],
            prefix_len: b[9],
            flags: b[10],
            pad3: b[11],
        })
    }

    /// The 12 bytes of the layout.
    pub fn to_bytes(&self) -> [u8; 12]
        ensures { result ≡ header_buffer.encode self.now }
    {
        let [a, b] = self.pad2.to_le_bytes();
        let [c, d, e, f] = self.ifindex.to_le_bytes();
        [
            self.prefix_family,
            self.pad1,
            a,
            b,
            c,
            d,
            e,
            f,
            self.prefix_type,
            self.prefix_len,
            self.flags,
            self.pad3,
        ]
    }
}

impl<'a> From<&'a PrefixHeader> for PrefixMessageBuffer {
    ghost from_gives = { λ h b. b ≡ buffer_of h.now };

    fn from(header: &'a PrefixHeader) -> PrefixMessageBuffer {
        PrefixMessageBuffer {
            prefix_family: header.prefix_family,
            pad1: 0,
            pad2: 0,
            ifindex: header.ifindex,
            prefix_type: header.prefix_type,
            prefix_len: header.prefix_len,
            flags: header.flags,
            pad3: 0,
        }
    }
}

impl Emitable for PrefixHeader {
    ghost bytes = { header.encode };

    fn check(&self) -> Result<usize, EmitError> {
        Ok(PREFIXMSG_SIZE)
    }

    #[inline(never)]
    fn emit(&self, out: &mut [u8]) {
        write_array(PrefixMessageBuffer::from(self).to_bytes(), out);
    }
}

/// A message of prefixes: a header of 12 bytes, and attributes to the end.
pub type PrefixMessage = Message<PrefixHeader, PrefixAttribute>;

impl Header for PrefixHeader {
    type Attribute = PrefixAttribute;

    ghost grammar = { prefixes };

    ghost governs = { governs_by (λ h. tt) };

    ghost searches = { λ h bytes context. none_searched };

    ghost by_layout = { λ h. (refl, refl, refl, Prim.search rules) };

    ghost by_family = { of_family family header default_header prefixes.body };

    ghost under = { under_by family header default_header (λ h. tt) };

    ghost message_text = { codes "PrefixMessage" };

    fn message_name() -> &'static str {
        "PrefixMessage"
    }

    fn size() -> usize {
        PREFIXMSG_SIZE
    }

    #[inline]
    fn in_front(bytes: &[u8]) -> Self {
        let b = &bytes[..PREFIXMSG_SIZE];
        PrefixHeader {
            prefix_family: b[0],
            ifindex: i32::from_le_bytes(octets_at(b, 4)),
            prefix_type: b[8],
            prefix_len: b[9],
            flags: b[10],
        }
    }

    fn context(&self, _bytes: &[u8], _looks: &mut Looks) {}
}
