//! The header of a message of address labels (RFC 6724), and the message: `RTM_NEWADDRLABEL`,
//! `RTM_DELADDRLABEL` and `RTM_GETADDRLABEL`, without the envelope.

ghost use Rattle.std.{specs.Prelude.{◌≡◌, ◌<◌, IfOk, IfErr, refl, codes}, proofs.Common.{rules}};
ghost use Rattle.{
  npr_base.specs.{Codec.{leading}, Message.{governs_by, none_searched}, lemmas.Message.{of_family, under_by}, Refusal.{no_place}},
  npr_address.specs.{AddressLabelAttribute.{family}, AddressLabelHeader.{buffer_of, default_header, header, header_buffer}, AddressLabelMessage.{address_labels}},
};

use crate::address_label_attribute::AddressLabelAttribute;
use npr_base::{
    AddressFamily, DecodeError, EmitError, Emitable, Header, Looks, Message, leading_octets,
    octets_at, write_array,
};

/// The length of `struct ifaddrlblmsg` of `linux/if_addrlabel.h`, in bytes.
const IFADDRLBLMSG_SIZE: usize = 12;

/// The header of a message of address labels.
#[derive(Clone, Copy, Debug, Default, PartialEq, Eq)]
pub struct AddressLabelHeader {
    /// The family of the address.
    pub family: AddressFamily,
    /// How many bits of the address count.
    pub prefix_len: u8,
    /// The flags, of which none is defined.
    pub flags: u8,
    /// The index of the interface; 0 is every one.
    pub index: u32,
    /// How often the table was changed.
    pub sequence: u32,
}

/// The layout of an [`AddressLabelHeader`]: 12 bytes, the family, one of padding, the length of the
/// prefix, the flags, and the index and the count of changes in 4 each, little endian. The padding
/// is not looked at where a header is read, and written 0.
#[derive(Clone, Copy, Debug, PartialEq, Eq)]
pub struct AddressLabelMessageBuffer {
    /// `AF_*` of `linux/socket.h`.
    pub family: u8,
    /// How many bits of the address count.
    pub prefix_len: u8,
    /// Flags, of which none is defined.
    pub flags: u8,
    /// The number of the interface.
    pub index: u32,
    /// How often the table was changed.
    pub sequence: u32,
}

impl AddressLabelMessageBuffer {
    /// The layout in the first 12 bytes; more are not looked at.
    ///
    /// # Errors
    /// `HeaderTooShort` below 12 bytes.
    pub fn parse(bytes: &[u8]) -> Result<Self, DecodeError>
        ensures ok { IfOk result (λ b. (leading header_buffer).Reads bytes.now b) }
        ensures refused { IfErr result (λ e. (leading header_buffer).Wrong no_place bytes.now e) }
    {
        let b = leading_octets(bytes, IFADDRLBLMSG_SIZE)?;
        Ok(AddressLabelMessageBuffer {
            family: b[0],
            prefix_len: b[2],
            flags: b[3],
            index: u32::from_le_bytes(octets_at(b, 4)),
            sequence: u32::from_le_bytes(octets_at(b, 8)),
        })
    }

    /// The 12 bytes of the layout.
    pub fn to_bytes(&self) -> [u8; 12]
        ensures { result ≡ header_buffer.encode self.now }
    {
        let [a, b, c, d] = self.index.to_le_bytes();
        let [e, f, g, h] = self.sequence.to_le_bytes();
        [
            self.family,
            0,
            self.prefix_len,
            self.flags,
            a,
            b,
            c,
            d,
            e,
            f,
            g,
            h,
        ]
    }
}

impl<'a> From<&'a AddressLabelHeader> for AddressLabelMessageBuffer {
    ghost from_gives = { λ h b. b ≡ buffer_of h.now };

    fn from(header: &'a AddressLabelHeader) -> AddressLabelMessageBuffer {
        AddressLabelMessageBuffer {
            family: u8::from(header.family),
            prefix_len: header.prefix_len,
            flags: header.flags,
            index: header.index,
            sequence: header.sequence,
        }
    }
}

impl Emitable for AddressLabelHeader {
    ghost bytes = { header.encode };

    fn check(&self) -> Result<usize, EmitError> {
        Ok(IFADDRLBLMSG_SIZE)
    }

    #[inline(never)]
    fn emit(&self, out: &mut [u8]) {
        write_array(AddressLabelMessageBuffer::from(self).to_bytes(), out);
    }
}

/// A message of address labels: a header of 12 bytes, and attributes to the end.
pub type AddressLabelMessage = Message<AddressLabelHeader, AddressLabelAttribute>;

impl Header for AddressLabelHeader {
    type Attribute = AddressLabelAttribute;

    ghost grammar = { address_labels };

    ghost governs = { governs_by (λ h. tt) };

    ghost searches = { λ h bytes context. none_searched };

    ghost by_layout = { λ h. (refl, refl, refl, Prim.search rules) };

    ghost by_family = { of_family family header default_header address_labels.body };

    ghost under = { under_by family header default_header (λ h. tt) };

    ghost message_text = { codes "AddressLabelMessage" };

    fn message_name() -> &'static str {
        "AddressLabelMessage"
    }

    fn size() -> usize {
        IFADDRLBLMSG_SIZE
    }

    #[inline]
    fn in_front(bytes: &[u8]) -> Self {
        let b = &bytes[..IFADDRLBLMSG_SIZE];
        AddressLabelHeader {
            family: AddressFamily::from(b[0]),
            prefix_len: b[2],
            flags: b[3],
            index: u32::from_le_bytes(octets_at(b, 4)),
            sequence: u32::from_le_bytes(octets_at(b, 8)),
        }
    }

    fn context(&self, _bytes: &[u8], _looks: &mut Looks) {}
}
