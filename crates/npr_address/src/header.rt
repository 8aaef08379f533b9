//! The header of an address message: `struct ifaddrmsg` of `linux/if_addr.h`.

ghost use Rattle.std.{specs.Prelude.{◌≡◌, ◌<◌, IfOk, IfErr, refl, codes}, proofs.Common.{rules}};
ghost use Rattle.{
  npr_base.specs.{Codec.{leading}, Message.{governs_by, none_searched}, lemmas.Message.{of_family, under_by}, Refusal.{no_place}},
  npr_address.specs.{Attribute.{family}, Header.{buffer_of, default_header, header, header_buffer}, Message.{addresses}},
};

use crate::addr_flags::AddressHeaderFlags;
use crate::addr_scope::AddressScope;
use crate::attribute::AddressAttribute;
use bitflags::Flags;
use npr_base::{
    AddressFamily, DecodeError, EmitError, Emitable, Header, Looks, leading_octets, octets_at,
    write_array,
};

/// The length of `struct ifaddrmsg` of `linux/if_addr.h`, in bytes.
const IFADDRMSG_SIZE: usize = 8;

/// The header of an address message.
#[derive(Clone, Copy, Debug, Default, PartialEq, Eq)]
pub struct AddressHeader {
    /// The family of the addresses.
    pub family: AddressFamily,
    /// The length of the prefix, in bits.
    pub prefix_len: u8,
    /// The flags, as far as they have room here.
    pub flags: AddressHeaderFlags,
    /// How far the address reaches.
    pub scope: AddressScope,
    /// The number of the interface.
    pub index: u32,
}

/// The layout of an [`AddressHeader`]: 8 bytes, each field of 1 byte but the index, which has 4,
/// little endian.
#[derive(Clone, Copy, Debug, PartialEq, Eq)]
pub struct AddressMessageBuffer {
    /// `AF_*` of `linux/socket.h`.
    pub family: u8,
    /// The length of the prefix, in bits.
    pub prefix_len: u8,
    /// `IFA_F_*` of `linux/if_addr.h`.
    pub flags: u8,
    /// `RT_SCOPE_*` of `linux/rtnetlink.h`.
    pub scope: u8,
    /// The number of the interface.
    pub index: u32,
}

impl AddressMessageBuffer {
    /// The layout in the first 8 bytes; more are not looked at.
    ///
    /// # Errors
    /// `HeaderTooShort` below 8 bytes.
    pub fn parse(bytes: &[u8]) -> Result<Self, DecodeError>
        ensures ok { IfOk result (λ b. (leading header_buffer).Reads bytes.now b) }
        ensures refused { IfErr result (λ e. (leading header_buffer).Wrong no_place bytes.now e) }
    {
        let b = leading_octets(bytes, IFADDRMSG_SIZE)?;
        Ok(AddressMessageBuffer {
            family: b[0],
            prefix_len: b[1],
            flags: b[2],
            scope: b[3],
            index: u32::from_le_bytes(octets_at(b, 4)),
        })
    }

    /// The 8 bytes of the layout.
    pub fn to_bytes(&self) -> [u8; 8]
        ensures { result ≡ header_buffer.encode self.now }
    {
        let [a, b, c, d] = self.index.to_le_bytes();
        [
            self.family,
            self.prefix_len,
            self.flags,
            self.scope,
            a,
            b,
            c,
            d,
        ]
    }
}

impl<'a> From<&'a AddressHeader> for AddressMessageBuffer {
    ghost from_gives = { λ h b. b ≡ buffer_of h.now };

    fn from(header: &'a AddressHeader) -> AddressMessageBuffer {
        AddressMessageBuffer {
            family: u8::from(header.family),
            prefix_len: header.prefix_len,
            flags: header.flags.bits(),
            scope: u8::from(header.scope),
            index: header.index,
        }
    }
}

impl Emitable for AddressHeader {
    ghost bytes = { header.encode };

    fn check(&self) -> Result<usize, EmitError> {
        Ok(IFADDRMSG_SIZE)
    }

    #[inline(never)]
    fn emit(&self, out: &mut [u8]) {
        write_array(AddressMessageBuffer::from(self).to_bytes(), out);
    }
}

impl Header for AddressHeader {
    type Attribute = AddressAttribute;

    ghost grammar = { addresses };

    ghost governs = { governs_by (λ h. tt) };

    ghost searches = { λ h bytes context. none_searched };

    ghost by_layout = { λ h. (refl, refl, refl, Prim.search rules) };

    ghost by_family = { of_family family header default_header addresses.body };

    ghost under = { under_by family header default_header (λ h. tt) };

    ghost message_text = { codes "AddressMessage" };

    fn message_name() -> &'static str {
        "AddressMessage"
    }

    fn size() -> usize {
        IFADDRMSG_SIZE
    }

    #[inline]
    fn in_front(bytes: &[u8]) -> Self {
        let b = &bytes[..IFADDRMSG_SIZE];
        AddressHeader {
            family: AddressFamily::from(b[0]),
            prefix_len: b[1],
            flags: AddressHeaderFlags::from_bits_retain(b[2]),
            scope: AddressScope::from(b[3]),
            index: u32::from_le_bytes(octets_at(b, 4)),
        }
    }

    fn context(&self, _bytes: &[u8], _looks: &mut Looks) {}
}
