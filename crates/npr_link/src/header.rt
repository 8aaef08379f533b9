//! The header of a link message: `struct ifinfomsg` of `linux/rtnetlink.h`.

ghost use Rattle.std.{specs.Prelude.{◌≡◌, ◌<◌, ◌≤◌, length, IfOk, IfErr, refl, codes}, proofs.Common.{rules}};
ghost use Rattle.{
  npr_base.specs.{Codec.{leading}, Message.{governs_by, none_searched}, lemmas.Message.{of_family, under_by}, Refusal.{no_place}},
  npr_link.specs.{Attribute.{family}, Header.{buffer_of, default_header, header, header_buffer}, Message.{links}},
};

use crate::attribute::LinkAttribute;
use crate::flags::LinkFlags;
use crate::layer_type::LinkLayerType;
use bitflags::Flags;
use npr_base::{
    AddressFamily, DecodeError, EmitError, Emitable, Header, Looks, leading_octets, write_array,
};

/// The length of `struct ifinfomsg` of `linux/rtnetlink.h`, in bytes.
pub(crate) const IFINFOMSG_SIZE: usize = 16;

/// The header of a link message.
#[derive(Clone, Copy, Debug, Default, PartialEq, Eq)]
pub struct LinkHeader {
    /// The address family that speaks of the link, or none.
    pub interface_family: AddressFamily,
    /// What kind of link it is.
    pub link_layer_type: LinkLayerType,
    /// The number of the link. The kernel's has a sign.
    pub index: u32,
    /// The flags.
    pub flags: LinkFlags,
    /// The flags that are meant.
    pub change_mask: LinkFlags,
}

/// The layout of a [`LinkHeader`]: 16 bytes, the family, one of padding, the kind in 2, and the
/// index and both sets of flags in 4 each, little endian. The padding is dropped where a header is
/// read, and written 0.
#[derive(Clone, Copy, Debug, PartialEq, Eq)]
pub struct LinkMessageBuffer {
    /// `AF_*` of `linux/socket.h`.
    pub interface_family: u8,
    /// Padding.
    pub reserved_1: u8,
    /// `ARPHRD_*` of `linux/if_arp.h`.
    pub link_layer_type: u16,
    /// The number of the interface.
    pub link_index: u32,
    /// `IFF_*` of `linux/if.h`.
    pub flags: u32,
    /// The flags that are meant.
    pub change_mask: u32,
}

impl LinkMessageBuffer {
    /// The layout in the first 16 bytes; more are not looked at.
    ///
    /// # Errors
    /// `HeaderTooShort` below 16 bytes.
    pub fn parse(bytes: &[u8]) -> Result<Self, DecodeError>
        ensures ok { IfOk result (λ b. (leading header_buffer).Reads bytes.now b) }
        ensures refused { IfErr result (λ e. (leading header_buffer).Wrong no_place bytes.now e) }
    {
        let b = leading_octets(bytes, IFINFOMSG_SIZE)?;
        Ok(LinkMessageBuffer {
            interface_family: b[0],
            reserved_1: b[1],
            link_layer_type: u16::from_le_bytes([b[2], b[3]]),
            link_index: u32::from_le_bytes([b[4], b[5], b[6], b[7]]),
            flags: u32::from_le_bytes([b[8], b[9], b[10], b[11]]),
            change_mask: u32::from_le_bytes([b[12], b[13], b[14], b[15]]),
        })
    }

    /// The 16 bytes of the layout.
    pub fn to_bytes(&self) -> [u8; 16]
        ensures { result ≡ header_buffer.encode self.now }
    {
        let [a, b] = self.link_layer_type.to_le_bytes();
        let [c, d, e, f] = self.link_index.to_le_bytes();
        let [g, h, i, j] = self.flags.to_le_bytes();
        let [k, l, m, n] = self.change_mask.to_le_bytes();
        [
            self.interface_family,
            self.reserved_1,
            a,
            b,
            c,
            d,
            e,
            f,
            g,
            h,
            i,
            j,
            k,
            l,
            m,
            n,
        ]
    }
}

impl<'a> From<&'a LinkHeader> for LinkMessageBuffer {
    ghost from_gives = { λ h b. b ≡ buffer_of h.now };

    fn from(header: &'a LinkHeader) -> LinkMessageBuffer {
        LinkMessageBuffer {
            interface_family: u8::from(header.interface_family),
            reserved_1: 0,
            link_layer_type: u16::from(header.link_layer_type),
            link_index: header.index,
            flags: header.flags.bits(),
            change_mask: header.change_mask.bits(),
        }
    }
}

impl Emitable for LinkHeader {
    ghost bytes = { header.encode };

    fn check(&self) -> Result<usize, EmitError> {
        Ok(IFINFOMSG_SIZE)
    }

    #[inline(never)]
    fn emit(&self, out: &mut [u8]) {
        write_array(LinkMessageBuffer::from(self).to_bytes(), out);
    }
}

impl LinkHeader {
    /// The header in the first 16 bytes, which are there.
    #[inline]
    pub(crate) fn at_front(bytes: &[u8]) -> Self
        requires { 16 ≤ length bytes.now }
        ensures { (leading header).Reads bytes.now result }
    {
        let b = &bytes[..IFINFOMSG_SIZE];
        LinkHeader {
            interface_family: AddressFamily::from(b[0]),
            link_layer_type: LinkLayerType::from(u16::from_le_bytes([b[2], b[3]])),
            index: u32::from_le_bytes([b[4], b[5], b[6], b[7]]),
            flags: LinkFlags::from_bits_retain(u32::from_le_bytes([b[8], b[9], b[10], b[11]])),
            change_mask: LinkFlags::from_bits_retain(u32::from_le_bytes([
                b[12], b[13], b[14], b[15],
            ])),
        }
    }
}

impl Header for LinkHeader {
    type Attribute = LinkAttribute;

    ghost grammar = { links };

    ghost governs = { governs_by (λ h. h.interface_family) };

    ghost searches = { λ h bytes context. none_searched };

    ghost by_layout = { λ h. (refl, refl, refl, Prim.search rules) };

    ghost by_family = { of_family family header default_header links.body };

    ghost under = { under_by family header default_header (λ h. h.interface_family) };

    ghost message_text = { codes "LinkMessage" };

    fn message_name() -> &'static str {
        "LinkMessage"
    }

    fn size() -> usize {
        IFINFOMSG_SIZE
    }

    #[inline]
    fn in_front(bytes: &[u8]) -> Self {
        LinkHeader::at_front(bytes)
    }

    fn context(&self, _bytes: &[u8], _looks: &mut Looks) -> AddressFamily {
        self.interface_family
    }
}
