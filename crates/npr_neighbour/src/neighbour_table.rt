//! The header of a message of tables of neighbours, and the message: `RTM_NEWNEIGHTBL`,
//! `RTM_GETNEIGHTBL` and `RTM_SETNEIGHTBL`, without the envelope.

ghost use Rattle.std.{specs.Prelude.{◌≡◌, ◌<◌, IfOk, IfErr, refl, codes}, proofs.Common.{rules}};
ghost use Rattle.{
  npr_base.specs.{Codec.{leading}, Message.{governs_by, none_searched}, lemmas.Message.{of_family, under_by}, Refusal.{no_place}},
  npr_neighbour.specs.{NeighbourTableAttribute.{family}, NeighbourTableHeader.{buffer_of, default_header, header, header_buffer}, NeighbourTableMessage.{neighbour_tables}},
};

use crate::neighbour_table_attribute::NeighbourTableAttribute;
use npr_base::{
    AddressFamily, DecodeError, EmitError, Emitable, Header, Looks, Message, leading_octets,
    write_array,
};

/// The length of `struct ndtmsg` of `linux/neighbour.h`, in bytes.
const NDTMSG_SIZE: usize = 4;

/// The header of a message of tables of neighbours.
#[derive(Clone, Copy, Debug, Default, PartialEq, Eq)]
pub struct NeighbourTableHeader {
    /// The family of the addresses in the table.
    pub family: AddressFamily,
}

/// The layout of a [`NeighbourTableHeader`]: 4 bytes, the family, and three of padding. The padding
/// is not looked at where a header is read, and written 0.
#[derive(Clone, Copy, Debug, PartialEq, Eq)]
pub struct NeighbourTableMessageBuffer {
    /// `AF_*` of `linux/socket.h`.
    pub family: u8,
}

impl NeighbourTableMessageBuffer {
    /// The layout in the first 4 bytes; more are not looked at.
    ///
    /// # Errors
    /// `HeaderTooShort` below 4 bytes.
    pub fn parse(bytes: &[u8]) -> Result<Self, DecodeError>
        ensures ok { IfOk result (λ b. (leading header_buffer).Reads bytes.now b) }
        ensures refused { IfErr result (λ e. (leading header_buffer).Wrong no_place bytes.now e) }
    {
        let b = leading_octets(bytes, NDTMSG_SIZE)?;
        Ok(NeighbourTableMessageBuffer { family: b[0] })
    }

    /// The 4 bytes of the layout.
    pub fn to_bytes(&self) -> [u8; 4]
        ensures { result ≡ header_buffer.encode self.now }
    {
        [self.family, 0, 0, 0]
    }
}

impl<'a> From<&'a NeighbourTableHeader> for NeighbourTableMessageBuffer {
    ghost from_gives = { λ h b. b ≡ buffer_of h.now };

    fn from(header: &'a NeighbourTableHeader) -> NeighbourTableMessageBuffer {
        NeighbourTableMessageBuffer {
            family: u8::from(header.family),
        }
    }
}

impl Emitable for NeighbourTableHeader {
    ghost bytes = { header.encode };

    fn check(&self) -> Result<usize, EmitError> {
        Ok(NDTMSG_SIZE)
    }

    #[inline(never)]
    fn emit(&self, out: &mut [u8]) {
        write_array(NeighbourTableMessageBuffer::from(self).to_bytes(), out);
    }
}

/// A message of tables of neighbours: a header of 4 bytes, and attributes to the end.
pub type NeighbourTableMessage = Message<NeighbourTableHeader, NeighbourTableAttribute>;

impl Header for NeighbourTableHeader {
    type Attribute = NeighbourTableAttribute;

    ghost grammar = { neighbour_tables };

    ghost governs = { governs_by (λ h. tt) };

    ghost searches = { λ h bytes context. none_searched };

    ghost by_layout = { λ h. (refl, refl, refl, Prim.search rules) };

    ghost by_family = { of_family family header default_header neighbour_tables.body };

    ghost under = { under_by family header default_header (λ h. tt) };

    ghost message_text = { codes "NeighbourTableMessage" };

    fn message_name() -> &'static str {
        "NeighbourTableMessage"
    }

    fn size() -> usize {
        NDTMSG_SIZE
    }

    #[inline]
    fn in_front(bytes: &[u8]) -> Self {
        let b = &bytes[..NDTMSG_SIZE];
        NeighbourTableHeader {
            family: AddressFamily::from(b[0]),
        }
    }

    fn context(&self, _bytes: &[u8], _looks: &mut Looks) {}
}
