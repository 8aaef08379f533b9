//! The header of a message of statistics, and the message: `RTM_NEWSTATS` of `linux/rtnetlink.h`, without the
//! envelope.

ghost use Rattle.std.{specs.Prelude.{◌≡◌, ◌<◌, IfOk, IfErr, refl, codes}, proofs.Common.{rules}};
ghost use Rattle.{
  npr_base.specs.{Codec.{leading}, Message.{governs_by, none_searched}, lemmas.Message.{of_family, under_by}, Refusal.{no_place}},
  npr_stats.specs.{Attribute.{family}, Header.{buffer_of, default_header, header, header_buffer}, Message.{stats_messages}},
};

use crate::attribute::StatsAttribute;
use npr_base::{
    AddressFamily, DecodeError, EmitError, Emitable, Header, Looks, Message, leading_octets,
    octets_at, write_array,
};

/// The length of `struct if_stats_msg` of `linux/if_link.h`, in bytes.
const IF_STATS_MSG_SIZE: usize = 12;

/// The header of a message of statistics.
#[derive(Clone, Copy, Debug, Default, PartialEq, Eq)]
pub struct StatsHeader {
    /// The address family; kernels write none.
    pub family: AddressFamily,
    /// The index of the interface.
    pub index: u32,
    /// Which attributes were asked for: the bit below the number of each, `IFLA_STATS_FILTER_BIT` of
    /// `linux/if_link.h`.
    pub filter_mask: u32,
}

/// The layout of a [`StatsHeader`]: 12 bytes, the family, three of padding, and the index and the mask in
/// 4 each, little endian. The padding is not looked at where a header is read, and written 0.
#[derive(Clone, Copy, Debug, PartialEq, Eq)]
pub struct StatsMessageBuffer {
    /// `AF_*` of `linux/socket.h`.
    pub family: u8,
    /// The index of the interface.
    pub index: u32,
    /// `IFLA_STATS_FILTER_BIT` of `linux/if_link.h`, of each attribute that is meant.
    pub filter_mask: u32,
}

impl StatsMessageBuffer {
    /// The layout in the first 12 bytes; more are not looked at.
    ///
    /// # Errors
    /// `HeaderTooShort` below 12 bytes.
    pub fn parse(bytes: &[u8]) -> Result<Self, DecodeError>
        ensures ok { IfOk result (λ b. (leading header_buffer).Reads bytes.now b) }
        ensures refused { IfErr result (λ e. (leading header_buffer).Wrong no_place bytes.now e) }
    {
        let b = leading_octets(bytes, IF_STATS_MSG_SIZE)?;
        Ok(StatsMessageBuffer {
            family: b[0],
            index: u32::from_le_bytes(octets_at(b, 4)),
            filter_mask: u32::from_le_bytes(octets_at(b, 8)),
        })
    }

    /// The 12 bytes of the layout.
    pub fn to_bytes(&self) -> [u8; 12]
        ensures { result ≡ header_buffer.encode self.now }
    {
        let [a0, a1, a2, a3] = self.index.to_le_bytes();
        let [b0, b1, b2, b3] = self.filter_mask.to_le_bytes();
        [self.family, 0, 0, 0, a0, a1, a2, a3, b0, b1, b2, b3]
    }
}

impl<'a> From<&'a StatsHeader> for StatsMessageBuffer {
    ghost from_gives = { λ h b. b ≡ buffer_of h.now };

    fn from(header: &'a StatsHeader) -> StatsMessageBuffer {
        StatsMessageBuffer {
            family: u8::from(header.family),
            index: header.index,
            filter_mask: header.filter_mask,
        }
    }
}

impl Emitable for StatsHeader {
    ghost bytes = { header.encode };

    fn check(&self) -> Result<usize, EmitError> {
        Ok(IF_STATS_MSG_SIZE)
    }

    #[inline(never)]
    fn emit(&self, out: &mut [u8]) {
        write_array(StatsMessageBuffer::from(self).to_bytes(), out);
    }
}

/// A message of statistics: a header of 12 bytes, and attributes to the end.
pub type StatsMessage = Message<StatsHeader, StatsAttribute>;

impl Header for StatsHeader {
    type Attribute = StatsAttribute;

    ghost grammar = { stats_messages };

    ghost governs = { governs_by (λ h. tt) };

    ghost searches = { λ h bytes context. none_searched };

    ghost by_layout = { λ h. (refl, refl, refl, Prim.search rules) };

    ghost by_family = { of_family family header default_header stats_messages.body };

    ghost under = { under_by family header default_header (λ h. tt) };

    ghost message_text = { codes "StatsMessage" };

    fn message_name() -> &'static str {
        "StatsMessage"
    }

    fn size() -> usize {
        IF_STATS_MSG_SIZE
    }

    #[inline]
    fn in_front(bytes: &[u8]) -> Self {
        let b = &bytes[..IF_STATS_MSG_SIZE];
        StatsHeader {
            family: AddressFamily::from(b[0]),
            index: u32::from_le_bytes(octets_at(b, 4)),
            filter_mask: u32::from_le_bytes(octets_at(b, 8)),
        }
    }

    fn context(&self, _bytes: &[u8], _looks: &mut Looks) {}
}
