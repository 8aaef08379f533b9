//! The header of a message of traffic control: `struct tcmsg` of `linux/rtnetlink.h`.

ghost use Rattle.std.{specs.Prelude.{◌≡◌, IfOk, IfErr, refl, codes}, proofs.Common.{rules}};
ghost use Rattle.{
  npr_base.specs.{Codec.{leading}, lemmas.Message.{of_family}, Refusal.{no_place}},
  npr_tc.specs.{
    Attribute.{family},
    Header.{buffer_of, default_header, header, header_buffer},
    Message.{IsContext, SearchesIt, messages, under_context},
  },
};

use crate::attribute::TcAttribute;
use npr_base::{
    AddressFamily, DecodeError, EmitError, Emitable, Header, Looks, governing, leading_octets,
    write_array,
};
use npr_tc_values::{TcForm, TcHandle};

/// The length of `struct tcmsg` of `linux/rtnetlink.h`, in bytes.
const TCMSG_SIZE: usize = 20;

/// The header of a message of a queueing discipline, a class, a filter or a chain.
#[derive(Clone, Copy, Debug, Default, PartialEq, Eq)]
pub struct TcHeader {
    /// The address family, which kernels do not look at.
    pub family: AddressFamily,
    /// The index of the device; -1 where `parent` is the number of a block.
    pub index: i32,
    /// The handle of what the message says something of.
    pub handle: TcHandle,
    /// That of what it stands in, or the number of a block.
    pub parent: TcHandle,
    /// Of a queueing discipline how many hold it, of a class the handle of the queueing discipline in it;
    /// of a filter its preference in the high half, and in the low the protocol (`linux/if_ether.h`), big
    /// endian.
    pub info: u32,
}

impl TcHeader {
    /// `TCM_IFINDEX_MAGIC_BLOCK`: an index that says that `parent` is the number of a block, as it stands
    /// in the bytes.
    pub const TCM_IFINDEX_MAGIC_BLOCK: u32 = 0xffff_ffff;
}

/// The layout of a [`TcHeader`]: 20 bytes, the family, three of padding, and index, handle, parent and
/// info in 4 each, little endian. The padding is not looked at where a header is read, and written 0.
#[derive(Clone, Copy, Debug, PartialEq, Eq)]
pub struct TcMessageBuffer {
    /// `AF_*` of `linux/socket.h`.
    pub family: u8,
    /// The number of the interface, or -1.
    pub index: i32,
    /// The handle, its major number in the high half.
    pub handle: u32,
    /// That of what it stands in, or the number of a block.
    pub parent: u32,
    /// What else is told, by the type of the message.
    pub info: u32,
}

impl TcMessageBuffer {
    /// The layout in the first 20 bytes; more are not looked at.
    ///
    /// # Errors
    /// `HeaderTooShort` below 20 bytes.
    pub fn parse(bytes: &[u8]) -> Result<Self, DecodeError>
        ensures ok { IfOk result (λ b. (leading header_buffer).Reads bytes.now b) }
        ensures refused { IfErr result (λ e. (leading header_buffer).Wrong no_place bytes.now e) }
    {
        let b = leading_octets(bytes, TCMSG_SIZE)?;
        Ok(TcMessageBuffer {
            family: b[0],
            index: i32::from_le_bytes([b[4], b[5], b[6], b[7]]),
            handle: u32::from_le_bytes([b[8], b[9], b[10], b[11]]),
            parent: u32::from_le_bytes([b[12], b[13], b[14], b[15]]),
            info: u32::from_le_bytes([b[16], b[17], b[18], b[19]]),
        })
    }

    /// The 20 bytes of the layout.
    pub fn to_bytes(&self) -> [u8; 20]
        ensures { result ≡ header_buffer.encode self.now }
    {
        let [a0, a1, a2, a3] = self.index.to_le_bytes();
        let [b0, b1, b2, b3] = self.handle.to_le_bytes();
        let [c0, c1, c2, c3] = self.parent.to_le_bytes();
        let [d0, d1, d2, d3] = self.info.to_le_bytes();
        [
            self.family,
            0,
            0,
            0,
            a0,
            a1,
            a2,
            a3,
            b0,
            b1,
            b2,
            b3,
            c0,
            c1,
            c2,
            c3,
            d0,
            d1,
            d2,
            d3,
        ]
    }
}

impl<'a> From<&'a TcHeader> for TcMessageBuffer {
    ghost from_gives = { λ h b. b ≡ buffer_of h.now };

    fn from(header: &'a TcHeader) -> TcMessageBuffer {
        TcMessageBuffer {
            family: u8::from(header.family),
            index: header.index,
            handle: u32::from(header.handle),
            parent: u32::from(header.parent),
            info: header.info,
        }
    }
}

impl Emitable for TcHeader {
    ghost bytes = { header.encode };

    fn check(&self) -> Result<usize, EmitError> {
        Ok(TCMSG_SIZE)
    }

    #[inline(never)]
    fn emit(&self, out: &mut [u8]) {
        write_array(TcMessageBuffer::from(self).to_bytes(), out);
    }
}

impl Header for TcHeader {
    type Attribute = TcAttribute;

    ghost grammar = { messages };

    ghost governs = { IsContext };

    ghost searches = { SearchesIt };

    ghost by_layout = { λ h. (refl, refl, refl, Prim.search rules) };

    ghost by_family = { of_family family header default_header messages.body };

    ghost under = { under_context };

    ghost message_text = { codes "TcMessage" };

    fn message_name() -> &'static str {
        "TcMessage"
    }

    fn size() -> usize {
        TCMSG_SIZE
    }

    #[inline]
    fn in_front(bytes: &[u8]) -> Self {
        let b = &bytes[..TCMSG_SIZE];
        TcHeader {
            family: AddressFamily::from(b[0]),
            index: i32::from_le_bytes([b[4], b[5], b[6], b[7]]),
            handle: TcHandle::from(u32::from_le_bytes([b[8], b[9], b[10], b[11]])),
            parent: TcHandle::from(u32::from_le_bytes([b[12], b[13], b[14], b[15]])),
            info: u32::from_le_bytes([b[16], b[17], b[18], b[19]]),
        }
    }

    fn context(&self, bytes: &[u8], looks: &mut Looks) -> TcForm {
        governing::<TcAttribute>(bytes, looks)
    }
}
