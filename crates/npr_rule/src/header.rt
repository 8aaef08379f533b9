//! The header of a rule message: `struct fib_rule_hdr` of `linux/fib_rules.h`.

ghost use Rattle.std.{specs.Prelude.{◌≡◌, ◌<◌, IfOk, IfErr, refl, codes}, proofs.Common.{rules as known}};
ghost use Rattle.{
  npr_base.specs.{Codec.{leading}, Message.{governs_by, none_searched}, lemmas.Message.{of_family, under_by}, Refusal.{no_place}},
  npr_rule.specs.{Attribute.{family}, Header.{buffer_of, default_header, header, header_buffer}, Message.{rules}},
};

use crate::action::RuleAction;
use crate::attribute::RuleAttribute;
use crate::flags::RuleFlags;
use bitflags::Flags;
use npr_base::{
    AddressFamily, DecodeError, EmitError, Emitable, Header, Looks, leading_octets, octets_at,
    write_array,
};

/// The length of `struct fib_rule_hdr` of `linux/fib_rules.h`, in bytes.
const FIB_RULE_HDR_SIZE: usize = 12;

/// The header of a rule message.
#[derive(Clone, Copy, Debug, Default, PartialEq, Eq)]
pub struct RuleHeader {
    /// The family of the packets.
    pub family: AddressFamily,
    /// The length of the destination's prefix, in bits.
    pub dst_len: u8,
    /// The length of the source's prefix, in bits.
    pub src_len: u8,
    /// The type of service of the packets.
    pub tos: u8,
    /// The table, where it has room here.
    pub table: u8,
    /// What the rule does.
    pub action: RuleAction,
    /// The flags.
    pub flags: RuleFlags,
}

/// The layout of a [`RuleHeader`]: 12 bytes, each field of 1 byte but the flags, which have 4,
/// little endian. The reserved bytes are dropped where a header is read, and written 0.
#[derive(Clone, Copy, Debug, PartialEq, Eq)]
pub struct RuleMessageBuffer {
    /// `AF_*` of `linux/socket.h`.
    pub family: u8,
    /// The length of the destination's prefix, in bits.
    pub dst_len: u8,
    /// The length of the source's prefix, in bits.
    pub src_len: u8,
    /// The type of service.
    pub tos: u8,
    /// `RT_TABLE_*` of `linux/rtnetlink.h`.
    pub table: u8,
    /// Reserved.
    pub reserve_1: u8,
    /// Reserved.
    pub reserve_2: u8,
    /// `FR_ACT_*` of `linux/fib_rules.h`.
    pub action: u8,
    /// `FIB_RULE_*` of `linux/fib_rules.h`.
    pub flags: u32,
}

impl RuleMessageBuffer {
    /// The layout in the first 12 bytes; more are not looked at.
    ///
    /// # Errors
    /// `HeaderTooShort` below 12 bytes.
    pub fn parse(bytes: &[u8]) -> Result<Self, DecodeError>
        ensures ok { IfOk result (λ b. (leading header_buffer).Reads bytes.now b) }
        ensures refused { IfErr result (λ e. (leading header_buffer).Wrong no_place bytes.now e) }
    {
        let b = leading_octets(bytes, FIB_RULE_HDR_SIZE)?;
        Ok(RuleMessageBuffer {
            family: b[0],
            dst_len: b[1],
            src_len: b[2],
            tos: b[3],
            table: b[4],
            reserve_1: b[5],
            reserve_2: b[6],
            action: b[7],
            flags: u32::from_le_bytes(octets_at(b, 8)),
        })
    }

    /// The 12 bytes of the layout.
    pub fn to_bytes(&self) -> [u8; 12]
        ensures { result ≡ header_buffer.encode self.now }
    {
        let [a, b, c, d] = self.flags.to_le_bytes();
        [
            self.family,
            self.dst_len,
            self.src_len,
            self.tos,
            self.table,
            self.reserve_1,
            self.reserve_2,
            self.action,
            a,
            b,
            c,
            d,
        ]
    }
}

impl<'a> From<&'a RuleHeader> for RuleMessageBuffer {
    ghost from_gives = { λ h b. b ≡ buffer_of h.now };

    fn from(header: &'a RuleHeader) -> RuleMessageBuffer {
        RuleMessageBuffer {
            family: u8::from(header.family),
            dst_len: header.dst_len,
            src_len: header.src_len,
            tos: header.tos,
            table: header.table,
            reserve_1: 0,
            reserve_2: 0,
            action: u8::from(header.action),
            flags: header.flags.bits(),
        }
    }
}

impl Emitable for RuleHeader {
    ghost bytes = { header.encode };

    fn check(&self) -> Result<usize, EmitError> {
        Ok(FIB_RULE_HDR_SIZE)
    }

    #[inline(never)]
    fn emit(&self, out: &mut [u8]) {
        write_array(RuleMessageBuffer::from(self).to_bytes(), out);
    }
}

impl Header for RuleHeader {
    type Attribute = RuleAttribute;

    ghost grammar = { rules };

    ghost governs = { governs_by (λ h. tt) };

    ghost searches = { λ h bytes context. none_searched };

    ghost by_layout = { λ h. (refl, refl, refl, Prim.search known) };

    ghost by_family = { of_family family header default_header rules.body };

    ghost under = { under_by family header default_header (λ h. tt) };

    ghost message_text = { codes "RuleMessage" };

    fn message_name() -> &'static str {
        "RuleMessage"
    }

    fn size() -> usize {
        FIB_RULE_HDR_SIZE
    }

    #[inline]
    fn in_front(bytes: &[u8]) -> Self {
        let b = &bytes[..FIB_RULE_HDR_SIZE];
        RuleHeader {
            family: AddressFamily::from(b[0]),
            dst_len: b[1],
            src_len: b[2],
            tos: b[3],
            table: b[4],
            action: RuleAction::from(b[7]),
            flags: RuleFlags::from_bits_retain(u32::from_le_bytes(octets_at(b, 8))),
        }
    }

    fn context(&self, _bytes: &[u8], _looks: &mut Looks) {}
}
