//! The attributes of an extended answer: `NLMSGERR_ATTR_*` of `linux/netlink.h`.

ghost use Rattle.std.specs.Prelude.{◌≡◌, ◌<◌, ◌^◌, length, option_map, refl};
ghost use Rattle.{
  netlink_packet_core.specs.Extended.{family, has_flag, refused_length, refused_message, error_attributes, done_attributes, IsFirstText},
  npr_base.specs.{Family.{shaped}},
};

use crate::constants::{NETLINK_HEADER_LEN, NLM_F_ACK_TLVS, NLM_F_CAPPED, NLMSG_ALIGNTO};
use crate::header::NetlinkHeader;
use npr_base::{
    At, Attribute, DecodeError, DefaultNla, EmitError, Form, Looks, Nla, NlaBuffer, NlasIterator,
    Place, without_zero,
};
use std::alloc::{AllocError, Global};

/// An attribute of an extended answer.
#[derive(Debug, Drop, PartialEq, Eq)]
pub enum ErrorAttribute {
    /// `NLMSGERR_ATTR_MSG`: what is wrong, in words.
    Message(String),
    /// `NLMSGERR_ATTR_OFFS`: where the wrong attribute begins, in bytes from the refused message's
    /// header on.
    Offset(u32),
    /// `NLMSGERR_ATTR_COOKIE`: what names the object that was made.
    Cookie(Vec<u8>),
    /// `NLMSGERR_ATTR_POLICY`: what the wrong attribute should have been, as it stands.
    Policy(Vec<u8>),
    /// `NLMSGERR_ATTR_MISS_TYPE`: the number of an attribute that is missing.
    MissingType(u32),
    /// `NLMSGERR_ATTR_MISS_NEST`: where the list begins in which it is missing.
    MissingNest(u32),
    /// An attribute of another number, as it stands.
    Other(DefaultNla),
}

/// The rows of the table. Refusals name no family of the library.
macro_rules! rows {
    ($body:ident ($($given:tt)*)) => {
        npr_base::$body!(($($given)*) ErrorAttribute of Value {
            1 Message(name);
            2 Offset(le32);
            3 Cookie(raw);
            4 Policy(raw);
            5 MissingType(le32);
            6 MissingNest(le32);
        })
    };
}

impl Nla for ErrorAttribute {
    ghost shape = { shaped family };

    fn kind(&self) -> u16 {
        rows!(kind_rows(self))
    }

    fn is_nested(&self) -> bool {
        false
    }

    fn check_value(&self) -> Result<usize, EmitError> {
        Ok(rows!(len_rows(self)))
    }

    fn write_value(&self, out: &mut [u8]) -> usize {
        rows!(write_rows(self, out))
    }
}

impl Attribute for ErrorAttribute {
    type Context = ();

    ghost family = { family };

    ghost shape_is = { λ a. refl };

    fn read_into<P: Place<Self>>(
        place: &mut P,
        alloc: Global,
        _context: (),
        item: &NlaBuffer<'_>,
        looks: &mut Looks,
    ) -> Result<(), DecodeError> {
        rows!(put_rows(place, alloc, item, looks))
    }

    fn form(_context: (), number: u16) -> (At, Form) {
        rows!(form_rows(number))
    }

    fn try_clone(&self, alloc: Global) -> Result<Self, AllocError> {
        rows!(clone_rows(self, alloc))
    }
}

/// Whether the bit of this value is set.
pub(crate) fn has_flag(flags: u16, bit: u16) -> bool
    requires { 0 < bit }
    ensures { result ≡ has_flag flags bit }
{
    flags / bit % 2 == 1
}

/// How long the refused message is that stands behind the code of an error, in bytes.
fn refused_length(flags: u16, more: &[u8]) -> usize
    ensures length { result ≡ refused_length flags more.now }
    ensures small { result < 2 ^ 32 }
{
    if has_flag(flags, NLM_F_CAPPED) || more.len() < NETLINK_HEADER_LEN {
        return NETLINK_HEADER_LEN;
    }
    NETLINK_HEADER_LEN.max(NetlinkHeader::in_front(more).length as usize)
}

/// The attributes behind the code of an error: under `NLM_F_ACK_TLVS`, what follows the refused
/// message at a multiple of four.
pub fn error_attributes(flags: u16, more: &[u8]) -> &[u8]
    ensures { result.now ≡ error_attributes flags more.now }
{
    if !has_flag(flags, NLM_F_ACK_TLVS) {
        return &[];
    }
    let end = refused_length(flags, more).next_multiple_of(NLMSG_ALIGNTO);
    &more[end.min(more.len())..]
}

/// The refused message behind the code of an error: its header, and under no `NLM_F_CAPPED` what
/// stands behind that.
pub fn refused_message(flags: u16, more: &[u8]) -> &[u8]
    ensures { result.now ≡ refused_message flags more.now }
{
    if !has_flag(flags, NLM_F_ACK_TLVS) {
        return more;
    }
    &more[..refused_length(flags, more).min(more.len())]
}

/// The attributes behind the code of an end, under `NLM_F_ACK_TLVS`.
pub fn done_attributes(flags: u16, more: &[u8]) -> &[u8]
    ensures { result.now ≡ done_attributes flags more.now }
{
    if has_flag(flags, NLM_F_ACK_TLVS) {
        more
    } else {
        &[]
    }
}

/// What the kernel says in words, among the attributes of an extended answer: the first
/// `NLMSGERR_ATTR_MSG`, borrowed, without its final zero.
pub fn error_text(attributes: &[u8]) -> Option<&[u8]>
    ensures { IsFirstText attributes.now (option_map (λ text. text.now) result) }
{
    let mut walk = NlasIterator::new(attributes);
    while let Some(next) = walk.next() {
        match next {
            Ok(attribute) if attribute.kind() == 1 => {
                return Some(without_zero(attribute.value()));
            }
            Ok(_) => {}
            Err(_) => return None,
        }
    }
    None
}
