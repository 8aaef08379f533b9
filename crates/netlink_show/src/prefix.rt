//! What is shown of a prefix that a router told.

use crate::field::{Fields, Word, Wording};
use crate::list::{List, Seen};
use crate::names::Names;
use crate::part::push_parts;
use crate::row::How::{Number, Own, Text};
use crate::row::{Parts, Rows};
use crate::walk::push_message;
use netlink_packet_route::MessageKind;
use netlink_packet_route::prefix::PrefixMessageBuffer;

/// Of a prefix that a router told.
pub const PREFIX: Rows = crate::rows![
    1 2 "prefix" "prefix " Text;
    2 7 "valid" "valid " Own;
];

/// For how long it is valid and preferred, in seconds (`struct prefix_cacheinfo`).
const TIMES: Parts = crate::parts![
    U32 0 8 "preferred" "preferred " Number;
    U32 4 7 "valid" "valid " Number;
];

const LENGTH: Word = &Wording(3, "prefixlen", "/");

const INTERFACE: Word = &Wording(4, "dev", "dev ");

const ON_LINK: Word = &Wording(5, "onlink", "onlink");

const AUTONOMOUS: Word = &Wording(6, "autoconf", "autoconf");

const FLAGS: Word = &Wording(9, "flags", "flags ");

const TYPE: Word = &Wording(10, "type", "type ");

const FAMILY: Word = &Wording(11, "family", "family ");

/// The families that have a word (`AF_*`).
const FAMILIES: Names = &[(2, "inet"), (10, "inet6")];

/// The family of each prefix that a kernel tells (`AF_INET6`), and the type (RFC 4861, section 4.6.2).
const INET6: u8 = 10;

const INFORMATION: u8 = 3;

/// Addresses of the prefix are on the link: the bit of the option, and that of kernels before 6.8.
const ON_LINK_BITS: u8 = 0x81;

/// Addresses are made of the prefix: the same.
const AUTONOMOUS_BITS: u8 = 0x42;

/// What is shown of a prefix.
pub fn push_prefix(fields: &mut Fields, bytes: &[u8]) {
    let Ok(header) = PrefixMessageBuffer::parse(bytes) else {
        return;
    };
    fields.number(LENGTH, header.prefix_len);
    fields.interface(INTERFACE, header.ifindex.cast_unsigned());
    push_flags(fields, header.flags);
    fields.number(TYPE, header.prefix_type);
    fields.hide_if(header.prefix_type == INFORMATION);
    fields.named(FAMILY, FAMILIES, header.prefix_family);
    fields.hide_if(header.prefix_family == INET6);
    push_message(fields, MessageKind::Prefix, bytes);
}

/// The flags. A line has their number where a bit has no word.
fn push_flags(fields: &mut Fields, flags: u8) {
    fields.word_if(ON_LINK, flags & ON_LINK_BITS != 0);
    fields.word_if(AUTONOMOUS, flags & AUTONOMOUS_BITS != 0);
    fields.bits(FLAGS, flags);
    fields.hide_if(flags & !(ON_LINK_BITS | AUTONOMOUS_BITS) == 0);
}

/// The times.
pub fn push_own(fields: &mut Fields, list: List<'_>, seen: &Seen<'_>) {
    push_parts(fields, list, seen.bytes, TIMES)
}
