//! What is shown of a label of addresses.

use crate::field::{Fields, Word, Wording};
use crate::row::How::{Number, Text};
use crate::row::Rows;
use crate::walk::push_message;
use netlink_packet_route::MessageKind;
use netlink_packet_route::address_label::AddressLabelMessageBuffer;

/// Of a label of addresses.
pub const ADDRESS_LABEL: Rows = crate::rows![
    1 2 "address" "prefix " Text;
    2 5 "label" "label " Number;
];

/// The family that has labels (`AF_INET6`).
const AF_INET6: u8 = 10;

const LENGTH: Word = &Wording(3, "prefixlen", "/");

const INTERFACE: Word = &Wording(4, "ifname", "dev ");

const SEQUENCE: Word = &Wording(6, "sequence", "sequence ");

const FLAGS: Word = &Wording(7, "flags", "flags ");

const FAMILY: Word = &Wording(8, "family", "family ");

/// What is shown of a label.
pub fn push_address_label(fields: &mut Fields, bytes: &[u8]) {
    let Ok(header) = AddressLabelMessageBuffer::parse(bytes) else {
        return;
    };
    fields.number(LENGTH, header.prefix_len);
    fields.some_interface(INTERFACE, header.index);
    fields.number(SEQUENCE, header.sequence);
    fields.hide_if(header.sequence == 0);
    fields.some_bits(FLAGS, header.flags);
    fields.family(FAMILY, header.family);
    fields.hide_if(header.family == AF_INET6);
    push_message(fields, MessageKind::AddressLabel, bytes);
}
