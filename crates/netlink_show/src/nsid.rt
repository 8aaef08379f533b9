//! What is shown of the number of a network namespace.

use crate::field::{Fields, Word, Wording};
use crate::row::How::{Except, Number};
use crate::row::{ANY, Rows};
use crate::walk::push_message;
use netlink_packet_route::MessageKind;
use netlink_packet_route::nsid::NsidMessageBuffer;

/// Of the number of a network namespace; that of one without a number is -1.
pub const NSID: Rows = crate::rows![
    1 2 "nsid" "nsid " Except(ANY, "unassigned");
    2 5 "pid" "pid " Number;
    3 6 "fd" "fd " Number;
    4 4 "target-nsid" "target-nsid " Except(ANY, "unassigned");
    5 3 "current-nsid" "current-nsid " Except(ANY, "unassigned");
];

const FAMILY: Word = &Wording(7, "family", "family ");

/// What is shown of the number of a namespace.
pub fn push_nsid(fields: &mut Fields, bytes: &[u8]) {
    let Ok(header) = NsidMessageBuffer::parse(bytes) else {
        return;
    };
    fields.family(FAMILY, header.family);
    fields.hide_if(header.family == 0);
    push_message(fields, MessageKind::Nsid, bytes);
}
