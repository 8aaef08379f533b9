//! What is shown of the counters and resources of a link. A line has no counters.

use crate::field::{Fields, Word, Wording};
use crate::list::List;
use crate::part::push_structure;
use crate::row::How::{Bits, Number};
use crate::row::{Parts, Size};

/// The resources of a device (`struct rtnl_link_ifmap`).
const MAP: Parts = crate::parts![
    U64 0 0 "mem_start" "mem_start " Bits;
    U64 8 1 "mem_end" "mem_end " Bits;
    U64 16 2 "base_addr" "base_addr " Bits;
    U16 24 3 "irq" "irq " Number;
    U8 26 4 "dma" "dma " Number;
    U8 27 5 "port" "port " Number;
];

const RECEIVED: Word = &Wording(0, "rx", "");

const SENT: Word = &Wording(1, "tx", "");

/// Numbers behind those that have a key.
const MORE: Word = &Wording(2, "more", "");

/// Counters: the place of each, its key, and whether 0 is told.
type Counters = &'static [(usize, &'static str, bool)];

/// How many counters have a key.
const COUNTERS: usize = 25;

const OF_RECEIVED: Counters = &[
    (2, "bytes", true),
    (0, "packets", true),
    (4, "errors", true),
    (6, "dropped", true),
    (11, "over_errors", true),
    (8, "multicast", true),
    (21, "compressed", false),
    (10, "length_errors", true),
    (12, "crc_errors", true),
    (13, "frame_errors", true),
    (14, "fifo_errors", true),
    (15, "missed_errors", true),
    (23, "nohandler", false),
    (24, "otherhost", false),
];

const OF_SENT: Counters = &[
    (3, "bytes", true),
    (1, "packets", true),
    (5, "errors", true),
    (7, "dropped", true),
    (17, "carrier_errors", true),
    (9, "collisions", true),
    (22, "compressed", false),
    (16, "aborted_errors", true),
    (18, "fifo_errors", true),
    (20, "window_errors", true),
    (19, "heartbeat_errors", true),
];

/// The key of how often the carrier came or went, which `ip` tells among the counters.
const CARRIER_CHANGES: &str = "carrier_changes";

/// Counters of this size, and with them how often the carrier came or went.
pub fn push_stats(
    fields: &mut Fields,
    word: Word,
    size: Size,
    bytes: &[u8],
    carrier_changes: Option<u32>,
) {
    let mut inside = Fields::new(fields.manner);
    let mut sent = Fields::new(fields.manner);
    push_counters(&mut sent, OF_SENT, size, bytes);
    if let Some(count) = carrier_changes {
        sent.counted(CARRIER_CHANGES, count);
    }
    inside.object(SENT, sent);
    let mut received = Fields::new(fields.manner);
    push_counters(&mut received, OF_RECEIVED, size, bytes);
    inside.object(RECEIVED, received);
    for at in COUNTERS..bytes.len() {
        let Some(number) = size.number_in(bytes, at) else {
            break;
        };
        inside.number(MORE, number);
        inside.hide();
    }
    fields.object(word, inside);
}

fn push_counters(fields: &mut Fields, counters: Counters, size: Size, bytes: &[u8]) {
    for (at, key, is_always) in counters {
        let number = size.number_in(bytes, *at).unwrap_or(0);
        if *is_always || number != 0 {
            fields.counted(key, number);
        }
    }
}

/// The resources of a device, which a line has where there are some.
pub fn push_map(fields: &mut Fields, list: List<'_>, word: Word, bytes: &[u8]) {
    push_structure(fields, list, word, bytes, MAP);
    fields.hide_if(bytes.iter().take(28).all(|byte| *byte == 0));
}
