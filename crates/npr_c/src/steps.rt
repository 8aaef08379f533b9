//! One step over attributes that stand one after the other, and the search for one of a number.

ghost use Rattle.npr_c.specs.Steps.{StepsAt, FindsAt};

use crate::answer::refusal_number;
use netlink_packet_route::framing::{NLA_F_NET_BYTEORDER, NLA_HEADER_SIZE, NlasIterator};

const FOUND: u32 = 0;

/// What a step over attributes answers.
///
/// Layout: two numbers of 4 bytes, three of the machine's word, and one of 2 bytes, in this order.
#[repr(C)]
#[derive(Clone, Copy)]
pub struct Step {
    /// 0 where an attribute is found, 1 where none stands, 2 at the end of the bytes.
    pub status: u32,
    /// The number of the refusal at status 1, and else 0.
    pub number: u32,
    /// Where the value begins, in bytes from the first; 0 unless the status is 0.
    pub value: usize,
    /// How many bytes the value has, without header and padding; 0 unless the status is 0.
    pub length: usize,
    /// Where the next attribute begins, in bytes from the first, or how many bytes there are;
    /// 0 unless the status is 0.
    pub next: usize,
    /// The kind with both flags; 0 unless the status is 0.
    pub kind: u16,
}

const NOTHING: Step = Step {
    status: 0,
    number: 0,
    value: 0,
    length: 0,
    next: 0,
    kind: 0,
};

const END: Step = Step {
    status: 2,
    ..NOTHING
};

/// The attribute that begins `at` bytes from the first, or why there is none. At the length of
/// the bytes, and past it, is their end. It takes no memory.
#[unsafe(no_mangle)]
pub extern "C" fn npr_step_at(bytes: &[u8], at: usize) -> Step
    ensures { StepsAt bytes.now at result }
{
    if at >= bytes.len() {
        return END;
    }
    let mut walk = NlasIterator::new(&bytes[at..]);
    match walk.next() {
        None => END,
        Some(Ok(attribute)) => Step {
            value: at + NLA_HEADER_SIZE,
            length: attribute.value().len(),
            next: bytes.len() - walk.rest().len(),
            kind: attribute.raw_kind(),
            ..NOTHING
        },
        Some(Err(fault)) => Step {
            status: 1,
            number: refusal_number(fault),
            ..NOTHING
        },
    }
}

/// The first attribute of this number that stands `at` bytes from the first or behind, or the fault
/// or the end before one. A number is without the two flags of a kind. It takes no memory.
#[unsafe(no_mangle)]
pub extern "C" fn npr_find(bytes: &[u8], mut at: usize, number: u16) -> Step
    ensures { FindsAt bytes.now at number result }
{
    'attributes: loop {
        let step = npr_step_at(bytes, at);
        if step.status != FOUND || step.kind % NLA_F_NET_BYTEORDER == number {
            return step;
        }
        at = step.next;
    }
}
