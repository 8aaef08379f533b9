//! What is shown of classic programs, which filters and actions run.

use crate::field::{Fields, ITEM, Word, Wording};
use crate::list::List;
use crate::part::push_parts;
use crate::row::How::Number;
use crate::row::Parts;
use std::alloc::AllocError;

/// `struct sock_filter` of `linux/filter.h`.
const INSTRUCTION: Parts = crate::parts![
    U16 0 0 "code" "" Number;
    U8 2 1 "jt" "" Number;
    U8 3 2 "jf" "" Number;
    U32 4 3 "k" "" Number;
];

/// The bytes of one.
const SIZE: usize = 8;

const LENGTH: Word = &Wording(0, "length", "");

const INSTRUCTIONS: Word = &Wording(1, "insns", "");

/// How many instructions there are, and these.
pub fn push_program(fields: &mut Fields, list: List<'_>, word: Word, bytes: &[u8]) {
    let mut instructions = Fields::new(fields.manner);
    let mut left = bytes;
    for _ in 0..bytes.len() {
        let (Some(one), Some(behind)) = (left.get(..SIZE), left.get(SIZE..)) else {
            break;
        };
        let mut inside = Fields::new(fields.manner);
        push_parts(&mut inside, list, one, INSTRUCTION);
        instructions.object(ITEM, inside);
        left = behind;
    }
    let count = bytes.len() / SIZE;
    let mut inside = Fields::new(fields.manner);
    inside.number(LENGTH, u32::try_from(count).unwrap_or(u32::MAX));
    inside.hide();
    match format!(in fields.manner.alloc; "bytecode '{count},") {
        Ok(before) => inside.list_in(INSTRUCTIONS, instructions, (before.as_str(), ",", "'")),
        Err(AllocError) => inside.refuse(),
    }
    fields.object(word, inside);
}
