//! Tests of a filter, as they stand in lists: `TCA_EMATCH_TREE_LIST` of `linux/pkt_cls.h`.

ghost use Rattle.std.specs.Prelude.{◌≡◌, [], refl};
ghost use Rattle.{npr_base.specs.Family.{shaped}, npr_tc_filters.specs.Ematch.{family}};

use crate::ematch_header::{TCF_EMATCH_HDR_SIZE, TcEmatchHeader};
use npr_base::{
    At, Attribute, AttributeSet, DecodeError, EmitError, Form, Looks, Nla, NlaBuffer, Place,
    read_bytes, write_array, write_bytes,
};
use std::alloc::{AllocError, Global};

/// A test in the list of a filter's tests: an attribute whose number is its place among the others.
///
/// Layout of the value (`linux/pkt_cls.h`): `struct tcf_ematch_hdr`, 8 bytes, and behind it what the
/// kind of test has, to the end. Kernels and tools number the tests from 1; here no order is asked.
#[derive(Debug, Drop, PartialEq, Eq)]
pub struct TcEmatch {
    /// Its place, a number of 14 bits.
    pub tab: u16,
    /// What is said of each test.
    pub header: TcEmatchHeader,
    /// What this kind of test has, as it stands.
    pub data: Vec<u8>,
}

impl TcEmatch {
    /// The first test of a list, with each number of its header 0, and without bytes behind it. It takes
    /// no memory.
    pub fn new(alloc: Global) -> Self
        ensures { family.meaning result ≡ record { number = 1; value = (record { matchid = 0; kind = 0; flags = 0 }, []) } }
    {
        TcEmatch {
            tab: 1,
            header: TcEmatchHeader::default(),
            data: Vec::new(alloc),
        }
    }
}

impl Nla for TcEmatch {
    ghost shape = { shaped family };

    fn kind(&self) -> u16 {
        self.tab
    }

    fn is_nested(&self) -> bool {
        false
    }

    fn check_value(&self) -> Result<usize, EmitError> {
        Ok(TCF_EMATCH_HDR_SIZE + self.data.len())
    }

    fn write_value(&self, out: &mut [u8]) -> usize {
        let at = write_array(self.header.to_bytes(), out);
        at + write_bytes(self.data.as_slice(), &mut out[at..])
    }
}

impl Attribute for TcEmatch {
    type Context = ();

    ghost family = { family };

    ghost shape_is = { λ a. refl };

    fn read_into<P: Place<Self>>(
        place: &mut P,
        alloc: Global,
        _context: (),
        item: &NlaBuffer<'_>,
        _looks: &mut Looks,
    ) -> Result<(), DecodeError> {
        let value = item.value();
        let header = TcEmatchHeader::parse(value)?;
        let data = read_bytes(alloc, &value[TCF_EMATCH_HDR_SIZE..])?;
        place.put(TcEmatch {
            tab: item.kind(),
            header,
            data,
        });
        Ok(())
    }

    fn form(_context: (), number: u16) -> (At, Form) {
        (
            AttributeSet::TcEmatches.at(number),
            Form::Leading(TCF_EMATCH_HDR_SIZE),
        )
    }

    fn try_clone(&self, alloc: Global) -> Result<Self, AllocError> {
        Ok(TcEmatch {
            data: Vec::from_slice(alloc, self.data.as_slice())?,
            ..*self
        })
    }
}
