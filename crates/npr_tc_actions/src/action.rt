//! Actions, as they stand in lists: `linux/pkt_cls.h`.

ghost use Rattle.std.specs.Prelude.{◌≡◌, [], map, IfOk, refl};
ghost use Rattle.{npr_base.specs.Family.{shaped}, npr_tc_actions.specs.Action.{family}};

use crate::attribute::TcActionAttribute;
use npr_base::{
    At, Attribute, AttributeSet, DecodeError, EmitError, Form, Looks, Nla, NlaBuffer, Place,
    check_list, clone_list, parse_governed, write_list,
};
use std::alloc::{AllocError, Global};

/// An action in a list of actions: an attribute whose number is its place among the others.
///
/// Kernels and tools number the actions of a filter from 1, and those of a dump from 0; here no order
/// is asked.
#[derive(Debug, Drop, PartialEq, Eq)]
pub struct TcAction {
    /// Its place, a number of 14 bits.
    pub tab: u16,
    /// What is said of it.
    pub attributes: Vec<TcActionAttribute>,
}

impl TcAction {
    /// The first action of a list, of which nothing is said. It takes no memory.
    pub fn new(alloc: Global) -> Self
        ensures { family.meaning result ≡ record { number = 1; value = [] } }
    {
        TcAction {
            tab: 1,
            attributes: Vec::new(alloc),
        }
    }
}

impl Nla for TcAction {
    ghost shape = { shaped family };

    fn kind(&self) -> u16 {
        self.tab
    }

    fn is_nested(&self) -> bool {
        false
    }

    fn check_value(&self) -> Result<usize, EmitError> {
        check_list(self.attributes.as_slice())
    }

    fn write_value(&self, out: &mut [u8]) -> usize {
        write_list(self.attributes.as_slice(), out)
    }
}

impl Attribute for TcAction {
    type Context = ();

    ghost family = { family };

    ghost shape_is = { λ a. refl };

    fn read_into<P: Place<Self>>(
        place: &mut P,
        alloc: Global,
        _context: (),
        item: &NlaBuffer<'_>,
        looks: &mut Looks,
    ) -> Result<(), DecodeError> {
        let attributes = parse_governed(alloc, item.value(), looks)?;
        place.put(TcAction {
            tab: item.kind(),
            attributes,
        });
        Ok(())
    }

    fn form(_context: (), number: u16) -> (At, Form) {
        (
            AttributeSet::TcActions.at(number),
            Form::List(AttributeSet::TcAction, 0),
        )
    }

    fn try_clone(&self, alloc: Global) -> Result<Self, AllocError> {
        Ok(TcAction {
            tab: self.tab,
            attributes: clone_list(alloc, self.attributes.as_slice())?,
        })
    }
}
