//! Tins of `cake`, as they stand in lists: `TCA_CAKE_STATS_TIN_STATS` of `linux/pkt_sched.h`.

ghost use Rattle.std.specs.Prelude.{◌≡◌, [], refl};
ghost use Rattle.{npr_base.specs.Family.{shaped}, npr_tc_values.specs.CakeTin.{family}};

use crate::cake_tin_stat::TcCakeTinStat;
use npr_base::{
    At, Attribute, AttributeSet, DecodeError, EmitError, Form, Looks, Nla, NlaBuffer, Place,
    check_list, clone_list, parse_list, write_list,
};
use std::alloc::{AllocError, Global};

/// A tin in a list of tins: an attribute whose number is its place among the others.
///
/// Kernels number them from 1; here no order is asked.
#[derive(Debug, Drop, PartialEq, Eq)]
pub struct TcCakeTin {
    /// Its place, a number of 14 bits.
    pub tab: u16,
    /// Its counters.
    pub stats: Vec<TcCakeTinStat>,
}

impl TcCakeTin {
    /// The first tin of a list, without counters. It takes no memory.
    pub fn new(alloc: Global) -> Self
        ensures { family.meaning result ≡ record { number = 1; value = [] } }
    {
        TcCakeTin {
            tab: 1,
            stats: Vec::new(alloc),
        }
    }
}

impl Nla for TcCakeTin {
    ghost shape = { shaped family };

    fn kind(&self) -> u16 {
        self.tab
    }

    fn is_nested(&self) -> bool {
        false
    }

    fn check_value(&self) -> Result<usize, EmitError> {
        check_list(self.stats.as_slice())
    }

    fn write_value(&self, out: &mut [u8]) -> usize {
        write_list(self.stats.as_slice(), out)
    }
}

impl Attribute for TcCakeTin {
    type Context = ();

    ghost family = { family };

    ghost shape_is = { λ a. refl };

    fn read_into<P: Place<Self>>(
        place: &mut P,
        alloc: Global,
        _context: (),
        item: &NlaBuffer<'_>,
        looks: &mut Looks,
    ) -> Result<(), DecodeError> {
        let stats = parse_list(alloc, (), item.value(), looks)?;
        place.put(TcCakeTin {
            tab: item.kind(),
            stats,
        });
        Ok(())
    }

    fn form(_context: (), number: u16) -> (At, Form) {
        (
            AttributeSet::TcCakeTins.at(number),
            Form::List(AttributeSet::TcCakeTinStat, 0),
        )
    }

    fn try_clone(&self, alloc: Global) -> Result<Self, AllocError> {
        Ok(TcCakeTin {
            tab: self.tab,
            stats: clone_list(alloc, self.stats.as_slice())?,
        })
    }
}
