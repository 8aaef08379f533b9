//! The attributes of a message of tables of neighbours: `NDTA_*` of `linux/neighbour.h`.

ghost use Rattle.std.specs.Prelude.{refl};
ghost use Rattle.{npr_base.specs.Family.{shaped}, npr_neighbour.specs.NeighbourTableAttribute.{family}};

use crate::neighbour_table_config::NeighbourTableConfig;
use crate::neighbour_table_parameter::NeighbourTableParameter;
use crate::neighbour_table_stats::NeighbourTableStats;
use npr_base::{
    At, Attribute, DecodeError, DefaultNla, EmitError, Form, Looks, Nla, NlaBuffer, Place,
};
use std::alloc::{AllocError, Global};

/// An attribute of a message of tables of neighbours.
#[derive(Debug, Drop, PartialEq, Eq)]
pub enum NeighbourTableAttribute {
    /// `NDTA_NAME`: the name of the table.
    Name(String),
    /// `NDTA_THRESH1`: with fewer neighbours it is not cleared.
    Threshold1(u32),
    /// `NDTA_THRESH2`: with more for five seconds it is cleared.
    Threshold2(u32),
    /// `NDTA_THRESH3`: it holds no more neighbours.
    Threshold3(u32),
    /// `NDTA_CONFIG`: how it is made.
    Config(NeighbourTableConfig),
    /// `NDTA_PARMS`: its parameters.
    Parms(Vec<NeighbourTableParameter>),
    /// `NDTA_STATS`: what it has counted.
    Stats(NeighbourTableStats),
    /// `NDTA_GC_INTERVAL`: how often it is looked through, in milliseconds.
    GcInterval(u64),
    /// An attribute of another number, as it stands.
    Other(DefaultNla),
}

/// The rows of the table.
macro_rules! rows {
    ($body:ident ($($given:tt)*)) => {
        npr_base::$body!(($($given)*) NeighbourTableAttribute of NeighbourTable {
            1 Name(name);
            2 Threshold1(le32);
            3 Threshold2(le32);
            4 Threshold3(le32);
            5 Config(NeighbourTableConfig leading 32);
            6 Parms(list NeighbourTableParameter);
            7 Stats(NeighbourTableStats leading 88);
            8 GcInterval(le64);
        })
    };
}

impl Nla for NeighbourTableAttribute {
    ghost shape = { shaped family };

    fn kind(&self) -> u16 {
        rows!(kind_rows(self))
    }

    fn is_nested(&self) -> bool {
        false
    }

    fn check_value(&self) -> Result<usize, EmitError> {
        Ok(rows!(len_rows(self)))
    }

    fn write_value(&self, out: &mut [u8]) -> usize {
        rows!(write_rows(self, out))
    }
}

impl Attribute for NeighbourTableAttribute {
    type Context = ();

    ghost family = { family };

    ghost shape_is = { λ a. refl };

    fn read_into<P: Place<Self>>(
        place: &mut P,
        alloc: Global,
        _context: (),
        item: &NlaBuffer<'_>,
        looks: &mut Looks,
    ) -> Result<(), DecodeError> {
        rows!(put_rows(place, alloc, item, looks))
    }

    fn form(_context: (), number: u16) -> (At, Form) {
        rows!(form_rows(number))
    }

    fn try_clone(&self, alloc: Global) -> Result<Self, AllocError> {
        rows!(clone_rows(self, alloc))
    }
}
