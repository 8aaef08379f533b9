//! Next hops, tables of neighbours and statistics, with lists inside.

use crate::lengths::{
    BOND_COUNTERS, BRIDGE_COUNTERS, BUCKET, COUNTERS, HARDWARE_COUNTERS, HARDWARE_STATE, MEMBERS,
    MPLS_COUNTERS, NEXT_HOP, PARAMETER, RESILIENT, STATISTICS, TABLE,
};
use crate::making::{Maker, NESTED};
use std::alloc::AllocError;

impl Maker {
    /// The list of a next hop: with an encapsulation, a resilient group, a bucket of one, statistics, or
    /// with none of them.
    pub(crate) fn next_hop_object(&mut self) -> Result<(), AllocError> {
        match self.random.below(5) {
            0 => self.next_hop_encapsulation()?,
            1 => {
                self.leaves(&RESILIENT)?;
                self.wrap(12 | NESTED, &[])?;
            }
            2 => {
                self.leaves(&BUCKET)?;
                self.wrap(13 | NESTED, &[])?;
            }
            3 => {
                self.leaves(&STATISTICS)?;
                self.wrap(1 | NESTED, &[])?;
                self.wrap(15 | NESTED, &[])?;
            }
            _ => {}
        }
        self.leaves(&NEXT_HOP)
    }

    /// Members of a type, or of one that they don't belong to, with the type behind or in front.
    fn next_hop_encapsulation(&mut self) -> Result<(), AllocError> {
        self.leaves(&MEMBERS)?;
        self.wrap(8 | NESTED, &[])?;
        let number = self.random.below(12);
        self.front(7, 2)?;
        self.list
            .extend_from_slice(&[u8::try_from(number).unwrap_or(0), 0, 0, 0])
    }

    /// The list of a table of neighbours, mostly with parameters.
    pub(crate) fn neighbour_table(&mut self) -> Result<(), AllocError> {
        if self.random.below(4) != 0 {
            self.leaves(&PARAMETER)?;
            self.wrap(6, &[])?;
        }
        self.leaves(&TABLE)
    }
    /// The list of statistics, mostly with those of a bridge, of a bond, of hardware or of MPLS.
    pub(crate) fn statistics(&mut self) -> Result<(), AllocError> {
        match self.random.below(5) {
            0 => {
                self.leaves(&BRIDGE_COUNTERS)?;
                self.wrap(1, &[])?;
                self.wrap(2, &[])?;
            }
            1 => {
                self.leaves(&BOND_COUNTERS)?;
                self.wrap(1, &[])?;
                self.wrap(2, &[])?;
                self.wrap(3, &[])?;
            }
            2 => {
                self.leaves(&HARDWARE_STATE)?;
                self.wrap(NESTED | 3, &[])?;
                self.wrap(NESTED | 2, &[])?;
                self.leaves(&HARDWARE_COUNTERS)?;
                self.wrap(4, &[])?;
            }
            3 => {
                self.leaves(&MPLS_COUNTERS)?;
                self.wrap(28, &[])?;
                self.wrap(5, &[])?;
            }
            _ => {}
        }
        self.leaves(&COUNTERS)
    }
}
