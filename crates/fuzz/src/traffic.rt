//! Messages of traffic control and of actions that are made at random: data under a kind, statistics, tables
//! of sizes, and actions inside filters.

use crate::lengths::{
    ACTION, ACTION_KINDS, ACTION_MESSAGE, ACTIONS, DISCIPLINES, FILTERS, FLOWER, LABEL_ENTRY,
    SIZES, STATS2, TRAFFIC,
};
use crate::making::{Maker, NESTED};
use std::alloc::AllocError;

impl Maker {
    /// The list of a message of traffic control: with data, statistics, a table of sizes, or with none of
    /// them.
    pub(crate) fn traffic(&mut self) -> Result<(), AllocError> {
        match self.random.below(8) {
            0 => {
                self.leaves(&STATS2)?;
                self.wrap(7, &[])?;
                self.text(1, "fq_codel")?;
            }
            1 => {
                self.leaves(&SIZES)?;
                self.wrap(8, &[])?;
            }
            2 => {
                self.labels()?;
                self.data("flower")?;
            }
            3 | 4 => {
                let (name, lengths) = self.random.one_of(&DISCIPLINES, ("fq_codel", ACTIONS));
                self.leaves(lengths)?;
                self.data(name)?;
            }
            5 | 6 => self.filter()?,
            _ => {}
        }
        self.leaves(&TRAFFIC)
    }

    /// Data of a filter with an action or without.
    fn filter(&mut self) -> Result<(), AllocError> {
        let (name, number, lengths) = self.random.one_of(&FILTERS, ("flower", 3, FLOWER));
        if self.random.once_in(2) {
            self.action()?;
            self.wrap(number, &[])?;
        }
        self.leaves(lengths)?;
        self.data(name)
    }

    /// The labels that a flower filter looks for.
    fn labels(&mut self) -> Result<(), AllocError> {
        self.leaves(&LABEL_ENTRY)?;
        self.wrap(1 | NESTED, &[])?;
        self.wrap(99 | NESTED, &[])?;
        self.leaves(FLOWER)
    }

    /// What was made becomes the data of this kind, or of another one, whose name stands behind them.
    fn data(&mut self, name: &str) -> Result<(), AllocError> {
        self.wrap(2, &[])?;
        let name = self.random.one_of(&[name, name, name], "u32");
        self.text(1, name)
    }

    /// A list with an action, perhaps with empty ones behind it.
    fn action(&mut self) -> Result<(), AllocError> {
        let (name, lengths) = self.random.one_of(&ACTION_KINDS, ("gact", ACTIONS));
        self.leaves(lengths)?;
        self.wrap(2 | NESTED, &[])?;
        self.text(1, name)?;
        if self.random.once_in(3) {
            self.leaves(&ACTION)?;
        }
        let number = self.random.one_of(&[1, 1, 0], 300);
        self.wrap(number, &[])?;
        if self.random.once_in(3) {
            self.leaves(ACTIONS)?;
        }
        Ok(())
    }

    /// The list of a message of actions.
    pub(crate) fn traffic_actions(&mut self) -> Result<(), AllocError> {
        if self.random.below(4) != 0 {
            self.action()?;
            self.wrap(1, &[])?;
        }
        self.leaves(&ACTION_MESSAGE)
    }
}
