//! Attributes of link messages that are made at random: data under a kind, what address families say, and
//! other lists.

use crate::lengths::{
    BOND_PORT, BRIDGE, BRIDGE_PORT, INET, INET6, INFO, KINDS, LINK, PRIORITIES, QUERIER, REASONS,
    TARGETS, TARGETS6, VLAN, VRF, XDP,
};
use crate::making::{Maker, NESTED, pad};
use std::alloc::AllocError;

impl Maker {
    /// The list of a link: with data, or another list, or with none of them.
    pub(crate) fn link(&mut self) -> Result<(), AllocError> {
        match self.random.below(10) {
            0 => self.vlan()?,
            1 => self.bridge()?,
            2 => self.peer()?,
            3 => self.port()?,
            4 => self.families()?,
            5 => self.short_list()?,
            6 | 7 => self.kind()?,
            8 => self.targets()?,
            _ => {}
        }
        self.leaves(&LINK)
    }

    /// Data of a vlan with a list of priorities.
    fn vlan(&mut self) -> Result<(), AllocError> {
        self.leaves(&PRIORITIES)?;
        let kind = self.random.one_of(&[3, 3], 4);
        self.wrap(kind, &[])?;
        self.leaves(&VLAN)?;
        self.under(2, 1, "vlan")
    }

    /// Data of a bridge with its querier.
    fn bridge(&mut self) -> Result<(), AllocError> {
        self.leaves(&QUERIER)?;
        self.wrap(47 | NESTED, &[])?;
        self.leaves(&BRIDGE)?;
        self.under(2, 1, "bridge")
    }

    /// Data of a link with its peer, perhaps cut off.
    fn peer(&mut self) -> Result<(), AllocError> {
        self.leaves(&LINK)?;
        let header = [0u8; 16];
        let count = self.random.one_of(&[16, 16, 16], 12usize);
        self.wrap(1, &header[..count.min(16)])?;
        self.under(2, 1, "veth")
    }

    /// Data of a kind of link.
    fn kind(&mut self) -> Result<(), AllocError> {
        let (name, lengths) = self.random.one_of(&KINDS, ("bond", BOND_PORT));
        self.leaves(lengths)?;
        self.under(2, 1, name)
    }

    /// Data of a bond with addresses, or of a port of one.
    fn targets(&mut self) -> Result<(), AllocError> {
        match self.random.below(3) {
            0 => {
                self.leaves(TARGETS)?;
                self.wrap(8, &[])?;
            }
            1 => {
                self.leaves(TARGETS6)?;
                self.wrap(31 | NESTED, &[])?;
            }
            _ => {
                self.leaves(BOND_PORT)?;
                return self.under(5, 4, "bond");
            }
        }
        self.under(2, 1, "bond")
    }

    /// Data of a port, or of a vrf, under this kind or another one.
    fn port(&mut self) -> Result<(), AllocError> {
        let is_bridge = self.random.once_in(2);
        if is_bridge {
            self.leaves(&BRIDGE_PORT)?;
        } else {
            self.leaves(&VRF)?;
        }
        let name = if is_bridge { "bridge" } else { "vrf" };
        let (data, told) = self.random.one_of(&[(5, 4), (5, 4), (2, 1)], (5, 1));
        self.under(data, told, name)
    }

    /// What was made becomes data under the kind of this name, which stands before or behind them, or is
    /// another one.
    fn under(&mut self, data: u16, told: u16, name: &str) -> Result<(), AllocError> {
        self.wrap(data, &[])?;
        let name = self.random.one_of(&[name, name, name], "bond");
        self.text(told, name)?;
        self.leaves(&INFO)?;
        self.wrap(18, &[])
    }

    /// A name, mostly with its zero.
    pub(crate) fn text(&mut self, kind: u16, name: &str) -> Result<(), AllocError> {
        let zeros = usize::from(!self.random.once_in(4));
        self.front(kind, name.len().saturating_add(zeros))?;
        self.list.extend_from_slice(name.as_bytes())?;
        for _ in 0..zeros {
            self.list.push(0)?;
        }
        pad(&mut self.list)
    }

    /// What a version of IP says of the link.
    fn families(&mut self) -> Result<(), AllocError> {
        let is_inet = self.random.once_in(2);
        if is_inet {
            self.leaves(&INET)?;
        } else {
            self.leaves(&INET6)?;
        }
        self.wrap(if is_inet { 2 } else { 10 }, &[])?;
        self.wrap(26, &[])
    }

    /// Programs at the link, reasons why it is down, or its other names.
    fn short_list(&mut self) -> Result<(), AllocError> {
        match self.random.below(3) {
            0 => {
                self.leaves(&XDP)?;
                self.wrap(43, &[])
            }
            1 => {
                self.leaves(&REASONS)?;
                self.wrap(55 | NESTED, &[])
            }
            _ => {
                self.text(53, "another name")?;
                self.wrap(52 | NESTED, &[])
            }
        }
    }
}
