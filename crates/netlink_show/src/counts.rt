//! How many messages there were.

use crate::message::Shown;
use netlink_packet_core::{NLMSG_DONE, NLMSG_ERROR, NLMSG_NOOP, NLMSG_OVERRUN};
use netlink_packet_route::MessageKind;
use std::alloc::AllocError;

/// How many messages there were, of each kind. No count goes past the greatest number.
#[derive(Clone, Copy, Default)]
pub struct Counts {
    /// The bytes that were read.
    pub bytes: u64,
    /// Of addresses.
    pub addresses: u64,
    /// Of routes.
    pub routes: u64,
    /// Of rules.
    pub rules: u64,
    /// Of neighbours.
    pub neighbours: u64,
    /// Of links.
    pub links: u64,
    /// Of next hops, and of their buckets.
    pub next_hops: u64,
    /// Of the numbers of network namespaces.
    pub nsids: u64,
    /// Of settings of interfaces.
    pub netconfs: u64,
    /// Of labels of addresses.
    pub address_labels: u64,
    /// Of tables of neighbours.
    pub neighbour_tables: u64,
    /// Of prefixes that routers told.
    pub prefixes: u64,
    /// Of queueing disciplines, classes, filters and chains.
    pub traffic: u64,
    /// Of actions of traffic control.
    pub traffic_actions: u64,
    /// Of statistics.
    pub stats: u64,
    /// Of types that the library has no message for.
    pub others: u64,
    /// Ends, errors and the like.
    pub controls: u64,
    /// Not read.
    pub refused: u64,
}

impl Counts {
    /// Counts a message that can be shown. Bytes and refusals are for the caller to count.
    pub fn add(&mut self, message: Shown<'_>) {
        match (message.kind, message.message_type) {
            (None, NLMSG_NOOP | NLMSG_ERROR | NLMSG_DONE | NLMSG_OVERRUN) => {
                self.controls = self.controls.saturating_add(1)
            }
            (kind, _) => self.add_kind(kind),
        }
    }

    /// Counts a message of rtnetlink of this kind, or of none that the library reads.
    fn add_kind(&mut self, kind: Option<MessageKind>) {
        let count = match kind {
            Some(MessageKind::Address) => &mut self.addresses,
            Some(MessageKind::Route) => &mut self.routes,
            Some(MessageKind::Rule) => &mut self.rules,
            Some(MessageKind::Neighbour) => &mut self.neighbours,
            Some(MessageKind::Link) => &mut self.links,
            Some(MessageKind::NextHop) => &mut self.next_hops,
            Some(MessageKind::Nsid) => &mut self.nsids,
            Some(MessageKind::Netconf) => &mut self.netconfs,
            Some(MessageKind::AddressLabel) => &mut self.address_labels,
            Some(MessageKind::NeighbourTable) => &mut self.neighbour_tables,
            Some(MessageKind::Prefix) => &mut self.prefixes,
            Some(MessageKind::Tc) => &mut self.traffic,
            Some(MessageKind::TcAction) => &mut self.traffic_actions,
            Some(MessageKind::Stats) => &mut self.stats,
            None => &mut self.others,
        };
        *count = count.saturating_add(1);
    }

    /// Appends a line for each count.
    ///
    /// # Errors
    /// `AllocError` where memory is refused; some of the text may stand then.
    pub fn write(&self, out: &mut String) -> Result<(), AllocError> {
        for (name, count) in [
            ("bytes", self.bytes),
            ("addresses", self.addresses),
            ("routes", self.routes),
            ("rules", self.rules),
            ("neighbours", self.neighbours),
            ("links", self.links),
            ("nexthops", self.next_hops),
            ("nsids", self.nsids),
            ("netconfs", self.netconfs),
            ("address-labels", self.address_labels),
            ("neighbour-tables", self.neighbour_tables),
            ("prefixes", self.prefixes),
            ("tc", self.traffic),
            ("tc-actions", self.traffic_actions),
            ("stats", self.stats),
            ("others", self.others),
            ("controls", self.controls),
            ("refused", self.refused),
        ] {
            writeln!(out, "{name} {count}")?;
        }
        Ok(())
    }
}
