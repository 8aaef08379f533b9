//! Messages on the entries of the kernel's tables, by what they do.

ghost use Rattle.std.specs.Prelude.{◌≡◌};
ghost use Rattle.{
  npr_base.specs.Message.{view},
  netlink_packet_route.specs.RouteNetlinkMessage.{Meaning, meaning_of, address, route, neighbour, rule, link, address_label, netconf, nsid, next_hop, queue_discipline, traffic_action},
  npr_address.specs.Message.{addresses},
  npr_link.specs.Message.{links},
  npr_neighbour.specs.Message.{neighbours},
  npr_nexthop.specs.Message.{next_hops},
  npr_route.specs.Message.{routes},
  npr_rule.specs.Message.{rules},
  npr_address.specs.{AddressLabelMessage.{address_labels}},
  npr_namespace.specs.{NetconfMessage.{netconfs}, NsidMessage.{nsids}},
  npr_tc.specs.{Message.{messages as tc_messages}, ActionMessage.{messages as action_messages}},
};

use crate::message::RouteNetlinkMessage;
use crate::message_type::Action;
use npr_address::{AddressLabelMessage, AddressMessage};
use npr_link::LinkMessage;
use npr_namespace::{NetconfMessage, NsidMessage};
use npr_neighbour::NeighbourMessage;
use npr_nexthop::NextHopMessage;
use npr_route::RouteMessage;
use npr_rule::RuleMessage;
use npr_tc::{TcActionMessage, TcMessage};

/// A message on an entry of the kernel's tables, which is made, taken away and asked for: a link, an
/// address, a route, a neighbour, a rule, a label of addresses, settings, a name space, a next hop, a
/// queueing discipline or actions. A message of traffic control is one on a queueing discipline; those on
/// classes, filters and chains are the same behind other types, which a variant of
/// [`RouteNetlinkMessage`] says, as `NewTrafficFilter`.
pub trait Entry: Drop {
    ghost use Rattle.netlink_packet_route.specs.declared.message_type.Action.{Action};

    /// What the message of rtnetlink is that does this with it.
    ghost as_meaning: { Action → Self → Meaning };

    /// The message of rtnetlink that does this with the entry.
    fn under(self, action: Action) -> RouteNetlinkMessage
        ensures { meaning_of result ≡ as_meaning action self };
}

impl Entry for AddressMessage {
    ghost as_meaning = { λ a m. address a (view addresses m) };

    fn under(self, action: Action) -> RouteNetlinkMessage {
        match action {
            Action::New => RouteNetlinkMessage::NewAddress(self),
            Action::Del => RouteNetlinkMessage::DelAddress(self),
            Action::Get => RouteNetlinkMessage::GetAddress(self),
        }
    }
}

impl Entry for RouteMessage {
    ghost as_meaning = { λ a m. route a (view routes m) };

    fn under(self, action: Action) -> RouteNetlinkMessage {
        match action {
            Action::New => RouteNetlinkMessage::NewRoute(self),
            Action::Del => RouteNetlinkMessage::DelRoute(self),
            Action::Get => RouteNetlinkMessage::GetRoute(self),
        }
    }
}

impl Entry for NeighbourMessage {
    ghost as_meaning = { λ a m. neighbour a (view neighbours m) };

    fn under(self, action: Action) -> RouteNetlinkMessage {
        match action {
            Action::New => RouteNetlinkMessage::NewNeighbour(self),
            Action::Del => RouteNetlinkMessage::DelNeighbour(self),
            Action::Get => RouteNetlinkMessage::GetNeighbour(self),
        }
    }
}

impl Entry for RuleMessage {
    ghost as_meaning = { λ a m. rule a (view rules m) };

    fn under(self, action: Action) -> RouteNetlinkMessage {
        match action {
            Action::New => RouteNetlinkMessage::NewRule(self),
            Action::Del => RouteNetlinkMessage::DelRule(self),
            Action::Get => RouteNetlinkMessage::GetRule(self),
        }
    }
}

impl Entry for LinkMessage {
    ghost as_meaning = { λ a m. link a (view links m) };

    fn under(self, action: Action) -> RouteNetlinkMessage {
        match action {
            Action::New => RouteNetlinkMessage::NewLink(self),
            Action::Del => RouteNetlinkMessage::DelLink(self),
            Action::Get => RouteNetlinkMessage::GetLink(self),
        }
    }
}

impl Entry for AddressLabelMessage {
    ghost as_meaning = { λ a m. address_label a (view address_labels m) };

    fn under(self, action: Action) -> RouteNetlinkMessage {
        match action {
            Action::New => RouteNetlinkMessage::NewAddressLabel(self),
            Action::Del => RouteNetlinkMessage::DelAddressLabel(self),
            Action::Get => RouteNetlinkMessage::GetAddressLabel(self),
        }
    }
}

impl Entry for NetconfMessage {
    ghost as_meaning = { λ a m. netconf a (view netconfs m) };

    fn under(self, action: Action) -> RouteNetlinkMessage {
        match action {
            Action::New => RouteNetlinkMessage::NewNetconf(self),
            Action::Del => RouteNetlinkMessage::DelNetconf(self),
            Action::Get => RouteNetlinkMessage::GetNetconf(self),
        }
    }
}

impl Entry for NsidMessage {
    ghost as_meaning = { λ a m. nsid a (view nsids m) };

    fn under(self, action: Action) -> RouteNetlinkMessage {
        match action {
            Action::New => RouteNetlinkMessage::NewNsId(self),
            Action::Del => RouteNetlinkMessage::DelNsId(self),
            Action::Get => RouteNetlinkMessage::GetNsId(self),
        }
    }
}

impl Entry for NextHopMessage {
    ghost as_meaning = { λ a m. next_hop a (view next_hops m) };

    fn under(self, action: Action) -> RouteNetlinkMessage {
        match action {
            Action::New => RouteNetlinkMessage::NewNextHop(self),
            Action::Del => RouteNetlinkMessage::DelNextHop(self),
            Action::Get => RouteNetlinkMessage::GetNextHop(self),
        }
    }
}

impl Entry for TcMessage {
    ghost as_meaning = { λ a m. queue_discipline a (view tc_messages m) };

    fn under(self, action: Action) -> RouteNetlinkMessage {
        match action {
            Action::New => RouteNetlinkMessage::NewQueueDiscipline(self),
            Action::Del => RouteNetlinkMessage::DelQueueDiscipline(self),
            Action::Get => RouteNetlinkMessage::GetQueueDiscipline(self),
        }
    }
}

impl Entry for TcActionMessage {
    ghost as_meaning = { λ a m. traffic_action a (view action_messages m) };

    fn under(self, action: Action) -> RouteNetlinkMessage {
        match action {
            Action::New => RouteNetlinkMessage::NewTrafficAction(self),
            Action::Del => RouteNetlinkMessage::DelTrafficAction(self),
            Action::Get => RouteNetlinkMessage::GetTrafficAction(self),
        }
    }
}
