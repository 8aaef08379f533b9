//! Of which type a message is.

ghost use Rattle.std.specs.Prelude.{◌≡◌};
ghost use Rattle.netlink_packet_route.specs.{
  RouteNetlinkMessage.{has_number, is_of, meaning_of},
  declared.message_type.{
    Action.TheVariants.{New, Del, Get},
    MessageType.TheVariants.{Of, SetLink, NewNeighbourTable, GetNeighbourTable, SetNeighbourTable},
    Subject.TheVariants.{Link, Address, Route, Neighbour, Rule, Nsid, QueueDiscipline, TrafficClass, TrafficFilter, TrafficChain, TrafficAction},
  },
};

use crate::message::RouteNetlinkMessage;
use crate::message_type::types;

/// Whether a message that is read has this number.
macro_rules! has_number {
    (($of_message:expr, $wanted:expr) $($number:tt $variant:ident $says:expr;)*) => {
        match $of_message {
            $(RouteNetlinkMessage::$variant(_) => $number == $wanted,)*
            RouteNetlinkMessage::Other(_) => false,
        }
    };
}

impl RouteNetlinkMessage {
    /// Whether it is a message that is read, of the type with this number.
    fn has_number(&self, number: u16) -> bool
        ensures { result ≡ has_number number (meaning_of self.now) }
    {
        types!(has_number(self, number))
    }

    /// Whether it is `RTM_NEWLINK`.
    pub fn is_new_link(&self) -> bool
        ensures { result ≡ is_of (Of Link New) (meaning_of self.now) }
    {
        self.has_number(16)
    }

    /// Whether it is `RTM_DELLINK`.
    pub fn is_del_link(&self) -> bool
        ensures { result ≡ is_of (Of Link Del) (meaning_of self.now) }
    {
        self.has_number(17)
    }

    /// Whether it is `RTM_GETLINK`.
    pub fn is_get_link(&self) -> bool
        ensures { result ≡ is_of (Of Link Get) (meaning_of self.now) }
    {
        self.has_number(18)
    }

    /// Whether it is `RTM_SETLINK`.
    pub fn is_set_link(&self) -> bool
        ensures { result ≡ is_of SetLink (meaning_of self.now) }
    {
        self.has_number(19)
    }

    /// Whether it is `RTM_NEWADDR`.
    pub fn is_new_address(&self) -> bool
        ensures { result ≡ is_of (Of Address New) (meaning_of self.now) }
    {
        self.has_number(20)
    }

    /// Whether it is `RTM_DELADDR`.
    pub fn is_del_address(&self) -> bool
        ensures { result ≡ is_of (Of Address Del) (meaning_of self.now) }
    {
        self.has_number(21)
    }

    /// Whether it is `RTM_GETADDR`.
    pub fn is_get_address(&self) -> bool
        ensures { result ≡ is_of (Of Address Get) (meaning_of self.now) }
    {
        self.has_number(22)
    }

    /// Whether it is `RTM_NEWROUTE`.
    pub fn is_new_route(&self) -> bool
        ensures { result ≡ is_of (Of Route New) (meaning_of self.now) }
    {
        self.has_number(24)
    }

    /// Whether it is `RTM_DELROUTE`.
    pub fn is_del_route(&self) -> bool
        ensures { result ≡ is_of (Of Route Del) (meaning_of self.now) }
    {
        self.has_number(25)
    }

    /// Whether it is `RTM_GETROUTE`.
    pub fn is_get_route(&self) -> bool
        ensures { result ≡ is_of (Of Route Get) (meaning_of self.now) }
    {
        self.has_number(26)
    }

    /// Whether it is `RTM_NEWNEIGH`.
    pub fn is_new_neighbour(&self) -> bool
        ensures { result ≡ is_of (Of Neighbour New) (meaning_of self.now) }
    {
        self.has_number(28)
    }

    /// Whether it is `RTM_DELNEIGH`.
    pub fn is_del_neighbour(&self) -> bool
        ensures { result ≡ is_of (Of Neighbour Del) (meaning_of self.now) }
    {
        self.has_number(29)
    }

    /// Whether it is `RTM_GETNEIGH`.
    pub fn is_get_neighbour(&self) -> bool
        ensures { result ≡ is_of (Of Neighbour Get) (meaning_of self.now) }
    {
        self.has_number(30)
    }

    /// Whether it is `RTM_NEWRULE`.
    pub fn is_new_rule(&self) -> bool
        ensures { result ≡ is_of (Of Rule New) (meaning_of self.now) }
    {
        self.has_number(32)
    }

    /// Whether it is `RTM_DELRULE`.
    pub fn is_del_rule(&self) -> bool
        ensures { result ≡ is_of (Of Rule Del) (meaning_of self.now) }
    {
        self.has_number(33)
    }

    /// Whether it is `RTM_GETRULE`.
    pub fn is_get_rule(&self) -> bool
        ensures { result ≡ is_of (Of Rule Get) (meaning_of self.now) }
    {
        self.has_number(34)
    }

    /// Whether it is `RTM_NEWNSID`.
    pub fn is_new_nsid(&self) -> bool
        ensures { result ≡ is_of (Of Nsid New) (meaning_of self.now) }
    {
        self.has_number(88)
    }

    /// Whether it is `RTM_DELNSID`.
    pub fn is_del_nsid(&self) -> bool
        ensures { result ≡ is_of (Of Nsid Del) (meaning_of self.now) }
    {
        self.has_number(89)
    }

    /// Whether it is `RTM_GETNSID`.
    pub fn is_get_nsid(&self) -> bool
        ensures { result ≡ is_of (Of Nsid Get) (meaning_of self.now) }
    {
        self.has_number(90)
    }

    /// Whether it is `RTM_NEWNEIGHTBL`.
    pub fn is_new_neighbour_table(&self) -> bool
        ensures { result ≡ is_of NewNeighbourTable (meaning_of self.now) }
    {
        self.has_number(64)
    }

    /// Whether it is `RTM_GETNEIGHTBL`.
    pub fn is_get_neighbour_table(&self) -> bool
        ensures { result ≡ is_of GetNeighbourTable (meaning_of self.now) }
    {
        self.has_number(66)
    }

    /// Whether it is `RTM_SETNEIGHTBL`.
    pub fn is_set_neighbour_table(&self) -> bool
        ensures { result ≡ is_of SetNeighbourTable (meaning_of self.now) }
    {
        self.has_number(67)
    }

    /// Whether it is `RTM_NEWQDISC`.
    pub fn is_new_queue_discipline(&self) -> bool
        ensures { result ≡ is_of (Of QueueDiscipline New) (meaning_of self.now) }
    {
        self.has_number(36)
    }

    /// Whether it is `RTM_DELQDISC`.
    pub fn is_del_queue_discipline(&self) -> bool
        ensures { result ≡ is_of (Of QueueDiscipline Del) (meaning_of self.now) }
    {
        self.has_number(37)
    }

    /// Whether it is `RTM_GETQDISC`.
    pub fn is_get_queue_discipline(&self) -> bool
        ensures { result ≡ is_of (Of QueueDiscipline Get) (meaning_of self.now) }
    {
        self.has_number(38)
    }

    /// Whether it is `RTM_NEWTCLASS`.
    pub fn is_new_traffic_class(&self) -> bool
        ensures { result ≡ is_of (Of TrafficClass New) (meaning_of self.now) }
    {
        self.has_number(40)
    }

    /// Whether it is `RTM_DELTCLASS`.
    pub fn is_del_traffic_class(&self) -> bool
        ensures { result ≡ is_of (Of TrafficClass Del) (meaning_of self.now) }
    {
        self.has_number(41)
    }

    /// Whether it is `RTM_GETTCLASS`.
    pub fn is_get_traffic_class(&self) -> bool
        ensures { result ≡ is_of (Of TrafficClass Get) (meaning_of self.now) }
    {
        self.has_number(42)
    }

    /// Whether it is `RTM_NEWTFILTER`.
    pub fn is_new_traffic_filter(&self) -> bool
        ensures { result ≡ is_of (Of TrafficFilter New) (meaning_of self.now) }
    {
        self.has_number(44)
    }

    /// Whether it is `RTM_DELTFILTER`.
    pub fn is_del_traffic_filter(&self) -> bool
        ensures { result ≡ is_of (Of TrafficFilter Del) (meaning_of self.now) }
    {
        self.has_number(45)
    }

    /// Whether it is `RTM_GETTFILTER`.
    pub fn is_get_traffic_filter(&self) -> bool
        ensures { result ≡ is_of (Of TrafficFilter Get) (meaning_of self.now) }
    {
        self.has_number(46)
    }

    /// Whether it is `RTM_NEWCHAIN`.
    pub fn is_new_traffic_chain(&self) -> bool
        ensures { result ≡ is_of (Of TrafficChain New) (meaning_of self.now) }
    {
        self.has_number(100)
    }

    /// Whether it is `RTM_DELCHAIN`.
    pub fn is_del_traffic_chain(&self) -> bool
        ensures { result ≡ is_of (Of TrafficChain Del) (meaning_of self.now) }
    {
        self.has_number(101)
    }

    /// Whether it is `RTM_GETCHAIN`.
    pub fn is_get_traffic_chain(&self) -> bool
        ensures { result ≡ is_of (Of TrafficChain Get) (meaning_of self.now) }
    {
        self.has_number(102)
    }

    /// Whether it is `RTM_NEWACTION`.
    pub fn is_new_traffic_action(&self) -> bool
        ensures { result ≡ is_of (Of TrafficAction New) (meaning_of self.now) }
    {
        self.has_number(48)
    }

    /// Whether it is `RTM_DELACTION`.
    pub fn is_del_traffic_action(&self) -> bool
        ensures { result ≡ is_of (Of TrafficAction Del) (meaning_of self.now) }
    {
        self.has_number(49)
    }

    /// Whether it is `RTM_GETACTION`.
    pub fn is_get_traffic_action(&self) -> bool
        ensures { result ≡ is_of (Of TrafficAction Get) (meaning_of self.now) }
    {
        self.has_number(50)
    }
}
