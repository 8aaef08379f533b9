//! The types of rtnetlink: `RTM_*` of `linux/rtnetlink.h`.

ghost use Rattle.std.specs.Prelude.{◌≡◌};
ghost use Rattle.netlink_packet_route.specs.{
  MessageKind.{kind_of, kind_of_type},
  MessageTypes.{type_of},
};

use crate::kind::MessageKind;

/// What a message does.
#[derive(Clone, Copy, Debug, PartialEq, Eq)]
pub enum Action {
    /// It says that something is there, or asks to make it.
    New,
    /// It says that something is gone, or asks to take it away.
    Del,
    /// It asks for something.
    Get,
}

/// What messages that do each of these are on. A subject has three types, one behind the other.
#[derive(Clone, Copy, Debug, PartialEq, Eq)]
pub enum Subject {
    /// A link.
    Link,
    /// An address.
    Address,
    /// A route.
    Route,
    /// A neighbour.
    Neighbour,
    /// A rule.
    Rule,
    /// A label of addresses.
    AddressLabel,
    /// The settings of an interface.
    Netconf,
    /// The number of a network name space.
    Nsid,
    /// A next hop.
    NextHop,
    /// Other properties of a link, as its other names.
    LinkProp,
    /// A bucket of a group of next hops.
    NextHopBucket,
    /// A queueing discipline.
    QueueDiscipline,
    /// A class of traffic.
    TrafficClass,
    /// A filter of traffic.
    TrafficFilter,
    /// A chain of filters.
    TrafficChain,
    /// Actions of traffic control.
    TrafficAction,
}

/// What a type says.
#[derive(Clone, Copy, Debug, PartialEq, Eq)]
pub enum MessageType {
    /// A message on this, which does this.
    Of(Subject, Action),
    /// A link message which asks to change a link that is there.
    SetLink,
    /// A prefix that a router told.
    NewPrefix,
    /// Statistics of a link.
    NewStats,
    /// A table of neighbours.
    NewNeighbourTable,
    /// It asks for tables of neighbours.
    GetNeighbourTable,
    /// It asks to change a table of neighbours.
    SetNeighbourTable,
    /// Any other.
    Unknown,
}

/// The types: of each its number, the variant of its messages, and what it says.
macro_rules! types {
    ($body:ident ($($given:tt)*)) => {
        $body!(($($given)*)
            16 NewLink MessageType::Of(Subject::Link, Action::New);
            17 DelLink MessageType::Of(Subject::Link, Action::Del);
            18 GetLink MessageType::Of(Subject::Link, Action::Get);
            19 SetLink MessageType::SetLink;
            20 NewAddress MessageType::Of(Subject::Address, Action::New);
            21 DelAddress MessageType::Of(Subject::Address, Action::Del);
            22 GetAddress MessageType::Of(Subject::Address, Action::Get);
            24 NewRoute MessageType::Of(Subject::Route, Action::New);
            25 DelRoute MessageType::Of(Subject::Route, Action::Del);
            26 GetRoute MessageType::Of(Subject::Route, Action::Get);
            28 NewNeighbour MessageType::Of(Subject::Neighbour, Action::New);
            29 DelNeighbour MessageType::Of(Subject::Neighbour, Action::Del);
            30 GetNeighbour MessageType::Of(Subject::Neighbour, Action::Get);
            32 NewRule MessageType::Of(Subject::Rule, Action::New);
            33 DelRule MessageType::Of(Subject::Rule, Action::Del);
            34 GetRule MessageType::Of(Subject::Rule, Action::Get);
            36 NewQueueDiscipline MessageType::Of(Subject::QueueDiscipline, Action::New);
            37 DelQueueDiscipline MessageType::Of(Subject::QueueDiscipline, Action::Del);
            38 GetQueueDiscipline MessageType::Of(Subject::QueueDiscipline, Action::Get);
            40 NewTrafficClass MessageType::Of(Subject::TrafficClass, Action::New);
            41 DelTrafficClass MessageType::Of(Subject::TrafficClass, Action::Del);
            42 GetTrafficClass MessageType::Of(Subject::TrafficClass, Action::Get);
            44 NewTrafficFilter MessageType::Of(Subject::TrafficFilter, Action::New);
            45 DelTrafficFilter MessageType::Of(Subject::TrafficFilter, Action::Del);
            46 GetTrafficFilter MessageType::Of(Subject::TrafficFilter, Action::Get);
            48 NewTrafficAction MessageType::Of(Subject::TrafficAction, Action::New);
            49 DelTrafficAction MessageType::Of(Subject::TrafficAction, Action::Del);
            50 GetTrafficAction MessageType::Of(Subject::TrafficAction, Action::Get);
            52 NewPrefix MessageType::NewPrefix;
            64 NewNeighbourTable MessageType::NewNeighbourTable;
            66 GetNeighbourTable MessageType::GetNeighbourTable;
            67 SetNeighbourTable MessageType::SetNeighbourTable;
            72 NewAddressLabel MessageType::Of(Subject::AddressLabel, Action::New);
            73 DelAddressLabel MessageType::Of(Subject::AddressLabel, Action::Del);
            74 GetAddressLabel MessageType::Of(Subject::AddressLabel, Action::Get);
            80 NewNetconf MessageType::Of(Subject::Netconf, Action::New);
            81 DelNetconf MessageType::Of(Subject::Netconf, Action::Del);
            82 GetNetconf MessageType::Of(Subject::Netconf, Action::Get);
            88 NewNsId MessageType::Of(Subject::Nsid, Action::New);
            89 DelNsId MessageType::Of(Subject::Nsid, Action::Del);
            90 GetNsId MessageType::Of(Subject::Nsid, Action::Get);
            92 NewStats MessageType::NewStats;
            100 NewTrafficChain MessageType::Of(Subject::TrafficChain, Action::New);
            101 DelTrafficChain MessageType::Of(Subject::TrafficChain, Action::Del);
            102 GetTrafficChain MessageType::Of(Subject::TrafficChain, Action::Get);
            104 NewNextHop MessageType::Of(Subject::NextHop, Action::New);
            105 DelNextHop MessageType::Of(Subject::NextHop, Action::Del);
            106 GetNextHop MessageType::Of(Subject::NextHop, Action::Get);
            108 NewLinkProp MessageType::Of(Subject::LinkProp, Action::New);
            109 DelLinkProp MessageType::Of(Subject::LinkProp, Action::Del);
            110 GetLinkProp MessageType::Of(Subject::LinkProp, Action::Get);
            116 NewNextHopBucket MessageType::Of(Subject::NextHopBucket, Action::New);
            117 DelNextHopBucket MessageType::Of(Subject::NextHopBucket, Action::Del);
            118 GetNextHopBucket MessageType::Of(Subject::NextHopBucket, Action::Get);
        )
    };
}

pub(crate) use types;

/// What a number says.
macro_rules! type_of {
    (($of:expr) $($number:tt $variant:ident $says:expr;)*) => {
        match $of {
            $($number => $says,)*
            _ => MessageType::Unknown,
        }
    };
}

impl Subject {
    /// The kind of its messages.
    pub fn kind(self) -> MessageKind
        ensures { result ≡ kind_of self }
    {
        match self {
            Subject::Link | Subject::LinkProp => MessageKind::Link,
            Subject::Address => MessageKind::Address,
            Subject::Route => MessageKind::Route,
            Subject::Neighbour => MessageKind::Neighbour,
            Subject::Rule => MessageKind::Rule,
            Subject::AddressLabel => MessageKind::AddressLabel,
            Subject::Netconf => MessageKind::Netconf,
            Subject::Nsid => MessageKind::Nsid,
            Subject::NextHop | Subject::NextHopBucket => MessageKind::NextHop,
            Subject::QueueDiscipline
            | Subject::TrafficClass
            | Subject::TrafficFilter
            | Subject::TrafficChain => MessageKind::Tc,
            Subject::TrafficAction => MessageKind::TcAction,
        }
    }
}

impl MessageType {
    /// What this number says.
    pub fn of(number: u16) -> MessageType
        ensures { result ≡ type_of number }
    {
        types!(type_of(number))
    }

    /// The kind of its messages, if it is of one that is read.
    pub fn kind(self) -> Option<MessageKind>
        ensures { result ≡ kind_of_type self }
    {
        match self {
            MessageType::Of(subject, _) => Some(subject.kind()),
            MessageType::SetLink => Some(MessageKind::Link),
            MessageType::NewPrefix => Some(MessageKind::Prefix),
            MessageType::NewStats => Some(MessageKind::Stats),
            MessageType::NewNeighbourTable => Some(MessageKind::NeighbourTable),
            MessageType::GetNeighbourTable => Some(MessageKind::NeighbourTable),
            MessageType::SetNeighbourTable => Some(MessageKind::NeighbourTable),
            MessageType::Unknown => None,
        }
    }
}
