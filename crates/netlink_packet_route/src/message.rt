//! Messages of rtnetlink by their types: `RTM_*` of `linux/rtnetlink.h`.

ghost use Rattle.std.specs.Prelude.{◌≡◌, ◌≢◌, ◌<◌, length, IfOk, IfErr, IsErrOf, OnErr, refl};
ghost use Rattle.{
  npr_base.specs.{Message.{MessageFault, view}, declared.refusal.DecodeError.TheVariants.{OutOfMemory}},
  netlink_packet_route.specs.{
    MessageKind.{kind_of, form_of},
    MessageTypes.{type_of},
    RouteNetlinkMessage.{Meaning, meaning_of, other_of, link_prop, next_hop_bucket, traffic_class, traffic_filter, traffic_chain, rtnetlink, encode, meaning_unfit, IsMessageOn, ReadsUnder, FaultUnder, HasFirst, GrowsUnder, CopyGrows},
  },
  npr_link.specs.Message.{links},
  npr_nexthop.specs.Message.{next_hops},
  npr_tc.specs.Message.{messages},
};

use crate::entry::Entry;
use crate::message_type::{Action, MessageType, Subject, types};
use netlink_packet_core::{NetlinkHeader, NetlinkInner};
use npr_address::{AddressLabelMessage, AddressMessage, PrefixMessage};
use npr_base::{DecodeError, EmitError, Emitable, Parseable, read_bytes, write_bytes};
use npr_link::LinkMessage;
use npr_namespace::{NetconfMessage, NsidMessage};
use npr_neighbour::{NeighbourMessage, NeighbourTableMessage};
use npr_nexthop::NextHopMessage;
use npr_route::RouteMessage;
use npr_rule::RuleMessage;
use npr_stats::StatsMessage;
use npr_tc::{TcActionMessage, TcMessage};
use std::alloc::{AllocError, Global};

/// A message of a type that the library does not read, as it stands.
#[derive(Debug, Drop, PartialEq, Eq)]
pub struct OtherMessage {
    /// The type.
    pub message_type: u16,
    /// What stands behind the header of the envelope.
    pub payload: Vec<u8>,
}

/// A message of rtnetlink, by its type.
#[derive(Debug, Drop, PartialEq, Eq)]
pub enum RouteNetlinkMessage {
    /// `RTM_NEWLINK`, 16.
    NewLink(LinkMessage),
    /// `RTM_DELLINK`, 17.
    DelLink(LinkMessage),
    /// `RTM_GETLINK`, 18.
    GetLink(LinkMessage),
    /// `RTM_SETLINK`, 19.
    SetLink(LinkMessage),
    /// `RTM_NEWADDR`, 20.
    NewAddress(AddressMessage),
    /// `RTM_DELADDR`, 21.
    DelAddress(AddressMessage),
    /// `RTM_GETADDR`, 22.
    GetAddress(AddressMessage),
    /// `RTM_NEWROUTE`, 24.
    NewRoute(RouteMessage),
    /// `RTM_DELROUTE`, 25.
    DelRoute(RouteMessage),
    /// `RTM_GETROUTE`, 26.
    GetRoute(RouteMessage),
    /// `RTM_NEWNEIGH`, 28.
    NewNeighbour(NeighbourMessage),
    /// `RTM_DELNEIGH`, 29.
    DelNeighbour(NeighbourMessage),
    /// `RTM_GETNEIGH`, 30.
    GetNeighbour(NeighbourMessage),
    /// `RTM_NEWRULE`, 32.
    NewRule(RuleMessage),
    /// `RTM_DELRULE`, 33.
    DelRule(RuleMessage),
    /// `RTM_GETRULE`, 34.
    GetRule(RuleMessage),
    /// `RTM_NEWQDISC`, 36.
    NewQueueDiscipline(TcMessage),
    /// `RTM_DELQDISC`, 37.
    DelQueueDiscipline(TcMessage),
    /// `RTM_GETQDISC`, 38.
    GetQueueDiscipline(TcMessage),
    /// `RTM_NEWTCLASS`, 40.
    NewTrafficClass(TcMessage),
    /// `RTM_DELTCLASS`, 41.
    DelTrafficClass(TcMessage),
    /// `RTM_GETTCLASS`, 42.
    GetTrafficClass(TcMessage),
    /// `RTM_NEWTFILTER`, 44.
    NewTrafficFilter(TcMessage),
    /// `RTM_DELTFILTER`, 45.
    DelTrafficFilter(TcMessage),
    /// `RTM_GETTFILTER`, 46.
    GetTrafficFilter(TcMessage),
    /// `RTM_NEWACTION`, 48.
    NewTrafficAction(TcActionMessage),
    /// `RTM_DELACTION`, 49.
    DelTrafficAction(TcActionMessage),
    /// `RTM_GETACTION`, 50.
    GetTrafficAction(TcActionMessage),
    /// `RTM_NEWPREFIX`, 52.
    NewPrefix(PrefixMessage),
    /// `RTM_NEWNEIGHTBL`, 64.
    NewNeighbourTable(NeighbourTableMessage),
    /// `RTM_GETNEIGHTBL`, 66.
    GetNeighbourTable(NeighbourTableMessage),
    /// `RTM_SETNEIGHTBL`, 67.
    SetNeighbourTable(NeighbourTableMessage),
    /// `RTM_NEWADDRLABEL`, 72.
    NewAddressLabel(AddressLabelMessage),
    /// `RTM_DELADDRLABEL`, 73.
    DelAddressLabel(AddressLabelMessage),
    /// `RTM_GETADDRLABEL`, 74.
    GetAddressLabel(AddressLabelMessage),
    /// `RTM_NEWNETCONF`, 80.
    NewNetconf(NetconfMessage),
    /// `RTM_DELNETCONF`, 81.
    DelNetconf(NetconfMessage),
    /// `RTM_GETNETCONF`, 82.
    GetNetconf(NetconfMessage),
    /// `RTM_NEWNSID`, 88.
    NewNsId(NsidMessage),
    /// `RTM_DELNSID`, 89.
    DelNsId(NsidMessage),
    /// `RTM_GETNSID`, 90.
    GetNsId(NsidMessage),
    /// `RTM_NEWSTATS`, 92.
    NewStats(StatsMessage),
    /// `RTM_NEWCHAIN`, 100.
    NewTrafficChain(TcMessage),
    /// `RTM_DELCHAIN`, 101.
    DelTrafficChain(TcMessage),
    /// `RTM_GETCHAIN`, 102.
    GetTrafficChain(TcMessage),
    /// `RTM_NEWNEXTHOP`, 104.
    NewNextHop(NextHopMessage),
    /// `RTM_DELNEXTHOP`, 105.
    DelNextHop(NextHopMessage),
    /// `RTM_GETNEXTHOP`, 106.
    GetNextHop(NextHopMessage),
    /// `RTM_NEWLINKPROP`, 108.
    NewLinkProp(LinkMessage),
    /// `RTM_DELLINKPROP`, 109.
    DelLinkProp(LinkMessage),
    /// `RTM_GETLINKPROP`, 110.
    GetLinkProp(LinkMessage),
    /// `RTM_NEWNEXTHOPBUCKET`, 116.
    NewNextHopBucket(NextHopMessage),
    /// `RTM_DELNEXTHOPBUCKET`, 117.
    DelNextHopBucket(NextHopMessage),
    /// `RTM_GETNEXTHOPBUCKET`, 118.
    GetNextHopBucket(NextHopMessage),
    /// Any other type.
    Other(OtherMessage),
}

/// The number of a message that is read, or else that of another one.
macro_rules! number_of {
    (($of_message:expr; $other:ident => $otherwise:expr) $($number:tt $variant:ident $says:expr;)*) => {
        match $of_message {
            $(RouteNetlinkMessage::$variant(_) => $number,)*
            RouteNetlinkMessage::Other($other) => $otherwise,
        }
    };
}

/// The same of each message that is read, and something else of another one.
macro_rules! each {
    (($of_message:expr; $m:ident => $then:expr; $other:ident => $otherwise:expr) $($number:tt $variant:ident $says:expr;)*) => {
        match $of_message {
            $(RouteNetlinkMessage::$variant($m) => $then,)*
            RouteNetlinkMessage::Other($other) => $otherwise,
        }
    };
}

/// An equal message.
macro_rules! clone_of {
    (($of_message:expr, $alloc:expr) $($number:tt $variant:ident $says:expr;)*) => {
        match $of_message {
            $(RouteNetlinkMessage::$variant(m) => Ok(RouteNetlinkMessage::$variant(m.try_clone($alloc)?)),)*
            RouteNetlinkMessage::Other(m) => Ok(RouteNetlinkMessage::Other(m.try_clone($alloc)?)),
        }
    };
}

impl OtherMessage {
    /// An equal message.
    ///
    /// # Errors
    /// `AllocError` where memory is refused; without bytes none is taken.
    pub fn try_clone(&self, alloc: Global) -> Result<Self, AllocError>
        ensures ok { IfOk result (λ m. other_of m ≡ other_of self.now) }
        ensures memory { OnErr result (0 < length self.now.payload.items) }
    {
        Ok(OtherMessage {
            message_type: self.message_type,
            payload: read_bytes(alloc, self.payload.as_slice())?,
        })
    }
}

impl Emitable for RouteNetlinkMessage {
    ghost bytes = { λ m. encode (meaning_of m) };

    ghost unfit = { λ m. meaning_unfit (meaning_of m) };

    fn check(&self) -> Result<usize, EmitError> {
        types!(each(self; m => m.check(); other => Ok(other.payload.len())))
    }

    fn emit(&self, out: &mut [u8]) {
        types!(each(self; m => m.emit(out); other => {
            write_bytes(other.payload.as_slice(), out);
        }))
    }
}

impl NetlinkInner for RouteNetlinkMessage {
    ghost Meaning = { Meaning };

    ghost meaning = { meaning_of };

    ghost protocol = { rtnetlink };

    ghost grows = { λ kind bytes. GrowsUnder (type_of kind) bytes };

    ghost copy_grows = { CopyGrows };

    ghost by_protocol = { λ m. (refl, refl) };

    fn message_type(&self) -> u16 {
        types!(number_of(self; other => other.message_type))
    }

    fn deserialize(
        alloc: Global,
        header: &NetlinkHeader,
        payload: &[u8],
    ) -> Result<Self, DecodeError> {
        read_under(alloc, header.message_type, payload)
    }

    fn try_clone(&self, alloc: Global) -> Result<Self, AllocError> {
        types!(clone_of(self, alloc))
    }
}

/// The message that the bytes are under this type.
fn read_under(
    alloc: Global,
    message_type: u16,
    payload: &[u8],
) -> Result<RouteNetlinkMessage, DecodeError>
    ensures ok { IfOk result (λ m. ReadsUnder (type_of message_type) message_type payload.now (meaning_of m)) }
    ensures refused { IfErr result (λ e. e ≢ OutOfMemory → FaultUnder (type_of message_type) payload.now e) }
    ensures memory { IsErrOf result OutOfMemory → GrowsUnder (type_of message_type) payload.now }
{
    match MessageType::of(message_type) {
        MessageType::Of(subject, action) => read_on(alloc, subject, action, payload),
        MessageType::SetLink => Ok(RouteNetlinkMessage::SetLink(LinkMessage::parse(
            alloc, payload,
        )?)),
        MessageType::NewPrefix => Ok(RouteNetlinkMessage::NewPrefix(PrefixMessage::parse(
            alloc, payload,
        )?)),
        MessageType::NewStats => Ok(RouteNetlinkMessage::NewStats(StatsMessage::parse(
            alloc, payload,
        )?)),
        MessageType::NewNeighbourTable => Ok(RouteNetlinkMessage::NewNeighbourTable(
            NeighbourTableMessage::parse(alloc, payload)?,
        )),
        MessageType::GetNeighbourTable => Ok(RouteNetlinkMessage::GetNeighbourTable(
            NeighbourTableMessage::parse(alloc, payload)?,
        )),
        MessageType::SetNeighbourTable => Ok(RouteNetlinkMessage::SetNeighbourTable(
            NeighbourTableMessage::parse(alloc, payload)?,
        )),
        MessageType::Unknown => Ok(RouteNetlinkMessage::Other(OtherMessage {
            message_type,
            payload: read_bytes(alloc, payload)?,
        })),
    }
}

/// The message on other properties of a link that does this.
fn on_properties(message: LinkMessage, action: Action) -> RouteNetlinkMessage
    ensures { meaning_of result ≡ link_prop action (view links message) }
{
    match action {
        Action::New => RouteNetlinkMessage::NewLinkProp(message),
        Action::Del => RouteNetlinkMessage::DelLinkProp(message),
        Action::Get => RouteNetlinkMessage::GetLinkProp(message),
    }
}

/// The message on a bucket of a group of next hops that does this.
fn on_bucket(message: NextHopMessage, action: Action) -> RouteNetlinkMessage
    ensures { meaning_of result ≡ next_hop_bucket action (view next_hops message) }
{
    match action {
        Action::New => RouteNetlinkMessage::NewNextHopBucket(message),
        Action::Del => RouteNetlinkMessage::DelNextHopBucket(message),
        Action::Get => RouteNetlinkMessage::GetNextHopBucket(message),
    }
}

/// The message on a class of traffic that does this.
fn on_class(message: TcMessage, action: Action) -> RouteNetlinkMessage
    ensures { meaning_of result ≡ traffic_class action (view messages message) }
{
    match action {
        Action::New => RouteNetlinkMessage::NewTrafficClass(message),
        Action::Del => RouteNetlinkMessage::DelTrafficClass(message),
        Action::Get => RouteNetlinkMessage::GetTrafficClass(message),
    }
}

/// The message on a filter of traffic that does this.
fn on_filter(message: TcMessage, action: Action) -> RouteNetlinkMessage
    ensures { meaning_of result ≡ traffic_filter action (view messages message) }
{
    match action {
        Action::New => RouteNetlinkMessage::NewTrafficFilter(message),
        Action::Del => RouteNetlinkMessage::DelTrafficFilter(message),
        Action::Get => RouteNetlinkMessage::GetTrafficFilter(message),
    }
}

/// The message on a chain of filters that does this.
fn on_chain(message: TcMessage, action: Action) -> RouteNetlinkMessage
    ensures { meaning_of result ≡ traffic_chain action (view messages message) }
{
    match action {
        Action::New => RouteNetlinkMessage::NewTrafficChain(message),
        Action::Del => RouteNetlinkMessage::DelTrafficChain(message),
        Action::Get => RouteNetlinkMessage::GetTrafficChain(message),
    }
}

/// The message on this that the bytes are, which does this.
fn read_on(
    alloc: Global,
    subject: Subject,
    action: Action,
    payload: &[u8],
) -> Result<RouteNetlinkMessage, DecodeError>
    ensures ok { IfOk result (λ m. IsMessageOn subject action payload.now (meaning_of m)) }
    ensures refused { IfErr result (λ e. e ≢ OutOfMemory → MessageFault (form_of (kind_of subject)).grammar payload.now e) }
    ensures memory { IsErrOf result OutOfMemory → HasFirst (kind_of subject) payload.now }
{
    match subject {
        Subject::Link => Ok(LinkMessage::parse(alloc, payload)?.under(action)),
        Subject::Address => Ok(AddressMessage::parse(alloc, payload)?.under(action)),
        Subject::Route => Ok(RouteMessage::parse(alloc, payload)?.under(action)),
        Subject::Neighbour => Ok(NeighbourMessage::parse(alloc, payload)?.under(action)),
        Subject::Rule => Ok(RuleMessage::parse(alloc, payload)?.under(action)),
        Subject::AddressLabel => Ok(AddressLabelMessage::parse(alloc, payload)?.under(action)),
        Subject::Netconf => Ok(NetconfMessage::parse(alloc, payload)?.under(action)),
        Subject::Nsid => Ok(NsidMessage::parse(alloc, payload)?.under(action)),
        Subject::NextHop => Ok(NextHopMessage::parse(alloc, payload)?.under(action)),
        Subject::LinkProp => Ok(on_properties(LinkMessage::parse(alloc, payload)?, action)),
        Subject::NextHopBucket => Ok(on_bucket(NextHopMessage::parse(alloc, payload)?, action)),
        Subject::QueueDiscipline => Ok(TcMessage::parse(alloc, payload)?.under(action)),
        Subject::TrafficClass => Ok(on_class(TcMessage::parse(alloc, payload)?, action)),
        Subject::TrafficFilter => Ok(on_filter(TcMessage::parse(alloc, payload)?, action)),
        Subject::TrafficChain => Ok(on_chain(TcMessage::parse(alloc, payload)?, action)),
        Subject::TrafficAction => Ok(TcActionMessage::parse(alloc, payload)?.under(action)),
    }
}
