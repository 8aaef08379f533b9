//! The kinds of messages, by their names.

ghost use Rattle.std.specs.Prelude.{◌≡◌, ◌≢◌, [], ◌∷◌, map, string_bytes, IfSome, IsNone};
ghost use Rattle.netlink_packet_route.specs.{declared.kind.MessageKind.{MessageKind}, MessageKind.{kind_name}};

/// A kind of message.
#[derive(Clone, Copy, Debug, PartialEq, Eq)]
pub enum MessageKind {
    /// Address messages.
    Address,
    /// Route messages.
    Route,
    /// Rule messages.
    Rule,
    /// Neighbour messages.
    Neighbour,
    /// Link messages.
    Link,
    /// Next hop messages.
    NextHop,
    /// Messages of network name spaces.
    Nsid,
    /// Messages of settings.
    Netconf,
    /// Messages of address labels.
    AddressLabel,
    /// Messages of tables of neighbours.
    NeighbourTable,
    /// Prefix messages.
    Prefix,
    /// Messages of traffic control.
    Tc,
    /// Messages of actions of traffic control.
    TcAction,
    /// Messages of statistics.
    Stats,
}

impl MessageKind {
    /// Each kind.
    pub const ALL: [MessageKind; 14] = [
        MessageKind::Address,
        MessageKind::Route,
        MessageKind::Rule,
        MessageKind::Neighbour,
        MessageKind::Link,
        MessageKind::NextHop,
        MessageKind::Nsid,
        MessageKind::Netconf,
        MessageKind::AddressLabel,
        MessageKind::NeighbourTable,
        MessageKind::Prefix,
        MessageKind::Tc,
        MessageKind::TcAction,
        MessageKind::Stats,
    ];

    /// The kind that the words of a command line, those after the program's name, consist of.
    pub fn of(words: &[String]) -> Option<MessageKind>
        ensures named { IfSome result (λ kind. map string_bytes words.now ≡ kind_name kind ∷ []) }
        ensures other { IsNone result → (kind : MessageKind) → map string_bytes words.now ≢ kind_name kind ∷ [] }
    {
        match words {
            [word] => MessageKind::named(word.as_str()),
            _ => None,
        }
    }

    /// The kind of this name.
    pub fn named(name: &str) -> Option<MessageKind>
        ensures named { IfSome result (λ kind. name.now ≡ kind_name kind) }
        ensures other { IsNone result → (kind : MessageKind) → name.now ≢ kind_name kind }
    {
        match name {
            "address" => Some(MessageKind::Address),
            "route" => Some(MessageKind::Route),
            "rule" => Some(MessageKind::Rule),
            "neighbour" => Some(MessageKind::Neighbour),
            "link" => Some(MessageKind::Link),
            "nexthop" => Some(MessageKind::NextHop),
            "nsid" => Some(MessageKind::Nsid),
            "netconf" => Some(MessageKind::Netconf),
            "address-label" => Some(MessageKind::AddressLabel),
            "neighbour-table" => Some(MessageKind::NeighbourTable),
            "prefix" => Some(MessageKind::Prefix),
            "tc" => Some(MessageKind::Tc),
            "tc-action" => Some(MessageKind::TcAction),
            "stats" => Some(MessageKind::Stats),
            _ => None,
        }
    }

    /// The kind's name.
    pub fn name(&self) -> &'static str
        ensures { result.now ≡ kind_name self.now }
    {
        match self {
            MessageKind::Address => "address",
            MessageKind::Route => "route",
            MessageKind::Rule => "rule",
            MessageKind::Neighbour => "neighbour",
            MessageKind::Link => "link",
            MessageKind::NextHop => "nexthop",
            MessageKind::Nsid => "nsid",
            MessageKind::Netconf => "netconf",
            MessageKind::AddressLabel => "address-label",
            MessageKind::NeighbourTable => "neighbour-table",
            MessageKind::Prefix => "prefix",
            MessageKind::Tc => "tc",
            MessageKind::TcAction => "tc-action",
            MessageKind::Stats => "stats",
        }
    }
}
