//! The kinds of messages by their numbers, and those of the types of messages.

ghost use Rattle.std.specs.Prelude.{◌≡◌, Some};
ghost use Rattle.{
  netlink_packet_route.specs.declared.kind.MessageKind.{MessageKind},
  npr_c.specs.Kinds.{kind_at, kind_number, number_of_kind, number_of_type},
};

use netlink_packet_route::{MessageKind, MessageType};

/// The number of the refusal of a number that is that of no kind; those of other bytes end at 15.
pub const UNKNOWN_KIND: u32 = 16;

/// The kind of this number, if it is that of one.
pub fn kind_at(number: u32) -> Option<MessageKind>
    ensures { result ≡ kind_at number }
{
    match number {
        1 => Some(MessageKind::Address),
        2 => Some(MessageKind::Route),
        3 => Some(MessageKind::Rule),
        4 => Some(MessageKind::Neighbour),
        5 => Some(MessageKind::Link),
        6 => Some(MessageKind::NextHop),
        7 => Some(MessageKind::Nsid),
        8 => Some(MessageKind::Netconf),
        9 => Some(MessageKind::AddressLabel),
        10 => Some(MessageKind::NeighbourTable),
        11 => Some(MessageKind::Prefix),
        12 => Some(MessageKind::Tc),
        13 => Some(MessageKind::TcAction),
        14 => Some(MessageKind::Stats),
        _ => None,
    }
}

/// The number of a kind.
fn kind_number(kind: MessageKind) -> u32
    ensures { result ≡ kind_number kind }
{
    match kind {
        MessageKind::Address => 1,
        MessageKind::Route => 2,
        MessageKind::Rule => 3,
        MessageKind::Neighbour => 4,
        MessageKind::Link => 5,
        MessageKind::NextHop => 6,
        MessageKind::Nsid => 7,
        MessageKind::Netconf => 8,
        MessageKind::AddressLabel => 9,
        MessageKind::NeighbourTable => 10,
        MessageKind::Prefix => 11,
        MessageKind::Tc => 12,
        MessageKind::TcAction => 13,
        MessageKind::Stats => 14,
    }
}

/// The number of the kind of messages of this type (`RTM_*` of `linux/rtnetlink.h`), or 0 where it is
/// none that is read. It takes no memory.
#[unsafe(no_mangle)]
pub extern "C" fn npr_kind_of(message_type: u16) -> u32
    ensures number { result ≡ number_of_type message_type }
    // Each kind has a number, by which it is told.
    ensures back { (kind : MessageKind) → kind_at (kind_number kind) ≡ Some kind }
{
    match MessageType::of(message_type).kind() {
        Some(kind) => kind_number(kind),
        None => 0,
    }
}
