//! What is made and asked about: messages of each kind, and datagrams.

use netlink_packet_route::MessageKind;

/// What bytes are asked about as.
#[derive(Clone, Copy, Debug, PartialEq, Eq)]
pub enum Subject {
    /// A message of this kind.
    Message(MessageKind),
    /// The messages of a datagram.
    Datagram,
}

impl Subject {
    /// Its name.
    pub fn name(self) -> &'static str {
        match self {
            Subject::Message(kind) => kind.name(),
            Subject::Datagram => "datagram",
        }
    }
}
