//! Bytes in an envelope.

ghost use Rattle.std.specs.Prelude.{◌↔◌, IsTrue};
ghost use Rattle.netlink_report.specs.Where.{BeginsEnvelope};

use netlink_packet_route::MessageType;
use netlink_packet_route::envelope::{NETLINK_HEADER_LEN, NetlinkHeader};

/// Whether the bytes begin with an envelope of rtnetlink.
pub fn is_envelope(bytes: &[u8]) -> bool
    ensures { IsTrue result ↔ BeginsEnvelope bytes.now }
{
    let Ok(header) = NetlinkHeader::parse(bytes) else {
        return false;
    };
    let length = header.length as usize;
    if length < NETLINK_HEADER_LEN || length > bytes.len() {
        return false;
    }
    MessageType::of(header.message_type).kind().is_some()
}
