//! A message of one's own: `RTM_NEWNEIGH` of `linux/neighbour.h`, without the envelope.

ghost use Rattle.std.{specs.{Prelude.{◌≡◌, ◌≢◌, ℕ, List, Option, None, IfOk, IfErr, refl, codes}, Option.{option_map}}, proofs.Common.{rules}};
ghost use Rattle.{
  template.specs.{
    NeighbourHeader.{header, default_header},
    NeighbourMessage.{neighbours},
    Neighbours.{family, destination_in, link_layer_in, IsAddressOf},
  },
  netlink_packet_route.specs.{
    Found.{IsFirst},
    Messages.{governs_by, none_searched, view, Stored, IsMessage, MessageFault},
    MessageLaws.{of_family, under_by},
    declared.framing.DecodeError.TheVariants.{OutOfMemory},
  },
};

use crate::neighbour::NeighbourAttribute;
use netlink_packet_route::family::write_array;
use netlink_packet_route::framing::{
    DecodeError, EmitError, Emitable, Header, Looks, Message, Parseable,
};
use netlink_packet_route::net::IpAddr;
use netlink_packet_route::route::RouteType;
use netlink_packet_route::{AddressFamily, numbers};
use std::alloc::Global;

/// The header of a neighbour message: `struct ndmsg`, 12 bytes, little endian. Bytes 1 to 3 are
/// padding, which is not looked at, and written 0.
#[derive(Clone, Copy, Debug, Default, PartialEq, Eq)]
pub struct NeighbourHeader {
    /// The family of the destination (`ndm_family`, byte 0).
    pub family: AddressFamily,
    /// The number of the interface (`ndm_ifindex`, bytes 4 to 7). The kernel's is an `int`; here the
    /// 32 bits are a number without a sign.
    pub ifindex: u32,
    /// How far the neighbour is known, `NUD_*` (`ndm_state`, bytes 8 and 9).
    pub state: u16,
    /// What the neighbour is besides, `NTF_*` (`ndm_flags`, byte 10).
    pub flags: u8,
    /// What becomes of a packet to it (`ndm_type`, byte 11).
    pub kind: RouteType,
}

impl Emitable for NeighbourHeader {
    ghost bytes = { header.encode };

    fn check(&self) -> Result<usize, EmitError> {
        Ok(12)
    }

    fn emit(&self, out: &mut [u8]) {
        let [index_0, index_1, index_2, index_3] = self.ifindex.to_le_bytes();
        let [state_0, state_1] = self.state.to_le_bytes();
        let family = numbers::address_family(self.family);
        let kind = numbers::route_type(self.kind);
        let bytes = [
            family, 0, 0, 0, index_0, index_1, index_2, index_3, state_0, state_1, self.flags, kind,
        ];
        write_array(bytes, out);
    }
}

/// A neighbour message: a header of 12 bytes, and attributes to the end.
pub type NeighbourMessage = Message<NeighbourHeader, NeighbourAttribute>;

impl Header for NeighbourHeader {
    type Attribute = NeighbourAttribute;

    ghost grammar = { neighbours };

    ghost governs = { governs_by (λ h. tt) };

    ghost searches = { λ h bytes context. none_searched };

    ghost by_layout = { λ h. (refl, refl, refl, Prim.search rules) };

    ghost by_family = { of_family family header default_header neighbours.body };

    ghost under = { under_by family header default_header (λ h. tt) };

    ghost message_text = { codes "NeighbourMessage" };

    fn message_name() -> &'static str {
        "NeighbourMessage"
    }

    fn size() -> usize {
        12
    }

    #[inline]
    fn in_front(b: &[u8]) -> Self {
        NeighbourHeader {
            family: AddressFamily::from(b[0]),
            ifindex: u32::from_le_bytes([b[4], b[5], b[6], b[7]]),
            state: u16::from_le_bytes([b[8], b[9]]),
            flags: b[10],
            kind: RouteType::from(b[11]),
        }
    }

    fn context(&self, _bytes: &[u8], _looks: &mut Looks) {}
}

/// The link-layer address of the neighbour with this destination, if the neighbour message that the
/// bytes are is about it and has one.
///
/// # Errors
/// Why the bytes are no neighbour message.
pub fn read_link_layer_address(
    alloc: Global,
    bytes: &[u8],
    destination: IpAddr,
) -> Result<Option<Vec<u8>>, DecodeError>
    ensures ok { IfOk result (λ found. (m : Stored neighbours) × IsMessage neighbours bytes.now (view neighbours m)
        × (address : Option (List ℕ)) × IsAddressOf destination m.attributes.items address × (option_map (λ x. x.items) found ≡ address)) }
    ensures refused { IfErr result (λ e. e ≢ OutOfMemory → MessageFault neighbours bytes.now e) }
{
    let message = NeighbourMessage::parse(alloc, bytes)?;
    match link_layer_address(&message, destination) {
        Some(address) => Ok(Some(Vec::from_slice(alloc, address)?)),
        None => Ok(None),
    }
}

/// The link-layer address of the neighbour with this destination, where the message is about it.
pub fn link_layer_address(message: &NeighbourMessage, destination: IpAddr) -> Option<&[u8]>
    ensures { IsAddressOf destination message.now.attributes.items (option_map (λ x. x.now) result) }
{
    if first_destination(message) != Some(destination) {
        return None;
    }
    first_link_layer(message)
}

fn first_destination(message: &NeighbourMessage) -> Option<IpAddr>
    ensures { IsFirst destination_in message.now.attributes.items result }
{
    message.attributes.iter().find_map(destination_in)
}

fn destination_in(attribute: &NeighbourAttribute) -> Option<IpAddr>
    ensures { result ≡ destination_in attribute.now }
{
    match attribute {
        NeighbourAttribute::Destination(ip) => Some(*ip),
        _ => None,
    }
}

fn first_link_layer(message: &NeighbourMessage) -> Option<&[u8]>
    ensures { IsFirst link_layer_in message.now.attributes.items (option_map (λ x. x.now) result) }
{
    message.attributes.iter().find_map(link_layer_in)
}

fn link_layer_in(attribute: &NeighbourAttribute) -> Option<&[u8]>
    ensures { option_map (λ x. x.now) result ≡ link_layer_in attribute.now }
{
    match attribute {
        NeighbourAttribute::LinkLocalAddress(address) => Some(address.as_slice()),
        _ => None,
    }
}
