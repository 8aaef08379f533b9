//! Address messages that are read, changed and built.

ghost use Rattle.std.specs.{Prelude.{◌≡◌, ◌≢◌, ◌==◌, None, Some, IfOk, IfErr}, Int.RustNames.{bit_and}};
ghost use Rattle.{
  examples.specs.{Addresses.{local_ipv4, loopback, loopback_written, with_priority}, declared.fault.Fault.TheVariants.{Refused, Unfit}},
  netlink_packet_route.specs.{
    AddressFlags.{header_flag_bits},
    AddressMessage.{addresses},
    Found.{IsFirst},
    Messages.{Stored, IsMessage, View, MessageFault, message_unfit, canonical_bytes, view},
    declared.framing.{DecodeError.{DecodeError, TheVariants.{OutOfMemory}}, EmitError.{EmitError}},
  },
};

use crate::fault::Fault;
use netlink_packet_route::address::{
    AddressAttribute, AddressHeader, AddressHeaderFlags, AddressMessage, AddressScope,
};
use netlink_packet_route::framing::{DecodeError, EmitError, Parseable, to_vec};
use netlink_packet_route::net::{IpAddr, Ipv4Addr};
use netlink_packet_route::{AddressFamily, Flags};
use std::alloc::{AllocError, Global};

/// The first local address of version 4 in the address message that the bytes are.
///
/// # Errors
/// Why the bytes are no address message.
pub fn read_local(alloc: Global, bytes: &[u8]) -> Result<Option<Ipv4Addr>, DecodeError>
    ensures ok { IfOk result (λ found. (m : Stored addresses) × IsMessage addresses bytes.now (view addresses m)
        × IsFirst local_ipv4 m.attributes.items found) }
    ensures refused { IfErr result (λ e. e ≢ OutOfMemory → MessageFault addresses bytes.now e) }
{
    let message = AddressMessage::parse(alloc, bytes)?;
    Ok(first_local(&message))
}

/// The first local address of version 4.
pub fn first_local(message: &AddressMessage) -> Option<Ipv4Addr>
    ensures { IsFirst local_ipv4 message.now.attributes.items result }
{
    message.attributes.iter().find_map(local_ipv4)
}

/// The address, where it is a local one of version 4.
fn local_ipv4(attribute: &AddressAttribute) -> Option<Ipv4Addr>
    ensures { result ≡ local_ipv4 attribute.now }
{
    match attribute {
        AddressAttribute::Local(IpAddr::V4(ip)) => Some(*ip),
        _ => None,
    }
}

/// Whether the header calls the address permanent (`IFA_F_PERMANENT`).
pub fn is_permanent(message: &AddressMessage) -> bool
    ensures { result ≡ (bit_and (header_flag_bits.number message.now.header.flags) 0x80 == 0x80) }
{
    message.header.flags.contains(AddressHeaderFlags::Permanent)
}

/// The message that gives the loopback interface, which has the number 1, its address 127.0.0.1/8
/// under the label `lo`.
///
/// # Errors
/// `AllocError` where memory is refused.
pub fn loopback(alloc: Global) -> Result<AddressMessage, AllocError>
    ensures { IfOk result (λ m. view addresses m ≡ loopback) }
{
    let ip = Ipv4Addr::new(127, 0, 0, 1);
    let mut message = AddressMessage::new(alloc);
    message.header = AddressHeader {
        family: AddressFamily::Inet,
        prefix_len: 8,
        flags: AddressHeaderFlags::Permanent,
        scope: AddressScope::Host,
        index: 1,
    };
    let attributes = &mut message.attributes;
    attributes.push(AddressAttribute::Address(IpAddr::V4(ip)))?;
    attributes.push(AddressAttribute::Local(IpAddr::V4(ip)))?;
    let label = String::from_str(alloc, "lo")?;
    attributes.push(AddressAttribute::Label(label))?;
    Ok(message)
}

/// The bytes of that message.
///
/// # Errors
/// `Refused(OutOfMemory)` where memory is refused.
#[tactic(auto, unfolding(netlink_packet_route::specs::Messages::canonical_bytes, netlink_packet_route::specs::Messages::message_unfit))]
pub fn loopback_bytes(alloc: Global) -> Result<Vec<u8>, Fault>
    ensures ok { IfOk result (λ out. out.items ≡ canonical_bytes addresses loopback) }
    ensures written { IfOk result (λ out. out.items ≡ loopback_written) }
    ensures memory { IfErr result (λ e. e ≡ Refused OutOfMemory) }
{
    let message = loopback(alloc)?;
    Ok(to_vec(alloc, &message)?)
}

/// The bytes of the address message that the bytes are, with a metric for its route besides.
///
/// # Errors
/// Why the bytes are no message, or why it can't be written with that.
pub fn with_priority(alloc: Global, bytes: &[u8], priority: u32) -> Result<Vec<u8>, Fault>
    ensures ok { IfOk result (λ out. (m : View addresses) × IsMessage addresses bytes.now m
        × (message_unfit addresses (with_priority priority m) ≡ None) × (out.items ≡ canonical_bytes addresses (with_priority priority m))) }
    ensures refused { (e : DecodeError) → result ≡ Err (Refused e) → e ≢ OutOfMemory → MessageFault addresses bytes.now e }
    ensures unfit { (e : EmitError) → result ≡ Err (Unfit e) → (m : View addresses) × IsMessage addresses bytes.now m
        × (message_unfit addresses (with_priority priority m) ≡ Some e) }
{
    let mut message = AddressMessage::parse(alloc, bytes)?;
    let attribute = AddressAttribute::RoutePriority(priority);
    message.attributes.push(attribute)?;
    Ok(to_vec(alloc, &message)?)
}
