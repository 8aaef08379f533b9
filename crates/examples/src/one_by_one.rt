//! Attributes that are read one after the other, without a list.

ghost use Rattle.std.specs.Prelude.{◌≡◌, ◌≢◌, IfOk, IfErr};
ghost use Rattle.{
  netlink_packet_route.specs.{
    AddressAttribute.{family},
    AddressMessage.{addresses},
    Messages.{IsMessage, View, MessageFault},
    declared.framing.DecodeError.TheVariants.{OutOfMemory},
  },
  examples.specs.OneByOne.{last_of, priority_of},
};

use netlink_packet_route::address::{AddressAttribute, AddressMessage};
use netlink_packet_route::framing::DecodeError;
use std::alloc::Global;

/// The metric of the address message that the bytes are: where several stand the last, as the kernel
/// takes it. No attribute is kept.
///
/// # Errors
/// Why the bytes are no address message.
pub fn read_priority(alloc: Global, bytes: &[u8]) -> Result<Option<u32>, DecodeError>
    ensures ok { IfOk result (λ found. (m : View addresses) × IsMessage addresses bytes.now m × (found ≡ last_of priority_of m.attributes)) }
    ensures refused { IfErr result (λ e. e ≢ OutOfMemory → MessageFault addresses bytes.now e) }
{
    let mut attributes = AddressMessage::attributes(alloc, bytes)?;
    let mut found = None;
    while let Some(next) = attributes.next() {
        found = priority(next?).or(found);
    }
    Ok(found)
}

/// The metric, where the attribute is one.
fn priority(attribute: AddressAttribute) -> Option<u32>
    ensures { result ≡ priority_of (family.meaning attribute) }
{
    match attribute {
        AddressAttribute::RoutePriority(priority) => Some(priority),
        _ => None,
    }
}
