//! Values that are seen where they stand, without memory.

ghost use Rattle.std.specs.Prelude.{◌≡◌, IfOk, IfErr};
ghost use Rattle.{
  netlink_packet_route.specs.{AddressMessage.{addresses}, Messages.{IsMessage, Stored, view}},
  examples.specs.{OneByOne.{last_of}, Seen.{address_of, seen_address}},
};

use netlink_packet_route::address::AddressMessage;
use netlink_packet_route::framing::{At, DecodeError, Value};
use netlink_packet_route::net::IpAddr;

/// The number of an address (`linux/if_addr.h`).
const IFA_ADDRESS: u16 = 1;

/// The address of the address message that the bytes are: where several stand the last. No memory is
/// taken.
///
/// # Errors
/// Why the bytes are no address message.
pub fn see_address(bytes: &[u8]) -> Result<Option<IpAddr>, DecodeError>
    ensures ok { IfOk result (λ found. (m : Stored addresses) → IsMessage addresses bytes.now (view addresses m)
        → found ≡ last_of address_of (view addresses m).attributes) }
    ensures refused { IfErr result (λ e. (m : Stored addresses) → IsMessage addresses bytes.now (view addresses m) → ⊥) }
{
    let (_, mut values) = AddressMessage::values(bytes)?;
    let mut found = None;
    while let Some(next) = values.next() {
        match next {
            Ok((at, value)) => found = address(at, &value).or(found),
            Err(refusal) => return Err(refusal),
        }
    }
    Ok(found)
}

/// The address, where it is the value of that number.
fn address(at: At, value: &Value<'_>) -> Option<IpAddr>
    ensures { result ≡ seen_address (at, value.now) }
{
    match value {
        Value::Address(address) if at.number == IFA_ADDRESS => Some(*address),
        _ => None,
    }
}
