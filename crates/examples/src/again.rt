//! Messages read and written again: two inputs mean the same exactly if these bytes are equal.

ghost use Rattle.std.specs.Prelude.{◌≡◌, ◌≢◌, None, Some, IfOk};
ghost use Rattle.{
  examples.specs.declared.fault.Fault.TheVariants.{Refused, Unfit},
  netlink_packet_route.specs.{
    Messages.{View, IsMessage, MessageFault, message_unfit, canonical_bytes},
    RouteMessage.{routes},
    declared.framing.{DecodeError.{DecodeError, TheVariants.{OutOfMemory}}, EmitError.{EmitError}},
  },
};

use crate::fault::Fault;
use netlink_packet_route::framing::{DecodeError, EmitError, Header, Message, Parseable, to_vec};
use netlink_packet_route::route::RouteHeader;
use std::alloc::Global;

/// The canonical bytes of the message with such a header that the bytes are.
///
/// # Errors
/// Why the bytes are no message, or why it can't be written.
pub fn again<H: Header>(alloc: Global, bytes: &[u8]) -> Result<Vec<u8>, Fault>
    ensures ok { IfOk result (λ out. (m : View H.grammar) × IsMessage H.grammar bytes.now m
        × (message_unfit H.grammar m ≡ None) × (out.items ≡ canonical_bytes H.grammar m)) }
    ensures refused { (e : DecodeError) → result ≡ Err (Refused e) → e ≢ OutOfMemory → MessageFault H.grammar bytes.now e }
    ensures unfit { (e : EmitError) → result ≡ Err (Unfit e) → (m : View H.grammar) × IsMessage H.grammar bytes.now m
        × (message_unfit H.grammar m ≡ Some e) }
{
    let message = Message::<H, H::Attribute>::parse(alloc, bytes)?;
    Ok(to_vec(alloc, &message)?)
}

/// The same of a route.
pub fn route_again(alloc: Global, bytes: &[u8]) -> Result<Vec<u8>, Fault>
    ensures ok { IfOk result (λ out. (m : View routes) × IsMessage routes bytes.now m × (message_unfit routes m ≡ None) × (out.items ≡ canonical_bytes routes m)) }
    ensures refused { (e : DecodeError) → result ≡ Err (Refused e) → e ≢ OutOfMemory → MessageFault routes bytes.now e }
    ensures unfit { (e : EmitError) → result ≡ Err (Unfit e) → (m : View routes) × IsMessage routes bytes.now m × (message_unfit routes m ≡ Some e) }
{
    again::<RouteHeader>(alloc, bytes)
}
