//! Whether bytes are a message, and else the first fault, without memory.

ghost use Rattle.std.specs.Prelude.{IfOk, IfErr};
ghost use Rattle.{
  npr_base.specs.Message.{IsMessage, MessageFault},
  netlink_packet_route.specs.MessageKind.{MessageOf, form_of},
};

use crate::kind::MessageKind;
use crate::nests::Nest;
use npr_base::DecodeError;

/// Whether the bytes are a message of this kind. It takes no memory but on the stack, for next hops
/// inside next hops.
///
/// # Errors
/// The first fault in reading order, as `parse` tells it.
pub fn validate(kind: MessageKind, bytes: &[u8]) -> Result<(), DecodeError>
    ensures ok { IfOk result (λ _. (m : MessageOf kind) × IsMessage (form_of kind).grammar bytes.now m) }
    ensures refused { IfErr result (λ e. MessageFault (form_of kind).grammar bytes.now e) }
{
    let (nest, attributes) = Nest::begin(kind, bytes)?;
    nest.check(attributes)
}
