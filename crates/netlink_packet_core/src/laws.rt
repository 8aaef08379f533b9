//! The laws of this crate, over its definitions alone. Each function does nothing, and its contract
//! is the law.

ghost use Rattle.std.specs.Prelude.{◌≡◌, ◌≤◌, ◌%◌, ◌*◌, ◌+◌, ◌++◌, ◌∷◌, ◌↔◌, ◌⊎◌, ℕ, List, [], Result, Err, None, length, map, true};
ghost use Rattle.{
  npr_base.specs.{declared.refusal.DecodeError.{DecodeError}, Equality.{IsEquality, IsEqualityOf}},
  netlink_packet_core.specs.{
    Conversation.{Talk, TalksOver, Stand, event_of, said, after, answers, kept, is_end},
    declared.{conversation.Answer.{Answer}, refusal.EnvelopeError.{EnvelopeError}},
    Envelope.{Envelope, IsDatagram, EnvelopeStops, Tail},
    Extended.{family as attribute},
    Header.{default_header},
    Payload.{payload_of, error_of, done_of},
    Message.{View, message_of, IsNetlinkMessage, NetlinkFault, IsCoherentMessage, netlink_unfit, message_bytes, envelope_of, finalized},
    Walk.{HasOne, start, found, EnvelopeSteps, EnvelopeWalk, EnvelopeFinds},
  },
};

use crate::buffer::NetlinkBuffer;
use crate::constants::{
    NETLINK_HEADER_LEN, NLM_F_ACK, NLM_F_ACK_TLVS, NLM_F_APPEND, NLM_F_ATOMIC, NLM_F_BULK,
    NLM_F_CAPPED, NLM_F_CREATE, NLM_F_DUMP, NLM_F_DUMP_FILTERED, NLM_F_DUMP_INTR, NLM_F_ECHO,
    NLM_F_EXCL, NLM_F_MATCH, NLM_F_MULTIPART, NLM_F_NONREC, NLM_F_REPLACE, NLM_F_REQUEST,
    NLM_F_ROOT, NLMSG_ALIGNTO, NLMSG_DONE, NLMSG_ERROR, NLMSG_NOOP, NLMSG_OVERRUN,
};
use crate::extended::ErrorAttribute;
use crate::header::NetlinkHeader;
use crate::message::NetlinkMessage;
use crate::payload::{DoneMessage, ErrorMessage, NetlinkPayload};
use crate::refusal::EnvelopeError;
use crate::traits::NetlinkInner;

/// Bytes are a list of messages, or stop at a fault. They are one list at most, and none where they
/// stop; and they stop at one fault at most. Two datagrams, the first of a multiple of four bytes, are the messages of the
/// first and then those of the second.
pub fn law_datagram()
    ensures each { (bytes : List ℕ) → (xs : List Envelope) × (IsDatagram bytes xs ⊎ ((e : EnvelopeError) × EnvelopeStops bytes xs e)) }
    ensures one { (bytes : List ℕ) (xs ys : List Envelope) → IsDatagram bytes xs → IsDatagram bytes ys → xs ≡ ys }
    ensures none { (bytes : List ℕ) (xs ys : List Envelope) (e : EnvelopeError) → IsDatagram bytes xs → EnvelopeStops bytes ys e → ⊥ }
    ensures first { (bytes : List ℕ) (xs ys : List Envelope) (e f : EnvelopeError) → EnvelopeStops bytes xs e → EnvelopeStops bytes ys f → (xs ≡ ys) × (e ≡ f) }
    ensures joined { (a b : List ℕ) (xs ys : List Envelope) → length a % 4 ≡ 0 → IsDatagram a xs → IsDatagram b ys → IsDatagram (a ++ b) (xs ++ ys) }
{}

/// The steps of a walk: those that find messages from the first byte to the last are the messages
/// of the datagram, and those that find a fault are its stop. Each datagram has one walk to its last
/// byte. Any steps find messages, each of which takes 16 bytes at least, and one fault after them at
/// most.
pub fn law_walk()
    ensures datagram { (bytes : List ℕ) (xs : List Envelope) → EnvelopeWalk bytes (found xs) ↔ IsDatagram bytes xs }
    ensures stop { (bytes : List ℕ) (xs : List Envelope) (e : EnvelopeError) → EnvelopeWalk bytes (found xs ++ Err e ∷ []) ↔ EnvelopeStops bytes xs e }
    ensures one { (bytes : List ℕ) → HasOne (λ steps. EnvelopeWalk bytes steps) }
    ensures any { (bytes : List ℕ) (steps : List (Result Envelope EnvelopeError)) (last : Tail) → EnvelopeSteps (start bytes) steps last
        → (xs : List Envelope) × EnvelopeFinds bytes steps last.bytes xs × (16 * length xs ≤ length bytes) }
{}

/// An envelope is one message at most, and none where there is a fault.
pub fn law_message<I: NetlinkInner>()
    ensures one { (x : Envelope) (m n : View I.Meaning) → IsNetlinkMessage I.protocol x m → IsNetlinkMessage I.protocol x n → m ≡ n }
    ensures none { (x : Envelope) (m : View I.Meaning) (e : DecodeError) → IsNetlinkMessage I.protocol x m → NetlinkFault I.protocol x e → ⊥ }
{}

/// The bytes that are written of a coherent message that fits are one message of a datagram, a
/// multiple of four bytes, and that message with the length and the type of its payload; and
/// messages with the same bytes are the same.
pub fn law_written<I: NetlinkInner>()
    ensures datagram { (m : View I.Meaning) → IsCoherentMessage I.protocol m → netlink_unfit I.protocol m ≡ None → IsDatagram (message_bytes I.protocol m) (envelope_of I.protocol m ∷ []) }
    ensures back { (m : View I.Meaning) → IsCoherentMessage I.protocol m → netlink_unfit I.protocol m ≡ None → IsNetlinkMessage I.protocol (envelope_of I.protocol m) (finalized I.protocol m) }
    ensures length { (m : View I.Meaning) → length (message_bytes I.protocol m) % 4 ≡ 0 }
    ensures canonical { (m n : View I.Meaning) → IsCoherentMessage I.protocol m → netlink_unfit I.protocol m ≡ None → IsCoherentMessage I.protocol n → netlink_unfit I.protocol n ≡ None
        → message_bytes I.protocol m ≡ message_bytes I.protocol n → finalized I.protocol m ≡ finalized I.protocol n }
{}

/// In datagrams there stands one list of messages and faults. A conversation over datagrams, each of
/// them walked until nothing more is answered, answers what the definition says of that list, and
/// keeps that; after the end nothing is answered.
pub fn law_conversation()
    ensures stand { (datagrams : List (List ℕ)) → HasOne (λ steps. Stand datagrams steps) }
    ensures answers { (t : Talk) (datagrams : List (List ℕ)) (steps : List (Result Envelope EnvelopeError)) (given : List Answer) (u : Talk)
        → Stand datagrams steps → TalksOver t datagrams given u → (map event_of given ≡ answers t steps) × (u ≡ kept t steps) }
    ensures end { (t : Talk) (s : Result Envelope EnvelopeError) (steps : List (Result Envelope EnvelopeError)) → is_end (said t s) ≡ true → answers (after t s) steps ≡ [] }
{}

/// The sizes and the types of `linux/netlink.h`.
pub fn law_message_types()
    ensures header { NETLINK_HEADER_LEN ≡ 16 }
    ensures align_to { NLMSG_ALIGNTO ≡ 4 }
    ensures noop { NLMSG_NOOP ≡ 1 }
    ensures error { NLMSG_ERROR ≡ 2 }
    ensures done { NLMSG_DONE ≡ 3 }
    ensures overrun { NLMSG_OVERRUN ≡ 4 }
{}

/// The flags of `linux/netlink.h`.
pub fn law_flags()
    ensures request { NLM_F_REQUEST ≡ 0x1 }
    ensures multipart { NLM_F_MULTIPART ≡ 0x2 }
    ensures ack { NLM_F_ACK ≡ 0x4 }
    ensures echo { NLM_F_ECHO ≡ 0x8 }
    ensures interrupted { NLM_F_DUMP_INTR ≡ 0x10 }
    ensures filtered { NLM_F_DUMP_FILTERED ≡ 0x20 }
    ensures root { NLM_F_ROOT ≡ 0x100 }
    ensures matching { NLM_F_MATCH ≡ 0x200 }
    ensures atomic { NLM_F_ATOMIC ≡ 0x400 }
    ensures dump { NLM_F_DUMP ≡ NLM_F_ROOT + NLM_F_MATCH }
    ensures replace { NLM_F_REPLACE ≡ 0x100 }
    ensures excl { NLM_F_EXCL ≡ 0x200 }
    ensures create { NLM_F_CREATE ≡ 0x400 }
    ensures append { NLM_F_APPEND ≡ 0x800 }
    ensures nonrec { NLM_F_NONREC ≡ 0x100 }
    ensures bulk { NLM_F_BULK ≡ 0x200 }
    ensures capped { NLM_F_CAPPED ≡ 0x100 }
    ensures ack_tlvs { NLM_F_ACK_TLVS ≡ 0x200 }
{}

/// Which header is the default.
pub fn law_default()
    ensures { (x : NetlinkHeader) → ⟦<NetlinkHeader as Default>⟧.is_default x → x ≡ default_header }
{}

/// `==` answers whether two values are equal, or mean the same where they hold a vector.
pub fn law_equality()
    ensures header { IsEquality ⟦<NetlinkHeader as PartialEq>⟧.eq }
    ensures buffer { IsEquality ⟦<NetlinkBuffer<'static> as PartialEq>⟧.eq }
    ensures refusal { IsEquality ⟦<EnvelopeError as PartialEq>⟧.eq }
    ensures attribute { IsEqualityOf attribute.meaning ⟦<ErrorAttribute as PartialEq>⟧.eq }
    ensures error { IsEqualityOf error_of ⟦<ErrorMessage as PartialEq>⟧.eq }
    ensures done { IsEqualityOf done_of ⟦<DoneMessage as PartialEq>⟧.eq }
{}

/// `==` answers whether two messages mean the same, where it does so of those of the protocol.
pub fn law_message_equality<I: NetlinkInner + PartialEq>()
    ensures payload { IsEqualityOf I.meaning I.eq → IsEqualityOf (payload_of I.meaning) ⟦<NetlinkPayload<I> as PartialEq>⟧.eq }
    ensures message { IsEqualityOf I.meaning I.eq → IsEqualityOf (message_of I.meaning) ⟦<NetlinkMessage<I> as PartialEq>⟧.eq }
{}
