//! The names of refusals, causes and attributes, by their numbers.

ghost use Rattle.std.specs.Prelude.{◌≡◌, ◌≤◌, length, codes};
ghost use Rattle.{
  netlink_packet_route.specs.{Refusal.{decode_name, emit_name}, declared.framing.{DecodeError.{DecodeError}, EmitError.{EmitError}}},
  netlink_packet_core.specs.declared.refusal.EnvelopeError.{EnvelopeError},
  npr_c.specs.{Envelopes.{envelope_name, envelope_number}, Kinds.{unknown_kind}, Names.{Puts, attribute_name, cause_name, refusal_name}, Numbers.{cause_number, refusal_number}},
};

use crate::nests::set_of;
use crate::texts::put;
use netlink_packet_route::framing::attribute_name;

/// The name of the refusal that has this number, or an empty text.
fn refusal_name(number: u32) -> &'static str
    ensures { result.now ≡ refusal_name number }
{
    match number {
        1 => "OutOfMemory",
        2 => "HeaderTooShort",
        3 => "AttributeTooShort",
        4 => "AttributeLength",
        5 => "NextHopTooShort",
        6 => "NextHopLength",
        7 => "ValueLength",
        8 => "NotUtf8",
        9 => "Seg6Header",
        10 => "GeneveOrder",
        11 => "GeneveChild",
        12 => "ViaFamily",
        13 => "Unsupported",
        14 => "MessageTooShort",
        15 => "MessageLength",
        16 => "UnknownKind",
        _ => "",
    }
}

/// The name of the cause that has this number, or an empty text.
fn cause_name(number: u32) -> &'static str
    ensures { result.now ≡ cause_name number }
{
    match number {
        1 => "TooLong",
        2 => "NextHopTooLong",
        3 => "TooManySegments",
        4 => "IpProtocol",
        5 => "Total",
        _ => "",
    }
}

/// Writes the name of the refusal that has this number, and a zero, to the front of the buffer,
/// and leaves the rest of it. Answers the length of the name in bytes, without the zero. A number
/// that no refusal has gives an empty text. The buffer is as it was where there is no room.
#[unsafe(no_mangle)]
pub extern "C" fn npr_refusal_name(number: u32, out: &mut [u8]) -> usize
    ensures length { result ≡ length (refusal_name number) }
    ensures text { Puts out.old out.new (refusal_name number) }
    // The longest name takes 17 bytes.
    ensures longest { result ≤ 17 }
    // Each refusal has its variant's name at its number.
    ensures name { (e : DecodeError) → refusal_name (refusal_number e) ≡ decode_name e }
    ensures message_name { (e : EnvelopeError) → refusal_name (envelope_number e) ≡ envelope_name e }
    ensures kind_name { refusal_name unknown_kind ≡ codes "UnknownKind" }
{
    put(refusal_name(number).as_bytes(), out)
}

/// Writes the name of the cause that has this number, and a zero, to the front of the buffer, and
/// leaves the rest of it. Answers the length of the name in bytes, without the zero. A number that
/// no cause has gives an empty text. The buffer is as it was where there is no room.
#[unsafe(no_mangle)]
pub extern "C" fn npr_cause_name(number: u32, out: &mut [u8]) -> usize
    ensures length { result ≡ length (cause_name number) }
    ensures text { Puts out.old out.new (cause_name number) }
    // The longest name takes 15 bytes.
    ensures longest { result ≤ 15 }
    // Each cause has its variant's name at its number.
    ensures name { (e : EmitError) → cause_name (cause_number e) ≡ emit_name e }
{
    put(cause_name(number).as_bytes(), out)
}

/// Writes the name of the attribute of this number in the set of a number, `IFLA_MTU`, and a zero, to the
/// front of the buffer, and leaves the rest of it. Answers the length of the name in bytes, without the
/// zero. A number that the kernel's headers don't name gives an empty text. The buffer is as it was where
/// there is no room.
#[unsafe(no_mangle)]
pub extern "C" fn npr_attribute_name(family: u32, number: u16, out: &mut [u8]) -> usize
    ensures length { result ≡ length (attribute_name family number) }
    ensures text { Puts out.old out.new (attribute_name family number) }
    // A name takes 47 bytes at most.
    ensures longest { result ≤ 47 }
{
    match attribute_name(set_of(family), number) {
        Some(name) => put(name.as_bytes(), out),
        None => put(b"", out),
    }
}
