//! Entries of a label stack of MPLS (RFC 3032, section 2.1).

ghost use Rattle.std.specs.Prelude.{◌≡◌, ◌≤◌, length, IfOk, IfErr, IsErr};
ghost use Rattle.{
  npr_base.specs.{Codec.{exactly}, Framing.{Writes}, Refusal.{no_place}, declared.refusal.DecodeError.TheVariants.{OutOfMemory}},
  npr_route_values.specs.{Mpls.{label_of, label_number}, MplsCodec.{mpls_label, mpls_labels}},
};

use npr_base::{At, DecodeError, EmitError, Emitable, read_octets, write_array};
use std::alloc::Global;

/// One entry of a label stack.
///
/// Layout (RFC 3032, section 2.1), 4 bytes, from the highest bit: the label in 20 bits, the
/// traffic class in 3 (so named by RFC 5462), the bottom of the stack in 1, and the TTL in 8.
#[derive(Clone, Copy, Debug, PartialEq, Eq)]
pub struct MplsLabel {
    /// The label, of which the low 20 bits are written.
    pub label: u32,
    /// The traffic class, of which the low 3 bits are written.
    pub traffic_class: u8,
    /// Whether it is the last entry of its stack.
    pub bottom_of_stack: bool,
    /// How many hops are left.
    pub ttl: u8,
}

impl From<u32> for MplsLabel {
    ghost from_gives = { λ number entry. entry ≡ label_of number };

    fn from(number: u32) -> MplsLabel {
        MplsLabel {
            label: number / 0x1000,
            traffic_class: (number % 0x1000 / 0x200) as u8,
            bottom_of_stack: number % 0x200 / 0x100 == 1,
            ttl: (number % 0x100) as u8,
        }
    }
}

impl From<MplsLabel> for u32 {
    ghost from_gives = { λ entry number. number ≡ label_number entry };

    fn from(entry: MplsLabel) -> u32 {
        let bottom = u32::from(entry.bottom_of_stack);
        entry.label % 0x10_0000 * 0x1000
            + u32::from(entry.traffic_class % 8) * 0x200
            + bottom * 0x100
            + u32::from(entry.ttl)
    }
}

impl MplsLabel {
    /// The entry of four bytes, big endian.
    ///
    /// # Errors
    /// `ValueLength` at another length.
    pub fn parse(bytes: &[u8]) -> Result<Self, DecodeError>
        ensures ok { IfOk result (λ entry. (exactly mpls_label).Reads bytes.now entry) }
        ensures refused { IfErr result (λ e. (exactly mpls_label).Wrong no_place bytes.now e) }
    {
        let octets = read_octets(bytes, At::NO_PLACE)?;
        Ok(MplsLabel::from(u32::from_be_bytes(octets)))
    }
}

impl Emitable for MplsLabel {
    ghost bytes = { mpls_label.encode };

    fn check(&self) -> Result<usize, EmitError> {
        Ok(4)
    }

    fn emit(&self, out: &mut [u8]) {
        write_array(u32::from(*self).to_be_bytes(), out);
    }
}

/// The entries of a stack, in order: each whole block of four bytes is one, and the one to three
/// bytes behind the last are dropped.
///
/// # Errors
/// `OutOfMemory` where memory is refused, which is taken for a first whole block alone.
pub fn read_labels(alloc: Global, bytes: &[u8]) -> Result<Vec<MplsLabel>, DecodeError>
    ensures ok { IfOk result (λ labels. mpls_labels.Reads bytes.now labels.items) }
    ensures refused { IfErr result (λ e. e ≡ OutOfMemory) }
    ensures memory { IsErr result → 4 ≤ length bytes.now }
{
    let mut labels = Vec::new(alloc);
    let mut rest = bytes;
    while 4 <= rest.len() {
        let number = u32::from_be_bytes([rest[0], rest[1], rest[2], rest[3]]);
        labels.push(MplsLabel::from(number))?;
        rest = &rest[4..];
    }
    Ok(labels)
}

/// The length of the entries, in bytes: four an entry.
pub fn labels_len(labels: &[MplsLabel]) -> usize
    ensures { result ≡ length (mpls_labels.encode labels.now) }
{
    labels.len() * 4
}

/// Writes the entries one after the other at the front of the slice, leaves the rest, and answers
/// their length: four bytes an entry. Asks for room of that length.
///
/// # Panics
/// May panic where it is not as asked.
pub fn write_labels(labels: &[MplsLabel], out: &mut [u8]) -> usize
    requires { length (mpls_labels.encode labels.now) ≤ length out.old }
    ensures len { result ≡ length (mpls_labels.encode labels.now) }
    ensures after { Writes out.old out.new (mpls_labels.encode labels.now) }
{
    let mut at = 0usize;
    for entry in labels {
        at += write_array(u32::from(*entry).to_be_bytes(), &mut out[at..]);
    }
    at
}

/// Writes the entries one after the other. Asks for a slice of exactly their length, which is four
/// bytes an entry. It is for callers: the library writes by `write_labels`.
///
/// # Panics
/// May panic where it is not as asked.
pub fn emit_labels(labels: &[MplsLabel], out: &mut [u8])
    requires { length out.old ≡ length (mpls_labels.encode labels.now) }
    ensures { out.new ≡ mpls_labels.encode labels.now }
{
    write_labels(labels, out);
}
