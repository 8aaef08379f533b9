//! What is parsed and what is emitted.

ghost use Rattle.std.specs.Prelude.{◌≡◌, ◌≢◌, ◌≤◌, ℕ, List, Option, None, length, IfOk, IfErr};
ghost use Rattle.npr_base.specs.{
  declared.refusal.{EmitError.{EmitError}, DecodeError.{DecodeError, TheVariants.{OutOfMemory}}},
  Framing.{Writes, encoding, framed},
  Lists.{checked, too_long},
  Family.{Shape, shaped_item, shaped_unfit},
};

use crate::framing::{NLA_HEADER_SIZE, frame, framed_len, marked_kind};
use crate::refusal::{DecodeError, EmitError};
use std::alloc::Global;

/// A value that is written as an attribute.
pub trait Nla: Sized {
    /// The attribute that is written, whether NESTED is set besides in its kind, and why what is
    /// inside can't be written, if so.
    ghost shape: { Self → Shape };

    /// The kind, with the flags that it has by itself.
    fn kind(&self) -> u16
        ensures { result ≡ (shape self.now).item.kind };

    /// Whether the written kind has NESTED, whatever `kind` says.
    fn is_nested(&self) -> bool
        ensures { result ≡ (shape self.now).nested };

    /// The length of the value in bytes, or the first cause inside it why it can't be written.
    /// `check` tests the length besides.
    fn check_value(&self) -> Result<usize, EmitError>
        ensures { result ≡ checked (shape self.now).unfit (length (shape self.now).item.value) };

    /// Writes the value at the front of the slice, leaves the rest, and answers the value's
    /// length. Asks that `check_value` accepts, and room for the value.
    ///
    /// # Panics
    /// May panic where it is not as asked.
    fn write_value(&self, out: &mut [u8]) -> usize
        requires fits { (shape self.now).unfit ≡ None }
        requires room { length (shape self.now).item.value ≤ length out.old }
        ensures len { result ≡ length (shape self.now).item.value }
        ensures after { Writes out.old out.new (shape self.now).item.value };

    /// The length of the value, in bytes. Asks that `check_value` accepts.
    final fn value_len(&self) -> usize
        requires { (shape self.now).unfit ≡ None }
        ensures { result ≡ length (shape self.now).item.value }
    {
        match self.check_value() {
            Ok(len) => len,
            Err(_) => unreachable!(),
        }
    }

    /// Writes the value into a slice of exactly its length. Asks that `check_value` accepts.
    final fn emit_value(&self, out: &mut [u8])
        requires fits { (shape self.now).unfit ≡ None }
        requires room { length out.old ≡ length (shape self.now).item.value }
        ensures { out.new ≡ (shape self.now).item.value }
    {
        self.write_value(out);
    }
}

/// A value that is written as bytes.
pub trait Emitable {
    /// The bytes that are written.
    ghost bytes: { Self → List ℕ };

    /// Why it can't be written, if so. Without a word on it, it always can.
    ghost unfit: { Self → Option EmitError } = { λ _. None };

    /// The length of the bytes, which is `buffer_len`, or the first cause why there are none.
    fn check(&self) -> Result<usize, EmitError>
        ensures { result ≡ checked (unfit self.now) (length (bytes self.now)) };

    /// Writes the bytes at the front of the slice, and leaves the rest. Asks that `check` accepts,
    /// and room for the bytes.
    ///
    /// # Panics
    /// May panic where it is not as asked.
    fn emit(&self, out: &mut [u8])
        requires fits { unfit self.now ≡ None }
        requires room { length (bytes self.now) ≤ length out.old }
        ensures { Writes out.old out.new (bytes self.now) };

    /// The length of the bytes. Asks that `check` accepts.
    final fn buffer_len(&self) -> usize
        requires { unfit self.now ≡ None }
        ensures { result ≡ length (bytes self.now) }
    {
        match self.check() {
            Ok(len) => len,
            Err(_) => unreachable!(),
        }
    }
}

/// Header, value and zeros to the next multiple of four.
impl<A: Nla> Emitable for A {
    ghost bytes = { λ a. encoding (shaped_item A.shape a) };

    ghost unfit = { shaped_unfit A.shape };

    fn check(&self) -> Result<usize, EmitError> {
        let len = self.check_value()?;
        check_attribute_len(self, len)
    }

    fn emit(&self, out: &mut [u8]) {
        write_attribute(self, out);
    }
}

/// The length of an attribute's encoding, of a value of this length. The kind is asked for in the
/// refusal alone: it costs a jump.
///
/// # Errors
/// `TooLong` above 65,531 bytes.
#[inline(always)]
pub fn check_attribute_len<A: Nla>(attribute: &A, len: usize) -> Result<usize, EmitError>
    ensures { result ≡ checked (too_long (A.shape attribute.now).item.kind len) (framed len) }
{
    match framed_len(len) {
        Some(whole) => Ok(whole),
        None => Err(EmitError::TooLong {
            kind: attribute.kind(),
            len,
        }),
    }
}

/// `emit` of an attribute, with the length of what is written. Asks what that does.
///
/// # Panics
/// May panic where it is not as asked.
pub fn write_attribute<A: Nla>(attribute: &A, out: &mut [u8]) -> usize
    requires fits { shaped_unfit A.shape attribute.now ≡ None }
    requires room { framed (length (A.shape attribute.now).item.value) ≤ length out.old }
    ensures len { result ≡ framed (length (A.shape attribute.now).item.value) }
    ensures after { Writes out.old out.new (encoding (shaped_item A.shape attribute.now)) }
{
    let kind = marked_kind(attribute.kind(), attribute.is_nested());
    let len = attribute.write_value(&mut out[NLA_HEADER_SIZE..]);
    frame(out, kind, len)
}

/// A value that is read from an input, which is a reference.
pub trait Parseable<T>: Sized {
    /// What the input means.
    ghost parses: { T → Self → Type 0 };

    /// Why it means nothing.
    ghost misparses: { T → DecodeError → Type 0 };

    /// The value that the input means.
    ///
    /// # Errors
    /// `OutOfMemory` where memory is refused, and else what is wrong with the input.
    fn parse(alloc: Global, input: T) -> Result<Self, DecodeError>
        ensures ok { IfOk result (λ x. parses input x) }
        ensures refused { IfErr result (λ e. e ≢ OutOfMemory → misparses input e) };
}

/// A value that is read from an input, which is a reference, under a parameter.
pub trait ParseableParametrized<T, P>: Sized {
    /// What the input means under the parameter.
    ghost parses: { P → T → Self → Type 0 };

    /// Why it means nothing.
    ghost misparses: { P → T → DecodeError → Type 0 };

    /// The value that the input means under the parameter.
    ///
    /// # Errors
    /// `OutOfMemory` where memory is refused, and else what is wrong with the input.
    fn parse_with_param(alloc: Global, input: T, parameter: P) -> Result<Self, DecodeError>
        ensures ok { IfOk result (λ x. parses parameter input x) }
        ensures refused { IfErr result (λ e. e ≢ OutOfMemory → misparses parameter input e) };
}
