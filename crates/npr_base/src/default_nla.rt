//! An attribute that is kept as it stands.

ghost use Rattle.std.specs.{Prelude.{◌≡◌, None, IfOk, IfErr, false}, Cmp.{decided, partial_equiv_from_equiv}};
ghost use Rattle.npr_base.specs.{declared.refusal.DecodeError.TheVariants.{OutOfMemory}, Framing.{Item}, ViewEquality.{same_item, item_equality}, Text.{nla_text}};

use crate::framing::NlaBuffer;
use crate::refusal::{DecodeError, EmitError};
use crate::traits::{Nla, Parseable};
use crate::values::write_bytes;
use std::alloc::{AllocError, Global};
use std::fmt;
use std::marker::Model;

/// An attribute that is kept as it stands: all 16 bits of its kind, and its value.
#[derive(Drop)]
pub struct DefaultNla {
    kind: u16,
    value: Vec<u8>,
}

impl Model for DefaultNla {
    ghost Value = { Item };

    ghost view = { λ d. record { kind = d.kind; value = d.value.items } };
}

impl DefaultNla {
    /// An attribute of this kind, with both flags, and this value.
    pub fn new(kind: u16, value: Vec<u8>) -> Self
        ensures { result ≡ record { kind = kind; value = value.items } }
    {
        DefaultNla { kind, value }
    }

    /// The attribute as it stands.
    ///
    /// # Errors
    /// `OutOfMemory` where memory is refused.
    pub fn read(alloc: Global, item: &NlaBuffer<'_>) -> Result<Self, DecodeError>
        ensures ok { IfOk result (λ d. d ≡ item.now) }
        ensures refused { IfErr result (λ e. e ≡ OutOfMemory) }
    {
        Ok(DefaultNla {
            kind: item.raw_kind(),
            value: Vec::from_slice(alloc, item.value())?,
        })
    }

    /// The value, without header and padding.
    pub fn value(&self) -> &[u8]
        ensures { result.now ≡ self.now.value }
    {
        self.value.as_slice()
    }

    /// An equal attribute.
    ///
    /// # Errors
    /// `AllocError` where memory is refused.
    pub fn try_clone(&self, alloc: Global) -> Result<Self, AllocError>
        ensures { IfOk result (λ d. d ≡ self.now) }
    {
        Ok(DefaultNla {
            kind: self.kind,
            value: Vec::from_slice(alloc, self.value.as_slice())?,
        })
    }
}

/// The kind with both flags, and the bytes of the value, as numbers. This is also its part in the
/// printed text of a list that holds it.
impl fmt::Debug for DefaultNla {
    ghost debug_output = { nla_text };

    fn fmt<W: fmt::Write>(&self, f: &mut fmt::Formatter<W>) -> fmt::Result {
        let value = self.value.as_slice();
        write!(f, "DefaultNla {{ kind: {}, value: {value:?} }}", self.kind)
    }
}

impl PartialEq for DefaultNla {
    ghost eq = { same_item };

    ghost laws = { partial_equiv_from_equiv (decided same_item item_equality) };

    fn eq(&self, other: &DefaultNla) -> bool {
        self.kind == other.kind && self.value == other.value
    }
}

impl Eq for DefaultNla {
    ghost laws = { decided same_item item_equality };
}

impl<'a> Parseable<&'a NlaBuffer<'a>> for DefaultNla {
    ghost parses = { λ input d. d ≡ input.now };

    ghost misparses = { λ input e. ⊥ };

    fn parse(alloc: Global, input: &'a NlaBuffer<'a>) -> Result<Self, DecodeError> {
        DefaultNla::read(alloc, input)
    }
}

impl Nla for DefaultNla {
    ghost shape = { λ d. record { item = d; nested = false; unfit = None } };

    fn kind(&self) -> u16 {
        self.kind
    }

    fn is_nested(&self) -> bool {
        false
    }

    fn check_value(&self) -> Result<usize, EmitError> {
        Ok(self.value.len())
    }

    fn write_value(&self, out: &mut [u8]) -> usize {
        write_bytes(self.value.as_slice(), out)
    }
}
