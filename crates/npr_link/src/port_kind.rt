//! The kind of a link that controls a port: `IFLA_INFO_SLAVE_KIND` of `linux/if_link.h`, by the names of the kernel's drivers.

ghost use Rattle.std.specs.Prelude.{◌≡◌, ◌≢◌, ◌≤◌, ◌+◌, ℕ, List, Some, length, IfOk, IfErr, IsErrOf, OnErr};
ghost use Rattle.{
  npr_base.specs.{declared.refusal.DecodeError.TheVariants.{OutOfMemory}, Framing.{Writes}, Refusal.{no_place}},
  npr_link.specs.{Kinds.{IsKnown, TakesMemory, other, kind_in, kind_name}, PortKind.{port_kind_of, port_kind_names, port_kind, form_named}},
};

use crate::{name_of_variant, variant_cloned, variant_of_name};
use npr_base::{At, DecodeError, without_zero, write_name};
use std::alloc::{AllocError, Global};
use std::fmt;
use std::str::from_utf8;

/// The kind of a link that controls a port, by its name.
#[derive(Debug, Drop, PartialEq, Eq)]
pub enum InfoPortKind {
    /// `bridge`: a bridge.
    Bridge,
    /// `vrf`: a routing domain.
    Vrf,
    /// `bond`: a bond.
    Bond,
    /// Any other name.
    Other(String),
}

/// What governs the data of a port: the kinds whose data have a family.
#[derive(Clone, Copy, Debug, PartialEq, Eq)]
pub enum InfoPortForm {
    /// Data that are kept as they stand.
    Kept = 0,
    /// The data of `bridge`.
    Bridge = 1,
    /// The data of `vrf`.
    Vrf = 2,
    /// The data of `bond`.
    Bond = 3,
}

/// Their names.
macro_rules! names {
    ($body:ident ($($given:tt)*)) => {
        $body!(($($given)*) InfoPortKind {
            "bridge" Bridge;
            "vrf" Vrf;
            "bond" Bond;
        })
    };
}

/// What governs data, by the names of the kinds.
macro_rules! forms {
    ($body:ident ($($given:tt)*)) => {
        npr_base::$body!(($($given)*) InfoPortForm {
            "bridge" Bridge;
            "vrf" Vrf;
            "bond" Bond;
        })
    };
}

/// The kind that has this name.
fn known(text: &str) -> Option<InfoPortKind>
    ensures { IsKnown port_kind_of port_kind_names text.now result }
{
    names!(variant_of_name(text))
}

/// The kind of this name.
///
/// # Errors
/// `AllocError` where memory is refused, which is taken for a name that is not known alone.
fn named(alloc: Global, text: &str) -> Result<InfoPortKind, AllocError>
    ensures ok { IfOk result (λ x. port_kind_of x ≡ kind_in port_kind_names text.now) }
    ensures memory { OnErr result (kind_in port_kind_names text.now ≡ other text.now) }
{
    match known(text) {
        Some(kind) => Ok(kind),
        None => String::from_str(alloc, text).map(InfoPortKind::Other),
    }
}

/// What governs data under a kind of this name.
pub(crate) fn form_of_name(name: &[u8]) -> InfoPortForm
    ensures { result ≡ form_named name.now }
{
    forms!(form_of_kind(name))
}

impl InfoPortKind {
    /// The kind of a name, with one final zero taken off where there is one.
    ///
    /// # Errors
    /// `NotUtf8`, and `OutOfMemory` where memory is refused.
    pub fn parse(alloc: Global, bytes: &[u8]) -> Result<Self, DecodeError>
        ensures ok { IfOk result (λ x. port_kind.Reads bytes.now (port_kind_of x)) }
        ensures refused { IfErr result (λ e. e ≢ OutOfMemory → port_kind.Wrong no_place bytes.now e) }
        ensures memory { IsErrOf result OutOfMemory → TakesMemory port_kind_names bytes.now }
    {
        Self::read(alloc, bytes, At::NO_PLACE)
    }

    /// The kind of a name at a place.
    pub(crate) fn read(alloc: Global, bytes: &[u8], at: At) -> Result<Self, DecodeError>
        ensures ok { IfOk result (λ x. port_kind.Reads bytes.now (port_kind_of x)) }
        ensures refused { IfErr result (λ e. e ≢ OutOfMemory → port_kind.Wrong at bytes.now e) }
        // Memory is taken for a name that is not known alone.
        ensures memory { IsErrOf result OutOfMemory → TakesMemory port_kind_names bytes.now }
    {
        match from_utf8(without_zero(bytes)) {
            Ok(text) => Ok(named(alloc, text)?),
            Err(_) => Err(DecodeError::NotUtf8 { at }),
        }
    }

    /// The name.
    pub fn name(&self) -> &str
        ensures { result.now ≡ kind_name (port_kind_of self.now) }
    {
        names!(name_of_variant(self))
    }

    /// What governs data under it.
    pub fn form(&self) -> InfoPortForm
        ensures { result ≡ form_named (kind_name (port_kind_of self.now)) }
    {
        form_of_name(self.name().as_bytes())
    }

    /// An equal kind.
    ///
    /// # Errors
    /// `AllocError` where memory is refused, which is taken for a name that is not known alone.
    pub fn try_clone(&self, alloc: Global) -> Result<Self, AllocError>
        ensures ok { IfOk result (λ x. port_kind_of x ≡ port_kind_of self.now) }
        ensures memory { OnErr result ((text : List ℕ) × (port_kind_of self.now ≡ other text)) }
    {
        names!(variant_cloned(self, alloc))
    }

    /// The length of the name with its zero.
    pub(crate) fn len(&self) -> usize
        ensures { result ≡ length (port_kind.encode (port_kind_of self.now)) }
    {
        self.name().len() + 1
    }

    /// Writes the name and its zero at the front of the slice, leaves the rest, and answers their length.
    pub(crate) fn write(&self, out: &mut [u8]) -> usize
        requires { length (port_kind.encode (port_kind_of self.now)) ≤ length out.old }
        ensures len { result ≡ length (port_kind.encode (port_kind_of self.now)) }
        ensures after { Writes out.old out.new (port_kind.encode (port_kind_of self.now)) }
    {
        write_name(self.name(), out)
    }
}

/// The name.
impl fmt::Display for InfoPortKind {
    ghost output = { λ x. Some (kind_name (port_kind_of x)) };

    fn fmt<W: fmt::Write>(&self, f: &mut fmt::Formatter<W>) -> fmt::Result {
        f.write_str(self.name())
    }
}
