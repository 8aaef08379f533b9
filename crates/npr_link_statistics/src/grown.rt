//! Structures of numbers of one width that grew over the years.

ghost use Rattle.std.specs.Prelude.{◌≡◌, ◌≤◌, ◌<◌, ◌+◌, ◌*◌, [], length, replicate, IfOk, OnErr};
ghost use Rattle.npr_base.specs.Framing.{Writes};
ghost use Rattle.npr_link_statistics.specs.Grown.{Names, grown, grown_of, numbers_in, parts};

use npr_base::Block;
use std::alloc::{AllocError, Global};

/// A structure of numbers of one width that grew over the years.
///
/// A kernel writes as many numbers as it has. A field that it has no number for is 0 and, with those
/// behind it, missing; numbers behind the last field are kept.
pub trait Grown: Sized {
    /// Its numbers.
    type Number: Block;

    /// Its fields, in the order in which kernels write them.
    ghost names: { Names Self Self.Number };

    /// All fields 0, and none missing. It takes no memory.
    fn new(alloc: Global) -> Self
        ensures { parts names result ≡ record { fields = replicate (length names.fields) Self.Number.width.none; missing = 0; more = [] } };

    /// The structure of the numbers of the bytes, by their places: what `read` answers.
    ///
    /// # Errors
    /// `AllocError` where memory is refused; without numbers behind the fields none is taken.
    fn of_numbers(alloc: Global, bytes: &[u8]) -> Result<Self, AllocError>
        ensures ok { IfOk result (λ x. parts names x ≡ grown_of Self.Number.width.none (length names.fields) (numbers_in Self.Number.width bytes.now)) }
        ensures memory { OnErr result ((length names.fields + 1) * Self.Number.width.layout.size ≤ length bytes.now) };

    /// An equal value.
    ///
    /// # Errors
    /// `AllocError` where memory is refused; without numbers behind the fields none is taken.
    fn try_clone(&self, alloc: Global) -> Result<Self, AllocError>
        ensures ok { IfOk result (λ x. parts names x ≡ parts names self.now) }
        ensures memory { OnErr result (0 < length (names.more self.now)) };

    /// The length of the bytes.
    fn len(&self) -> usize
        ensures { result ≡ length ((grown Self.Number.width names).encode (parts names self.now)) };

    /// Writes the fields but those that are missing, and the numbers behind them, at the front of the
    /// slice, leaves the rest, and answers their length. Asks for room of it.
    ///
    /// # Panics
    /// May panic where it is not as asked.
    fn write(&self, out: &mut [u8]) -> usize
        requires { length ((grown Self.Number.width names).encode (parts names self.now)) ≤ length out.old }
        ensures len { result ≡ length ((grown Self.Number.width names).encode (parts names self.now)) }
        ensures after { Writes out.old out.new ((grown Self.Number.width names).encode (parts names self.now)) };

    /// The structure that the bytes are; what is left at the end and too short for a number is dropped.
    ///
    /// # Errors
    /// `AllocError` where memory is refused; without numbers behind the fields none is taken.
    final fn read(alloc: Global, bytes: &[u8]) -> Result<Self, AllocError>
        ensures ok { IfOk result (λ x. (grown Self.Number.width names).Reads bytes.now (parts names x)) }
        ensures memory { OnErr result ((length names.fields + 1) * Self.Number.width.layout.size ≤ length bytes.now) }
    {
        Self::of_numbers(alloc, bytes)
    }
}

/// The fields of a structure, from its list of them.
#[macro_export]
macro_rules! listed {
    (($from:expr) $of:ident { $($name:ident,)* }) => {
        [$($from.$name),*]
    };
}

/// The structure of these fields.
#[macro_export]
macro_rules! filled {
    (($fields:expr, $missing:expr, $more:expr) $of:ident { $($name:ident,)* }) => {{
        let [$($name),*] = $fields;
        $of {
            $($name,)*
            missing: $missing,
            more: $more,
        }
    }};
}
