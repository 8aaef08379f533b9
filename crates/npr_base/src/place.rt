//! Places that values are put into, as they are read.

ghost use Rattle.std.specs.Prelude.{◌≡◌, ◌<◌, [], ◌∷◌, ◌++◌, Some, Ok, Err, IfOk, IfErr, vec_len, vec_capacity};
ghost use Rattle.npr_base.specs.IpCodec.{ip};

use crate::attribute_set::At;
use crate::ip::{IpAddr, Ipv6Addr};
use crate::refusal::DecodeError;
use crate::values::{borrow_octets, read_ipv4};

/// A place that takes a value. Variants that are put into it one by one don't meet before in a value
/// of their type, which would be moved by pieces that wait for each other.
pub trait Place<A> {
    /// Whether it takes one.
    ghost ready: { Self → Type 0 };

    /// What it is with the value in it.
    ghost puts: { Self → A → Self → Type 0 };

    /// Puts the value into it. Asks that it is ready: a list for room.
    ///
    /// # Panics
    /// May panic where it is not as asked.
    fn put(&mut self, value: A)
        requires { ready self.old }
        ensures { puts self.old value self.new };
}

/// A list takes it behind its last, where there is room.
impl<A> Place<A> for Vec<A> {
    ghost ready = { λ list. vec_len list < vec_capacity list };

    ghost puts = { λ list value new. new.items ≡ list.items ++ value ∷ [] };

    #[inline(always)]
    fn put(&mut self, value: A) {
        self.push_reserved(value);
    }
}

/// An option takes it in the place of its own.
impl<A: Drop> Place<A> for Option<A> {
    ghost ready = { λ _. Unit {0} };

    ghost puts = { λ _ value new. new ≡ Some value };

    #[inline(always)]
    fn put(&mut self, value: A) {
        *self = Some(value);
    }
}

/// Puts the variant that holds what was read. Asks that the place is ready, and that the variant can
/// be called with any value.
///
/// # Errors
/// The refusal, where nothing was read.
///
/// # Panics
/// May panic where it is not as asked.
#[inline(always)]
pub fn put_read<A, T, P: Place<A>, V: FnOnce(T) -> A>(
    place: &mut P,
    read: Result<T, DecodeError>,
    variant: V,
) -> Result<(), DecodeError>
    requires ready { P.ready place.old }
    requires variant { V.IsAlwaysCallable variant }
    ensures ok { IfOk result (λ _. (x : _) × (a : _) × (read ≡ Ok x) × V.post variant x a × P.puts place.old a place.new) }
    ensures refused { IfErr result (λ e. read ≡ Err e) }
{
    place.put(variant(read?));
    Ok(())
}

/// Puts the variant that holds an address, of version 4 in 4 bytes or of version 6 in 16. Asks that
/// the place is ready, and that the variant can be called with any value.
///
/// # Errors
/// `ValueLength` at another length.
///
/// # Panics
/// May panic where it is not as asked.
#[inline(always)]
pub fn put_ip<A, P: Place<A>, V: FnOnce(IpAddr) -> A>(
    place: &mut P,
    value: &[u8],
    at: At,
    variant: V,
) -> Result<(), DecodeError>
    requires ready { P.ready place.old }
    requires variant { V.IsAlwaysCallable variant }
    ensures ok { IfOk result (λ _. (address : _) × (a : _) × ip.Reads value.now address × V.post variant address a × P.puts place.old a place.new) }
    ensures refused { IfErr result (λ e. ip.Wrong at value.now e) }
{
    if value.len() == 4 {
        place.put(variant(IpAddr::V4(read_ipv4(value, at)?)));
    } else {
        let octets = borrow_octets(value, at)?;
        place.put(variant(IpAddr::V6(Ipv6Addr::from(*octets))));
    }
    Ok(())
}
