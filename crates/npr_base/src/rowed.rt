//! Attributes that are read by the rows of a family's table, each by one call.

ghost use Rattle.std.specs.Prelude.{◌≡◌, ℕ, IfOk, IfErr};
ghost use Rattle.npr_base.specs.{
  declared.refusal.DecodeError.{DecodeError},
  Codec.{exactly},
  Framing.{Item, number_of},
  Layout.{Layout, boolean, byte, signed32, signed64, le16, le32, le64, be16, be32, be64, octets, octets4, octets16},
  Refusal.{at_number},
};

use crate::attribute_set::{At, AttributeSet};
use crate::framing::NlaBuffer;
use crate::ip::{Ipv4Addr, Ipv6Addr};
use crate::place::Place;
use crate::refusal::DecodeError;
use crate::values::{
    read_bool, read_i32, read_i64, read_ipv4, read_ipv6, read_octets, read_u8, read_u16,
    read_u16_be, read_u32, read_u32_be, read_u64, read_u64_be,
};

/// A family whose attributes are read by the rows of a table.
pub trait Rowed: Drop {
    /// What an attribute of this number means by the rows.
    ghost reads: { ℕ → Item → Self → Type 0 };

    /// Why it means nothing.
    ghost wrong: { ℕ → Item → DecodeError → Type 0 };
}

/// A value of a fixed number of bytes: a number with the lowest byte first, a truth value, an address, bytes.
pub trait Scalar: Drop {
    /// How it is read and written.
    ghost layout: { Layout Self };

    /// The value that stands at a place.
    ///
    /// # Errors
    /// `ValueLength` at another length.
    fn read_scalar(value: &[u8], at: At) -> Result<Self, DecodeError>
        ensures ok { IfOk result (λ x. (exactly layout).Reads value.now x) }
        ensures refused { IfErr result (λ e. (exactly layout).Wrong at value.now e) };
}

/// A number whose highest byte may stand first.
pub trait BigEndian: Drop {
    /// How it is read and written so.
    ghost big: { Layout Self };

    /// The number that stands at a place so.
    ///
    /// # Errors
    /// `ValueLength` at another length.
    fn read_big(value: &[u8], at: At) -> Result<Self, DecodeError>
        ensures ok { IfOk result (λ x. (exactly big).Reads value.now x) }
        ensures refused { IfErr result (λ e. (exactly big).Wrong at value.now e) };
}

impl Scalar for u8 {
    ghost layout = { byte };

    #[inline(always)]
    fn read_scalar(value: &[u8], at: At) -> Result<Self, DecodeError> {
        read_u8(value, at)
    }
}

impl Scalar for bool {
    ghost layout = { boolean };

    #[inline(always)]
    fn read_scalar(value: &[u8], at: At) -> Result<Self, DecodeError> {
        read_bool(value, at)
    }
}

impl Scalar for i32 {
    ghost layout = { signed32 };

    #[inline(always)]
    fn read_scalar(value: &[u8], at: At) -> Result<Self, DecodeError> {
        read_i32(value, at)
    }
}

impl Scalar for i64 {
    ghost layout = { signed64 };

    #[inline(always)]
    fn read_scalar(value: &[u8], at: At) -> Result<Self, DecodeError> {
        read_i64(value, at)
    }
}

impl Scalar for u16 {
    ghost layout = { le16 };

    #[inline(always)]
    fn read_scalar(value: &[u8], at: At) -> Result<Self, DecodeError> {
        read_u16(value, at)
    }
}

impl Scalar for u32 {
    ghost layout = { le32 };

    #[inline(always)]
    fn read_scalar(value: &[u8], at: At) -> Result<Self, DecodeError> {
        read_u32(value, at)
    }
}

impl Scalar for u64 {
    ghost layout = { le64 };

    #[inline(always)]
    fn read_scalar(value: &[u8], at: At) -> Result<Self, DecodeError> {
        read_u64(value, at)
    }
}

impl Scalar for Ipv4Addr {
    ghost layout = { octets4 };

    #[inline(always)]
    fn read_scalar(value: &[u8], at: At) -> Result<Self, DecodeError> {
        read_ipv4(value, at)
    }
}

impl Scalar for Ipv6Addr {
    ghost layout = { octets16 };

    #[inline(always)]
    fn read_scalar(value: &[u8], at: At) -> Result<Self, DecodeError> {
        read_ipv6(value, at)
    }
}

impl<const N: usize> Scalar for [u8; N] {
    ghost layout = { octets N };

    #[inline(always)]
    fn read_scalar(value: &[u8], at: At) -> Result<Self, DecodeError> {
        read_octets(value, at)
    }
}

impl BigEndian for u16 {
    ghost big = { be16 };

    #[inline(always)]
    fn read_big(value: &[u8], at: At) -> Result<Self, DecodeError> {
        read_u16_be(value, at)
    }
}

impl BigEndian for u32 {
    ghost big = { be32 };

    #[inline(always)]
    fn read_big(value: &[u8], at: At) -> Result<Self, DecodeError> {
        read_u32_be(value, at)
    }
}

impl BigEndian for u64 {
    ghost big = { be64 };

    #[inline(always)]
    fn read_big(value: &[u8], at: At) -> Result<Self, DecodeError> {
        read_u64_be(value, at)
    }
}

/// Puts the variant of the row of a number that has such a value. Asks that the place is ready, that the
/// attribute has the number, and that the row reads such a value as the variant. So the match over the rows
/// has nothing left to prove but what its table says.
///
/// # Errors
/// `ValueLength` at another length.
///
/// # Panics
/// May panic where it is not as asked.
#[inline(always)]
pub fn put_exactly<A: Rowed, T: Scalar, P: Place<A>, V: FnOnce(T) -> A>(
    place: &mut P,
    item: &NlaBuffer<'_>,
    family: AttributeSet,
    number: u16,
    variant: V,
) -> Result<(), DecodeError>
    requires ready { P.ready place.old }
    requires variant { V.IsAlwaysCallable variant }
    requires number { number_of (item.now).kind ≡ number }
    requires row { (x : _) (a : _) → (exactly T.layout).Reads (item.now).value x → V.post variant x a → A.reads number item.now a }
    requires wrong { (e : DecodeError) → (exactly T.layout).Wrong (at_number family number) (item.now).value e → A.wrong number item.now e }
    ensures ok { IfOk result (λ _. (a : A) × P.puts place.old a place.new × A.reads (number_of (item.now).kind) item.now a) }
    ensures refused { IfErr result (λ e. A.wrong (number_of (item.now).kind) item.now e) }
{
    place.put(variant(T::read_scalar(item.value(), family.at(number))?));
    Ok(())
}

/// The same of a number with the highest byte first. Asks the same.
///
/// # Errors
/// `ValueLength` at another length.
///
/// # Panics
/// May panic where it is not as asked.
#[inline(always)]
pub fn put_big<A: Rowed, T: BigEndian, P: Place<A>, V: FnOnce(T) -> A>(
    place: &mut P,
    item: &NlaBuffer<'_>,
    family: AttributeSet,
    number: u16,
    variant: V,
) -> Result<(), DecodeError>
    requires ready { P.ready place.old }
    requires variant { V.IsAlwaysCallable variant }
    requires number { number_of (item.now).kind ≡ number }
    requires row { (x : _) (a : _) → (exactly T.big).Reads (item.now).value x → V.post variant x a → A.reads number item.now a }
    requires wrong { (e : DecodeError) → (exactly T.big).Wrong (at_number family number) (item.now).value e → A.wrong number item.now e }
    ensures ok { IfOk result (λ _. (a : A) × P.puts place.old a place.new × A.reads (number_of (item.now).kind) item.now a) }
    ensures refused { IfErr result (λ e. A.wrong (number_of (item.now).kind) item.now e) }
{
    place.put(variant(T::read_big(item.value(), family.at(number))?));
    Ok(())
}

/// The same of what a number is made into, as an enumeration. Asks the same.
///
/// # Errors
/// `ValueLength` at another length than that of the number.
///
/// # Panics
/// May panic where it is not as asked.
#[inline(always)]
pub fn put_as<A: Rowed, N: Scalar, T: From<N> + Drop, P: Place<A>, V: FnOnce(T) -> A>(
    place: &mut P,
    item: &NlaBuffer<'_>,
    family: AttributeSet,
    number: u16,
    variant: V,
) -> Result<(), DecodeError>
    requires ready { P.ready place.old }
    requires variant { V.IsAlwaysCallable variant }
    requires number { number_of (item.now).kind ≡ number }
    requires row { (n : _) (x : _) (a : _) → (exactly N.layout).Reads (item.now).value n → T.from_gives n x → V.post variant x a → A.reads number item.now a }
    requires wrong { (e : DecodeError) → (exactly N.layout).Wrong (at_number family number) (item.now).value e → A.wrong number item.now e }
    ensures ok { IfOk result (λ _. (a : A) × P.puts place.old a place.new × A.reads (number_of (item.now).kind) item.now a) }
    ensures refused { IfErr result (λ e. A.wrong (number_of (item.now).kind) item.now e) }
{
    place.put(variant(T::from(N::read_scalar(item.value(), family.at(number))?)));
    Ok(())
}

/// What `put_rows` does, for rows without attributes inside: a row of a number is one call. Attributes of
/// the numbers of lists are asked for before, so their arms can't be reached.
#[macro_export]
macro_rules! flat_rows {
    (($place:expr, $alloc:expr, $item:expr $(; $($more:tt)*)?) $family:ident of $at:ident { $($number:tt $variant:ident $(($($codec:tt)+))? $(as $kind:expr)?;)* }) => {
        match $item.kind() {
            $($($more)*)?
            $($number => $crate::flat_row!([$place, $alloc, $item, $at, $number, $family::$variant] $($($codec)+)?),)*
            _ => {
                $place.put($family::Other($crate::DefaultNla::read($alloc, $item)?));
                Ok(())
            }
        }
    };
}

/// A row's part of it.
#[macro_export]
macro_rules! flat_row {
    ([$place:expr, $alloc:expr, $item:expr, $at:ident, $number:tt, $family:ident::$variant:ident]) => {{
        $place.put($family::$variant);
        Ok(())
    }};
    ([$place:expr, $alloc:expr, $item:expr, $at:ident, $number:tt, $family:ident::$variant:ident] list $set:ident) => {
        unreachable!()
    };
    ([$place:expr, $alloc:expr, $item:expr, $at:ident, $number:tt, $family:ident::$variant:ident] byte) => {
        $crate::put_exactly($place, $item, $crate::AttributeSet::$at, $number, $family::$variant)
    };
    ([$place:expr, $alloc:expr, $item:expr, $at:ident, $number:tt, $family:ident::$variant:ident] boolean) => {
        $crate::put_exactly($place, $item, $crate::AttributeSet::$at, $number, $family::$variant)
    };
    ([$place:expr, $alloc:expr, $item:expr, $at:ident, $number:tt, $family:ident::$variant:ident] signed32) => {
        $crate::put_exactly($place, $item, $crate::AttributeSet::$at, $number, $family::$variant)
    };
    ([$place:expr, $alloc:expr, $item:expr, $at:ident, $number:tt, $family:ident::$variant:ident] signed64) => {
        $crate::put_exactly($place, $item, $crate::AttributeSet::$at, $number, $family::$variant)
    };
    ([$place:expr, $alloc:expr, $item:expr, $at:ident, $number:tt, $family:ident::$variant:ident] le16) => {
        $crate::put_exactly($place, $item, $crate::AttributeSet::$at, $number, $family::$variant)
    };
    ([$place:expr, $alloc:expr, $item:expr, $at:ident, $number:tt, $family:ident::$variant:ident] le32) => {
        $crate::put_exactly($place, $item, $crate::AttributeSet::$at, $number, $family::$variant)
    };
    ([$place:expr, $alloc:expr, $item:expr, $at:ident, $number:tt, $family:ident::$variant:ident] le64) => {
        $crate::put_exactly($place, $item, $crate::AttributeSet::$at, $number, $family::$variant)
    };
    ([$place:expr, $alloc:expr, $item:expr, $at:ident, $number:tt, $family:ident::$variant:ident] octets4) => {
        $crate::put_exactly($place, $item, $crate::AttributeSet::$at, $number, $family::$variant)
    };
    ([$place:expr, $alloc:expr, $item:expr, $at:ident, $number:tt, $family:ident::$variant:ident] octets16) => {
        $crate::put_exactly($place, $item, $crate::AttributeSet::$at, $number, $family::$variant)
    };
    ([$place:expr, $alloc:expr, $item:expr, $at:ident, $number:tt, $family:ident::$variant:ident] be16) => {
        $crate::put_big($place, $item, $crate::AttributeSet::$at, $number, $family::$variant)
    };
    ([$place:expr, $alloc:expr, $item:expr, $at:ident, $number:tt, $family:ident::$variant:ident] be32) => {
        $crate::put_big($place, $item, $crate::AttributeSet::$at, $number, $family::$variant)
    };
    ([$place:expr, $alloc:expr, $item:expr, $at:ident, $number:tt, $family:ident::$variant:ident] be64) => {
        $crate::put_big($place, $item, $crate::AttributeSet::$at, $number, $family::$variant)
    };
    ([$place:expr, $alloc:expr, $item:expr, $at:ident, $number:tt, $family:ident::$variant:ident] $of:ident as byte) => {
        $crate::put_as::<_, u8, _, _, _>($place, $item, $crate::AttributeSet::$at, $number, $family::$variant)
    };
    ([$place:expr, $alloc:expr, $item:expr, $at:ident, $number:tt, $family:ident::$variant:ident] $of:ident as le16) => {
        $crate::put_as::<_, u16, _, _, _>($place, $item, $crate::AttributeSet::$at, $number, $family::$variant)
    };
    ([$place:expr, $alloc:expr, $item:expr, $at:ident, $number:tt, $family:ident::$variant:ident] $of:ident as le32) => {
        $crate::put_as::<_, u32, _, _, _>($place, $item, $crate::AttributeSet::$at, $number, $family::$variant)
    };
    ([$place:expr, $alloc:expr, $item:expr, $at:ident, $number:tt, $family:ident::$variant:ident] $($codec:tt)+) => {
        $crate::put_row!([$place, $family::$variant, $alloc, $item.value(), $crate::AttributeSet::$at.at($number), ()] $($codec)+)
    };
}
