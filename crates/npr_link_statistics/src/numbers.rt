//! Numbers of one width, one behind the other.

ghost use Rattle.std.specs.Prelude.{◌≡◌, ◌≤◌, ◌<◌, ◌+◌, ◌*◌, ◌-◌, ◌^◌, List, drop, length, slice_get, IfOk, OnErr};
ghost use Rattle.npr_base.specs.{Blocks.{block_bytes}, Framing.{Writes}};
ghost use Rattle.npr_link_statistics.specs.Grown.{filled, grown_of, number_or, numbers_in, numbers_of};

use npr_base::{Block, read_blocks, write_blocks};
use std::alloc::{AllocError, Global};

/// Reads the numbers of the bytes into the fields, 0 for each that there is none for, and answers how many
/// fields that are, and the numbers behind the fields.
///
/// # Errors
/// `AllocError` where memory is refused; without numbers behind the fields none is taken.
pub fn read_grown<T: Block>(
    alloc: Global,
    bytes: &[u8],
    fields: &mut [T],
) -> Result<(usize, Vec<T>), AllocError>
    ensures ok { IfOk result (λ rest. record { fields = fields.new; missing = rest.0; more = rest.1.items } ≡ grown_of T.width.none (length fields.old) (numbers_in T.width bytes.now)) }
    ensures memory { OnErr result ((length fields.old + 1) * T.width.layout.size ≤ length bytes.now) }
{
    read_front(bytes, fields);
    let more = numbers_behind(alloc, bytes, fields.len())?;
    Ok((missing_of::<T>(bytes, fields.len()), more))
}

/// Reads the first numbers of the bytes into the slice, and 0 for each that there is not.
fn read_front<T: Block>(bytes: &[u8], fields: &mut [T])
    ensures { fields.new ≡ filled T.width.none (length fields.old) 0 (numbers_in T.width bytes.now) }
{
    for at in 0..fields.len() {
        fields[at] = number_at(bytes, at);
    }
}

/// The number at this place of the bytes, and 0 where they end before it.
fn number_at<T: Block>(bytes: &[u8], at: usize) -> T
    ensures { result ≡ number_or T.width.none (slice_get (numbers_in T.width bytes.now) at) }
{
    if at < bytes.len() / T::size() {
        T::in_front(&bytes[at * T::size()..])
    } else {
        T::zero()
    }
}

/// How many of so many numbers the bytes do not have.
fn missing_of<T: Block>(bytes: &[u8], fields: usize) -> usize
    ensures { result ≡ fields - length (numbers_in T.width bytes.now) }
{
    fields.saturating_sub(bytes.len() / T::size())
}

/// The numbers behind so many.
///
/// # Errors
/// `AllocError` where memory is refused; where there are none none is taken.
fn numbers_behind<T: Block>(
    alloc: Global,
    bytes: &[u8],
    fields: usize,
) -> Result<Vec<T>, AllocError>
    ensures ok { IfOk result (λ numbers. numbers.items ≡ drop fields (numbers_in T.width bytes.now)) }
    ensures memory { OnErr result ((fields + 1) * T.width.layout.size ≤ length bytes.now) }
{
    if bytes.len() / T::size() <= fields {
        return Ok(Vec::new(alloc));
    }
    read_blocks(alloc, &bytes[fields * T::size()..])
}

/// The numbers, copied.
///
/// # Errors
/// `AllocError` where memory is refused; without numbers none is taken.
pub fn copy_numbers<T: Block>(alloc: Global, numbers: &[T]) -> Result<Vec<T>, AllocError>
    ensures ok { IfOk result (λ copy. copy.items ≡ numbers.now) }
    ensures memory { OnErr result (0 < length numbers.now) }
{
    if numbers.is_empty() {
        return Ok(Vec::new(alloc));
    }
    Vec::from_slice(alloc, numbers)
}

/// The length of so many fields but the last that are missing, and of the numbers behind them, in bytes.
/// Asks that it is below 2 to the 64.
///
/// # Panics
/// May panic where it is not as asked.
pub fn grown_len<T: Block>(fields: usize, missing: usize, more: &[T]) -> usize
    requires { (fields + length more.now) * T.width.layout.size < 2 ^ 64 }
    ensures { (xs : List T) → length xs ≡ fields → result ≡ length (block_bytes T.width.layout (numbers_of fields (record { fields = xs; missing = missing; more = more.now }))) }
{
    (fields.saturating_sub(missing) + more.len()) * T::size()
}

/// Writes the fields but the last that are missing, and the numbers behind them, at the front of the
/// slice, leaves the rest, and answers their length. Asks for room of it.
///
/// # Panics
/// May panic where it is not as asked.
pub fn write_grown<T: Block>(fields: &[T], missing: usize, more: &[T], out: &mut [u8]) -> usize
    requires { length (block_bytes T.width.layout (numbers_of (length fields.now) (record { fields = fields.now; missing = missing; more = more.now }))) ≤ length out.old }
    ensures len { result ≡ length (block_bytes T.width.layout (numbers_of (length fields.now) (record { fields = fields.now; missing = missing; more = more.now }))) }
    ensures after { Writes out.old out.new (block_bytes T.width.layout (numbers_of (length fields.now) (record { fields = fields.now; missing = missing; more = more.now }))) }
{
    let at = write_blocks(&fields[..fields.len().saturating_sub(missing)], out);
    at + write_blocks(more, &mut out[at..])
}
