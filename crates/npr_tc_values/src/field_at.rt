//! Structures that grew over the years, kept as their bytes.

ghost use Rattle.std.specs.Prelude.{◌≡◌};
ghost use Rattle.npr_tc_values.specs.FieldAt.{field_at, word8};

use npr_base::Block;

/// The number that stands at this place of the bytes, and 0 where they end before its end.
pub fn number_at<T: Block>(bytes: &[u8], at: usize) -> T
    ensures { result ≡ field_at T.width bytes.now at }
{
    if at < bytes.len() && T::size() <= bytes.len() - at {
        T::in_front(&bytes[at..])
    } else {
        T::zero()
    }
}

/// The byte that stands at this place, and 0 where they end before it.
pub fn byte_at(bytes: &[u8], at: usize) -> u8
    ensures { result ≡ field_at word8 bytes.now at }
{
    if at < bytes.len() { bytes[at] } else { 0 }
}
