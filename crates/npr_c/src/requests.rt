//! Requests, written into a buffer of the caller's: attributes, and headers of a fixed size. Nothing takes
//! memory, and nothing is kept between calls.

ghost use Rattle.std.specs.Prelude.{◌≡◌, ◌≤◌, ◌+◌, ◌++◌, length, replicate, IfErr, IfOk};
ghost use Rattle.{
  netlink_packet_route.specs.Framing.{encoding, framed, pad},
  npr_c.specs.{Requests.{CopiesAt, NoRoom, PutsAt, put_step}, Steps.{FoundAt, item_of}},
};

use crate::answer::Answer;
use netlink_packet_route::framing::{EmitError, NLA_ALIGNTO, NLA_HEADER_SIZE};
use npr_base::{frame, framed_len, write_bytes, write_zeros};

/// The place behind so many bytes at a place, in a buffer of this length.
///
/// # Errors
/// The answer where they have no room.
fn place_behind(room: usize, at: usize, count: usize) -> Result<usize, Answer>
    ensures ok { IfOk result (λ end. (end ≡ at + count) × (end ≤ room)) }
    ensures none { IfErr result (λ answer. NoRoom room at count answer) }
{
    match at.checked_add(count) {
        None => Err(Answer::unfit(EmitError::Total)),
        Some(end) if end > room => Err(Answer::short(end)),
        Some(end) => Ok(end),
    }
}

/// Fills a place with an attribute.
fn fill_attribute(place: &mut [u8], kind: u16, value: &[u8])
    requires short { length value.now ≤ 65531 }
    requires size { length place.old ≡ framed (length value.now) }
    ensures { place.new ≡ encoding (record { kind = kind; value = value.now }) }
{
    write_bytes(value, &mut place[NLA_HEADER_SIZE..]);
    frame(place, kind, value.len());
}

/// Writes an attribute that begins `at` bytes from the first of the buffer, and answers the place
/// behind it. At another answer the buffer is as it was.
///
/// Layout (`linux/netlink.h`, `struct nlattr`), little endian: the length of header and value in 2
/// bytes, the kind with its flags in 2 bytes, the value, and zeros to a multiple of 4.
///
/// # Errors
/// `TooLong` where the value has more than 65,531 bytes, and `Total` where no number holds the place
/// behind it; the room that is wanted where there is less.
#[unsafe(no_mangle)]
pub extern "C" fn npr_put_at(out: &mut [u8], at: usize, kind: u16, value: &[u8]) -> Answer
    ensures answer { PutsAt out.old out.new at (record { kind = kind; value = value.now }) result }
    // It is read there,
    ensures found { result.status ≡ 0 → FoundAt out.new at (put_step at kind (length value.now) result.length) }
    // as it was put.
    ensures inside { result.status ≡ 0 → item_of out.new (put_step at kind (length value.now) result.length) ≡ record { kind = kind; value = value.now } }
{
    let Some(size) = framed_len(value.len()) else {
        return Answer::unfit(EmitError::TooLong {
            kind,
            len: value.len(),
        });
    };
    match place_behind(out.len(), at, size) {
        Err(answer) => answer,
        Ok(end) => {
            fill_attribute(&mut out[at..end], kind, value);
            Answer::written(end)
        }
    }
}

/// Fills a place with bytes, and zeros behind them.
fn fill_padded(place: &mut [u8], bytes: &[u8])
    requires { length place.old ≡ length bytes.now + pad (length bytes.now) }
    ensures { place.new ≡ bytes.now ++ replicate (pad (length bytes.now)) 0 }
{
    let count = bytes.len();
    let padding = place.len() - count;
    write_bytes(bytes, place);
    write_zeros(padding, &mut place[count..]);
}

/// Writes a header of a fixed size (`struct nlmsghdr`, `struct rtmsg`, `struct rtnexthop` and their like)
/// `at` bytes from the first of the buffer, and zeros to a multiple of 4 bytes behind it, and answers the
/// place behind them. At another answer the buffer is as it was.
///
/// # Errors
/// `Total` where no number holds the place behind it; the room that is wanted where there is less.
#[unsafe(no_mangle)]
pub extern "C" fn npr_copy_at(out: &mut [u8], at: usize, bytes: &[u8]) -> Answer
    ensures { CopiesAt out.old out.new at bytes.now result }
{
    let padding = (NLA_ALIGNTO - bytes.len() % NLA_ALIGNTO) % NLA_ALIGNTO;
    match place_behind(out.len(), at, bytes.len() + padding) {
        Err(answer) => answer,
        Ok(end) => {
            fill_padded(&mut out[at..end], bytes);
            Answer::written(end)
        }
    }
}
