//! One step over next hops that stand one after the other.

ghost use Rattle.npr_c.specs.NextHops.{HopsAt};

use crate::answer::refusal_number;
use netlink_packet_route::route::{NEXT_HOP_HEADER_SIZE, RTNH_ALIGNTO, RouteNextHopBuffer};

/// What a step over next hops answers.
///
/// Layout: three numbers of 4 bytes, two of a byte each, and three of the machine's word, in this
/// order.
#[repr(C)]
#[derive(Clone, Copy)]
pub struct NextHop {
    /// 0 where a next hop is found, 1 where none stands, 2 at the end of the bytes.
    pub status: u32,
    /// The number of the refusal at status 1, and else 0.
    pub number: u32,
    /// The index of its interface; 0 unless the status is 0.
    pub interface_index: u32,
    /// `RTNH_F_*`; 0 unless the status is 0.
    pub flags: u8,
    /// Its weight less one; 0 unless the status is 0.
    pub hops: u8,
    /// Where its attributes begin, in bytes from the first; 0 unless the status is 0.
    pub attributes: usize,
    /// Where they end, in bytes from the first; 0 unless the status is 0.
    pub end: usize,
    /// Where the next one begins, in bytes from the first, or how many bytes there are; 0 unless
    /// the status is 0.
    pub next: usize,
}

const NOTHING: NextHop = NextHop {
    status: 0,
    number: 0,
    interface_index: 0,
    flags: 0,
    hops: 0,
    attributes: 0,
    end: 0,
    next: 0,
};

const END: NextHop = NextHop {
    status: 2,
    ..NOTHING
};

/// The next hop that begins `at` bytes from the first, or why there is none. At the length of the
/// bytes, and past it, is their end. Its attributes are not looked at. It takes no memory.
#[unsafe(no_mangle)]
pub extern "C" fn npr_next_hop_at(bytes: &[u8], at: usize) -> NextHop
    ensures { HopsAt bytes.now at result }
{
    if at >= bytes.len() {
        return END;
    }
    let left = &bytes[at..];
    match RouteNextHopBuffer::new_checked(left) {
        Ok(header) => {
            let length = header.length as usize;
            let whole = length.next_multiple_of(RTNH_ALIGNTO).min(left.len());
            NextHop {
                interface_index: header.interface_index,
                flags: header.flags,
                hops: header.hops,
                attributes: at + NEXT_HOP_HEADER_SIZE,
                end: at + length,
                next: at + whole,
                ..NOTHING
            }
        }
        Err(fault) => NextHop {
            status: 1,
            number: refusal_number(fault),
            ..NOTHING
        },
    }
}
