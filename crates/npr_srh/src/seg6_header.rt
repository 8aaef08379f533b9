//! SEG6's routing header of segments, behind its mode (RFC 8754; `linux/seg6.h`).

ghost use Rattle.std.specs.{Prelude.{◌≡◌, ◌≢◌, ◌≤◌, ◌*◌, ◌/◌, ◌%◌, None, length, take, reverse, [], Err, IfOk, IfErr}, List.{concat}};
ghost use Rattle.{
  npr_base.specs.{
    Table.{shape_at, slot_plain},
    Codec.{leading},
    Framing.{Writes},
    Refusal.{no_place},
    declared.refusal.DecodeError.TheVariants.{OutOfMemory, Seg6Header as Refused},
  },
  npr_srh.specs.{
    Seg6.{Seg6, message, seg6_of, normalized, IsSeg6, IsKey, HasFront, Seg6Wrong, front_of, key_bytes, body_bytes, key_eights, most_segments},
    Seg6Codec.{seg6},
  },
};

use crate::seg6_mode::Seg6Mode;
use crate::segments::check_header;
use npr_base::{
    DecodeError, EmitError, Ipv6Addr, Nla, Seg6Fault, leading_octets, octets_at, read_v6_list,
    write_array,
};
use std::alloc::{AllocError, Global};

/// The layout of the mode and of the fixed part of the routing header behind it: 12 bytes, little
/// endian (`struct seg6_iptunnel_encap` of `linux/seg6_iptunnel.h`, `struct ipv6_sr_hdr` of
/// `linux/seg6.h`).
#[derive(Clone, Copy, Debug, PartialEq, Eq)]
pub struct Seg6MessageBuffer {
    /// `SEG6_IPTUN_MODE_*` of `linux/seg6_iptunnel.h`.
    pub mode: u32,
    /// The number of the header behind.
    pub nexthdr: u8,
    /// The length, in units of 8 bytes behind the first.
    pub hdrlen: u8,
    /// The type of routing header, 4 for SEG6.
    pub seg_type: u8,
    /// How many segments are still to be visited.
    pub segments_left: u8,
    /// The index of the last segment in the list.
    pub first_segment: u8,
    /// `SR6_FLAG1_*` of `linux/seg6.h`.
    pub flags: u8,
    /// What packets are grouped by.
    pub tag: u16,
}

impl Seg6MessageBuffer {
    /// The layout in the first 12 bytes; more are not looked at.
    ///
    /// # Errors
    /// `HeaderTooShort` below 12 bytes.
    pub fn parse(bytes: &[u8]) -> Result<Self, DecodeError>
        ensures ok { IfOk result (λ b. (leading message).Reads bytes.now b) }
        ensures refused { IfErr result (λ e. (leading message).Wrong no_place bytes.now e) }
    {
        let b = leading_octets(bytes, 12)?;
        Ok(Seg6MessageBuffer {
            mode: u32::from_le_bytes(octets_at(b, 0)),
            nexthdr: b[4],
            hdrlen: b[5],
            seg_type: b[6],
            segments_left: b[7],
            first_segment: b[8],
            flags: b[9],
            tag: u16::from_le_bytes(octets_at(b, 10)),
        })
    }

    /// The 12 bytes of the layout.
    pub fn to_bytes(&self) -> [u8; 12]
        ensures { result ≡ message.encode self.now }
    {
        let [m0, m1, m2, m3] = self.mode.to_le_bytes();
        let [t0, t1] = self.tag.to_le_bytes();
        [
            m0,
            m1,
            m2,
            m3,
            self.nexthdr,
            self.hdrlen,
            self.seg_type,
            self.segments_left,
            self.first_segment,
            self.flags,
            t0,
            t1,
        ]
    }
}

/// `SEG6_IPTUNNEL_SRH` of `linux/seg6_iptunnel.h`.
pub(crate) const SEG6_IPTUNNEL_SRH: u16 = 1;

/// A SEG6 header (RFC 8754): how it is put in, and the segments in the order in which they are
/// visited, the reverse of the wire.
#[derive(Debug, Drop, PartialEq, Eq)]
pub struct Seg6Header {
    /// How it is put in.
    pub mode: Seg6Mode,
    /// The segments, the first one first.
    pub segments: Vec<Ipv6Addr>,
    /// The number of the key, where the header ends in an HMAC.
    pub hmac: Option<u32>,
}

fn refused<T>(fault: Seg6Fault) -> Result<T, DecodeError>
    ensures { result ≡ Err (Refused fault) }
{
    Err(DecodeError::Seg6Header { fault })
}

/// The layout in front, and how many bytes of addresses follow it.
///
/// # Errors
/// `Seg6Header` with the first fault.
fn read_front(value: &[u8]) -> Result<(Seg6MessageBuffer, usize), DecodeError>
    ensures ok { IfOk result (λ r. HasFront value.now r.0 r.1) }
    ensures refused { IfErr result (λ e. Seg6Wrong value.now e) }
{
    let Ok(front) = Seg6MessageBuffer::parse(value) else {
        return refused(Seg6Fault::Short);
    };
    let len = 8 * (front.hdrlen as usize + 1);
    let hmac = 40 * (front.flags as usize / 8 % 2);
    if value.len() < 4 + len {
        return refused(Seg6Fault::Length);
    }
    if hmac == 40 && len < 48 {
        return refused(Seg6Fault::Hmac);
    }
    let segments = len - (8 + hmac);
    if segments % 16 != 0 {
        return refused(Seg6Fault::Segments);
    }
    Ok((front, segments))
}

/// The number of the key, which stands behind the addresses where the flags say so.
fn read_key(flags: u8, rest: &[u8]) -> Option<u32>
    requires { 40 * (flags / 8 % 2) ≤ length rest.now }
    ensures { IsKey (take (40 * (flags / 8 % 2)) rest.now) result }
{
    if flags / 8 % 2 == 1 {
        Some(u32::from_be_bytes([rest[4], rest[5], rest[6], rest[7]]))
    } else {
        None
    }
}

impl Seg6Header {
    /// The header that the value of an attribute is.
    ///
    /// # Errors
    /// `OutOfMemory` where memory is refused, and else `Seg6Header` with the first fault.
    pub(crate) fn read(alloc: Global, value: &[u8]) -> Result<Self, DecodeError>
        ensures ok { IfOk result (λ h. IsSeg6 value.now (seg6_of h)) }
        ensures refused { IfErr result (λ e. e ≢ OutOfMemory → Seg6Wrong value.now e) }
    {
        let (front, len) = read_front(value)?;
        let mut segments = read_v6_list(alloc, &value[12..12 + len])?;
        segments.reverse();
        Ok(Seg6Header {
            mode: Seg6Mode::from(front.mode),
            segments,
            hmac: read_key(front.flags, &value[12 + len..]),
        })
    }

    /// Whether the value of an attribute is a header. It takes no memory.
    ///
    /// # Errors
    /// `Seg6Header` with the first fault.
    pub fn check_value(value: &[u8]) -> Result<(), DecodeError>
        ensures ok { IfOk result (λ _. (h : Seg6) × IsSeg6 value.now h) }
        ensures refused { IfErr result (λ e. Seg6Wrong value.now e) }
    {
        read_front(value)?;
        Ok(())
    }

    /// A header of the default mode, with no segments and no key. It takes no memory.
    pub fn new(alloc: Global) -> Self
        ensures { seg6_of result ≡ record { mode = Seg6Mode.Inline; segments = []; hmac = None } }
    {
        Seg6Header {
            mode: Seg6Mode::default(),
            segments: Vec::new(alloc),
            hmac: None,
        }
    }

    /// An equal header.
    ///
    /// # Errors
    /// `AllocError` where memory is refused.
    pub fn try_clone(&self, alloc: Global) -> Result<Self, AllocError>
        ensures { IfOk result (λ h. seg6_of h ≡ seg6_of self.now) }
    {
        Ok(Seg6Header {
            segments: Vec::from_slice(alloc, self.segments.as_slice())?,
            ..*self
        })
    }

    /// Gives the mode the name that its number has today, where the value is of a time in which it
    /// had none (`docs/CHANGES.md`). What is written stays the same.
    pub fn normalize(&mut self)
        ensures { seg6_of self.new ≡ normalized (seg6_of self.old) }
    {
        self.mode = Seg6Mode::from(u32::from(self.mode));
    }

    /// So many segments fit: with a key 125, and else 127.
    fn most_segments(&self) -> usize
        ensures { result ≡ most_segments self.now.hmac }
    {
        match self.hmac {
            None => 127,
            Some(_) => 125,
        }
    }

    /// The length of the HMAC, in bytes.
    fn hmac_len(&self) -> usize
        ensures { result ≡ 8 * key_eights self.now.hmac }
    {
        match self.hmac {
            None => 0,
            Some(_) => 40,
        }
    }

    /// The layout that is written in front.
    fn front(&self) -> [u8; 12]
        requires { length self.now.segments.items ≤ most_segments self.now.hmac }
        ensures { result ≡ message.encode (front_of (seg6_of self.now)) }
    {
        let count = self.segments.len();
        let last = count.saturating_sub(1) as u8;
        let (flags, eights) = match self.hmac {
            None => (0, 0),
            Some(_) => (8, 5),
        };
        Seg6MessageBuffer {
            mode: u32::from(self.mode),
            nexthdr: 0,
            hdrlen: (2 * count + eights) as u8,
            seg_type: 4,
            segments_left: last,
            first_segment: last,
            flags,
            tag: 0,
        }
        .to_bytes()
    }

    /// Writes what stands behind the layout at the front of the slice, leaves the rest, and answers
    /// its length.
    fn write_body(&self, out: &mut [u8]) -> usize
        requires { length (body_bytes (seg6_of self.now)) ≤ length out.old }
        ensures len { result ≡ length (body_bytes (seg6_of self.now)) }
        ensures after { Writes out.old out.new (body_bytes (seg6_of self.now)) }
    {
        let end = write_reversed(self.segments.as_slice(), out);
        end + write_key(self.hmac, &mut out[end..])
    }
}

/// Writes the addresses at the front of the slice, the last one first, leaves the rest, and answers
/// their length.
fn write_reversed(segments: &[Ipv6Addr], out: &mut [u8]) -> usize
    requires { length (concat (reverse segments.now)) ≤ length out.old }
    ensures len { result ≡ length (concat (reverse segments.now)) }
    ensures after { Writes out.old out.new (concat (reverse segments.now)) }
{
    let count = segments.len();
    let mut at = 0usize;
    for i in 0..count {
        at += write_array(segments[count - 1 - i].octets(), &mut out[at..]);
    }
    at
}

/// Writes the HMAC of a key at the front of the slice, leaves the rest, and answers its length: type,
/// length, flags, the key, and a code of zeros.
fn write_key(key: Option<u32>, out: &mut [u8]) -> usize
    requires { length (key_bytes key) ≤ length out.old }
    ensures len { result ≡ length (key_bytes key) }
    ensures after { Writes out.old out.new (key_bytes key) }
{
    match key {
        None => 0,
        Some(number) => {
            let [a, b, c, d] = number.to_be_bytes();
            let mut hmac = [0u8; 40];
            hmac[0] = 5;
            hmac[1] = 38;
            hmac[4] = a;
            hmac[5] = b;
            hmac[6] = c;
            hmac[7] = d;
            write_array(hmac, out)
        }
    }
}

impl Nla for Seg6Header {
    ghost shape = { λ h. shape_at (slot_plain 1 seg6 (seg6_of h)) };

    fn kind(&self) -> u16 {
        SEG6_IPTUNNEL_SRH
    }

    fn is_nested(&self) -> bool {
        false
    }

    fn check_value(&self) -> Result<usize, EmitError> {
        check_header(
            SEG6_IPTUNNEL_SRH,
            12 + self.hmac_len(),
            self.segments.as_slice(),
            self.most_segments(),
        )
    }

    fn write_value(&self, out: &mut [u8]) -> usize {
        let front = write_array(self.front(), out);
        front + self.write_body(&mut out[front..])
    }
}
