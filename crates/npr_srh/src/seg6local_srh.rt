//! SEG6 local's routing header of segments (RFC 8754; `linux/seg6_local.h`).

ghost use Rattle.std.specs.Prelude.{◌≡◌, ◌≤◌, ◌*◌, length, [], IfOk, IfErr, IfSome, IfNone};
ghost use Rattle.{
  npr_base.specs.{Table.{shape_at, slot_plain}, declared.refusal.DecodeError.TheVariants.{OutOfMemory}},
  npr_srh.specs.{Keeping.{IsUnread}, Headed.{front_layout}, Seg6Local.{local, local_of, local_front}, Seg6LocalTunnel.{srh_at}},
};

use crate::segments::{check_header, read_parts};
use npr_base::{
    AttributeSet, DecodeError, EmitError, Ipv6Addr, Nla, NlaBuffer, Parseable, write_array,
    write_v6_list,
};
use std::alloc::{AllocError, Global};

/// The segment routing header of a local segment (RFC 8754, section 2).
#[derive(Debug, Drop, PartialEq, Eq)]
pub struct Seg6LocalSrh {
    /// The protocol of what follows.
    pub next_header: u8,
    /// The routing type: 4.
    pub routing_type: u8,
    /// How many segments are still to be visited.
    pub segments_left: u8,
    /// The place of the last entry of the list.
    pub first_segment: u8,
    /// The flags.
    pub flags: u8,
    /// The tag of the packet.
    pub tag: u16,
    /// The segments, in the order of the wire.
    pub segments: Vec<Ipv6Addr>,
}

/// `SEG6_LOCAL_SRH` of `linux/seg6_local.h`.
pub(crate) const SEG6_LOCAL_SRH: u16 = 2;

impl Seg6LocalSrh {
    /// A header with each field 0 and no segments. It takes no memory.
    pub fn new(alloc: Global) -> Self
        ensures { local_of result ≡ record { front = record { next_header = 0; routing_type = 0; segments_left = 0; first_segment = 0; flags = 0; tag = 0 }; segments = [] } }
    {
        Seg6LocalSrh {
            next_header: 0,
            routing_type: 0,
            segments_left: 0,
            first_segment: 0,
            flags: 0,
            tag: 0,
            segments: Vec::new(alloc),
        }
    }

    /// An equal header.
    ///
    /// # Errors
    /// `AllocError` where memory is refused.
    pub fn try_clone(&self, alloc: Global) -> Result<Self, AllocError>
        ensures { IfOk result (λ h. local_of h ≡ local_of self.now) }
    {
        Ok(Seg6LocalSrh {
            segments: Vec::from_slice(alloc, self.segments.as_slice())?,
            ..*self
        })
    }

    /// The header that a value is, or `None` where it can't be read. The refusal is `OutOfMemory`
    /// alone, where memory is refused.
    #[tactic(auto, using(crate::specs::Headed::unread_headed))]
    pub(crate) fn read(alloc: Global, value: &[u8]) -> Option<Result<Self, DecodeError>>
        ensures ok { IfSome result (λ r. IfOk r (λ h. local.Reads value.now (local_of h))) }
        ensures none { IfNone result (IsUnread local.Reads value.now) }
        ensures refused { IfSome result (λ r. IfErr r (λ e. e ≡ OutOfMemory)) }
    {
        let parts = read_parts(alloc, value)?;
        Some(parts.map(|(head, segments)| Seg6LocalSrh {
            next_header: head[0],
            routing_type: head[2],
            segments_left: head[3],
            first_segment: head[4],
            flags: head[5],
            tag: u16::from_be_bytes([head[6], head[7]]),
            segments,
        }))
    }

    /// The eight bytes in front. Asks that the segments fit.
    fn front(&self) -> [u8; 8]
        requires { length self.now.segments.items ≤ 127 }
        ensures { result ≡ (front_layout local_front (2 * length self.now.segments.items)).encode (local_of self.now).front }
    {
        let [a, b] = self.tag.to_be_bytes();
        [
            self.next_header,
            (2 * self.segments.len()) as u8,
            self.routing_type,
            self.segments_left,
            self.first_segment,
            self.flags,
            a,
            b,
        ]
    }
}

impl Nla for Seg6LocalSrh {
    ghost shape = { λ h. shape_at (slot_plain 2 local (local_of h)) };

    fn kind(&self) -> u16 {
        SEG6_LOCAL_SRH
    }

    fn is_nested(&self) -> bool {
        false
    }

    fn check_value(&self) -> Result<usize, EmitError> {
        check_header(SEG6_LOCAL_SRH, 8, self.segments.as_slice(), 127)
    }

    fn write_value(&self, out: &mut [u8]) -> usize {
        let front = write_array(self.front(), out);
        front + write_v6_list(self.segments.as_slice(), &mut out[front..])
    }
}

impl<'a> Parseable<&'a NlaBuffer<'a>> for Seg6LocalSrh {
    ghost parses = { λ input h. local.Reads input.now.value (local_of h) };

    ghost misparses = { λ input e. local.Wrong srh_at input.now.value e };

    /// The header that the value is.
    ///
    /// # Errors
    /// `OutOfMemory` where memory is refused, and else `Unsupported`.
    fn parse(alloc: Global, input: &'a NlaBuffer<'a>) -> Result<Self, DecodeError> {
        Seg6LocalSrh::read(alloc, input.value()).unwrap_or(Err(DecodeError::Unsupported {
            at: AttributeSet::Seg6Local.at(SEG6_LOCAL_SRH),
        }))
    }
}
