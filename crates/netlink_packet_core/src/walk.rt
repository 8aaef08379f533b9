//! A walk over the messages of a datagram.

ghost use Rattle.std.specs.{Prelude.{◌≡◌, ◌+◌, ◌/◌, ◌<◌, ◌≤◌, ◌^◌, length, drop}, Iterator.{at_most}};
ghost use Rattle.{npr_base.specs.Counts.{looked}, netlink_packet_core.specs.Envelope.{Tail, EnvelopeStep}};

use crate::buffer::NetlinkBuffer;
use crate::constants::NLMSG_ALIGNTO;
use crate::refusal::EnvelopeError;
use npr_base::Looks;
use std::marker::Model;

/// A walk over the messages that stand one after the other in a datagram. A fault is its last item.
/// It takes no memory. Contracts see the bytes that are left, and their offset in the datagram.
#[derive(Debug, Drop)]
pub struct NetlinkIterator<'a> {
    offset: usize,
    rest: &'a [u8],
}

impl<'a> Model for NetlinkIterator<'a> {
    ghost Value = { Tail };

    ghost view = { λ i. record { offset = i.offset; bytes = i.rest.now } };

    ghost invariant = { λ i. i.offset + length i.rest.now < 2 ^ 64 };
}

impl<'a> NetlinkIterator<'a> {
    /// A walk over this datagram.
    pub fn new(datagram: &'a [u8]) -> Self
        ensures { result ≡ record { offset = 0; bytes = datagram.now } }
    {
        NetlinkIterator {
            offset: 0,
            rest: datagram,
        }
    }

    /// The offset in the datagram of the bytes that haven't been walked.
    pub fn offset(&self) -> usize
        ensures { result ≡ self.now.offset }
    {
        self.offset
    }

    /// The bytes that haven't been walked: none after the end or a fault.
    pub fn rest(&self) -> &'a [u8]
        ensures { result.now ≡ self.now.bytes }
    {
        self.rest
    }

    fn step(&mut self) -> Option<Result<NetlinkBuffer<'a>, EnvelopeError>>
        ensures { EnvelopeStep self.old result self.new }
    {
        match NetlinkBuffer::at_offset(self.offset, self.rest) {
            Ok(found) => {
                let whole = (found.length() as usize).next_multiple_of(NLMSG_ALIGNTO);
                let end = whole.min(self.rest.len());
                self.pass(end);
                Some(Ok(found))
            }
            Err(_) if self.rest.is_empty() => None,
            Err(e) => {
                self.pass(self.rest.len());
                Some(Err(e))
            }
        }
    }

    fn pass(&mut self, count: usize)
        requires { count ≤ length self.old.bytes }
        ensures { self.new ≡ record { offset = self.old.offset + count; bytes = drop count self.old.bytes } }
    {
        self.rest = &self.rest[count..];
        self.offset += count;
    }

    /// `next`, with its look at a header counted.
    pub fn next_counted(
        &mut self,
        looks: &mut Looks,
    ) -> Option<Result<NetlinkBuffer<'a>, EnvelopeError>>
        ensures step { EnvelopeStep self.old result self.new }
        ensures counted { looks.new ≡ looked result looks.old }
    {
        let found = self.step();
        looks.count(&found);
        found
    }
}

impl<'a> Iterator for NetlinkIterator<'a> {
    type Item = Result<NetlinkBuffer<'a>, EnvelopeError>;

    ghost can_next = { λ _. Unit {0} };

    ghost next_gives = { λ s r t. EnvelopeStep s r t };

    // a message takes 16 bytes, and the bytes after the last leave room for one fault
    ghost remaining = { λ s. at_most ((length s.bytes + 15) / 16) };

    fn next(&mut self) -> Option<Result<NetlinkBuffer<'a>, EnvelopeError>> {
        self.step()
    }
}
