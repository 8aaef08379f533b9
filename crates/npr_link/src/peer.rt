//! The other end of a pair, as a request for the pair has it: `VETH_INFO_PEER` of `linux/veth.h`.

ghost use Rattle.std.specs.Prelude.{◌≡◌, ◌≢◌, ◌≤◌, ◌<◌, ℕ, List, [], length, drop, IfOk, IfErr, IsErrOf, OnErr};
ghost use Rattle.{
  npr_base.specs.{
    declared.refusal.DecodeError.TheVariants.{OutOfMemory},
    Counts.{AddsAtMost},
    Framing.{Item, Front, Writes},
    Looks.{Answered},
    Message.{IsMessage, MessageFault, MessageLooks},
  },
  npr_link.specs.{Header.{default_header}, Peer.{peers, peer_of, peer_bytes, peer_unfit}},
};

use crate::header::{IFINFOMSG_SIZE, LinkHeader};
use crate::peer_attribute::PeerAttribute;
use npr_base::{
    DecodeError, EmitError, Emitable, Looks, check_list, clone_list, parse_list, write_list,
};
use std::alloc::{AllocError, Global};

/// The other end of a pair: a header of a link, 16 bytes, and attributes to the end.
#[derive(Debug, Drop, PartialEq, Eq)]
pub struct LinkPeer {
    /// The header.
    pub header: LinkHeader,
    /// The attributes, in their order.
    pub attributes: Vec<PeerAttribute>,
}

impl LinkPeer {
    /// One with each field of the header at its default, and no attributes. It takes no memory.
    pub fn new(alloc: Global) -> Self
        ensures { peer_of result ≡ record { header = default_header; attributes = [] } }
    {
        LinkPeer {
            header: LinkHeader::default(),
            attributes: Vec::new(alloc),
        }
    }

    /// The other end that the bytes are.
    ///
    /// # Errors
    /// `OutOfMemory` where memory is refused, and else the first fault in reading order.
    pub fn parse(alloc: Global, bytes: &[u8]) -> Result<Self, DecodeError>
        ensures ok { IfOk result (λ p. IsMessage peers bytes.now (peer_of p)) }
        ensures refused { IfErr result (λ e. e ≢ OutOfMemory → MessageFault peers bytes.now e) }
        // Memory is taken behind a first whole attribute alone.
        ensures memory { IsErrOf result OutOfMemory → (x : Item) × (rest : List ℕ) × Front (drop 16 bytes.now) x rest }
    {
        Self::read(alloc, bytes, &mut Looks::new())
    }

    /// `parse`, with the looks at headers counted.
    pub(crate) fn read(alloc: Global, bytes: &[u8], looks: &mut Looks) -> Result<Self, DecodeError>
        ensures ok { IfOk result (λ p. IsMessage peers bytes.now (peer_of p)) }
        ensures refused { IfErr result (λ e. e ≢ OutOfMemory → MessageFault peers bytes.now e) }
        // Memory is taken behind a first whole attribute alone.
        ensures memory { IsErrOf result OutOfMemory → (x : Item) × (rest : List ℕ) × Front (drop 16 bytes.now) x rest }
        ensures exact { Answered result → MessageLooks peers bytes.now looks.old looks.new }
        ensures bounded { AddsAtMost looks.old looks.new (length bytes.now) }
    {
        if bytes.len() < IFINFOMSG_SIZE {
            return Err(DecodeError::HeaderTooShort {
                got: bytes.len(),
                want: IFINFOMSG_SIZE,
            });
        }
        let header = LinkHeader::at_front(bytes);
        let attributes = parse_list(alloc, (), &bytes[IFINFOMSG_SIZE..], looks)?;
        Ok(LinkPeer { header, attributes })
    }

    /// An equal value.
    ///
    /// # Errors
    /// `AllocError` where memory is refused; without attributes none is taken.
    pub fn try_clone(&self, alloc: Global) -> Result<Self, AllocError>
        ensures ok { IfOk result (λ p. peer_of p ≡ peer_of self.now) }
        ensures memory { OnErr result (0 < length self.now.attributes.items) }
    {
        Ok(LinkPeer {
            header: self.header,
            attributes: clone_list(alloc, self.attributes.as_slice())?,
        })
    }

    /// `emit`, with the length of what is written.
    pub(crate) fn write(&self, out: &mut [u8]) -> usize
        requires fits { peer_unfit (peer_of self.now) ≡ None }
        requires room { length (peer_bytes (peer_of self.now)) ≤ length out.old }
        ensures len { result ≡ length (peer_bytes (peer_of self.now)) }
        ensures after { Writes out.old out.new (peer_bytes (peer_of self.now)) }
    {
        let len = write_list(self.attributes.as_slice(), &mut out[IFINFOMSG_SIZE..]);
        self.header.emit(out);
        IFINFOMSG_SIZE + len
    }
}

impl Emitable for LinkPeer {
    ghost bytes = { λ p. peer_bytes (peer_of p) };

    ghost unfit = { λ p. peer_unfit (peer_of p) };

    fn check(&self) -> Result<usize, EmitError> {
        let len = check_list(self.attributes.as_slice())?;
        len.checked_add(IFINFOMSG_SIZE).ok_or(EmitError::Total)
    }

    fn emit(&self, out: &mut [u8]) {
        self.write(out);
    }
}
