//! The data of a pair: `VETH_INFO_*` of `linux/veth.h`.

ghost use Rattle.std.specs.Prelude.{refl};
ghost use Rattle.{npr_base.specs.Family.{shaped}, npr_link.specs.Veth.{family}};

use crate::header::IFINFOMSG_SIZE;
use crate::peer::LinkPeer;
use npr_base::{
    At, Attribute, AttributeSet, DecodeError, DefaultNla, EmitError, Emitable, Form, Looks, Nla,
    NlaBuffer, Place, put_read,
};
use std::alloc::{AllocError, Global};

/// The data of one of a pair.
#[derive(Debug, Drop, PartialEq, Eq)]
pub enum InfoVeth {
    /// `VETH_INFO_PEER`: the other end.
    Peer(LinkPeer),
    /// An attribute of another number, as it stands.
    Other(DefaultNla),
}

/// The number of the other end, `VETH_INFO_PEER`.
const VETH_INFO_PEER: u16 = 1;

impl Nla for InfoVeth {
    ghost shape = { shaped family };

    fn kind(&self) -> u16 {
        match self {
            InfoVeth::Peer(_) => VETH_INFO_PEER,
            InfoVeth::Other(nla) => nla.kind(),
        }
    }

    fn is_nested(&self) -> bool {
        false
    }

    fn check_value(&self) -> Result<usize, EmitError> {
        match self {
            InfoVeth::Peer(peer) => peer.check(),
            InfoVeth::Other(nla) => Ok(nla.value().len()),
        }
    }

    fn write_value(&self, out: &mut [u8]) -> usize {
        match self {
            InfoVeth::Peer(peer) => peer.write(out),
            InfoVeth::Other(nla) => nla.write_value(out),
        }
    }
}

impl Attribute for InfoVeth {
    type Context = ();

    ghost family = { family };

    ghost shape_is = { λ a. refl };

    #[tactic(auto, unfolding(crate::specs::Veth::attributes))]
    fn read_into<P: Place<Self>>(
        place: &mut P,
        alloc: Global,
        _context: (),
        item: &NlaBuffer<'_>,
        looks: &mut Looks,
    ) -> Result<(), DecodeError> {
        match item.kind() {
            VETH_INFO_PEER => put_read(
                place,
                LinkPeer::read(alloc, item.value(), looks),
                InfoVeth::Peer,
            ),
            _ => put_read(place, DefaultNla::read(alloc, item), InfoVeth::Other),
        }
    }

    #[tactic(auto, unfolding(crate::specs::Veth::attributes))]
    fn form(_context: (), number: u16) -> (At, Form) {
        let form = match number {
            VETH_INFO_PEER => Form::List(AttributeSet::Peer, IFINFOMSG_SIZE),
            _ => Form::Raw,
        };
        (AttributeSet::InfoVeth.at(number), form)
    }

    fn try_clone(&self, alloc: Global) -> Result<Self, AllocError> {
        match self {
            InfoVeth::Peer(peer) => peer.try_clone(alloc).map(InfoVeth::Peer),
            InfoVeth::Other(nla) => nla.try_clone(alloc).map(InfoVeth::Other),
        }
    }
}
