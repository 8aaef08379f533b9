//! The data of a pair that runs programs: `IFLA_NETKIT_*` of `linux/if_link.h`.

ghost use Rattle.std.specs.Prelude.{refl};
ghost use Rattle.{npr_base.specs.Family.{shaped}, npr_link.specs.Netkit.{family}};

use crate::header::IFINFOMSG_SIZE;
use crate::netkit_mode::NetkitMode;
use crate::netkit_policy::NetkitPolicy;
use crate::netkit_scrub::NetkitScrub;
use crate::peer::LinkPeer;
use npr_base::{
    At, Attribute, AttributeSet, DecodeError, DefaultNla, EmitError, Emitable, Form, Looks, Nla,
    NlaBuffer, Place, put_read,
};
use std::alloc::{AllocError, Global};

/// The data of one of a pair that runs programs.
#[derive(Debug, Drop, PartialEq, Eq)]
pub enum InfoNetkit {
    /// `IFLA_NETKIT_PEER_INFO`: the other end.
    Peer(LinkPeer),
    /// `IFLA_NETKIT_PRIMARY`: whether it is the first of the two.
    Primary(bool),
    /// `IFLA_NETKIT_POLICY`: what is done with packets where no program stands.
    Policy(NetkitPolicy),
    /// `IFLA_NETKIT_PEER_POLICY`: the same of the other end.
    PeerPolicy(NetkitPolicy),
    /// `IFLA_NETKIT_MODE`: what packets begin with.
    Mode(NetkitMode),
    /// `IFLA_NETKIT_SCRUB`: what becomes of what a packet carries besides its bytes.
    Scrub(NetkitScrub),
    /// `IFLA_NETKIT_PEER_SCRUB`: the same of the other end.
    PeerScrub(NetkitScrub),
    /// `IFLA_NETKIT_HEADROOM`: bytes that are kept free in front of a packet.
    Headroom(u16),
    /// `IFLA_NETKIT_TAILROOM`: bytes that are kept free behind a packet.
    Tailroom(u16),
    /// `IFLA_NETKIT_PAIRING`: how the two are paired.
    Pairing(u32),
    /// An attribute of another number, as it stands.
    Other(DefaultNla),
}

/// The number of the other end, `IFLA_NETKIT_PEER_INFO`.
const IFLA_NETKIT_PEER_INFO: u16 = 1;

/// The rows of the table, but for the other end.
macro_rules! rows {
    ($body:ident ($($given:tt)*)) => {
        npr_base::$body!(($($given)*) InfoNetkit of InfoNetkit {
            2 Primary(boolean);
            3 Policy(NetkitPolicy as le32);
            4 PeerPolicy(NetkitPolicy as le32);
            5 Mode(NetkitMode as le32);
            6 Scrub(NetkitScrub as le32);
            7 PeerScrub(NetkitScrub as le32);
            8 Headroom(le16);
            9 Tailroom(le16);
            10 Pairing(le32);
        })
    };
}

impl Nla for InfoNetkit {
    ghost shape = { shaped family };

    fn kind(&self) -> u16 {
        rows!(kind_rows(self; InfoNetkit::Peer(_) => IFLA_NETKIT_PEER_INFO,))
    }

    fn is_nested(&self) -> bool {
        false
    }

    fn check_value(&self) -> Result<usize, EmitError> {
        Ok(rows!(len_rows(self; InfoNetkit::Peer(peer) => peer.check()?,)))
    }

    fn write_value(&self, out: &mut [u8]) -> usize {
        rows!(write_rows(self, out; InfoNetkit::Peer(peer) => peer.write(out),))
    }
}

impl Attribute for InfoNetkit {
    type Context = ();

    ghost family = { family };

    ghost shape_is = { λ a. refl };

    #[tactic(auto, unfolding(crate::specs::Netkit::attributes))]
    fn read_into<P: Place<Self>>(
        place: &mut P,
        alloc: Global,
        _context: (),
        item: &NlaBuffer<'_>,
        looks: &mut Looks,
    ) -> Result<(), DecodeError> {
        rows!(put_rows(place, alloc, item, looks;
            IFLA_NETKIT_PEER_INFO => put_read(
                place,
                LinkPeer::read(alloc, item.value(), looks),
                InfoNetkit::Peer,
            ),
        ))
    }

    #[tactic(auto, unfolding(crate::specs::Netkit::attributes))]
    fn form(_context: (), number: u16) -> (At, Form) {
        rows!(form_rows(number; IFLA_NETKIT_PEER_INFO => Form::List(AttributeSet::Peer, IFINFOMSG_SIZE),))
    }

    fn try_clone(&self, alloc: Global) -> Result<Self, AllocError> {
        rows!(clone_rows(self, alloc; InfoNetkit::Peer(peer) => peer.try_clone(alloc).map(InfoNetkit::Peer),))
    }
}
