//! An attribute of the other end of a pair, as a request for the pair has it: `IFLA_*` of `linux/if_link.h`.

ghost use Rattle.{npr_base.specs.Tables.{shape_by, shape-by}, npr_link.specs.PeerAttribute.{table, family}};

use crate::link_mode::LinkMode;
use crate::state::State;
use npr_base::{
    At, Attribute, DecodeError, DefaultNla, EmitError, Form, Looks, Nla, NlaBuffer, Place,
};
use std::alloc::{AllocError, Global};

/// An attribute of the other end of a pair, as a request for the pair has it.
#[derive(Debug, Drop, PartialEq, Eq)]
pub enum PeerAttribute {
    /// `IFLA_ADDRESS`: the address on the link, as it stands.
    Address(Vec<u8>),
    /// `IFLA_BROADCAST`: the broadcast address on the link, as it stands.
    Broadcast(Vec<u8>),
    /// `IFLA_IFNAME`: the name.
    IfName(String),
    /// `IFLA_MTU`: the longest packet, in bytes.
    Mtu(u32),
    /// `IFLA_TXQLEN`: the length of the transmit queue, in packets.
    TxQueueLen(u32),
    /// `IFLA_OPERSTATE`: the operational state.
    OperState(State),
    /// `IFLA_LINKMODE`: what the link is up for.
    Mode(LinkMode),
    /// `IFLA_NET_NS_PID`: a process whose network namespace is meant.
    NetNsPid(u32),
    /// `IFLA_GROUP`: the group.
    Group(u32),
    /// `IFLA_NET_NS_FD`: a file descriptor of the network namespace that is meant.
    NetNsFd(i32),
    /// `IFLA_NUM_TX_QUEUES`: how many transmit queues there are.
    NumTxQueues(u32),
    /// `IFLA_NUM_RX_QUEUES`: how many receive queues there are.
    NumRxQueues(u32),
    /// `IFLA_GSO_MAX_SEGS`: into how many segments a packet may be cut at most.
    GsoMaxSegs(u32),
    /// `IFLA_GSO_MAX_SIZE`: how long a packet that will be cut may be, in bytes.
    GsoMaxSize(u32),
    /// `IFLA_IF_NETNSID`: the id of the network namespace that is asked.
    IfNetnsId(i32),
    /// `IFLA_GRO_MAX_SIZE`: how long a packet that is put together may be, in bytes.
    GroMaxSize(u32),
    /// `IFLA_GSO_IPV4_MAX_SIZE`: `GsoMaxSize` for IP version 4.
    GsoIpv4MaxSize(u32),
    /// `IFLA_GRO_IPV4_MAX_SIZE`: `GroMaxSize` for IP version 4.
    GroIpv4MaxSize(u32),
    /// An attribute of another number, as it stands.
    Other(DefaultNla),
}

/// The rows of the table.
macro_rules! rows {
    ($body:ident ($($given:tt)*)) => {
        npr_base::$body!(($($given)*) PeerAttribute of Peer {
            1 Address(raw);
            2 Broadcast(raw);
            3 IfName(name);
            4 Mtu(le32);
            13 TxQueueLen(le32);
            16 OperState(State as byte);
            17 Mode(LinkMode as byte);
            19 NetNsPid(le32);
            27 Group(le32);
            28 NetNsFd(signed32);
            31 NumTxQueues(le32);
            32 NumRxQueues(le32);
            40 GsoMaxSegs(le32);
            41 GsoMaxSize(le32);
            46 IfNetnsId(signed32);
            58 GroMaxSize(le32);
            63 GsoIpv4MaxSize(le32);
            64 GroIpv4MaxSize(le32);
        })
    };
}

impl Nla for PeerAttribute {
    ghost shape = { shape_by table };

    fn kind(&self) -> u16 {
        rows!(kind_rows(self))
    }

    fn is_nested(&self) -> bool {
        false
    }

    fn check_value(&self) -> Result<usize, EmitError> {
        Ok(rows!(len_rows(self)))
    }

    fn write_value(&self, out: &mut [u8]) -> usize {
        rows!(write_rows(self, out))
    }
}

impl Attribute for PeerAttribute {
    type Context = ();

    ghost family = { family };

    ghost shape_is = { shape-by table };

    #[tactic(auto, unfolding(crate::specs::PeerAttribute::attributes))]
    fn read_into<P: Place<Self>>(
        place: &mut P,
        alloc: Global,
        _context: (),
        item: &NlaBuffer<'_>,
        looks: &mut Looks,
    ) -> Result<(), DecodeError> {
        rows!(put_rows(place, alloc, item, looks))
    }

    #[tactic(auto, unfolding(crate::specs::PeerAttribute::attributes))]
    fn form(_context: (), number: u16) -> (At, Form) {
        rows!(form_rows(number))
    }

    fn try_clone(&self, alloc: Global) -> Result<Self, AllocError> {
        rows!(clone_rows(self, alloc))
    }
}
