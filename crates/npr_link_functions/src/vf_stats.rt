//! A counter of a virtual function: `IFLA_VF_STATS_*` of `linux/if_link.h`.

ghost use Rattle.std.specs.Prelude.{refl};
ghost use Rattle.{npr_base.specs.Family.{shaped}, npr_link_functions.specs.VfStats.{family}};

use npr_base::{
    At, Attribute, DecodeError, DefaultNla, EmitError, Form, Looks, Nla, NlaBuffer, Place,
};
use std::alloc::{AllocError, Global};

/// A counter of a virtual function.
#[derive(Debug, Drop, PartialEq, Eq)]
pub enum VfStats {
    /// `IFLA_VF_STATS_RX_PACKETS`: packets received.
    RxPackets(u64),
    /// `IFLA_VF_STATS_TX_PACKETS`: packets sent.
    TxPackets(u64),
    /// `IFLA_VF_STATS_RX_BYTES`: bytes received.
    RxBytes(u64),
    /// `IFLA_VF_STATS_TX_BYTES`: bytes sent.
    TxBytes(u64),
    /// `IFLA_VF_STATS_BROADCAST`: broadcast packets received.
    Broadcast(u64),
    /// `IFLA_VF_STATS_MULTICAST`: multicast packets received.
    Multicast(u64),
    /// `IFLA_VF_STATS_RX_DROPPED`: packets dropped where they came in.
    RxDropped(u64),
    /// `IFLA_VF_STATS_TX_DROPPED`: packets dropped where they went out.
    TxDropped(u64),
    /// An attribute of another number, as it stands.
    Other(DefaultNla),
}

/// The rows of the table.
macro_rules! rows {
    ($body:ident ($($given:tt)*)) => {
        npr_base::$body!(($($given)*) VfStats of VfStats {
            0 RxPackets(le64);
            1 TxPackets(le64);
            2 RxBytes(le64);
            3 TxBytes(le64);
            4 Broadcast(le64);
            5 Multicast(le64);
            7 RxDropped(le64);
            8 TxDropped(le64);
        })
    };
}

impl Nla for VfStats {
    ghost shape = { shaped family };

    fn kind(&self) -> u16 {
        rows!(kind_rows(self))
    }

    fn is_nested(&self) -> bool {
        false
    }

    fn check_value(&self) -> Result<usize, EmitError> {
        Ok(rows!(len_rows(self)))
    }

    fn write_value(&self, out: &mut [u8]) -> usize {
        rows!(write_rows(self, out))
    }
}

impl Attribute for VfStats {
    type Context = ();

    ghost family = { family };

    ghost shape_is = { λ a. refl };

    #[tactic(auto, unfolding(crate::specs::VfStats::attributes))]
    fn read_into<P: Place<Self>>(
        place: &mut P,
        alloc: Global,
        _context: (),
        item: &NlaBuffer<'_>,
        looks: &mut Looks,
    ) -> Result<(), DecodeError> {
        rows!(put_rows(place, alloc, item, looks))
    }

    #[tactic(auto, unfolding(crate::specs::VfStats::attributes))]
    fn form(_context: (), number: u16) -> (At, Form) {
        rows!(form_rows(number))
    }

    fn try_clone(&self, alloc: Global) -> Result<Self, AllocError> {
        rows!(clone_rows(self, alloc))
    }
}
