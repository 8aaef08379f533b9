//! The data of a TUN device: `IFLA_TUN_*` of `linux/if_link.h`.

ghost use Rattle.std.specs.Prelude.{refl};
ghost use Rattle.{npr_base.specs.Family.{shaped}, npr_link_devices.specs.Tun.{family}};

use crate::tun_type::TunType;
use npr_base::{
    At, Attribute, DecodeError, DefaultNla, EmitError, Form, Looks, Nla, NlaBuffer, Place,
};
use std::alloc::{AllocError, Global};

/// The data of a TUN device.
#[derive(Debug, Drop, PartialEq, Eq)]
pub enum InfoTun {
    /// `IFLA_TUN_OWNER`: the id of the user that may open it.
    Owner(u32),
    /// `IFLA_TUN_GROUP`: the id of the group that may.
    Group(u32),
    /// `IFLA_TUN_TYPE`: what it carries.
    Type(TunType),
    /// `IFLA_TUN_PI`: whether each packet has a header in front (`struct tun_pi` of `linux/if_tun.h`).
    Pi(bool),
    /// `IFLA_TUN_VNET_HDR`: whether each has one of virtio in front.
    VnetHdr(bool),
    /// `IFLA_TUN_PERSIST`: whether it stays when nobody has it open.
    Persist(bool),
    /// `IFLA_TUN_MULTI_QUEUE`: whether it may have several queues.
    MultiQueue(bool),
    /// `IFLA_TUN_NUM_QUEUES`: how many are in use.
    NumQueues(u32),
    /// `IFLA_TUN_NUM_DISABLED_QUEUES`: how many are not.
    NumDisabledQueues(u32),
    /// An attribute of another number, as it stands.
    Other(DefaultNla),
}

/// The rows of the table.
macro_rules! rows {
    ($body:ident ($($given:tt)*)) => {
        npr_base::$body!(($($given)*) InfoTun of InfoTun {
            1 Owner(le32);
            2 Group(le32);
            3 Type(TunType as byte);
            4 Pi(boolean);
            5 VnetHdr(boolean);
            6 Persist(boolean);
            7 MultiQueue(boolean);
            8 NumQueues(le32);
            9 NumDisabledQueues(le32);
        })
    };
}

impl Nla for InfoTun {
    ghost shape = { shaped family };

    fn kind(&self) -> u16 {
        rows!(kind_rows(self))
    }

    fn is_nested(&self) -> bool {
        false
    }

    fn check_value(&self) -> Result<usize, EmitError> {
        Ok(rows!(len_rows(self)))
    }

    fn write_value(&self, out: &mut [u8]) -> usize {
        rows!(write_rows(self, out))
    }
}

impl Attribute for InfoTun {
    type Context = ();

    ghost family = { family };

    ghost shape_is = { λ a. refl };

    #[tactic(auto, unfolding(crate::specs::Tun::attributes))]
    fn read_into<P: Place<Self>>(
        place: &mut P,
        alloc: Global,
        _context: (),
        item: &NlaBuffer<'_>,
        looks: &mut Looks,
    ) -> Result<(), DecodeError> {
        rows!(put_rows(place, alloc, item, looks))
    }

    #[tactic(auto, unfolding(crate::specs::Tun::attributes))]
    fn form(_context: (), number: u16) -> (At, Form) {
        rows!(form_rows(number))
    }

    fn try_clone(&self, alloc: Global) -> Result<Self, AllocError> {
        rows!(clone_rows(self, alloc))
    }
}
