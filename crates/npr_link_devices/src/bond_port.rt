//! The data of a port of a bond: `IFLA_BOND_SLAVE_*` of `linux/if_link.h`.

ghost use Rattle.std.specs.Prelude.{refl};
ghost use Rattle.{npr_base.specs.Family.{shaped}, npr_link_devices.specs.BondPort.{family}};

use crate::bond_port_state::BondPortState;
use crate::mii_status::MiiStatus;
use npr_base::{
    At, Attribute, DecodeError, DefaultNla, EmitError, Form, Looks, Nla, NlaBuffer, Place,
};
use std::alloc::{AllocError, Global};

/// The data of a port of a bond.
#[derive(Debug, Drop, PartialEq, Eq)]
pub enum InfoBondPort {
    /// `IFLA_BOND_SLAVE_STATE`: what it is.
    BondPortState(BondPortState),
    /// `IFLA_BOND_SLAVE_MII_STATUS`: how its link is.
    MiiStatus(MiiStatus),
    /// `IFLA_BOND_SLAVE_LINK_FAILURE_COUNT`: how often its link failed.
    LinkFailureCount(u32),
    /// `IFLA_BOND_SLAVE_PERM_HWADDR`: the address that it came with.
    PermHwaddr(Vec<u8>),
    /// `IFLA_BOND_SLAVE_QUEUE_ID`: the id of its queue.
    QueueId(u16),
    /// `IFLA_BOND_SLAVE_AD_AGGREGATOR_ID`: the id of its aggregator.
    AdAggregatorId(u16),
    /// `IFLA_BOND_SLAVE_AD_ACTOR_OPER_PORT_STATE`: its state by IEEE 802.3ad, a bit each (`LACP_STATE_*` of `linux/if_bonding.h`).
    AdActorOperPortState(u8),
    /// `IFLA_BOND_SLAVE_AD_PARTNER_OPER_PORT_STATE`: that of its partner.
    AdPartnerOperPortState(u16),
    /// `IFLA_BOND_SLAVE_PRIO`: how soon it becomes the active one.
    Prio(i32),
    /// `IFLA_BOND_SLAVE_ACTOR_PORT_PRIO`: its priority by IEEE 802.3ad.
    ActorPortPrio(u16),
    /// `IFLA_BOND_SLAVE_AD_CHURN_ACTOR_STATE`: whether it comes to an agreement (`AD_CHURN*` of the kernel's `net/bond_3ad.h`).
    AdChurnActorState(u8),
    /// `IFLA_BOND_SLAVE_AD_CHURN_PARTNER_STATE`: whether its partner does.
    AdChurnPartnerState(u8),
    /// An attribute of another number, as it stands.
    Other(DefaultNla),
}

/// The rows of the table.
macro_rules! rows {
    ($body:ident ($($given:tt)*)) => {
        npr_base::$body!(($($given)*) InfoBondPort of InfoBondPort {
            1 BondPortState(BondPortState as byte);
            2 MiiStatus(MiiStatus as byte);
            3 LinkFailureCount(le32);
            4 PermHwaddr(raw);
            5 QueueId(le16);
            6 AdAggregatorId(le16);
            7 AdActorOperPortState(byte);
            8 AdPartnerOperPortState(le16);
            9 Prio(signed32);
            10 ActorPortPrio(le16);
            11 AdChurnActorState(byte);
            12 AdChurnPartnerState(byte);
        })
    };
}

impl Nla for InfoBondPort {
    ghost shape = { shaped family };

    fn kind(&self) -> u16 {
        rows!(kind_rows(self))
    }

    fn is_nested(&self) -> bool {
        false
    }

    fn check_value(&self) -> Result<usize, EmitError> {
        Ok(rows!(len_rows(self)))
    }

    fn write_value(&self, out: &mut [u8]) -> usize {
        rows!(write_rows(self, out))
    }
}

impl Attribute for InfoBondPort {
    type Context = ();

    ghost family = { family };

    ghost shape_is = { λ a. refl };

    #[tactic(auto, unfolding(crate::specs::BondPort::attributes))]
    fn read_into<P: Place<Self>>(
        place: &mut P,
        alloc: Global,
        _context: (),
        item: &NlaBuffer<'_>,
        looks: &mut Looks,
    ) -> Result<(), DecodeError> {
        rows!(put_rows(place, alloc, item, looks))
    }

    #[tactic(auto, unfolding(crate::specs::BondPort::attributes))]
    fn form(_context: (), number: u16) -> (At, Form) {
        rows!(form_rows(number))
    }

    fn try_clone(&self, alloc: Global) -> Result<Self, AllocError> {
        rows!(clone_rows(self, alloc))
    }
}
