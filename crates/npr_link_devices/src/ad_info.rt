//! What ports of a bond agreed on by IEEE 802.3ad: `IFLA_BOND_AD_INFO_*` of `linux/if_link.h`.

ghost use Rattle.std.specs.Prelude.{refl};
ghost use Rattle.{npr_base.specs.Family.{shaped}, npr_link_devices.specs.AdInfo.{family}};

use npr_base::{
    At, Attribute, DecodeError, DefaultNla, EmitError, Form, Looks, Nla, NlaBuffer, Place,
};
use std::alloc::{AllocError, Global};

/// What ports of a bond agreed on by IEEE 802.3ad.
#[derive(Debug, Drop, PartialEq, Eq)]
pub enum BondAdInfo {
    /// `IFLA_BOND_AD_INFO_AGGREGATOR`: the id of the active aggregator.
    Aggregator(u16),
    /// `IFLA_BOND_AD_INFO_NUM_PORTS`: how many ports are in it.
    NumPorts(u16),
    /// `IFLA_BOND_AD_INFO_ACTOR_KEY`: its key.
    ActorKey(u16),
    /// `IFLA_BOND_AD_INFO_PARTNER_KEY`: that of the partner.
    PartnerKey(u16),
    /// `IFLA_BOND_AD_INFO_PARTNER_MAC`: the address of the partner.
    PartnerMac([u8; 6]),
    /// An attribute of another number, as it stands.
    Other(DefaultNla),
}

/// The rows of the table.
macro_rules! rows {
    ($body:ident ($($given:tt)*)) => {
        npr_base::$body!(($($given)*) BondAdInfo of BondAdInfo {
            1 Aggregator(le16);
            2 NumPorts(le16);
            3 ActorKey(le16);
            4 PartnerKey(le16);
            5 PartnerMac(octets 6);
        })
    };
}

impl Nla for BondAdInfo {
    ghost shape = { shaped family };

    fn kind(&self) -> u16 {
        rows!(kind_rows(self))
    }

    fn is_nested(&self) -> bool {
        false
    }

    fn check_value(&self) -> Result<usize, EmitError> {
        Ok(rows!(len_rows(self)))
    }

    fn write_value(&self, out: &mut [u8]) -> usize {
        rows!(write_rows(self, out))
    }
}

impl Attribute for BondAdInfo {
    type Context = ();

    ghost family = { family };

    ghost shape_is = { λ a. refl };

    #[tactic(auto, unfolding(crate::specs::AdInfo::attributes))]
    fn read_into<P: Place<Self>>(
        place: &mut P,
        alloc: Global,
        _context: (),
        item: &NlaBuffer<'_>,
        looks: &mut Looks,
    ) -> Result<(), DecodeError> {
        rows!(put_rows(place, alloc, item, looks))
    }

    #[tactic(auto, unfolding(crate::specs::AdInfo::attributes))]
    fn form(_context: (), number: u16) -> (At, Form) {
        rows!(form_rows(number))
    }

    fn try_clone(&self, alloc: Global) -> Result<Self, AllocError> {
        rows!(clone_rows(self, alloc))
    }
}
