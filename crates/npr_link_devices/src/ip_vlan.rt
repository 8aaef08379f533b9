//! The data of an IPVLAN: `IFLA_IPVLAN_*` of `linux/if_link.h`.

ghost use Rattle.std.specs.Prelude.{refl};
ghost use Rattle.{npr_base.specs.Family.{shaped}, npr_link_devices.specs.IpVlan.{family}};

use crate::ip_vlan_flags::IpVlanFlags;
use crate::ip_vlan_mode::IpVlanMode;
use bitflags::Flags;
use npr_base::{
    At, Attribute, DecodeError, DefaultNla, EmitError, Form, Looks, Nla, NlaBuffer, Place,
};
use std::alloc::{AllocError, Global};

/// The data of an IPVLAN.
#[derive(Debug, Drop, PartialEq, Eq)]
pub enum InfoIpVlan {
    /// `IFLA_IPVLAN_MODE`: at which layer it hands packets on.
    Mode(IpVlanMode),
    /// `IFLA_IPVLAN_FLAGS`: how it talks to others.
    Flags(IpVlanFlags),
    /// An attribute of another number, as it stands.
    Other(DefaultNla),
}

/// The rows of the table.
macro_rules! rows {
    ($body:ident ($($given:tt)*)) => {
        npr_base::$body!(($($given)*) InfoIpVlan of InfoIpVlan {
            1 Mode(IpVlanMode as le16);
            2 Flags(IpVlanFlags flags le16);
        })
    };
}

impl Nla for InfoIpVlan {
    ghost shape = { shaped family };

    fn kind(&self) -> u16 {
        rows!(kind_rows(self))
    }

    fn is_nested(&self) -> bool {
        false
    }

    fn check_value(&self) -> Result<usize, EmitError> {
        Ok(rows!(len_rows(self)))
    }

    fn write_value(&self, out: &mut [u8]) -> usize {
        rows!(write_rows(self, out))
    }
}

impl Attribute for InfoIpVlan {
    type Context = ();

    ghost family = { family };

    ghost shape_is = { λ a. refl };

    #[tactic(auto, unfolding(crate::specs::IpVlan::attributes))]
    fn read_into<P: Place<Self>>(
        place: &mut P,
        alloc: Global,
        _context: (),
        item: &NlaBuffer<'_>,
        looks: &mut Looks,
    ) -> Result<(), DecodeError> {
        rows!(put_rows(place, alloc, item, looks))
    }

    #[tactic(auto, unfolding(crate::specs::IpVlan::attributes))]
    fn form(_context: (), number: u16) -> (At, Form) {
        rows!(form_rows(number))
    }

    fn try_clone(&self, alloc: Global) -> Result<Self, AllocError> {
        rows!(clone_rows(self, alloc))
    }
}

/// The same of an IPVTAP.
pub type InfoIpVtap = InfoIpVlan;
