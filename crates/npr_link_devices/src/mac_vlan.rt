//! The data of a MACVLAN: `IFLA_MACVLAN_*` of `linux/if_link.h`.

ghost use Rattle.std.specs.Prelude.{refl};
ghost use Rattle.{npr_base.specs.Family.{shaped}, npr_link_devices.specs.MacVlan.{family}};

use crate::mac_vlan_address::MacVlanAddress;
use crate::mac_vlan_address_mode::MacVlanMacAddressMode;
use crate::mac_vlan_flags::MacVlanFlags;
use crate::mac_vlan_mode::MacVlanMode;
use bitflags::Flags;
use npr_base::{
    At, Attribute, DecodeError, DefaultNla, EmitError, Form, Looks, Nla, NlaBuffer, Place,
};
use std::alloc::{AllocError, Global};

/// The data of a MACVLAN.
#[derive(Debug, Drop, PartialEq, Eq)]
pub enum InfoMacVlan {
    /// `IFLA_MACVLAN_MODE`: whom it talks to.
    Mode(MacVlanMode),
    /// `IFLA_MACVLAN_FLAGS`: its flags.
    Flags(MacVlanFlags),
    /// `IFLA_MACVLAN_MACADDR_MODE`: what is done with its sources.
    MacAddrMode(MacVlanMacAddressMode),
    /// `IFLA_MACVLAN_MACADDR`: the address of one.
    MacAddr([u8; 6]),
    /// `IFLA_MACVLAN_MACADDR_DATA`: the addresses of all.
    MacAddrData(Vec<MacVlanAddress>),
    /// `IFLA_MACVLAN_MACADDR_COUNT`: how many there are.
    MacAddrCount(u32),
    /// `IFLA_MACVLAN_BC_QUEUE_LEN`: how many broadcast packets may wait, as was asked for.
    BcQueueLen(u32),
    /// `IFLA_MACVLAN_BC_QUEUE_LEN_USED`: how many may, as is done.
    BcQueueLenUsed(u32),
    /// `IFLA_MACVLAN_BC_CUTOFF`: how many may get a multicast packet that does not wait.
    BcCutoff(i32),
    /// An attribute of another number, as it stands.
    Other(DefaultNla),
}

/// The rows of the table.
macro_rules! rows {
    ($body:ident ($($given:tt)*)) => {
        npr_base::$body!(($($given)*) InfoMacVlan of InfoMacVlan {
            1 Mode(MacVlanMode as le32);
            2 Flags(MacVlanFlags flags le16);
            3 MacAddrMode(MacVlanMacAddressMode as le32);
            4 MacAddr(octets 6);
            5 MacAddrData(list MacVlanAddress);
            6 MacAddrCount(le32);
            7 BcQueueLen(le32);
            8 BcQueueLenUsed(le32);
            9 BcCutoff(signed32);
        })
    };
}

impl Nla for InfoMacVlan {
    ghost shape = { shaped family };

    fn kind(&self) -> u16 {
        rows!(kind_rows(self))
    }

    fn is_nested(&self) -> bool {
        false
    }

    fn check_value(&self) -> Result<usize, EmitError> {
        Ok(rows!(len_rows(self)))
    }

    fn write_value(&self, out: &mut [u8]) -> usize {
        rows!(write_rows(self, out))
    }
}

impl Attribute for InfoMacVlan {
    type Context = ();

    ghost family = { family };

    ghost shape_is = { λ a. refl };

    #[tactic(auto, unfolding(crate::specs::MacVlan::attributes))]
    fn read_into<P: Place<Self>>(
        place: &mut P,
        alloc: Global,
        _context: (),
        item: &NlaBuffer<'_>,
        looks: &mut Looks,
    ) -> Result<(), DecodeError> {
        rows!(put_rows(place, alloc, item, looks))
    }

    #[tactic(auto, unfolding(crate::specs::MacVlan::attributes))]
    fn form(_context: (), number: u16) -> (At, Form) {
        rows!(form_rows(number))
    }

    fn try_clone(&self, alloc: Global) -> Result<Self, AllocError> {
        rows!(clone_rows(self, alloc))
    }
}

/// The same of a MACVTAP.
pub type InfoMacVtap = InfoMacVlan;
