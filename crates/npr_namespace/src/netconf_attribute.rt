//! The attributes of a message of settings: `NETCONFA_*` of `linux/netconf.h`.

ghost use Rattle.std.specs.Prelude.{refl};
ghost use Rattle.{npr_base.specs.Family.{shaped}, npr_namespace.specs.NetconfAttribute.{family}};

use npr_base::{
    At, Attribute, DecodeError, DefaultNla, EmitError, Form, Looks, Nla, NlaBuffer, Place,
};
use std::alloc::{AllocError, Global};

/// An attribute of a message of settings.
#[derive(Debug, Drop, PartialEq, Eq)]
pub enum NetconfAttribute {
    /// `NETCONFA_IFINDEX`: the index of the interface; -1 is all of them, -2 the default for new
    /// ones.
    IfIndex(i32),
    /// `NETCONFA_FORWARDING`: whether packets are forwarded.
    Forwarding(i32),
    /// `NETCONFA_RP_FILTER`: how sources are checked by the way back to them.
    RpFilter(i32),
    /// `NETCONFA_MC_FORWARDING`: whether multicast packets are forwarded.
    McForwarding(i32),
    /// `NETCONFA_PROXY_NEIGH`: whether this host answers for neighbours.
    ProxyNeigh(i32),
    /// `NETCONFA_IGNORE_ROUTES_WITH_LINKDOWN`: whether routes over a link that is down are passed
    /// over.
    IgnoreRoutesWithLinkdown(i32),
    /// `NETCONFA_INPUT`: whether MPLS packets are taken.
    Input(i32),
    /// `NETCONFA_BC_FORWARDING`: whether broadcast packets to other networks are forwarded.
    BcForwarding(i32),
    /// `NETCONFA_FORCE_FORWARDING`: whether packets are forwarded whatever the setting for all
    /// interfaces.
    ForceForwarding(i32),
    /// An attribute of another number, as it stands.
    Other(DefaultNla),
}

/// The rows of the table.
macro_rules! rows {
    ($body:ident ($($given:tt)*)) => {
        npr_base::$body!(($($given)*) NetconfAttribute of Netconf {
            1 IfIndex(signed32);
            2 Forwarding(signed32);
            3 RpFilter(signed32);
            4 McForwarding(signed32);
            5 ProxyNeigh(signed32);
            6 IgnoreRoutesWithLinkdown(signed32);
            7 Input(signed32);
            8 BcForwarding(signed32);
            9 ForceForwarding(signed32);
        })
    };
}

impl Nla for NetconfAttribute {
    ghost shape = { shaped family };

    fn kind(&self) -> u16 {
        rows!(kind_rows(self))
    }

    fn is_nested(&self) -> bool {
        false
    }

    fn check_value(&self) -> Result<usize, EmitError> {
        Ok(rows!(len_rows(self)))
    }

    fn write_value(&self, out: &mut [u8]) -> usize {
        rows!(write_rows(self, out))
    }
}

impl Attribute for NetconfAttribute {
    type Context = ();

    ghost family = { family };

    ghost shape_is = { λ a. refl };

    fn read_into<P: Place<Self>>(
        place: &mut P,
        alloc: Global,
        _context: (),
        item: &NlaBuffer<'_>,
        looks: &mut Looks,
    ) -> Result<(), DecodeError> {
        rows!(put_rows(place, alloc, item, looks))
    }

    fn form(_context: (), number: u16) -> (At, Form) {
        rows!(form_rows(number))
    }

    fn try_clone(&self, alloc: Global) -> Result<Self, AllocError> {
        rows!(clone_rows(self, alloc))
    }
}
