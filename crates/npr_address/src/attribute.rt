//! The attributes of an address message: `IFA_*` of `linux/if_addr.h`.

ghost use Rattle.std.specs.Prelude.{refl};
ghost use Rattle.{npr_base.specs.Family.{shaped}, npr_address.specs.Attribute.{family}};

use crate::addr_flags::AddressFlags;
use crate::addr_protocol::AddressProtocol;
use crate::cache_info::{CacheInfo, CacheInfoBuffer};
use bitflags::Flags;
use npr_base::{
    At, Attribute, DecodeError, DefaultNla, EmitError, Form, IpAddr, Ipv4Addr, Ipv6Addr, Looks,
    Nla, NlaBuffer, Place,
};
use std::alloc::{AllocError, Global};

/// An attribute of an address message.
#[derive(Debug, Drop, PartialEq, Eq)]
pub enum AddressAttribute {
    /// `IFA_ADDRESS`: the address, or its peer where the interface has one.
    Address(IpAddr),
    /// `IFA_LOCAL`: the address of the interface itself.
    Local(IpAddr),
    /// `IFA_LABEL`: the name of the address.
    Label(String),
    /// `IFA_BROADCAST`: the address that reaches all on the link.
    Broadcast(Ipv4Addr),
    /// `IFA_ANYCAST`: an address that reaches any one of several.
    Anycast(Ipv6Addr),
    /// `IFA_CACHEINFO`: how long it is preferred and valid.
    CacheInfo(CacheInfo),
    /// `IFA_MULTICAST`: the address of a group.
    Multicast(Ipv6Addr),
    /// `IFA_FLAGS`: all its flags.
    Flags(AddressFlags),
    /// `IFA_RT_PRIORITY`: the metric of its route.
    RoutePriority(u32),
    /// `IFA_TARGET_NETNSID`: the network namespace that is meant.
    TargetNetNsId(i32),
    /// `IFA_PROTO`: what made it.
    Protocol(AddressProtocol),
    /// An attribute of another number, as it stands.
    Other(DefaultNla),
}

/// The rows of the table.
macro_rules! rows {
    ($body:ident ($($given:tt)*)) => {
        npr_base::$body!(($($given)*) AddressAttribute of Address {
            1 Address(ip);
            2 Local(ip);
            3 Label(name);
            4 Broadcast(octets4);
            5 Anycast(octets16);
            6 CacheInfo(CacheInfo leading 16);
            7 Multicast(octets16);
            8 Flags(AddressFlags flags le32);
            9 RoutePriority(le32);
            10 TargetNetNsId(signed32);
            11 Protocol(AddressProtocol as byte);
        })
    };
}

impl Nla for AddressAttribute {
    ghost shape = { shaped family };

    fn kind(&self) -> u16 {
        rows!(kind_rows(self))
    }

    fn is_nested(&self) -> bool {
        false
    }

    fn check_value(&self) -> Result<usize, EmitError> {
        Ok(rows!(len_rows(self)))
    }

    fn write_value(&self, out: &mut [u8]) -> usize {
        rows!(write_rows(self, out))
    }
}

impl Attribute for AddressAttribute {
    type Context = ();

    ghost family = { family };

    ghost shape_is = { λ a. refl };

    fn read_into<P: Place<Self>>(
        place: &mut P,
        alloc: Global,
        _context: (),
        item: &NlaBuffer<'_>,
        looks: &mut Looks,
    ) -> Result<(), DecodeError> {
        rows!(put_rows(place, alloc, item, looks))
    }

    fn form(_context: (), number: u16) -> (At, Form) {
        rows!(form_rows(number))
    }

    fn try_clone(&self, alloc: Global) -> Result<Self, AllocError> {
        rows!(clone_rows(self, alloc))
    }
}
