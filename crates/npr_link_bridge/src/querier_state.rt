//! Who asks for multicast groups: `BRIDGE_QUERIER_*` of `linux/if_bridge.h`.

ghost use Rattle.std.specs.Prelude.{refl};
ghost use Rattle.{npr_base.specs.Family.{shaped}, npr_link_bridge.specs.QuerierState.{family}};

use npr_base::{
    At, Attribute, DecodeError, DefaultNla, EmitError, Form, Ipv4Addr, Ipv6Addr, Looks, Nla,
    NlaBuffer, Place,
};
use std::alloc::{AllocError, Global};

/// Who asks for multicast groups.
#[derive(Debug, Drop, PartialEq, Eq)]
pub enum BridgeQuerierState {
    /// `BRIDGE_QUERIER_IP_ADDRESS`: the address of version 4.
    Ipv4Address(Ipv4Addr),
    /// `BRIDGE_QUERIER_IP_PORT`: the index of its port.
    Ipv4Port(u32),
    /// `BRIDGE_QUERIER_IP_OTHER_TIMER`: for how long it is remembered, in hundredths of a second.
    Ipv4OtherTimer(u64),
    /// `BRIDGE_QUERIER_IPV6_ADDRESS`: the address of version 6.
    Ipv6Address(Ipv6Addr),
    /// `BRIDGE_QUERIER_IPV6_PORT`: the index of its port.
    Ipv6Port(u32),
    /// `BRIDGE_QUERIER_IPV6_OTHER_TIMER`: for how long it is remembered, in hundredths of a second.
    Ipv6OtherTimer(u64),
    /// An attribute of another number, as it stands.
    Other(DefaultNla),
}

/// The rows of the table.
macro_rules! rows {
    ($body:ident ($($given:tt)*)) => {
        npr_base::$body!(($($given)*) BridgeQuerierState of BridgeQuerierState {
            1 Ipv4Address(octets4);
            2 Ipv4Port(le32);
            3 Ipv4OtherTimer(le64);
            5 Ipv6Address(octets16);
            6 Ipv6Port(le32);
            7 Ipv6OtherTimer(le64);
        })
    };
}

impl Nla for BridgeQuerierState {
    ghost shape = { shaped family };

    fn kind(&self) -> u16 {
        rows!(kind_rows(self))
    }

    fn is_nested(&self) -> bool {
        false
    }

    fn check_value(&self) -> Result<usize, EmitError> {
        Ok(rows!(len_rows(self)))
    }

    fn write_value(&self, out: &mut [u8]) -> usize {
        rows!(write_rows(self, out))
    }
}

impl Attribute for BridgeQuerierState {
    type Context = ();

    ghost family = { family };

    ghost shape_is = { λ a. refl };

    #[tactic(auto, unfolding(crate::specs::QuerierState::attributes))]
    fn read_into<P: Place<Self>>(
        place: &mut P,
        alloc: Global,
        _context: (),
        item: &NlaBuffer<'_>,
        looks: &mut Looks,
    ) -> Result<(), DecodeError> {
        rows!(put_rows(place, alloc, item, looks))
    }

    #[tactic(auto, unfolding(crate::specs::QuerierState::attributes))]
    fn form(_context: (), number: u16) -> (At, Form) {
        rows!(form_rows(number))
    }

    fn try_clone(&self, alloc: Global) -> Result<Self, AllocError> {
        rows!(clone_rows(self, alloc))
    }
}
