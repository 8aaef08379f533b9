//! The data of a VLAN: `IFLA_VLAN_*` of `linux/if_link.h`.

ghost use Rattle.std.specs.Prelude.{refl};
ghost use Rattle.{npr_base.specs.Family.{shaped}, npr_link.specs.Vlan.{family}};

use crate::values::{read_two_flags, write_two_numbers};
use crate::vlan_flags::VlanFlags;
use crate::vlan_qos::VlanQosMapping;
use bitflags::Flags;
use npr_base::{
    At, Attribute, AttributeSet, DecodeError, DefaultNla, EmitError, Form, Looks, Nla, NlaBuffer,
    Place, put_read,
};
use npr_link_bridge::{VlanProtocol, vlan_protocol_number};
use std::alloc::{AllocError, Global};

/// The data of a VLAN.
#[derive(Debug, Drop, PartialEq, Eq)]
pub enum InfoVlan {
    /// `IFLA_VLAN_ID`: the id.
    Id(u16),
    /// `IFLA_VLAN_FLAGS`: the flags, and those that are meant.
    Flags((VlanFlags, VlanFlags)),
    /// `IFLA_VLAN_EGRESS_QOS`: the priority in the tag, by that of the packet.
    EgressQos(Vec<VlanQosMapping>),
    /// `IFLA_VLAN_INGRESS_QOS`: the priority of the packet, by that in the tag.
    IngressQos(Vec<VlanQosMapping>),
    /// `IFLA_VLAN_PROTOCOL`: the protocol of the tag.
    Protocol(VlanProtocol),
    /// An attribute of another number, as it stands.
    Other(DefaultNla),
}

/// The rows of the table.
macro_rules! rows {
    ($body:ident ($($given:tt)*)) => {
        npr_base::$body!(($($given)*) InfoVlan of InfoVlan {
            1 Id(le16);
            3 EgressQos(list VlanQosMapping);
            4 IngressQos(list VlanQosMapping);
            5 Protocol(VlanProtocol as be16 by vlan_protocol_number);
        })
    };
}

impl Nla for InfoVlan {
    ghost shape = { shaped family };

    fn kind(&self) -> u16 {
        rows!(kind_rows(self; InfoVlan::Flags(_) => 2,))
    }

    fn is_nested(&self) -> bool {
        false
    }

    fn check_value(&self) -> Result<usize, EmitError> {
        Ok(rows!(len_rows(self; InfoVlan::Flags(_) => 8,)))
    }

    fn write_value(&self, out: &mut [u8]) -> usize {
        rows!(write_rows(self, out; InfoVlan::Flags(x) => write_two_numbers(x.0.bits(), x.1.bits(), out),))
    }
}

impl Attribute for InfoVlan {
    type Context = ();

    ghost family = { family };

    ghost shape_is = { λ a. refl };

    #[tactic(auto, unfolding(crate::specs::Vlan::attributes))]
    fn read_into<P: Place<Self>>(
        place: &mut P,
        alloc: Global,
        _context: (),
        item: &NlaBuffer<'_>,
        looks: &mut Looks,
    ) -> Result<(), DecodeError> {
        rows!(put_rows(place, alloc, item, looks; 2 => put_read(place, read_two_flags(item.value(), AttributeSet::InfoVlan.at(2)), InfoVlan::Flags),))
    }

    #[tactic(auto, unfolding(crate::specs::Vlan::attributes))]
    fn form(_context: (), number: u16) -> (At, Form) {
        rows!(form_rows(number; 2 => Form::Exactly(8),))
    }

    fn try_clone(&self, alloc: Global) -> Result<Self, AllocError> {
        rows!(clone_rows(self, alloc; InfoVlan::Flags(x) => Ok(InfoVlan::Flags(*x)),))
    }
}
