//! A mapping of priorities: `IFLA_VLAN_QOS_*` of `linux/if_link.h`.

ghost use Rattle.std.specs.Prelude.{refl};
ghost use Rattle.{npr_base.specs.Family.{shaped}, npr_link.specs.VlanQos.{family}};

use crate::values::{read_two_numbers, write_two_numbers};
use npr_base::{
    At, Attribute, AttributeSet, DecodeError, DefaultNla, EmitError, Form, Looks, Nla, NlaBuffer,
    Place,
};
use std::alloc::{AllocError, Global};

/// A mapping of priorities.
#[derive(Debug, Drop, PartialEq, Eq)]
pub enum VlanQosMapping {
    /// `IFLA_VLAN_QOS_MAPPING`: from a priority to a priority.
    Mapping(u32, u32),
    /// An attribute of another number, as it stands.
    Other(DefaultNla),
}

/// The rows of the table.
macro_rules! rows {
    ($body:ident ($($given:tt)*)) => {
        npr_base::$body!(($($given)*) VlanQosMapping of VlanQosMapping {
        })
    };
}

impl Nla for VlanQosMapping {
    ghost shape = { shaped family };

    fn kind(&self) -> u16 {
        rows!(kind_rows(self; VlanQosMapping::Mapping(..) => 1,))
    }

    fn is_nested(&self) -> bool {
        false
    }

    fn check_value(&self) -> Result<usize, EmitError> {
        Ok(rows!(len_rows(self; VlanQosMapping::Mapping(..) => 8,)))
    }

    fn write_value(&self, out: &mut [u8]) -> usize {
        rows!(write_rows(self, out; VlanQosMapping::Mapping(from, to) => write_two_numbers(*from, *to, out),))
    }
}

impl Attribute for VlanQosMapping {
    type Context = ();

    ghost family = { family };

    ghost shape_is = { λ a. refl };

    #[tactic(auto, unfolding(crate::specs::VlanQos::attributes))]
    fn read_into<P: Place<Self>>(
        place: &mut P,
        alloc: Global,
        _context: (),
        item: &NlaBuffer<'_>,
        looks: &mut Looks,
    ) -> Result<(), DecodeError> {
        rows!(put_rows(place, alloc, item, looks;
            1 => {
                let (from, to) = read_two_numbers(item.value(), AttributeSet::VlanQosMapping.at(1))?;
                place.put(VlanQosMapping::Mapping(from, to));
                Ok(())
            }
        ))
    }

    #[tactic(auto, unfolding(crate::specs::VlanQos::attributes))]
    fn form(_context: (), number: u16) -> (At, Form) {
        rows!(form_rows(number; 1 => Form::Exactly(8),))
    }

    fn try_clone(&self, alloc: Global) -> Result<Self, AllocError> {
        rows!(clone_rows(self, alloc; VlanQosMapping::Mapping(from, to) => Ok(VlanQosMapping::Mapping(*from, *to)),))
    }
}
