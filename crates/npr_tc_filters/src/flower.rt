//! The data of a flower filter as attributes: `TCA_FLOWER_*` of `linux/pkt_cls.h`.

ghost use Rattle.std.specs.{Cmp.{partial_equiv_from_equiv}, Prelude.{◌≡◌}};
ghost use Rattle.{
  npr_base.specs.Tables.{shape_by, shape-by},
  npr_tc_filters.specs.{
    Flower.{table, family},
    FlowerHeld.{held_at, held_of, same_option, tag_at},
    FlowerValue.{shape_of},
    lemmas.FlowerEquality.{flower_equivalence},
  },
};

use crate::flower_form::form_low;
use crate::flower_option::TcFilterFlowerOption;
use crate::flower_put::put_low;
use crate::flower_rows::{all_parts, name_rows, rows, value_row, value_rows};
use crate::flower_value::FlowerValue;
use npr_base::{
    At, Attribute, DecodeError, EmitError, Form, Looks, NLA_F_NESTED, Nla, NlaBuffer, Place,
    parse_list, put_read,
};
use std::alloc::{AllocError, Global};
use std::fmt;

/// What is done with a packet (`linux/pkt_cls.h`).
const TCA_FLOWER_ACT: u16 = 3;

/// The options of the tunnel (`linux/pkt_cls.h`).
const TCA_FLOWER_KEY_ENC_OPTS: u16 = 84;

/// Which bits of them are looked at (`linux/pkt_cls.h`).
const TCA_FLOWER_KEY_ENC_OPTS_MASK: u16 = 85;

/// The labels of MPLS, one by one (`linux/pkt_cls.h`).
const TCA_FLOWER_KEY_MPLS_OPTS: u16 = 99;

/// A message of CFM (`linux/pkt_cls.h`).
const TCA_FLOWER_KEY_CFM: u16 = 107;

impl TcFilterFlowerOption {
    /// The kind that is written, or 0 of an attribute that no row has the number of, and the value.
    fn parts(&self) -> (u16, FlowerValue<'_>)
        ensures tag { result.0 ≡ tag_at self.now }
        ensures held { held_of result.1 ≡ held_at self.now }
        ensures shape { shape_of result.0 result.1 ≡ shape_by table self.now }
    {
        rows!(value_rows(self))
    }

    /// The name of the variant.
    fn name(&self) -> &'static str {
        rows!(name_rows(self))
    }
}

/// As what is derived: the variant, and what it holds.
impl fmt::Debug for TcFilterFlowerOption {
    fn fmt<W: fmt::Write>(&self, f: &mut fmt::Formatter<W>) -> fmt::Result {
        let (_, value) = self.parts();
        f.debug_tuple(self.name()).field(&value).finish()
    }
}

/// By the kinds, and what both hold: a match over pairs of so many variants can't be checked.
impl PartialEq for TcFilterFlowerOption {
    ghost eq = { same_option };

    ghost laws = { partial_equiv_from_equiv flower_equivalence };

    fn eq(&self, other: &TcFilterFlowerOption) -> bool {
        let (tag, value) = self.parts();
        let (other_tag, other_value) = other.parts();
        tag == other_tag && value.same(&other_value)
    }
}

impl Eq for TcFilterFlowerOption {
    ghost laws = { flower_equivalence };
}

impl Nla for TcFilterFlowerOption {
    ghost shape = { shape_by table };

    fn kind(&self) -> u16 {
        let (tag, value) = self.parts();
        value.kind(tag)
    }

    fn is_nested(&self) -> bool {
        false
    }

    fn check_value(&self) -> Result<usize, EmitError> {
        let (_, value) = self.parts();
        value.check()
    }

    fn write_value(&self, out: &mut [u8]) -> usize {
        let (_, value) = self.parts();
        value.write(out)
    }
}

impl Attribute for TcFilterFlowerOption {
    type Context = ();

    ghost family = { family };

    ghost shape_is = { shape-by table };

    #[tactic(auto, using(crate::specs::Flower::no_looks), unfolding(crate::specs::Flower::attributes))]
    fn read_into<P: Place<Self>>(
        place: &mut P,
        alloc: Global,
        _context: (),
        item: &NlaBuffer<'_>,
        looks: &mut Looks,
    ) -> Result<(), DecodeError> {
        let value = item.value();
        match item.kind() {
            TCA_FLOWER_ACT => put_read(
                place,
                parse_list(alloc, (), value, looks),
                TcFilterFlowerOption::Actions,
            ),
            TCA_FLOWER_KEY_ENC_OPTS => put_read(
                place,
                parse_list(alloc, (), value, looks),
                TcFilterFlowerOption::EncOpts,
            ),
            TCA_FLOWER_KEY_ENC_OPTS_MASK => put_read(
                place,
                parse_list(alloc, (), value, looks),
                TcFilterFlowerOption::EncOptsMask,
            ),
            TCA_FLOWER_KEY_MPLS_OPTS => put_read(
                place,
                parse_list(alloc, (), value, looks),
                TcFilterFlowerOption::MplsOpts,
            ),
            TCA_FLOWER_KEY_CFM => put_read(
                place,
                parse_list(alloc, (), value, looks),
                TcFilterFlowerOption::Cfm,
            ),
            _ => put_low(place, alloc, item),
        }
    }

    #[tactic(auto, unfolding(crate::specs::Flower::attributes))]
    fn form(_context: (), number: u16) -> (At, Form) {
        form_low(number)
    }

    fn try_clone(&self, alloc: Global) -> Result<Self, AllocError> {
        rows!(all_parts(clone_rows(self, alloc)))
    }
}
