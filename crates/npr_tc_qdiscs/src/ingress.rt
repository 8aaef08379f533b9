//! The data of `ingress` and of `clsact`, which have no numbers.

ghost use Rattle.std.specs.Prelude.{refl};
ghost use Rattle.{npr_base.specs.Family.{shaped}, npr_tc_qdiscs.specs.Ingress.{family}};

use npr_base::{
    At, Attribute, AttributeSet, DecodeError, DefaultNla, EmitError, Form, Looks, Nla, NlaBuffer,
    Place, put_read,
};
use std::alloc::{AllocError, Global};

/// The data of `ingress` and of `clsact`, which have no numbers.
#[derive(Debug, Drop, PartialEq, Eq)]
pub enum TcQdiscIngressOption {
    /// An attribute of any number, as it stands.
    Other(DefaultNla),
}

impl Nla for TcQdiscIngressOption {
    ghost shape = { shaped family };

    fn kind(&self) -> u16 {
        let TcQdiscIngressOption::Other(nla) = self;
        nla.kind()
    }

    fn is_nested(&self) -> bool {
        false
    }

    fn check_value(&self) -> Result<usize, EmitError> {
        let TcQdiscIngressOption::Other(nla) = self;
        Ok(nla.value().len())
    }

    fn write_value(&self, out: &mut [u8]) -> usize {
        let TcQdiscIngressOption::Other(nla) = self;
        nla.write_value(out)
    }
}

impl Attribute for TcQdiscIngressOption {
    type Context = ();

    ghost family = { family };

    ghost shape_is = { λ a. refl };

    #[tactic(auto, unfolding(crate::specs::Ingress::attributes))]
    fn read_into<P: Place<Self>>(
        place: &mut P,
        alloc: Global,
        _context: (),
        item: &NlaBuffer<'_>,
        _looks: &mut Looks,
    ) -> Result<(), DecodeError> {
        put_read(
            place,
            DefaultNla::read(alloc, item),
            TcQdiscIngressOption::Other,
        )
    }

    #[tactic(auto, unfolding(crate::specs::Ingress::attributes))]
    fn form(_context: (), number: u16) -> (At, Form) {
        (AttributeSet::TcQdiscIngress.at(number), Form::Raw)
    }

    fn try_clone(&self, alloc: Global) -> Result<Self, AllocError> {
        let TcQdiscIngressOption::Other(nla) = self;
        nla.try_clone(alloc).map(TcQdiscIngressOption::Other)
    }
}
