//! The attributes of an action: `TCA_ACT_*` of `linux/pkt_cls.h`.

ghost use Rattle.std.specs.Prelude.{refl};
ghost use Rattle.{
  npr_base.specs.Family.{shaped},
  npr_tc_actions.specs.{Attribute.{family, tells}, Form.{form_named}, lemmas.Once.{attributes_once, attributes_plain}},
  npr_tc_actions.specs.declared.form.TcActionForm.TheVariants.{Kept},
};

use crate::action_option::TcActionOption;
use crate::form::{TcActionForm, action_form_of_name};
use npr_base::{
    At, Attribute, AttributeSet, DecodeError, DefaultNla, EmitError, Form, Governed, GovernedList,
    Looks, NLA_F_NESTED, Nla, NlaBuffer, Place, check_list, clone_list, parse_list, put_read,
    without_zero, write_list,
};
use npr_tc_values::{TcBitfield, TcForm, TcStats2};
use std::alloc::{AllocError, Global};

/// The number of the kind, `TCA_ACT_KIND`.
const TCA_ACT_KIND: u16 = 1;

/// The number of the options, `TCA_ACT_OPTIONS`.
const TCA_ACT_OPTIONS: u16 = 2;

/// The number of the statistics, `TCA_ACT_STATS`.
const TCA_ACT_STATS: u16 = 4;

/// An attribute of an action. Options are read by the first kind of their list, wherever it stands.
#[derive(Debug, Drop, PartialEq, Eq)]
pub enum TcActionAttribute {
    /// `TCA_ACT_KIND`: the kind.
    Kind(String),
    /// `TCA_ACT_OPTIONS`: the options, by the kind. They are written with NESTED.
    Options(TcActionOption),
    /// `TCA_ACT_INDEX`: its index among the actions of its kind.
    Index(u32),
    /// `TCA_ACT_STATS`: what went through it.
    Stats(Vec<TcStats2>),
    /// `TCA_ACT_COOKIE`: what a program keeps with it, up to 16 bytes.
    Cookie(Vec<u8>),
    /// `TCA_ACT_FLAGS`: flags, and which of them are said (`TCA_ACT_FLAGS_*`).
    Flags(TcBitfield),
    /// `TCA_ACT_HW_STATS`: which statistics devices are to keep (`TCA_ACT_HW_STATS_*`).
    HwStats(TcBitfield),
    /// `TCA_ACT_USED_HW_STATS`: and which they keep.
    UsedHwStats(TcBitfield),
    /// `TCA_ACT_IN_HW_COUNT`: how many devices have it.
    InHwCount(u32),
    /// An attribute of another number, as it stands.
    Other(DefaultNla),
}

/// The rows of the table that stand for themselves. Numbers 2 and 4 stand beside them in each match.
macro_rules! rows {
    ($body:ident ($($given:tt)*)) => {
        npr_base::$body!(($($given)*) TcActionAttribute of TcAction {
            1 Kind(name);
            3 Index(le32);
            6 Cookie(raw);
            7 Flags(TcBitfield exactly 8);
            8 HwStats(TcBitfield exactly 8);
            9 UsedHwStats(TcBitfield exactly 8);
            10 InHwCount(le32);
        })
    };
}

impl Nla for TcActionAttribute {
    ghost shape = { shaped family };

    fn kind(&self) -> u16 {
        rows!(kind_rows(self;
            TcActionAttribute::Options(_) => NLA_F_NESTED + TCA_ACT_OPTIONS,
            TcActionAttribute::Stats(_) => TCA_ACT_STATS,
        ))
    }

    fn is_nested(&self) -> bool {
        false
    }

    fn check_value(&self) -> Result<usize, EmitError> {
        Ok(rows!(len_rows(self;
            TcActionAttribute::Options(options) => options.check()?,
            TcActionAttribute::Stats(xs) => check_list(xs.as_slice())?,
        )))
    }

    fn write_value(&self, out: &mut [u8]) -> usize {
        rows!(write_rows(self, out;
            TcActionAttribute::Options(options) => options.write(out),
            TcActionAttribute::Stats(xs) => write_list(xs.as_slice(), out),
        ))
    }
}

impl Attribute for TcActionAttribute {
    type Context = TcActionForm;

    ghost family = { family };

    ghost shape_is = { λ a. refl };

    fn read_into<P: Place<Self>>(
        place: &mut P,
        alloc: Global,
        form: TcActionForm,
        item: &NlaBuffer<'_>,
        looks: &mut Looks,
    ) -> Result<(), DecodeError> {
        rows!(put_rows(place, alloc, item, looks;
            TCA_ACT_OPTIONS => put_read(
                place,
                TcActionOption::read(alloc, form, item.value(), looks),
                TcActionAttribute::Options,
            ),
            TCA_ACT_STATS => put_read(
                place,
                parse_list(alloc, TcForm::Kept, item.value(), looks),
                TcActionAttribute::Stats,
            ),
        ))
    }

    fn form(form: TcActionForm, number: u16) -> (At, Form) {
        rows!(form_rows(number;
            TCA_ACT_OPTIONS => TcActionOption::form(form),
            TCA_ACT_STATS => Form::List(AttributeSet::TcStats2, 0),
        ))
    }

    fn try_clone(&self, alloc: Global) -> Result<Self, AllocError> {
        rows!(clone_rows(self, alloc;
            TcActionAttribute::Options(options) => options.try_clone(alloc).map(TcActionAttribute::Options),
            TcActionAttribute::Stats(xs) => clone_list(alloc, xs.as_slice()).map(TcActionAttribute::Stats),
        ))
    }
}

impl Governed for TcActionAttribute {
    ghost tells = { tells };

    ghost untold = { Kept };

    fn told(item: &NlaBuffer<'_>) -> Option<TcActionForm> {
        match item.kind() {
            TCA_ACT_KIND => Some(action_form_of_name(without_zero(item.value()))),
            _ => None,
        }
    }

    fn default_context() -> TcActionForm {
        TcActionForm::Kept
    }
}

impl GovernedList for TcActionAttribute {
    ghost plain = { attributes_plain };

    ghost once = { attributes_once };
}
