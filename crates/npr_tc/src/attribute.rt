//! The attributes of a message of traffic control: `TCA_*` of `linux/rtnetlink.h`.

ghost use Rattle.std.specs.Prelude.{◌≡◌, ◌≢◌, length, IfOk, IfErr};
ghost use Rattle.{
  npr_base.specs.{
    declared.refusal.DecodeError.TheVariants.{OutOfMemory},
    Counts.{AddsAtMost},
    Looks.{Answered},
  },
  npr_tc_values.specs.declared.form.TcForm.TheVariants.{Kept},
  npr_tc.specs.{
    Attribute.{IsRest, MeansSaid, family, rest, shape, shape-by, tells},
    Options.{Said, said},
  },
};

use crate::option::TcOption;
use npr_base::{
    At, Attribute, AttributeSet, DecodeError, DefaultNla, EmitError, Form, Governed, Looks, Nla,
    NlaBuffer, Place, check_list, clone_list, parse_list, put_read, without_zero, write_bytes,
    write_list,
};
use npr_tc_qdiscs::TcStab;
use npr_tc_values::{TcBitfield, TcEstimator, TcForm, TcStats, TcStats2, TcXstats, form_of_name};
use std::alloc::{AllocError, Global};

/// The number of the kind, `TCA_KIND`.
const TCA_KIND: u16 = 1;

/// The number of the data, `TCA_OPTIONS`.
const TCA_OPTIONS: u16 = 2;

/// The number of the counters of a kind, `TCA_XSTATS`.
const TCA_XSTATS: u16 = 4;

/// The number of the statistics, `TCA_STATS2`.
const TCA_STATS2: u16 = 7;

/// An attribute of a message of traffic control. Data, and what the counters of a kind mean, are read by the
/// first kind in the message, wherever it stands.
#[derive(Debug, Drop, PartialEq, Eq)]
pub enum TcAttribute {
    /// `TCA_OPTIONS`: the data, by the kind.
    Options(TcOption),
    /// `TCA_OPTIONS`, where no kind has data in a set, as it stands.
    OptionsUnknown(DefaultNla),
    /// `TCA_KIND`: the kind.
    Kind(String),
    /// `TCA_STATS`: what went by.
    Stats(TcStats),
    /// `TCA_XSTATS`: the counters of the kind.
    Xstats(TcXstats),
    /// `TCA_RATE`: how the rate is to be estimated.
    Rate(TcEstimator),
    /// `TCA_FCNT`: as it stands.
    Fcnt(Vec<u8>),
    /// `TCA_STATS2`: what went by, attribute by attribute.
    Stats2(Vec<TcStats2>),
    /// `TCA_STAB`: the sizes that packets are counted with.
    Stab(Vec<TcStab>),
    /// `TCA_DUMP_INVISIBLE`: what is not shown by itself is asked for.
    DumpInvisible,
    /// `TCA_CHAIN`: the chain.
    Chain(u32),
    /// `TCA_HW_OFFLOAD`: 1 where a device does it.
    HwOffload(u8),
    /// `TCA_INGRESS_BLOCK`: the block on the way in.
    IngressBlock(u32),
    /// `TCA_EGRESS_BLOCK`: the block on the way out.
    EgressBlock(u32),
    /// `TCA_DUMP_FLAGS`: what is asked of a dump (`TCA_DUMP_FLAGS_*`).
    DumpFlags(TcBitfield),
    /// `TCA_EXT_WARN_MSG`: a warning of the kernel.
    ExtWarnMsg(String),
    /// An attribute of another number, as it stands.
    Other(DefaultNla),
}

/// The rows of the table that stand for themselves. Numbers 2, 4 and 7 stand beside them in each match.
macro_rules! rows {
    ($body:ident ($($given:tt)*)) => {
        npr_base::$body!(($($given)*) TcAttribute of Tc {
            1 Kind(name);
            3 Stats(TcStats leading 40);
            5 Rate(TcEstimator leading 2);
            6 Fcnt(raw);
            8 Stab(list TcStab);
            10 DumpInvisible;
            11 Chain(le32);
            12 HwOffload(byte);
            13 IngressBlock(le32);
            14 EgressBlock(le32);
            15 DumpFlags(TcBitfield exactly 8);
            16 ExtWarnMsg(name);
        })
    };
}

impl Nla for TcAttribute {
    ghost shape = { shape };

    fn kind(&self) -> u16 {
        rows!(kind_rows(self;
            TcAttribute::Options(_) => TCA_OPTIONS,
            TcAttribute::OptionsUnknown(nla) => nla.kind(),
            TcAttribute::Xstats(_) => TCA_XSTATS,
            TcAttribute::Stats2(_) => TCA_STATS2,
        ))
    }

    fn is_nested(&self) -> bool {
        false
    }

    fn check_value(&self) -> Result<usize, EmitError> {
        Ok(rows!(len_rows(self;
            TcAttribute::Options(options) => options.check()?,
            TcAttribute::OptionsUnknown(nla) => nla.value().len(),
            TcAttribute::Xstats(x) => x.check()?,
            TcAttribute::Stats2(xs) => check_list(xs.as_slice())?,
        )))
    }

    fn write_value(&self, out: &mut [u8]) -> usize {
        rows!(write_rows(self, out;
            TcAttribute::Options(options) => options.write(out),
            TcAttribute::OptionsUnknown(nla) => write_bytes(nla.value(), out),
            TcAttribute::Xstats(x) => x.write(out),
            TcAttribute::Stats2(xs) => write_list(xs.as_slice(), out),
        ))
    }
}

/// Puts the data: a list by what governs, or the attribute as it stands.
///
/// # Errors
/// `OutOfMemory` where memory is refused, and else the first fault in reading order.
fn put_options<P: Place<TcAttribute>>(
    place: &mut P,
    alloc: Global,
    form: TcForm,
    item: &NlaBuffer<'_>,
    looks: &mut Looks,
) -> Result<(), DecodeError>
    requires { P.ready place.old }
    ensures ok { IfOk result (λ _. (a : TcAttribute) × (s : Said) × P.puts place.old a place.new × MeansSaid a s × (said form).Reads item.now s) }
    ensures refused { IfErr result (λ e. e ≢ OutOfMemory → (said form).Faulty item.now e) }
    ensures exact { Answered result → (said form).looks.Takes item.now looks.old looks.new }
    ensures bounded { AddsAtMost looks.old looks.new (length (item.now).value) }
{
    match form {
        TcForm::Kept => {
            place.put(TcAttribute::OptionsUnknown(DefaultNla::read(alloc, item)?));
            Ok(())
        }
        _ => {
            let options = TcOption::read(alloc, form, item.value(), looks)?;
            place.put(TcAttribute::Options(options));
            Ok(())
        }
    }
}

/// Puts an attribute of another number than that of the data.
///
/// # Errors
/// `OutOfMemory` where memory is refused, and else the first fault in reading order.
#[tactic(auto, unfolding(crate::specs::Attribute::IsRest))]
fn put_rest<P: Place<TcAttribute>>(
    place: &mut P,
    alloc: Global,
    form: TcForm,
    item: &NlaBuffer<'_>,
    looks: &mut Looks,
) -> Result<(), DecodeError>
    requires { P.ready place.old }
    ensures ok { IfOk result (λ _. (a : TcAttribute) × P.puts place.old a place.new × IsRest form item.now a) }
    ensures refused { IfErr result (λ e. e ≢ OutOfMemory → (rest form).Faulty item.now e) }
    ensures exact { Answered result → (rest form).looks.Takes item.now looks.old looks.new }
    ensures bounded { AddsAtMost looks.old looks.new (length (item.now).value) }
{
    rows!(put_rows(place, alloc, item, looks;
        TCA_XSTATS => put_read(
            place,
            TcXstats::read(alloc, form, item.value(), looks),
            TcAttribute::Xstats,
        ),
        TCA_STATS2 => put_read(
            place,
            parse_list(alloc, form, item.value(), looks),
            TcAttribute::Stats2,
        ),
    ))
}

impl Attribute for TcAttribute {
    type Context = TcForm;

    ghost family = { family };

    ghost shape_is = { shape-by };

    fn read_into<P: Place<Self>>(
        place: &mut P,
        alloc: Global,
        form: TcForm,
        item: &NlaBuffer<'_>,
        looks: &mut Looks,
    ) -> Result<(), DecodeError> {
        match item.kind() {
            TCA_OPTIONS => put_options(place, alloc, form, item, looks),
            _ => put_rest(place, alloc, form, item, looks),
        }
    }

    fn form(form: TcForm, number: u16) -> (At, Form) {
        rows!(form_rows(number;
            TCA_OPTIONS => TcOption::form(form),
            TCA_XSTATS => TcXstats::form(form),
            TCA_STATS2 => Form::List(AttributeSet::TcStats2, 0),
        ))
    }

    fn try_clone(&self, alloc: Global) -> Result<Self, AllocError> {
        rows!(clone_rows(self, alloc;
            TcAttribute::Options(options) => options.try_clone(alloc).map(TcAttribute::Options),
            TcAttribute::OptionsUnknown(nla) => nla.try_clone(alloc).map(TcAttribute::OptionsUnknown),
            TcAttribute::Xstats(x) => x.try_clone(alloc).map(TcAttribute::Xstats),
            TcAttribute::Stats2(xs) => clone_list(alloc, xs.as_slice()).map(TcAttribute::Stats2),
        ))
    }
}

impl Governed for TcAttribute {
    ghost tells = { tells };

    ghost untold = { Kept };

    fn told(item: &NlaBuffer<'_>) -> Option<TcForm> {
        match item.kind() {
            TCA_KIND => Some(form_of_name(without_zero(item.value()))),
            _ => None,
        }
    }

    fn default_context() -> TcForm {
        TcForm::Kept
    }
}
