//! The data of a queueing discipline, a class or a filter: `TCA_OPTIONS` of `linux/rtnetlink.h`.

ghost use Rattle.std.specs.Prelude.{◌≡◌, ◌≢◌, ◌≤◌, ◌<◌, None, length, IfOk, IfErr, OnErr};
ghost use Rattle.{
  npr_base.specs.{
    declared.refusal.DecodeError.TheVariants.{OutOfMemory},
    Counts.{AddsAtMost},
    Framing.{Writes},
    Lists.{checked},
    Looks.{Answered},
    Table.{slot_bytes, slot_unfit},
  },
  npr_tc_values.specs.declared.form.TcForm.TheVariants.{Kept},
  npr_tc.specs.Options.{AreData, AreNoData, TakesLooks, kind_of, options_of, options_slot, shown_as},
};

use npr_base::{DecodeError, EmitError, Form, Looks};
use npr_tc_filters::{
    TcFilterBasicOption, TcFilterBpfOption, TcFilterFlowerOption, TcFilterFwOption,
    TcFilterMatchAllOption, TcFilterU32Option,
};
use npr_tc_qdiscs::{
    TcFifoQopt, TcNetem, TcPrioQopt, TcQdiscCakeOption, TcQdiscFqCodelOption, TcQdiscFqOption,
    TcQdiscHtbOption, TcQdiscIngressOption, TcQdiscRedOption, TcQdiscTbfOption, TcSfqQopt,
};
use npr_tc_values::TcForm;
use std::alloc::{AllocError, Global};

/// The data of a queueing discipline, a class or a filter: what they are follows from the first kind in
/// the message.
#[derive(Debug, Drop, PartialEq, Eq)]
pub enum TcOption {
    /// Of `fq_codel`.
    FqCodel(Vec<TcQdiscFqCodelOption>),
    /// Of `ingress`.
    Ingress(Vec<TcQdiscIngressOption>),
    /// Of `clsact`.
    Clsact(Vec<TcQdiscIngressOption>),
    /// Of the filter `u32`.
    U32(Vec<TcFilterU32Option>),
    /// Of the filter `flower`.
    Flower(Vec<TcFilterFlowerOption>),
    /// Of the filter `matchall`.
    MatchAll(Vec<TcFilterMatchAllOption>),
    /// Of `htb`.
    Htb(Vec<TcQdiscHtbOption>),
    /// Of `tbf`.
    Tbf(Vec<TcQdiscTbfOption>),
    /// Of `red`.
    Red(Vec<TcQdiscRedOption>),
    /// Of `fq`.
    Fq(Vec<TcQdiscFqOption>),
    /// Of `netem`.
    Netem(TcNetem),
    /// Of `prio` and `pfifo_fast`.
    Prio(TcPrioQopt),
    /// Of `pfifo`, `bfifo` and `pfifo_head_drop`.
    Fifo(TcFifoQopt),
    /// Of the filter `fw`.
    Fw(Vec<TcFilterFwOption>),
    /// Of the filter `bpf`.
    Bpf(Vec<TcFilterBpfOption>),
    /// Of `cake`.
    Cake(Vec<TcQdiscCakeOption>),
    /// Of `sfq`.
    Sfq(TcSfqQopt),
    /// Of the filter `basic`.
    Basic(Vec<TcFilterBasicOption>),
}

/// The variants.
macro_rules! variants {
    ($body:ident ($($given:tt)*)) => {
        npr_base::$body!(($($given)*) TcOption {
            FqCodel(list TcQdiscFqCodel);
            Ingress(list TcQdiscIngress);
            Clsact(list TcQdiscIngress);
            U32(list TcFilterU32);
            Flower(list TcFilterFlower);
            MatchAll(list TcFilterMatchAll);
            Htb(list TcQdiscHtb);
            Tbf(list TcQdiscTbf);
            Red(list TcQdiscRed);
            Fq(list TcQdiscFq);
            Netem(TcNetem inside TcQdiscNetem 24);
            Prio(TcPrioQopt leading 20);
            Fifo(TcFifoQopt leading 4);
            Fw(list TcFilterFw);
            Bpf(list TcFilterBpf);
            Cake(list TcQdiscCake);
            Sfq(TcSfqQopt value raw);
            Basic(list TcFilterBasic);
        })
    };
}

impl TcOption {
    /// The data that these bytes are. Each look at a header is counted. Asks that a kind governs.
    ///
    /// # Errors
    /// `OutOfMemory` where memory is refused, and else the first fault in reading order.
    pub(crate) fn read(
        alloc: Global,
        form: TcForm,
        bytes: &[u8],
        looks: &mut Looks,
    ) -> Result<Self, DecodeError>
        requires { form ≢ Kept }
        ensures ok { IfOk result (λ x. AreData (kind_of form) bytes.now (options_of x)) }
        ensures refused { IfErr result (λ e. e ≢ OutOfMemory → AreNoData (kind_of form) bytes.now e) }
        ensures exact { Answered result → TakesLooks (kind_of form) bytes.now looks.old looks.new }
        ensures bounded { AddsAtMost looks.old looks.new (length bytes.now) }
    {
        variants!(data_read(form, TcForm, alloc, bytes, looks; TcForm::Kept => unreachable!(),))
    }

    /// How the data are read without memory.
    pub(crate) fn form(form: TcForm) -> Form
        ensures { result ≡ shown_as form }
    {
        variants!(data_form(form, TcForm; TcForm::Kept => Form::Raw,))
    }

    /// An equal value.
    ///
    /// # Errors
    /// `AllocError` where memory is refused; where nothing stands in it none is taken.
    pub fn try_clone(&self, alloc: Global) -> Result<Self, AllocError>
        ensures { IfOk result (λ x. options_of x ≡ options_of self.now) }
    {
        variants!(data_cloned(self, alloc))
    }

    /// The length of the bytes, or the first cause inside why there are none.
    pub(crate) fn check(&self) -> Result<usize, EmitError>
        ensures { result ≡ checked (slot_unfit (options_slot (options_of self.now))) (length (slot_bytes (options_slot (options_of self.now)))) }
    {
        variants!(data_checked(self))
    }

    /// Writes the bytes at the front of the slice, leaves the rest, and answers their length.
    pub(crate) fn write(&self, out: &mut [u8]) -> usize
        requires fits { slot_unfit (options_slot (options_of self.now)) ≡ None }
        requires room { length (slot_bytes (options_slot (options_of self.now))) ≤ length out.old }
        ensures len { result ≡ length (slot_bytes (options_slot (options_of self.now))) }
        ensures after { Writes out.old out.new (slot_bytes (options_slot (options_of self.now))) }
    {
        variants!(data_written(self, out))
    }
}
