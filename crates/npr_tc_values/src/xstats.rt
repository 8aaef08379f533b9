//! The counters of a kind: `TCA_XSTATS` of `linux/rtnetlink.h`, `TCA_STATS_APP` of `linux/gen_stats.h`.

ghost use Rattle.std.specs.Prelude.{◌≡◌, ◌≢◌, ◌≤◌, ◌<◌, None, length, IfOk, IfErr, IsErrOf, OnErr};
ghost use Rattle.{
  npr_base.specs.{
    declared.refusal.DecodeError.TheVariants.{OutOfMemory},
    Counts.{AddsAtMost},
    Framing.{Writes},
    Lists.{checked},
    Looks.{Answered, TakesInside},
    Refusal.{no_place},
  },
  npr_tc_values.specs.Xstats.{case, held, xstats, xstats_of},
};

use crate::cake_stat::TcCakeStat;
use crate::form::TcForm;
use crate::fq_codel_xstats::TcFqCodelXstats;
use crate::fq_qd_stats::TcFqQdStats;
use crate::htb_xstats::TcHtbXstats;
use crate::netem_xstats::TcNetemXstats;
use crate::red_xstats::TcRedXstats;
use crate::sfq_xstats::TcSfqXstats;
use npr_base::{DecodeError, EmitError, Form, Looks, read_bytes, write_bytes};
use std::alloc::{AllocError, Global};

/// The counters of a kind: what they are follows from the kind that governs the message.
#[derive(Debug, Drop, PartialEq, Eq)]
pub enum TcXstats {
    /// Those of `fq_codel`.
    FqCodel(TcFqCodelXstats),
    /// Those of a class of `htb`.
    Htb(TcHtbXstats),
    /// Those of `fq`.
    Fq(TcFqQdStats),
    /// Those of `red`.
    Red(TcRedXstats),
    /// Those of `netem`.
    Netem(TcNetemXstats),
    /// Those of a flow of `sfq`.
    Sfq(TcSfqXstats),
    /// Those of `cake`, or of one of its flows.
    Cake(Vec<TcCakeStat>),
    /// The bytes of a kind whose counters are kept as they stand.
    Other(Vec<u8>),
}

/// The variants that hold fields or attributes. That of `fq_codel` stands beside them in each match.
macro_rules! variants {
    ($body:ident ($($given:tt)*)) => {
        npr_base::$body!(($($given)*) TcXstats {
            Htb(TcHtbXstats value raw);
            Fq(TcFqQdStats value raw);
            Red(TcRedXstats value raw);
            Netem(TcNetemXstats value raw);
            Sfq(TcSfqXstats value raw);
            Cake(list TcCakeStat);
        })
    };
}

impl TcXstats {
    /// The counters of these bytes. Each look at a header is counted.
    ///
    /// # Errors
    /// `OutOfMemory` where memory is refused, and else the first fault in reading order; of bytes that are
    /// kept none is one.
    pub fn read(
        alloc: Global,
        form: TcForm,
        bytes: &[u8],
        looks: &mut Looks,
    ) -> Result<Self, DecodeError>
        ensures ok { IfOk result (λ x. (xstats form).Reads bytes.now (xstats_of x)) }
        ensures refused { IfErr result (λ e. e ≢ OutOfMemory → (xstats form).Wrong no_place bytes.now e) }
        ensures exact { Answered result → TakesInside (xstats form).members.looks bytes.now looks.old looks.new }
        // Memory is taken for a first whole attribute, and for bytes that are kept.
        ensures memory { IsErrOf result OutOfMemory → (case form).memory bytes.now }
        ensures bounded { AddsAtMost looks.old looks.new (length bytes.now) }
    {
        variants!(data_read(form, TcForm, alloc, bytes, looks;
            TcForm::FqCodel => Ok(TcXstats::FqCodel(TcFqCodelXstats::parse(alloc, bytes)?)),
            _ => Ok(TcXstats::Other(read_bytes(alloc, bytes)?)),
        ))
    }

    /// How the counters are read without memory.
    pub fn form(form: TcForm) -> Form
        ensures { result ≡ (xstats form).showing.form }
    {
        variants!(data_form(form, TcForm; _ => Form::Raw,))
    }

    /// An equal value.
    ///
    /// # Errors
    /// `AllocError` where memory is refused; where nothing stands in it none is taken.
    pub fn try_clone(&self, alloc: Global) -> Result<Self, AllocError>
        ensures ok { IfOk result (λ x. xstats_of x ≡ xstats_of self.now) }
        ensures memory { OnErr result (0 < (held (xstats_of self.now)).size) }
    {
        variants!(data_cloned(self, alloc;
            TcXstats::FqCodel(x) => x.try_clone(alloc).map(TcXstats::FqCodel),
            TcXstats::Other(bytes) => read_bytes(alloc, bytes.as_slice()).map(TcXstats::Other),
        ))
    }

    /// The length of the bytes, or the first cause inside why there are none.
    pub fn check(&self) -> Result<usize, EmitError>
        ensures { result ≡ checked (held (xstats_of self.now)).unfit (length (held (xstats_of self.now)).encoded) }
    {
        variants!(data_checked(self;
            TcXstats::FqCodel(x) => Ok(x.len()),
            TcXstats::Other(bytes) => Ok(bytes.len()),
        ))
    }

    /// Writes the bytes at the front of the slice, leaves the rest, and answers their length. Asks that
    /// `check` answers their length, and for room of it.
    ///
    /// # Panics
    /// May panic where it is not as asked.
    pub fn write(&self, out: &mut [u8]) -> usize
        requires fits { (held (xstats_of self.now)).unfit ≡ None }
        requires room { length (held (xstats_of self.now)).encoded ≤ length out.old }
        ensures len { result ≡ length (held (xstats_of self.now)).encoded }
        ensures after { Writes out.old out.new (held (xstats_of self.now)).encoded }
    {
        variants!(data_written(self, out;
            TcXstats::FqCodel(x) => x.write(out),
            TcXstats::Other(bytes) => write_bytes(bytes.as_slice(), out),
        ))
    }
}
