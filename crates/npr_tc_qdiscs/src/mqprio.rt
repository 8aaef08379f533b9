//! The data of `mqprio`: `struct tc_mqprio_qopt` and `TCA_MQPRIO_*` of `linux/pkt_sched.h`.

ghost use Rattle.std.specs.Prelude.{◌≡◌, ◌≢◌, ◌≤◌, ◌<◌, ◌+◌, ◌++◌, ℕ, List, None, length, drop, IfOk, IfErr, IsErrOf, OnErr};
ghost use Rattle.{
  npr_base.specs.{
    declared.refusal.DecodeError.TheVariants.{OutOfMemory},
    Counts.{AddsAtMost},
    Family.{unfit_by, written_by},
    Framing.{Item, Front, Writes},
    Lists.{checked, encodings, list_unfit},
    Looks.{Answered, TakesInside},
    Refusal.{no_place},
  },
  npr_tc_qdiscs.specs.Mqprio.{mqprio, mqprio_of, options_place, space},
  npr_tc_qdiscs.specs.MqprioOption.{family},
};

use crate::mqprio_option::TcQdiscMqprioOption;
use crate::mqprio_qopt::TcMqprioQopt;
use npr_base::{
    DecodeError, EmitError, Emitable, Looks, check_list, clone_list, parse_list, write_array,
    write_list,
};
use std::alloc::{AllocError, Global};

/// The length of `struct tc_mqprio_qopt`, in bytes.
const QOPT_SIZE: usize = 82;

/// Where the attributes begin: the next multiple of 4.
const OPTIONS_PLACE: usize = 84;

/// The bytes from a place on; none where they end before it.
fn bytes_from(bytes: &[u8], at: usize) -> &[u8]
    ensures { result.now ≡ drop at bytes.now }
{
    &bytes[at.min(bytes.len())..]
}

/// The data of `mqprio`: a structure of 82 bytes, two that are not looked at and written 0, and attributes
/// to the end. Bytes that end before the attributes have none. A message keeps them as they stand
/// (`TcAttribute::OptionsUnknown`); `parse` reads them.
#[derive(Debug, Drop, PartialEq, Eq)]
pub struct TcMqprio {
    /// The structure.
    pub qopt: TcMqprioQopt,
    /// The attributes, in their order.
    pub options: Vec<TcQdiscMqprioOption>,
}

impl TcMqprio {
    /// The data that the bytes are.
    ///
    /// # Errors
    /// `OutOfMemory` where memory is refused, and else the first fault in reading order.
    pub fn parse(alloc: Global, bytes: &[u8]) -> Result<Self, DecodeError>
        ensures ok { IfOk result (λ x. mqprio.Reads bytes.now (mqprio_of x)) }
        ensures refused { IfErr result (λ e. e ≢ OutOfMemory → mqprio.Wrong no_place bytes.now e) }
        // Memory is taken behind a first whole attribute alone.
        ensures memory { IsErrOf result OutOfMemory → (x : Item) × (rest : List ℕ) × Front (drop options_place bytes.now) x rest }
    {
        Self::read(alloc, bytes, &mut Looks::new())
    }

    /// `parse`, with the looks at headers counted.
    pub fn read(alloc: Global, bytes: &[u8], looks: &mut Looks) -> Result<Self, DecodeError>
        ensures ok { IfOk result (λ x. mqprio.Reads bytes.now (mqprio_of x)) }
        ensures refused { IfErr result (λ e. e ≢ OutOfMemory → mqprio.Wrong no_place bytes.now e) }
        // Memory is taken behind a first whole attribute alone.
        ensures memory { IsErrOf result OutOfMemory → (x : Item) × (rest : List ℕ) × Front (drop options_place bytes.now) x rest }
        ensures exact { Answered result → TakesInside mqprio.members.looks bytes.now looks.old looks.new }
        ensures bounded { AddsAtMost looks.old looks.new (length bytes.now) }
    {
        let qopt = TcMqprioQopt::parse(bytes)?;
        let options = parse_list(alloc, (), bytes_from(bytes, OPTIONS_PLACE), looks)?;
        Ok(TcMqprio { qopt, options })
    }

    /// An equal value.
    ///
    /// # Errors
    /// `AllocError` where memory is refused; without attributes none is taken.
    pub fn try_clone(&self, alloc: Global) -> Result<Self, AllocError>
        ensures ok { IfOk result (λ x. mqprio_of x ≡ mqprio_of self.now) }
        ensures memory { OnErr result (0 < length self.now.options.items) }
    {
        Ok(TcMqprio {
            qopt: self.qopt,
            options: clone_list(alloc, self.options.as_slice())?,
        })
    }

    /// The length of the bytes, or the first cause inside why there are none.
    pub fn check(&self) -> Result<usize, EmitError>
        ensures { result ≡ checked (mqprio.unfit 0 (mqprio_of self.now)) (length (mqprio.encode (mqprio_of self.now))) }
    {
        let len = check_list(self.options.as_slice())?;
        len.checked_add(OPTIONS_PLACE).ok_or(EmitError::Total)
    }

    /// Writes what stands behind the structure at the front of the slice, leaves the rest, and answers its
    /// length. Asks that `check_list` accepts the attributes, and for room of that length.
    ///
    /// # Panics
    /// May panic where it is not as asked.
    fn write_behind(&self, out: &mut [u8]) -> usize
        requires fits { list_unfit (unfit_by family.writing) (written_by family.writing) (mqprio_of self.now).attributes ≡ None }
        requires room { length space + length (encodings (written_by family.writing) (mqprio_of self.now).attributes) ≤ length out.old }
        ensures len { result ≡ length space + length (encodings (written_by family.writing) (mqprio_of self.now).attributes) }
        ensures after { Writes out.old out.new (space ++ encodings (written_by family.writing) (mqprio_of self.now).attributes) }
    {
        let len = write_list(self.options.as_slice(), &mut out[2..]);
        write_array([0u8, 0], out);
        2 + len
    }

    /// Writes the bytes at the front of the slice, leaves the rest, and answers their length. Asks that
    /// `check` answers their length, and for room of it.
    ///
    /// # Panics
    /// May panic where it is not as asked.
    pub fn write(&self, out: &mut [u8]) -> usize
        requires fits { mqprio.unfit 0 (mqprio_of self.now) ≡ None }
        requires room { length (mqprio.encode (mqprio_of self.now)) ≤ length out.old }
        ensures len { result ≡ length (mqprio.encode (mqprio_of self.now)) }
        ensures after { Writes out.old out.new (mqprio.encode (mqprio_of self.now)) }
    {
        let len = self.write_behind(&mut out[QOPT_SIZE..]);
        self.qopt.emit(out);
        QOPT_SIZE + len
    }
}
