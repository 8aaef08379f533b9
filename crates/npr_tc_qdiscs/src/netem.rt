//! The data of `netem`: `struct tc_netem_qopt` and `TCA_NETEM_*` of `linux/pkt_sched.h`.

ghost use Rattle.std.specs.Prelude.{◌≡◌, ◌≢◌, ◌≤◌, ◌<◌, ℕ, List, None, length, drop, IfOk, IfErr, IsErrOf, OnErr};
ghost use Rattle.{
  npr_base.specs.{
    declared.refusal.DecodeError.TheVariants.{OutOfMemory},
    Counts.{AddsAtMost},
    Framing.{Item, Front, Writes},
    Lists.{checked},
    Looks.{Answered},
    Message.{IsMessage, MessageFault, MessageLooks},
  },
  npr_tc_qdiscs.specs.Netem.{netem, netem_of, netems},
};

use crate::netem_option::TcQdiscNetemOption;
use crate::netem_qopt::TcNetemQopt;
use npr_base::{
    DecodeError, EmitError, Emitable, Looks, check_list, clone_list, parse_list, write_list,
};
use std::alloc::{AllocError, Global};

/// The length of `struct tc_netem_qopt`, in bytes.
const QOPT_SIZE: usize = 24;

/// The data of `netem`: a structure of 24 bytes, and attributes to the end.
#[derive(Debug, Drop, PartialEq, Eq)]
pub struct TcNetem {
    /// The structure.
    pub qopt: TcNetemQopt,
    /// The attributes, in their order.
    pub options: Vec<TcQdiscNetemOption>,
}

impl TcNetem {
    /// The data that the bytes are.
    ///
    /// # Errors
    /// `OutOfMemory` where memory is refused, and else the first fault in reading order.
    pub fn parse(alloc: Global, bytes: &[u8]) -> Result<Self, DecodeError>
        ensures ok { IfOk result (λ x. IsMessage netems bytes.now (netem_of x)) }
        ensures refused { IfErr result (λ e. e ≢ OutOfMemory → MessageFault netems bytes.now e) }
        // Memory is taken behind a first whole attribute alone.
        ensures memory { IsErrOf result OutOfMemory → (x : Item) × (rest : List ℕ) × Front (drop 24 bytes.now) x rest }
    {
        Self::read(alloc, bytes, &mut Looks::new())
    }

    /// `parse`, with the looks at headers counted.
    pub fn read(alloc: Global, bytes: &[u8], looks: &mut Looks) -> Result<Self, DecodeError>
        ensures ok { IfOk result (λ x. IsMessage netems bytes.now (netem_of x)) }
        ensures refused { IfErr result (λ e. e ≢ OutOfMemory → MessageFault netems bytes.now e) }
        // Memory is taken behind a first whole attribute alone.
        ensures memory { IsErrOf result OutOfMemory → (x : Item) × (rest : List ℕ) × Front (drop 24 bytes.now) x rest }
        ensures exact { Answered result → MessageLooks netems bytes.now looks.old looks.new }
        ensures bounded { AddsAtMost looks.old looks.new (length bytes.now) }
    {
        let qopt = TcNetemQopt::parse(bytes)?;
        let options = parse_list(alloc, (), &bytes[QOPT_SIZE..], looks)?;
        Ok(TcNetem { qopt, options })
    }

    /// An equal value.
    ///
    /// # Errors
    /// `AllocError` where memory is refused; without attributes none is taken.
    pub fn try_clone(&self, alloc: Global) -> Result<Self, AllocError>
        ensures ok { IfOk result (λ x. netem_of x ≡ netem_of self.now) }
        ensures memory { OnErr result (0 < length self.now.options.items) }
    {
        Ok(TcNetem {
            qopt: self.qopt,
            options: clone_list(alloc, self.options.as_slice())?,
        })
    }

    /// The length of the bytes, or the first cause inside why there are none.
    pub fn check(&self) -> Result<usize, EmitError>
        ensures { result ≡ checked (netem.unfit 0 (netem_of self.now)) (length (netem.encode (netem_of self.now))) }
    {
        let len = check_list(self.options.as_slice())?;
        len.checked_add(QOPT_SIZE).ok_or(EmitError::Total)
    }

    /// Writes the bytes at the front of the slice, leaves the rest, and answers their length. Asks that
    /// `check` answers their length, and for room of it.
    ///
    /// # Panics
    /// May panic where it is not as asked.
    pub fn write(&self, out: &mut [u8]) -> usize
        requires fits { netem.unfit 0 (netem_of self.now) ≡ None }
        requires room { length (netem.encode (netem_of self.now)) ≤ length out.old }
        ensures len { result ≡ length (netem.encode (netem_of self.now)) }
        ensures after { Writes out.old out.new (netem.encode (netem_of self.now)) }
    {
        let len = write_list(self.options.as_slice(), &mut out[QOPT_SIZE..]);
        self.qopt.emit(out);
        QOPT_SIZE + len
    }
}
