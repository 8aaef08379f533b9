//! Counters of `fq_codel`: `struct tc_fq_codel_xstats` of `linux/pkt_sched.h`.

ghost use Rattle.std.specs.Prelude.{◌≡◌, ◌≤◌, ◌<◌, ◌++◌, length, IfOk, OnErr};
ghost use Rattle.{
  npr_base.specs.Framing.{Writes},
  npr_tc_values.specs.FqCodelXstats.{counter_bytes, counters_in, fq_codel_xstats, fq_codel_xstats_of, has_mark, held_bytes},
};

use crate::fq_codel_cl_stats::TcFqCodelClStats;
use crate::fq_codel_qd_stats::TcFqCodelQdStats;
use npr_base::{read_bytes, write_array, write_bytes};
use std::alloc::{AllocError, Global};

/// `TCA_FQ_CODEL_XSTATS_QDISC` of `linux/pkt_sched.h`, little endian.
const QDISC: [u8; 4] = [0, 0, 0, 0];

/// `TCA_FQ_CODEL_XSTATS_CLASS` of `linux/pkt_sched.h`, little endian.
const CLASS: [u8; 4] = [1, 0, 0, 0];

/// Counters of `fq_codel`. In front stands a number of 4 bytes, little endian, that tells which.
#[derive(Debug, Drop, PartialEq, Eq)]
pub enum TcFqCodelXstats {
    /// `TCA_FQ_CODEL_XSTATS_QDISC`, 0: those of the queueing discipline.
    Qdisc(TcFqCodelQdStats),
    /// `TCA_FQ_CODEL_XSTATS_CLASS`, 1: those of a flow.
    Class(TcFqCodelClStats),
    /// All bytes, where another number or none stands in front.
    Other(Vec<u8>),
}

/// Whether the bytes begin with a mark.
fn begins_with(bytes: &[u8], mark: &[u8]) -> bool
    ensures { result ≡ has_mark mark.now bytes.now }
{
    &bytes[..4.min(bytes.len())] == mark
}

impl TcFqCodelXstats {
    /// The counters that the bytes are. No bytes are refused.
    ///
    /// # Errors
    /// `AllocError` where memory is refused; where nothing stands behind the number none is taken.
    pub fn parse(alloc: Global, bytes: &[u8]) -> Result<Self, AllocError>
        ensures ok { IfOk result (λ x. fq_codel_xstats.Reads bytes.now (fq_codel_xstats_of x)) }
        ensures memory { OnErr result (0 < held_bytes (counters_in bytes.now)) }
    {
        if begins_with(bytes, &QDISC) {
            let counters = read_bytes(alloc, &bytes[4..])?;
            return Ok(TcFqCodelXstats::Qdisc(TcFqCodelQdStats::new(counters)));
        }
        if begins_with(bytes, &CLASS) {
            let counters = read_bytes(alloc, &bytes[4..])?;
            return Ok(TcFqCodelXstats::Class(TcFqCodelClStats::new(counters)));
        }
        Ok(TcFqCodelXstats::Other(read_bytes(alloc, bytes)?))
    }

    /// An equal value.
    ///
    /// # Errors
    /// `AllocError` where memory is refused; without bytes none is taken.
    pub fn try_clone(&self, alloc: Global) -> Result<Self, AllocError>
        ensures ok { IfOk result (λ x. fq_codel_xstats_of x ≡ fq_codel_xstats_of self.now) }
        ensures memory { OnErr result (0 < held_bytes (fq_codel_xstats_of self.now)) }
    {
        match self {
            TcFqCodelXstats::Qdisc(x) => x.try_clone(alloc).map(TcFqCodelXstats::Qdisc),
            TcFqCodelXstats::Class(x) => x.try_clone(alloc).map(TcFqCodelXstats::Class),
            TcFqCodelXstats::Other(bytes) => {
                read_bytes(alloc, bytes.as_slice()).map(TcFqCodelXstats::Other)
            }
        }
    }

    /// The length of the bytes.
    pub(crate) fn len(&self) -> usize
        ensures { result ≡ length (counter_bytes (fq_codel_xstats_of self.now)) }
    {
        match self {
            TcFqCodelXstats::Qdisc(x) => 4 + x.bytes.len(),
            TcFqCodelXstats::Class(x) => 4 + x.bytes.len(),
            TcFqCodelXstats::Other(bytes) => bytes.len(),
        }
    }

    /// Writes the bytes at the front of the slice, leaves the rest, and answers their length.
    pub(crate) fn write(&self, out: &mut [u8]) -> usize
        requires { length (counter_bytes (fq_codel_xstats_of self.now)) ≤ length out.old }
        ensures len { result ≡ length (counter_bytes (fq_codel_xstats_of self.now)) }
        ensures after { Writes out.old out.new (counter_bytes (fq_codel_xstats_of self.now)) }
    {
        match self {
            TcFqCodelXstats::Qdisc(x) => write_marked(QDISC, x.bytes.as_slice(), out),
            TcFqCodelXstats::Class(x) => write_marked(CLASS, x.bytes.as_slice(), out),
            TcFqCodelXstats::Other(bytes) => write_bytes(bytes.as_slice(), out),
        }
    }
}

/// Writes a mark and bytes at the front of the slice, leaves the rest, and answers their length.
fn write_marked(mark: [u8; 4], bytes: &[u8], out: &mut [u8]) -> usize
    requires { length (mark ++ bytes.now) ≤ length out.old }
    ensures len { result ≡ length (mark ++ bytes.now) }
    ensures after { Writes out.old out.new (mark ++ bytes.now) }
{
    let at = write_array(mark, out);
    at + write_bytes(bytes, &mut out[at..])
}
