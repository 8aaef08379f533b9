//! Counters of ICMP version 6: `ICMP6_MIB_*` of `linux/snmp.h`.

ghost use Rattle.std.specs.Prelude.{◌≡◌};
ghost use Rattle.npr_link_statistics.specs.{Grown.{parts}, Names.{icmp6_stats}};

use crate::grown::Grown;
use crate::numbers::{copy_numbers, grown_len, read_grown, write_grown};
use std::alloc::{AllocError, Global};

/// Counters of ICMP version 6 on a link, 8 bytes each: `ICMP6_MIB_*` of `linux/snmp.h`.
#[derive(Debug, Drop, PartialEq, Eq)]
pub struct Icmp6Stats {
    /// `ICMP6_MIB_NUM`.
    pub num: i64,
    /// `ICMP6_MIB_INMSGS`.
    pub in_msgs: i64,
    /// `ICMP6_MIB_INERRORS`.
    pub in_errors: i64,
    /// `ICMP6_MIB_OUTMSGS`.
    pub out_msgs: i64,
    /// `ICMP6_MIB_OUTERRORS`.
    pub out_errors: i64,
    /// `ICMP6_MIB_CSUMERRORS`.
    pub csum_errors: i64,
    /// `ICMP6_MIB_RATELIMITHOST`.
    pub rate_limit_host: i64,
    /// How many of the last counters the kernel does not have: these are 0, and are not written.
    pub missing: usize,
    /// The counters behind these, which a newer kernel has.
    pub more: Vec<i64>,
}

/// The fields in the order in which kernels write them.
macro_rules! fields {
    ($body:ident ($($given:tt)*)) => {
        crate::$body!(($($given)*) Icmp6Stats {
            num, in_msgs, in_errors, out_msgs, out_errors, csum_errors, rate_limit_host,
        })
    };
}

impl Icmp6Stats {
    /// The fields.
    #[tactic(auto, unfolding(crate::specs::Names::icmp6_stats))]
    fn fields(&self) -> [i64; 7]
        ensures { result ≡ (parts icmp6_stats self.now).fields }
    {
        fields!(listed(self))
    }

    /// The structure of these fields.
    fn of(fields: [i64; 7], missing: usize, more: Vec<i64>) -> Self
        ensures { parts icmp6_stats result ≡ record { fields = fields; missing = missing; more = more.items } }
    {
        fields!(filled(fields, missing, more))
    }
}

#[tactic(auto, unfolding(crate::specs::Names::icmp6_stats))]
impl Grown for Icmp6Stats {
    type Number = i64;

    ghost names = { icmp6_stats };

    fn new(alloc: Global) -> Self {
        Self::of([0; 7], 0, Vec::new(alloc))
    }

    fn of_numbers(alloc: Global, bytes: &[u8]) -> Result<Self, AllocError> {
        let mut fields = [0; 7];
        let (missing, more) = read_grown(alloc, bytes, &mut fields)?;
        Ok(Self::of(fields, missing, more))
    }

    fn try_clone(&self, alloc: Global) -> Result<Self, AllocError> {
        let more = copy_numbers(alloc, self.more.as_slice())?;
        Ok(Self::of(self.fields(), self.missing, more))
    }

    fn len(&self) -> usize {
        grown_len(7, self.missing, self.more.as_slice())
    }

    fn write(&self, out: &mut [u8]) -> usize {
        write_grown(&self.fields(), self.missing, self.more.as_slice(), out)
    }
}
