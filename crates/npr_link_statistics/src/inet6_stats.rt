//! Counters of IP version 6: `IPSTATS_MIB_*` of `linux/snmp.h`.

ghost use Rattle.std.specs.Prelude.{◌≡◌};
ghost use Rattle.npr_link_statistics.specs.{Grown.{parts}, Names.{inet6_stats}};

use crate::grown::Grown;
use crate::numbers::{copy_numbers, grown_len, read_grown, write_grown};
use std::alloc::{AllocError, Global};

/// Counters of IP version 6 on a link, 8 bytes each: `IPSTATS_MIB_*` of `linux/snmp.h`.
#[derive(Debug, Drop, PartialEq, Eq)]
pub struct Inet6Stats {
    /// `IPSTATS_MIB_NUM`.
    pub num: i64,
    /// `IPSTATS_MIB_INPKTS`.
    pub in_pkts: i64,
    /// `IPSTATS_MIB_INOCTETS`.
    pub in_octets: i64,
    /// `IPSTATS_MIB_INDELIVERS`.
    pub in_delivers: i64,
    /// `IPSTATS_MIB_OUTFORWDATAGRAMS`.
    pub out_forw_datagrams: i64,
    /// `IPSTATS_MIB_OUTREQUESTS`.
    pub out_requests: i64,
    /// `IPSTATS_MIB_OUTOCTETS`.
    pub out_octets: i64,
    /// `IPSTATS_MIB_INHDRERRORS`.
    pub in_hdr_errors: i64,
    /// `IPSTATS_MIB_INTOOBIGERRORS`.
    pub in_too_big_errors: i64,
    /// `IPSTATS_MIB_INNOROUTES`.
    pub in_no_routes: i64,
    /// `IPSTATS_MIB_INADDRERRORS`.
    pub in_addr_errors: i64,
    /// `IPSTATS_MIB_INUNKNOWNPROTOS`.
    pub in_unknown_protos: i64,
    /// `IPSTATS_MIB_INTRUNCATEDPKTS`.
    pub in_truncated_pkts: i64,
    /// `IPSTATS_MIB_INDISCARDS`.
    pub in_discards: i64,
    /// `IPSTATS_MIB_OUTDISCARDS`.
    pub out_discards: i64,
    /// `IPSTATS_MIB_OUTNOROUTES`.
    pub out_no_routes: i64,
    /// `IPSTATS_MIB_REASMTIMEOUT`.
    pub reasm_timeout: i64,
    /// `IPSTATS_MIB_REASMREQDS`.
    pub reasm_reqds: i64,
    /// `IPSTATS_MIB_REASMOKS`.
    pub reasm_oks: i64,
    /// `IPSTATS_MIB_REASMFAILS`.
    pub reasm_fails: i64,
    /// `IPSTATS_MIB_FRAGOKS`.
    pub frag_oks: i64,
    /// `IPSTATS_MIB_FRAGFAILS`.
    pub frag_fails: i64,
    /// `IPSTATS_MIB_FRAGCREATES`.
    pub frag_creates: i64,
    /// `IPSTATS_MIB_INMCASTPKTS`.
    pub in_mcast_pkts: i64,
    /// `IPSTATS_MIB_OUTMCASTPKTS`.
    pub out_mcast_pkts: i64,
    /// `IPSTATS_MIB_INBCASTPKTS`.
    pub in_bcast_pkts: i64,
    /// `IPSTATS_MIB_OUTBCASTPKTS`.
    pub out_bcast_pkts: i64,
    /// `IPSTATS_MIB_INMCASTOCTETS`.
    pub in_mcast_octets: i64,
    /// `IPSTATS_MIB_OUTMCASTOCTETS`.
    pub out_mcast_octets: i64,
    /// `IPSTATS_MIB_INBCASTOCTETS`.
    pub in_bcast_octets: i64,
    /// `IPSTATS_MIB_OUTBCASTOCTETS`.
    pub out_bcast_octets: i64,
    /// `IPSTATS_MIB_CSUMERRORS`.
    pub in_csum_errors: i64,
    /// `IPSTATS_MIB_NOECTPKTS`.
    pub in_no_ect_pkts: i64,
    /// `IPSTATS_MIB_ECT1PKTS`.
    pub in_ect1_pkts: i64,
    /// `IPSTATS_MIB_ECT0PKTS`.
    pub in_ect0_pkts: i64,
    /// `IPSTATS_MIB_CEPKTS`.
    pub in_ce_pkts: i64,
    /// `IPSTATS_MIB_REASM_OVERLAPS`.
    pub reasm_overlaps: i64,
    /// `IPSTATS_MIB_OUTPKTS`.
    pub out_pkts: i64,
    /// How many of the last counters the kernel does not have: these are 0, and are not written.
    pub missing: usize,
    /// The counters behind these, which a newer kernel has.
    pub more: Vec<i64>,
}

/// The fields in the order in which kernels write them.
macro_rules! fields {
    ($body:ident ($($given:tt)*)) => {
        crate::$body!(($($given)*) Inet6Stats {
            num, in_pkts, in_octets, in_delivers, out_forw_datagrams, out_requests, out_octets,
            in_hdr_errors, in_too_big_errors, in_no_routes, in_addr_errors, in_unknown_protos,
            in_truncated_pkts, in_discards, out_discards, out_no_routes, reasm_timeout, reasm_reqds,
            reasm_oks, reasm_fails, frag_oks, frag_fails, frag_creates, in_mcast_pkts,
            out_mcast_pkts, in_bcast_pkts, out_bcast_pkts, in_mcast_octets, out_mcast_octets,
            in_bcast_octets, out_bcast_octets, in_csum_errors, in_no_ect_pkts, in_ect1_pkts,
            in_ect0_pkts, in_ce_pkts, reasm_overlaps, out_pkts,
        })
    };
}

impl Inet6Stats {
    /// The fields.
    #[tactic(auto, unfolding(crate::specs::Names::inet6_stats))]
    fn fields(&self) -> [i64; 38]
        ensures { result ≡ (parts inet6_stats self.now).fields }
    {
        fields!(listed(self))
    }

    /// The structure of these fields.
    fn of(fields: [i64; 38], missing: usize, more: Vec<i64>) -> Self
        ensures { parts inet6_stats result ≡ record { fields = fields; missing = missing; more = more.items } }
    {
        fields!(filled(fields, missing, more))
    }
}

#[tactic(auto, unfolding(crate::specs::Names::inet6_stats))]
impl Grown for Inet6Stats {
    type Number = i64;

    ghost names = { inet6_stats };

    fn new(alloc: Global) -> Self {
        Self::of([0; 38], 0, Vec::new(alloc))
    }

    fn of_numbers(alloc: Global, bytes: &[u8]) -> Result<Self, AllocError> {
        let mut fields = [0; 38];
        let (missing, more) = read_grown(alloc, bytes, &mut fields)?;
        Ok(Self::of(fields, missing, more))
    }

    fn try_clone(&self, alloc: Global) -> Result<Self, AllocError> {
        let more = copy_numbers(alloc, self.more.as_slice())?;
        Ok(Self::of(self.fields(), self.missing, more))
    }

    fn len(&self) -> usize {
        grown_len(38, self.missing, self.more.as_slice())
    }

    fn write(&self, out: &mut [u8]) -> usize {
        write_grown(&self.fields(), self.missing, self.more.as_slice(), out)
    }
}
