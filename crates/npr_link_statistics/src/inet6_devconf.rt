//! Settings of a link: `DEVCONF_*` of `linux/ipv6.h`.

ghost use Rattle.std.specs.Prelude.{◌≡◌};
ghost use Rattle.npr_link_statistics.specs.{Grown.{parts}, Names.{inet6_devconf}};

use crate::grown::Grown;
use crate::numbers::{copy_numbers, grown_len, read_grown, write_grown};
use std::alloc::{AllocError, Global};

/// What IP version 6 is set to on a link, 4 bytes each: `DEVCONF_*` of `linux/ipv6.h`.
#[derive(Debug, Drop, PartialEq, Eq)]
pub struct Inet6DevConf {
    /// `DEVCONF_FORWARDING`.
    pub forwarding: i32,
    /// `DEVCONF_HOPLIMIT`.
    pub hoplimit: i32,
    /// `DEVCONF_MTU6`.
    pub mtu6: i32,
    /// `DEVCONF_ACCEPT_RA`.
    pub accept_ra: i32,
    /// `DEVCONF_ACCEPT_REDIRECTS`.
    pub accept_redirects: i32,
    /// `DEVCONF_AUTOCONF`.
    pub autoconf: i32,
    /// `DEVCONF_DAD_TRANSMITS`.
    pub dad_transmits: i32,
    /// `DEVCONF_RTR_SOLICITS`.
    pub rtr_solicits: i32,
    /// `DEVCONF_RTR_SOLICIT_INTERVAL`.
    pub rtr_solicit_interval: i32,
    /// `DEVCONF_RTR_SOLICIT_DELAY`.
    pub rtr_solicit_delay: i32,
    /// `DEVCONF_USE_TEMPADDR`.
    pub use_tempaddr: i32,
    /// `DEVCONF_TEMP_VALID_LFT`.
    pub temp_valid_lft: i32,
    /// `DEVCONF_TEMP_PREFERED_LFT`.
    pub temp_prefered_lft: i32,
    /// `DEVCONF_REGEN_MAX_RETRY`.
    pub regen_max_retry: i32,
    /// `DEVCONF_MAX_DESYNC_FACTOR`.
    pub max_desync_factor: i32,
    /// `DEVCONF_MAX_ADDRESSES`.
    pub max_addresses: i32,
    /// `DEVCONF_FORCE_MLD_VERSION`.
    pub force_mld_version: i32,
    /// `DEVCONF_ACCEPT_RA_DEFRTR`.
    pub accept_ra_defrtr: i32,
    /// `DEVCONF_ACCEPT_RA_PINFO`.
    pub accept_ra_pinfo: i32,
    /// `DEVCONF_ACCEPT_RA_RTR_PREF`.
    pub accept_ra_rtr_pref: i32,
    /// `DEVCONF_RTR_PROBE_INTERVAL`.
    pub rtr_probe_interval: i32,
    /// `DEVCONF_ACCEPT_RA_RT_INFO_MAX_PLEN`.
    pub accept_ra_rt_info_max_plen: i32,
    /// `DEVCONF_PROXY_NDP`.
    pub proxy_ndp: i32,
    /// `DEVCONF_OPTIMISTIC_DAD`.
    pub optimistic_dad: i32,
    /// `DEVCONF_ACCEPT_SOURCE_ROUTE`.
    pub accept_source_route: i32,
    /// `DEVCONF_MC_FORWARDING`.
    pub mc_forwarding: i32,
    /// `DEVCONF_DISABLE_IPV6`.
    pub disable_ipv6: i32,
    /// `DEVCONF_ACCEPT_DAD`.
    pub accept_dad: i32,
    /// `DEVCONF_FORCE_TLLAO`.
    pub force_tllao: i32,
    /// `DEVCONF_NDISC_NOTIFY`.
    pub ndisc_notify: i32,
    /// `DEVCONF_MLDV1_UNSOLICITED_REPORT_INTERVAL`.
    pub mldv1_unsolicited_report_interval: i32,
    /// `DEVCONF_MLDV2_UNSOLICITED_REPORT_INTERVAL`.
    pub mldv2_unsolicited_report_interval: i32,
    /// `DEVCONF_SUPPRESS_FRAG_NDISC`.
    pub suppress_frag_ndisc: i32,
    /// `DEVCONF_ACCEPT_RA_FROM_LOCAL`.
    pub accept_ra_from_local: i32,
    /// `DEVCONF_USE_OPTIMISTIC`.
    pub use_optimistic: i32,
    /// `DEVCONF_ACCEPT_RA_MTU`.
    pub accept_ra_mtu: i32,
    /// `DEVCONF_STABLE_SECRET`.
    pub stable_secret: i32,
    /// `DEVCONF_USE_OIF_ADDRS_ONLY`.
    pub use_oif_addrs_only: i32,
    /// `DEVCONF_ACCEPT_RA_MIN_HOP_LIMIT`.
    pub accept_ra_min_hop_limit: i32,
    /// `DEVCONF_IGNORE_ROUTES_WITH_LINKDOWN`.
    pub ignore_routes_with_linkdown: i32,
    /// `DEVCONF_DROP_UNICAST_IN_L2_MULTICAST`.
    pub drop_unicast_in_l2_multicast: i32,
    /// `DEVCONF_DROP_UNSOLICITED_NA`.
    pub drop_unsolicited_na: i32,
    /// `DEVCONF_KEEP_ADDR_ON_DOWN`.
    pub keep_addr_on_down: i32,
    /// `DEVCONF_RTR_SOLICIT_MAX_INTERVAL`.
    pub rtr_solicit_max_interval: i32,
    /// `DEVCONF_SEG6_ENABLED`.
    pub seg6_enabled: i32,
    /// `DEVCONF_SEG6_REQUIRE_HMAC`.
    pub seg6_require_hmac: i32,
    /// `DEVCONF_ENHANCED_DAD`.
    pub enhanced_dad: i32,
    /// `DEVCONF_ADDR_GEN_MODE`.
    pub addr_gen_mode: i32,
    /// `DEVCONF_DISABLE_POLICY`.
    pub disable_policy: i32,
    /// `DEVCONF_ACCEPT_RA_RT_INFO_MIN_PLEN`.
    pub accept_ra_rt_info_min_plen: i32,
    /// `DEVCONF_NDISC_TCLASS`.
    pub ndisc_tclass: i32,
    /// `DEVCONF_RPL_SEG_ENABLED`.
    pub rpl_seg_enabled: i32,
    /// `DEVCONF_RA_DEFRTR_METRIC`.
    pub ra_defrtr_metric: i32,
    /// `DEVCONF_IOAM6_ENABLED`.
    pub ioam6_enabled: i32,
    /// `DEVCONF_IOAM6_ID`.
    pub ioam6_id: i32,
    /// `DEVCONF_IOAM6_ID_WIDE`.
    pub ioam6_id_wide: i32,
    /// `DEVCONF_NDISC_EVICT_NOCARRIER`.
    pub ndisc_evict_nocarrier: i32,
    /// `DEVCONF_ACCEPT_UNTRACKED_NA`.
    pub accept_untracked_na: i32,
    /// `DEVCONF_ACCEPT_RA_MIN_LFT`.
    pub accept_ra_min_lft: i32,
    /// `DEVCONF_FORCE_FORWARDING`.
    pub force_forwarding: i32,
    /// How many of the last settings the kernel does not have: these are 0, and are not written.
    pub missing: usize,
    /// The settings behind these, which a newer kernel has.
    pub more: Vec<i32>,
}

/// The fields in the order in which kernels write them.
macro_rules! fields {
    ($body:ident ($($given:tt)*)) => {
        crate::$body!(($($given)*) Inet6DevConf {
            forwarding, hoplimit, mtu6, accept_ra, accept_redirects, autoconf, dad_transmits,
            rtr_solicits, rtr_solicit_interval, rtr_solicit_delay, use_tempaddr, temp_valid_lft,
            temp_prefered_lft, regen_max_retry, max_desync_factor, max_addresses, force_mld_version,
            accept_ra_defrtr, accept_ra_pinfo, accept_ra_rtr_pref, rtr_probe_interval,
            accept_ra_rt_info_max_plen, proxy_ndp, optimistic_dad, accept_source_route,
            mc_forwarding, disable_ipv6, accept_dad, force_tllao, ndisc_notify,
            mldv1_unsolicited_report_interval, mldv2_unsolicited_report_interval,
            suppress_frag_ndisc, accept_ra_from_local, use_optimistic, accept_ra_mtu, stable_secret,
            use_oif_addrs_only, accept_ra_min_hop_limit, ignore_routes_with_linkdown,
            drop_unicast_in_l2_multicast, drop_unsolicited_na, keep_addr_on_down,
            rtr_solicit_max_interval, seg6_enabled, seg6_require_hmac, enhanced_dad, addr_gen_mode,
            disable_policy, accept_ra_rt_info_min_plen, ndisc_tclass, rpl_seg_enabled,
            ra_defrtr_metric, ioam6_enabled, ioam6_id, ioam6_id_wide, ndisc_evict_nocarrier,
            accept_untracked_na, accept_ra_min_lft, force_forwarding,
        })
    };
}

impl Inet6DevConf {
    /// The fields.
    #[tactic(auto, unfolding(crate::specs::Names::inet6_devconf))]
    fn fields(&self) -> [i32; 60]
        ensures { result ≡ (parts inet6_devconf self.now).fields }
    {
        fields!(listed(self))
    }

    /// The structure of these fields.
    fn of(fields: [i32; 60], missing: usize, more: Vec<i32>) -> Self
        ensures { parts inet6_devconf result ≡ record { fields = fields; missing = missing; more = more.items } }
    {
        fields!(filled(fields, missing, more))
    }
}

#[tactic(auto, unfolding(crate::specs::Names::inet6_devconf))]
impl Grown for Inet6DevConf {
    type Number = i32;

    ghost names = { inet6_devconf };

    fn new(alloc: Global) -> Self {
        Self::of([0; 60], 0, Vec::new(alloc))
    }

    fn of_numbers(alloc: Global, bytes: &[u8]) -> Result<Self, AllocError> {
        let mut fields = [0; 60];
        let (missing, more) = read_grown(alloc, bytes, &mut fields)?;
        Ok(Self::of(fields, missing, more))
    }

    fn try_clone(&self, alloc: Global) -> Result<Self, AllocError> {
        let more = copy_numbers(alloc, self.more.as_slice())?;
        Ok(Self::of(self.fields(), self.missing, more))
    }

    fn len(&self) -> usize {
        grown_len(60, self.missing, self.more.as_slice())
    }

    fn write(&self, out: &mut [u8]) -> usize {
        write_grown(&self.fields(), self.missing, self.more.as_slice(), out)
    }
}
