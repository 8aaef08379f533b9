//! Settings of a link: `IPV4_DEVCONF_*` of `linux/ip.h`.

ghost use Rattle.std.specs.Prelude.{◌≡◌};
ghost use Rattle.npr_link_statistics.specs.{Grown.{parts}, Names.{inet_devconf}};

use crate::grown::Grown;
use crate::numbers::{copy_numbers, grown_len, read_grown, write_grown};
use std::alloc::{AllocError, Global};

/// What IP version 4 is set to on a link, 4 bytes each: `IPV4_DEVCONF_*` of `linux/ip.h`.
#[derive(Debug, Drop, PartialEq, Eq)]
pub struct InetDevConf {
    /// `IPV4_DEVCONF_FORWARDING`.
    pub forwarding: i32,
    /// `IPV4_DEVCONF_MC_FORWARDING`.
    pub mc_forwarding: i32,
    /// `IPV4_DEVCONF_PROXY_ARP`.
    pub proxy_arp: i32,
    /// `IPV4_DEVCONF_ACCEPT_REDIRECTS`.
    pub accept_redirects: i32,
    /// `IPV4_DEVCONF_SECURE_REDIRECTS`.
    pub secure_redirects: i32,
    /// `IPV4_DEVCONF_SEND_REDIRECTS`.
    pub send_redirects: i32,
    /// `IPV4_DEVCONF_SHARED_MEDIA`.
    pub shared_media: i32,
    /// `IPV4_DEVCONF_RP_FILTER`.
    pub rp_filter: i32,
    /// `IPV4_DEVCONF_ACCEPT_SOURCE_ROUTE`.
    pub accept_source_route: i32,
    /// `IPV4_DEVCONF_BOOTP_RELAY`.
    pub bootp_relay: i32,
    /// `IPV4_DEVCONF_LOG_MARTIANS`.
    pub log_martians: i32,
    /// `IPV4_DEVCONF_TAG`.
    pub tag: i32,
    /// `IPV4_DEVCONF_ARPFILTER`.
    pub arpfilter: i32,
    /// `IPV4_DEVCONF_MEDIUM_ID`.
    pub medium_id: i32,
    /// `IPV4_DEVCONF_NOXFRM`.
    pub noxfrm: i32,
    /// `IPV4_DEVCONF_NOPOLICY`.
    pub nopolicy: i32,
    /// `IPV4_DEVCONF_FORCE_IGMP_VERSION`.
    pub force_igmp_version: i32,
    /// `IPV4_DEVCONF_ARP_ANNOUNCE`.
    pub arp_announce: i32,
    /// `IPV4_DEVCONF_ARP_IGNORE`.
    pub arp_ignore: i32,
    /// `IPV4_DEVCONF_PROMOTE_SECONDARIES`.
    pub promote_secondaries: i32,
    /// `IPV4_DEVCONF_ARP_ACCEPT`.
    pub arp_accept: i32,
    /// `IPV4_DEVCONF_ARP_NOTIFY`.
    pub arp_notify: i32,
    /// `IPV4_DEVCONF_ACCEPT_LOCAL`.
    pub accept_local: i32,
    /// `IPV4_DEVCONF_SRC_VMARK`.
    pub src_vmark: i32,
    /// `IPV4_DEVCONF_PROXY_ARP_PVLAN`.
    pub proxy_arp_pvlan: i32,
    /// `IPV4_DEVCONF_ROUTE_LOCALNET`.
    pub route_localnet: i32,
    /// `IPV4_DEVCONF_IGMPV2_UNSOLICITED_REPORT_INTERVAL`.
    pub igmpv2_unsolicited_report_interval: i32,
    /// `IPV4_DEVCONF_IGMPV3_UNSOLICITED_REPORT_INTERVAL`.
    pub igmpv3_unsolicited_report_interval: i32,
    /// `IPV4_DEVCONF_IGNORE_ROUTES_WITH_LINKDOWN`.
    pub ignore_routes_with_linkdown: i32,
    /// `IPV4_DEVCONF_DROP_UNICAST_IN_L2_MULTICAST`.
    pub drop_unicast_in_l2_multicast: i32,
    /// `IPV4_DEVCONF_DROP_GRATUITOUS_ARP`.
    pub drop_gratuitous_arp: i32,
    /// `IPV4_DEVCONF_BC_FORWARDING`.
    pub bc_forwarding: i32,
    /// `IPV4_DEVCONF_ARP_EVICT_NOCARRIER`.
    pub arp_evict_nocarrier: i32,
    /// How many of the last settings the kernel does not have: these are 0, and are not written.
    pub missing: usize,
    /// The settings behind these, which a newer kernel has.
    pub more: Vec<i32>,
}

/// The fields in the order in which kernels write them.
macro_rules! fields {
    ($body:ident ($($given:tt)*)) => {
        crate::$body!(($($given)*) InetDevConf {
            forwarding, mc_forwarding, proxy_arp, accept_redirects, secure_redirects,
            send_redirects, shared_media, rp_filter, accept_source_route, bootp_relay, log_martians,
            tag, arpfilter, medium_id, noxfrm, nopolicy, force_igmp_version, arp_announce,
            arp_ignore, promote_secondaries, arp_accept, arp_notify, accept_local, src_vmark,
            proxy_arp_pvlan, route_localnet, igmpv2_unsolicited_report_interval,
            igmpv3_unsolicited_report_interval, ignore_routes_with_linkdown,
            drop_unicast_in_l2_multicast, drop_gratuitous_arp, bc_forwarding, arp_evict_nocarrier,
        })
    };
}

impl InetDevConf {
    /// The fields.
    #[tactic(auto, unfolding(crate::specs::Names::inet_devconf))]
    fn fields(&self) -> [i32; 33]
        ensures { result ≡ (parts inet_devconf self.now).fields }
    {
        fields!(listed(self))
    }

    /// The structure of these fields.
    fn of(fields: [i32; 33], missing: usize, more: Vec<i32>) -> Self
        ensures { parts inet_devconf result ≡ record { fields = fields; missing = missing; more = more.items } }
    {
        fields!(filled(fields, missing, more))
    }
}

#[tactic(auto, unfolding(crate::specs::Names::inet_devconf))]
impl Grown for InetDevConf {
    type Number = i32;

    ghost names = { inet_devconf };

    fn new(alloc: Global) -> Self {
        Self::of([0; 33], 0, Vec::new(alloc))
    }

    fn of_numbers(alloc: Global, bytes: &[u8]) -> Result<Self, AllocError> {
        let mut fields = [0; 33];
        let (missing, more) = read_grown(alloc, bytes, &mut fields)?;
        Ok(Self::of(fields, missing, more))
    }

    fn try_clone(&self, alloc: Global) -> Result<Self, AllocError> {
        let more = copy_numbers(alloc, self.more.as_slice())?;
        Ok(Self::of(self.fields(), self.missing, more))
    }

    fn len(&self) -> usize {
        grown_len(33, self.missing, self.more.as_slice())
    }

    fn write(&self, out: &mut [u8]) -> usize {
        write_grown(&self.fields(), self.missing, self.more.as_slice(), out)
    }
}
