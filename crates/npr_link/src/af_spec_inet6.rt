//! What IP version 6 says of a link: `IFLA_INET6_*` of `linux/if_link.h`.

ghost use Rattle.std.specs.Prelude.{refl};
ghost use Rattle.{npr_base.specs.Family.{shaped}, npr_link.specs.AfSpecInet6.{family}};

use crate::address_mode::In6AddrGenMode;
use crate::inet6_cache_info::Inet6CacheInfo;
use crate::inet6_flags::Inet6IfaceFlags;
use bitflags::Flags;
use npr_base::{
    At, Attribute, DecodeError, DefaultNla, EmitError, Form, Ipv6Addr, Looks, Nla, NlaBuffer, Place,
};
use npr_link_statistics::{Grown, Icmp6Stats, Inet6DevConf, Inet6Stats};
use std::alloc::{AllocError, Global};

/// What IP version 6 says of a link.
#[derive(Debug, Drop, PartialEq, Eq)]
pub enum AfSpecInet6 {
    /// `IFLA_INET6_FLAGS`: what the link does.
    Flags(Inet6IfaceFlags),
    /// `IFLA_INET6_CONF`: the settings.
    DevConf(Inet6DevConf),
    /// `IFLA_INET6_STATS`: counters of packets.
    Stats(Inet6Stats),
    /// `IFLA_INET6_MCAST`, which no kernel sends, as it stands.
    Multicast(Vec<u8>),
    /// `IFLA_INET6_CACHEINFO`: times of neighbours.
    CacheInfo(Inet6CacheInfo),
    /// `IFLA_INET6_ICMP6STATS`: counters of ICMP.
    Icmp6Stats(Icmp6Stats),
    /// `IFLA_INET6_TOKEN`: the end of addresses that are made.
    Token(Ipv6Addr),
    /// `IFLA_INET6_ADDR_GEN_MODE`: how addresses are made.
    AddrGenMode(In6AddrGenMode),
    /// `IFLA_INET6_RA_MTU`: the longest packet that a router told of, in bytes.
    RaMtu(u32),
    /// An attribute of another number, as it stands.
    Other(DefaultNla),
}

/// The rows of the table.
macro_rules! rows {
    ($body:ident ($($given:tt)*)) => {
        npr_base::$body!(($($given)*) AfSpecInet6 of AfSpecInet6 {
            1 Flags(Inet6IfaceFlags flags le32);
            2 DevConf(Inet6DevConf value raw);
            3 Stats(Inet6Stats value raw);
            4 Multicast(raw);
            5 CacheInfo(Inet6CacheInfo leading 16);
            6 Icmp6Stats(Icmp6Stats value raw);
            7 Token(octets16);
            8 AddrGenMode(In6AddrGenMode as byte);
            9 RaMtu(le32);
        })
    };
}

impl Nla for AfSpecInet6 {
    ghost shape = { shaped family };

    fn kind(&self) -> u16 {
        rows!(kind_rows(self))
    }

    fn is_nested(&self) -> bool {
        false
    }

    fn check_value(&self) -> Result<usize, EmitError> {
        Ok(rows!(len_rows(self)))
    }

    fn write_value(&self, out: &mut [u8]) -> usize {
        rows!(write_rows(self, out))
    }
}

impl Attribute for AfSpecInet6 {
    type Context = ();

    ghost family = { family };

    ghost shape_is = { λ a. refl };

    #[tactic(auto, unfolding(crate::specs::AfSpecInet6::attributes))]
    fn read_into<P: Place<Self>>(
        place: &mut P,
        alloc: Global,
        _context: (),
        item: &NlaBuffer<'_>,
        looks: &mut Looks,
    ) -> Result<(), DecodeError> {
        rows!(put_rows(place, alloc, item, looks))
    }

    #[tactic(auto, unfolding(crate::specs::AfSpecInet6::attributes))]
    fn form(_context: (), number: u16) -> (At, Form) {
        rows!(form_rows(number))
    }

    fn try_clone(&self, alloc: Global) -> Result<Self, AllocError> {
        rows!(clone_rows(self, alloc))
    }
}
