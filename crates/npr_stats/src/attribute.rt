//! The attributes of a message of statistics: `IFLA_STATS_*` of `linux/if_link.h`.

ghost use Rattle.std.specs.Prelude.{refl};
ghost use Rattle.{npr_base.specs.Family.{shaped}, npr_stats.specs.Attribute.{family}};

use crate::af_spec::StatsAfSpec;
use crate::link_xstats::LinkXstats;
use crate::offload_xstats::OffloadXstats;
use npr_base::{
    At, Attribute, DecodeError, DefaultNla, EmitError, Form, Looks, Nla, NlaBuffer, Place,
};
use npr_link_statistics::{Grown, Stats64};
use std::alloc::{AllocError, Global};

/// An attribute of a message of statistics: `IFLA_STATS_*` of `linux/if_link.h`.
#[derive(Debug, Drop, PartialEq, Eq)]
pub enum StatsAttribute {
    /// `IFLA_STATS_LINK_64`: the counters of the link.
    Link64(Stats64),
    /// `IFLA_STATS_LINK_XSTATS`: what the kind of the link counts besides.
    LinkXstats(Vec<LinkXstats>),
    /// `IFLA_STATS_LINK_XSTATS_SLAVE`: what the kind of its controller counts of it.
    LinkXstatsSlave(Vec<LinkXstats>),
    /// `IFLA_STATS_LINK_OFFLOAD_XSTATS`: what a device forwarded by itself.
    LinkOffloadXstats(Vec<OffloadXstats>),
    /// `IFLA_STATS_AF_SPEC`: what address families count.
    AfSpec(Vec<StatsAfSpec>),
    /// An attribute of another number, as it stands.
    Other(DefaultNla),
}

/// The rows of the table.
macro_rules! rows {
    ($body:ident ($($given:tt)*)) => {
        npr_base::$body!(($($given)*) StatsAttribute of Stats {
            1 Link64(Stats64 value raw);
            2 LinkXstats(list LinkXstats);
            3 LinkXstatsSlave(list LinkXstats);
            4 LinkOffloadXstats(list OffloadXstats);
            5 AfSpec(list StatsAfSpec);
        })
    };
}

impl Nla for StatsAttribute {
    ghost shape = { shaped family };

    fn kind(&self) -> u16 {
        rows!(kind_rows(self))
    }

    fn is_nested(&self) -> bool {
        false
    }

    fn check_value(&self) -> Result<usize, EmitError> {
        Ok(rows!(len_rows(self)))
    }

    fn write_value(&self, out: &mut [u8]) -> usize {
        rows!(write_rows(self, out))
    }
}

impl Attribute for StatsAttribute {
    type Context = ();

    ghost family = { family };

    ghost shape_is = { λ a. refl };

    fn read_into<P: Place<Self>>(
        place: &mut P,
        alloc: Global,
        _context: (),
        item: &NlaBuffer<'_>,
        looks: &mut Looks,
    ) -> Result<(), DecodeError> {
        rows!(put_rows(place, alloc, item, looks))
    }

    fn form(_context: (), number: u16) -> (At, Form) {
        rows!(form_rows(number))
    }

    fn try_clone(&self, alloc: Global) -> Result<Self, AllocError> {
        rows!(clone_rows(self, alloc))
    }
}
