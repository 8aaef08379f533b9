//! What a device forwarded by itself: `IFLA_OFFLOAD_XSTATS_*` of `linux/if_link.h`.

ghost use Rattle.std.specs.Prelude.{refl};
ghost use Rattle.{npr_base.specs.Family.{shaped}, npr_stats.specs.OffloadXstats.{family}};

use crate::hw_stats64::HwStats64;
use crate::offload_hw_info::OffloadHwInfo;
use npr_base::{
    At, Attribute, DecodeError, DefaultNla, EmitError, Form, Looks, NLA_F_NESTED, Nla, NlaBuffer,
    Place,
};
use npr_link_statistics::{Grown, Stats64};
use std::alloc::{AllocError, Global};

/// What a device forwarded by itself: `IFLA_OFFLOAD_XSTATS_*` of `linux/if_link.h`.
#[derive(Debug, Drop, PartialEq, Eq)]
pub enum OffloadXstats {
    /// `IFLA_OFFLOAD_XSTATS_CPU_HIT`: the counters of what the processor had to forward.
    CpuHit(Stats64),
    /// `IFLA_OFFLOAD_XSTATS_HW_S_INFO`: what is known of counting in the device. It is written with NESTED.
    HwStatsInfo(Vec<OffloadHwInfo>),
    /// `IFLA_OFFLOAD_XSTATS_L3_STATS`: the counters of what the device routed.
    L3Stats(HwStats64),
    /// An attribute of another number, as it stands.
    Other(DefaultNla),
}

/// The rows of the table.
macro_rules! rows {
    ($body:ident ($($given:tt)*)) => {
        npr_base::$body!(($($given)*) OffloadXstats of OffloadXstats {
            1 CpuHit(Stats64 value raw);
            2 HwStatsInfo(list OffloadHwInfo) as NLA_F_NESTED + 2;
            3 L3Stats(HwStats64 leading 72);
        })
    };
}

impl Nla for OffloadXstats {
    ghost shape = { shaped family };

    fn kind(&self) -> u16 {
        rows!(kind_rows(self))
    }

    fn is_nested(&self) -> bool {
        false
    }

    fn check_value(&self) -> Result<usize, EmitError> {
        Ok(rows!(len_rows(self)))
    }

    fn write_value(&self, out: &mut [u8]) -> usize {
        rows!(write_rows(self, out))
    }
}

impl Attribute for OffloadXstats {
    type Context = ();

    ghost family = { family };

    ghost shape_is = { λ a. refl };

    #[tactic(auto, unfolding(crate::specs::OffloadXstats::attributes))]
    fn read_into<P: Place<Self>>(
        place: &mut P,
        alloc: Global,
        _context: (),
        item: &NlaBuffer<'_>,
        looks: &mut Looks,
    ) -> Result<(), DecodeError> {
        rows!(put_rows(place, alloc, item, looks))
    }

    #[tactic(auto, unfolding(crate::specs::OffloadXstats::attributes))]
    fn form(_context: (), number: u16) -> (At, Form) {
        rows!(form_rows(number))
    }

    fn try_clone(&self, alloc: Global) -> Result<Self, AllocError> {
        rows!(clone_rows(self, alloc))
    }
}
