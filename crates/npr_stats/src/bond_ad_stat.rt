//! What a bond counts of the protocol of IEEE 802.3ad: `BOND_3AD_STAT_*` of `linux/if_bonding.h`.

ghost use Rattle.std.specs.Prelude.{refl};
ghost use Rattle.{npr_base.specs.Family.{shaped}, npr_stats.specs.BondAdStat.{family}};

use npr_base::{
    At, Attribute, DecodeError, DefaultNla, EmitError, Form, Looks, Nla, NlaBuffer, Place,
};
use std::alloc::{AllocError, Global};

/// What a bond counts of the protocol of IEEE 802.3ad: `BOND_3AD_STAT_*` of `linux/if_bonding.h`.
#[derive(Debug, Drop, PartialEq, Eq)]
pub enum BondAdStat {
    /// `BOND_3AD_STAT_LACPDU_RX`: messages of LACP received.
    LacpduRx(u64),
    /// `BOND_3AD_STAT_LACPDU_TX`: messages of LACP sent.
    LacpduTx(u64),
    /// `BOND_3AD_STAT_LACPDU_UNKNOWN_RX`: messages received of an unknown kind.
    LacpduUnknownRx(u64),
    /// `BOND_3AD_STAT_LACPDU_ILLEGAL_RX`: messages received that are not well formed.
    LacpduIllegalRx(u64),
    /// `BOND_3AD_STAT_MARKER_RX`: markers received.
    MarkerRx(u64),
    /// `BOND_3AD_STAT_MARKER_TX`: markers sent.
    MarkerTx(u64),
    /// `BOND_3AD_STAT_MARKER_RESP_RX`: answers to markers received.
    MarkerRespRx(u64),
    /// `BOND_3AD_STAT_MARKER_RESP_TX`: answers to markers sent.
    MarkerRespTx(u64),
    /// `BOND_3AD_STAT_MARKER_UNKNOWN_RX`: markers received of an unknown kind.
    MarkerUnknownRx(u64),
    /// An attribute of another number, as it stands.
    Other(DefaultNla),
}

/// The rows of the table.
macro_rules! rows {
    ($body:ident ($($given:tt)*)) => {
        npr_base::$body!(($($given)*) BondAdStat of BondAdStat {
            0 LacpduRx(le64);
            1 LacpduTx(le64);
            2 LacpduUnknownRx(le64);
            3 LacpduIllegalRx(le64);
            4 MarkerRx(le64);
            5 MarkerTx(le64);
            6 MarkerRespRx(le64);
            7 MarkerRespTx(le64);
            8 MarkerUnknownRx(le64);
        })
    };
}

impl Nla for BondAdStat {
    ghost shape = { shaped family };

    fn kind(&self) -> u16 {
        rows!(kind_rows(self))
    }

    fn is_nested(&self) -> bool {
        false
    }

    fn check_value(&self) -> Result<usize, EmitError> {
        Ok(rows!(len_rows(self)))
    }

    fn write_value(&self, out: &mut [u8]) -> usize {
        rows!(write_rows(self, out))
    }
}

impl Attribute for BondAdStat {
    type Context = ();

    ghost family = { family };

    ghost shape_is = { λ a. refl };

    #[tactic(auto, unfolding(crate::specs::BondAdStat::attributes))]
    fn read_into<P: Place<Self>>(
        place: &mut P,
        alloc: Global,
        _context: (),
        item: &NlaBuffer<'_>,
        looks: &mut Looks,
    ) -> Result<(), DecodeError> {
        rows!(put_rows(place, alloc, item, looks))
    }

    #[tactic(auto, unfolding(crate::specs::BondAdStat::attributes))]
    fn form(_context: (), number: u16) -> (At, Form) {
        rows!(form_rows(number))
    }

    fn try_clone(&self, alloc: Global) -> Result<Self, AllocError> {
        rows!(clone_rows(self, alloc))
    }
}
