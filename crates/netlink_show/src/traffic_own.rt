//! What in traffic control is shown in a way of its own, and lists whose numbers are places.

use crate::field::{Fields, Word};
use crate::list::{List, Seen};
use crate::row::Row;
use crate::traffic_action::ANY_ACTION;
use crate::traffic_basic::ANY_MATCH;
use crate::traffic_cake::CAKE_COUNTS;
use crate::{
    traffic, traffic_action, traffic_basic, traffic_cake, traffic_filter, traffic_flower,
    traffic_kind, traffic_netem, traffic_option, traffic_pedit, traffic_qdisc, traffic_rate,
};
use netlink_packet_route::framing::AttributeSet;
use netlink_packet_route::tc::TcForm;

/// The row of a place in a list, as in that of actions. What cake counts is a list too, which kernels write
/// among the statistics and once more beside them.
pub fn row_of_traffic(list: List<'_>, number: u16) -> Option<&'static Row> {
    match (list.nest.set, list.nest.context.tc, number) {
        (AttributeSet::TcActions | AttributeSet::TcCakeTins, _, _) => Some(ANY_ACTION),
        (AttributeSet::TcEmatches, _, _) => Some(ANY_MATCH),
        (AttributeSet::TcStats2, TcForm::Cake, 4) => Some(CAKE_COUNTS),
        (AttributeSet::Tc, TcForm::Cake, 4) if !list.has(7) => Some(CAKE_COUNTS),
        _ => None,
    }
}

/// What is shown of a value in a way of its own.
pub fn push_own(fields: &mut Fields, list: List<'_>, word: Word, seen: &Seen<'_>) {
    match list.nest.set {
        AttributeSet::Tc | AttributeSet::TcActionMessage => traffic::push_own(
            fields, list, word, seen,
        ),
        AttributeSet::TcStats2 | AttributeSet::TcStab | AttributeSet::TcQdiscFqCodel => {
            traffic_qdisc::push_own(fields, list, word, seen)
        }
        AttributeSet::TcQdiscHtb | AttributeSet::TcQdiscTbf => traffic_rate::push_own(
            fields, list, seen,
        ),
        AttributeSet::TcQdiscRed | AttributeSet::TcQdiscFq => traffic_kind::push_own(
            fields, list, word, seen,
        ),
        AttributeSet::TcQdiscNetem | AttributeSet::TcNetemLoss => traffic_netem::push_own(
            fields, list, word, seen,
        ),
        AttributeSet::TcFilterU32
        | AttributeSet::TcFilterMatchAll
        | AttributeSet::TcFilterFw
        | AttributeSet::TcFilterBpf => traffic_filter::push_own(fields, list, word, seen),
        AttributeSet::TcFilterFlower => traffic_flower::push_own(fields, list, word, seen),
        AttributeSet::TcFilterBasic | AttributeSet::TcEmatchTree | AttributeSet::TcEmatches => {
            traffic_basic::push_own(fields, list, word, seen)
        }
        AttributeSet::TcQdiscCake => traffic_cake::push_own(fields, list, word, seen),
        AttributeSet::TcActionPedit => traffic_pedit::push_own(fields, list, word, seen),
        AttributeSet::TcAction
        | AttributeSet::TcActionMirror
        | AttributeSet::TcActionNat
        | AttributeSet::TcActionTunnelKey => traffic_action::push_own(fields, list, word, seen),
        _ => traffic_option::push_own(fields, list, word, seen),
    }
}
