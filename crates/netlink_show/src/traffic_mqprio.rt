//! What is shown of the attributes of mqprio.

use crate::names::Names;
use crate::row::How::{Named, Number, Objects, Text};
use crate::row::Line::Never;
use crate::row::Rows;

/// Of `mqprio` (`TCA_MQPRIO_*` of `linux/pkt_sched.h`).
pub const MQPRIO: Rows = crate::rows![
    1 0 "mode" "mode:" Named(MODES);
    2 1 "shaper" "shaper:" Named(SHAPERS);
    3 60 "min_rate" "" Text, Never;
    4 61 "max_rate" "" Text, Never;
    5 2 "entries" "" Objects("", " ", "");
];

/// Of one of its classes (`TCA_MQPRIO_TC_ENTRY_*`).
pub const MQPRIO_ENTRY: Rows = crate::rows![
    1 0 "index" "index " Number;
    2 1 "fp" "fp:" Named(FRAMES);
];

/// Who divides queues among classes (`TC_MQPRIO_MODE_*` of `linux/pkt_sched.h`).
const MODES: Names = &[(0, "dcb"), (1, "channel")];

/// Who shapes them (`TC_MQPRIO_SHAPER_*`).
const SHAPERS: Names = &[(0, "dcb"), (1, "bw_rlimit")];

/// Whether frames may be interrupted (`TC_FP_*`).
const FRAMES: Names = &[(1, "E"), (2, "P")];
