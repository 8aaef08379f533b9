//! What is shown of the data of tunnels.

use crate::field::{self, Wording};
use crate::link_kind_names::{CARRIED, CARRIED_OVER_6, CUTS, DIRECTIONS, LABEL_POLICIES};
use crate::row::How::{
    Apart, Bits, BitsExcept, Dotted, Either, End, Except, Flags, Interface, Known, Lone, Named,
    Number, Own, Switch, Text, Truth, Written,
};
use crate::row::Line::{IfAny, IfBits, IfBoth, Never, UnlessBits};
use crate::row::{ANY, Rows};

/// That there is a key (`GRE_KEY`).
const KEY: u32 = 0x2000;

/// Flags of a tunnel over version 6 (`IP6_TNL_F_*`).
const IGNORES_LIMIT: u32 = 0x1;

/// Of a VXLAN.
pub const VXLAN: Rows = crate::rows![
    1 2 "id" "id " Number;
    2 3 "remote" "remote " Own, IfAny;
    3 5 "link" "dev " Interface, IfAny;
    4 4 "local" "local " Text, IfAny;
    5 14 "ttl" "ttl " Except(0, "auto"), UnlessBits(28, ANY);
    6 13 "tos" "tos " BitsExcept(1, "inherit"), IfAny;
    7 8 "learning" "" Either("", "nolearning");
    8 17 "ageing" "ageing " Except(0, "none");
    9 18 "limit" "maxaddr " Number, IfAny;
    10 6 "port_range" "srcport" Own;
    11 9 "proxy" "proxy" Truth, IfAny;
    12 10 "rsc" "rsc" Truth, IfAny;
    13 11 "l2miss" "l2miss" Truth, IfAny;
    14 12 "l3miss" "l3miss" Truth, IfAny;
    15 7 "port" "dstport " Number;
    16 3 "remote6" "remote " Own, IfAny;
    17 4 "local6" "local " Text, IfAny;
    18 19 "udp_csum" "" Either("udpcsum", "noudpcsum");
    19 20 "udp_zero_csum6_tx" "" Either("udp6zerocsumtx", "noudp6zerocsumtx");
    20 21 "udp_zero_csum6_rx" "" Either("udp6zerocsumrx", "noudp6zerocsumrx");
    21 22 "remcsum_tx" "remcsumtx" Truth, IfAny;
    22 23 "remcsum_rx" "remcsumrx" Truth, IfAny;
    23 24 "gbp" "gbp" Lone, IfAny;
    24 26 "remcsum_nopartial" "" Truth;
    25 0 "external" "external" Truth, IfAny;
    26 16 "label" "flowlabel " Bits, IfAny;
    27 25 "gpe" "gpe" Lone, IfAny;
    28 14 "ttl_inherit" "ttl inherit" Truth, IfAny;
    29 15 "df" "df " Named(CUTS), IfAny;
    30 1 "vnifilter" "vnifilter" Truth, IfAny;
    31 27 "localbypass" "localbypass " Switch;
    32 28 "label_policy" "label_policy " Named(LABEL_POLICIES), IfAny;
    33 29 "reserved_bits" "reserved_bits " Bits;
    34 30 "mcroute" "mcroute" Truth, IfAny;
];

/// Of a tunnel of Geneve.
pub const GENEVE: Rows = crate::rows![
    1 1 "id" "id " Number;
    2 2 "remote" "remote " Text, IfAny;
    3 4 "ttl" "ttl " Except(0, "auto"), UnlessBits(12, ANY);
    4 5 "tos" "tos " BitsExcept(1, "inherit"), IfAny;
    5 17 "port" "dstport " Number;
    6 0 "external" "external" Truth;
    7 2 "remote6" "remote " Own, IfAny;
    8 19 "udp_csum" "" Either("udpcsum", "noudpcsum");
    9 20 "udp_zero_csum6_tx" "" Either("udp6zerocsumtx", "noudp6zerocsumtx");
    10 21 "udp_zero_csum6_rx" "" Either("udp6zerocsumrx", "noudp6zerocsumrx");
    11 16 "label" "flowlabel " Bits, IfAny;
    12 4 "ttl_inherit" "ttl inherit" Truth, IfAny;
    13 15 "df" "df " Named(CUTS), IfAny;
    14 22 "inner_proto_inherit" "innerprotoinherit" Truth;
    15 6 "port_range" "srcport" Own;
    16 0 "" "" Written;
    17 3 "local" "local " Text, IfAny;
    18 3 "local6" "local " Text, IfAny;
];

/// Of a tunnel of GRE over version 4.
pub const GRE: Rows = crate::rows![
    1 4 "link" "dev " Interface, IfAny;
    2 34 "iflags" "" Flags(&[
        (0x1000, &Wording(23, "iseq", "iseq")),
        (0x8000, &Wording(25, "icsum", "icsum")),
    ]);
    3 35 "oflags" "" Flags(&[
        (0x1000, &Wording(24, "oseq", "oseq")),
        (0x8000, &Wording(26, "ocsum", "ocsum")),
    ]);
    4 21 "ikey" "ikey " Dotted, IfBits(2, KEY);
    5 22 "okey" "okey " Dotted, IfBits(3, KEY);
    6 3 "local" "local " End;
    7 2 "remote" "remote " End;
    8 5 "ttl" "ttl " Except(0, "inherit");
    9 6 "tos" "tos " BitsExcept(1, "inherit"), IfAny;
    10 14 "pmtudisc" "" Either("", "nopmtudisc");
    14 0 "" "" Apart;
    15 0 "" "" Apart;
    16 0 "" "" Apart;
    17 0 "" "" Apart;
    18 0 "external" "external" Truth;
    19 15 "ignore_df" "ignore-df" Truth, IfAny;
    20 28 "fwmark" "fwmark " Bits, IfAny;
    21 29 "erspan_index" "erspan_index " Number;
    22 30 "erspan_ver" "erspan_ver " Number;
    23 31 "erspan_dir" "erspan_dir " Named(DIRECTIONS);
    24 32 "erspan_hwid" "erspan_hwid " Bits;
];

/// Of a tunnel of GRE over version 6.
pub const GRE6: Rows = crate::rows![
    1 4 "link" "dev " Interface, IfAny;
    2 34 "iflags" "" Flags(&[
        (0x1000, &Wording(23, "iseq", "iseq")),
        (0x8000, &Wording(25, "icsum", "icsum")),
    ]);
    3 35 "oflags" "" Flags(&[
        (0x1000, &Wording(24, "oseq", "oseq")),
        (0x8000, &Wording(26, "ocsum", "ocsum")),
    ]);
    4 21 "ikey" "ikey " Dotted, IfBits(2, KEY);
    5 22 "okey" "okey " Dotted, IfBits(3, KEY);
    6 3 "local" "local " End;
    7 2 "remote" "remote " End;
    8 5 "ttl" "hoplimit " Except(0, "inherit");
    11 7 "encap_limit" "encaplimit " Number, UnlessBits(13, IGNORES_LIMIT);
    12 8 "tclass" "tclass " Own;
    13 13 "flags" "" Flags(FLAGS_OF_6);
    14 0 "" "" Apart;
    15 0 "" "" Apart;
    16 0 "" "" Apart;
    17 0 "" "" Apart;
    18 0 "external" "external" Truth;
    20 28 "fwmark" "fwmark " Own, IfAny;
    21 29 "erspan_index" "erspan_index " Number;
    22 30 "erspan_ver" "erspan_ver " Number;
    23 31 "erspan_dir" "erspan_dir " Named(DIRECTIONS);
    24 32 "erspan_hwid" "erspan_hwid " Bits;
];

/// Of a tunnel of IP in IP, over version 4.
pub const IP_TUNNEL: Rows = crate::rows![
    1 4 "link" "dev " Interface, IfAny;
    2 3 "local" "local " End;
    3 2 "remote" "remote " End;
    4 5 "ttl" "ttl " Except(0, "inherit");
    5 6 "tos" "tos " BitsExcept(1, "inherit"), IfAny;
    6 7 "encap_limit" "encaplimit " Number, Never;
    7 8 "tclass" "tclass " Own;
    8 15 "flags" "" Flags(&[(0x1, &Wording(16, "isatap", "isatap"))]);
    9 1 "proto" "" Known(CARRIED, &Wording(1, "proto", "proto "));
    10 14 "pmtudisc" "" Either("pmtudisc", "nopmtudisc");
    11 17 "prefix" "6rd-prefix " Text, IfBits(13, ANY);
    12 19 "relay_prefix" "6rd-relay_prefix " Text, IfBoth(13, 12);
    13 18 "prefixlen" "/" Number, IfAny;
    14 20 "relay_prefixlen" "/" Number, IfBoth(13, 12);
    15 0 "" "" Apart;
    16 0 "" "" Apart;
    17 0 "" "" Apart;
    18 0 "" "" Apart;
    19 0 "external" "external" Truth, IfAny;
    20 28 "fwmark" "fwmark " Bits, IfAny;
];

/// The same over version 6.
pub const IP6_TUNNEL: Rows = crate::rows![
    1 4 "link" "dev " Interface, IfAny;
    2 3 "local" "local " End;
    3 2 "remote" "remote " End;
    4 5 "ttl" "hoplimit " Except(0, "inherit");
    5 6 "tos" "tos " BitsExcept(1, "inherit"), Never;
    6 7 "encap_limit" "encaplimit " Number, UnlessBits(8, IGNORES_LIMIT);
    7 8 "tclass" "tclass " Own;
    8 13 "flags" "" Flags(FLAGS_OF_6);
    9 1 "proto" "" Known(CARRIED_OVER_6, &Wording(1, "proto", "proto "));
    10 14 "pmtudisc" "" Either("pmtudisc", "nopmtudisc"), Never;
    11 17 "prefix" "6rd-prefix " Text, Never;
    12 19 "relay_prefix" "6rd-relay_prefix " Text, Never;
    13 18 "prefixlen" "/" Number, Never;
    14 20 "relay_prefixlen" "/" Number, Never;
    15 0 "" "" Apart;
    16 0 "" "" Apart;
    17 0 "" "" Apart;
    18 0 "" "" Apart;
    19 0 "external" "external" Truth, IfAny;
    20 28 "fwmark" "fwmark " Own, IfAny;
];

/// Of a tunnel of VTI.
pub const VTI: Rows = crate::rows![
    1 4 "link" "dev " Interface, IfAny;
    2 21 "ikey" "ikey " Dotted, IfAny;
    3 22 "okey" "okey " Dotted, IfAny;
    4 3 "local" "local " End;
    5 2 "remote" "remote " End;
    6 28 "fwmark" "fwmark " Bits, IfAny;
];

/// Of an interface of XFRM. A line has its id where that is not told with each packet.
pub const XFRM: Rows = crate::rows![
    1 4 "link" "dev " Interface, Never;
    2 1 "if_id" "if_id " Bits, UnlessBits(3, ANY);
    3 0 "external" "external" Truth;
];

/// The flags of a tunnel over version 6 that have a word (`IP6_TNL_F_*`).
const FLAGS_OF_6: crate::field::Flags = &[
    (
        0x1,
        &Wording(7, "ip6_tnl_f_ign_encap_limit", "encaplimit none"),
    ),
    (
        0x2,
        &Wording(8, "ip6_tnl_f_use_orig_tclass", "tclass inherit"),
    ),
    (
        0x4,
        &Wording(9, "ip6_tnl_f_use_orig_flowlabel", "flowlabel inherit"),
    ),
    (
        0x10,
        &Wording(11, "ip6_tnl_f_rcv_dscp_copy", "dscp inherit"),
    ),
    (0x8, &Wording(12, "ip6_tnl_f_mip6_dev", "mip6")),
    (
        0x40,
        &Wording(27, "ip6_tnl_f_allow_local_remote", "allow-localremote"),
    ),
    (
        0x20,
        &Wording(28, "ip6_tnl_f_use_orig_fwmark", "fwmark inherit"),
    ),
];
