//! What is shown of the data of rings, of IP over InfiniBand, of MACsec, and of tunnels of GTP and OpenVPN.

use crate::field::{Fields, Word};
use crate::list::{List, Seen, small};
use crate::names::Names;
use crate::row::How::{Hardware, Interface, Named, Number, Own, Switch, Text, Truth};
use crate::row::Line::{IfAny, Never};
use crate::row::Rows;
use netlink_packet_route::framing::{AttributeSet, Value};

/// Of a ring.
pub const HSR: Rows = crate::rows![
    1 0 "slave1" "slave1 " Interface;
    2 1 "slave2" "slave2 " Interface;
    3 6 "multicast_spec" "supervision " Number, Never;
    4 4 "supervision_addr" "supervision " Hardware;
    5 3 "seq_nr" "sequence " Number;
    6 7 "version" "version " Number, Never;
    7 5 "proto" "proto " Number;
    8 2 "interlink" "interlink " Interface;
];

/// Of IP over InfiniBand.
pub const IPOIB: Rows = crate::rows![
    1 0 "key" "pkey  " Own;
    2 1 "mode" "mode  " Named(INFINIBAND_MODES);
    3 2 "umcast" "umcast  " Own;
];

/// How packets go over InfiniBand (`IPOIB_MODE_*`).
const INFINIBAND_MODES: Names = &[(0, "datagram"), (1, "connected")];

/// Of a link of MACsec.
pub const MAC_SEC: Rows = crate::rows![
    1 0 "sci" "sci " Own;
    2 13 "port" "port " Number, Never;
    3 3 "icv_len" "icvlen " Number;
    4 2 "cipher_suite" "cipher " Own;
    5 12 "window" "window " Number;
    6 4 "encoding_sa" "encodingsa " Number;
    7 7 "encrypt" "encrypt " Switch;
    8 1 "protect" "protect " Switch;
    9 8 "inc_sci" "send_sci " Switch;
    10 9 "es" "end_station " Switch;
    11 10 "scb" "scb " Switch;
    12 11 "replay_protect" "replay " Switch;
    13 5 "validation" "validate " Named(VALIDATIONS);
    15 6 "offload" "offload " Named(OFFLOADS);
];

/// What becomes of frames that are not valid (`MACSEC_VALIDATE_*`).
const VALIDATIONS: Names = &[(0, "disabled"), (1, "check"), (2, "strict")];

/// What part of a device does MACsec (`MACSEC_OFFLOAD_*`).
const OFFLOADS: Names = &[(0, "off"), (1, "phy"), (2, "mac")];

/// The cipher suites (`MACSEC_CIPHER_ID_*` of `linux/if_macsec.h`).
const CIPHERS: &[(u64, &str)] = &[
    (0x80020001000001, "GCM-AES-128"),
    (0x80c20001000001, "GCM-AES-128"),
    (0x80c20001000002, "GCM-AES-256"),
    (0x80c20001000003, "GCM-AES-XPN-128"),
    (0x80c20001000004, "GCM-AES-XPN-256"),
];

/// Of a tunnel of GTP.
pub const GTP: Rows = crate::rows![
    1 3 "fd0" "fd0 " Number, Never;
    2 4 "fd1" "fd1 " Number, Never;
    3 1 "hsize" "hsize " Number;
    4 0 "role" "role " Named(ROLES);
    5 5 "create_sockets" "create_sockets" Truth, IfAny;
    6 2 "restart_count" "restart_count " Number;
    7 6 "local" "local " Text;
    8 7 "local6" "local " Text;
];

/// Which end of a tunnel a link is (`GTP_ROLE_*`).
const ROLES: Names = &[(0, "ggsn"), (1, "sgsn")];

/// Of a tunnel of OpenVPN.
pub const OVPN: Rows = crate::rows![1 0 "mode" "mode " Named(PEERS);];

/// How many peers it has (`OVPN_MODE_*`).
const PEERS: Names = &[(0, "p2p"), (1, "mp")];

/// Numbers with so many digits, and a suite by its number of eight bytes.
pub fn push_own(fields: &mut Fields, list: List<'_>, word: Word, seen: &Seen<'_>) {
    let number = small(&seen.value);
    match (list.nest.set, seen.number, &seen.value) {
        (AttributeSet::InfoIpoib, 1, _) => fields.text(word, &format_args!("0x{:04x}", number)),
        (AttributeSet::InfoIpoib, _, _) => fields.text(word, &format_args!("{:04x}", number)),
        (_, 1, Value::U64(channel)) => fields.text(word, &format_args!("{:016x}", *channel)),
        (_, _, Value::U64(suite)) => fields.text(word, &cipher_name(*suite)),
        _ => {}
    }
}

fn cipher_name(suite: u64) -> &'static str {
    match CIPHERS.iter().find(|known| known.0 == suite) {
        Some(known) => known.1,
        None => "(unknown)",
    }
}
