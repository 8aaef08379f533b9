//! What stands in a message of rtnetlink, in lines and as JSON, as `ip` shows it.
//!
//! `append_lines` and `append_object` show a message where it stands, with the names of `Interfaces`
//! that link messages told, `Counts` says how many there were of each kind, and `attribute_name` has the
//! names of attributes.
#![tactic(auto)]

mod address;
mod address_label;
mod attribute;
mod bond;
mod bridge;
mod bridge_vlan;
mod counts;
mod device;
mod device_kind;
mod field;
mod field_values;
mod interfaces;
mod link;
mod link_attribute;
mod link_kind_names;
mod link_names;
mod link_number;
mod link_setting_names;
mod list;
mod manner;
mod message;
mod metric;
mod names;
mod neighbour;
mod neighbour_table;
mod netconf;
mod next_hop;
mod nsid;
mod own;
mod part;
mod peer;
mod prefix;
mod route;
mod route_value;
mod row;
mod rule;
mod segment_encap;
mod shown;
mod stats;
mod tables;
mod traffic;
mod traffic_action;
mod traffic_basic;
mod traffic_cake;
mod traffic_counts;
mod traffic_filter;
mod traffic_flower;
mod traffic_flower_key;
mod traffic_kind;
mod traffic_mqprio;
mod traffic_netem;
mod traffic_option;
mod traffic_own;
mod traffic_pedit;
mod traffic_police;
mod traffic_program;
mod traffic_qdisc;
mod traffic_rate;
mod traffic_sfq;
mod traffic_share;
mod traffic_text;
mod tunnel;
mod tunnel_encap;
mod tunnel_option;
mod tunnel_value;
mod value;
mod virtual_function;
mod walk;

pub use counts::Counts;
pub use interfaces::{Interface, Interfaces};
pub use manner::Manner;
pub use message::Shown;
pub use netlink_packet_route::framing::attribute_name;
pub use shown::{append_lines, append_object};
