//! Filters of traffic control.
#![tactic(auto)]

mod basic;
mod basic_pcnt;
mod bpf;
mod ematch;
mod ematch_header;
mod ematch_tree;
mod ematch_tree_header;
mod flower;
mod flower_cfm;
mod flower_form;
mod flower_mpls;
mod flower_mpls_lse;
mod flower_option;
mod flower_put;
mod flower_rows;
mod flower_value;
mod fw;
mod kinds;
pub mod laws;
mod match_all;
mod match_all_pcnt;
mod put_text;
mod u32_key;
mod u32_mark;
mod u32_option;
mod u32_option_flags;
mod u32_pcnt;
mod u32_selector;
mod u32_selector_flags;

pub use basic::TcFilterBasicOption;
pub use basic_pcnt::TcBasicPcnt;
pub use bpf::TcFilterBpfOption;
pub use ematch::TcEmatch;
pub use ematch_header::TcEmatchHeader;
pub use ematch_tree::TcEmatchTree;
pub use ematch_tree_header::TcEmatchTreeHeader;
pub use flower_cfm::TcFlowerCfmOption;
pub use flower_mpls::TcFilterFlowerMplsOption;
pub use flower_mpls_lse::TcFilterFlowerMplsLseOption;
pub use flower_option::TcFilterFlowerOption;
pub use fw::TcFilterFwOption;
pub use kinds::{
    TcFilterBasic, TcFilterBpf, TcFilterFlower, TcFilterFw, TcFilterMatchAll, TcFilterU32,
};
pub use match_all::TcFilterMatchAllOption;
pub use match_all_pcnt::TcMatchAllPcnt;
pub use u32_key::TcU32Key;
pub use u32_mark::TcU32Mark;
pub use u32_option::TcFilterU32Option;
pub use u32_option_flags::TcU32OptionFlags;
pub use u32_pcnt::TcU32Pcnt;
pub use u32_selector::{TcU32Selector, TcU32SelectorBuffer};
pub use u32_selector_flags::TcU32SelectorFlags;
