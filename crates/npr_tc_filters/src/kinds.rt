//! The names of filters.

/// The filter `u32`.
pub struct TcFilterU32 {}

impl TcFilterU32 {
    /// Its name.
    pub const KIND: &'static str = "u32";
}

/// The filter `flower`.
pub struct TcFilterFlower {}

impl TcFilterFlower {
    /// Its name.
    pub const KIND: &'static str = "flower";
}

/// The filter `matchall`.
pub struct TcFilterMatchAll {}

impl TcFilterMatchAll {
    /// Its name.
    pub const KIND: &'static str = "matchall";
}

/// The filter `fw`.
pub struct TcFilterFw {}

impl TcFilterFw {
    /// Its name.
    pub const KIND: &'static str = "fw";
}

/// The filter `bpf`.
pub struct TcFilterBpf {}

impl TcFilterBpf {
    /// Its name.
    pub const KIND: &'static str = "bpf";
}

/// The filter `basic`.
pub struct TcFilterBasic {}

impl TcFilterBasic {
    /// Its name.
    pub const KIND: &'static str = "basic";
}
