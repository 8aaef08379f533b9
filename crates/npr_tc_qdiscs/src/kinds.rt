//! The names of queueing disciplines.

/// The queueing discipline `fq_codel`.
pub struct TcQdiscFqCodel {}

impl TcQdiscFqCodel {
    /// Its name.
    pub const KIND: &'static str = "fq_codel";
}

/// The queueing discipline `ingress`.
pub struct TcQdiscIngress {}

impl TcQdiscIngress {
    /// Its name.
    pub const KIND: &'static str = "ingress";
}

/// The queueing discipline `htb`.
pub struct TcQdiscHtb {}

impl TcQdiscHtb {
    /// Its name.
    pub const KIND: &'static str = "htb";
}

/// The queueing discipline `tbf`.
pub struct TcQdiscTbf {}

impl TcQdiscTbf {
    /// Its name.
    pub const KIND: &'static str = "tbf";
}

/// The queueing discipline `red`.
pub struct TcQdiscRed {}

impl TcQdiscRed {
    /// Its name.
    pub const KIND: &'static str = "red";
}

/// The queueing discipline `fq`.
pub struct TcQdiscFq {}

impl TcQdiscFq {
    /// Its name.
    pub const KIND: &'static str = "fq";
}

/// The queueing discipline `netem`.
pub struct TcQdiscNetem {}

impl TcQdiscNetem {
    /// Its name.
    pub const KIND: &'static str = "netem";
}

/// The queueing discipline `prio`.
pub struct TcQdiscPrio {}

impl TcQdiscPrio {
    /// Its name.
    pub const KIND: &'static str = "prio";
}

/// The queueing discipline `cake`.
pub struct TcQdiscCake {}

impl TcQdiscCake {
    /// Its name.
    pub const KIND: &'static str = "cake";
}

/// The queueing discipline `sfq`.
pub struct TcQdiscSfq {}

impl TcQdiscSfq {
    /// Its name.
    pub const KIND: &'static str = "sfq";
}

/// The queueing discipline `mqprio`.
pub struct TcQdiscMqprio {}

impl TcQdiscMqprio {
    /// Its name.
    pub const KIND: &'static str = "mqprio";
}
