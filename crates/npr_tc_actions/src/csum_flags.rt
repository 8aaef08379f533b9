//! Which checksums an action makes anew: `linux/tc_act/tc_csum.h`. Every bit is kept.

ghost use Rattle.std.specs.Prelude.{⊤, [], ◌∷◌, codes};
ghost use Rattle.npr_tc_actions.specs.CsumFlags.{csum_flag_bits};

use bitflags::{Flag, Flags};
use npr_base::named_flags;

/// Which checksums an action makes anew (`linux/tc_act/tc_csum.h`). They are written as 4 bytes, little endian.
#[derive(Clone, Copy, Debug, Default, PartialEq, Eq)]
pub struct TcCsumFlags(u32);

impl TcCsumFlags {
    /// `TCA_CSUM_UPDATE_FLAG_IPV4HDR`: that of the header of IP version 4.
    pub const Ipv4Hdr: TcCsumFlags = TcCsumFlags(0x1);

    /// `TCA_CSUM_UPDATE_FLAG_ICMP`: that of ICMP.
    pub const Icmp: TcCsumFlags = TcCsumFlags(0x2);

    /// `TCA_CSUM_UPDATE_FLAG_IGMP`: that of IGMP.
    pub const Igmp: TcCsumFlags = TcCsumFlags(0x4);

    /// `TCA_CSUM_UPDATE_FLAG_TCP`: that of TCP.
    pub const Tcp: TcCsumFlags = TcCsumFlags(0x8);

    /// `TCA_CSUM_UPDATE_FLAG_UDP`: that of UDP.
    pub const Udp: TcCsumFlags = TcCsumFlags(0x10);

    /// `TCA_CSUM_UPDATE_FLAG_UDPLITE`: that of UDP-Lite.
    pub const UdpLite: TcCsumFlags = TcCsumFlags(0x20);

    /// `TCA_CSUM_UPDATE_FLAG_SCTP`: that of SCTP.
    pub const Sctp: TcCsumFlags = TcCsumFlags(0x40);

    const FLAGS: &'static [Flag<TcCsumFlags>] = named_flags![TcCsumFlags:
        Ipv4Hdr, Icmp, Igmp, Tcp, Udp, UdpLite, Sctp;
        u32::MAX
    ];
}

impl Flags for TcCsumFlags {
    type Bits = u32;

    ghost exact = { ⊤ };

    ghost table = { (codes "Ipv4Hdr", 1) ∷ (codes "Icmp", 2) ∷ (codes "Igmp", 4) ∷ (codes "Tcp", 8) ∷ (codes "Udp", 16) ∷ (codes "UdpLite", 32) ∷ (codes "Sctp", 64) ∷ ([], 4294967295) ∷ [] };

    ghost set_of = { csum_flag_bits.number };

    fn flags<'a>() -> &'a [Flag<TcCsumFlags>] {
        TcCsumFlags::FLAGS
    }

    fn bits(&self) -> u32 {
        self.0
    }

    fn from_bits_retain(bits: u32) -> TcCsumFlags {
        TcCsumFlags(bits)
    }
}
