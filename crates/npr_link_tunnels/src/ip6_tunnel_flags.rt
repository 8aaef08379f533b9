//! The flags of a tunnel over IP version 6: `IP6_TNL_F_*` of `linux/ip6_tunnel.h`, and of the kernel's `net/ip6_tunnel.h`. Every bit is kept.

ghost use Rattle.std.specs.Prelude.{⊤, [], ◌∷◌, codes};
ghost use Rattle.npr_link_tunnels.specs.Ip6TunnelFlags.{ip6_tunnel_flag_bits};

use bitflags::{Flag, Flags};
use npr_base::named_flags;

/// The flags of a tunnel over IP version 6. It is written as 4 bytes, little endian.
#[derive(Clone, Copy, Debug, Default, PartialEq, Eq)]
pub struct Ip6TunnelFlags(u32);

impl Ip6TunnelFlags {
    /// `IP6_TNL_F_IGN_ENCAP_LIMIT`: no limit of encapsulation is written.
    pub const IgnEncapLimit: Ip6TunnelFlags = Ip6TunnelFlags(0x1);

    /// `IP6_TNL_F_USE_ORIG_TCLASS`: the traffic class is that of the packet inside.
    pub const UseOrigTclass: Ip6TunnelFlags = Ip6TunnelFlags(0x2);

    /// `IP6_TNL_F_USE_ORIG_FLOWLABEL`: the flow label is that of the packet inside.
    pub const UseOrigFlowlabel: Ip6TunnelFlags = Ip6TunnelFlags(0x4);

    /// `IP6_TNL_F_MIP6_DEV`: it is one of mobile IP.
    pub const Mip6Dev: Ip6TunnelFlags = Ip6TunnelFlags(0x8);

    /// `IP6_TNL_F_RCV_DSCP_COPY`: the DSCP of what comes in goes into the packet inside.
    pub const RcvDscpCopy: Ip6TunnelFlags = Ip6TunnelFlags(0x10);

    /// `IP6_TNL_F_USE_ORIG_FWMARK`: the mark is that of the packet inside.
    pub const UseOrigFwMark: Ip6TunnelFlags = Ip6TunnelFlags(0x20);

    /// `IP6_TNL_F_ALLOW_LOCAL_REMOTE`: the other end may be an address of this host.
    pub const AllowLocalRemote: Ip6TunnelFlags = Ip6TunnelFlags(0x40);

    /// `IP6_TNL_F_CAP_XMIT`: it can send.
    pub const CapXmit: Ip6TunnelFlags = Ip6TunnelFlags(0x10000);

    /// `IP6_TNL_F_CAP_RCV`: it can receive.
    pub const CapRcv: Ip6TunnelFlags = Ip6TunnelFlags(0x20000);

    /// `IP6_TNL_F_CAP_PER_PACKET`: whether it can is found for each packet.
    pub const CapPerPacket: Ip6TunnelFlags = Ip6TunnelFlags(0x40000);

    const FLAGS: &'static [Flag<Ip6TunnelFlags>] = named_flags![Ip6TunnelFlags:
        IgnEncapLimit, UseOrigTclass, UseOrigFlowlabel, Mip6Dev, RcvDscpCopy, UseOrigFwMark, AllowLocalRemote, CapXmit, CapRcv, CapPerPacket;
        u32::MAX
    ];
}

impl Flags for Ip6TunnelFlags {
    type Bits = u32;

    ghost exact = { ⊤ };

    ghost table = { (codes "IgnEncapLimit", 1) ∷ (codes "UseOrigTclass", 2) ∷ (codes "UseOrigFlowlabel", 4) ∷ (codes "Mip6Dev", 8)
        ∷ (codes "RcvDscpCopy", 16) ∷ (codes "UseOrigFwMark", 32) ∷ (codes "AllowLocalRemote", 64) ∷ (codes "CapXmit", 65536)
        ∷ (codes "CapRcv", 131072) ∷ (codes "CapPerPacket", 262144)
        ∷ ([], 4294967295) ∷ [] };

    ghost set_of = { ip6_tunnel_flag_bits.number };

    fn flags<'a>() -> &'a [Flag<Ip6TunnelFlags>] {
        Ip6TunnelFlags::FLAGS
    }

    fn bits(&self) -> u32 {
        self.0
    }

    fn from_bits_retain(bits: u32) -> Ip6TunnelFlags {
        Ip6TunnelFlags(bits)
    }
}
