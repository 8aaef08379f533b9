//! What a link does for IP version 6: `IF_RS_SENT` and the like of `net/if_inet6.h`. Every bit is kept.

ghost use Rattle.std.specs.Prelude.{⊤, [], ◌∷◌, codes};
ghost use Rattle.npr_link.specs.Inet6Flags.{inet6_flag_bits};

use bitflags::{Flag, Flags};
use npr_base::named_flags;

/// What a link does for IP version 6.
#[derive(Clone, Copy, Debug, Default, PartialEq, Eq)]
pub struct Inet6IfaceFlags(u32);

impl Inet6IfaceFlags {
    /// `IF_RS_SENT`: it asked for routers.
    pub const RsSent: Inet6IfaceFlags = Inet6IfaceFlags(0x10);

    /// `IF_RA_RCVD`: a router answered.
    pub const RaRcvd: Inet6IfaceFlags = Inet6IfaceFlags(0x20);

    /// `IF_RA_MANAGED`: addresses come by DHCP.
    pub const RaManaged: Inet6IfaceFlags = Inet6IfaceFlags(0x40);

    /// `IF_RA_OTHERCONF`: other settings come by DHCP.
    pub const Otherconf: Inet6IfaceFlags = Inet6IfaceFlags(0x80);

    /// `IF_READY`: it is ready.
    pub const Ready: Inet6IfaceFlags = Inet6IfaceFlags(0x80000000);

    const FLAGS: &'static [Flag<Inet6IfaceFlags>] = named_flags![Inet6IfaceFlags:
        RsSent, RaRcvd, RaManaged, Otherconf, Ready;
        u32::MAX
    ];
}

impl Flags for Inet6IfaceFlags {
    type Bits = u32;

    ghost exact = { ⊤ };

    ghost table = { (codes "RsSent", 16) ∷ (codes "RaRcvd", 32) ∷ (codes "RaManaged", 64) ∷ (codes "Otherconf", 128)
        ∷ (codes "Ready", 2147483648) ∷ ([], 4294967295) ∷ [] };

    ghost set_of = { inet6_flag_bits.number };

    fn flags<'a>() -> &'a [Flag<Inet6IfaceFlags>] {
        Inet6IfaceFlags::FLAGS
    }

    fn bits(&self) -> u32 {
        self.0
    }

    fn from_bits_retain(bits: u32) -> Inet6IfaceFlags {
        Inet6IfaceFlags(bits)
    }
}
