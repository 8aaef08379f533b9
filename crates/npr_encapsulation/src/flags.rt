//! The flags of tunnels over IP: `TUNNEL_*` of `linux/if_tunnel.h`.

ghost use Rattle.std.specs.{Prelude.{⊤, [], ◌∷◌, codes}, Fmt.{WritesOnOk}};
ghost use Rattle.npr_encapsulation.specs.TunnelFlags.{ip_flag_bits, ip6_flag_bits, flag_text, flags_text};

use bitflags::{Flag, Flags};
use npr_base::named_flags;
use std::fmt;

/// The flags of a tunnel over IP version 4: `TUNNEL_*` of `linux/if_tunnel.h`. Every bit is kept.
#[derive(Clone, Copy, Debug, Default, PartialEq, Eq)]
pub struct RouteIpTunnelFlags(u16);

impl RouteIpTunnelFlags {
    /// Packets have a checksum.
    pub const Checksum: RouteIpTunnelFlags = RouteIpTunnelFlags(0x1);

    /// Packets have a key.
    pub const Key: RouteIpTunnelFlags = RouteIpTunnelFlags(0x4);

    /// Packets are numbered.
    pub const Sequence: RouteIpTunnelFlags = RouteIpTunnelFlags(0x8);

    const FLAGS: &'static [Flag<RouteIpTunnelFlags>] = named_flags![RouteIpTunnelFlags:
        Checksum, Key, Sequence;
        u16::MAX
    ];
}

impl Flags for RouteIpTunnelFlags {
    type Bits = u16;

    ghost exact = { ⊤ };

    ghost table = { (codes "Checksum", 1) ∷ (codes "Key", 4) ∷ (codes "Sequence", 8) ∷ ([], 65535) ∷ [] };

    ghost set_of = { ip_flag_bits.number };

    fn flags<'a>() -> &'a [Flag<RouteIpTunnelFlags>] {
        RouteIpTunnelFlags::FLAGS
    }

    fn bits(&self) -> u16 {
        self.0
    }

    fn from_bits_retain(bits: u16) -> RouteIpTunnelFlags {
        RouteIpTunnelFlags(bits)
    }
}

/// The flags of a tunnel over IP version 6: `TUNNEL_*` of `linux/if_tunnel.h`. Every bit is kept.
#[derive(Clone, Copy, Debug, Default, PartialEq, Eq)]
pub struct RouteIp6TunnelFlags(u16);

impl RouteIp6TunnelFlags {
    /// Packets have a checksum.
    pub const Checksum: RouteIp6TunnelFlags = RouteIp6TunnelFlags(0x1);

    /// Packets have a key.
    pub const Key: RouteIp6TunnelFlags = RouteIp6TunnelFlags(0x4);

    /// Packets are numbered.
    pub const Sequence: RouteIp6TunnelFlags = RouteIp6TunnelFlags(0x8);

    const FLAGS: &'static [Flag<RouteIp6TunnelFlags>] = named_flags![RouteIp6TunnelFlags:
        Checksum, Key, Sequence;
        u16::MAX
    ];
}

impl Flags for RouteIp6TunnelFlags {
    type Bits = u16;

    ghost exact = { ⊤ };

    ghost table = { (codes "Checksum", 1) ∷ (codes "Key", 4) ∷ (codes "Sequence", 8) ∷ ([], 65535) ∷ [] };

    ghost set_of = { ip6_flag_bits.number };

    fn flags<'a>() -> &'a [Flag<RouteIp6TunnelFlags>] {
        RouteIp6TunnelFlags::FLAGS
    }

    fn bits(&self) -> u16 {
        self.0
    }

    fn from_bits_retain(bits: u16) -> RouteIp6TunnelFlags {
        RouteIp6TunnelFlags(bits)
    }
}

/// Writes the names of the flags that are set, with a space behind each. The bits are the same for
/// both versions.
pub(crate) fn write_flags<W: fmt::Write>(f: &mut fmt::Formatter<W>, bits: u16) -> fmt::Result
    ensures { WritesOnOk W.write_str_gives f.old result (flags_text bits) f.new }
{
    let flags = RouteIpTunnelFlags(bits);
    write_flag(f, flags, RouteIpTunnelFlags::Key, "key")?;
    write_flag(f, flags, RouteIpTunnelFlags::Checksum, "csum")?;
    write_flag(f, flags, RouteIpTunnelFlags::Sequence, "seq")
}

/// Writes the name and a space, where the flag is set.
fn write_flag<W: fmt::Write>(
    f: &mut fmt::Formatter<W>,
    flags: RouteIpTunnelFlags,
    flag: RouteIpTunnelFlags,
    name: &str,
) -> fmt::Result
    ensures { WritesOnOk W.write_str_gives f.old result (flag_text (ip_flag_bits.number flags) (ip_flag_bits.number flag) name.now) f.new }
{
    if flags.contains(flag) {
        write!(f, "{name} ")?;
    }
    Ok(())
}
