//! The flags of a link: `IFF_*` of `linux/if.h`. Every bit is kept.

ghost use Rattle.std.specs.{
  Prelude.{⊤, [], ◌∷◌, ◌++◌, codes, map, Some, false, if◌then◌else◌},
  Fmt.{DisplaysOnOk, WritesOnOk, digits},
};
ghost use Rattle.{npr_base.specs.Text.{joined_by}, npr_link.specs.Flags.{link_flag_bits, link_flags_text, names_set, unnamed_text}};

use bitflags::{Flag, Flags};
use npr_base::named_flags;
use std::fmt;

/// The flags of a link.
#[derive(Clone, Copy, Debug, Default, PartialEq, Eq)]
pub struct LinkFlags(u32);

impl LinkFlags {
    /// `IFF_UP`: it is up.
    pub const Up: LinkFlags = LinkFlags(0x1);

    /// `IFF_BROADCAST`: its broadcast address is valid.
    pub const Broadcast: LinkFlags = LinkFlags(0x2);

    /// `IFF_DEBUG`: it is being debugged.
    pub const Debug: LinkFlags = LinkFlags(0x4);

    /// `IFF_LOOPBACK`: it is the loopback device.
    pub const Loopback: LinkFlags = LinkFlags(0x8);

    /// `IFF_POINTOPOINT`: it is a link from point to point.
    pub const Pointopoint: LinkFlags = LinkFlags(0x10);

    /// `IFF_NOTRAILERS`: it makes no trailers.
    pub const Notrailers: LinkFlags = LinkFlags(0x20);

    /// `IFF_RUNNING`: it is in operation (RFC 2863).
    pub const Running: LinkFlags = LinkFlags(0x40);

    /// `IFF_NOARP`: it has no address resolution.
    pub const Noarp: LinkFlags = LinkFlags(0x80);

    /// `IFF_PROMISC`: it takes all packets.
    pub const Promisc: LinkFlags = LinkFlags(0x100);

    /// `IFF_ALLMULTI`: it takes all multicast packets.
    pub const Allmulti: LinkFlags = LinkFlags(0x200);

    /// `IFF_MASTER`: it controls others.
    pub const Controller: LinkFlags = LinkFlags(0x400);

    /// `IFF_SLAVE`: another controls it.
    pub const Port: LinkFlags = LinkFlags(0x800);

    /// `IFF_MULTICAST`: it can multicast.
    pub const Multicast: LinkFlags = LinkFlags(0x1000);

    /// `IFF_PORTSEL`: it can choose its medium.
    pub const Portsel: LinkFlags = LinkFlags(0x2000);

    /// `IFF_AUTOMEDIA`: it chooses its medium by itself.
    pub const Automedia: LinkFlags = LinkFlags(0x4000);

    /// `IFF_DYNAMIC`: its addresses are lost when it goes down.
    pub const Dynamic: LinkFlags = LinkFlags(0x8000);

    /// `IFF_LOWER_UP`: the layer under it is up.
    pub const LowerUp: LinkFlags = LinkFlags(0x10000);

    /// `IFF_DORMANT`: it waits for something.
    pub const Dormant: LinkFlags = LinkFlags(0x20000);

    /// `IFF_ECHO`: it sends back what is sent.
    pub const Echo: LinkFlags = LinkFlags(0x40000);

    const FLAGS: &'static [Flag<LinkFlags>] = named_flags![LinkFlags:
        Up, Broadcast, Debug, Loopback, Pointopoint, Notrailers, Running, Noarp, Promisc, Allmulti,
        Controller, Port, Multicast, Portsel, Automedia, Dynamic, LowerUp, Dormant, Echo;
        u32::MAX
    ];
}

impl Flags for LinkFlags {
    type Bits = u32;

    ghost exact = { ⊤ };

    ghost table = { (codes "Up", 1) ∷ (codes "Broadcast", 2) ∷ (codes "Debug", 4) ∷ (codes "Loopback", 8) ∷ (codes "Pointopoint", 16)
        ∷ (codes "Notrailers", 32) ∷ (codes "Running", 64) ∷ (codes "Noarp", 128) ∷ (codes "Promisc", 256) ∷ (codes "Allmulti", 512)
        ∷ (codes "Controller", 1024) ∷ (codes "Port", 2048) ∷ (codes "Multicast", 4096) ∷ (codes "Portsel", 8192)
        ∷ (codes "Automedia", 16384) ∷ (codes "Dynamic", 32768) ∷ (codes "LowerUp", 65536) ∷ (codes "Dormant", 131072)
        ∷ (codes "Echo", 262144) ∷ ([], 4294967295) ∷ [] };

    ghost set_of = { link_flag_bits.number };

    fn flags<'a>() -> &'a [Flag<LinkFlags>] {
        LinkFlags::FLAGS
    }

    fn bits(&self) -> u32 {
        self.0
    }

    fn from_bits_retain(bits: u32) -> LinkFlags {
        LinkFlags(bits)
    }
}

/// The names of the flags that are set, in the order of the table, and last the bits without a name as
/// one number in hexadecimal, ` | ` between them.
impl fmt::Display for LinkFlags {
    ghost output = { λ flags. link_flags_text flags };

    fn fmt<W: fmt::Write>(&self, f: &mut fmt::Formatter<W>) -> fmt::Result {
        let names = [
            (self.contains(LinkFlags::Up), "Up"),
            (self.contains(LinkFlags::Broadcast), "Broadcast"),
            (self.contains(LinkFlags::Debug), "Debug"),
            (self.contains(LinkFlags::Loopback), "Loopback"),
            (self.contains(LinkFlags::Pointopoint), "Pointopoint"),
            (self.contains(LinkFlags::Notrailers), "Notrailers"),
            (self.contains(LinkFlags::Running), "Running"),
            (self.contains(LinkFlags::Noarp), "Noarp"),
            (self.contains(LinkFlags::Promisc), "Promisc"),
            (self.contains(LinkFlags::Allmulti), "Allmulti"),
            (self.contains(LinkFlags::Controller), "Controller"),
            (self.contains(LinkFlags::Port), "Port"),
            (self.contains(LinkFlags::Multicast), "Multicast"),
            (self.contains(LinkFlags::Portsel), "Portsel"),
            (self.contains(LinkFlags::Automedia), "Automedia"),
            (self.contains(LinkFlags::Dynamic), "Dynamic"),
            (self.contains(LinkFlags::LowerUp), "LowerUp"),
            (self.contains(LinkFlags::Dormant), "Dormant"),
            (self.contains(LinkFlags::Echo), "Echo"),
        ];
        write_flags(f, &names, self.0 & 0xfff8_0000)
    }
}

/// Writes the names that are set, and the bits without a name where there are some, ` | ` between them.
fn write_flags<W: fmt::Write>(
    f: &mut fmt::Formatter<W>,
    names: &[(bool, &str)],
    unnamed: u32,
) -> fmt::Result
    ensures { DisplaysOnOk W.write_str_gives f.old result
        (joined_by (codes " | ") Some (names_set (map (λ n. (n.0, n.1.now)) names.now) ++ unnamed_text unnamed)) f.new }
{
    let mut started = false;
    for (is_set, name) in names {
        if *is_set {
            write_next(f, started, name)?;
            started = true;
        }
    }
    if unnamed == 0 {
        return Ok(());
    }
    write_unnamed(f, started, unnamed)
}

/// Writes a name, behind a bar where others stand before it.
fn write_next<W: fmt::Write>(f: &mut fmt::Formatter<W>, started: bool, name: &str) -> fmt::Result
    ensures { WritesOnOk W.write_str_gives f.old result ((if started then codes " | " else []) ++ name.now) f.new }
{
    if started {
        f.write_str(" | ")?;
    }
    f.write_str(name)
}

/// Writes bits without a name so.
fn write_unnamed<W: fmt::Write>(f: &mut fmt::Formatter<W>, started: bool, bits: u32) -> fmt::Result
    ensures { WritesOnOk W.write_str_gives f.old result ((if started then codes " | " else []) ++ codes "0x" ++ digits 16 false bits) f.new }
{
    write_next(f, started, "0x")?;
    write!(f, "{bits:x}")
}
