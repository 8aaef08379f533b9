//! The flags of routes and next hops: `RTNH_F_*` and `RTM_F_*` of `linux/rtnetlink.h`.

ghost use Rattle.std.specs.{Prelude.{⊤, [], ◌∷◌, ◌++◌, codes, map, Some, if◌then◌else◌}, Fmt.{DisplaysOnOk, WritesOnOk}};
ghost use Rattle.{npr_base.specs.Text.{joined_by}, npr_route_values.specs.RouteFlags.{route_flag_bits, next_hop_flag_bits, next_hop_flags_text, names_set}};

use bitflags::{Flag, Flags};
use npr_base::named_flags;
use std::fmt;

/// The flags of a next hop: `RTNH_F_*` of `linux/rtnetlink.h`. Every bit is kept.
#[derive(Clone, Copy, Debug, Default, PartialEq, Eq)]
pub struct RouteNextHopFlags(u8);

impl RouteNextHopFlags {
    /// The next hop is down.
    pub const Dead: RouteNextHopFlags = RouteNextHopFlags(0x1);

    /// Look up again.
    pub const Pervasive: RouteNextHopFlags = RouteNextHopFlags(0x2);

    /// The gateway is on the link.
    pub const Onlink: RouteNextHopFlags = RouteNextHopFlags(0x4);

    /// The next hop is in hardware.
    pub const Offload: RouteNextHopFlags = RouteNextHopFlags(0x8);

    /// The link is down.
    pub const Linkdown: RouteNextHopFlags = RouteNextHopFlags(0x10);

    /// The entry is not resolved.
    pub const Unresolved: RouteNextHopFlags = RouteNextHopFlags(0x20);

    /// The packets are trapped.
    pub const Trap: RouteNextHopFlags = RouteNextHopFlags(0x40);

    const FLAGS: &'static [Flag<RouteNextHopFlags>] = named_flags![RouteNextHopFlags:
        Dead, Pervasive, Onlink, Offload, Linkdown, Unresolved, Trap;
        u8::MAX
    ];
}

impl Flags for RouteNextHopFlags {
    type Bits = u8;

    ghost exact = { ⊤ };

    ghost table = { (codes "Dead", 1) ∷ (codes "Pervasive", 2) ∷ (codes "Onlink", 4) ∷ (codes "Offload", 8) ∷ (codes "Linkdown", 16) ∷ (codes "Unresolved", 32) ∷ (codes "Trap", 64) ∷ ([], 255) ∷ [] };

    ghost set_of = { next_hop_flag_bits.number };

    fn flags<'a>() -> &'a [Flag<RouteNextHopFlags>] {
        RouteNextHopFlags::FLAGS
    }

    fn bits(&self) -> u8 {
        self.0
    }

    fn from_bits_retain(bits: u8) -> RouteNextHopFlags {
        RouteNextHopFlags(bits)
    }
}

/// The flags of a route: `RTNH_F_*` and `RTM_F_*` of `linux/rtnetlink.h`. Every bit is kept.
#[derive(Clone, Copy, Debug, Default, PartialEq, Eq)]
pub struct RouteFlags(u32);

impl RouteFlags {
    /// The next hop is down.
    pub const Dead: RouteFlags = RouteFlags(0x1);

    /// Look up again.
    pub const Pervasive: RouteFlags = RouteFlags(0x2);

    /// The gateway is on the link.
    pub const Onlink: RouteFlags = RouteFlags(0x4);

    /// The next hop is in hardware.
    pub const Offload: RouteFlags = RouteFlags(0x8);

    /// The link is down.
    pub const Linkdown: RouteFlags = RouteFlags(0x10);

    /// The entry is not resolved.
    pub const Unresolved: RouteFlags = RouteFlags(0x20);

    /// The packets are trapped.
    pub const Trap: RouteFlags = RouteFlags(0x40);

    /// Tell of changes.
    pub const Notify: RouteFlags = RouteFlags(0x100);

    /// The route is a clone.
    pub const Cloned: RouteFlags = RouteFlags(0x200);

    /// Not used.
    pub const Equalize: RouteFlags = RouteFlags(0x400);

    /// The route is a prefix.
    pub const Prefix: RouteFlags = RouteFlags(0x800);

    /// Answer with the table.
    pub const LookupTable: RouteFlags = RouteFlags(0x1000);

    /// Answer with the matching entry.
    pub const FibMatch: RouteFlags = RouteFlags(0x2000);

    /// The route is in hardware.
    pub const RtOffload: RouteFlags = RouteFlags(0x4000);

    /// The route traps packets.
    pub const RtTrap: RouteFlags = RouteFlags(0x8000);

    /// The route could not be put into hardware.
    pub const OffloadFailed: RouteFlags = RouteFlags(0x20000000);

    const FLAGS: &'static [Flag<RouteFlags>] = named_flags![RouteFlags:
        Dead, Pervasive, Onlink, Offload, Linkdown, Unresolved, Trap, Notify, Cloned, Equalize,
        Prefix, LookupTable, FibMatch, RtOffload, RtTrap, OffloadFailed;
        u32::MAX
    ];
}

impl Flags for RouteFlags {
    type Bits = u32;

    ghost exact = { ⊤ };

    ghost table = { (codes "Dead", 1) ∷ (codes "Pervasive", 2) ∷ (codes "Onlink", 4) ∷ (codes "Offload", 8) ∷ (codes "Linkdown", 16) ∷ (codes "Unresolved", 32) ∷ (codes "Trap", 64) ∷ (codes "Notify", 256) ∷ (codes "Cloned", 512) ∷ (codes "Equalize", 1024) ∷ (codes "Prefix", 2048) ∷ (codes "LookupTable", 4096) ∷ (codes "FibMatch", 8192) ∷ (codes "RtOffload", 16384) ∷ (codes "RtTrap", 32768) ∷ (codes "OffloadFailed", 536870912) ∷ ([], 4294967295) ∷ [] };

    ghost set_of = { route_flag_bits.number };

    fn flags<'a>() -> &'a [Flag<RouteFlags>] {
        RouteFlags::FLAGS
    }

    fn bits(&self) -> u32 {
        self.0
    }

    fn from_bits_retain(bits: u32) -> RouteFlags {
        RouteFlags(bits)
    }
}

/// The names of the flags that are set, one space between them.
impl fmt::Display for RouteNextHopFlags {
    ghost output = { λ flags. next_hop_flags_text flags };

    fn fmt<W: fmt::Write>(&self, f: &mut fmt::Formatter<W>) -> fmt::Result {
        let names = [
            (self.contains(RouteNextHopFlags::Dead), "dead"),
            (self.contains(RouteNextHopFlags::Onlink), "onlink"),
            (self.contains(RouteNextHopFlags::Pervasive), "pervasive"),
            (self.contains(RouteNextHopFlags::Offload), "offload"),
            (self.contains(RouteNextHopFlags::Linkdown), "linkdown"),
            (self.contains(RouteNextHopFlags::Unresolved), "unresolved"),
            (self.contains(RouteNextHopFlags::Trap), "trap"),
        ];
        write_names(f, &names)
    }
}

/// Writes the names that are set, one space between them.
fn write_names<W: fmt::Write>(f: &mut fmt::Formatter<W>, names: &[(bool, &str)]) -> fmt::Result
    ensures { DisplaysOnOk W.write_str_gives f.old result (joined_by (codes " ") Some (names_set (map (λ n. (n.0, n.1.now)) names.now))) f.new }
{
    let mut started = false;
    for (is_set, name) in names {
        if *is_set {
            write_next(f, started, name)?;
            started = true;
        }
    }
    Ok(())
}

/// Writes a name, behind a space where others stand before it.
fn write_next<W: fmt::Write>(f: &mut fmt::Formatter<W>, started: bool, name: &str) -> fmt::Result
    ensures { WritesOnOk W.write_str_gives f.old result ((if started then codes " " else []) ++ name.now) f.new }
{
    if started {
        f.write_str(" ")?;
    }
    f.write_str(name)
}
