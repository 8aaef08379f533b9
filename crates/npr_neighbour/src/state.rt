//! How far a neighbour is known: `NUD_*` of `linux/neighbour.h`. Every bit is kept.

ghost use Rattle.std.specs.Prelude.{⊤, [], ◌∷◌, codes};
ghost use Rattle.npr_neighbour.specs.State.{state_bits};

use bitflags::{Flag, Flags};
use npr_base::named_flags;

/// How far a neighbour is known. The kernel sets one bit, or none; a request may name several.
#[derive(Clone, Copy, Debug, Default, PartialEq, Eq)]
pub struct NeighbourState(u16);

impl NeighbourState {
    /// `NUD_NONE`: nothing is known.
    pub const None: NeighbourState = NeighbourState(0x0);

    /// `NUD_INCOMPLETE`: it is being asked for.
    pub const Incomplete: NeighbourState = NeighbourState(0x1);

    /// `NUD_REACHABLE`: it was confirmed lately.
    pub const Reachable: NeighbourState = NeighbourState(0x2);

    /// `NUD_STALE`: it was confirmed long ago.
    pub const Stale: NeighbourState = NeighbourState(0x4);

    /// `NUD_DELAY`: a packet went to it, and a confirmation is waited for.
    pub const Delay: NeighbourState = NeighbourState(0x8);

    /// `NUD_PROBE`: it is being asked again.
    pub const Probe: NeighbourState = NeighbourState(0x10);

    /// `NUD_FAILED`: it didn't answer.
    pub const Failed: NeighbourState = NeighbourState(0x20);

    /// `NUD_NOARP`: it needs no resolution.
    pub const Noarp: NeighbourState = NeighbourState(0x40);

    /// `NUD_PERMANENT`: it was set by hand, and stays.
    pub const Permanent: NeighbourState = NeighbourState(0x80);

    const FLAGS: &'static [Flag<NeighbourState>] = named_flags![NeighbourState:
        Incomplete, Reachable, Stale, Delay, Probe, Failed, Noarp, Permanent;
        u16::MAX
    ];
}

impl Flags for NeighbourState {
    type Bits = u16;

    ghost exact = { ⊤ };

    ghost table = { (codes "Incomplete", 1) ∷ (codes "Reachable", 2) ∷ (codes "Stale", 4) ∷ (codes "Delay", 8) ∷ (codes "Probe", 16) ∷ (codes "Failed", 32) ∷ (codes "Noarp", 64) ∷ (codes "Permanent", 128) ∷ ([], 65535) ∷ [] };

    ghost set_of = { state_bits.number };

    fn flags<'a>() -> &'a [Flag<NeighbourState>] {
        NeighbourState::FLAGS
    }

    fn bits(&self) -> u16 {
        self.0
    }

    fn from_bits_retain(bits: u16) -> NeighbourState {
        NeighbourState(bits)
    }
}
