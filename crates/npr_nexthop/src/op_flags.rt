//! What is asked of a next hop, or answered: `NHA_OP_FLAG_*` of `linux/nexthop.h`. Every bit is kept.

ghost use Rattle.std.specs.Prelude.{⊤, [], ◌∷◌, codes};
ghost use Rattle.npr_nexthop.specs.OpFlags.{op_flag_bits};

use bitflags::{Flag, Flags};
use npr_base::named_flags;

/// What is asked of a next hop, or answered: `NHA_OP_FLAG_*` of `linux/nexthop.h`. They are written
/// as 4 bytes, little endian.
#[derive(Clone, Copy, Debug, Default, PartialEq, Eq)]
pub struct NextHopOpFlags(u32);

impl NextHopOpFlags {
    /// `NHA_OP_FLAG_DUMP_STATS`: what went by the members is wanted.
    pub const DumpStats: NextHopOpFlags = NextHopOpFlags(0x1);

    /// `NHA_OP_FLAG_DUMP_HW_STATS`: and what devices forwarded by themselves.
    pub const DumpHwStats: NextHopOpFlags = NextHopOpFlags(0x2);

    /// `NHA_OP_FLAG_RESP_GRP_RESVD_0`: the bytes that members leave unused are 0.
    pub const RespGrpResvd0: NextHopOpFlags = NextHopOpFlags(0x8000_0000);

    const FLAGS: &'static [Flag<NextHopOpFlags>] = named_flags![NextHopOpFlags:
        DumpStats, DumpHwStats, RespGrpResvd0;
        u32::MAX
    ];
}

impl Flags for NextHopOpFlags {
    type Bits = u32;

    ghost exact = { ⊤ };

    ghost table = { (codes "DumpStats", 1) ∷ (codes "DumpHwStats", 2) ∷ (codes "RespGrpResvd0", 2147483648) ∷ ([], 4294967295) ∷ [] };

    ghost set_of = { op_flag_bits.number };

    fn flags<'a>() -> &'a [Flag<NextHopOpFlags>] {
        NextHopOpFlags::FLAGS
    }

    fn bits(&self) -> u32 {
        self.0
    }

    fn from_bits_retain(bits: u32) -> NextHopOpFlags {
        NextHopOpFlags(bits)
    }
}
