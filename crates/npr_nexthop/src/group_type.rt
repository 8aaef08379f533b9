//! How a group takes turns: `NEXTHOP_GRP_TYPE_*` of `linux/nexthop.h`.

ghost use Rattle.std.specs.Prelude.{◌≡◌};
ghost use Rattle.npr_nexthop.specs.GroupType.{group_types};

/// How a group takes turns: `NEXTHOP_GRP_TYPE_*` of `linux/nexthop.h`. It is written as 2 bytes,
/// little endian.
#[derive(Clone, Copy, Debug, PartialEq, Eq)]
pub enum NextHopGroupType {
    /// By a hash of the flow over the members.
    Mpath,
    /// By a hash over buckets, which keep their member while it is in use.
    Resilient,
    /// Any other number.
    Other(u16),
}

/// Their numbers.
macro_rules! numbers {
    ($body:ident ($($given:tt)*)) => {
        npr_base::$body!(($($given)*) NextHopGroupType {
            0 Mpath;
            1 Resilient;
        })
    };
}

impl From<u16> for NextHopGroupType {
    ghost from_gives = { λ number value. value ≡ group_types.of number };

    fn from(number: u16) -> NextHopGroupType {
        numbers!(variant_of_number(number))
    }
}

impl From<NextHopGroupType> for u16 {
    ghost from_gives = { λ value number. number ≡ group_types.number value };

    fn from(value: NextHopGroupType) -> u16 {
        numbers!(number_of_variant(value))
    }
}
