//! Which acknowledgements `cake` drops that later ones make needless: `CAKE_ACK_*` of `linux/pkt_sched.h`.

ghost use Rattle.std.specs.Prelude.{◌≡◌};
ghost use Rattle.npr_tc_qdiscs.specs.CakeAckFilter.{cake_ack_filters};

/// Which acknowledgements `cake` drops that later ones make needless: `CAKE_ACK_*` of `linux/pkt_sched.h`.
/// It is written as 4 bytes, little endian.
#[derive(Clone, Copy, Debug, PartialEq, Eq)]
pub enum TcCakeAckFilter {
    /// `CAKE_ACK_NONE`: none.
    None,
    /// `CAKE_ACK_FILTER`: those without which nothing is lost.
    Filter,
    /// `CAKE_ACK_AGGRESSIVE`: more of them.
    Aggressive,
    /// Any other number.
    Other(u32),
}

/// Their numbers.
macro_rules! numbers {
    ($body:ident ($($given:tt)*)) => {
        npr_base::$body!(($($given)*) TcCakeAckFilter {
            0 None;
            1 Filter;
            2 Aggressive;
        })
    };
}

impl From<u32> for TcCakeAckFilter {
    ghost from_gives = { λ number value. value ≡ cake_ack_filters.of number };

    fn from(number: u32) -> TcCakeAckFilter {
        numbers!(variant_of_number(number))
    }
}

impl From<TcCakeAckFilter> for u32 {
    ghost from_gives = { λ value number. number ≡ cake_ack_filters.number value };

    fn from(value: TcCakeAckFilter) -> u32 {
        numbers!(number_of_variant(value))
    }
}
