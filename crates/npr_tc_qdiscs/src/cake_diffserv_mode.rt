//! By which classes of service `cake` tells its tins apart: `CAKE_DIFFSERV_*` of `linux/pkt_sched.h`.

ghost use Rattle.std.specs.Prelude.{◌≡◌};
ghost use Rattle.npr_tc_qdiscs.specs.CakeDiffservMode.{cake_diffserv_modes};

/// By which classes of service `cake` tells its tins apart: `CAKE_DIFFSERV_*` of `linux/pkt_sched.h`. It is
/// written as 4 bytes, little endian.
#[derive(Clone, Copy, Debug, PartialEq, Eq)]
pub enum TcCakeDiffservMode {
    /// `CAKE_DIFFSERV_DIFFSERV3`: three tins.
    Diffserv3,
    /// `CAKE_DIFFSERV_DIFFSERV4`: four.
    Diffserv4,
    /// `CAKE_DIFFSERV_DIFFSERV8`: eight.
    Diffserv8,
    /// `CAKE_DIFFSERV_BESTEFFORT`: one.
    BestEffort,
    /// `CAKE_DIFFSERV_PRECEDENCE`: eight, by the precedence of the header.
    Precedence,
    /// Any other number.
    Other(u32),
}

/// Their numbers.
macro_rules! numbers {
    ($body:ident ($($given:tt)*)) => {
        npr_base::$body!(($($given)*) TcCakeDiffservMode {
            0 Diffserv3;
            1 Diffserv4;
            2 Diffserv8;
            3 BestEffort;
            4 Precedence;
        })
    };
}

impl From<u32> for TcCakeDiffservMode {
    ghost from_gives = { λ number value. value ≡ cake_diffserv_modes.of number };

    fn from(number: u32) -> TcCakeDiffservMode {
        numbers!(variant_of_number(number))
    }
}

impl From<TcCakeDiffservMode> for u32 {
    ghost from_gives = { λ value number. number ≡ cake_diffserv_modes.number value };

    fn from(value: TcCakeDiffservMode) -> u32 {
        numbers!(number_of_variant(value))
    }
}
