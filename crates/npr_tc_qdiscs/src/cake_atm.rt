//! In which cells a link of `cake` sends: `CAKE_ATM_*` of `linux/pkt_sched.h`.

ghost use Rattle.std.specs.Prelude.{◌≡◌};
ghost use Rattle.npr_tc_qdiscs.specs.CakeAtm.{cake_atms};

/// In which cells a link of `cake` sends: `CAKE_ATM_*` of `linux/pkt_sched.h`. It is written as 4 bytes,
/// little endian.
#[derive(Clone, Copy, Debug, PartialEq, Eq)]
pub enum TcCakeAtm {
    /// `CAKE_ATM_NONE`: in none.
    None,
    /// `CAKE_ATM_ATM`: in those of ATM.
    Atm,
    /// `CAKE_ATM_PTM`: in the blocks of PTM.
    Ptm,
    /// Any other number.
    Other(u32),
}

/// Their numbers.
macro_rules! numbers {
    ($body:ident ($($given:tt)*)) => {
        npr_base::$body!(($($given)*) TcCakeAtm {
            0 None;
            1 Atm;
            2 Ptm;
        })
    };
}

impl From<u32> for TcCakeAtm {
    ghost from_gives = { λ number value. value ≡ cake_atms.of number };

    fn from(number: u32) -> TcCakeAtm {
        numbers!(variant_of_number(number))
    }
}

impl From<TcCakeAtm> for u32 {
    ghost from_gives = { λ value number. number ≡ cake_atms.number value };

    fn from(value: TcCakeAtm) -> u32 {
        numbers!(number_of_variant(value))
    }
}
