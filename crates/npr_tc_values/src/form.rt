//! What governs the data of a queueing discipline or a filter.

ghost use Rattle.std.specs.Prelude.{◌≡◌};
ghost use Rattle.npr_tc_values.specs.Form.{form_named};

/// What governs the data of a queueing discipline or a filter: the kinds whose data have a set. Each has the
/// number that C sees.
#[derive(Clone, Copy, Debug, Default, PartialEq, Eq)]
pub enum TcForm {
    /// Data that are kept as they stand.
    #[default]
    Kept = 0,
    /// The data of `fq_codel`.
    FqCodel = 1,
    /// The data of `ingress`.
    Ingress = 2,
    /// The data of `clsact`.
    Clsact = 3,
    /// The data of `u32`.
    U32 = 4,
    /// The data of `flower`.
    Flower = 5,
    /// The data of `matchall`.
    MatchAll = 6,
    /// The data of `htb`.
    Htb = 7,
    /// The data of `tbf`.
    Tbf = 8,
    /// The data of `red`.
    Red = 9,
    /// The data of `fq`.
    Fq = 10,
    /// The data of `netem`.
    Netem = 11,
    /// The data of `prio` and `pfifo_fast`.
    Prio = 12,
    /// The data of `pfifo`, `bfifo` and `pfifo_head_drop`.
    Fifo = 13,
    /// The data of the filter `fw`.
    Fw = 14,
    /// The data of the filter `bpf`.
    Bpf = 15,
    /// The data of `cake`.
    Cake = 16,
    /// The data of `sfq`.
    Sfq = 17,
    /// The data of the filter `basic`.
    Basic = 18,
}

/// What governs data, by the names of the kinds.
macro_rules! forms {
    ($body:ident ($($given:tt)*)) => {
        npr_base::$body!(($($given)*) TcForm {
            "fq_codel" FqCodel;
            "ingress" Ingress;
            "clsact" Clsact;
            "u32" U32;
            "flower" Flower;
            "matchall" MatchAll;
            "htb" Htb;
            "tbf" Tbf;
            "red" Red;
            "fq" Fq;
            "netem" Netem;
            "prio" Prio;
            "pfifo_fast" Prio;
            "pfifo" Fifo;
            "bfifo" Fifo;
            "pfifo_head_drop" Fifo;
            "fw" Fw;
            "bpf" Bpf;
            "cake" Cake;
            "sfq" Sfq;
            "basic" Basic;
        })
    };
}

/// What governs data under a kind of this name.
pub fn form_of_name(name: &[u8]) -> TcForm
    ensures { result ≡ form_named name.now }
{
    forms!(form_of_kind(name))
}

impl TcForm {
    /// What governs data under a kind of this name.
    pub fn of(name: &str) -> TcForm
        ensures { result ≡ form_named name.now }
    {
        form_of_name(name.as_bytes())
    }
}
