//! What governs the options of an action.

ghost use Rattle.std.specs.Prelude.{◌≡◌};
ghost use Rattle.npr_tc_actions.specs.Form.{form_named};

/// What governs the options of an action: the kinds whose options have a set. Each has the number that C
/// sees.
#[derive(Clone, Copy, Debug, Default, PartialEq, Eq)]
pub enum TcActionForm {
    /// Options that are kept as they stand.
    #[default]
    Kept = 0,
    /// The options of `mirred`.
    Mirror = 1,
    /// The options of `nat`.
    Nat = 2,
    /// The options of `tunnel_key`.
    TunnelKey = 3,
    /// The options of `gact`.
    Gact = 4,
    /// The options of `police`.
    Police = 5,
    /// The options of `vlan`.
    Vlan = 6,
    /// The options of `skbedit`.
    Skbedit = 7,
    /// The options of `csum`.
    Csum = 8,
    /// The options of `ct`.
    Ct = 9,
    /// The options of `sample`.
    Sample = 10,
    /// The options of `bpf`.
    Bpf = 11,
    /// The options of `pedit`.
    Pedit = 12,
}

/// What governs options, by the names of the kinds.
macro_rules! forms {
    ($body:ident ($($given:tt)*)) => {
        npr_base::$body!(($($given)*) TcActionForm {
            "mirred" Mirror;
            "nat" Nat;
            "tunnel_key" TunnelKey;
            "gact" Gact;
            "police" Police;
            "vlan" Vlan;
            "skbedit" Skbedit;
            "csum" Csum;
            "ct" Ct;
            "sample" Sample;
            "bpf" Bpf;
            "pedit" Pedit;
        })
    };
}

/// What governs options under a kind of this name.
pub fn action_form_of_name(name: &[u8]) -> TcActionForm
    ensures { result ≡ form_named name.now }
{
    forms!(form_of_kind(name))
}

impl TcActionForm {
    /// What governs options under a kind of this name.
    pub fn of(name: &str) -> TcActionForm
        ensures { result ≡ form_named name.now }
    {
        action_form_of_name(name.as_bytes())
    }
}
