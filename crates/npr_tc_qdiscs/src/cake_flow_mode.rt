//! By what `cake` tells flows apart: `CAKE_FLOW_*` of `linux/pkt_sched.h`.

ghost use Rattle.std.specs.Prelude.{◌≡◌};
ghost use Rattle.npr_tc_qdiscs.specs.CakeFlowMode.{cake_flow_modes};

/// By what `cake` tells flows apart: `CAKE_FLOW_*` of `linux/pkt_sched.h`. It is written as 4 bytes, little
/// endian.
#[derive(Clone, Copy, Debug, PartialEq, Eq)]
pub enum TcCakeFlowMode {
    /// `CAKE_FLOW_NONE`: by nothing.
    None,
    /// `CAKE_FLOW_SRC_IP`: by where packets come from.
    SrcIp,
    /// `CAKE_FLOW_DST_IP`: by where they go.
    DstIp,
    /// `CAKE_FLOW_HOSTS`: by both.
    Hosts,
    /// `CAKE_FLOW_FLOWS`: by the whole flow.
    Flows,
    /// `CAKE_FLOW_DUAL_SRC`: by the flow, and fair among those that send.
    DualSrc,
    /// `CAKE_FLOW_DUAL_DST`: by the flow, and fair among those that receive.
    DualDst,
    /// `CAKE_FLOW_TRIPLE`: by the flow, and fair among both.
    Triple,
    /// Any other number.
    Other(u32),
}

/// Their numbers.
macro_rules! numbers {
    ($body:ident ($($given:tt)*)) => {
        npr_base::$body!(($($given)*) TcCakeFlowMode {
            0 None;
            1 SrcIp;
            2 DstIp;
            3 Hosts;
            4 Flows;
            5 DualSrc;
            6 DualDst;
            7 Triple;
        })
    };
}

impl From<u32> for TcCakeFlowMode {
    ghost from_gives = { λ number value. value ≡ cake_flow_modes.of number };

    fn from(number: u32) -> TcCakeFlowMode {
        numbers!(variant_of_number(number))
    }
}

impl From<TcCakeFlowMode> for u32 {
    ghost from_gives = { λ value number. number ≡ cake_flow_modes.number value };

    fn from(value: TcCakeFlowMode) -> u32 {
        numbers!(number_of_variant(value))
    }
}
