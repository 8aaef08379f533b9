//! Where a packet goes that is copied or sent on: `TCA_EGRESS_*` and `TCA_INGRESS_*` of
//! `linux/tc_act/tc_mirred.h`.

ghost use Rattle.std.specs.Prelude.{◌≡◌};
ghost use Rattle.npr_tc_actions.specs.MirrorActionType.{mirror_action_types};

/// Where a packet goes that is copied or sent on (`linux/tc_act/tc_mirred.h`). It is written as 4 bytes,
/// a signed number, little endian.
#[derive(Clone, Copy, Debug, Default, PartialEq, Eq)]
pub enum TcMirrorActionType {
    /// `TCA_EGRESS_REDIR`: it is sent by the device.
    #[default]
    EgressRedir,
    /// `TCA_EGRESS_MIRROR`: a copy is sent by the device.
    EgressMirror,
    /// `TCA_INGRESS_REDIR`: it is received by the device.
    IngressRedir,
    /// `TCA_INGRESS_MIRROR`: a copy is received by the device.
    IngressMirror,
    /// Any other number.
    Other(i32),
}

/// Their numbers.
macro_rules! numbers {
    ($body:ident ($($given:tt)*)) => {
        npr_base::$body!(($($given)*) TcMirrorActionType {
            1 EgressRedir;
            2 EgressMirror;
            3 IngressRedir;
            4 IngressMirror;
        })
    };
}

impl From<i32> for TcMirrorActionType {
    ghost from_gives = { λ number value. value ≡ mirror_action_types.of number };

    fn from(number: i32) -> TcMirrorActionType {
        numbers!(variant_of_number(number))
    }
}

impl From<TcMirrorActionType> for i32 {
    ghost from_gives = { λ value number. number ≡ mirror_action_types.number value };

    fn from(value: TcMirrorActionType) -> i32 {
        numbers!(number_of_variant(value))
    }
}
