//! What an action does with the VLAN of a packet: `linux/tc_act/tc_vlan.h`.

ghost use Rattle.std.specs.Prelude.{◌≡◌};
ghost use Rattle.npr_tc_actions.specs.VlanActionType.{vlan_action_types};

/// What an action does with the VLAN of a packet (`linux/tc_act/tc_vlan.h`). It is written as 4 bytes, a signed number, little endian.
#[derive(Clone, Copy, Debug, Default, PartialEq, Eq)]
pub enum TcVlanActionType {
    /// `TCA_VLAN_ACT_POP`: it takes the outer one.
    #[default]
    Pop,
    /// `TCA_VLAN_ACT_PUSH`: it adds one.
    Push,
    /// `TCA_VLAN_ACT_MODIFY`: it changes the outer one.
    Modify,
    /// `TCA_VLAN_ACT_POP_ETH`: it takes the header of Ethernet.
    PopEth,
    /// `TCA_VLAN_ACT_PUSH_ETH`: it adds a header of Ethernet.
    PushEth,
    /// Any other number.
    Other(i32),
}

/// Their numbers.
macro_rules! numbers {
    ($body:ident ($($given:tt)*)) => {
        npr_base::$body!(($($given)*) TcVlanActionType {
            1 Pop;
            2 Push;
            3 Modify;
            4 PopEth;
            5 PushEth;
        })
    };
}

impl From<i32> for TcVlanActionType {
    ghost from_gives = { λ number value. value ≡ vlan_action_types.of number };

    fn from(number: i32) -> TcVlanActionType {
        numbers!(variant_of_number(number))
    }
}

impl From<TcVlanActionType> for i32 {
    ghost from_gives = { λ value number. number ≡ vlan_action_types.number value };

    fn from(value: TcVlanActionType) -> i32 {
        numbers!(number_of_variant(value))
    }
}
