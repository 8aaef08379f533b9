//! What becomes of a packet behind an action: `TC_ACT_*` of `linux/pkt_cls.h`.

ghost use Rattle.std.specs.Prelude.{◌≡◌};
ghost use Rattle.npr_tc_actions.specs.ActionType.{action_types};

/// What becomes of a packet behind an action: `TC_ACT_*` of `linux/pkt_cls.h`. It is written as 4 bytes,
/// a signed number, little endian.
///
/// An action that passes over others is `Other`: `TC_ACT_JUMP`, 0x1000_0000, and how many it passes
/// over; one that goes to a chain too: `TC_ACT_GOTO_CHAIN`, 0x2000_0000, and the chain.
#[derive(Clone, Copy, Debug, Default, PartialEq, Eq)]
pub enum TcActionType {
    /// `TC_ACT_UNSPEC`: filters go on.
    #[default]
    Unspec,
    /// `TC_ACT_OK`: it goes on.
    Ok,
    /// `TC_ACT_RECLASSIFY`: filters begin anew.
    Reclassify,
    /// `TC_ACT_SHOT`: it is dropped.
    Shot,
    /// `TC_ACT_PIPE`: the next action has it.
    Pipe,
    /// `TC_ACT_STOLEN`: it was taken.
    Stolen,
    /// `TC_ACT_QUEUED`: it waits.
    Queued,
    /// `TC_ACT_REPEAT`: the action has it again.
    Repeat,
    /// `TC_ACT_REDIRECT`: it goes to another device.
    Redirect,
    /// `TC_ACT_TRAP`: the processor has it, where a device forwarded it.
    Trap,
    /// Any other number.
    Other(i32),
}

/// Their numbers.
macro_rules! numbers {
    ($body:ident ($($given:tt)*)) => {
        npr_base::$body!(($($given)*) TcActionType {
            -1 Unspec;
            0 Ok;
            1 Reclassify;
            2 Shot;
            3 Pipe;
            4 Stolen;
            5 Queued;
            6 Repeat;
            7 Redirect;
            8 Trap;
        })
    };
}

impl From<i32> for TcActionType {
    ghost from_gives = { λ number value. value ≡ action_types.of number };

    fn from(number: i32) -> TcActionType {
        numbers!(variant_of_number(number))
    }
}

impl From<TcActionType> for i32 {
    ghost from_gives = { λ value number. number ≡ action_types.number value };

    fn from(value: TcActionType) -> i32 {
        numbers!(number_of_variant(value))
    }
}
