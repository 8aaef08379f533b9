//! What is done with the value of a key: `TCA_PEDIT_KEY_EX_CMD_*` of
//! `linux/tc_act/tc_pedit.h`.

ghost use Rattle.std.specs.Prelude.{◌≡◌};
ghost use Rattle.npr_tc_actions.specs.PeditCommand.{pedit_commands};

/// What is done with the value of a key: `TCA_PEDIT_KEY_EX_CMD_*` of
/// `linux/tc_act/tc_pedit.h`. It is written as 2 bytes, little endian.
#[derive(Clone, Copy, Debug, PartialEq, Eq)]
pub enum TcPeditCommand {
    /// `TCA_PEDIT_KEY_EX_CMD_SET`: it is written.
    Set,
    /// `TCA_PEDIT_KEY_EX_CMD_ADD`: it is added to what stands there.
    Add,
    /// Any other number.
    Other(u16),
}

/// Their numbers.
macro_rules! numbers {
    ($body:ident ($($given:tt)*)) => {
        npr_base::$body!(($($given)*) TcPeditCommand {
            0 Set;
            1 Add;
        })
    };
}

impl From<u16> for TcPeditCommand {
    ghost from_gives = { λ number value. value ≡ pedit_commands.of number };

    fn from(number: u16) -> TcPeditCommand {
        numbers!(variant_of_number(number))
    }
}

impl From<TcPeditCommand> for u16 {
    ghost from_gives = { λ value number. number ≡ pedit_commands.number value };

    fn from(value: TcPeditCommand) -> u16 {
        numbers!(number_of_variant(value))
    }
}
