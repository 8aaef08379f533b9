//! Who runs the spanning tree of a bridge: `BR_NO_STP`, `BR_KERNEL_STP` and `BR_USER_STP` of `net/bridge/br_private.h`.

ghost use Rattle.std.specs.Prelude.{◌≡◌};
ghost use Rattle.npr_link_bridge.specs.StpState.{stp_states};

/// Who runs the spanning tree of a bridge: `BR_NO_STP`, `BR_KERNEL_STP` and `BR_USER_STP` of `net/bridge/br_private.h`. It is
/// written as 4 bytes, little endian.
#[derive(Clone, Copy, Debug, PartialEq, Eq)]
pub enum BridgeStpState {
    /// Nobody.
    Disabled,
    /// The kernel.
    KernelStp,
    /// A program.
    UserStp,
    /// Any other number.
    Other(u32),
}

/// Their numbers.
macro_rules! numbers {
    ($body:ident ($($given:tt)*)) => {
        npr_base::$body!(($($given)*) BridgeStpState {
            0 Disabled;
            1 KernelStp;
            2 UserStp;
        })
    };
}

impl From<u32> for BridgeStpState {
    ghost from_gives = { λ number value. value ≡ stp_states.of number };

    fn from(number: u32) -> BridgeStpState {
        numbers!(variant_of_number(number))
    }
}

impl From<BridgeStpState> for u32 {
    ghost from_gives = { λ value number. number ≡ stp_states.number value };

    fn from(value: BridgeStpState) -> u32 {
        numbers!(number_of_variant(value))
    }
}
