//! How a rate is estimated: `struct tc_estimator` of `linux/pkt_sched.h`.

ghost use Rattle.std.specs.Prelude.{◌≡◌, IfOk, IfErr};
ghost use Rattle.{npr_base.specs.{Codec.{leading}, Refusal.{no_place}}, npr_tc_values.specs.Estimator.{estimator}};

use npr_base::{DecodeError, EmitError, Emitable, leading_octets, write_array};

/// How a rate is estimated.
///
/// Layout (`struct tc_estimator` of `linux/pkt_sched.h`), 2 bytes: a signed one and one without a sign.
#[derive(Clone, Copy, Debug, Default, PartialEq, Eq)]
pub struct TcEstimator {
    /// Over how long it is measured: 2 to this, in seconds; -2 is a quarter.
    pub interval: i8,
    /// How little the newest measure weighs: one part in 2 to this.
    pub ewma_log: u8,
}

impl TcEstimator {
    /// The values in the first 2 bytes; more are not looked at.
    ///
    /// # Errors
    /// `HeaderTooShort` below 2 bytes.
    pub fn parse(bytes: &[u8]) -> Result<Self, DecodeError>
        ensures ok { IfOk result (λ x. (leading estimator).Reads bytes.now x) }
        ensures refused { IfErr result (λ e. (leading estimator).Wrong no_place bytes.now e) }
    {
        let b = leading_octets(bytes, 2)?;
        Ok(TcEstimator {
            interval: i8::from_le_bytes([b[0]]),
            ewma_log: b[1],
        })
    }

    /// The 2 bytes of the layout.
    pub fn to_bytes(&self) -> [u8; 2]
        ensures { result ≡ estimator.encode self.now }
    {
        let [a0] = self.interval.to_le_bytes();
        [a0, self.ewma_log]
    }
}

impl Emitable for TcEstimator {
    ghost bytes = { estimator.encode };

    fn check(&self) -> Result<usize, EmitError> {
        Ok(2)
    }

    fn emit(&self, out: &mut [u8]) {
        write_array(self.to_bytes(), out);
    }
}
